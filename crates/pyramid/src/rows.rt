ghost use Rattle.std.specs.Prelude.{◌≡◌};
ghost use Rattle.pyramid.specs.Rows.{rows};

/// A place of a group.
#[derive(Clone, Copy)]
pub struct Row {
    /// Its index in the group, in coding order.
    pub index: u64,
    /// How far its position is into the group.
    pub offset: u64,
    /// Its level in the pyramid.
    pub level: u64,
    /// Whether it is shown.
    pub shown: bool,
    /// Whether it shows what a slot holds, and codes nothing.
    pub existing: bool,
}

/// The place table of depth 0: one input in one place.
const ROWS_OF_DEPTH_ZERO: [Row; 1] = [Row {
    index: 0,
    offset: 1,
    level: 0,
    shown: true,
    existing: false,
}];

/// The place table of depth 2: four inputs in six places.
const ROWS_OF_DEPTH_TWO: [Row; 6] = [
    Row {
        index: 0,
        offset: 4,
        level: 0,
        shown: false,
        existing: false,
    },
    Row {
        index: 1,
        offset: 2,
        level: 1,
        shown: false,
        existing: false,
    },
    Row {
        index: 2,
        offset: 1,
        level: 2,
        shown: true,
        existing: false,
    },
    Row {
        index: 3,
        offset: 2,
        level: 1,
        shown: true,
        existing: true,
    },
    Row {
        index: 4,
        offset: 3,
        level: 2,
        shown: true,
        existing: false,
    },
    Row {
        index: 5,
        offset: 4,
        level: 0,
        shown: true,
        existing: true,
    },
];

// The place table of a depth, without rows where there is none.
#[tactic(auto, unfolding(crate::specs::Rows::rows))]
pub(crate) fn rows(depth: u32) -> &'static [Row]
    ensures { result.now ≡ rows depth }
{
    if depth == 0 {
        return &ROWS_OF_DEPTH_ZERO;
    }
    if depth == 2 {
        return &ROWS_OF_DEPTH_TWO;
    }
    &[]
}
