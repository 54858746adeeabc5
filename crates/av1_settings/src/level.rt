ghost use Rattle.std.specs.Prelude.{◌≡◌};
ghost use Rattle.av1_settings.specs.Levels.{levels_of};

/// What a level allows (a row of the AV1 specification's tables of levels).
#[derive(Clone, Copy, Debug)]
pub struct LevelRow {
    /// Whether there is such a level.
    pub defined: bool,
    /// The most luma samples of a picture.
    pub max_pic_size: u64,
    /// The greatest width in samples.
    pub max_h_size: u64,
    /// The greatest height in samples.
    pub max_v_size: u64,
    /// The most luma samples that are shown in a second.
    pub max_display_rate: u64,
}

/// The levels with the indexes 0 to 30; 31 stands for none.
#[derive(Debug, Drop)]
pub struct LevelTables {
    pub(crate) rows: [LevelRow; 31],
}

impl LevelTables {
    /// The tables with these rows, by level index.
    pub fn new(rows: [LevelRow; 31]) -> LevelTables
        ensures { levels_of result ≡ rows }
    {
        LevelTables { rows }
    }
}
