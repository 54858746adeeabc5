ghost use Rattle.std.specs.Prelude.{◌≡◌, ℕ, ◌≤◌, ◌^◌, [], ◌∷◌, pos, ◌≤ℤ◌};
ghost use Rattle.rate_model.specs.Curves.{curve, curve_by as curve_by_of, start_subtype, start_subtypes as start_subtypes_of};

use crate::subtype::SubtypeState;

/// A subtype whose exponent and scale are the first pair below `first` pixels for each bit, the second below `second`,
/// and the third from there on.
fn subtype(
    ibpp: i64,
    first: u8,
    low: (u8, u8),
    second: u8,
    middle: (u8, u8),
    high: (u8, u8),
    delay: i32,
) -> SubtypeState
    requires low { (1 ≤ low.0) × (1 ≤ low.1) }
    requires middle { (1 ≤ middle.0) × (1 ≤ middle.1) }
    requires high { (1 ≤ high.0) × (1 ≤ high.1) }
    requires delay_low { pos 3 ≤ℤ delay }
    requires delay_high { delay ≤ℤ pos (2 ^ 20) }
    ensures { result ≡ start_subtype delay (curve_by_of ibpp first (curve low.0 low.1) second
        (curve middle.0 middle.1) (curve high.0 high.1)) }
{
    if ibpp < first as i64 {
        SubtypeState::new(low.0, low.1, delay)
    } else if ibpp < second as i64 {
        SubtypeState::new(middle.0, middle.1, delay)
    } else {
        SubtypeState::new(high.0, high.1, delay)
    }
}

/// The subtypes at the start, by the pixels for each bit of a temporal unit.
#[tactic(auto, unfolding(crate::specs::Curves::start_subtypes))]
pub fn start_subtypes(ibpp: i64) -> [SubtypeState; 4]
    ensures { result ≡ start_subtypes_of ibpp }
{
    [
        subtype(ibpp, 1, (48, 36), 4, (61, 55), (77, 129), 4),
        subtype(ibpp, 2, (69, 32), 139, (104, 84), (83, 19), 10),
        subtype(ibpp, 2, (84, 30), 92, (120, 68), (68, 4), 10),
        subtype(ibpp, 2, (87, 27), 126, (139, 84), (61, 1), 10),
    ]
}
