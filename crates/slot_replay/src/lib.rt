//! The display machine: commands are replayed on eight slots, and it is seen which frames they show.
#![tactic(auto)]

mod machine;
mod replays;

pub use machine::{Display, EmptySlot};
pub use replays::{ReplayError, replay};
