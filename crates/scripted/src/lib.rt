//! A coder, a detector and mean scales for programs and tests, which answer by a rule and tell what they were asked for; and the
//! tables that go with them.
#![tactic(auto)]

mod coder;
mod detector;
mod levels;
mod numbers;
mod scales;
mod tables;

pub use coder::{Given, ScriptedCoder};
pub use detector::{Question, ScriptedDetector};
pub use levels::no_levels;
pub use scales::{Measured, ScriptedScales};
pub use tables::scripted_tables;
