//! What the two passes of a rate controller hand on: the statistics that a first pass emits, and what a second pass was given of them,
//! in pieces of bytes or in packets, with the frames ahead that it sees.
//!
//! Memory is taken by `GivenData::take_window` alone.
#![tactic(auto)]

mod emitted;
mod error;
pub mod file_end;
mod given;
pub mod laws;
mod look_ahead;
mod pieces;
mod rc_data;
pub mod scales;

pub use emitted::EmittedData;
pub use error::PassDataError;
pub use given::{GivenData, Header};
pub use look_ahead::LookAhead;
pub use rc_data::RcData;
