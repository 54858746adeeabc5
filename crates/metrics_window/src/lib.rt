//! The metrics that a second pass holds of the frames ahead, and what is counted over them.
//!
//! A second pass may hold the metrics of so many frames as its reservoir is evened out over: a window, whose tally is kept as metrics come and
//! go. Or it goes by the summary of the whole file, as a tally from which those of coded frames are taken off.
//!
//! Memory is taken by `MetricsWindow::with_room` alone.
#![tactic(auto)]

pub mod laws;
mod tally;
mod window;

pub use tally::Tally;
pub use window::MetricsWindow;
