//! What a session's coder was asked for, and the rate control that goes by it: the entries of a session's log, the
//! quantisers that they lead to, and what the two passes hand on.
#![tactic(auto)]

mod entry;
mod passes;
mod rate;

pub use entry::{LogEntry, LogList};
pub use rate::SessionRate;
pub use ratecontrol::{
    BadTable, Guess, PassDataError, QTables, QuantizerParameters, RCState, SubtypeGuess,
};
