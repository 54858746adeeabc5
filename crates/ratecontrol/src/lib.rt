//! The rate controller: from a budget to a quantiser, and from a coded frame's bits to the next budget, in one pass or in two. What passes
//! hand on comes from `pass_data`, and the numbers of the reservoir from `reservoir`.
//!
//! All logarithms are binary and in Q57 where nothing else is said. Memory is taken by the call alone that begins a second pass.
//!
//! Lemmas of crates above cite `specs/`, `proofs/KeptLaws` and `proofs/GivenLaws`, and nothing else of this crate's proofs.
#![tactic(auto)]

mod ahead;
mod first_pass;
mod guess;
pub mod laws;
mod passes;
mod second_pass;
mod select;
mod state;
mod target;
mod update;

pub use guess::{Guess, SubtypeGuess};
pub use pass_data::PassDataError;
pub use quantizers::{BadTable, LogQuantizer, QSettings, QTables, QuantizerParameters};
pub use rate_model::{
    FRAME_NSUBTYPES, FRAME_SUBTYPE_B0, FRAME_SUBTYPE_B1, FRAME_SUBTYPE_I, FRAME_SUBTYPE_P,
    FRAME_SUBTYPE_SEF, RateModel, Search, search_base_q,
};
pub use state::RCState;
