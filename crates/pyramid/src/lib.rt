//! The frame pyramid: where each frame stands in its GOP, which slots it names and refreshes, and the plan of a session.
//!
//! Lemmas of crates above cite `specs/` and `proofs/PublicLaws`, and nothing else of this crate's proofs.
#![tactic(auto)]

mod command;
mod guess;
mod inter_config;
pub mod laws;
mod named;
mod place;
mod plans;
mod refs;
mod row_command;
mod rows;
mod schedule;
mod spot;

pub use command::Command;
pub use guess::GuessedAhead;
pub use inter_config::InterConfig;
pub use place::{Place, PlaceRow};
pub use plans::plan;
pub use refs::Refs;
pub use schedule::Schedule;
