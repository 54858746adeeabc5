//! The numbers of a reservoir of bits: how much it can hold, how a frame moves it, and the base, the power and the target of a quantiser
//! that it asks for. What is kept of them is in `ratecontrol`.
//!
//! No call takes memory.
#![tactic(auto)]

pub mod fill;
pub mod levels;
pub mod moves;
pub mod powers;
