//! What every crate above shares: a list that contracts see as a list, the error for want of memory, and the words on
//! counts of faults.
#![tactic(auto)]

mod memory;
mod sequence;

pub use memory::OutOfMemory;
pub use sequence::{Bytes, Sequence};
