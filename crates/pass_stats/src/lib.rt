//! The statistics that a first pass of an encoder leaves for the second: a summary of 68 bytes,
//! and 8 bytes of metrics for each frame, both little-endian.
//!
//! | bytes of a summary | field | allowed |
//! |---|---|---|
//! | 0 to 3 | magic, u32 | `0x50324156`, the bytes `56 41 32 50` |
//! | 4 to 7 | version, u32 | 1 |
//! | 8 to 11 | temporal units, i32 | at least 1, at most the sum of the counts |
//! | 12 to 31 | five frame counts, i32 each | none negative, the first at least 1, their sum an i32 |
//! | 32 to 35 | four exponents, one byte each | none 0 |
//! | 36 to 67 | four scale sums, i64 each | none negative |
//!
//! | bytes of metrics | field | allowed |
//! |---|---|---|
//! | 0 to 3, bits 0 to 30 | frame subtype | 0 to 4 |
//! | 0 to 3, bit 31 | the frame is shown | any |
//! | 4 to 7 | logarithm of the scale in Q24, i32 | any |
//!
//! Nothing here takes memory. Of the lemmas in `proofs/`, callers may name those of `Entries`.
#![tactic(auto)]

mod bytes;
mod deserialize;
mod error;
pub mod laws;
mod metrics;
mod parse;
mod summary;
mod write;

pub use deserialize::RCDeserialize;
pub use error::{InvalidFrameType, RateControlError, Why};
pub use metrics::{RCFrameMetrics, parse_metrics, write_metrics};
pub use parse::parse_summary;
pub use summary::RCSummary;
pub use write::{write_placeholder, write_summary};
