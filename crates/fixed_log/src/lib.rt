//! The fixed-point arithmetic of a rate controller, as rav1e has it: binary logarithms and exponentials, and a
//! second-order Bessel filter that follows a value. For what a rate controller makes of them, `wide` has arithmetic in 128 bits.
//!
//! A number in Q57 is a whole number that stands for itself over `2^57`, and likewise in Q24, Q11 and Q10. No call takes
//! memory or refuses an argument that its type and its condition allow.
#![tactic(auto)]

mod bessel;
mod conversion;
mod exponential;
mod logarithm;
mod polynomial;
mod table;
pub mod wide;

pub use bessel::IIRBessel2;
pub use conversion::{bexp_q24, q24_to_q57, q57, q57_to_q24};
pub use exponential::bexp64;
pub use logarithm::{blog32, blog64};
pub use polynomial::{bexp32_q10, blog32_q11};
