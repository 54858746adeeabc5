//! Frames and planes: what an encoder is handed for each picture.
#![tactic(auto)]

mod frame;
mod pixel;
mod sampling;

pub use frame::{Frame, Pixels, Plane};
pub use pixel::Pixel;
pub use sampling::{ChromaSampling, sizes};
