//! A channel whose frames are coded as jobs side by side: frames are taken from a queue until it is closed, split into jobs,
//! coded on as many workers as are asked for, and the packets of all put into another queue, in order.
#![tactic(auto)]

mod drive;
mod gop_end;
mod new_channel;
mod putting;
mod taking;
#[cfg(test)]
mod tests;
mod worker;

pub use drive::drive_gops;
pub use gop_end::GopEnd;
pub use new_channel::{NewGopChannel, VideoDataChannel};
pub use worker::GopWorker;
