//! Scripts that a number makes: a session with a bitrate, whose scene cuts and frame sizes are pseudorandom.
#![tactic(auto)]

mod numbers;
mod script;

pub use script::{FRAMES, RECEIVES, generated_script};
