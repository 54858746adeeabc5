//! Settings of 64 x 80, and what sessions of them stand on.

use av1_frame::{ChromaSampling, Frame};
use av1_settings::{EncoderConfig, RateControlConfig};
use coding_base::OutOfMemory;
use session_core::{FrameParameters, FrameTypeOverride, T35List};
use std::alloc::Global;
use std::sync::Arc;
use std::test::Fail;

/// Settings with this greatest key interval and so many coded frames of lookahead.
pub fn settings(interval: u64, rdo: usize) -> EncoderConfig {
    let mut enc = EncoderConfig::default();
    enc.width = 64;
    enc.height = 80;
    enc.set_key_frame_interval(0, interval);
    enc.speed_settings.rdo_lookahead_frames = rdo;
    enc
}

/// Settings with a bitrate.
pub fn controlled() -> EncoderConfig {
    let mut enc = settings(5, 10);
    enc.bitrate = 30000;
    enc
}

/// A frame that fits them.
pub fn picture(alloc: Global) -> Result<Arc<Frame<u16>>, OutOfMemory> {
    Ok(Arc::new(alloc, Frame::new(alloc, 64, 80, ChromaSampling::Cs420)?)?)
}

/// What is sent with a frame of this number.
pub fn parameters(alloc: Global, number: u64, forced: bool) -> FrameParameters<u64> {
    FrameParameters {
        frame_type_override: match forced {
            true => FrameTypeOverride::Key,
            false => FrameTypeOverride::No,
        },
        opaque: Some(number),
        t35_metadata: T35List::new(alloc),
    }
}

/// Which passes a session makes.
#[derive(Clone, Copy, PartialEq)]
pub enum Passes {
    /// One.
    One,
    /// The first of two.
    First,
    /// The second of two, with a summary of one frame.
    Second,
}

/// The rate control of these passes.
pub fn rate_control(passes: Passes) -> Result<RateControlConfig, Fail> {
    Ok(match passes {
        Passes::One => RateControlConfig::new(),
        Passes::First => RateControlConfig::new().with_emit_data(true),
        Passes::Second => RateControlConfig::from_summary_slice(&SUMMARY)?,
    })
}

/// A summary of one temporal unit.
pub const SUMMARY: [u8; 68] = [
    0x56, 0x41, 0x32, 0x50, 1, 0, 0, 0, 1, 0, 0, 0, 1, 0, 0, 0, 0, 0, 0, 0, 0, 0, 0, 0, 0, 0, 0, 0,
    0, 0, 0, 0, 0x30, 0x45, 0x54, 0x57, 0, 0, 0, 0, 0, 0, 0, 0, 0, 0, 0, 0, 0, 0, 0, 0, 0, 0, 0, 0,
    0, 0, 0, 0, 0, 0, 0, 0, 0, 0, 0, 0,
];

/// A summary with another magic number.
pub const DAMAGED: [u8; 68] = [
    0x57, 0x41, 0x32, 0x50, 1, 0, 0, 0, 1, 0, 0, 0, 1, 0, 0, 0, 0, 0, 0, 0, 0, 0, 0, 0, 0, 0, 0, 0,
    0, 0, 0, 0, 0x30, 0x45, 0x54, 0x57, 0, 0, 0, 0, 0, 0, 0, 0, 0, 0, 0, 0, 0, 0, 0, 0, 0, 0, 0, 0,
    0, 0, 0, 0, 0, 0, 0, 0, 0, 0, 0, 0,
];

/// The metrics of a key frame of log scale 1 in Q24, which is shown.
pub const METRICS: [u8; 8] = [0, 0, 0, 0x80, 0, 0, 0, 1];
