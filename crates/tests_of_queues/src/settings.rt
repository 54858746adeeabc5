//! Settings of 64 x 80, and frames of that size.
ghost use Rattle.std.specs.Prelude.{◌≡◌, ◌≤◌, All, IfOk, IsTrue, None, length};
ghost use Rattle.av1_frame.specs.Planes.{fits};
ghost use Rattle.av1_settings.specs.Checks.{session_refusal};

use av1_frame::{ChromaSampling, Frame};
use av1_settings::{Config, EncoderConfig, LevelTables};
use coding_base::OutOfMemory;
use std::alloc::Global;
use std::sync::Arc;
use std::test::Fail;

/// Settings of 64 x 80 with this lookahead.
pub fn small(lookahead: usize) -> Config {
    let mut enc = EncoderConfig::default();
    enc.width = 64;
    enc.height = 80;
    enc.speed_settings.rdo_lookahead_frames = lookahead;
    Config::new().with_encoder_config(enc)
}

/// Settings of 64 x 80 with a lookahead of one frame, which are valid.
pub fn valid(levels: &LevelTables) -> Result<Config, Fail>
    ensures { IfOk result (λ config. session_refusal 8 levels.now config ≡ None) }
{
    let config = small(1);
    match config.validate_for_session(levels, 8) {
        Ok(()) => Ok(config),
        Err(_) => Err(Fail::from("invalid settings")),
    }
}

/// So many frames of 64 x 80, all one picture.
pub fn frames(alloc: Global, count: usize) -> Result<Vec<Arc<Frame<u8>>>, OutOfMemory> {
    let frame = Arc::new(alloc, Frame::new(alloc, 64, 80, ChromaSampling::Cs420)?)?;
    let mut frames = Vec::new(alloc);
    for _ in 0..count {
        frames.push(Arc::try_clone(&frame)?)?;
    }
    Ok(frames)
}

/// Whether all frames have the settings' size.
pub fn all_fit(enc: &EncoderConfig, frames: &[Arc<Frame<u8>>]) -> bool
    ensures { IsTrue result → All (λ frame. IsTrue (fits frame.value enc.now.width enc.now.height
        enc.now.chroma_sampling)) frames.now }
{
    frames.iter().all(|frame| frame.fits(enc.width, enc.height, enc.chroma_sampling))
}

/// So many frames, which fit the settings.
pub fn fitting_frames(
    alloc: Global,
    enc: &EncoderConfig,
    count: usize,
) -> Result<Vec<Arc<Frame<u8>>>, Fail>
    ensures fit { IfOk result (λ frames. All (λ frame. IsTrue (fits frame.value enc.now.width
        enc.now.height enc.now.chroma_sampling)) frames.items) }
    ensures few { IfOk result (λ frames. length frames.items ≤ 2147483646) }
{
    let frames = frames(alloc, count)?;
    if frames.len() > 2147483646 || !all_fit(enc, &frames) {
        return Err(Fail::from("frames of another size"));
    }
    Ok(frames)
}
