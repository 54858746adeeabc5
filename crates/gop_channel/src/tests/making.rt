// What the jobs of these tests are coded with.
ghost use Rattle.std.specs.Prelude.{None};

use av1_frame::{ChromaSampling, Frame};
use av1_settings::{Config, EncoderConfig};
use coding_base::OutOfMemory;
use gop_board::MakeSession;
use scripted::ScriptedCoder;
use session_channels::{FrameMessage, LocalQueue};
use session_core::NoScale;
use std::alloc::Global;
use std::sync::Arc;

/// From job number `from` on its coders fail their call number `fails`.
#[derive(Clone, Copy)]
pub struct ScriptedMaker {
    pub from: u64,
    pub fails: u64,
}

/// No job of these tests fails.
pub const SOUND: ScriptedMaker = ScriptedMaker { from: 3, fails: 0 };

impl MakeSession<u8> for ScriptedMaker {
    ghost told = { λ maker job first. record {
      gives = None;
      fails_after = None;
      answers = None;
    } };

    type Scales = NoScale;

    type Coder = ScriptedCoder;

    fn make(
        &self,
        alloc: Global,
        job: u64,
        _first: u64,
    ) -> Result<(NoScale, ScriptedCoder), OutOfMemory> {
        if job < self.from {
            return Ok((NoScale, ScriptedCoder::new(alloc)));
        }
        let coder = ScriptedCoder::with_rules(alloc, &[], &[self.fails])?;
        Ok((NoScale, coder))
    }
}

/// Settings of 64 x 80 with a lookahead of one frame.
pub fn settings() -> Config {
    let mut enc = EncoderConfig::default();
    enc.width = 64;
    enc.height = 80;
    enc.speed_settings.rdo_lookahead_frames = 1;
    Config::new().with_encoder_config(enc)
}

pub type Frames = LocalQueue<FrameMessage<u8, ()>>;

/// A queue of frames of 80 rows and these widths, at most 64.
pub fn frames_of(alloc: Global, widths: &[usize]) -> Result<Frames, OutOfMemory> {
    let mut frames = LocalQueue::new(alloc, None);
    for width in widths {
        let frame = Frame::new(alloc, (*width).min(64), 80, ChromaSampling::Cs420)?;
        if frames.put((Arc::new(alloc, frame)?, None)).is_err() {
            return Err(OutOfMemory);
        }
    }
    Ok(frames)
}
