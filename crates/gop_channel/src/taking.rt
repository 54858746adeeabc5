// The frames that are taken from a queue.
ghost use Rattle.std.specs.Prelude.{◌≡◌, None, List, IfOk, OnErr, length, map};
ghost use Rattle.av1_frame.specs.declared.frame.Frame.{Frame as Picture};
ghost use Rattle.gop_channel.specs.Messages.{SaidClosed, TakesAll};
ghost use Rattle.gop_channel.specs.Taking.{Took, refusal};

use av1_frame::Frame;
use av1_settings::{EncoderConfig, EncoderStatus};
use coding_base::OutOfMemory;
use session_channels::{FrameMessage, Take};
use std::alloc::Global;
use std::sync::Arc;

// The most frames that a session accepts.
const MOST_FRAMES: usize = 2147483646;

// Frames that were accepted, and why the one behind them was refused, if one was.
#[derive(Drop)]
pub(crate) struct Taken<T> {
    pub frames: Vec<Arc<Frame<T>>>,
    pub refused: Option<EncoderStatus>,
}

// Takes frames until the queue is closed or a frame is refused.
pub(crate) fn take_frames<T: Drop, F: Take<FrameMessage<T, ()>>>(
    alloc: Global,
    enc: &EncoderConfig,
    queue: &mut F,
) -> Result<Taken<T>, OutOfMemory>
    ensures took { IfOk result (λ taken. Took enc.now
        (TakesAll F.contents F.queue queue.old queue.new)
        (map (λ frame. frame.value) taken.frames.items) taken.refused) }
    ensures ended { IfOk result (λ taken. taken.refused ≡ None
        → SaidClosed (F.queue queue.old) (F.queue queue.new)) }
    ensures lacked { OnErr result ((frames : List (Picture T))
        × Took enc.now (TakesAll F.contents F.queue queue.old queue.new) frames None) }
{
    let mut frames = Vec::new(alloc);
    for _ in 0..MOST_FRAMES + 1 {
        let Ok((frame, _)) = queue.take() else {
            return Ok(Taken {
                frames,
                refused: None,
            });
        };
        if let Some(status) = refusal(enc, frames.len(), &frame) {
            return Ok(Taken {
                frames,
                refused: Some(status),
            });
        }
        frames.push(frame)?;
    }
    unreachable!()
}

// Why a frame that comes behind so many is refused.
fn refusal<T>(enc: &EncoderConfig, frames: usize, frame: &Frame<T>) -> Option<EncoderStatus>
    ensures { result ≡ refusal enc.now frames frame.now }
{
    if enc.still_picture && frames >= 1 || frames >= MOST_FRAMES {
        Some(EncoderStatus::EnoughData)
    } else if frame.fits(enc.width, enc.height, enc.chroma_sampling) {
        None
    } else {
        Some(EncoderStatus::FrameSizeMismatch)
    }
}
