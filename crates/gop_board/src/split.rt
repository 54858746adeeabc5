// How frames are split into jobs.
ghost use Rattle.std.specs.Prelude.{◌≡◌, ◌+◌, ◌-◌, ◌<◌, ◌++◌, ◌∷◌, [], IfOk, IfSome, MatchBool, OnOk, drop, length, map, take};
ghost use Rattle.session_core.specs.Told.{Grew, IsDetectorLater, told_ask};
ghost use Rattle.gop_board.specs.Jobs.{IsSplit, frames_near};

use crate::{FrameList, Job};
use av1_frame::Frame;
use av1_settings::{Config, EncoderConfig};
use coding_base::OutOfMemory;
use pyramid::InterConfig;
use session_core::Detector;
use std::alloc::Global;
use std::mem;
use std::sync::Arc;

/// Splits frames into jobs, in order: one starts at position 0, and one at each position where the detector answers yes. It is
/// asked once of each position from 1 on, with the settings' scene detection mode, the start of the job so far, and the frames
/// from the one before the position on, at most one more than the pyramid looks ahead. No frames give no job.
pub fn split_gops<T: Drop, D: Detector<T>>(
    alloc: Global,
    cfg: &Config,
    frames: Vec<Arc<Frame<T>>>,
    detector: &mut D,
) -> Result<Vec<Job<T>>, OutOfMemory>
    ensures split { IfOk result (λ jobs.
        IsSplit cfg.now.enc (map (λ frame. frame.value) frames.items) jobs.items
        (D.told detector.old) (D.told detector.new)) }
    ensures later { IsDetectorLater (D.told detector.old) (D.told detector.new) }
{
    let Some(first) = frames.first() else {
        return Ok(Vec::new(alloc));
    };
    let mut ended = Vec::new(alloc);
    let mut last = begun(alloc, 0, 0, Arc::try_clone(first)?)?;
    for position in 1..frames.len() {
        let frame = Arc::try_clone(&frames[position])?;
        let starts = asks(alloc, &cfg.enc, &frames, position, last.first, detector)?;
        add(alloc, &mut ended, &mut last, position as u64, frame, starts)?;
    }
    ended.push(last)?;
    Ok(ended)
}

// Asks the detector whether a job starts at a position, where the one so far started at `start`.
fn asks<T, D: Detector<T>>(
    alloc: Global,
    enc: &EncoderConfig,
    frames: &[Arc<Frame<T>>],
    position: usize,
    start: u64,
    detector: &mut D,
) -> Result<bool, OutOfMemory>
    requires some { 0 < position }
    requires within { position < length frames.now }
    ensures asked { IfOk result (λ starts.
        Grew (D.told detector.old).questions (D.told detector.new).questions
        (told_ask enc.now.speed_settings.scene_detection_mode
        (frames_near enc.now (map (λ frame. frame.value) frames.now) position)
        position start starts ∷ [])) }
    ensures ahead { IfOk result (λ starts.
        IfSome (D.told detector.old).answers (λ at. starts ≡ at position)) }
    ensures later { IsDetectorLater (D.told detector.old) (D.told detector.new) }
{
    let count = InterConfig::new(enc).ahead() + 1;
    let mode = enc.speed_settings.scene_detection_mode;
    detector.ask(
        alloc,
        mode,
        near(frames, position, count as usize),
        position as u64,
        start,
    )
}

// The frames from the one before a position on, at most so many.
fn near<T>(frames: &[Arc<Frame<T>>], position: usize, count: usize) -> &[Arc<Frame<T>>]
    requires some { 0 < position }
    requires within { position < length frames.now }
    ensures { result.now ≡ take count (drop (position - 1) frames.now) }
{
    let (_, from) = frames.split_at(position - 1);
    let (near, _) = from.split_at(count.min(from.len()));
    near
}

// Adds a frame to the job that is the last so far; or that one ends, and the next starts with the frame.
fn add<T: Drop>(
    alloc: Global,
    ended: &mut Vec<Job<T>>,
    last: &mut Job<T>,
    position: u64,
    frame: Arc<Frame<T>>,
    starts: bool,
) -> Result<(), OutOfMemory>
    requires few { last.old.number ≡ length ended.old.items }
    ensures { OnOk result (MatchBool starts
        ((ended.new.items ≡ ended.old.items ++ last.old ∷ [])
        × (last.new ≡ record { number = last.old.number + 1; first = position; frames = frame ∷ [] }))
        ((ended.new.items ≡ ended.old.items)
        × (last.new ≡ record last.old { frames = last.old.frames ++ frame ∷ [] }))) }
{
    if starts {
        let next = begun(alloc, last.number + 1, position, frame)?;
        ended.push(mem::replace(last, next))?;
    } else {
        last.frames.push(frame)?;
    }
    Ok(())
}

// A job with its first frame.
fn begun<T: Drop>(
    alloc: Global,
    number: u64,
    first: u64,
    frame: Arc<Frame<T>>,
) -> Result<Job<T>, OutOfMemory>
    ensures { IfOk result (λ job.
        job ≡ record { number = number; first = first; frames = frame ∷ [] }) }
{
    let mut frames = FrameList::new(alloc);
    frames.push(frame)?;
    Ok(Job {
        number,
        first,
        frames,
    })
}
