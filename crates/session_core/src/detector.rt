ghost use Rattle.std.specs.Prelude.{◌≡◌, None, Some, false, map, IfOk, IfSome};
ghost use Rattle.session_core.specs.Told.{DetectorTold, GrowsBy, told_ask};

use av1_frame::Frame;
use av1_settings::SceneDetectionSpeed;
use coding_base::OutOfMemory;
use std::alloc::Global;
use std::sync::Arc;

/// Finds scene changes. A session asks it once of each frame from the second on that wasn't sent as a key frame, in the order
/// in which they were sent; where it answers yes the frame is a key frame.
pub trait Detector<T> {
    /// What the detector tells of the questions that it answered, and ahead of each position; each part only where it tells
    /// it.
    ghost told: { Self → DetectorTold T };

    /// Whether a scene begins with the frame of this input number. `frames` begins with the frame before it, and has those
    /// that are known behind it: so many as the settings' lookahead of the pyramid asks for, or fewer at the end.
    /// `last_key` is the input number of the last frame before it that was decided to be a key frame; a GOP that only the
    /// greatest key interval begins doesn't count.
    fn ask(
        &mut self,
        alloc: Global,
        mode: SceneDetectionSpeed,
        frames: &[Arc<Frame<T>>],
        position: u64,
        last_key: u64,
    ) -> Result<bool, OutOfMemory>
        ensures questions { GrowsBy (told self.old).questions (told self.new).questions result
            (told_ask mode (map (λ frame. frame.value) frames.now) position last_key) }
        ensures answer { IfOk result (λ answer.
            IfSome (told self.old).answers (λ at. answer ≡ at position)) }
        ensures same_answers { (told self.new).answers ≡ (told self.old).answers };
}

/// Finds no scene change.
#[derive(Clone, Copy, Debug)]
pub struct NoDetector;

impl<T> Detector<T> for NoDetector {
    ghost told = { λ _. record { questions = None; answers = Some (λ _. false) } };

    fn ask(
        &mut self,
        _alloc: Global,
        _mode: SceneDetectionSpeed,
        _frames: &[Arc<Frame<T>>],
        _position: u64,
        _last_key: u64,
    ) -> Result<bool, OutOfMemory> {
        Ok(false)
    }
}
