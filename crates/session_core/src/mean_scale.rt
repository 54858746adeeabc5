ghost use Rattle.std.specs.Prelude.{◌≡◌, None, Some, pos, IfOk, IfSome};
ghost use Rattle.session_core.specs.Told.{GrowsBy, ScalesTold, told_scale};

use av1_frame::Frame;
use coding_base::OutOfMemory;
use std::alloc::Global;
use std::sync::Arc;

/// Measures frames for rate control. A session asks it once of each frame that is coded, before the frame is tried or coded.
pub trait MeanScale<T> {
    /// What it tells of the frames that it measured, and ahead of each number; each part only where it tells it.
    ghost told: { Self → ScalesTold T };

    /// The logarithm of the reciprocal square root of a frame's mean distortion scale, in Q57 (rav1e's
    /// log_isqrt_mean_scale). `number` is the frame's input number. The session takes what is beyond 16 either way as 16.
    fn log_isqrt_mean_scale(
        &mut self,
        alloc: Global,
        number: u64,
        frame: &Arc<Frame<T>>,
    ) -> Result<i64, OutOfMemory>
        ensures frames { GrowsBy (told self.old).frames (told self.new).frames result
            (told_scale number frame.now.value) }
        ensures answer { IfOk result (λ answer.
            IfSome (told self.old).answers (λ at. answer ≡ at number)) }
        ensures same_answers { (told self.new).answers ≡ (told self.old).answers };
}

/// Takes every frame as the mean.
#[derive(Clone, Copy, Debug)]
pub struct NoScale;

impl<T> MeanScale<T> for NoScale {
    ghost told = { λ _. record { frames = None; answers = Some (λ _. pos 0) } };

    fn log_isqrt_mean_scale(
        &mut self,
        _alloc: Global,
        _number: u64,
        _frame: &Arc<Frame<T>>,
    ) -> Result<i64, OutOfMemory> {
        Ok(0)
    }
}
