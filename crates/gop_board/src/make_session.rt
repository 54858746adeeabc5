ghost use Rattle.std.specs.Prelude.{ℕ, IfOk};
ghost use Rattle.gop_board.specs.Makers.{IsMadeCoder, IsMadeScales, MakerTold};

use coding_base::OutOfMemory;
use session_core::{FrameCoder, MeanScale};
use std::alloc::Global;

/// Makes what the session of a job needs: mean scales, and a coder. It is lent and shared, so that what it tells of a job is
/// the same for all workers.
pub trait MakeSession<T> {
    /// What the maker tells ahead of the session of a job, by the job's number and the position of its first frame among all
    /// frames; each part only where it tells it.
    ghost told: { Self → ℕ → ℕ → MakerTold T };

    /// The mean scales of a session.
    type Scales: MeanScale<T> + Drop;

    /// The coder of a session.
    type Coder: FrameCoder<T> + Drop;

    /// Mean scales and a coder for the session of a job, as new: no frame was measured or coded, and the coder never failed.
    /// `job` is the job's number, from 0, and `first` the position of its first frame among all frames. The one error is want
    /// of memory.
    fn make(
        &self,
        alloc: Global,
        job: u64,
        first: u64,
    ) -> Result<(Self::Scales, Self::Coder), OutOfMemory>
        ensures scales { IfOk result (λ made.
            IsMadeScales (told self.now job first) (Self.Scales.told made.0)) }
        ensures coder { IfOk result (λ made.
            IsMadeCoder (told self.now job first) (Self.Coder.told made.1)) };
}
