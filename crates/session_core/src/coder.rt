ghost use Rattle.std.specs.Prelude.{◌≡◌, ◌<◌, ◌^◌, length, IfOk};
ghost use Rattle.coding_base.specs.Faults.{HasCause};
ghost use Rattle.session_core.specs.declared.coder.CoderError.TheVariants.{Failed};
ghost use Rattle.session_core.specs.Told.{CoderTold, CountsBy, GrowsBy, IsAhead, gave_code, gave_show, handed_code, handed_show, told_code, told_show};

use av1_frame::Frame;
use av1_settings::{EncoderStats, T35List};
use coding_base::{Bytes, OutOfMemory};
use pyramid::Command;
use session_log::QuantizerParameters;
use std::alloc::{AllocError, Global};
use std::sync::Arc;
use thiserror::Error;

/// What a coder is handed for a frame.
#[derive(Drop)]
pub struct CodeJob<T> {
    /// The command, a `Code`.
    pub command: Command,
    /// Whether this is only a try, after which the coder's state is as before.
    pub trial: bool,
    /// The quantisers.
    pub quant: QuantizerParameters,
    /// The frame as it was sent.
    pub picture: Arc<Frame<T>>,
    /// The metadata that was sent with it.
    pub t35: Arc<T35List>,
}

/// What a coder gives back for a coded frame.
#[derive(Drop)]
pub struct CodedFrame<T> {
    /// Its bytes: not empty, and fewer than 2^48.
    pub bytes: Bytes,
    /// The frame as a decoder will show it, where the coder gives that.
    pub rec: Option<Arc<Frame<T>>>,
    /// What was chosen in it.
    pub stats: EncoderStats,
}

/// What a coder gives back for a frame that it shows from a slot.
#[derive(Drop)]
pub struct ShownFrame<T> {
    /// The three bytes of the header.
    pub bytes: [u8; 3],
    /// The frame as a decoder will show it, where the coder gives that.
    pub rec: Option<Arc<Frame<T>>>,
    /// What was chosen in it.
    pub stats: EncoderStats,
}

/// Why a coder gave nothing.
#[derive(Clone, Copy, Debug, PartialEq, Eq, Error)]
pub enum CoderError {
    /// The coder failed, and its count of faults rose.
    #[error("the coder failed")]
    Failed,
    /// Memory ran out.
    #[error("out of memory")]
    OutOfMemory,
}

impl From<OutOfMemory> for CoderError {
    ghost use Rattle.std.specs.Prelude.{◌≡◌};
    ghost use Rattle.session_core.specs.declared.coder.CoderError.{CoderError};

    ghost from_gives = { λ _ e. e ≡ CoderError.OutOfMemory };

    fn from(_: OutOfMemory) -> Self {
        CoderError::OutOfMemory
    }
}

impl From<AllocError> for CoderError {
    ghost use Rattle.std.specs.Prelude.{◌≡◌};
    ghost use Rattle.session_core.specs.declared.coder.CoderError.{CoderError};

    ghost from_gives = { λ _ e. e ≡ CoderError.OutOfMemory };

    fn from(_: AllocError) -> Self {
        CoderError::OutOfMemory
    }
}

/// Codes frames: the part of an encoder below the plan.
pub trait FrameCoder<T> {
    /// What the coder tells of its calls, and ahead of those to come; each part only where it tells it, but for how often
    /// it failed.
    ghost told: { Self → CoderTold T };

    /// Codes a frame.
    fn code(&mut self, alloc: Global, job: &CodeJob<T>) -> Result<CodedFrame<T>, CoderError>
        ensures calls { GrowsBy (told self.old).calls (told self.new).calls result
            (told_code job.now) }
        ensures ahead { IfOk result (λ coded.
            IsAhead (told self.old) (handed_code job.now) (gave_code coded)) }
        ensures same { (told self.new).gives ≡ (told self.old).gives }
        ensures counted { CountsBy (told self.old).fails_after (told self.new).fails_after
            result }
        ensures some_bytes { IfOk result (λ coded. 0 < length coded.bytes) }
        ensures few_bytes { IfOk result (λ coded. length coded.bytes < 2 ^ 48) }
        ensures cause { HasCause Failed (told self.old).faults (told self.new).faults result };

    /// Shows what a slot holds, which is this frame.
    fn show(&mut self, alloc: Global, slot: u8, frame: u64) -> Result<ShownFrame<T>, CoderError>
        ensures calls { GrowsBy (told self.old).calls (told self.new).calls result
            (told_show slot frame) }
        ensures ahead { IfOk result (λ shown.
            IsAhead (told self.old) (handed_show slot frame) (gave_show shown)) }
        ensures same { (told self.new).gives ≡ (told self.old).gives }
        ensures counted { CountsBy (told self.old).fails_after (told self.new).fails_after
            result }
        ensures cause { HasCause Failed (told self.old).faults (told self.new).faults result };

    /// How often the coder failed; the count stands still at its last value.
    fn faults(&self) -> u64
        ensures { result ≡ (told self.now).faults };
}
