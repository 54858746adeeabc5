use std::fmt;
use thiserror::Error;

/// Why a call gave no packet, or took no frame.
#[derive(Clone, Copy, Debug, PartialEq, Eq, Error)]
pub enum EncoderStatus {
    /// More frames, or a flush, have to come before the next packet.
    NeedMoreData,
    /// No further frame is taken.
    EnoughData,
    /// Every packet was given.
    LimitReached,
    /// A frame was coded that isn't shown yet.
    Encoded,
    /// The session failed, in this call or in one before.
    Failure,
    /// The rate data of another pass has to be taken or given first.
    NotReady,
    /// The frame's planes don't have the settings' size and sampling.
    FrameSizeMismatch,
    /// Memory ran out.
    OutOfMemory,
}

impl fmt::Display for EncoderStatus {
    ghost use Rattle.std.specs.Prelude.{Some};
    ghost use Rattle.av1_settings.specs.Texts.{status_text};

    ghost output = { λ status. Some (status_text status) };

    fn fmt<W: fmt::Write>(&self, f: &mut fmt::Formatter<W>) -> fmt::Result {
        f.write_str(match self {
            EncoderStatus::NeedMoreData => "need more data",
            EncoderStatus::EnoughData => "enough data",
            EncoderStatus::LimitReached => "limit reached",
            EncoderStatus::Encoded => "encoded",
            EncoderStatus::Failure => "failure",
            EncoderStatus::NotReady => "not ready",
            EncoderStatus::FrameSizeMismatch => "frame size mismatch",
            EncoderStatus::OutOfMemory => "out of memory",
        })
    }
}
