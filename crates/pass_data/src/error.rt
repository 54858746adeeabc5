ghost use Rattle.std.specs.Prelude.{◌≡◌};
ghost use Rattle.pass_data.specs.Number.{number_of};

use pass_stats::{InvalidFrameType, Why};
use thiserror::Error;

/// Why pass data that was given is refused.
#[derive(Clone, Copy, Debug, PartialEq, Eq, Error)]
pub enum PassDataError {
    /// The bytes of a summary are outside its grammar.
    #[error("The summary content is invalid: {0}")]
    Corrupted(Why),
    /// A frame's metrics name no subtype.
    #[error("{0}")]
    BadPacket(InvalidFrameType),
    /// The window is full, and too few of its frames are shown.
    #[error("too many frames for the temporal units of the reservoir")]
    TooManyFrames,
    /// A packet while no frame's metrics are needed.
    #[error("no frame data is needed")]
    NotNeeded,
    /// A packet of so many bytes, and not of 8.
    #[error("a packet of {0} bytes (expected 8)")]
    WrongSize(usize),
    /// No memory for the window. Only the call that begins a second pass can answer it.
    #[error("out of memory")]
    OutOfMemory,
}

impl PassDataError {
    /// The number of the refusal: 1 to 6, in the order of the variants.
    pub fn number(&self) -> u8
        ensures { result ≡ number_of self.now }
    {
        match self {
            PassDataError::Corrupted(_) => 1,
            PassDataError::BadPacket(_) => 2,
            PassDataError::TooManyFrames => 3,
            PassDataError::NotNeeded => 4,
            PassDataError::WrongSize(_) => 5,
            PassDataError::OutOfMemory => 6,
        }
    }
}
