use thiserror::Error;

/// Why bytes are no summary. Of several reasons the first in this order is given.
#[derive(Clone, Copy, Debug, PartialEq, Eq, Error)]
pub enum Why {
    /// Fewer than 68 bytes.
    #[error("Summary too short")]
    Short,
    /// The first four bytes are not the magic number.
    #[error("Magic value mismatch")]
    Magic,
    /// A version other than 1.
    #[error("Version number mismatch")]
    Version,
    /// Fewer than one temporal unit.
    #[error("No TUs found in first pass summary")]
    NoTus,
    /// A frame count below 0.
    #[error("Got negative frame count")]
    NegativeCount,
    /// The frame counts sum to more than an `i32` holds.
    #[error("Frame count too large")]
    CountTooLarge,
    /// More temporal units than frames.
    #[error("More TUs than frames")]
    MoreTusThanFrames,
    /// No key frame.
    #[error("No key frame")]
    NoKeyFrame,
    /// An exponent of 0.
    #[error("Zero exponent")]
    ZeroExponent,
    /// A scale sum below 0.
    #[error("Got negative scale sum")]
    NegativeSum,
}

/// What is wrong with the rate settings' pass data.
#[derive(Clone, Copy, Debug, PartialEq, Eq, Error)]
pub enum RateControlError {
    /// A version that this library does not read. No call here makes it: a summary of another
    /// version is `CorruptedSummary(Why::Version)`.
    #[error("Incompatible version {0}")]
    InvalidVersion(i64),
    /// The bytes of a summary are outside its grammar.
    #[error("The summary content is invalid: {0}")]
    CorruptedSummary(Why),
}

/// A frame's metrics name a subtype above 4.
#[derive(Clone, Copy, Debug, PartialEq, Eq, Error)]
#[error("invalid frame type {value}")]
pub struct InvalidFrameType {
    /// The subtype that was read, without the flag of a shown frame.
    pub value: u32,
}
