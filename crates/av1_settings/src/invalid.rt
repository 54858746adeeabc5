ghost use Rattle.std.specs.Prelude.{◌≡◌};
ghost use Rattle.av1_settings.specs.Invalid.{number_of};

use std::fmt;
use thiserror::Error;

/// An option that a still picture can't have.
#[derive(Clone, Copy, Debug, PartialEq, Eq)]
pub enum StillOption {
    /// Timing information in the sequence header.
    EnableTimingInfo,
}

impl fmt::Display for StillOption {
    ghost use Rattle.std.specs.Prelude.{Some};
    ghost use Rattle.av1_settings.specs.Texts.{still_option_text};

    ghost output = { λ option. Some (still_option_text option) };

    fn fmt<W: fmt::Write>(&self, f: &mut fmt::Formatter<W>) -> fmt::Result {
        match self {
            StillOption::EnableTimingInfo => f.write_str("enable_timing_info"),
        }
    }
}

/// Why a configuration is refused.
#[derive(Clone, Copy, Debug, PartialEq, Eq, Error)]
pub enum InvalidConfig {
    /// The width in samples.
    #[error("invalid width {0} (expected >= 16, <= 65535)")]
    InvalidWidth(usize),
    /// The height in samples.
    #[error("invalid height {0} (expected >= 16, <= 65535)")]
    InvalidHeight(usize),
    /// The numerator of the sample aspect ratio.
    #[error("invalid aspect ratio numerator {0} (expected > 0)")]
    InvalidAspectRatioNum(usize),
    /// The denominator of the sample aspect ratio.
    #[error("invalid aspect ratio denominator {0} (expected > 0)")]
    InvalidAspectRatioDen(usize),
    /// The width of the picture as it is to be shown.
    #[error("invalid render width {0} (expected >= 1, <= 65535")]
    InvalidRenderWidth(usize),
    /// The height of the picture as it is to be shown.
    #[error("invalid render height {0} (expected >= 1, <= 65535")]
    InvalidRenderHeight(usize),
    /// The lookahead in coded frames.
    #[error("invalid rdo lookahead frames {actual} (expected <= {max} and >= {min})")]
    InvalidRdoLookaheadFrames {
        /// The lookahead that was given.
        actual: usize,
        /// The greatest.
        max: usize,
        /// The least.
        min: usize,
    },
    /// The greatest distance of two key frames.
    #[error("invalid max keyframe interval {actual} (expected <= {max})")]
    InvalidMaxKeyFrameInterval {
        /// The distance that was given.
        actual: u64,
        /// The greatest.
        max: u64,
    },
    /// The number of tile columns.
    #[error("invalid tile cols {0} (expected power of 2)")]
    InvalidTileCols(usize),
    /// The number of tile rows.
    #[error("invalid tile rows {0} (expected power of 2)")]
    InvalidTileRows(usize),
    /// The numerator of the time base.
    #[error("invalid framerate numerator {actual} (expected > 0, <= {max})")]
    InvalidFrameRateNum {
        /// The numerator that was given.
        actual: u64,
        /// The greatest.
        max: u64,
    },
    /// The denominator of the time base.
    #[error("invalid framerate denominator {actual} (expected > 0, <= {max})")]
    InvalidFrameRateDen {
        /// The denominator that was given.
        actual: u64,
        /// The greatest.
        max: u64,
    },
    /// The frames over which the bit reservoir evens out.
    #[error("invalid reservoir frame delay {0} (expected >= 12, <= 131072)")]
    InvalidReservoirFrameDelay(i32),
    /// The distance of switch frames.
    #[error("invalid switch frame interval {0} (must only be used with low latency mode)")]
    InvalidSwitchFrameInterval(u64),
    /// An option that a still picture can't have.
    #[error("invalid option {0} specified with still picture mode")]
    InvalidOptionWithStillPicture(StillOption),
    /// Pass data is asked for or given, and no bitrate is set.
    #[error("The rate control requires a target bitrate")]
    TargetBitrateNeeded,
    /// Pass data is asked for or given where none can be.
    #[error("Mismatch in the rate control configuration")]
    RateControlConfigurationMismatch,
    /// The colour description wants the full range and no subsampling.
    #[error("Mismatch in the color configuration")]
    ColorConfigurationMismatch,
    /// No such level.
    #[error("Specified level is undefined")]
    LevelUndefined,
    /// Size or rate are beyond the level.
    #[error("Constraints exceeded for specified level")]
    LevelConstraintsExceeded,
    /// The quantizer index.
    #[error("invalid quantizer {0}")]
    InvalidQuantizer(usize),
    /// The bits of a sample.
    #[error("invalid bit depth {0}")]
    InvalidBitDepth(usize),
}

impl InvalidConfig {
    /// The number of the variant, from 1, which a report prints.
    pub fn number(&self) -> u8
        ensures { result ≡ number_of self.now }
    {
        match self {
            InvalidConfig::InvalidWidth(_) => 1,
            InvalidConfig::InvalidHeight(_) => 2,
            InvalidConfig::InvalidAspectRatioNum(_) => 3,
            InvalidConfig::InvalidAspectRatioDen(_) => 4,
            InvalidConfig::InvalidRenderWidth(_) => 5,
            InvalidConfig::InvalidRenderHeight(_) => 6,
            InvalidConfig::InvalidRdoLookaheadFrames { .. } => 7,
            InvalidConfig::InvalidMaxKeyFrameInterval { .. } => 8,
            InvalidConfig::InvalidTileCols(_) => 9,
            InvalidConfig::InvalidTileRows(_) => 10,
            InvalidConfig::InvalidFrameRateNum { .. } => 11,
            InvalidConfig::InvalidFrameRateDen { .. } => 12,
            InvalidConfig::InvalidReservoirFrameDelay(_) => 13,
            InvalidConfig::InvalidSwitchFrameInterval(_) => 14,
            InvalidConfig::InvalidOptionWithStillPicture(_) => 15,
            InvalidConfig::TargetBitrateNeeded => 16,
            InvalidConfig::RateControlConfigurationMismatch => 17,
            InvalidConfig::ColorConfigurationMismatch => 18,
            InvalidConfig::LevelUndefined => 19,
            InvalidConfig::LevelConstraintsExceeded => 20,
            InvalidConfig::InvalidQuantizer(_) => 21,
            InvalidConfig::InvalidBitDepth(_) => 22,
        }
    }
}
