//! Settings of an encoder: what a configuration says, when it is refused, and the texts of its values; beside them the
//! small types that all sessions speak of (types of frames, statuses, counts, metadata blocks).
//!
//! The checks of a configuration stand in `checks`, and the definitions of their rows in `specs/Checks.antt`. The lemmas of
//! `proofs/CheckLemmas.antt` on joined rows (`first_failing_append`, `none_append`) are for the crates above too; the other
//! lemmas are this crate's own.
#![tactic(auto)]

mod block_size;
mod checks;
mod color;
mod config;
mod encoder;
mod encoder_stats;
mod encoder_text;
mod frame_type;
mod header;
mod invalid;
pub mod laws;
mod level;
mod partition_range;
mod rate_control;
mod rational;
mod speed;
mod status;
mod t35;
mod tune;

pub use block_size::BlockSize;
pub use color::{
    ChromaSamplePosition, ChromaticityPoint, ColorDescription, ColorPrimaries, ContentLight,
    MasteringDisplay, MatrixCoefficients, PixelRange, TransferCharacteristics,
};
pub use config::Config;
pub use encoder::EncoderConfig;
pub use encoder_stats::EncoderStats;
pub use frame_type::FrameType;
pub use header::container_sequence_header;
pub use invalid::{InvalidConfig, StillOption};
pub use level::{LevelRow, LevelTables};
pub use partition_range::PartitionRange;
pub use rate_control::{RateControlConfig, RateControlSummary};
pub use rational::Rational;
pub use speed::{
    MotionSpeedSettings, PartitionSpeedSettings, PredictionModesSetting, PredictionSpeedSettings,
    SGRComplexityLevel, SceneDetectionSpeed, SegmentationLevel, SpeedSettings,
    TransformSpeedSettings,
};
pub use status::EncoderStatus;
pub use t35::{T35, T35List};
pub use tune::Tune;
