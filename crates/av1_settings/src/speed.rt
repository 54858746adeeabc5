ghost use Rattle.std.specs.Prelude.{◌≡◌, ◌≤◌};
ghost use Rattle.av1_settings.specs.Presets.{slowest, preset_change, from_preset};

use crate::{BlockSize, PartitionRange};
use std::fmt;

/// How scene changes are looked for.
#[derive(Clone, Copy, Debug, PartialEq, Eq, PartialOrd)]
pub enum SceneDetectionSpeed {
    /// On luma differences alone.
    Fast,
    /// With cost estimates.
    Standard,
    /// Not at all.
    None,
}

impl fmt::Display for SceneDetectionSpeed {
    ghost use Rattle.std.specs.Prelude.{Some};
    ghost use Rattle.av1_settings.specs.Texts.{scene_detection_text};

    ghost output = { λ mode. Some (scene_detection_text mode) };

    fn fmt<W: fmt::Write>(&self, f: &mut fmt::Formatter<W>) -> fmt::Result {
        f.write_str(match self {
            SceneDetectionSpeed::Fast => "Fast",
            SceneDetectionSpeed::Standard => "Standard",
            SceneDetectionSpeed::None => "None",
        })
    }
}

/// Which prediction modes are tried.
#[derive(Clone, Copy, Debug, PartialEq, Eq, PartialOrd)]
pub enum PredictionModesSetting {
    /// The simple ones.
    Simple,
    /// All of them in key frames, the simple ones elsewhere.
    ComplexKeyframes,
    /// All of them.
    ComplexAll,
}

impl fmt::Display for PredictionModesSetting {
    ghost use Rattle.std.specs.Prelude.{Some};
    ghost use Rattle.av1_settings.specs.Texts.{prediction_modes_text};

    ghost output = { λ modes. Some (prediction_modes_text modes) };

    fn fmt<W: fmt::Write>(&self, f: &mut fmt::Formatter<W>) -> fmt::Result {
        f.write_str(match self {
            PredictionModesSetting::Simple => "Simple",
            PredictionModesSetting::ComplexKeyframes => "Complex-KFs",
            PredictionModesSetting::ComplexAll => "Complex-All",
        })
    }
}

/// How many sets of the self-guided restoration filter are searched.
#[derive(Clone, Copy, Debug, PartialEq, Eq, PartialOrd)]
pub enum SGRComplexityLevel {
    /// All of them.
    Full,
    /// Some of them.
    Reduced,
}

impl fmt::Display for SGRComplexityLevel {
    ghost use Rattle.std.specs.Prelude.{Some};
    ghost use Rattle.av1_settings.specs.Texts.{sgr_complexity_text};

    ghost output = { λ level. Some (sgr_complexity_text level) };

    fn fmt<W: fmt::Write>(&self, f: &mut fmt::Formatter<W>) -> fmt::Result {
        f.write_str(match self {
            SGRComplexityLevel::Full => "Full",
            SGRComplexityLevel::Reduced => "Reduced",
        })
    }
}

/// How much segmentation is used.
#[derive(Clone, Copy, Debug, PartialEq, Eq, PartialOrd)]
pub enum SegmentationLevel {
    /// None.
    Disabled,
    /// Chosen by activity alone.
    Simple,
    /// Some choices are tried.
    Complex,
    /// All choices are tried.
    Full,
}

impl fmt::Display for SegmentationLevel {
    ghost use Rattle.std.specs.Prelude.{Some};
    ghost use Rattle.av1_settings.specs.Texts.{segmentation_text};

    ghost output = { λ level. Some (segmentation_text level) };

    fn fmt<W: fmt::Write>(&self, f: &mut fmt::Formatter<W>) -> fmt::Result {
        f.write_str(match self {
            SegmentationLevel::Disabled => "Disabled",
            SegmentationLevel::Simple => "Simple",
            SegmentationLevel::Complex => "Complex",
            SegmentationLevel::Full => "Full",
        })
    }
}

/// How blocks are split.
#[derive(Clone, Copy, Debug)]
pub struct PartitionSpeedSettings {
    /// Whether small blocks are tried first.
    pub encode_bottomup: bool,
    /// The largest block that is split into parts that aren't square.
    pub non_square_partition_max_threshold: BlockSize,
    /// The sizes of the square blocks that are tried.
    pub partition_range: PartitionRange,
}

/// How transforms are chosen.
#[derive(Clone, Copy, Debug)]
pub struct TransformSpeedSettings {
    /// Whether few transform types are tried.
    pub reduced_tx_set: bool,
    /// Whether distortion is measured on coefficients, without the inverse transform.
    pub tx_domain_distortion: bool,
    /// Whether rate is estimated on coefficients.
    pub tx_domain_rate: bool,
    /// Whether transform types are compared by rate and distortion.
    pub rdo_tx_decision: bool,
    /// Whether blocks predicted from other frames may split their transform.
    pub enable_inter_tx_split: bool,
}

/// How prediction is chosen.
#[derive(Clone, Copy, Debug)]
pub struct PredictionSpeedSettings {
    /// Which prediction modes are tried.
    pub prediction_modes: PredictionModesSetting,
    /// Whether the fine angles of directional prediction are tried.
    pub fine_directional_intra: bool,
}

/// How motion is searched.
#[derive(Clone, Copy, Debug)]
pub struct MotionSpeedSettings {
    /// Whether steps below a sample are compared by transformed differences.
    pub use_satd_subpel: bool,
    /// Whether the near vectors are tried.
    pub include_near_mvs: bool,
    /// Whether a full search is allowed.
    pub me_allow_full_search: bool,
}

/// What an encoder trades between speed and quality.
#[derive(Clone, Copy, Debug)]
pub struct SpeedSettings {
    /// Whether a frame may be predicted from several others.
    pub multiref: bool,
    /// Whether the deblocking filter is chosen fast.
    pub fast_deblock: bool,
    /// Coded frames that have to be known before one is coded; at least 1.
    pub rdo_lookahead_frames: usize,
    /// How scene changes are looked for.
    pub scene_detection_mode: SceneDetectionSpeed,
    /// Whether the constrained directional enhancement filter is used.
    pub cdef: bool,
    /// Whether the loop restoration filter is used.
    pub lrf: bool,
    /// Whether loop restoration is searched on skipped blocks too.
    pub lru_on_skip: bool,
    /// How many sets of the self-guided restoration filter are searched.
    pub sgr_complexity: SGRComplexityLevel,
    /// How much segmentation is used.
    pub segmentation: SegmentationLevel,
    /// How blocks are split.
    pub partition: PartitionSpeedSettings,
    /// How transforms are chosen.
    pub transform: TransformSpeedSettings,
    /// How prediction is chosen.
    pub prediction: PredictionSpeedSettings,
    /// How motion is searched.
    pub motion: MotionSpeedSettings,
}

// The fastest preset. What is above counts as it.
const LAST_PRESET: u8 = 10;

impl SpeedSettings {
    /// The settings of rav1e's speed presets, from 0, the slowest, to 10; above 10 those of 10.
    pub fn from_preset(speed: u8) -> SpeedSettings
        ensures { result ≡ from_preset speed }
    {
        let mut settings = SpeedSettings::default();
        for before in 0..speed.min(LAST_PRESET) {
            settings.change(before + 1);
        }
        settings
    }

    // Makes the changes of this preset on the one before.
    #[tactic(auto, unfolding(crate::specs::Presets::preset_change))]
    fn change(&mut self, preset: u8)
        requires first { 1 ≤ preset }
        requires last { preset ≤ 10 }
        ensures { self.new ≡ preset_change preset self.old }
    {
        match preset {
            1 => {
                self.lru_on_skip = false;
                self.segmentation = SegmentationLevel::Simple;
            }
            2 => {
                self.partition.non_square_partition_max_threshold = BlockSize::BLOCK_8X8;
                self.prediction.prediction_modes = PredictionModesSetting::ComplexKeyframes;
            }
            3 => {
                self.rdo_lookahead_frames = 30;
                self.partition.partition_range = PartitionRange::new(
                    BlockSize::BLOCK_8X8,
                    BlockSize::BLOCK_64X64,
                );
            }
            4 => self.partition.encode_bottomup = false,
            5 => {
                self.sgr_complexity = SGRComplexityLevel::Reduced;
                self.motion.include_near_mvs = false;
            }
            6 => {
                self.rdo_lookahead_frames = 20;
                self.transform.rdo_tx_decision = false;
                self.transform.reduced_tx_set = true;
                self.motion.me_allow_full_search = false;
            }
            7 => {
                self.multiref = false;
                self.fast_deblock = true;
                self.prediction.prediction_modes = PredictionModesSetting::Simple;
            }
            8 => {
                self.rdo_lookahead_frames = 10;
                self.lrf = false;
            }
            9 => {
                self.partition.partition_range = PartitionRange::new(
                    BlockSize::BLOCK_16X16,
                    BlockSize::BLOCK_32X32,
                );
                self.transform.enable_inter_tx_split = true;
            }
            _ => {
                self.scene_detection_mode = SceneDetectionSpeed::Fast;
                self.partition.partition_range = PartitionRange::new(
                    BlockSize::BLOCK_32X32,
                    BlockSize::BLOCK_32X32,
                );
                self.motion.use_satd_subpel = false;
            }
        }
    }
}

impl Default for SpeedSettings {
    ghost is_default = { λ settings. settings ≡ slowest };

    /// Preset 0.
    fn default() -> SpeedSettings {
        SpeedSettings {
            multiref: true,
            fast_deblock: false,
            rdo_lookahead_frames: 40,
            scene_detection_mode: SceneDetectionSpeed::Standard,
            cdef: true,
            lrf: true,
            lru_on_skip: true,
            sgr_complexity: SGRComplexityLevel::Full,
            segmentation: SegmentationLevel::Complex,
            partition: PartitionSpeedSettings {
                encode_bottomup: true,
                non_square_partition_max_threshold: BlockSize::BLOCK_64X64,
                partition_range: PartitionRange::new(BlockSize::BLOCK_4X4, BlockSize::BLOCK_64X64),
            },
            transform: TransformSpeedSettings {
                reduced_tx_set: false,
                tx_domain_distortion: true,
                tx_domain_rate: false,
                rdo_tx_decision: true,
                enable_inter_tx_split: false,
            },
            prediction: PredictionSpeedSettings {
                prediction_modes: PredictionModesSetting::ComplexAll,
                fine_directional_intra: true,
            },
            motion: MotionSpeedSettings {
                use_satd_subpel: true,
                include_near_mvs: true,
                me_allow_full_search: true,
            },
        }
    }
}
