//! Which settings are refused, and for which reason.

use av1_frame::{ChromaSampling, Pixel};
use av1_settings::{
    ColorDescription, ColorPrimaries, Config, EncoderConfig, InvalidConfig, LevelRow, LevelTables,
    MatrixCoefficients, PixelRange, RateControlConfig, Rational, StillOption,
    TransferCharacteristics,
};
use pass_stats::{RateControlError, Why, parse_summary, write_summary};
use std::alloc::Global;
use std::test::Fail;

/// A change of the default settings.
#[derive(Clone, Copy)]
enum Change {
    Size(usize, usize),
    Aspect(u64, u64),
    TileCols(usize),
    TimeBase(u64, u64),
    ReservoirDelay(i32),
    SwitchInterval(u64),
    Level(u8),
    Quantizer(usize),
    BitDepth(usize),
    Bitrate(i32),
    LowLatency,
    StillPicture,
    TimingInfo,
    // red, green and blue
    Rgb(PixelRange, ChromaSampling),
}

fn apply(enc: &mut EncoderConfig, change: Change) {
    match change {
        Change::Size(width, height) => {
            enc.width = width;
            enc.height = height;
        }
        Change::Aspect(num, den) => enc.sample_aspect_ratio = Rational::new(num, den),
        Change::TileCols(cols) => enc.tile_cols = cols,
        Change::TimeBase(num, den) => enc.time_base = Rational::new(num, den),
        Change::ReservoirDelay(frames) => enc.reservoir_frame_delay = Some(frames),
        Change::SwitchInterval(frames) => enc.switch_frame_interval = frames,
        Change::Level(index) => enc.level_idx = Some(index),
        Change::Quantizer(index) => enc.quantizer = index,
        Change::BitDepth(bits) => enc.bit_depth = bits,
        Change::Bitrate(rate) => enc.bitrate = rate,
        Change::LowLatency => enc.low_latency = true,
        Change::StillPicture => enc.still_picture = true,
        Change::TimingInfo => enc.enable_timing_info = true,
        Change::Rgb(pixel_range, chroma_sampling) => {
            enc.color_description = Some(RGB);
            enc.pixel_range = pixel_range;
            enc.chroma_sampling = chroma_sampling;
        }
    }
}

const RGB: ColorDescription = ColorDescription {
    color_primaries: ColorPrimaries::BT709,
    transfer_characteristics: TransferCharacteristics::SRGB,
    matrix_coefficients: MatrixCoefficients::Identity,
};

/// The default settings with these changes, one after the other.
fn changed(changes: &[Change]) -> EncoderConfig {
    let mut enc = EncoderConfig::default();
    for change in changes {
        apply(&mut enc, *change);
    }
    enc
}

/// What is asked of rate control.
#[derive(Clone, Copy)]
enum Wish {
    Nothing,
    PassData,
    Summary,
    SummaryBytes,
}

fn rate_control(wish: Wish) -> Result<RateControlConfig, RateControlError> {
    let bytes = write_summary(1, [1, 0, 0, 0, 0], [1; 4], [0; 4]);
    match wish {
        Wish::Nothing => Ok(RateControlConfig::new()),
        Wish::PassData => Ok(RateControlConfig::new().with_emit_data(true)),
        Wish::Summary => {
            let summary = parse_summary(bytes.as_slice())?;
            Ok(RateControlConfig::new().with_summary(summary))
        }
        Wish::SummaryBytes => RateControlConfig::from_summary_slice(bytes.as_slice()),
    }
}

/// For whom a configuration is checked.
#[derive(Clone, Copy)]
enum Check {
    Anyone,
    Pixel,
    Session,
}

/// Level 1 alone is defined: 16 x 16 at 30 frames a second and no more.
fn levels() -> LevelTables {
    let none = LevelRow {
        defined: false,
        max_pic_size: 0,
        max_h_size: 0,
        max_v_size: 0,
        max_display_rate: 0,
    };
    let mut rows = [none; 31];
    rows[1] = LevelRow {
        defined: true,
        max_pic_size: 256,
        max_h_size: 16,
        max_v_size: 16,
        max_display_rate: 7680,
    };
    LevelTables::new(rows)
}

/// Whether a configuration is refused for pixels of 8 bits.
fn verdict(config: &Config, check: Check) -> Result<(), InvalidConfig> {
    let levels = levels();
    match check {
        Check::Anyone => config.validate(&levels),
        Check::Pixel => config.validate_for_pixel(&levels, <u8 as Pixel>::BITS),
        Check::Session => config.validate_for_session(&levels, <u8 as Pixel>::BITS),
    }
}

/// The number of the reason and its text, or that the configuration fits.
fn told(alloc: Global, verdict: Result<(), InvalidConfig>) -> Result<String, Fail> {
    let mut text = String::new(alloc);
    match verdict {
        Ok(()) => text.push_str("fits")?,
        Err(refusal) => write!(text, "{}: {refusal}", refusal.number())?,
    }
    Ok(text)
}

type Row = (&'static [Change], &'static str);

const SETTINGS: [Row; 29] = [
    (
        &[Change::Size(15, 480)],
        "1: invalid width 15 (expected >= 16, <= 65535)",
    ),
    (
        &[Change::Aspect(1, 0)],
        "4: invalid aspect ratio denominator 0 (expected > 0)",
    ),
    (
        &[Change::Aspect(200, 1)],
        "5: invalid render width 128000 (expected >= 1, <= 65535",
    ),
    (
        &[Change::TileCols(3)],
        "9: invalid tile cols 3 (expected power of 2)",
    ),
    (&[Change::TileCols(4)], "fits"),
    (
        &[Change::TimeBase(0, 30)],
        "11: invalid framerate numerator 0 (expected > 0, <= 4294967295)",
    ),
    (
        &[Change::ReservoirDelay(11)],
        "13: invalid reservoir frame delay 11 (expected >= 12, <= 131072)",
    ),
    (
        &[Change::SwitchInterval(2)],
        "14: invalid switch frame interval 2 (must only be used with low latency mode)",
    ),
    (&[Change::LowLatency, Change::SwitchInterval(2)], "fits"),
    (&[Change::Level(5)], "19: Specified level is undefined"),
    (&[Change::Quantizer(256)], "21: invalid quantizer 256"),
    (&[Change::BitDepth(9)], "22: invalid bit depth 9"),
    // a pixel of 8 bits is too small for it
    (&[Change::BitDepth(10)], "22: invalid bit depth 10"),
    // a still picture may be a single sample
    (
        &[Change::Size(1, 1), Change::TimingInfo],
        "1: invalid width 1 (expected >= 16, <= 65535)",
    ),
    (
        &[Change::Size(1, 1), Change::TimingInfo, Change::StillPicture],
        "15: invalid option enable_timing_info specified with still picture mode",
    ),
    (&[Change::Size(1, 1), Change::StillPicture], "fits"),
    (
        &[Change::Size(1, 0), Change::StillPicture],
        "2: invalid height 0 (expected >= 16, <= 65535)",
    ),
    // red, green and blue are full
    (
        &[Change::Rgb(PixelRange::Full, ChromaSampling::Cs444)],
        "fits",
    ),
    (
        &[Change::Rgb(PixelRange::Limited, ChromaSampling::Cs444)],
        "18: Mismatch in the color configuration",
    ),
    (
        &[Change::Rgb(PixelRange::Full, ChromaSampling::Cs422)],
        "18: Mismatch in the color configuration",
    ),
    (
        &[Change::Rgb(PixelRange::Limited, ChromaSampling::Cs400)],
        "fits",
    ),
    // levels bound size and rate
    (
        &[Change::Size(16, 16), Change::Level(5)],
        "19: Specified level is undefined",
    ),
    (&[Change::Size(16, 16), Change::Level(1)], "fits"),
    // 256 samples 30000 times in 999 seconds are 7687.7 a second
    (
        &[
            Change::Size(16, 16),
            Change::Level(1),
            Change::TimeBase(1000, 30000),
        ],
        "fits",
    ),
    (
        &[
            Change::Size(16, 16),
            Change::Level(1),
            Change::TimeBase(999, 30000),
        ],
        "20: Constraints exceeded for specified level",
    ),
    (
        &[Change::Size(17, 16), Change::Level(1)],
        "20: Constraints exceeded for specified level",
    ),
    (
        &[Change::Size(16, 17), Change::Level(1)],
        "20: Constraints exceeded for specified level",
    ),
    (
        &[Change::Size(17, 17), Change::Level(1)],
        "20: Constraints exceeded for specified level",
    ),
    (&[Change::Size(17, 17)], "fits"),
];

#[test]
fn a_failing_check_answers_with_its_value(rt: HostRuntime) -> Result<(), Fail> {
    for (i, (changes, text)) in SETTINGS.iter().enumerate() {
        let config = Config::new().with_encoder_config(changed(changes));
        let told = told(rt.alloc(), verdict(&config, Check::Session))?;
        assert_eq!(rt; told.as_str(), *text, "in row {i}");
    }
    Ok(())
}

#[test]
fn passes_want_a_bitrate(rt: HostRuntime) -> Result<(), Fail> {
    for wish in [Wish::PassData, Wish::Summary, Wish::SummaryBytes] {
        for (bitrate, check, text) in [
            (
                0,
                Check::Anyone,
                "16: The rate control requires a target bitrate",
            ),
            (
                0,
                Check::Session,
                "17: Mismatch in the rate control configuration",
            ),
            (1, Check::Pixel, "fits"),
            (
                1,
                Check::Session,
                "17: Mismatch in the rate control configuration",
            ),
        ] {
            let config = Config::new()
                .with_rate_control(rate_control(wish)?)
                .with_encoder_config(changed(&[Change::Bitrate(bitrate)]));
            let told = told(rt.alloc(), verdict(&config, check))?;
            assert_eq!(rt; told.as_str(), text);
        }
    }
    Ok(())
}

#[test]
fn a_summary_makes_a_second_pass(rt: HostRuntime) -> Result<(), Fail> {
    for (wish, emit_data, summary) in [
        (Wish::Nothing, false, false),
        (Wish::PassData, true, false),
        (Wish::Summary, false, true),
        (Wish::SummaryBytes, false, true),
    ] {
        let wishes = rate_control(wish)?;
        let made = [wishes.emit_data, wishes.summary.is_some()];
        assert_eq!(rt; made, [emit_data, summary]);
    }
    let short = RateControlConfig::from_summary_slice(&[0x56]);
    assert!(rt; matches!(short, Err(RateControlError::CorruptedSummary(Why::Short))));
    Ok(())
}

/// Every reason in the order of its number.
const REASONS: [(InvalidConfig, &str); 22] = [
    (
        InvalidConfig::InvalidWidth(15),
        "1: invalid width 15 (expected >= 16, <= 65535)",
    ),
    (
        InvalidConfig::InvalidHeight(65536),
        "2: invalid height 65536 (expected >= 16, <= 65535)",
    ),
    (
        InvalidConfig::InvalidAspectRatioNum(0),
        "3: invalid aspect ratio numerator 0 (expected > 0)",
    ),
    (
        InvalidConfig::InvalidAspectRatioDen(0),
        "4: invalid aspect ratio denominator 0 (expected > 0)",
    ),
    (
        InvalidConfig::InvalidRenderWidth(0),
        "5: invalid render width 0 (expected >= 1, <= 65535",
    ),
    (
        InvalidConfig::InvalidRenderHeight(70000),
        "6: invalid render height 70000 (expected >= 1, <= 65535",
    ),
    (
        InvalidConfig::InvalidRdoLookaheadFrames {
            actual: 0,
            max: 18446744073709551614,
            min: 1,
        },
        "7: invalid rdo lookahead frames 0 (expected <= 18446744073709551614 and >= 1)",
    ),
    (
        InvalidConfig::InvalidMaxKeyFrameInterval {
            actual: 715827883,
            max: 715827882,
        },
        "8: invalid max keyframe interval 715827883 (expected <= 715827882)",
    ),
    (
        InvalidConfig::InvalidTileCols(3),
        "9: invalid tile cols 3 (expected power of 2)",
    ),
    (
        InvalidConfig::InvalidTileRows(5),
        "10: invalid tile rows 5 (expected power of 2)",
    ),
    (
        InvalidConfig::InvalidFrameRateNum {
            actual: 0,
            max: 4294967295,
        },
        "11: invalid framerate numerator 0 (expected > 0, <= 4294967295)",
    ),
    (
        InvalidConfig::InvalidFrameRateDen {
            actual: 4294967296,
            max: 4294967295,
        },
        "12: invalid framerate denominator 4294967296 (expected > 0, <= 4294967295)",
    ),
    (
        InvalidConfig::InvalidReservoirFrameDelay(-11),
        "13: invalid reservoir frame delay -11 (expected >= 12, <= 131072)",
    ),
    (
        InvalidConfig::InvalidSwitchFrameInterval(2),
        "14: invalid switch frame interval 2 (must only be used with low latency mode)",
    ),
    (
        InvalidConfig::InvalidOptionWithStillPicture(StillOption::EnableTimingInfo),
        "15: invalid option enable_timing_info specified with still picture mode",
    ),
    (
        InvalidConfig::TargetBitrateNeeded,
        "16: The rate control requires a target bitrate",
    ),
    (
        InvalidConfig::RateControlConfigurationMismatch,
        "17: Mismatch in the rate control configuration",
    ),
    (
        InvalidConfig::ColorConfigurationMismatch,
        "18: Mismatch in the color configuration",
    ),
    (
        InvalidConfig::LevelUndefined,
        "19: Specified level is undefined",
    ),
    (
        InvalidConfig::LevelConstraintsExceeded,
        "20: Constraints exceeded for specified level",
    ),
    (
        InvalidConfig::InvalidQuantizer(256),
        "21: invalid quantizer 256",
    ),
    (InvalidConfig::InvalidBitDepth(9), "22: invalid bit depth 9"),
];

#[test]
fn reasons_have_their_numbers_and_texts(rt: HostRuntime) -> Result<(), Fail> {
    for (reason, text) in REASONS {
        assert_eq!(rt; told(rt.alloc(), Err(reason))?.as_str(), text);
    }
    Ok(())
}
