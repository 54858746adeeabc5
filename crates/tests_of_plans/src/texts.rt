//! Numbers and texts of the words that settings use.

use av1_settings::{
    BlockSize, EncoderConfig, EncoderStatus, FrameType, PredictionModesSetting, SGRComplexityLevel,
    SceneDetectionSpeed, SegmentationLevel, Tune,
};
use std::alloc::Global;
use std::fmt::Display;
use std::test::Fail;

/// The texts of these values, each with a comma behind it.
fn texts<T: Display>(alloc: Global, values: &[T]) -> Result<String, Fail> {
    let mut text = String::new(alloc);
    for value in values {
        write!(text, "{value}, ")?;
    }
    Ok(text)
}

#[test]
fn types_of_frames(rt: HostRuntime) -> Result<(), Fail> {
    let types = [
        FrameType::KEY,
        FrameType::INTER,
        FrameType::INTRA_ONLY,
        FrameType::SWITCH,
    ];
    assert_eq!(rt; types.map(|kind| kind as u8), [0, 1, 2, 3]);
    assert_eq!(rt;
        texts(rt.alloc(), &types)?.as_str(),
        "Key frame, Inter frame, Intra only frame, Switching frame, "
    );
    Ok(())
}

#[test]
fn statuses(rt: HostRuntime) -> Result<(), Fail> {
    let statuses = [
        EncoderStatus::NeedMoreData,
        EncoderStatus::EnoughData,
        EncoderStatus::LimitReached,
        EncoderStatus::Encoded,
        EncoderStatus::Failure,
        EncoderStatus::NotReady,
        EncoderStatus::FrameSizeMismatch,
        EncoderStatus::OutOfMemory,
    ];
    assert_eq!(rt;
        statuses.map(|status| status as u8),
        [0, 1, 2, 3, 4, 5, 6, 7]
    );
    assert_eq!(rt;
        texts(rt.alloc(), &statuses)?.as_str(),
        "need more data, enough data, limit reached, encoded, failure, not ready, frame size mismatch, out of memory, "
    );
    Ok(())
}

#[test]
fn words_of_speed(rt: HostRuntime) -> Result<(), Fail> {
    let alloc = rt.alloc();
    let modes = [
        SceneDetectionSpeed::Fast,
        SceneDetectionSpeed::Standard,
        SceneDetectionSpeed::None,
    ];
    assert_eq!(rt; modes.map(|mode| mode as u8), [0, 1, 2]);
    assert_eq!(rt; texts(alloc, &modes)?.as_str(), "Fast, Standard, None, ");
    let modes = [
        PredictionModesSetting::Simple,
        PredictionModesSetting::ComplexKeyframes,
        PredictionModesSetting::ComplexAll,
    ];
    assert_eq!(rt;
        texts(alloc, &modes)?.as_str(),
        "Simple, Complex-KFs, Complex-All, "
    );
    let levels = [SGRComplexityLevel::Full, SGRComplexityLevel::Reduced];
    assert_eq!(rt; texts(alloc, &levels)?.as_str(), "Full, Reduced, ");
    let levels = [
        SegmentationLevel::Disabled,
        SegmentationLevel::Simple,
        SegmentationLevel::Complex,
        SegmentationLevel::Full,
    ];
    assert_eq!(rt;
        texts(alloc, &levels)?.as_str(),
        "Disabled, Simple, Complex, Full, "
    );
    let tunes = [Tune::Psnr, Tune::Psychovisual];
    assert_eq!(rt; texts(alloc, &tunes)?.as_str(), "Psnr, Psychovisual, ");
    Ok(())
}

const BLOCK_SIZES: [(BlockSize, &str); 22] = [
    (BlockSize::BLOCK_4X4, "4x4"),
    (BlockSize::BLOCK_4X8, "4x8"),
    (BlockSize::BLOCK_8X4, "8x4"),
    (BlockSize::BLOCK_8X8, "8x8"),
    (BlockSize::BLOCK_8X16, "8x16"),
    (BlockSize::BLOCK_16X8, "16x8"),
    (BlockSize::BLOCK_16X16, "16x16"),
    (BlockSize::BLOCK_16X32, "16x32"),
    (BlockSize::BLOCK_32X16, "32x16"),
    (BlockSize::BLOCK_32X32, "32x32"),
    (BlockSize::BLOCK_32X64, "32x64"),
    (BlockSize::BLOCK_64X32, "64x32"),
    (BlockSize::BLOCK_64X64, "64x64"),
    (BlockSize::BLOCK_64X128, "64x128"),
    (BlockSize::BLOCK_128X64, "128x64"),
    (BlockSize::BLOCK_128X128, "128x128"),
    (BlockSize::BLOCK_4X16, "4x16"),
    (BlockSize::BLOCK_16X4, "16x4"),
    (BlockSize::BLOCK_8X32, "8x32"),
    (BlockSize::BLOCK_32X8, "32x8"),
    (BlockSize::BLOCK_16X64, "16x64"),
    (BlockSize::BLOCK_64X16, "64x16"),
];

#[test]
fn block_sizes(rt: HostRuntime) -> Result<(), Fail> {
    for (place, (size, text)) in BLOCK_SIZES.iter().enumerate() {
        assert_eq!(rt; usize::from(*size as u8), place);
        assert_eq!(rt; size.to_string(rt.alloc())?.as_str(), *text);
    }
    Ok(())
}

#[test]
fn the_default_settings_print_one_line(rt: HostRuntime) -> Result<(), Fail> {
    let mut enc = EncoderConfig::default();
    // counts with low latency alone
    enc.speed_settings.multiref = false;
    let printed = enc.to_string(rt.alloc())?;
    let line =
        "keyint_min=12 keyint_max=240 quantizer=100 bitrate=0 min_quantizer=0 low_latency=false tune=Psychovisual rdo_lookahead_frames=20 multiref=true fast_deblock=false scene_detection_mode=Standard cdef=true lrf=true enable_timing_info=false min_block_size=8x8 max_block_size=64x64 encode_bottomup=false non_square_partition_max_threshold=8x8 reduced_tx_set=true tx_domain_distortion=true tx_domain_rate=false rdo_tx_decision=false prediction_modes=Complex-KFs fine_directional_intra=true include_near_mvs=false use_satd_subpel=true";
    assert_eq!(rt; printed.as_str(), line);
    Ok(())
}
