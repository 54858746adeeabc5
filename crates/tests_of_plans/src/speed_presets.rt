//! Speed presets, field by field.

use av1_settings::{
    BlockSize, EncoderConfig, PartitionRange, PredictionModesSetting, SGRComplexityLevel,
    SceneDetectionSpeed, SegmentationLevel, SpeedSettings,
};
use std::alloc::Global;
use std::test::Fail;

/// Each field with its name, in the order of the settings.
fn told(alloc: Global, speed: &SpeedSettings) -> Result<String, Fail> {
    let mut text = String::new(alloc);
    write_frames(&mut text, speed)?;
    write_filters(&mut text, speed)?;
    write_partition(&mut text, speed)?;
    write_transform(&mut text, speed)?;
    write_prediction(&mut text, speed)?;
    write_motion(&mut text, speed)?;
    Ok(text)
}

fn write_frames(text: &mut String, speed: &SpeedSettings) -> Result<(), Fail> {
    write!(
        text,
        "multiref={} rdo_lookahead_frames={} scene_detection_mode={} segmentation={}",
        speed.multiref, speed.rdo_lookahead_frames, speed.scene_detection_mode, speed.segmentation
    )?;
    Ok(())
}

fn write_filters(text: &mut String, speed: &SpeedSettings) -> Result<(), Fail> {
    write!(
        text,
        " fast_deblock={} cdef={} lrf={} lru_on_skip={} sgr_complexity={}",
        speed.fast_deblock, speed.cdef, speed.lrf, speed.lru_on_skip, speed.sgr_complexity
    )?;
    Ok(())
}

fn write_partition(text: &mut String, speed: &SpeedSettings) -> Result<(), Fail> {
    let partition = &speed.partition;
    write!(
        text,
        " encode_bottomup={} threshold={} min={} max={}",
        partition.encode_bottomup,
        partition.non_square_partition_max_threshold,
        partition.partition_range.min(),
        partition.partition_range.max()
    )?;
    Ok(())
}

fn write_transform(text: &mut String, speed: &SpeedSettings) -> Result<(), Fail> {
    let transform = &speed.transform;
    write!(
        text,
        " reduced_tx_set={} tx_domain_distortion={} tx_domain_rate={} rdo_tx_decision={} enable_inter_tx_split={}",
        transform.reduced_tx_set,
        transform.tx_domain_distortion,
        transform.tx_domain_rate,
        transform.rdo_tx_decision,
        transform.enable_inter_tx_split
    )?;
    Ok(())
}

fn write_prediction(text: &mut String, speed: &SpeedSettings) -> Result<(), Fail> {
    write!(
        text,
        " prediction_modes={} fine_directional_intra={}",
        speed.prediction.prediction_modes, speed.prediction.fine_directional_intra
    )?;
    Ok(())
}

fn write_motion(text: &mut String, speed: &SpeedSettings) -> Result<(), Fail> {
    write!(
        text,
        " use_satd_subpel={} include_near_mvs={} me_allow_full_search={}",
        speed.motion.use_satd_subpel,
        speed.motion.include_near_mvs,
        speed.motion.me_allow_full_search
    )?;
    Ok(())
}

const FASTEST: &str =
    "multiref=false rdo_lookahead_frames=10 scene_detection_mode=Fast segmentation=Simple fast_deblock=true cdef=true lrf=false lru_on_skip=false sgr_complexity=Reduced encode_bottomup=false threshold=8x8 min=32x32 max=32x32 reduced_tx_set=true tx_domain_distortion=true tx_domain_rate=false rdo_tx_decision=false enable_inter_tx_split=true prediction_modes=Simple fine_directional_intra=true use_satd_subpel=false include_near_mvs=false me_allow_full_search=false";

#[test]
fn presets_from_ten_on_are_the_same(rt: HostRuntime) -> Result<(), Fail> {
    for preset in [10, 11, 255] {
        let speed = SpeedSettings::from_preset(preset);
        assert_eq!(rt; told(rt.alloc(), &speed)?.as_str(), FASTEST, "at {preset}");
    }
    Ok(())
}

/// Presets, each with its lookahead, prediction modes and smallest block.
const PRESETS: [(u8, &str); 9] = [
    (0, "40 Complex-All 4x4"),
    (1, "40 Complex-All 4x4"),
    (2, "40 Complex-KFs 4x4"),
    (3, "30 Complex-KFs 8x8"),
    (5, "30 Complex-KFs 8x8"),
    (6, "20 Complex-KFs 8x8"),
    (7, "20 Simple 8x8"),
    (8, "10 Simple 8x8"),
    (9, "10 Simple 16x16"),
];

fn told_in_short(alloc: Global, speed: &SpeedSettings) -> Result<String, Fail> {
    let mut text = String::new(alloc);
    let modes = speed.prediction.prediction_modes;
    let smallest = speed.partition.partition_range.min();
    write!(text, "{} {modes} {smallest}", speed.rdo_lookahead_frames)?;
    Ok(text)
}

#[test]
fn presets_change_where_the_table_says(rt: HostRuntime) -> Result<(), Fail> {
    for (preset, text) in PRESETS {
        let speed = EncoderConfig::with_speed_preset(preset).speed_settings;
        let told = told_in_short(rt.alloc(), &speed)?;
        assert_eq!(rt; told.as_str(), text, "at {preset}");
    }
    Ok(())
}

#[test]
fn words_are_in_order(rt: HostRuntime) {
    assert!(rt; SceneDetectionSpeed::Fast < SceneDetectionSpeed::None);
    assert!(rt; PredictionModesSetting::Simple < PredictionModesSetting::ComplexAll);
    assert!(rt; SGRComplexityLevel::Full < SGRComplexityLevel::Reduced);
    assert!(rt; SegmentationLevel::Complex < SegmentationLevel::Full);
}

#[test]
fn a_range_has_square_ends(rt: HostRuntime) -> Result<(), Fail> {
    let range = PartitionRange::new(BlockSize::BLOCK_8X8, BlockSize::BLOCK_128X128);
    let largest = range.max().to_string(rt.alloc())?;
    assert_eq!(rt; largest.as_str(), "128x128");
    let square = [range.min().is_sqr(), BlockSize::BLOCK_4X16.is_sqr()];
    assert_eq!(rt; square, [true, false]);
    Ok(())
}
