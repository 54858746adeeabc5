//! The checks of a configuration, group by group. Each answers the first of its rows that fails.

ghost use Rattle.std.specs.Prelude.{◌≡◌, ◌≤◌, false, OnOk};
ghost use Rattle.std.specs.Result.{result_err};
ghost use Rattle.av1_settings.specs.Checks.{asks_passes, aspect_rows, coding_rows, exceeds, first_failing, is_bit_depth, is_tile_count, level_rows, mismatches_color, option_rows, pass_rows, pixel_rows, refusal_of, reservoir_rows, size_rows, structure_rows, switch_rows, time_rows};
ghost use Rattle.av1_settings.specs.Colors.{is_rgb};

use crate::encoder::MAX_MAX_KEY_FRAME_INTERVAL;
use crate::{
    ColorDescription, ColorPrimaries, Config, EncoderConfig, InvalidConfig, LevelRow, LevelTables,
    MatrixCoefficients, PixelRange, Rational, StillOption, TransferCharacteristics,
};
use av1_frame::ChromaSampling;

// The least width and height in samples.
pub(crate) const MIN_SIZE: usize = 16;

// The same of a still picture.
pub(crate) const MIN_STILL_SIZE: usize = 1;

// The greatest width and height in samples, as they are and as they are to be shown.
pub(crate) const MAX_SIZE: usize = 65535;

// The greatest lookahead in coded frames.
pub(crate) const MAX_LOOKAHEAD: usize = usize::MAX - 1;

// The greatest part of a time base, the last number of 32 bits.
pub(crate) const MAX_RATE: u64 = 4294967295;

// The frames over which the bit reservoir may even out.
pub(crate) const MIN_RESERVOIR_DELAY: i32 = 12;

pub(crate) const MAX_RESERVOIR_DELAY: i32 = 131072;

// The level index that stands for no level (the AV1 specification's seq_level_idx 31, maximum parameters).
pub(crate) const NO_LEVEL: u8 = 31;

// The greatest quantizer index.
pub(crate) const MAX_QUANTIZER: usize = 255;

// Width and height.
#[tactic(auto, unfolding(crate::specs::Checks::first_failing, crate::specs::Checks::size_rows))]
fn check_size(enc: &EncoderConfig) -> Result<(), InvalidConfig>
    ensures first { result_err result ≡ first_failing (size_rows enc.now) }
    ensures width { OnOk result (enc.now.width ≤ MAX_SIZE) }
    ensures height { OnOk result (enc.now.height ≤ MAX_SIZE) }
{
    let min = if enc.still_picture {
        MIN_STILL_SIZE
    } else {
        MIN_SIZE
    };
    if enc.width < min || enc.width > MAX_SIZE {
        return Err(InvalidConfig::InvalidWidth(enc.width));
    }
    if enc.height < min || enc.height > MAX_SIZE {
        return Err(InvalidConfig::InvalidHeight(enc.height));
    }
    Ok(())
}

// The aspect ratio, and the size that it leads to.
#[tactic(auto, unfolding(crate::specs::Checks::first_failing, crate::specs::Checks::aspect_rows))]
fn check_aspect(enc: &EncoderConfig) -> Result<(), InvalidConfig>
    ensures { result_err result ≡ first_failing (aspect_rows enc.now) }
{
    let Rational { num, den } = enc.sample_aspect_ratio;
    if num == 0 {
        return Err(InvalidConfig::InvalidAspectRatioNum(num as usize));
    }
    if den == 0 {
        return Err(InvalidConfig::InvalidAspectRatioDen(den as usize));
    }
    let (width, height) = enc.render_size();
    if width < 1 || width > MAX_SIZE {
        return Err(InvalidConfig::InvalidRenderWidth(width));
    }
    if height < 1 || height > MAX_SIZE {
        return Err(InvalidConfig::InvalidRenderHeight(height));
    }
    Ok(())
}

// A number of tiles one way: 0 or a power of two.
fn is_tile_count(n: usize) -> bool
    ensures { result ≡ is_tile_count n }
{
    n == 0 || n.is_power_of_two()
}

// Lookahead, key frame interval and tiles.
#[tactic(auto, unfolding(crate::specs::Checks::first_failing, crate::specs::Checks::structure_rows))]
fn check_structure(enc: &EncoderConfig) -> Result<(), InvalidConfig>
    ensures { result_err result ≡ first_failing (structure_rows enc.now) }
{
    let lookahead = enc.speed_settings.rdo_lookahead_frames;
    if lookahead < 1 || lookahead > MAX_LOOKAHEAD {
        return Err(InvalidConfig::InvalidRdoLookaheadFrames {
            actual: lookahead,
            max: MAX_LOOKAHEAD,
            min: 1,
        });
    }
    if enc.max_key_frame_interval > MAX_MAX_KEY_FRAME_INTERVAL {
        return Err(InvalidConfig::InvalidMaxKeyFrameInterval {
            actual: enc.max_key_frame_interval,
            max: MAX_MAX_KEY_FRAME_INTERVAL,
        });
    }
    if !is_tile_count(enc.tile_cols) {
        return Err(InvalidConfig::InvalidTileCols(enc.tile_cols));
    }
    if !is_tile_count(enc.tile_rows) {
        return Err(InvalidConfig::InvalidTileRows(enc.tile_rows));
    }
    Ok(())
}

// The time base.
#[tactic(auto, unfolding(crate::specs::Checks::first_failing, crate::specs::Checks::time_rows))]
fn check_time(enc: &EncoderConfig) -> Result<(), InvalidConfig>
    ensures first { result_err result ≡ first_failing (time_rows enc.now) }
    ensures num { OnOk result (1 ≤ enc.now.time_base.num) }
    ensures den { OnOk result (enc.now.time_base.den ≤ MAX_RATE) }
{
    let Rational { num, den } = enc.time_base;
    if num < 1 || num > MAX_RATE {
        return Err(InvalidConfig::InvalidFrameRateNum {
            actual: num,
            max: MAX_RATE,
        });
    }
    if den < 1 || den > MAX_RATE {
        return Err(InvalidConfig::InvalidFrameRateDen {
            actual: den,
            max: MAX_RATE,
        });
    }
    Ok(())
}

// The delay of the bit reservoir.
#[tactic(auto, unfolding(crate::specs::Checks::first_failing, crate::specs::Checks::reservoir_rows))]
fn check_reservoir(enc: &EncoderConfig) -> Result<(), InvalidConfig>
    ensures { result_err result ≡ first_failing (reservoir_rows enc.now.reservoir_frame_delay) }
{
    if let Some(delay) = enc.reservoir_frame_delay {
        if delay < MIN_RESERVOIR_DELAY || delay > MAX_RESERVOIR_DELAY {
            return Err(InvalidConfig::InvalidReservoirFrameDelay(delay));
        }
    }
    Ok(())
}

// The distance of switch frames.
#[tactic(auto, unfolding(crate::specs::Checks::first_failing, crate::specs::Checks::switch_rows))]
fn check_switch(enc: &EncoderConfig) -> Result<(), InvalidConfig>
    ensures { result_err result ≡ first_failing (switch_rows enc.now) }
{
    let interval = enc.switch_frame_interval;
    if interval > 0 && !enc.low_latency {
        return Err(InvalidConfig::InvalidSwitchFrameInterval(interval));
    }
    Ok(())
}

// Whether the samples are said to be red, green and blue themselves.
fn is_rgb(description: &Option<ColorDescription>) -> bool
    ensures { result ≡ is_rgb description.now }
{
    match description {
        Some(colors) => {
            matches!(colors.color_primaries, ColorPrimaries::BT709)
                && matches!(
                    colors.transfer_characteristics,
                    TransferCharacteristics::SRGB
                )
                && matches!(colors.matrix_coefficients, MatrixCoefficients::Identity)
        }
        None => false,
    }
}

// Whether they are, but not in full range and at full size.
fn mismatches_color(enc: &EncoderConfig) -> bool
    ensures { result ≡ mismatches_color enc.now }
{
    let rgb = is_rgb(&enc.color_description);
    let whole = matches!(enc.pixel_range, PixelRange::Full)
        && matches!(enc.chroma_sampling, ChromaSampling::Cs444);
    !matches!(enc.chroma_sampling, ChromaSampling::Cs400) && rgb && !whole
}

// Options that exclude one another.
#[tactic(auto, unfolding(crate::specs::Checks::first_failing, crate::specs::Checks::option_rows))]
fn check_options(enc: &EncoderConfig) -> Result<(), InvalidConfig>
    ensures { result_err result ≡ first_failing (option_rows enc.now) }
{
    if enc.enable_timing_info && enc.still_picture {
        return Err(InvalidConfig::InvalidOptionWithStillPicture(StillOption::EnableTimingInfo));
    }
    if mismatches_color(enc) {
        return Err(InvalidConfig::ColorConfigurationMismatch);
    }
    Ok(())
}

// Whether size or display rate are beyond the level.
fn exceeds(enc: &EncoderConfig, level: &LevelRow) -> bool
    requires width { enc.now.width ≤ MAX_SIZE }
    requires height { enc.now.height ≤ MAX_SIZE }
    requires num { 1 ≤ enc.now.time_base.num }
    ensures { result ≡ exceeds enc.now level.now }
{
    let pixels = enc.width as u32 as u64 * enc.height as u32 as u64;
    let Rational { num, den } = enc.time_base;
    let rate = (pixels as u128 * den as u128).div_ceil(num as u128);
    pixels > level.max_pic_size
        || enc.width as u64 > level.max_h_size
        || enc.height as u64 > level.max_v_size
        || rate > level.max_display_rate as u128
}

// The level, if one is given.
#[tactic(auto, unfolding(crate::specs::Checks::first_failing, crate::specs::Checks::level_rows))]
fn check_level(enc: &EncoderConfig, levels: &LevelTables) -> Result<(), InvalidConfig>
    requires width { enc.now.width ≤ MAX_SIZE }
    requires height { enc.now.height ≤ MAX_SIZE }
    requires num { 1 ≤ enc.now.time_base.num }
    ensures { result_err result ≡ first_failing (level_rows levels.now enc.now enc.now.level_idx) }
{
    let index = match enc.level_idx {
        Some(index) => index,
        None => return Ok(()),
    };
    if index > NO_LEVEL {
        return Err(InvalidConfig::LevelUndefined);
    }
    if index == NO_LEVEL {
        return Ok(());
    }
    let level = &levels.rows[index as usize];
    if !level.defined {
        return Err(InvalidConfig::LevelUndefined);
    }
    if exceeds(enc, level) {
        return Err(InvalidConfig::LevelConstraintsExceeded);
    }
    Ok(())
}

// Whether pass data is asked for or a first pass's summary given.
fn asks_passes(config: &Config) -> bool
    ensures { result ≡ asks_passes config.now }
{
    config.rate_control.emit_data || config.rate_control.summary.is_some()
}

// 8, 10 or 12.
fn is_bit_depth(n: usize) -> bool
    ensures { result ≡ is_bit_depth n }
{
    matches!(n, 8 | 10 | 12)
}

// Bitrate, quantizer and bit depth.
#[tactic(auto, unfolding(crate::specs::Checks::first_failing, crate::specs::Checks::coding_rows))]
fn check_coding(config: &Config) -> Result<(), InvalidConfig>
    ensures { result_err result ≡ first_failing (coding_rows config.now) }
{
    let enc = &config.enc;
    if asks_passes(config) && enc.bitrate <= 0 {
        return Err(InvalidConfig::TargetBitrateNeeded);
    }
    if enc.quantizer > MAX_QUANTIZER {
        return Err(InvalidConfig::InvalidQuantizer(enc.quantizer));
    }
    if !is_bit_depth(enc.bit_depth) {
        return Err(InvalidConfig::InvalidBitDepth(enc.bit_depth));
    }
    Ok(())
}

// All of them, one group after the other.
#[tactic(auto, using(crate::proofs::CheckLemmas::first_failing_append), unfolding(crate::specs::Checks::refusal_of, crate::specs::Checks::rows_of))]
pub(crate) fn check_all(config: &Config, levels: &LevelTables) -> Result<(), InvalidConfig>
    ensures { result_err result ≡ refusal_of levels.now config.now }
{
    let enc = &config.enc;
    check_size(enc)?;
    check_aspect(enc)?;
    check_structure(enc)?;
    check_time(enc)?;
    check_reservoir(enc)?;
    check_switch(enc)?;
    check_options(enc)?;
    check_level(enc, levels)?;
    check_coding(config)
}

// The samples fit pixels of this many bits.
#[tactic(auto, unfolding(crate::specs::Checks::first_failing, crate::specs::Checks::pixel_rows))]
pub(crate) fn check_pixel(enc: &EncoderConfig, bits: usize) -> Result<(), InvalidConfig>
    ensures first { result_err result ≡ first_failing (pixel_rows bits enc.now) }
    ensures depth { OnOk result (enc.now.bit_depth ≤ bits) }
{
    if enc.bit_depth > bits {
        return Err(InvalidConfig::InvalidBitDepth(enc.bit_depth));
    }
    Ok(())
}

// The session is in one pass.
#[tactic(auto, unfolding(crate::specs::Checks::first_failing, crate::specs::Checks::pass_rows))]
pub(crate) fn check_pass(config: &Config) -> Result<(), InvalidConfig>
    ensures first { result_err result ≡ first_failing (pass_rows config.now) }
    ensures one_pass { OnOk result (asks_passes config.now ≡ false) }
{
    if asks_passes(config) {
        return Err(InvalidConfig::RateControlConfigurationMismatch);
    }
    Ok(())
}
