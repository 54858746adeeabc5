ghost use Rattle.std.specs.Prelude.{◌≡◌, ◌<◌, ◌≤◌};
ghost use Rattle.av1_settings.specs.Colors.{is_hdr};
ghost use Rattle.av1_settings.specs.Defaults.{default_encoder, with_speed_preset};
ghost use Rattle.av1_settings.specs.Render.{render_size, scaled};
ghost use Rattle.av1_settings.specs.Settings.{interval_of, multiref, temporal_rdo, with_key_frame_interval};

use crate::{
    ChromaSamplePosition, ColorDescription, ContentLight, MasteringDisplay, PixelRange, Rational,
    SpeedSettings, TransferCharacteristics, Tune,
};
use av1_frame::ChromaSampling;

// The greatest distance of two key frames (rav1e's MAX_MAX_KEY_FRAME_INTERVAL).
pub(crate) const MAX_MAX_KEY_FRAME_INTERVAL: u64 = 715827882;

/// What to encode, and how.
#[derive(Clone, Copy, Debug)]
pub struct EncoderConfig {
    /// Width of a frame in samples, 16 to 65535; of a still picture, from 1 on.
    pub width: usize,
    /// Height of a frame in samples, 16 to 65535; of a still picture, from 1 on.
    pub height: usize,
    /// Width over height of a sample as it is to be shown; both parts above 0.
    pub sample_aspect_ratio: Rational,
    /// The seconds from a frame to the next; both parts 1 to 4294967295.
    pub time_base: Rational,
    /// Bits of a sample: 8, 10 or 12.
    pub bit_depth: usize,
    /// How chroma is subsampled.
    pub chroma_sampling: ChromaSampling,
    /// Where the chroma samples lie.
    pub chroma_sample_position: ChromaSamplePosition,
    /// The range of sample values.
    pub pixel_range: PixelRange,
    /// The colours that the samples stand for.
    pub color_description: Option<ColorDescription>,
    /// The display that the content was mastered on.
    pub mastering_display: Option<MasteringDisplay>,
    /// How bright the content is.
    pub content_light: Option<ContentLight>,
    /// The level that has to be kept to, by its index, 0 to 30; 31 stands for none.
    pub level_idx: Option<u8>,
    /// Whether the sequence header has timing information.
    pub enable_timing_info: bool,
    /// Whether a single frame is encoded.
    pub still_picture: bool,
    /// Whether the stream is to bear losses.
    pub error_resilient: bool,
    /// The distance of two switch frames, in frames; 0 stands for none. Above 0 with `low_latency` alone.
    pub switch_frame_interval: u64,
    /// The least distance of two key frames, in frames; for the detector alone.
    pub min_key_frame_interval: u64,
    /// The greatest distance of two key frames, in frames; 0 stands for 715827882, the greatest that there is.
    pub max_key_frame_interval: u64,
    /// The frames over which the bit reservoir evens out, 12 to 131072; without one it follows from the intervals.
    pub reservoir_frame_delay: Option<i32>,
    /// Whether every frame is coded in its order and shown at once.
    pub low_latency: bool,
    /// The base quantizer index, 0 to 255; with a bitrate, its upper end.
    pub quantizer: usize,
    /// The least quantizer index that a bitrate may lead to.
    pub min_quantizer: u8,
    /// The bitrate in bits per second; 0 and below stand for none.
    pub bitrate: i32,
    /// What distortion is measured by.
    pub tune: Tune,
    /// Columns of tiles: 0 or a power of two.
    pub tile_cols: usize,
    /// Rows of tiles: 0 or a power of two.
    pub tile_rows: usize,
    /// Tiles in all; where it isn't 0, it overrides `tile_cols` and `tile_rows`.
    pub tiles: usize,
    /// Speed against quality.
    pub speed_settings: SpeedSettings,
}

impl EncoderConfig {
    /// The default settings at a speed preset, from 0, the slowest, to 10: 640 x 480 at 30 frames a second, 8 bits 4:2:0, key
    /// frames 12 to 240 apart, quantizer 100 and no bitrate.
    #[tactic(auto, unfolding(crate::specs::Defaults::with_speed_preset))]
    pub fn with_speed_preset(speed: u8) -> EncoderConfig
        ensures { result ≡ with_speed_preset speed }
    {
        EncoderConfig {
            width: 640,
            height: 480,
            sample_aspect_ratio: Rational::new(1, 1),
            time_base: Rational::new(1, 30),
            bit_depth: 8,
            chroma_sampling: ChromaSampling::Cs420,
            chroma_sample_position: ChromaSamplePosition::Unknown,
            pixel_range: PixelRange::Limited,
            color_description: None,
            mastering_display: None,
            content_light: None,
            level_idx: None,
            enable_timing_info: false,
            still_picture: false,
            error_resilient: false,
            switch_frame_interval: 0,
            min_key_frame_interval: 12,
            max_key_frame_interval: 240,
            reservoir_frame_delay: None,
            low_latency: false,
            quantizer: 100,
            min_quantizer: 0,
            bitrate: 0,
            tune: Tune::Psychovisual,
            tile_cols: 0,
            tile_rows: 0,
            tiles: 0,
            speed_settings: SpeedSettings::from_preset(speed),
        }
    }

    /// Sets the least and the greatest distance of two key frames, in frames. A greatest of 0 is stored as 715827882.
    pub fn set_key_frame_interval(&mut self, min_interval: u64, max_interval: u64)
        ensures { self.new ≡ with_key_frame_interval self.old min_interval max_interval }
    {
        self.min_key_frame_interval = min_interval;
        self.max_key_frame_interval = interval_of(max_interval);
    }

    /// The greatest distance of two key frames, in frames: `max_key_frame_interval`, where 0 stands for 715827882.
    pub fn key_frame_interval(&self) -> u64
        ensures value { result ≡ interval_of self.now.max_key_frame_interval }
        ensures positive { 1 ≤ result }
    {
        interval_of(self.max_key_frame_interval)
    }

    /// The width and height that the picture is to be shown at: samples wider than high widen it, others make it higher.
    /// Halves go up, and what is beyond `usize` becomes its greatest number.
    pub fn render_size(&self) -> (usize, usize)
        requires num { 0 < self.now.sample_aspect_ratio.num }
        requires den { 0 < self.now.sample_aspect_ratio.den }
        ensures { result ≡ render_size self.now }
    {
        let Rational { num, den } = self.sample_aspect_ratio;
        if num > den {
            (scaled(self.width, num, den), self.height)
        } else {
            (self.width, scaled(self.height, den, num))
        }
    }

    /// Whether a frame may be predicted from several others: always where frames are coded out of their order, else by the
    /// speed setting.
    pub fn multiref(&self) -> bool
        ensures { result ≡ multiref self.now }
    {
        !self.low_latency || self.speed_settings.multiref
    }

    /// Whether distortion is measured on samples, after the inverse transform.
    pub fn temporal_rdo(&self) -> bool
        ensures { result ≡ temporal_rdo self.now }
    {
        !self.speed_settings.transform.tx_domain_distortion
    }

    /// Whether the content has a high dynamic range: its transfer is the perceptual quantizer of SMPTE ST 2084.
    pub fn is_hdr(&self) -> bool
        ensures { result ≡ is_hdr self.now }
    {
        match self.color_description {
            Some(description) => matches!(
                description.transfer_characteristics,
                TransferCharacteristics::SMPTE2084
            ),
            None => false,
        }
    }
}

// The distance that a number stands for: 0 for the greatest that there is.
fn interval_of(interval: u64) -> u64
    ensures value { result ≡ interval_of interval }
    ensures positive { 1 ≤ result }
{
    if interval == 0 {
        MAX_MAX_KEY_FRAME_INTERVAL
    } else {
        interval
    }
}

// A length times num over den, to the nearest whole number and at most the greatest usize.
fn scaled(len: usize, num: u64, den: u64) -> usize
    requires { 0 < den }
    ensures { result ≡ scaled len num den }
{
    let product = len as u128 * num as u128;
    let rounded = (product + (den / 2) as u128) / den as u128;
    rounded.min(usize::MAX as u128) as usize
}

impl Default for EncoderConfig {
    ghost is_default = { λ enc. enc ≡ default_encoder };

    /// Preset 6.
    fn default() -> EncoderConfig {
        EncoderConfig::with_speed_preset(6)
    }
}
