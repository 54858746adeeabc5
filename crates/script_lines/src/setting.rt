ghost use Rattle.std.specs.Prelude.{◌≡◌, pos, bytes_eq};
ghost use Rattle.std.specs.Option.{option_map};
ghost use Rattle.script_lines.specs.DecimalNumbers.{number_up_to, signed_up_to};
ghost use Rattle.script_lines.specs.SettingLines.{flag_of, sampling_of, setting_of_none, setting_of_one, setting_of_two, with_setting};

use crate::number::{number, number_up_to, signed_up_to};
use av1_frame::ChromaSampling;
use av1_settings::{EncoderConfig, Rational};

/// A setting, as a line of a script gives it.
#[derive(Clone, Copy)]
pub enum Setting {
    /// The speed preset, whose speed settings the other lines change.
    Preset(u8),
    /// Coded frames that have to be known before one is coded.
    Lookahead(usize),
    /// Whether a frame may be predicted from several others where frames aren't reordered.
    SeveralReferences(bool),
    /// Frames of this size.
    Size {
        /// Samples in a row.
        width: usize,
        /// Rows.
        height: usize,
    },
    /// Width over height of a sample as it is to be shown.
    SampleAspect {
        /// The numerator.
        num: u64,
        /// The denominator.
        den: u64,
    },
    /// The seconds from a frame to the next.
    TimeBase {
        /// The numerator.
        num: u64,
        /// The denominator.
        den: u64,
    },
    /// Bits of a sample.
    BitDepth(usize),
    /// How chroma is subsampled.
    Chroma(ChromaSampling),
    /// The least and the greatest distance of two key frames, in frames.
    KeyInterval {
        /// The least.
        min: u64,
        /// The greatest.
        max: u64,
    },
    /// The distance of two switch frames, in frames; 0 for none.
    SwitchInterval(u64),
    /// Frames are coded in the order in which they come.
    LowLatency,
    /// A single frame is encoded.
    StillPicture,
    /// The sequence header has timing information.
    TimingInfo,
    /// The level that has to be kept to, by its index.
    Level(u8),
    /// The base quantizer index.
    Quantizer(usize),
    /// The least quantizer index.
    MinQuantizer(u8),
    /// Bits a second; 0 and below for none.
    Bitrate(i32),
    /// The frames over which the bit reservoir evens out.
    ReservoirDelay(i32),
}

impl Setting {
    /// The setting of a word alone.
    pub fn of_none(word: &[u8]) -> Option<Setting>
        ensures { result ≡ setting_of_none word.now }
    {
        if is(word, "lowlatency") {
            return Some(Setting::LowLatency);
        }
        if is(word, "still") {
            return Some(Setting::StillPicture);
        }
        if is(word, "timing") {
            return Some(Setting::TimingInfo);
        }
        None
    }

    /// The setting of a word and what stands behind it.
    pub fn of_one(word: &[u8], text: &[u8]) -> Option<Setting>
        ensures { result ≡ setting_of_one word.now text.now }
    {
        if is(word, "preset") {
            return Some(Setting::Preset(byte(text)?));
        }
        if is(word, "rdo") {
            return Some(Setting::Lookahead(number(text)? as usize));
        }
        if is(word, "multiref") {
            return Some(Setting::SeveralReferences(flag(text)?));
        }
        if is(word, "depth") {
            return Some(Setting::BitDepth(number(text)? as usize));
        }
        if is(word, "chroma") {
            return Some(Setting::Chroma(sampling(text)?));
        }
        if is(word, "switch") {
            return Some(Setting::SwitchInterval(number(text)?));
        }
        if is(word, "level") {
            return Some(Setting::Level(byte(text)?));
        }
        if is(word, "quantizer") {
            return Some(Setting::Quantizer(number(text)? as usize));
        }
        if is(word, "minq") {
            return Some(Setting::MinQuantizer(byte(text)?));
        }
        if is(word, "bitrate") {
            return Some(Setting::Bitrate(bits(text)?));
        }
        if is(word, "reservoir") {
            return Some(Setting::ReservoirDelay(delay(text)?));
        }
        None
    }

    /// The setting of a word and two numbers.
    pub fn of_two(word: &[u8], first: u64, second: u64) -> Option<Setting>
        ensures { result ≡ setting_of_two word.now first second }
    {
        if is(word, "size") {
            return Some(Setting::Size {
                width: first as usize,
                height: second as usize,
            });
        }
        if is(word, "aspect") {
            return Some(Setting::SampleAspect {
                num: first,
                den: second,
            });
        }
        if is(word, "timebase") {
            return Some(Setting::TimeBase {
                num: first,
                den: second,
            });
        }
        if is(word, "keyint") {
            return Some(Setting::KeyInterval {
                min: first,
                max: second,
            });
        }
        None
    }

    /// Changes what the setting is about, and nothing else. A preset changes nothing here: it stands before all settings.
    pub fn apply(self, enc: &mut EncoderConfig)
        ensures { enc.new ≡ with_setting enc.old self }
    {
        match self {
            Setting::Preset(_) => {}
            Setting::Lookahead(frames) => enc.speed_settings.rdo_lookahead_frames = frames,
            Setting::SeveralReferences(several) => enc.speed_settings.multiref = several,
            Setting::Size { width, height } => {
                enc.width = width;
                enc.height = height;
            }
            Setting::SampleAspect { num, den } => enc.sample_aspect_ratio = Rational::new(num, den),
            Setting::TimeBase { num, den } => enc.time_base = Rational::new(num, den),
            Setting::BitDepth(bits) => enc.bit_depth = bits,
            Setting::Chroma(sampling) => enc.chroma_sampling = sampling,
            Setting::KeyInterval { min, max } => enc.set_key_frame_interval(min, max),
            Setting::SwitchInterval(frames) => enc.switch_frame_interval = frames,
            Setting::LowLatency => enc.low_latency = true,
            Setting::StillPicture => enc.still_picture = true,
            Setting::TimingInfo => enc.enable_timing_info = true,
            Setting::Level(index) => enc.level_idx = Some(index),
            Setting::Quantizer(index) => enc.quantizer = index,
            Setting::MinQuantizer(index) => enc.min_quantizer = index,
            Setting::Bitrate(bits) => enc.bitrate = bits,
            Setting::ReservoirDelay(frames) => enc.reservoir_frame_delay = Some(frames),
        }
    }
}

/// Whether a word is this one.
pub fn is(word: &[u8], name: &str) -> bool
    ensures { result ≡ bytes_eq word.now name.now }
{
    word == name.as_bytes()
}

// A number of frames that fits an `i32`.
fn delay(text: &[u8]) -> Option<i32>
    ensures { result ≡ option_map pos (number_up_to 0x7fff_ffff text.now) }
{
    let number = number_up_to(text, i32::MAX as u64)?;
    Some(number as i32)
}

// A number of bits that fits an `i32`, with its sign.
fn bits(text: &[u8]) -> Option<i32>
    ensures { result ≡ signed_up_to 0x7fff_ffff text.now }
{
    let number = signed_up_to(text, i32::MAX as u64)?;
    Some(number as i32)
}

fn byte(text: &[u8]) -> Option<u8>
    ensures { result ≡ number_up_to 255 text.now }
{
    let number = number_up_to(text, u8::MAX as u64)?;
    Some(number as u8)
}

// `0` or `1`.
fn flag(text: &[u8]) -> Option<bool>
    ensures { result ≡ flag_of text.now }
{
    match text {
        b"0" => Some(false),
        b"1" => Some(true),
        _ => None,
    }
}

fn sampling(text: &[u8]) -> Option<ChromaSampling>
    ensures { result ≡ sampling_of text.now }
{
    match text {
        b"420" => Some(ChromaSampling::Cs420),
        b"422" => Some(ChromaSampling::Cs422),
        b"444" => Some(ChromaSampling::Cs444),
        b"400" => Some(ChromaSampling::Cs400),
        _ => None,
    }
}
