ghost use Rattle.std.specs.Prelude.{◌≡◌, ◌≤◌};
ghost use Rattle.av1_settings.specs.Header.{container_sequence_header, flag, format_byte, profile};

use crate::EncoderConfig;
use av1_frame::ChromaSampling;

/// The four bytes that a container says of the stream (av1C, of the AV1 binding to ISO media files): marker and version,
/// profile and level 31, bit depth and sampling, no initial delay. No memory is taken.
pub fn container_sequence_header(enc: &EncoderConfig) -> [u8; 4]
    ensures { result ≡ container_sequence_header enc.now }
{
    [0x81, profile(enc) * 32 + 31, format_byte(enc), 0]
}

// The profile: 2 for 12 bits or 4:2:2, else 1 for 4:4:4, else 0.
fn profile(enc: &EncoderConfig) -> u8
    ensures value { result ≡ profile enc.now }
    ensures small { result ≤ 2 }
{
    if enc.bit_depth == 12 {
        return 2;
    }
    match enc.chroma_sampling {
        ChromaSampling::Cs422 => 2,
        ChromaSampling::Cs444 => 1,
        ChromaSampling::Cs420 | ChromaSampling::Cs400 => 0,
    }
}

// Bit depth and sampling, as single bits.
fn format_byte(enc: &EncoderConfig) -> u8
    ensures { result ≡ format_byte enc.now }
{
    let sampling = enc.chroma_sampling;
    flag(enc.bit_depth > 8, 64)
        + flag(enc.bit_depth == 12, 32)
        + flag(matches!(sampling, ChromaSampling::Cs400), 16)
        + flag(!matches!(sampling, ChromaSampling::Cs444), 8)
        + flag(matches!(sampling, ChromaSampling::Cs420), 4)
}

// A bit of this value.
fn flag(set: bool, value: u8) -> u8
    ensures exact { result ≡ flag set value }
    ensures small { result ≤ value }
{
    if set { value } else { 0 }
}
