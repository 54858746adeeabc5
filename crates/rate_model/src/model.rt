ghost use Rattle.std.specs.Prelude.{◌≡◌, ℕ, ◌+◌, ◌*◌, ◌<◌, ◌^◌, pos, ◌+ℤ◌, ◌-ℤ◌, ◌*ℤ◌, ◌≤ℤ◌, int_lt, slice_index};
ghost use Rattle.std.specs.Int.{int_shr, saturate_signed, w64};
ghost use Rattle.fixed_log.specs.Within.{IsWithin};
ghost use Rattle.fixed_log.specs.Exponential.{bexp64 as bexp64_of};
ghost use Rattle.rate_model.specs.FrameSubtypes.{modulated as modulated_of};
ghost use Rattle.rate_model.specs.Search.{number_at, power_log as power_log_of, frame_bits as frame_bits_of, subtype_bits as subtype_bits_of, bits as bits_of};

use crate::frame_subtypes::modulated;
use crate::wide::times;
use fixed_log::bexp64;
use fixed_log::wide::saturated;

/// The bits that frames ahead are expected to take, as a function of the base quantiser.
#[derive(Clone, Copy, Debug, PartialEq, Eq)]
pub struct RateModel {
    /// How many frames of each subtype, and how many shows of coded frames.
    pub nframes: [i32; 5],
    /// The logarithm of a subtype's bits for each pixel at quantiser 1.
    pub log_scale: [i64; 4],
    /// How fast a subtype's bits fall: with the quantiser to the power of `exp / 64`.
    pub exp: [u8; 4],
    /// The logarithm of a frame's number of pixels.
    pub log_npixels: i64,
}

/// A logarithm in Q57, rounded to Q51.
fn rounded(log_q: i128) -> i128
    requires { IsWithin (2 ^ 64) log_q }
    ensures value { result ≡ int_shr (log_q +ℤ pos 32) 6 }
    ensures within { IsWithin (2 ^ 59) result }
{
    (log_q + 32) >> 6
}

/// The logarithm of a quantiser to the power of `exponent / 64`.
pub fn power_log(log_q: i128, exponent: u8) -> i128
    requires { IsWithin (2 ^ 64) log_q }
    ensures value { result ≡ power_log_of log_q exponent }
    ensures within { IsWithin (2 ^ 67) result }
{
    times(rounded(log_q), exponent as i64)
}

fn log_of_bits(log_scale: i64, log_npixels: i64, power_log: i128) -> i128
    requires { IsWithin (2 ^ 67) power_log }
    ensures { result ≡ log_scale +ℤ log_npixels -ℤ power_log }
{
    log_scale as i128 + log_npixels as i128 - power_log
}

/// The bits of one frame of subtype `j`.
fn frame_bits(model: &RateModel, base: i64, j: usize) -> i64
    requires { j < 4 }
    ensures { result ≡ frame_bits_of model.now base j }
{
    let power_log = power_log(modulated(base, j), model.exp[j]);
    bexp64(saturated(log_of_bits(model.log_scale[j], model.log_npixels, power_log)))
}

fn product(count: i32, bits: i64) -> i128
    ensures value { result ≡ count *ℤ bits }
    ensures within { IsWithin (2 ^ 94) result }
{
    times(count as i128, bits)
}

/// The bits of all frames of subtype `j`. Where there are none, nothing is computed.
fn subtype_bits(model: &RateModel, base: i64, j: usize) -> i128
    requires { j < 4 }
    ensures value { result ≡ subtype_bits_of model.now base j }
    ensures within { IsWithin (2 ^ 94) result }
{
    if model.nframes[j] == 0 {
        0
    } else {
        product(model.nframes[j], frame_bits(model, base, j))
    }
}

fn sum(a: i128, b: i128, c: i128, d: i128) -> i128
    requires a { IsWithin (2 ^ 94) a }
    requires b { IsWithin (2 ^ 94) b }
    requires c { IsWithin (2 ^ 94) c }
    requires d { IsWithin (2 ^ 94) d }
    ensures value { result ≡ a +ℤ b +ℤ c +ℤ d }
    ensures within { IsWithin (2 ^ 96) result }
{
    a + b + c + d
}

/// The bits of coded frames and those of the shows of such frames.
fn with_shows(bits: i128, shows: i32) -> i128
    requires { IsWithin (2 ^ 96) bits }
    ensures value { result ≡ bits +ℤ pos 24 *ℤ shows }
    ensures within { IsWithin (2 ^ 97) result }
{
    bits + 24 * shows as i128
}

impl RateModel {
    /// The bits of all frames at a base quantiser.
    #[tactic(auto, unfolding(crate::specs::Search::bits))]
    pub fn bits(&self, base: i64) -> i128
        ensures value { result ≡ bits_of self.now base }
        ensures within { IsWithin (2 ^ 97) result }
    {
        let frames = sum(
            subtype_bits(self, base, 0),
            subtype_bits(self, base, 1),
            subtype_bits(self, base, 2),
            subtype_bits(self, base, 3),
        );
        with_shows(frames, self.nframes[4])
    }
}
