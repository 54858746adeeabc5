ghost use Rattle.std.specs.Prelude.{◌≡◌, ◌+◌, ◌-◌, ◌*◌, ◌^◌, pos, negsuc, ◌+ℤ◌, ◌*ℤ◌, ◌≤ℤ◌, ◌<ℤ◌};
ghost use Rattle.std.specs.Int.{int_min, saturate_signed, w64};
ghost use Rattle.fixed_log.specs.Exponential.{bexp64 as bexp64_of};
ghost use Rattle.fixed_log.specs.Conversion.{q57 as q57_of, q57_to_q24 as q57_to_q24_of, q24_to_q57 as q24_to_q57_of, bexp_q24 as bexp_q24_of};

use crate::exponential::bexp64;
use crate::wide::saturated;

/// `v`, from -64 to 63, in Q57: `v * 2^57`.
pub fn q57(v: i32) -> i64
    requires low { negsuc 63 ≤ℤ v }
    requires high { v ≤ℤ pos 63 }
    ensures { result ≡ q57_of v }
{
    v as i64 * (1 << 57)
}

/// From Q57 to Q24, rounded; halves go up.
pub fn q57_to_q24(v: i64) -> i32
    ensures { result ≡ q57_to_q24_of v }
{
    (((v >> 32) + 1) >> 1) as i32
}

/// From Q24 to Q57: `v * 2^33`, or the nearest `i64`.
pub fn q24_to_q57(v: i32) -> i64
    ensures { result ≡ q24_to_q57_of v }
{
    saturated(v as i128 * (1 << 33))
}

/// The most that `bexp_q24` answers.
const MOST: i64 = (1 << 47) - 1;

/// A logarithm in Q57, plus 24: what it is the logarithm of is then in Q24.
fn log_in_q57(log_scale: i32) -> i64
    requires low { negsuc (64 * 2 ^ 24 - 1) ≤ℤ log_scale }
    requires high { log_scale <ℤ pos (23 * 2 ^ 24) }
    ensures { result ≡ log_scale *ℤ pos (2 ^ 33) +ℤ q57_of (pos 24) }
{
    log_scale as i64 * (1 << 33) + q57(24)
}

/// The exponential in Q24, at most `2^47 - 1`.
fn bounded_exp(log_scale: i32) -> i64
    requires low { negsuc (64 * 2 ^ 24 - 1) ≤ℤ log_scale }
    requires high { log_scale <ℤ pos (23 * 2 ^ 24) }
    ensures value { result
        ≡ int_min (bexp64_of (log_scale *ℤ pos (2 ^ 33) +ℤ q57_of (pos 24))) (pos (2 ^ 47 - 1)) }
    ensures not_negative { pos 0 ≤ℤ result }
    ensures most { result ≤ℤ pos (2 ^ 47 - 1) }
{
    bexp64(log_in_q57(log_scale)).min(MOST)
}

/// The binary exponential of a logarithm in Q24, itself in Q24: rav1e's `bexp_q24`.
///
/// Any argument will do: the answer is 0 below a logarithm of -64, and at most `2^47 - 1`, which is the answer from a logarithm of 23 on.
#[tactic(auto, unfolding(crate::specs::Conversion::bexp_q24))]
pub fn bexp_q24(log_scale: i32) -> i64
    ensures value { result ≡ bexp_q24_of log_scale }
    ensures not_negative { pos 0 ≤ℤ result }
    ensures most { result ≤ℤ pos (2 ^ 47 - 1) }
{
    if log_scale >= 23 << 24 {
        MOST
    } else if log_scale < -(64 << 24) {
        0
    } else {
        bounded_exp(log_scale)
    }
}
