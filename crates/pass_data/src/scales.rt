ghost use Rattle.std.specs.Prelude.{◌≡◌, ℕ, ◌*◌, ◌^◌, Option, Some, None, pos, ◌+ℤ◌, ◌-ℤ◌, ◌*ℤ◌, int_lt, if◌then◌else◌};
ghost use Rattle.std.specs.Int.{saturate_signed, w64};
ghost use Rattle.fixed_log.specs.Conversion.{bexp_q24 as bexp_q24_of, q57 as q57_of};
ghost use Rattle.fixed_log.specs.Logarithm.{blog64 as blog64_of};
ghost use Rattle.pass_data.specs.Scales.{mean_scale as mean_scale_of, scale_ahead as scale_ahead_of, current_by};

use fixed_log::wide::{difference, product, saturated};
use fixed_log::{bexp_q24, blog64, q24_to_q57, q57};

/// The scales of frames that aren't counted.
fn scales_of_others(last: i32, nframes: i32, count: i32) -> i128
    ensures { result ≡ bexp_q24_of last *ℤ (nframes -ℤ count) }
{
    let others = difference::<31, 31>(nframes as i128, count as i128);
    product::<47, 32>(bexp_q24(last) as i128, others)
}

fn sum_of_scales(sum: i128, others: i128) -> i64
    ensures { result ≡ saturate_signed w64 (sum +ℤ others) }
{
    saturated(sum.saturating_add(others))
}

fn mean_of(log_sum: i64, log_count: i64) -> i64
    ensures { result ≡ saturate_signed w64 (log_sum -ℤ log_count -ℤ q57_of (pos 24)) }
{
    let mean = difference::<63, 63>(log_sum as i128, log_count as i128);
    saturated(difference::<64, 62>(mean, q57(24) as i128))
}

/// The mean scale of the frames of a subtype.
fn mean_scale(sum: i128, count: i32, nframes: i32, last: i32) -> i64
    ensures { result ≡ mean_scale_of sum count nframes last }
{
    let log_sum = blog64(sum_of_scales(sum, scales_of_others(last, nframes, count)));
    mean_of(log_sum, blog64(nframes as i64))
}

fn opposite(log: i64) -> i64
    ensures { result ≡ saturate_signed w64 (pos 0 -ℤ log) }
{
    saturated(-(log as i128))
}

/// The scale of the frames ahead of a subtype: `sum` of the scales of `count` of its `nframes` frames, and for the others the one that its
/// filter answered last; without frames that of one bit a frame. In Q57; `last` is in Q24.
pub fn scale_ahead(log_npixels: i64, sum: i128, count: i32, nframes: i32, last: i32) -> i64
    ensures { result ≡ scale_ahead_of log_npixels sum count nframes last }
{
    if nframes > 0 {
        mean_scale(sum, count, nframes, last)
    } else {
        opposite(log_npixels)
    }
}

/// The scale of the frame that is coded, in Q57, from that of its metrics or that which its filter answered last, both in Q24.
pub fn current_scale(seen: Option<i32>, last: i32) -> i64
    ensures { result ≡ current_by seen last }
{
    match seen {
        Some(log_scale) => q24_to_q57(log_scale),
        None => q24_to_q57(last),
    }
}
