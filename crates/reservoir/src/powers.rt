ghost use Rattle.std.specs.Prelude.{◌≡◌, ℕ, ◌+◌, ◌-◌, ◌*◌, ◌/◌, ◌^◌, ◌<◌, ◌≤◌, Option, int_div, pos, ◌+ℤ◌, ◌-ℤ◌, ◌*ℤ◌, ◌≤ℤ◌, ◌<ℤ◌};
ghost use Rattle.std.specs.Int.{int_shr, int_min, int_max, saturate_signed, w64};
ghost use Rattle.fixed_log.specs.Within.{IsWithin};
ghost use Rattle.reservoir.specs.Powers.{near_base, near_previous as near_previous_of, target_of_power as target_of_power_of};

use fixed_log::wide::{product, quotient, saturated};

/// How far the base may move from that of the coded frame before: the logarithm of a quantiser ratio of 1.25, in Q57.
const MOST_MOVE: i128 = 0xA4_D3C2_5E68_DC58;

/// The base, kept near that of the coded frame before.
pub fn near_previous(previous: Option<i64>, q: i64) -> i64
    ensures { result ≡ near_previous_of previous q }
{
    match previous {
        Some(previous) => near(previous, q),
        None => q,
    }
}

fn near(previous: i64, q: i64) -> i64
    ensures { result ≡ near_base previous q }
{
    let low = previous as i128 - MOST_MOVE;
    let high = previous as i128 + MOST_MOVE;
    if (q as i128) < low {
        low as i64
    } else if (q as i128) > high {
        high as i64
    } else {
        q
    }
}

/// The quantiser whose power with the exponent has this logarithm.
pub fn target_of_power(power: i128, exponent: u8) -> i64
    requires exponent { 1 ≤ exponent }
    requires power { IsWithin (2 ^ 72) power }
    ensures { result ≡ target_of_power_of power exponent }
{
    saturated(64 * nearest_quotient(power, exponent))
}

// The quotient, rounded.
fn nearest_quotient(power: i128, exponent: u8) -> i128
    requires exponent { 1 ≤ exponent }
    requires power { IsWithin (2 ^ 72) power }
    ensures value { result ≡ int_div (power +ℤ pos (exponent / 2)) (pos exponent) }
    ensures within { IsWithin (2 ^ 73) result }
{
    quotient::<73, 0>(power + (exponent / 2) as i128, exponent as i128)
}

/// What `part` is of `whole`, at most all of it, of scale 2^32.
pub fn part_of(part: i128, whole: i128) -> i64
    requires part { pos 0 <ℤ part }
    requires whole_low { pos 1 ≤ℤ whole }
    requires whole_high { whole ≤ℤ pos (2 ^ 78) }
    ensures value { result ≡ int_div (int_min whole part *ℤ pos (2 ^ 32)) whole }
    ensures within { IsWithin (2 ^ 32) result }
{
    ratio(part, whole) as i64
}

fn ratio(part: i128, whole: i128) -> i128
    requires part { pos 0 <ℤ part }
    requires whole_low { pos 1 ≤ℤ whole }
    requires whole_high { whole ≤ℤ pos (2 ^ 78) }
    ensures value { result ≡ int_div (int_min whole part *ℤ pos (2 ^ 32)) whole }
    ensures within { IsWithin (2 ^ 32) result }
{
    quotient::<110, 0>(scaled_part(part, whole), whole)
}

fn scaled_part(part: i128, whole: i128) -> i128
    requires part { pos 0 <ℤ part }
    requires whole_low { pos 1 ≤ℤ whole }
    requires whole_high { whole ≤ℤ pos (2 ^ 78) }
    ensures value { result ≡ int_min whole part *ℤ pos (2 ^ 32) }
    ensures within { IsWithin (2 ^ 110) result }
{
    let lesser = if part < whole { part } else { whole };
    lesser * (1 << 32)
}

/// The logarithm of a product, from those of the factors.
pub fn sum_of_logs(a: i64, b: i64) -> i128
    ensures value { result ≡ a +ℤ b }
    ensures within { IsWithin (2 ^ 64) result }
{
    a as i128 + b as i128
}

/// By how much the logarithm of a frame's bits at quantiser 1 is above `h` and the power.
pub fn difference(log_bits: i128, h: i64, power: i128) -> i128
    requires log_bits { IsWithin (2 ^ 64) log_bits }
    requires power { IsWithin (2 ^ 67) power }
    ensures value { result ≡ log_bits -ℤ h -ℤ power }
    ensures within { IsWithin (2 ^ 68) result }
{
    log_bits - h as i128 - power
}

/// The logarithm of a frame's bits, from that at quantiser 1 and the power.
pub fn less(log_bits: i128, power: i128) -> i128
    requires log_bits { IsWithin (2 ^ 64) log_bits }
    requires power { IsWithin (2 ^ 67) power }
    ensures { result ≡ log_bits -ℤ power }
{
    log_bits - power
}

/// From Q57 to Q25, rounded down.
pub fn high_half(x: i128) -> i128
    requires { IsWithin (2 ^ 68) x }
    ensures value { result ≡ int_shr x 32 }
    ensures within { IsWithin (2 ^ 38) result }
{
    x >> 32
}

/// A part, of scale 2^32, of a step in Q25.
pub fn step_times(step: i128, part: i64) -> i128
    requires step { IsWithin (2 ^ 38) step }
    requires part { IsWithin (2 ^ 32) part }
    ensures value { result ≡ step *ℤ part }
    ensures within { IsWithin (2 ^ 70) result }
{
    product::<38, 32>(step, part as i128)
}

/// A power, changed.
pub fn moved(power: i128, by: i128) -> i128
    requires power { IsWithin (2 ^ 67) power }
    requires by { IsWithin (2 ^ 70) by }
    ensures value { result ≡ power +ℤ by }
    ensures within { IsWithin (2 ^ 72) result }
{
    power + by
}
