ghost use Rattle.std.specs.Prelude.{◌≡◌, ℕ, zero, suc, ◌+◌, ◌-◌, ◌*◌, ◌^◌, ◌<◌, ◌≤◌, [], ◌∷◌, Option, IfSome, int_div, pos, negsuc, ◌+ℤ◌, ◌-ℤ◌, ◌*ℤ◌, ◌≤ℤ◌, ◌<ℤ◌};
ghost use Rattle.std.specs.Int.{int_shr, int_min, int_max};
ghost use Rattle.fixed_log.specs.Within.{IsWithin};
ghost use Rattle.reservoir.specs.Levels.{between, bits_per_tu_of, reservoir_delay_of, reservoir_most as reservoir_most_of, reservoir_target as reservoir_target_of};

use fixed_log::wide::{product, quotient};

/// The bits that a temporal unit would have at just this rate.
fn bits_at_rate(bitrate: i32, framerate_num: i64, framerate_den: i64) -> i128
    requires { pos 1 ≤ℤ framerate_num }
    ensures { result ≡ int_div (bitrate *ℤ framerate_den) framerate_num }
{
    quotient::<94, 0>(
        product::<31, 63>(bitrate as i128, framerate_den as i128),
        framerate_num as i128,
    )
}

fn without_delimiter(bits: i64) -> i64
    requires { pos 40 ≤ℤ bits }
    ensures { result ≡ bits -ℤ pos 16 }
{
    bits - 16
}

/// The bits of a temporal unit, without those of its delimiter.
pub fn bits_per_tu(bitrate: i32, framerate_num: i64, framerate_den: i64) -> i64
    requires { pos 1 ≤ℤ framerate_num }
    ensures value { result ≡ bits_per_tu_of bitrate framerate_num framerate_den }
    ensures low { pos 24 ≤ℤ result }
    ensures high { result ≤ℤ pos (2 ^ 46) }
{
    without_delimiter(clamped(bits_at_rate(bitrate, framerate_num, framerate_den)))
}

/// From 40 to `2^46`.
fn clamped(bits: i128) -> i64
    ensures value { result ≡ between (pos 40) (pos (2 ^ 46)) bits }
    ensures low { pos 40 ≤ℤ result }
    ensures high { result ≤ℤ pos (2 ^ 46) }
{
    if bits < 40 {
        40
    } else if bits > 1 << 46 {
        1 << 46
    } else {
        bits as i64
    }
}

/// Over how many temporal units the reservoir is evened out: as set, or three halves of a GOP, 12 to 240.
pub fn reservoir_delay(set: Option<i32>, max_interval: i32) -> i32
    requires interval_low { pos 1 ≤ℤ max_interval }
    requires set { IfSome set (λ delay. (pos 12 ≤ℤ delay) × (delay ≤ℤ pos (2 ^ 17))) }
    ensures value { result ≡ reservoir_delay_of set max_interval }
    ensures low { pos 12 ≤ℤ result }
    ensures high { result ≤ℤ pos (2 ^ 17) }
{
    match set {
        Some(delay) => delay,
        None => default_delay(max_interval),
    }
}

fn default_delay(max_interval: i32) -> i32
    requires { pos 1 ≤ℤ max_interval }
    ensures value { result ≡ reservoir_delay_of None max_interval }
    ensures low { pos 12 ≤ℤ result }
    ensures high { result ≤ℤ pos 240 }
{
    let delay = (3 * max_interval as i64) >> 1;
    delay.min(240).max(12) as i32
}

/// The greatest reservoir.
pub fn reservoir_most(bits_per_tu: i64, delay: i32) -> i128
    requires bits_low { pos 24 ≤ℤ bits_per_tu }
    requires bits_high { bits_per_tu ≤ℤ pos (2 ^ 46) }
    requires delay { pos 1 ≤ℤ delay }
    ensures value { result ≡ reservoir_most_of bits_per_tu delay }
    ensures low { pos 1 ≤ℤ result }
    ensures high { result ≤ℤ pos (2 ^ 78) }
{
    product::<46, 32>(bits_per_tu as i128, delay as i128)
}

/// Half of the greatest reservoir, rounded up.
pub fn reservoir_target(most: i128) -> i128
    requires low { pos 1 ≤ℤ most }
    requires high { most ≤ℤ pos (2 ^ 78) }
    ensures value { result ≡ reservoir_target_of most }
    ensures within { IsWithin (2 ^ 78) result }
{
    (most + 1) >> 1
}

/// The pixels of a frame.
pub fn pixels(width: i32, height: i32) -> i64
    requires width { pos 1 ≤ℤ width }
    requires height { pos 1 ≤ℤ height }
    ensures { result ≡ width *ℤ height }
{
    width as i64 * height as i64
}

/// The pixels of a frame for each bit of a temporal unit, rounded down.
#[tactic(auto, using(std::proofs::lemmas::Int::quot_fits))]
pub fn pixels_per_bit(npixels: i64, bits_per_tu: i64) -> i64
    requires { pos 24 ≤ℤ bits_per_tu }
    ensures { result ≡ int_div npixels bits_per_tu }
{
    npixels / bits_per_tu
}

/// Half of a reservoir's delay: what the delays of the filters of inter frames grow to.
pub fn half_delay(delay: i32) -> i32
    requires low { pos 1 ≤ℤ delay }
    requires high { delay ≤ℤ pos (2 ^ 17) }
    ensures value { result ≡ int_shr delay 1 }
    ensures high { result ≤ℤ pos (2 ^ 17) }
{
    delay >> 1
}
