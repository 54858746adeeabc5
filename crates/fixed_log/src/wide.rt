//! Arithmetic in 128 bits, one operator a call: each call says its value, and how large that can be.
//!
//! A formula of many operators on `i128` gets no proof by itself. As a chain of up to three of these calls it does, with the sizes of the
//! numbers written at each call, in bits: `sum::<121, 94>(product::<90, 31>(a, b), product::<31, 63>(c, d))` is within `2^122`.

ghost use Rattle.std.specs.Prelude.{◌≡◌, ℕ, ◌+◌, ◌<◌, ◌^◌, pos, ◌+ℤ◌, ◌-ℤ◌, ◌*ℤ◌, ◌≤ℤ◌, int_div, max, ◌-◌, ◌≤◌};
ghost use Rattle.std.specs.Int.{int_max, int_min, int_shr, saturate_signed, w32, w64};
ghost use Rattle.fixed_log.specs.Within.{IsWithin};

/// `a + b`, of numbers within `2^A` and `2^B`.
#[inline]
pub fn sum<const A: u32, const B: u32>(a: i128, b: i128) -> i128
    requires bits { max A B < 126 }
    requires a { IsWithin (2 ^ A) a }
    requires b { IsWithin (2 ^ B) b }
    ensures value { result ≡ a +ℤ b }
    ensures within { IsWithin (2 ^ (max A B + 1)) result }
{
    a + b
}

/// `a - b`, of numbers within `2^A` and `2^B`.
#[inline]
pub fn difference<const A: u32, const B: u32>(a: i128, b: i128) -> i128
    requires bits { max A B < 126 }
    requires a { IsWithin (2 ^ A) a }
    requires b { IsWithin (2 ^ B) b }
    ensures value { result ≡ a -ℤ b }
    ensures within { IsWithin (2 ^ (max A B + 1)) result }
{
    a - b
}

/// `a * b`, of factors within `2^A` and `2^B`.
#[inline]
pub fn product<const A: u32, const B: u32>(a: i128, b: i128) -> i128
    requires bits { A + B < 127 }
    requires a { IsWithin (2 ^ A) a }
    requires b { IsWithin (2 ^ B) b }
    ensures value { result ≡ a *ℤ b }
    ensures within { IsWithin (2 ^ (A + B)) result }
{
    a * b
}

/// `a` over `2^K`, rounded down, of a number within `2^A`.
#[inline]
pub fn shifted<const A: u32, const K: u32>(a: i128) -> i128
    requires bits { K ≤ A }
    requires fits { A < 127 }
    requires a { IsWithin (2 ^ A) a }
    ensures value { result ≡ int_shr a K }
    ensures within { IsWithin (2 ^ (A - K)) result }
{
    a >> K
}

/// `a / d`, rounded towards 0, of a number within `2^A` and a divisor of at least `2^D`.
#[inline]
pub fn quotient<const A: u32, const D: u32>(a: i128, d: i128) -> i128
    requires bits { D ≤ A }
    requires fits { A < 127 }
    requires a { IsWithin (2 ^ A) a }
    requires d { pos (2 ^ D) ≤ℤ d }
    ensures value { result ≡ int_div a d }
    ensures within { IsWithin (2 ^ (A - D)) result }
{
    a / d
}

/// `a`, but no more than `most`.
#[inline]
pub fn at_most(a: i128, most: i128) -> i128
    ensures value { result ≡ int_min a most }
    ensures most { result ≤ℤ most }
    ensures within { (m : ℕ) → IsWithin m a → IsWithin m most → IsWithin m result }
{
    a.min(most)
}

/// `a`, but no less than `least`.
#[inline]
pub fn at_least(a: i128, least: i128) -> i128
    ensures value { result ≡ int_max a least }
    ensures least { least ≤ℤ result }
    ensures within { (m : ℕ) → IsWithin m a → IsWithin m least → IsWithin m result }
{
    a.max(least)
}

/// What of the numbers from `least` to `most` is nearest to `a`.
#[inline]
pub fn clamped(a: i128, least: i128, most: i128) -> i128
    requires { least ≤ℤ most }
    ensures value { result ≡ int_min (int_max a least) most }
    ensures least { least ≤ℤ result }
    ensures most { result ≤ℤ most }
    ensures within { (m : ℕ) → IsWithin m least → IsWithin m most → IsWithin m result }
{
    if a < least {
        least
    } else if a > most {
        most
    } else {
        a
    }
}

/// The nearest `i64`.
#[inline]
pub fn saturated(a: i128) -> i64
    ensures { result ≡ saturate_signed w64 a }
{
    if a < i64::MIN as i128 {
        i64::MIN
    } else if a > i64::MAX as i128 {
        i64::MAX
    } else {
        a as i64
    }
}

/// The nearest `i32`.
#[inline]
pub fn saturated_32(a: i128) -> i32
    ensures { result ≡ saturate_signed w32 a }
{
    if a < i32::MIN as i128 {
        i32::MIN
    } else if a > i32::MAX as i128 {
        i32::MAX
    } else {
        a as i32
    }
}
