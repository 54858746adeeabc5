ghost use Rattle.std.specs.Prelude.{◌≡◌, ℕ, ◌+◌, ◌-◌, ◌*◌, ◌<◌, ◌≤◌, ◌^◌, pos, negsuc, ◌*ℤ◌, ◌≤ℤ◌};
ghost use Rattle.std.specs.Int.{int_shr};
ghost use Rattle.fixed_log.specs.Within.{IsWithin};
ghost use Rattle.fixed_log.specs.Polynomial.{horner as horner_of, exp_fraction as exp_fraction_of, exp_scaled as exp_scaled_of, bexp32_q10 as bexp32_q10_of, horner_signed as horner_signed_of, log_fraction as log_fraction_of, bit_length, centred as centred_of, positive_log_q11 as positive_log_q11_of, blog32_q11 as blog32_q11_of};

use crate::logarithm::highest_bit;

/// A step of Horner's rule: `t` times `n / 2^15`, and `c`.
fn horner(n: u32, t: u32, c: u32) -> u32
    requires n { n ≤ 16368 }
    requires t { t < 2 ^ 15 }
    requires c { c < 2 ^ 15 }
    ensures { result ≡ horner_of n t c }
{
    ((n * t) >> 15) + c
}

/// `2^14` times two to the power of `n / 2^14`, nearly, by a polynomial of the fourth degree.
#[tactic(auto, using(crate::proofs::Horner::exp_steps), unfolding(crate::specs::Polynomial::exp_fraction))]
fn exp_fraction(n: u32) -> u32
    requires { n ≤ 16368 }
    ensures value { result ≡ exp_fraction_of n }
    ensures high { result < 2 ^ 15 }
{
    let t = horner(n, 3548, 6817);
    let t = horner(n, t, 15823);
    let t = horner(n, t, 22708);
    horner(n, t, 16384)
}

/// `m * 2^(k - 14)`, rounded.
#[tactic(auto, unfolding(crate::specs::Polynomial::exp_scaled))]
fn exp_scaled(k: i32, m: u32) -> u32
    requires low { negsuc 16 ≤ℤ k }
    requires high { k ≤ℤ pos 31 }
    requires fraction { m < 2 ^ 15 }
    ensures { result ≡ exp_scaled_of k m }
{
    if k < 14 {
        let shift = (14 - k) as u32;
        (m + (1 << (shift - 1))) >> shift
    } else {
        m << (k - 14) as u32
    }
}

/// The binary exponential of a logarithm in Q10, rounded to a whole number: rav1e's `bexp32_q10`, by a polynomial.
///
/// `z` is from -17 to just below 32, in Q10.
#[tactic(auto, unfolding(crate::specs::Polynomial::bexp32_q10))]
pub fn bexp32_q10(z: i32) -> u32
    requires low { negsuc 17407 ≤ℤ z }
    requires high { z ≤ℤ pos 32767 }
    ensures { result ≡ bexp32_q10_of z }
{
    exp_scaled(z >> 10, exp_fraction(z.rem_euclid(1024) as u32 * 16))
}

#[tactic(auto, using(crate::proofs::Products::product_within))]
fn product(n: i32, t: i32) -> i32
    requires n { IsWithin (2 ^ 14) n }
    requires t { IsWithin (2 ^ 15) t }
    ensures value { result ≡ n *ℤ t }
    ensures within { IsWithin (2 ^ 29) result }
{
    n * t
}

/// `t` times `n / 2^15`.
fn scaled_product(n: i32, t: i32) -> i32
    requires n { IsWithin (2 ^ 14) n }
    requires t { IsWithin (2 ^ 15) t }
    ensures value { result ≡ int_shr (n *ℤ t) 15 }
    ensures within { IsWithin (2 ^ 14) result }
{
    product(n, t) >> 15
}

/// A step of Horner's rule at signed numbers.
fn horner_signed(n: i32, t: i32, c: i32) -> i32
    requires n { IsWithin (2 ^ 14) n }
    requires t { IsWithin (2 ^ 15) t }
    requires c { IsWithin (2 ^ 14) c }
    ensures value { result ≡ horner_signed_of n t c }
    ensures within { IsWithin (2 ^ 15) result }
{
    scaled_product(n, t) + c
}

/// `2^14` times the binary logarithm of `3/4 + n / 2^16`, nearly, by a polynomial of the fourth degree.
#[tactic(auto, unfolding(crate::specs::Polynomial::log_fraction))]
fn log_fraction(n: i32) -> i32
    requires { IsWithin (2 ^ 14) n }
    ensures value { result ≡ log_fraction_of n }
    ensures within { IsWithin (2 ^ 15) result }
{
    let t = horner_signed(n, -1402, 2546);
    let t = horner_signed(n, t, -5216);
    let t = horner_signed(n, t, 15745);
    horner_signed(n, t, -6797)
}

/// `w`, shifted to 16 bits, less 3/4 of `2^16`.
fn centred(w: u32) -> i32
    requires { 0 < w }
    ensures value { result ≡ centred_of w }
    ensures within { IsWithin (2 ^ 14) result }
{
    ((w as u64 * (1 << 15)) >> highest_bit(w as u64)) as i32 - 49152
}

/// The binary logarithm of `w` in Q11: rav1e's `blog32_q11`, by a polynomial; -1 for 0.
#[tactic(auto, unfolding(crate::specs::Polynomial::blog32_q11))]
pub fn blog32_q11(w: u32) -> i32
    ensures { result ≡ blog32_q11_of w }
{
    if w == 0 { -1 } else { positive_log_q11(w) }
}

/// How many bits `w` has, in Q11.
fn whole_q11(w: u32) -> i32
    requires { 0 < w }
    ensures value { result ≡ pos (bit_length w * 2 ^ 11) }
    ensures high { result ≤ℤ pos (2 ^ 18) }
{
    (highest_bit(w as u64) as i32 + 1) * (1 << 11)
}

/// The binary logarithm of a positive `w`, in Q11.
fn positive_log_q11(w: u32) -> i32
    requires { 0 < w }
    ensures { result ≡ positive_log_q11_of w }
{
    whole_q11(w) + (log_fraction(centred(w)) >> 3)
}
