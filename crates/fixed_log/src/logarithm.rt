ghost use Rattle.std.specs.Prelude.{◌≡◌, ℕ, ◌+◌, ◌-◌, ◌*◌, ◌<◌, ◌≤◌, ◌^◌, pos, negsuc, ◌+ℤ◌, ◌≤ℤ◌, ◌<ℤ◌, unsigned_abs};
ghost use Rattle.fixed_log.specs.Table.{turns_from};
ghost use Rattle.fixed_log.specs.Logarithm.{LogState, log_turn, log64_runs, log32_runs, log_start, highest_bit as highest_bit_of, aligned as aligned_of, fraction_64 as fraction_64_of, fraction_32 as fraction_32_of, positive_log64 as positive_log64_of, positive_log32 as positive_log32_of, blog64 as blog64_of, blog32 as blog32_of, IsFit, IsLogStart};

use crate::table::{angle, step_shifted};
use std::marker::Model;

/// One, of scale 2^61.
const ONE: u64 = 1 << 61;

/// Where the turns stand: the hyperbolic cosine and sine of the angle that is left, and the logarithm so far, all of scale 2^61.
#[derive(Clone, Copy)]
struct Logarithm {
    cosh: i64,
    sinh: i64,
    log: i64,
}

impl Model for Logarithm {
    ghost Value = { LogState };

    ghost view = { λ s. record { cosh = s.cosh; sinh = s.sinh; log = s.log } };

    ghost inverse = { λ s. record { cosh = s.cosh; sinh = s.sinh; log = s.log } };
}

/// Turn `i`: a rotation that takes `sinh` towards 0.
#[inline(always)]
fn one_turn(state: Logarithm, i: usize) -> Logarithm
    requires index { i < 62 }
    requires fit { IsFit (log_turn i state) }
    ensures { result ≡ log_turn i state }
{
    let back = state.sinh < 0;
    Logarithm {
        cosh: step_shifted(!back, state.cosh, state.sinh, i + 1),
        sinh: step_shifted(!back, state.sinh, state.cosh, i + 1),
        log: step_shifted(back, state.log, angle(i), i),
    }
}

/// The turns `first`, `first + 1`, .., `count` of them.
#[tactic(auto, using(crate::proofs::Turns::run_steps))]
#[inline(always)]
fn few_turns(state: Logarithm, first: usize, count: usize) -> Logarithm
    requires indices { first + count ≤ 62 }
    requires fit { (k : ℕ) → k < count
        → IsFit (log_turn (first + k) (turns_from log_turn first k state)) }
    ensures { result ≡ turns_from log_turn first count state }
{
    let mut state = state;
    for k in 0..count {
        state = one_turn(state, first + k);
    }
    state
}

/// The same in two halves, which are short enough for the compiler to unroll: the shifts and angles are then constants.
#[inline(always)]
fn turns(state: Logarithm, first: usize, count: usize) -> Logarithm
    requires indices { first + count ≤ 62 }
    requires fit { (k : ℕ) → k < count
        → IsFit (log_turn (first + k) (turns_from log_turn first k state)) }
    ensures { result ≡ turns_from log_turn first count state }
{
    let half = count / 2;
    let state = few_turns(state, first, half);
    few_turns(state, first + half, count - half)
}

/// Turns 0 to 3, 3 to 12, 12 to 39 and 39 to 61.
fn runs_64(state: Logarithm) -> Logarithm
    requires { IsLogStart state }
    ensures state { result ≡ log64_runs state }
    ensures low { negsuc (7 * 2 ^ 60 - 1) ≤ℤ result.log }
    ensures high { result.log ≤ℤ pos (7 * 2 ^ 60) }
{
    let state = turns(state, 0, 4);
    let state = turns(state, 3, 10);
    let state = turns(state, 12, 28);
    turns(state, 39, 23)
}

/// Turns 0 to 3, 3 to 12 and 12 to 29.
fn runs_32(state: Logarithm) -> Logarithm
    requires { IsLogStart state }
    ensures state { result ≡ log32_runs state }
    ensures low { negsuc (7 * 2 ^ 60 - 1) ≤ℤ result.log }
    ensures high { result.log ≤ℤ pos (7 * 2 ^ 60) }
{
    let state = turns(state, 0, 4);
    let state = turns(state, 3, 10);
    turns(state, 12, 18)
}

/// The place of the highest set bit.
#[tactic(auto, using(crate::proofs::HighestBit::top_from_zeros), unfolding(crate::specs::Logarithm::highest_bit))]
pub fn highest_bit(n: u64) -> u32
    requires { 0 < n }
    ensures value { result ≡ highest_bit_of n }
    ensures below { result < 64 }
    ensures least { 2 ^ result ≤ n }
    ensures most { n < 2 * 2 ^ result }
{
    63 - n.leading_zeros()
}

/// `n`, shifted so that its highest set bit stands at 61.
#[tactic(auto, unfolding(crate::specs::Logarithm::aligned))]
fn aligned(n: u64) -> u64
    requires { 0 < n }
    ensures value { result ≡ aligned_of n }
    ensures low { 2 ^ 61 ≤ result }
    ensures high { result < 2 ^ 62 }
{
    ((n as u128 * ONE as u128) >> highest_bit(n)) as u64
}

/// The angle whose double is the logarithm of `w / 2^61`.
fn start(w: u64) -> Logarithm
    requires low { 2 ^ 61 ≤ w }
    requires high { w < 2 ^ 62 }
    ensures state { result ≡ log_start w }
    ensures ready { IsLogStart result }
{
    Logarithm {
        cosh: (w + ONE) as i64,
        sinh: (w - ONE) as i64,
        log: 0,
    }
}

/// The logarithm of `w / 2^61`, in Q57.
#[tactic(auto, unfolding(crate::specs::Logarithm::fraction_64))]
fn fraction_64(w: u64) -> i64
    requires low { 2 ^ 61 ≤ w }
    requires high { w < 2 ^ 62 }
    ensures value { result ≡ fraction_64_of w }
    ensures low { negsuc (2 ^ 59 - 1) ≤ℤ result }
    ensures high { result ≤ℤ pos (2 ^ 59) }
{
    (runs_64(start(w)).log + 8) >> 4
}

/// The logarithm of `w / 2^61`, in Q24.
#[tactic(auto, unfolding(crate::specs::Logarithm::fraction_32))]
fn fraction_32(w: u64) -> i32
    requires low { 2 ^ 61 ≤ w }
    requires high { w < 2 ^ 62 }
    ensures value { result ≡ fraction_32_of w }
{
    ((runs_32(start(w)).log + (1 << 36)) >> 37) as i32
}

/// The binary logarithm of a positive `n`, in Q57.
#[tactic(auto, unfolding(crate::specs::Logarithm::positive_log64))]
fn positive_log64(n: u64) -> i64
    requires positive { 0 < n }
    requires signed { n < 2 ^ 63 }
    ensures value { result ≡ positive_log64_of n }
    ensures least { 2 ^ highest_bit_of n ≤ n }
    ensures most { n < 2 ^ (highest_bit_of n + 1) }
    ensures low { pos (highest_bit_of n * 2 ^ 57) ≤ℤ (result +ℤ pos (2 ^ 59)) }
    ensures high { result ≤ℤ pos (highest_bit_of n * 2 ^ 57 + 2 ^ 59) }
{
    let whole = (highest_bit(n) as i64) * (1 << 57);
    let w = aligned(n);
    if w == ONE {
        return whole;
    }
    whole.saturating_add(fraction_64(w))
}

/// The binary logarithm of a positive `n`, in Q24.
#[tactic(auto, unfolding(crate::specs::Logarithm::positive_log32))]
fn positive_log32(n: u64) -> i32
    requires positive { 0 < n }
    requires short { n < 2 ^ 32 }
    ensures value { result ≡ positive_log32_of n }
{
    let whole = (highest_bit(n) as i32) * (1 << 24);
    let w = aligned(n);
    if w == ONE {
        return whole;
    }
    whole.saturating_add(fraction_32(w))
}

/// The binary logarithm of `n` in Q57: rav1e's `blog64`, by hyperbolic CORDIC.
///
/// Any argument will do: the answer is -1 where `n` is not positive. Powers of two are exact.
#[tactic(auto, using(crate::proofs::Laws::logarithm_laws), unfolding(crate::specs::Logarithm::blog64))]
pub fn blog64(n: i64) -> i64
    ensures value { result ≡ blog64_of n }

    // The place k of a positive number's highest set bit is the whole part of its logarithm:
    // 2^k ≤ n < 2^(k + 1), and the answer lies within 2^59 of k in Q57.
    ensures least { pos 0 <ℤ n → pos (2 ^ highest_bit_of (unsigned_abs n)) ≤ℤ n }
    ensures most { pos 0 <ℤ n → n <ℤ pos (2 ^ (highest_bit_of (unsigned_abs n) + 1)) }
    ensures low { pos 0 <ℤ n
        → pos (highest_bit_of (unsigned_abs n) * 2 ^ 57) ≤ℤ (result +ℤ pos (2 ^ 59)) }
    ensures high { pos 0 <ℤ n
        → result ≤ℤ pos (highest_bit_of (unsigned_abs n) * 2 ^ 57 + 2 ^ 59) }

    // That of a power of two is exact.
    ensures powers { (k : ℕ) → k < 63 → n ≡ pos (2 ^ k) → result ≡ pos (k * 2 ^ 57) }
    ensures none { n ≤ℤ pos 0 → result ≡ negsuc 0 }
    ensures greatest { n ≡ pos (2 ^ 63 - 1) → result ≡ pos (63 * 2 ^ 57) }
{
    if n <= 0 { -1 } else { positive_log64(n as u64) }
}

/// The binary logarithm of `n` in Q24: rav1e's `blog32`, by the same turns as `blog64`, but fewer; -1 for 0.
#[tactic(auto, unfolding(crate::specs::Logarithm::blog32))]
pub fn blog32(n: u32) -> i32
    ensures value { result ≡ blog32_of n }
{
    if n == 0 { -1 } else { positive_log32(n as u64) }
}
