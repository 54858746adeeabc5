ghost use Rattle.std.specs.Prelude.{◌≡◌, ℕ, ◌+◌, ◌<◌, ◌≤◌, ◌-◌, ◌*◌, ◌^◌, pos, negsuc, ◌≤ℤ◌, ◌<ℤ◌};
ghost use Rattle.std.specs.Int.{saturate_signed, w64};
ghost use Rattle.fixed_log.specs.Table.{turns_from};
ghost use Rattle.fixed_log.specs.Exponential.{ExpState, turned, doubled, exp_turn, doubling_turn, exp_runs, low_turn, doubling_low_turn, low_runs, low_bits, mantissa as mantissa_of, scaled as scaled_of, bexp64 as bexp64_of, IsSmall, IsStart, HasLittleLeft};

use crate::table::{angle, step};
use crate::wide::saturated;
use std::marker::Model;

/// `2^61` over the product of `sqrt(1 - 4^-(i + 1))` over all turns, but for 8 in the last place.
const START: i64 = 0x26A3_D0E4_01DD_846D;

/// Where the turns stand: the number, of scale 2^61, and what is left of the logarithm, of scale 2^62 and doubled with the turns.
#[derive(Clone, Copy)]
struct Exponential {
    value: i64,
    left: i64,
}

impl Model for Exponential {
    ghost Value = { ExpState };

    ghost view = { λ s. record { value = s.value; left = s.left } };

    ghost inverse = { λ s. record { value = s.value; left = s.left } };
}

/// One turn: the value gains, and what is left falls by the angle; where that is negative, both go back.
#[inline(always)]
fn turn(state: Exponential, gain: i64, angle: i64) -> Exponential
    requires { IsSmall 63 (turned gain angle state) }
    ensures { result ≡ turned gain angle state }
{
    let back = state.left < 0;
    Exponential {
        value: step(back, state.value, gain),
        left: step(!back, state.left, angle),
    }
}

#[inline(always)]
fn double(state: Exponential) -> Exponential
    requires { IsSmall 62 state }
    ensures { result ≡ doubled state }
{
    Exponential {
        value: state.value,
        left: 2 * state.left,
    }
}

/// Turn `i`, which scales the value by `1 + 2^-(i + 1)` or `1 - 2^-(i + 1)`.
#[inline(always)]
fn value_turn(state: Exponential, i: usize) -> Exponential
    requires index { i < 62 }
    requires small { IsSmall 63 (exp_turn i state) }
    ensures { result ≡ exp_turn i state }
{
    turn(state, state.value >> (i + 1), angle(i))
}

/// The turns `first`, `first + 1`, .., `count` of them, each of which doubles what is left.
#[tactic(auto, using(crate::proofs::Turns::run_steps))]
#[inline(always)]
fn value_turns(state: Exponential, first: usize, count: usize) -> Exponential
    requires indices { first + count ≤ 62 }
    requires small { (k : ℕ) → k < count
        → IsSmall 62 (exp_turn (first + k) (turns_from doubling_turn first k state)) }
    ensures { result ≡ turns_from doubling_turn first count state }
{
    let mut state = state;
    for k in 0..count {
        state = double(value_turn(state, first + k));
    }
    state
}

/// Turns 0 to 3, 3 to 12 and 12 to 31: the turn that ends the first and the second run does not double.
fn value_runs(state: Exponential) -> Exponential
    requires { IsStart state }
    ensures state { result ≡ exp_runs state }
    ensures value { pos (2 ^ 59) ≤ℤ result.value }
    ensures left { HasLittleLeft result }
{
    let state = value_turns(state, 0, 3);
    let state = value_turn(state, 3);
    let state = value_turns(state, 3, 9);
    let state = value_turn(state, 12);
    value_turns(state, 12, 20)
}

/// Turn `i` for the low bits: past turn 31 the high ones stay as they are.
#[inline(always)]
fn one_low_turn(high: i64, state: Exponential, i: usize) -> Exponential
    requires index { i < 62 }
    requires small { IsSmall 63 (low_turn high i state) }
    ensures { result ≡ low_turn high i state }
{
    turn(state, high >> i, angle(i))
}

#[tactic(auto, using(crate::proofs::Turns::run_steps))]
#[inline(always)]
fn low_turns(high: i64, state: Exponential, first: usize, count: usize) -> Exponential
    requires indices { first + count ≤ 62 }
    requires small { (k : ℕ) → k < count
        → IsSmall 62
        (low_turn high (first + k) (turns_from (doubling_low_turn high) first k state)) }
    ensures { result ≡ turns_from (doubling_low_turn high) first count state }
{
    let mut state = state;
    for k in 0..count {
        state = double(one_low_turn(high, state, first + k));
    }
    state
}

/// Turns 32 to 39 and 39 to 60: the turn that ends the first run does not double.
fn all_low_turns(high: i64, state: Exponential) -> Exponential
    requires high { pos 0 ≤ℤ high }
    requires value { state.value ≡ pos 0 }
    requires left { HasLittleLeft state }
    ensures state { result ≡ low_runs high state }
    ensures low { negsuc (2 ^ 33 - 1) ≤ℤ result.value }
    ensures high { result.value ≤ℤ pos (2 ^ 33) }
{
    let state = low_turns(high, state, 32, 7);
    let state = one_low_turn(high, state, 39);
    low_turns(high, state, 39, 22)
}

/// The low bits of a value, which matter only for a whole part above 30.
#[tactic(auto, unfolding(crate::specs::Exponential::low_bits))]
fn low_part(whole: u64, state: Exponential) -> i64
    requires value { pos 0 ≤ℤ state.value }
    requires left { HasLittleLeft state }
    ensures bits { result ≡ low_bits whole state }
    ensures low { negsuc (2 ^ 33 - 1) ≤ℤ result }
    ensures high { result ≤ℤ pos (2 ^ 33) }
{
    if whole > 30 {
        let start = Exponential {
            value: 0,
            left: state.left,
        };
        all_low_turns(state.value, start).value
    } else {
        0
    }
}

/// Two to a fraction, of scale 2^62; the fraction has the scale 2^57.
#[tactic(auto, unfolding(crate::specs::Exponential::mantissa))]
fn mantissa(whole: u64, fraction: u64) -> i128
    requires { fraction < 2 ^ 57 }
    ensures value { result ≡ mantissa_of whole fraction }
    ensures low { pos 0 ≤ℤ result }
    ensures high { result <ℤ pos (2 ^ 65) }
{
    if fraction == 0 {
        return 1 << 62;
    }
    let state = value_runs(Exponential {
        value: START,
        left: 32 * fraction as i64,
    });
    2 * state.value as i128 + low_part(whole, state) as i128
}

/// A number of scale 2^62 times `2^whole`, rounded to a whole number.
#[tactic(auto, unfolding(crate::specs::Exponential::scaled))]
fn scaled(whole: u64, mantissa: i128) -> i128
    requires whole { whole < 63 }
    requires low { pos 0 ≤ℤ mantissa }
    requires high { mantissa <ℤ pos (2 ^ 65) }
    ensures value { result ≡ scaled_of whole mantissa }
    ensures low { pos 0 ≤ℤ result }
{
    if whole < 62 {
        ((mantissa >> (61 - whole)) + 1) >> 1
    } else {
        mantissa
    }
}

/// The binary exponential of a logarithm in Q57, rounded to a whole number: rav1e's `bexp64`, by hyperbolic CORDIC.
///
/// Any argument will do: the answer is 0 below 0, and `i64::MAX` from `63 * 2^57` on. Whole logarithms are exact; others may be off in the
/// last bits of large answers.
#[tactic(auto, using(crate::proofs::Laws::exponential_laws), unfolding(crate::specs::Exponential::bexp64))]
pub fn bexp64(logq57: i64) -> i64
    ensures value { result ≡ bexp64_of logq57 }
    ensures not_negative { pos 0 ≤ℤ result }

    // A whole logarithm gives a power of two.
    ensures powers { (k : ℕ) → k < 63 → logq57 ≡ pos (k * 2 ^ 57) → result ≡ pos (2 ^ k) }
    ensures below { logq57 <ℤ pos 0 → result ≡ pos 0 }
    ensures most { pos (63 * 2 ^ 57) ≤ℤ logq57 → result ≡ pos (2 ^ 63 - 1) }
{
    if logq57 < 0 {
        return 0;
    }
    let log = logq57 as u64;
    let whole = log >> 57;
    if whole >= 63 {
        return i64::MAX;
    }
    saturated(scaled(whole, mantissa(whole, log % (1 << 57))))
}
