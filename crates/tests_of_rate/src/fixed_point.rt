//! Logarithms, exponentials and the filter of `fixed_log`, and its arithmetic in 128 bits.

ghost use Rattle.std.specs.Prelude.{◌^◌};
ghost use Rattle.fixed_log.specs.Within.{IsWithin};

use fixed_log::{
    IIRBessel2, bexp_q24, bexp32_q10, bexp64, blog32, blog32_q11, blog64, q24_to_q57, q57,
    q57_to_q24, wide,
};
use std::process::Abort;

#[derive(Clone, Copy)]
enum Call {
    Whole(i32),
    Logarithm(i64),
    Exponential(i64),
    LogarithmQ24(u32),
    ExponentialQ24(i32),
    ToQ24(i64),
    ToQ57(i32),
    LogarithmQ11(u32),
    ExponentialQ10(i32),
}

fn answer(rt: &impl Abort, call: Call) -> i64 {
    match call {
        Call::Whole(v) => {
            assert!(rt; -64 <= v && v <= 63);
            q57(v)
        }
        Call::Logarithm(n) => blog64(n),
        Call::Exponential(log) => bexp64(log),
        Call::LogarithmQ24(n) => blog32(n) as i64,
        Call::ExponentialQ24(log) => bexp_q24(log),
        Call::ToQ24(log) => q57_to_q24(log) as i64,
        Call::ToQ57(log) => q24_to_q57(log),
        Call::LogarithmQ11(n) => blog32_q11(n) as i64,
        Call::ExponentialQ10(log) => {
            assert!(rt; -17_408 <= log && log <= 32_767);
            bexp32_q10(log) as i64
        }
    }
}

const LOG_OF_1793: i64 = 0x159D_C71E_24D3_2DAF;

const LOG_OF_1793_Q24: i32 = 181_330_831;

/// A call, its answer, and how far from that it may be.
const ROWS: [(Call, i64, u64); 29] = [
    (Call::Whole(24), 24 << 57, 0),
    (Call::Whole(-64), i64::MIN, 0),
    (Call::Whole(62), 62 << 57, 0),
    (Call::Whole(0), 0, 0),
    (Call::Whole(63), 63 << 57, 0),
    (Call::Exponential(62 << 57), 1 << 62, 0),
    (Call::Exponential(0), 1, 0),
    (Call::Exponential(-1), 0, 0),
    (Call::Exponential(63 << 57), i64::MAX, 0),
    (Call::Exponential(LOG_OF_1793), 1793, 0),
    (
        Call::Exponential(0x7D63_73AD_151C_A685),
        0x678D_DE6E_5FD2_9F05,
        28,
    ),
    (Call::Logarithm(1 << 62), 62 << 57, 0),
    (Call::Logarithm(0), -1, 0),
    (Call::Logarithm(1793), LOG_OF_1793, 0),
    (
        Call::Logarithm(0x678D_DE6E_5FD2_9F05),
        0x7D63_73AD_151C_A685,
        0,
    ),
    (Call::LogarithmQ24(0), -1, 0),
    (Call::LogarithmQ24(1), 0, 0),
    (Call::LogarithmQ24(1793), LOG_OF_1793_Q24 as i64, 0),
    (Call::ToQ24(LOG_OF_1793), LOG_OF_1793_Q24 as i64, 0),
    (Call::ToQ57(1), 8_589_934_592, 0),
    (Call::ToQ57(i32::MAX), i64::MAX, 0),
    (Call::ExponentialQ24(i32::MAX), (1 << 47) - 1, 0),
    (Call::ExponentialQ24(-1_073_741_825), 0, 0),
    (
        Call::ExponentialQ24(LOG_OF_1793_Q24),
        1793 << 24,
        (1 << 23) - 1,
    ),
    (Call::ExponentialQ10(0), 1, 0),
    (Call::ExponentialQ10(14 << 10), 1 << 14, 0),
    (Call::ExponentialQ10(31 << 10), 1 << 31, 0),
    (Call::ExponentialQ10(-17_408), 0, 0),
    (Call::LogarithmQ11(0), -1, 0),
];

#[test]
fn logarithms_and_exponentials(rt: HostRuntime) {
    for (row, (call, expected, distance)) in ROWS.into_iter().enumerate() {
        let answer = answer(&rt, call);
        assert!(rt;
            answer.abs_diff(expected) <= distance,
            "row {row}: {answer}"
        );
    }
}

#[derive(Clone, Copy)]
enum Move {
    Start,
    Take(i32),
    Slow(i32),
    Set(i32),
}

fn value_after(rt: &impl Abort, filter: &mut IIRBessel2, by: Move) -> i32 {
    match by {
        Move::Start => {}
        Move::Take(x) => return filter.update(x),
        Move::Slow(delay) => {
            assert!(rt; 3 <= delay && delay <= 1 << 24);
            filter.reinit(delay);
        }
        Move::Set(value) => filter.set(value),
    }
    filter.last()
}

#[test]
fn values_that_a_filter_follows(rt: HostRuntime) {
    // The second value is a sample answer of rav1e's filter, with the frequency widened.
    let rows = [
        (Move::Start, 143_937),
        (Move::Take(331_780), 255_177),
        (Move::Slow(10), 255_177),
        (Move::Set(-5), -5),
    ];
    let mut filter = IIRBessel2::new(3, 143_937);
    for (by, expected) in rows {
        assert_eq!(rt; value_after(&rt, &mut filter, by), expected);
    }
}

/// Bits beside a reservoir, as a rate controller makes them of its running numbers: the sizes are those of its types.
fn bits_beside(share: i64, frames: i32, units: i32, bits_per_unit: i64) -> i128 {
    let owed = wide::product::<63, 31>(share as i128, frames as i128);
    let more = wide::product::<31, 63>(units as i128, bits_per_unit as i128);
    wide::sum::<94, 94>(owed, more)
}

/// A running number over a count and a hundred.
fn share_of(bias: i64, coded: u32) -> i128 {
    wide::quotient::<96, 6>(bias as i128, coded as i128 + 100)
}

/// A running number less what was spent, kept within a limit.
fn kept(reservoir: i128, bits: i64) -> i128
    requires { IsWithin (2 ^ 96) reservoir }
{
    let left = wide::difference::<96, 63>(reservoir, bits as i128);
    wide::clamped(left, -(1 << 96), 1 << 96)
}

/// Half of a difference, rounded down.
fn half_down(a: i64, b: i64) -> i64 {
    let difference = wide::difference::<63, 63>(a as i128, b as i128);
    wide::saturated(wide::shifted::<64, 1>(difference))
}

#[test]
fn arithmetic_in_128_bits(rt: HostRuntime) {
    let rows = [
        (bits_beside(-7, 3, 2, 50), 79),
        (share_of(-399, 100), -1),
        (kept(1 << 96, -1), 1 << 96),
        (kept(5, 7), -2),
        (half_down(-3, 2) as i128, -3),
        (wide::at_most(5, 4), 4),
        (wide::at_least(5, 6), 6),
        (wide::saturated(1 << 63) as i128, i64::MAX as i128),
        (wide::saturated_32(-(1 << 40)) as i128, i32::MIN as i128),
    ];
    for (answer, expected) in rows {
        assert_eq!(rt; answer, expected);
    }
}
