//! Takes logarithms and goes back over whole ranges of numbers, and prints how many come back within their bounds.
#![tactic(auto)]

use fixed_log::{bexp_q24, bexp32_q10, bexp64, blog32, blog32_q11, blog64};
use std::io;

/// What a sweep counted: the numbers that came back, and the products whose logarithm is the sum of two.
#[derive(Clone, Copy)]
struct Tally {
    numbers: u32,
    back: u32,
    sums: u32,
}

const NOTHING: Tally = Tally {
    numbers: 0,
    back: 0,
    sums: 0,
};

impl Tally {
    fn counted(self, is_back: bool, is_sum: bool) -> Tally {
        Tally {
            numbers: self.numbers.saturating_add(1),
            back: self.back.saturating_add(u32::from(is_back)),
            sums: self.sums.saturating_add(u32::from(is_sum)),
        }
    }
}

/// All 63 bits: a small number, the greatest other factor, and their product.
fn sweep_64() -> Tally {
    let mut tally = NOTHING;
    for small in 1..65536u64 {
        let a = small as i64;
        let b = i64::MAX / a;
        let product = a.saturating_mul(b);
        let (log_a, log_b, log_product) = (blog64(a), blog64(b), blog64(product));
        let is_back = bexp64(log_a) == a
            && bexp64(log_b).abs_diff(b) <= 127
            && bexp64(log_product).abs_diff(product) <= 127;
        tally = tally.counted(
            is_back,
            log_a.saturating_add(log_b).abs_diff(log_product) <= 3,
        );
    }
    tally
}

/// The same below `2^23`, with logarithms of scale 2^24.
fn sweep_32() -> Tally {
    let mut tally = NOTHING;
    for a in 1..65536u32 {
        let b = 8_388_607 / a;
        let product = a.saturating_mul(b);
        let (log_a, log_b, log_product) = (blog32(a), blog32(b), blog32(product));
        let is_back = bexp_q24(log_a).abs_diff(i64::from(a) * (1 << 24)) < 1 << 23
            && (bexp_q24(log_b) >> 24).abs_diff(i64::from(b)) <= 127
            && (bexp_q24(log_product) >> 24).abs_diff(i64::from(product)) <= 127;
        tally = tally.counted(
            is_back,
            log_a.saturating_add(log_b).abs_diff(log_product) <= 3,
        );
    }
    tally
}

/// Two to a logarithm of scale 2^11, by way of one of scale 2^10.
fn power_of(log: i32) -> Option<u32> {
    let rounded = log.saturating_add(1) >> 1;
    if -17408 <= rounded && rounded <= 32767 {
        Some(bexp32_q10(rounded))
    } else {
        None
    }
}

fn comes_back(log: i32, number: u32, bound: u32) -> bool {
    match power_of(log) {
        Some(power) => power.abs_diff(number) <= bound,
        None => false,
    }
}

/// The same below `2^15`, by polynomials.
fn sweep_q11() -> Tally {
    let mut tally = NOTHING;
    for a in 1..32768u32 {
        let b = 32767 / a;
        let product = a.saturating_mul(b);
        let (log_a, log_b, log_product) = (blog32_q11(a), blog32_q11(b), blog32_q11(product));
        let is_back = comes_back(log_a, a, 17)
            && comes_back(log_b, b, 1)
            && comes_back(log_product, product, 17);
        tally = tally.counted(
            is_back,
            log_a.saturating_add(log_b).abs_diff(log_product) <= 3,
        );
    }
    tally
}

fn main(rt: HostRuntime) -> io::Result<()> {
    let long = sweep_64();
    let short = sweep_32();
    let coarse = sweep_q11();
    println!(rt;
        "blog64 and bexp64: {} of {} come back",
        long.back, long.numbers
    )?;
    println!(rt;
        "blog32 and bexp_q24: {} of {} come back",
        short.back, short.numbers
    )?;
    println!(rt;
        "blog32_q11 and bexp32_q10: {} of {} come back",
        coarse.back, coarse.numbers
    )?;
    println!(rt;
        "sums of logarithms: {}, {} and {} agree",
        long.sums, short.sums, coarse.sums
    )
}
