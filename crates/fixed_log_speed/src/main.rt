//! Where it is given a word: times a million calls of the exponential and of the logarithm, and prints what a call took, with the
//! sum of the answers. `data/yardstick.rs` prints the same of the same procedures in plain Rust.
#![tactic(auto)]

use fixed_log::{bexp64, blog64};
use std::time::Instant;
use std::{env, io};

const CALLS: u32 = 1_000_000;

/// The next number of Marsaglia's xorshift.
fn next(seed: u64) -> u64 {
    let seed = seed ^ seed.wrapping_mul(1 << 13);
    let seed = seed ^ (seed >> 7);
    seed ^ seed.wrapping_mul(1 << 17)
}

fn sum_of_exponentials() -> u64 {
    let mut seed = 0x9E37_79B9_7F4A_7C15;
    let mut sum = 0u64;
    for _ in 0..CALLS {
        seed = next(seed);
        sum = sum.wrapping_add(bexp64((seed >> 1) as i64).cast_unsigned());
    }
    sum
}

fn sum_of_logarithms() -> u64 {
    let mut seed = 0x9E37_79B9_7F4A_7C15;
    let mut sum = 0u64;
    for _ in 0..CALLS {
        seed = next(seed);
        sum = sum.wrapping_add(blog64((seed >> 1) as i64).cast_unsigned());
    }
    sum
}

/// Prints, for each call, how long it took, and the sum of its answers to compare.
fn report(rt: &HostRuntime) -> io::Result<()> {
    let start = Instant::now(rt)?;
    let exponentials = sum_of_exponentials();
    let middle = Instant::now(rt)?;
    let logarithms = sum_of_logarithms();
    let logarithm_time = middle.elapsed(rt)?.as_nanos() / u128::from(CALLS);
    let exponential_time = middle.duration_since(start).as_nanos() / u128::from(CALLS);
    println!(rt; "bexp64: {exponential_time} ns a call, sum {exponentials}")?;
    println!(rt; "blog64: {logarithm_time} ns a call, sum {logarithms}")
}

fn main(rt: HostRuntime) -> io::Result<()> {
    if env::args(&rt)?.count() > 1 {
        report(&rt)
    } else {
        println!(rt; "a word starts the measurement")
    }
}
