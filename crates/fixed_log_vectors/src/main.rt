//! Compares the 579 sample answers of `fixed_log.txt` with this crate's, and prints how many agree.
//!
//! 453 of them, those of the eight functions, are the original's own. The 126 of the filter (`follower`, `reinit`, `update`) are those of
//! the original's filter with its frequency widened: the original forms a product of the frequency in 16 bits, so its own coefficients
//! differ at the delays 3 and 5 to 6442.
#![tactic(auto)]

ghost use Rattle.std.specs.Prelude.{◌^◌, pos, ◌≤ℤ◌, IfSome};

use fixed_log::{
    IIRBessel2, bexp_q24, bexp32_q10, bexp64, blog32, blog32_q11, blog64, q24_to_q57, q57_to_q24,
};
use std::alloc::{AllocError, Global};
use std::{fs, io};

/// The numbers of a line, up to the first word that is none.
fn numbers(alloc: Global, line: &str) -> Result<Vec<i64>, AllocError> {
    let mut numbers = Vec::new(alloc);
    for word in line.split_whitespace().skip(1) {
        match word.parse::<i64>() {
            Ok(number) => numbers.push(number)?,
            Err(_) => break,
        }
    }
    Ok(numbers)
}

/// A number that fits an `i32`, or 0.
fn narrow(number: i64) -> i32 {
    i32::try_from(number).unwrap_or(0)
}

/// The coefficients of a filter, in Q24.
#[derive(Clone, Copy)]
struct Coefficients {
    c0: i32,
    c1: i32,
    g: i32,
}

impl Coefficients {
    fn new(c0: i64, c1: i64, g: i64) -> Coefficients {
        Coefficients {
            c0: narrow(c0),
            c1: narrow(c1),
            g: narrow(g),
        }
    }

    /// The same, but for one in the last place of `c0` and of `c1`, which leaves their sum.
    fn moved(self) -> Coefficients {
        Coefficients {
            c0: self.c0.saturating_add(1),
            c1: self.c1.saturating_sub(1),
            g: self.g,
        }
    }
}

const ONE: i32 = 1 << 24;

/// Whether a filter has this gain and this sum of `c0` and `c1`, as its answers to an input after none, and to inputs that cancel, show.
fn has_gain_and_sum(filter: &IIRBessel2, want: Coefficients) -> bool {
    let mut probe = *filter;
    probe.set(0);
    let has_gain = probe.update(ONE) == want.g;
    probe.set(ONE);
    let sum = i64::from(want.c0) + i64::from(want.c1);
    has_gain && i64::from(probe.update(-3 * ONE)) == sum
}

/// Whether `c0` is what a filter of this delay feeds its last answer back with.
///
/// At a long delay the sum of `c0` and `c1` is nearly 1, and answers hardly change: only a great last answer after none tells `c0` from
/// `c1`. So a filter of the least delay answers first.
fn feeds_back(delay: i32, c0: i32) -> bool
    requires low { pos 3 ≤ℤ delay }
    requires high { delay ≤ℤ pos (2 ^ 24) }
{
    let mut probe = IIRBessel2::new(3, 0);
    let last = probe.update(4 * ONE);
    probe.reinit(delay);
    let answer = probe.update(-8 * ONE);
    let fed_back = i64::from(last).saturating_mul(i64::from(c0));
    i64::from(answer) == fed_back.saturating_add(1 << 23) >> 24
}

fn has_coefficients(filter: &IIRBessel2, delay: i32, want: Coefficients) -> bool
    requires low { pos 3 ≤ℤ delay }
    requires high { delay ≤ℤ pos (2 ^ 24) }
{
    has_gain_and_sum(filter, want) && feeds_back(delay, want.c0)
}

/// Whether a filter of this delay has these coefficients, and not those with a little moved from `c1` to `c0`.
fn has_just_coefficients(filter: &IIRBessel2, delay: i32, want: Coefficients) -> bool
    requires low { pos 3 ≤ℤ delay }
    requires high { delay ≤ℤ pos (2 ^ 24) }
{
    has_coefficients(filter, delay, want) && !has_coefficients(filter, delay, want.moved())
}

/// A delay within the filter's limits.
fn delay_of(number: i64) -> Option<i32>
    ensures { IfSome result (λ delay. (pos 3 ≤ℤ delay) × (delay ≤ℤ pos (2 ^ 24))) }
{
    match i32::try_from(number) {
        Ok(delay) if 3 <= delay && delay <= 1 << 24 => Some(delay),
        _ => None,
    }
}

/// Whether an answer to one number agrees; `None` for a name that is none of these calls.
fn call_agrees(name: &str, argument: i64, answer: i64) -> Option<bool> {
    match name {
        "bexp64" => Some(bexp64(argument) == answer),
        "blog64" => Some(blog64(argument) == answer),
        "blog32" => Some(u32::try_from(argument).is_ok_and(|n| i64::from(blog32(n)) == answer)),
        "blog32_q11" => Some(u32::try_from(argument).is_ok_and(|n| i64::from(blog32_q11(n))
            == answer)),
        "q57_to_q24" => Some(i64::from(q57_to_q24(argument)) == answer),
        "q24_to_q57" => Some(i32::try_from(argument).is_ok_and(|v| q24_to_q57(v) == answer)),
        "bexp_q24" => Some(i32::try_from(argument).is_ok_and(|s| bexp_q24(s) == answer)),
        "bexp32_q10" => Some(power_agrees(argument, answer)),
        _ => None,
    }
}

fn power_agrees(argument: i64, answer: i64) -> bool {
    match i32::try_from(argument) {
        Ok(z) if -17408 <= z && z <= 32767 => i64::from(bexp32_q10(z)) == answer,
        _ => false,
    }
}

/// Whether the filter's answer, or its coefficients, agree with a line.
fn filter_agrees(filter: &mut IIRBessel2, name: &str, numbers: &[i64]) -> bool {
    match (name, numbers) {
        ("follower", [delay, value, c0, c1, g]) => match delay_of(*delay) {
            Some(delay) => {
                *filter = IIRBessel2::new(delay, narrow(*value));
                has_just_coefficients(filter, delay, Coefficients::new(*c0, *c1, *g))
            }
            None => false,
        },
        ("reinit", [delay, c0, c1, g]) => match delay_of(*delay) {
            Some(delay) => {
                filter.reinit(delay);
                has_just_coefficients(filter, delay, Coefficients::new(*c0, *c1, *g))
            }
            None => false,
        },
        ("update", [x, answer]) => i64::from(filter.update(narrow(*x))) == *answer,
        _ => false,
    }
}

fn line_agrees(filter: &mut IIRBessel2, name: &str, numbers: &[i64]) -> bool {
    if let [argument, answer] = numbers {
        if let Some(agrees) = call_agrees(name, *argument, *answer) {
            return agrees;
        }
    }
    filter_agrees(filter, name, numbers)
}

fn main(rt: HostRuntime) -> io::Result<()> {
    let text = fs::read_to_string(&rt, "fixed_log.txt")?;
    let mut filter = IIRBessel2::new(3, 0);
    let mut lines = 0u32;
    let mut agreed = 0u32;
    for line in text.lines() {
        let name = line.split_whitespace().next().unwrap_or("#");
        if !name.starts_with('#') {
            let numbers = numbers(rt.alloc(), line)?;
            lines = lines.saturating_add(1);
            agreed = agreed.saturating_add(u32::from(line_agrees(
                &mut filter,
                name,
                numbers.as_slice(),
            )));
        }
    }
    println!(rt; "{agreed} of {lines} sample answers agree")
}
