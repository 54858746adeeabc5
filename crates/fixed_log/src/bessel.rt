ghost use Rattle.std.specs.Prelude.{◌≡◌, ℕ, ◌+◌, ◌-◌, ◌*◌, ◌/◌, ◌<◌, ◌≤◌, ◌^◌, ℤ, pos, negsuc, ◌+ℤ◌, ◌-ℤ◌, ◌*ℤ◌, ◌≤ℤ◌, FitsSigned, unsigned_abs};
ghost use Rattle.std.specs.Int.{int_shr, saturate_signed, w32, w128};
ghost use Rattle.fixed_log.specs.Bessel.{Follower, tangent as tangent_of, interpolated as interpolated_of, warp as warp_of, squared as squared_of, divisor as divisor_of, gain as gain_of, inverse as inverse_of, feedback_1 as feedback_1_of, feedback_2 as feedback_2_of, rounded as rounded_of, with_delay, with_value, follower, weighted, filtered, updated, FitsTypes};
ghost use Rattle.fixed_log.specs.Within.{IsWithin};

use crate::wide::saturated_32;
use std::marker::Model;

/// Entry `i` is `tan(i * pi / 36)`, of scale 2^12, rounded.
const TANGENTS: [u64; 18] = [
    0, 358, 722, 1098, 1491, 1910, 2365, 2868, 3437, 4096, 4881, 5850, 7094, 8784, 11254, 15286,
    23230, 46817,
];

fn tangent(i: usize) -> u64
    requires { i < 18 }
    ensures value { result ≡ tangent_of i }
    ensures high { result < 2 ^ 16 }
{
    TANGENTS[i]
}

/// The tangent that lies `rest / 2^24` of the way from entry `i` to the next.
///
/// rav1e forms the product that is `slope` here in 16 bits, where it wraps.
#[tactic(auto, using(crate::proofs::Tangents::tangent_rises), unfolding(crate::specs::Bessel::interpolated))]
fn interpolated(i: usize, rest: u64) -> u64
    requires index { i ≤ 16 }
    requires rest { rest < 2 ^ 29 }
    ensures value { result ≡ interpolated_of i rest }
    ensures high { result < 2 ^ 22 }
{
    let slope = (tangent(i + 1) - tangent(i)) * (1 << 8);
    (tangent(i) * (1 << 32) + slope * rest) >> 32
}

/// The warped frequency `tan(pi / delay)`, of scale 2^12, at least 1; in the comments below it is `w`.
#[tactic(auto, unfolding(crate::specs::Bessel::warp))]
fn warp(delay: u64) -> u64
    requires low { 3 ≤ delay }
    requires high { delay ≤ 2 ^ 24 }
    ensures value { result ≡ warp_of delay }
    ensures low { 1 ≤ result }
    ensures high { result < 2 ^ 22 }
{
    let place = (1 << 24) / delay * 36;
    let i = (place >> 24).min(16);
    interpolated(i as usize, place - i * (1 << 24)).max(1)
}

/// The same of a delay as the filter takes it.
fn warp_of_delay(delay: i32) -> u64
    requires low { pos 3 ≤ℤ delay }
    requires high { delay ≤ℤ pos (2 ^ 24) }
    ensures value { result ≡ warp_of (unsigned_abs delay) }
    ensures low { 1 ≤ result }
    ensures high { result < 2 ^ 22 }
{
    warp(delay as u64)
}

/// `3 w^2`, of scale 2^24.
#[tactic(auto, using(crate::proofs::Coefficients::squared_bounds))]
fn squared(w: u64) -> u128
    requires low { 1 ≤ w }
    requires high { w < 2 ^ 22 }
    ensures value { result ≡ squared_of w }
    ensures low { 1 ≤ result }
    ensures high { result < 2 ^ 46 }
{
    3 * w as u128 * w as u128
}

/// `1 + 3 w + 3 w^2`, of scale 2^15.
#[tactic(auto, unfolding(crate::specs::Bessel::divisor))]
fn divisor(w: u64) -> u128
    requires low { 1 ≤ w }
    requires high { w < 2 ^ 22 }
    ensures value { result ≡ divisor_of w }
    ensures low { 2 ^ 15 ≤ result }
    ensures most { squared_of w ≤ 2 ^ 9 * result }
{
    ((4096 + 3 * w as u128) * (1 << 12) + squared(w) + 256) >> 9
}

/// The gain `3 w^2 / (1 + 3 w + 3 w^2)`, of scale 2^32.
#[tactic(auto, using(crate::proofs::Coefficients::gain_high), unfolding(crate::specs::Bessel::gain))]
fn gain(w: u64) -> u128
    requires low { 1 ≤ w }
    requires high { w < 2 ^ 22 }
    ensures value { result ≡ gain_of w }
    ensures high { result ≤ 2 ^ 32 }
{
    squared(w) * (1 << 23) / divisor(w)
}

/// The gain in Q24.
fn gain_q24(w: u64) -> i32
    requires low { 1 ≤ w }
    requires high { w < 2 ^ 22 }
    ensures { result ≡ pos ((gain_of w + 128) / 2 ^ 8) }
{
    ((gain(w) + 128) >> 8) as i32
}

/// `1 / (3 w^2)`, of scale 2^24.
#[tactic(auto, unfolding(crate::specs::Bessel::inverse))]
fn inverse(w: u64) -> u128
    requires low { 1 ≤ w }
    requires high { w < 2 ^ 22 }
    ensures value { result ≡ inverse_of w }
    ensures high { result ≤ 2 ^ 48 }
{
    (1 << 48) / squared(w)
}

fn twice_gain(w: u64) -> i128
    requires low { 1 ≤ w }
    requires high { w < 2 ^ 22 }
    ensures value { result ≡ pos (2 * gain_of w) }
    ensures most { gain_of w ≤ 2 ^ 32 }
{
    (2 * gain(w)) as i128
}

fn inverse_less_one(w: u64) -> i128
    requires low { 1 ≤ w }
    requires high { w < 2 ^ 22 }
    ensures { result ≡ pos (inverse_of w) -ℤ pos (2 ^ 24) }
{
    inverse(w) as i128 - (1 << 24)
}

fn times(a: i128, b: i128) -> i128
    requires { FitsSigned w128 (a *ℤ b) }
    ensures { result ≡ a *ℤ b }
{
    a * b
}

/// The feedback of the last answer, of scale 2^56.
#[tactic(auto, unfolding(crate::specs::Bessel::feedback_1))]
fn feedback_1(w: u64) -> i128
    requires low { 1 ≤ w }
    requires high { w < 2 ^ 22 }
    ensures value { result ≡ feedback_1_of w }
    ensures within { IsWithin (2 ^ 57) result }
{
    times(twice_gain(w), inverse_less_one(w))
}

/// The feedback of the answer before the last, of scale 2^56.
#[tactic(auto, unfolding(crate::specs::Bessel::feedback_2))]
fn feedback_2(w: u64) -> i128
    requires low { 1 ≤ w }
    requires high { w < 2 ^ 22 }
    ensures value { result ≡ feedback_2_of w }
    ensures within { IsWithin (2 ^ 59) result }
{
    ((1 << 56) - (4 * gain(w) * (1 << 24)) as i128) - feedback_1(w)
}

/// From the scale 2^56 to 2^24.
fn rounded(z: i128) -> i32
    requires { IsWithin (2 ^ 59) z }
    ensures { result ≡ rounded_of z }
{
    ((z + (1 << 31)) >> 32) as i32
}

/// A second-order Bessel low-pass filter, rav1e's `IIRBessel2`: it follows a value with a delay that is given in inputs.
///
/// Its coefficients are in Q24. Inputs and answers are numbers of any one scale.
///
/// Two things differ from rav1e. A product in the frequency of a delay is formed wide enough, where rav1e's wraps at 16 bits: so the
/// coefficients of the delays 3 and 5 to 6442 are others. And `update` clamps an answer that does not fit.
#[derive(Clone, Copy, Debug, PartialEq, Eq)]
pub struct IIRBessel2 {
    c0: i32,
    c1: i32,
    g: i32,
    x0: i32,
    x1: i32,
    y0: i32,
    y1: i32,
}

impl Model for IIRBessel2 {
    ghost Value = { Follower };

    ghost view = { λ s. record {
      c0 = s.c0;
      c1 = s.c1;
      g = s.g;
      x0 = s.x0;
      x1 = s.x1;
      y0 = s.y0;
      y1 = s.y1;
    } };

    ghost invariant = { λ s. FitsTypes (record {
      c0 = s.c0;
      c1 = s.c1;
      g = s.g;
      x0 = s.x0;
      x1 = s.x1;
      y0 = s.y0;
      y1 = s.y1;
    }) };

    ghost inverse = { λ f. record {
      c0 = f.c0;
      c1 = f.c1;
      g = f.g;
      x0 = f.x0;
      x1 = f.x1;
      y0 = f.y0;
      y1 = f.y1;
    } };
}

impl IIRBessel2 {
    /// A filter of a delay of 3 to `2^24` inputs, in the state that the constant input `value` leaves.
    pub fn new(delay: i32, value: i32) -> IIRBessel2
        requires low { pos 3 ≤ℤ delay }
        requires high { delay ≤ℤ pos (2 ^ 24) }
        ensures state { result ≡ follower delay value }
        ensures fits { FitsTypes result }
    {
        let mut filter = IIRBessel2 {
            c0: 0,
            c1: 0,
            g: 0,
            x0: 0,
            x1: 0,
            y0: 0,
            y1: 0,
        };
        filter.reinit(delay);
        filter.set(value);
        filter
    }

    /// Changes the delay, to 3 to `2^24` inputs, and leaves inputs and answers as they are.
    pub fn reinit(&mut self, delay: i32)
        requires low { pos 3 ≤ℤ delay }
        requires high { delay ≤ℤ pos (2 ^ 24) }
        ensures state { self.new ≡ with_delay delay self.old }
        ensures fits { FitsTypes self.new }
    {
        let w = warp_of_delay(delay);
        self.c0 = rounded(feedback_1(w));
        self.c1 = rounded(feedback_2(w));
        self.g = gain_q24(w);
    }

    /// Forgets all inputs and answers, as if they had been `value`.
    pub fn set(&mut self, value: i32)
        ensures state { self.new ≡ with_value value self.old }
        ensures fits { FitsTypes self.new }
    {
        self.x0 = value;
        self.x1 = value;
        self.y0 = value;
        self.y1 = value;
    }

    /// Takes an input, and gives the answer to it, or the nearest `i32` where it does not fit; rav1e keeps the low 32 bits there.
    pub fn update(&mut self, x: i32) -> i32
        ensures state { self.new ≡ updated x self.old }
        ensures answer { result ≡ filtered x self.old }
        ensures fits { FitsTypes self.new }
    {
        let answer = self.answer(x);
        self.x1 = self.x0;
        self.x0 = x;
        self.y1 = self.y0;
        self.y0 = answer;
        answer
    }

    /// The last answer, or the value that was set since.
    pub fn last(&self) -> i32
        ensures { result ≡ self.now.y0 }
    {
        self.y0
    }

    fn answer(&self, x: i32) -> i32
        ensures { result ≡ filtered x self.now }
    {
        saturated_32(self.weighted_sum(x) >> 24)
    }

    /// What the answer to `x` is made of, of scale 2^24.
    fn weighted_sum(&self, x: i32) -> i128
        ensures { result ≡ weighted x self.now }
    {
        let fed_in = weight(inputs(x, self.x0, self.x1), self.g);
        sum(
            fed_in,
            fed_back(self.y0, self.c0),
            fed_back(self.y1, self.c1),
        )
    }
}

fn two_inputs(x: i32, x0: i32) -> i64
    ensures value { result ≡ x +ℤ pos 2 *ℤ x0 }
    ensures within { IsWithin (2 ^ 33) result }
{
    x as i64 + 2 * x0 as i64
}

/// Three inputs with the weights 1, 2 and 1.
fn inputs(x: i32, x0: i32, x1: i32) -> i64
    ensures value { result ≡ (x +ℤ pos 2 *ℤ x0) +ℤ x1 }
    ensures within { IsWithin (2 ^ 34) result }
{
    two_inputs(x, x0) + x1 as i64
}

fn weight(a: i64, b: i32) -> i128
    requires { IsWithin (2 ^ 34) a }
    ensures value { result ≡ a *ℤ b }
    ensures within { IsWithin (2 ^ 65) result }
{
    times(a as i128, b as i128)
}

fn fed_back(y: i32, c: i32) -> i128
    ensures value { result ≡ y *ℤ c }
    ensures within { IsWithin (2 ^ 65) result }
{
    weight(y as i64, c)
}

/// The sum of three numbers, with a half of the last place of scale 2^24.
fn sum(a: i128, b: i128, c: i128) -> i128
    requires a { IsWithin (2 ^ 65) a }
    requires b { IsWithin (2 ^ 65) b }
    requires c { IsWithin (2 ^ 65) c }
    ensures { result ≡ ((a +ℤ b) +ℤ c) +ℤ pos (2 ^ 23) }
{
    a + b + c + (1 << 23)
}

#[cfg(test)]
mod tests {
    use super::*;

    // Sample coefficients of the original's filter, with the frequency widened.
    const SAMPLES: [(i32, i32, i32, i32); 6] = [
        (3, -17_662_031, -5_302_395, 9_935_410),
        (4, -9_586_981, -2_396_745, 7_190_235),
        (10, 9_979_394, -2_497_002, 2_323_706),
        (13, 14_258_017, -3_858_267, 1_594_367),
        (240, 32_269_180, -15_524_397, 8_108),
        (131_072, 33_510_735, -16_733_531, 3),
    ];

    #[test]
    fn coefficients_of_delays(rt: HostRuntime) {
        for (delay, c0, c1, g) in SAMPLES {
            assert!(rt; 3 <= delay && delay <= 1 << 24);
            let filter = IIRBessel2::new(delay, 7);
            assert_eq!(rt; (filter.c0, filter.c1, filter.g), (c0, c1, g), "at {delay}");
        }
    }
}
