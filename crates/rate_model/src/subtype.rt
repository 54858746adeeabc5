ghost use Rattle.std.specs.Prelude.{◌≡◌, ℕ, ◌+◌, ◌-◌, ◌*◌, ◌^◌, ◌≤◌, ◌||◌, IsTrue, int_lt, if◌then◌else◌, pos, negsuc, ◌+ℤ◌, ◌-ℤ◌, ◌≤ℤ◌, ◌<ℤ◌};
ghost use Rattle.std.specs.Int.{int_min, saturate_signed, w64};
ghost use Rattle.std.specs.Ordering.{int_eq};
ghost use Rattle.fixed_log.specs.Within.{IsWithin};
ghost use Rattle.fixed_log.specs.Conversion.{q24_to_q57 as q24_to_q57_of};
ghost use Rattle.rate_model.specs.Subtype.{SubtypeRate, IsSubtype};
ghost use Rattle.rate_model.specs.Curves.{curve, start_scale as start_scale_of, start_subtype};
ghost use Rattle.rate_model.specs.Search.{power_log as power_log_of};
ghost use Rattle.rate_model.specs.Measure.{entry, scale_of, estimate_of, with_scale, has_delay_to_grow, with_longer_delay, with_grown_delay, following, measured, counted, subtype_after};

use crate::model::power_log;
use fixed_log::wide::saturated;
use fixed_log::{IIRBessel2, bexp64, blog64, q24_to_q57, q57, q57_to_q24};
use std::marker::Model;

/// What is kept of a frame subtype. Contracts see it as a record (`SubtypeRate`).
#[derive(Debug, Drop)]
pub struct SubtypeState {
    exponent: u8,
    log_scale: i64,
    filter: IIRBessel2,
    delay: i32,
    frames: i32,
}

impl Model for SubtypeState {
    ghost use Rattle.rate_model.specs.Subtype.{SubtypeRate, IsSubtype};

    ghost Value = { SubtypeRate };

    ghost view = { λ s. record {
      exponent = s.exponent;
      log_scale = s.log_scale;
      filter = s.filter;
      delay = s.delay;
      frames = s.frames;
    } };

    ghost invariant = { λ s. IsSubtype (record {
      exponent = s.exponent;
      log_scale = s.log_scale;
      filter = s.filter;
      delay = s.delay;
      frames = s.frames;
    }) };
}

/// The logarithm of a scale that is given in eighths.
fn start_scale(scale: u8) -> i64
    requires { 1 ≤ scale }
    ensures { result ≡ start_scale_of scale }
{
    blog64(scale as i64) - q57(3)
}

/// The logarithm of a frame's bits without its pixels and its quantiser.
fn log_scale_of(log_bits: i64, log_npixels: i64, power: i128) -> i128
    requires { IsWithin (2 ^ 67) power }
    ensures { result ≡ log_bits -ℤ log_npixels +ℤ power }
{
    log_bits as i128 - log_npixels as i128 + power
}

/// The scale that a frame shows: the logarithm of its bits for each pixel at quantiser 1, at most 16.
pub fn frame_scale(log_npixels: i64, bits: i64, power: i128) -> i64
    requires { IsWithin (2 ^ 67) power }
    ensures { result ≡ scale_of log_npixels bits power }
{
    let scale = log_scale_of(blog64(bits), log_npixels, power);
    saturated(scale.min(q57(16) as i128))
}

fn log_of_estimate(log_scale: i64, log_npixels: i64, power: i128) -> i128
    requires { IsWithin (2 ^ 67) power }
    ensures { result ≡ log_scale +ℤ log_npixels -ℤ power }
{
    log_scale as i128 + log_npixels as i128 - power
}

fn one_longer(delay: i32) -> i32
    requires low { pos 3 ≤ℤ delay }
    requires high { delay <ℤ pos (2 ^ 20) }
    ensures value { result ≡ delay +ℤ pos 1 }
    ensures low { pos 3 ≤ℤ result }
    ensures high { result ≤ℤ pos (2 ^ 20) }
{
    delay + 1
}

impl SubtypeState {
    /// A subtype of which no frame is coded. The scale is in eighths.
    pub fn new(exponent: u8, scale: u8, delay: i32) -> SubtypeState
        requires exponent { 1 ≤ exponent }
        requires scale { 1 ≤ scale }
        requires delay_low { pos 3 ≤ℤ delay }
        requires delay_high { delay ≤ℤ pos (2 ^ 20) }
        ensures { result ≡ start_subtype delay (curve exponent scale) }
    {
        let log_scale = start_scale(scale);
        SubtypeState {
            exponent,
            log_scale,
            filter: IIRBessel2::new(delay, q57_to_q24(log_scale)),
            delay,
            frames: 0,
        }
    }

    pub fn exponent(&self) -> u8
        ensures value { result ≡ self.now.exponent }
        ensures positive { 1 ≤ result }
    {
        self.exponent
    }

    pub fn log_scale(&self) -> i64
        ensures { result ≡ self.now.log_scale }
    {
        self.log_scale
    }

    pub fn frames(&self) -> i32
        ensures { result ≡ self.now.frames }
    {
        self.frames
    }

    /// The scale that the filter answered last.
    pub fn current(&self) -> i64
        ensures { result ≡ q24_to_q57_of self.now.filter.y0 }
    {
        q24_to_q57(self.filter.last())
    }

    /// The same in Q24.
    pub fn last_answer(&self) -> i32
        ensures { result ≡ self.now.filter.y0 }
    {
        self.filter.last()
    }

    /// Sets the exponent, as the summary of a first pass tells it.
    pub fn set_exponent(&mut self, exponent: u8)
        requires { 1 ≤ exponent }
        ensures { self.new ≡ record self.old { exponent = exponent } }
    {
        self.exponent = exponent;
    }

    /// The bits that are to be expected of a frame.
    pub fn estimate(&self, log_npixels: i64, power: i128) -> i64
        requires { IsWithin (2 ^ 67) power }
        ensures { result ≡ estimate_of log_npixels self.now.log_scale power }
    {
        bexp64(saturated(log_of_estimate(self.log_scale, log_npixels, power)))
    }

    /// Sets the scale.
    fn set_scale(&mut self, scale: i64)
        ensures { self.new ≡ with_scale scale self.old }
    {
        self.log_scale = scale;
        self.filter.set(q57_to_q24(scale));
    }

    /// Lets the scale follow that of a frame.
    fn follow(&mut self, scale: i64)
        ensures { self.new ≡ following scale self.old }
    {
        self.log_scale = q24_to_q57(self.filter.update(q57_to_q24(scale)));
    }

    /// Whether the delay is below its target, and as many frames were coded; that of key frames stays.
    fn may_grow_delay(&self, subtype: usize, delay_target: i32) -> bool
        ensures value { result ≡ has_delay_to_grow subtype delay_target self.now }
        ensures below { IsTrue result → self.now.delay <ℤ delay_target }
    {
        subtype > 0 && self.delay < delay_target && self.delay <= self.frames
    }

    /// Lets the delay grow by 1.
    fn lengthen(&mut self)
        requires { self.old.delay <ℤ pos (2 ^ 20) }
        ensures { self.new ≡ with_longer_delay self.old }
    {
        let delay = one_longer(self.delay);
        self.filter.reinit(delay);
        self.delay = delay;
    }

    /// Lets the delay grow by 1 where it may.
    fn grow_delay(&mut self, subtype: usize, delay_target: i32)
        requires { delay_target ≤ℤ pos (2 ^ 20) }
        ensures { self.new ≡ with_grown_delay subtype delay_target self.old }
    {
        if self.may_grow_delay(subtype, delay_target) {
            self.lengthen();
        }
    }

    /// Whether a frame sets the scale by itself.
    fn is_set_by(&self, trial: bool) -> bool
        ensures { result ≡ (trial || int_eq self.now.frames (pos 0)) }
    {
        trial || self.frames == 0
    }

    /// Takes the scale of a frame.
    #[tactic(auto, unfolding(crate::specs::Measure::measured))]
    fn measure(&mut self, subtype: usize, delay_target: i32, trial: bool, scale: i64)
        requires { delay_target ≤ℤ pos (2 ^ 20) }
        ensures { self.new ≡ measured subtype delay_target trial scale self.old }
    {
        if self.is_set_by(trial) {
            self.set_scale(scale);
        } else {
            self.grow_delay(subtype, delay_target);
            self.follow(scale);
        }
    }

    fn count(&mut self, trial: bool)
        ensures { self.new ≡ counted trial self.old }
    {
        if !trial {
            self.frames = self.frames.saturating_add(1);
        }
    }
}

impl SubtypeState {
    /// The scale that a frame of this subtype shows.
    pub fn scale_of_frame(&self, log_npixels: i64, bits: i64, log_target: i64) -> i64
        ensures { result ≡ scale_of log_npixels bits (power_log_of log_target self.now.exponent) }
    {
        frame_scale(
            log_npixels,
            bits,
            power_log(log_target as i128, self.exponent),
        )
    }

    /// Takes what a frame shows of its scale, if it has bits.
    fn take_scale(
        &mut self,
        log_npixels: i64,
        delay_target: i32,
        bits: i64,
        subtype: usize,
        log_target: i64,
        trial: bool,
    )
        requires { delay_target ≤ℤ pos (2 ^ 20) }
        ensures { self.new ≡ (if int_lt (pos 0) bits
            then measured subtype delay_target trial
            (scale_of log_npixels bits (power_log_of log_target self.old.exponent)) self.old
            else self.old) }
    {
        if bits > 0 {
            let scale = self.scale_of_frame(log_npixels, bits, log_target);
            self.measure(subtype, delay_target, trial, scale);
        }
    }

    /// Takes a frame of this subtype.
    #[tactic(auto, unfolding(crate::specs::Measure::subtype_after))]
    pub fn take(
        &mut self,
        log_npixels: i64,
        delay_target: i32,
        bits: i64,
        subtype: usize,
        shown: bool,
        log_target: i64,
        trial: bool,
    )
        requires { delay_target ≤ℤ pos (2 ^ 20) }
        ensures { self.new ≡ subtype_after log_npixels delay_target
            (entry bits subtype shown log_target trial) self.old }
    {
        let _ = shown;
        self.take_scale(log_npixels, delay_target, bits, subtype, log_target, trial);
        self.count(trial);
    }
}
