ghost use Rattle.std.specs.Prelude.{◌≡◌, ℕ, ◌+◌, ◌-◌, ◌*◌, ◌/◌, ◌^◌, ◌<◌, ◌≤◌, IsTrue, ◌&&◌, Option, int_div, int_lt, is_none, pos, ◌+ℤ◌, ◌-ℤ◌, ◌*ℤ◌, ◌≤ℤ◌, ◌<ℤ◌};
ghost use Rattle.std.specs.Int.{int_shr, int_min, int_max, saturate_signed, w64};
ghost use Rattle.fixed_log.specs.Within.{IsWithin};
ghost use Rattle.fixed_log.specs.Logarithm.{blog64 as blog64_of};
ghost use Rattle.rate_model.specs.Search.{power_log as power_log_of};
ghost use Rattle.reservoir.specs.Fills.{Fill, IsFill, margin as margin_of, overflow as overflow_of, overflow_part as overflow_part_of, overflow_log as overflow_log_of, runs_over as runs_over_of, power_against_overflow as power_against_overflow_of, target_against_overflow as target_against_overflow_of, held as held_of, held_log as held_log_of, runs_dry as runs_dry_of, target_against_underflow as target_against_underflow_of};

use crate::powers::{difference, high_half, less, moved, part_of, step_times, target_of_power};
use fixed_log::blog64;
use fixed_log::wide::saturated;
use rate_model::power_log;
use std::marker::Model;

/// What a reservoir holds, and can hold. Contracts see it as a record (`Fill`).
#[derive(Debug, Drop)]
pub struct Reservoir {
    bits: i128,
    most: i128,
    bits_per_tu: i64,
}

impl Model for Reservoir {
    ghost use Rattle.reservoir.specs.Fills.{Fill, IsFill};

    ghost Value = { Fill };

    ghost view = { λ r. record { bits = r.bits; most = r.most; bits_per_tu = r.bits_per_tu } };

    ghost invariant = { λ r. IsFill (record {
      bits = r.bits;
      most = r.most;
      bits_per_tu = r.bits_per_tu;
    }) };
}

impl Reservoir {
    /// A reservoir that holds so many bits of at most `most`, and to which a temporal unit brings `bits_per_tu`.
    pub fn new(bits: i128, most: i128, bits_per_tu: i64) -> Reservoir
        requires bits { IsWithin (2 ^ 96) bits }
        requires most_low { pos 1 ≤ℤ most }
        requires most_high { most ≤ℤ pos (2 ^ 78) }
        requires bits_low { pos 24 ≤ℤ bits_per_tu }
        requires bits_high { bits_per_tu ≤ℤ pos (2 ^ 46) }
        ensures { result
            ≡ record { bits = bits; most = most; bits_per_tu = bits_per_tu } }
    {
        Reservoir {
            bits,
            most,
            bits_per_tu,
        }
    }
}

impl Reservoir {
    /// The last 32nd of the reservoir.
    fn margin(&self) -> i128
        ensures value { result ≡ margin_of self.now }
        ensures low { pos 1 ≤ℤ result }
        ensures high { result ≤ℤ pos (2 ^ 78) }
    {
        (self.most + 31) >> 5
    }

    /// The reservoir after a frame that is shown and takes no bits, without its limit.
    fn refilled(&self) -> i128
        ensures value { result ≡ self.now.bits +ℤ self.now.bits_per_tu }
        ensures within { IsWithin (2 ^ 97) result }
    {
        self.bits + self.bits_per_tu as i128
    }

    /// The reservoir without its margin.
    fn below_margin(&self) -> i128
        ensures value { result ≡ self.now.most -ℤ margin_of self.now }
        ensures within { IsWithin (2 ^ 79) result }
    {
        self.most - self.margin()
    }

    /// How far the reservoir would reach into its margin if the frame took no bits.
    fn overflow(&self) -> i128
        ensures value { result ≡ overflow_of self.now }
        ensures within { IsWithin (2 ^ 98) result }
    {
        self.refilled() - self.below_margin()
    }

    /// The part of the margin that is reached, of scale 2^32.
    fn overflow_part(&self) -> i64
        requires { pos 0 <ℤ overflow_of self.now }
        ensures value { result ≡ overflow_part_of self.now }
        ensures within { IsWithin (2 ^ 32) result }
    {
        part_of(self.overflow(), self.margin())
    }

    /// The bits that a frame may take.
    fn held(&self) -> i128
        ensures value { result ≡ held_of self.now }
    {
        self.bits + (self.bits_per_tu >> 1) as i128
    }
}

impl Reservoir {
    fn overflow_log(&self) -> i64
        ensures { result ≡ overflow_log_of self.now }
    {
        blog64(saturated(self.overflow()))
    }

    /// Whether the reservoir would run over, and the frame takes fewer bits than that.
    fn runs_over(&self, log_bits: i128, power: i128) -> bool
        requires log_bits { IsWithin (2 ^ 64) log_bits }
        requires power { IsWithin (2 ^ 67) power }
        ensures value { result ≡ runs_over_of self.now log_bits power }
        ensures positive { IsTrue result → pos 0 <ℤ overflow_of self.now }
    {
        self.overflow() > 0 && less(log_bits, power) < self.overflow_log() as i128
    }

    /// The power, moved towards the one that fills the margin, by the part of the margin that is reached.
    fn power_against_overflow(&self, log_bits: i128, power: i128) -> i128
        requires overflow { pos 0 <ℤ overflow_of self.now }
        requires log_bits { IsWithin (2 ^ 64) log_bits }
        requires power { IsWithin (2 ^ 67) power }
        ensures value { result ≡ power_against_overflow_of self.now log_bits power }
        ensures within { IsWithin (2 ^ 72) result }
    {
        let step = high_half(difference(log_bits, self.overflow_log(), power));
        moved(power, step_times(step, self.overflow_part()))
    }

    /// The target, raised where the reservoir would run over.
    #[tactic(auto, unfolding(crate::specs::Fills::target_against_overflow))]
    pub fn target_against_overflow(&self, log_bits: i128, exponent: u8, target: i128) -> i64
        requires exponent { 1 ≤ exponent }
        requires log_bits { IsWithin (2 ^ 64) log_bits }
        requires target { IsWithin (2 ^ 64) target }
        ensures { result ≡ target_against_overflow_of self.now log_bits exponent target }
    {
        let power = power_log(target, exponent);
        if self.runs_over(log_bits, power) {
            target_of_power(self.power_against_overflow(log_bits, power), exponent)
        } else {
            saturated(target)
        }
    }

    fn held_log(&self) -> i64
        ensures { result ≡ held_log_of self.now }
    {
        blog64(saturated(self.held()))
    }

    /// Whether the frame would take more bits than there are, and no greatest index forbids a higher quantiser.
    fn runs_dry(&self, greatest: Option<u8>, log_bits: i128, power: i128) -> bool
        requires log_bits { IsWithin (2 ^ 64) log_bits }
        requires power { IsWithin (2 ^ 67) power }
        ensures { result ≡ runs_dry_of self.now greatest log_bits power }
    {
        greatest.is_none() && less(log_bits, power) > self.held_log() as i128
    }

    /// The power with which the frame takes the bits that there are.
    fn power_against_underflow(&self, log_bits: i128) -> i128
        requires log_bits { IsWithin (2 ^ 64) log_bits }
        ensures value { result ≡ log_bits -ℤ held_log_of self.now }
        ensures within { IsWithin (2 ^ 65) result }
    {
        log_bits - self.held_log() as i128
    }

    /// The target, raised where the frame would take more bits than there are.
    #[tactic(auto, unfolding(crate::specs::Fills::target_against_underflow))]
    pub fn target_against_underflow(
        &self,
        greatest: Option<u8>,
        log_bits: i128,
        exponent: u8,
        target: i64,
    ) -> i64
        requires exponent { 1 ≤ exponent }
        requires log_bits { IsWithin (2 ^ 64) log_bits }
        ensures { result ≡ target_against_underflow_of self.now greatest log_bits exponent target }
    {
        let power = power_log(target as i128, exponent);
        if self.runs_dry(greatest, log_bits, power) {
            target_of_power(self.power_against_underflow(log_bits), exponent)
        } else {
            target
        }
    }
}
