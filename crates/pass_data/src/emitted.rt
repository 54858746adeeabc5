ghost use Rattle.std.specs.Prelude.{◌≡◌, ℕ, ◌+◌, ◌^◌, ◌<◌, ◌≤◌, nat_lt, true, false, List, [], ◌∷◌, slice_set, length, Option, Some, None, is_some, IfSome, MatchOption, IsFalse, ℤ, pos, ◌+ℤ◌, ◌≤ℤ◌, if◌then◌else◌};
ghost use Rattle.std.specs.Int.{saturate_signed, w32, w64};
ghost use Rattle.fixed_log.specs.Conversion.{bexp_q24 as bexp_q24_of};
ghost use Rattle.pass_stats.specs.Grammar.{any_negative};
ghost use Rattle.pass_stats.specs.Metric.{Metric};
ghost use Rattle.pass_stats.specs.Summary.{Spells};
ghost use Rattle.pass_stats.specs.declared.metrics.RCFrameMetrics.{RCFrameMetrics};
ghost use Rattle.metrics_window.specs.Tallies.{number_at};
ghost use Rattle.pass_data.specs.Emitted.{Emitted, emitted_by, with_frame_emitted, with_waiting, summed_up, sums_with, shown_with};

use arrayvec::ArrayVec;
use fixed_log::bexp_q24;
use pass_stats::{RCFrameMetrics, write_metrics, write_summary};
use std::marker::Model;

/// What a first pass emitted. Contracts see it as a record (`Emitted`).
#[derive(Debug, Drop)]
pub struct EmittedData {
    sums: [i64; 4],
    tus: i32,
    waiting: Option<RCFrameMetrics>,
    is_summed_up: bool,
}

impl Model for EmittedData {
    ghost use Rattle.metrics_window.specs.Tallies.{number_at};
    ghost use Rattle.pass_data.specs.Emitted.{Emitted, IsEmitted};

    ghost Value = { Emitted };

    ghost view = { λ e. record {
      sums = e.sums;
      tus = e.tus;
      waiting = e.waiting;
      is_summed_up = e.is_summed_up;
    } };

    ghost invariant = { λ e. IsEmitted e.sums e.waiting };
}

/// The sum with the scale of a frame, at most that of 64 bits.
fn sum_with(sum: i64, log_scale_q24: i32) -> i64
    ensures value { result ≡ saturate_signed w64 (sum +ℤ bexp_q24_of log_scale_q24) }
    ensures positive { pos 0 ≤ℤ sum → pos 0 ≤ℤ result }
{
    sum.saturating_add(bexp_q24(log_scale_q24))
}

impl EmittedData {
    /// Nothing was emitted.
    pub fn new() -> EmittedData
        ensures { result ≡ record {
          sums = pos 0 ∷ pos 0 ∷ pos 0 ∷ pos 0 ∷ [];
          tus = pos 0;
          waiting = None;
          is_summed_up = false;
        } }
    {
        EmittedData {
            sums: [0; 4],
            tus: 0,
            waiting: None,
            is_summed_up: false,
        }
    }

    /// Whether a frame's metrics aren't taken yet.
    pub fn is_waiting(&self) -> bool
        ensures { result ≡ is_some self.now.waiting }
    {
        self.waiting.is_some()
    }

    pub fn is_summed_up(&self) -> bool
        ensures { result ≡ self.now.is_summed_up }
    {
        self.is_summed_up
    }

    /// A frame's metrics wait to be taken. Those that still waited are gone.
    pub fn set_waiting(&mut self, m: RCFrameMetrics)
        requires { m.fti ≤ 4 }
        ensures { self.new ≡ with_waiting m self.old }
    {
        self.waiting = Some(m);
    }

    fn add_to(&mut self, i: usize, log_scale_q24: i32)
        requires { i < 4 }
        ensures { self.new ≡ record self.old {
          sums = slice_set self.old.sums i
              (saturate_signed w64 (number_at self.old.sums i +ℤ bexp_q24_of log_scale_q24));
        } }
    {
        self.sums[i] = sum_with(self.sums[i], log_scale_q24);
    }

    /// Adds the scale of a frame that isn't the show of a coded one.
    fn add_scale(&mut self, m: &RCFrameMetrics)
        ensures { self.new ≡ record self.old { sums = sums_with m.now self.old.sums } }
    {
        if m.fti < 4 {
            self.add_to(m.fti as usize, m.log_scale_q24);
        }
    }

    fn add_unit(&mut self, is_shown: bool)
        ensures { self.new ≡ record self.old {
          tus = if is_shown then saturate_signed w32 (self.old.tus +ℤ pos 1) else self.old.tus;
        } }
    {
        if is_shown {
            self.tus = self.tus.saturating_add(1);
        }
    }

    fn clear_waiting(&mut self)
        ensures { self.new ≡ record self.old { waiting = None } }
    {
        self.waiting = None;
    }

    fn add(&mut self, m: &RCFrameMetrics)
        ensures { self.new ≡ emitted_by (Some m.now) self.old }
    {
        self.add_scale(m);
        self.add_unit(m.show_frame);
        self.clear_waiting();
    }

    /// Gives the metrics that wait, 8 bytes, and counts them.
    #[tactic(auto, unfolding(crate::specs::Emitted::with_frame_emitted))]
    pub fn emit_frame(&mut self) -> Option<ArrayVec<u8, 68>>
        ensures state { self.new ≡ with_frame_emitted self.old }
        ensures bytes { MatchOption result
            (self.old.waiting ≡ None)
            (λ bytes. MatchOption self.old.waiting ⊥ (λ m. Metric bytes.items m)) }
    {
        match self.waiting {
            Some(m) => {
                let bytes = write_metrics(&m);
                self.add(&m);
                Some(bytes)
            }
            None => None,
        }
    }

    /// Gives the summary, 68 bytes, from the frames of each subtype and the exponents.
    pub fn emit_summary(&mut self, nframes: [i32; 5], exp: [u8; 4]) -> ArrayVec<u8, 68>
        ensures state { self.new ≡ summed_up self.old }
        ensures bytes { Spells result.items self.old.tus nframes exp self.old.sums }
        ensures sums { IsFalse (any_negative self.old.sums) }
    {
        self.is_summed_up = true;
        write_summary(self.tus, nframes, exp, self.sums)
    }
}
