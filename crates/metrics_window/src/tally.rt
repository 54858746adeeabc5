ghost use Rattle.std.specs.Prelude.{◌≡◌, ℕ, ◌+◌, ◌-◌, ◌*◌, ◌^◌, ◌<◌, ◌≤◌, ◌==◌, nat_lt, [], slice_set, pos, negsuc, ◌+ℤ◌, ◌-ℤ◌, ◌≤ℤ◌, if◌then◌else◌};
ghost use Rattle.std.specs.Int.{saturate_signed, w32};
ghost use Rattle.fixed_log.specs.Within.{IsWithin};
ghost use Rattle.metrics_window.specs.Tallies.{scale_of, not_far as not_far_of, number_at, count_set, sum_set, shown_set, more as more_of, less as less_of, coded_frames as coded_frames_of, all_frames as all_frames_of, tally_of};

use fixed_log::bexp_q24;
use fixed_log::wide::clamped;
use pass_stats::RCFrameMetrics;

/// How far from 0 a sum can get. No session reaches it.
const FAR: i128 = 1 << 96;

/// What is counted over frames' metrics.
#[derive(Clone, Copy, Debug, PartialEq, Eq)]
pub struct Tally {
    /// Frames of each subtype, and shows of coded frames.
    pub counts: [i32; 5],
    /// The sum of the scales of each subtype, in Q24.
    pub sums: [i128; 4],
    /// Shown frames.
    pub shown: i32,
}

/// A sum, changed, but not too far from 0.
fn changed_sum(sum: i128, by: i128) -> i128
    ensures { result ≡ not_far_of (sum +ℤ by) }
{
    clamped(sum.saturating_add(by), -FAR, FAR)
}

fn sum_of_two(a: i32, b: i32) -> i64
    ensures value { result ≡ a +ℤ b }
    ensures within { IsWithin (2 ^ 32) result }
{
    a as i64 + b as i64
}

impl Tally {
    /// The tally of no metrics.
    #[tactic(auto, unfolding(crate::specs::Tallies::tally_of))]
    pub fn new() -> Tally
        ensures { result ≡ tally_of [] }
    {
        Tally {
            counts: [0; 5],
            sums: [0; 4],
            shown: 0,
        }
    }

    fn change_count(&mut self, subtype: usize, by: i32)
        requires { subtype ≤ 4 }
        ensures { self.new ≡ record self.old { counts = count_set self.old.counts subtype by } }
    {
        self.counts[subtype] = self.counts[subtype].saturating_add(by);
    }

    /// Changes the sum of a subtype that has one.
    fn change_sum(&mut self, subtype: usize, by: i128)
        ensures { self.new ≡ record self.old { sums = sum_set self.old.sums subtype by } }
    {
        if subtype < 4 {
            self.sums[subtype] = changed_sum(self.sums[subtype], by);
        }
    }

    fn change_shown(&mut self, is_shown: bool, by: i32)
        ensures { self.new ≡ record self.old { shown = shown_set self.old.shown is_shown by } }
    {
        if is_shown {
            self.shown = self.shown.saturating_add(by);
        }
    }

    /// Counts the metrics of one frame more.
    #[tactic(auto, unfolding(crate::specs::Tallies::more))]
    pub fn add(&mut self, m: &RCFrameMetrics)
        requires { m.now.fti ≤ 4 }
        ensures { self.new ≡ more_of m.now self.old }
    {
        self.change_count(m.fti as usize, 1);
        self.change_sum(m.fti as usize, bexp_q24(m.log_scale_q24) as i128);
        self.change_shown(m.show_frame, 1);
    }

    /// Counts the metrics of one frame less. Counts go down to those of an `i32`, and sums to `-2^96`.
    #[tactic(auto, unfolding(crate::specs::Tallies::less))]
    pub fn take_off(&mut self, m: &RCFrameMetrics)
        requires { m.now.fti ≤ 4 }
        ensures { self.new ≡ less_of m.now self.old }
    {
        self.change_count(m.fti as usize, -1);
        self.change_sum(m.fti as usize, -(bexp_q24(m.log_scale_q24) as i128));
        self.change_shown(m.show_frame, -1);
    }

    /// How many coded frames there are: all but shows of such frames.
    pub fn coded_frames(&self) -> i64
        ensures value { result ≡ coded_frames_of self.now }
        ensures within { IsWithin (2 ^ 33) result }
    {
        sum_of_two(self.counts[0], self.counts[1]) + sum_of_two(self.counts[2], self.counts[3])
    }

    /// How many frames there are, shows of coded frames too.
    pub fn all_frames(&self) -> i64
        ensures value { result ≡ all_frames_of self.now }
        ensures within { IsWithin (2 ^ 34) result }
    {
        self.coded_frames() + self.counts[4] as i64
    }
}
