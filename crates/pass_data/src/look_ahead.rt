ghost use Rattle.std.specs.Prelude.{◌≡◌, ℕ, ◌+◌, ◌-◌, ◌^◌, ◌<◌, ◌≤◌, ◌==◌, Option, Some, None, ℤ, pos, ◌+ℤ◌, ◌-ℤ◌, ◌≤ℤ◌, IfSome, if◌then◌else◌};
ghost use Rattle.std.specs.Int.{int_min};
ghost use Rattle.fixed_log.specs.Within.{IsWithin};
ghost use Rattle.pass_stats.specs.declared.metrics.RCFrameMetrics.{RCFrameMetrics};
ghost use Rattle.metrics_window.specs.Tallies.{less};
ghost use Rattle.pass_data.specs.LookAhead.{seen as seen_of, units_seen as units_seen_of, scale_by, counted_by, look_ahead as look_ahead_of};

use crate::given::GivenData;
use metrics_window::Tally;
use pass_stats::RCFrameMetrics;

/// What a second pass sees of the frames ahead.
#[derive(Clone, Copy, Debug)]
pub struct LookAhead {
    /// How many frames of each subtype, and how many shows of coded frames.
    pub nframes: [i32; 5],
    /// How many coded frames.
    pub frames: i64,
    /// How many temporal units.
    pub tus: i64,
    /// The frames whose scales are known and count: all of them, but for one of another subtype than that which is coded in its place.
    pub counted: Tally,
    /// The logarithm of the scale of the frame that is being coded, in Q24, where its subtype is the expected one.
    pub current: Option<i32>,
}

/// Without the metrics of the frame that is coded, where they are of another subtype.
fn without_other(current: Option<RCFrameMetrics>, fti: usize, tally: Tally) -> Tally
    requires { IfSome current (λ m. m.fti ≤ 4) }
    ensures { result ≡ counted_by current fti tally }
{
    let mut counted = tally;
    if let Some(m) = current {
        if m.fti as usize != fti {
            counted.take_off(&m);
        }
    }
    counted
}

fn scale_of_subtype(current: Option<RCFrameMetrics>, fti: usize) -> Option<i32>
    ensures { result ≡ scale_by current fti }
{
    match current {
        Some(m) => {
            if m.fti as usize == fti {
                Some(m.log_scale_q24)
            } else {
                None
            }
        }
        None => None,
    }
}

impl GivenData {
    fn seen(&self) -> Tally
        ensures { result ≡ seen_of self.now }
    {
        if self.is_finite {
            self.window.before_last_key()
        } else {
            self.left
        }
    }

    fn units_seen(&self, delay: i32) -> i64
        ensures value { result ≡ units_seen_of delay self.now }
        ensures most { result ≤ℤ delay }
    {
        let units = delay.min(self.left.shown) as i64;
        if self.is_finite {
            units - self.window.shown_from_last_key() as i64
        } else {
            units
        }
    }

    /// What a second pass sees of the frames ahead, where a frame of subtype `fti` is coded next and the reservoir is evened out over
    /// `delay` temporal units.
    #[tactic(auto, unfolding(crate::specs::LookAhead::look_ahead))]
    pub fn look_ahead(&self, delay: i32, fti: usize) -> LookAhead
        ensures value { result ≡ look_ahead_of delay fti self.now }
        ensures frames { IsWithin (2 ^ 34) result.frames }
        ensures tus { result.tus ≤ℤ delay }
    {
        let seen = self.seen();
        let current = self.current();
        LookAhead {
            nframes: seen.counts,
            frames: seen.coded_frames(),
            tus: self.units_seen(delay),
            counted: without_other(current, fti, seen),
            current: scale_of_subtype(current, fti),
        }
    }
}
