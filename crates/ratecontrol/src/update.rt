ghost use Rattle.std.specs.Prelude.{◌≡◌, ℕ, ◌+◌, ◌-◌, ◌*◌, ◌^◌, ◌<◌, ◌≤◌, not, ◌&&◌, int_lt, if◌then◌else◌, pos, negsuc, ◌+ℤ◌, ◌-ℤ◌, ◌≤ℤ◌, ◌<ℤ◌};
ghost use Rattle.fixed_log.specs.Within.{IsWithin};
ghost use Rattle.rate_model.specs.Subtype.{subtype_at};
ghost use Rattle.rate_model.specs.Search.{power_log as power_log_of};
ghost use Rattle.rate_model.specs.Measure.{entry, grown, LAST_I32, estimate_of};
ghost use Rattle.fixed_log.specs.Conversion.{q57_to_q24 as q57_to_q24_of};
ghost use Rattle.pass_stats.specs.declared.metrics.RCFrameMetrics.{RCFrameMetrics};
ghost use Rattle.pass_data.specs.Emitted.{with_waiting};
ghost use Rattle.pass_data.specs.Given.{coded};
ghost use Rattle.reservoir.specs.Moves.{LAST_COUNT};
ghost use Rattle.ratecontrol.specs.Update.{estimate as estimate_of_entry, charged, with_subtype, after_frame, after_show, after, scale_shown, frame_data, with_frame_data, update, is_dropped};

use crate::state::RCState;
use fixed_log::q57_to_q24;
use pass_stats::RCFrameMetrics;
use rate_model::{FRAME_NSUBTYPES, power_log};
use reservoir::moves::{next_bias, next_coded, next_count, next_reservoir};

/// The bits that the show of a coded frame is expected to take.
const SHOW_BITS: i64 = 24;

fn next_shows(shows: i32) -> i32
    ensures { result ≡ grown LAST_I32 shows }
{
    shows.saturating_add(1)
}

impl RCState {
    /// The bits that are to be expected of a frame: nothing of one that has none.
    fn estimate(&self, bits: i64, fti: usize, shown: bool, log_target: i64, trial: bool) -> i64
        requires { fti < 4 }
        ensures { result ≡ estimate_of_entry self.now (entry bits fti shown log_target trial) }
    {
        let _ = (shown, trial);
        if bits > 0 {
            self.expected(fti, log_target)
        } else {
            0
        }
    }

    fn expected(&self, fti: usize, log_target: i64) -> i64
        requires { fti < 4 }
        ensures { let s = subtype_at self.now.subtypes fti in
            result ≡ estimate_of self.now.log_npixels s.log_scale (power_log_of log_target s.exponent) }
    {
        let subtype = &self.subtypes[fti];
        subtype.estimate(
            self.log_npixels,
            power_log(log_target as i128, subtype.exponent()),
        )
    }

    /// Takes the bits out of the reservoir, puts those of a temporal unit in, and adds to the bias.
    fn charge(&mut self, estimate: i64, bits: i64, shown: bool)
        ensures { self.new ≡ charged estimate bits shown self.old }
    {
        self.reservoir = next_reservoir(self.bits_per_tu, self.most, bits, shown, self.reservoir);
        self.bias = next_bias(self.bias, estimate, bits);
    }

    /// Takes what a frame shows of its subtype, and counts it.
    fn take_subtype(&mut self, bits: i64, fti: usize, shown: bool, log_target: i64, trial: bool)
        requires { fti < 4 }
        ensures { self.new ≡ with_subtype (entry bits fti shown log_target trial) self.old }
    {
        self.subtypes[fti].take(
            self.log_npixels,
            self.delay_target,
            bits,
            fti,
            shown,
            log_target,
            trial,
        );
        self.coded = next_coded(self.coded, bits, trial);
    }

    /// Takes a coded frame.
    #[tactic(auto, unfolding(crate::specs::Update::after_frame))]
    fn take_frame(&mut self, bits: i64, fti: usize, shown: bool, log_target: i64, trial: bool)
        requires { fti < 4 }
        ensures { self.new ≡ after_frame (entry bits fti shown log_target trial) self.old }
    {
        let estimate = self.estimate(bits, fti, shown, log_target, trial);
        self.take_subtype(bits, fti, shown, log_target, trial);
        if !trial {
            self.charge(estimate, bits, shown);
        }
    }

    fn count_show(&mut self)
        ensures { self.new ≡ record self.old {
          shown_again = grown LAST_COUNT self.old.shown_again;
          shows = grown LAST_I32 self.old.shows;
        } }
    {
        self.shown_again = next_count(self.shown_again);
        self.shows = next_shows(self.shows);
    }

    /// Takes the show of a coded frame.
    #[tactic(auto, unfolding(crate::specs::Update::after_show))]
    fn take_show(&mut self, bits: i64, fti: usize, shown: bool, log_target: i64, trial: bool)
        ensures { self.new ≡ after_show (entry bits fti shown log_target trial) self.old }
    {
        let _ = (fti, log_target, trial);
        self.count_show();
        self.charge(SHOW_BITS, bits, shown);
    }

    /// Whether a frame is dropped.
    fn drops(&self, bits: i64, fti: usize, shown: bool, log_target: i64, trial: bool) -> bool
        ensures { result ≡ is_dropped (entry bits fti shown log_target trial) self.now }
    {
        let _ = (shown, log_target, trial);
        self.bitrate > 0 && fti < FRAME_NSUBTYPES && bits == 0
    }

    /// Takes a coded frame or a show.
    fn take(&mut self, bits: i64, fti: usize, shown: bool, log_target: i64, trial: bool)
        ensures { self.new ≡ after (entry bits fti shown log_target trial) self.old }
    {
        if fti < FRAME_NSUBTYPES {
            self.take_frame(bits, fti, shown, log_target, trial);
        } else {
            self.take_show(bits, fti, shown, log_target, trial);
        }
    }

    /// Whether there is a bitrate.
    pub(crate) fn is_controlled(&self) -> bool
        ensures { result ≡ int_lt (pos 0) self.now.bitrate }
    {
        self.bitrate > 0
    }

    /// The scale that a frame shows, in Q57.
    fn scale_shown(&self, bits: i64, fti: usize, shown: bool, log_target: i64, trial: bool) -> i64
        ensures { result ≡ scale_shown (entry bits fti shown log_target trial) self.now }
    {
        let _ = (shown, trial);
        if fti < FRAME_NSUBTYPES && bits > 0 {
            self.subtypes[fti].scale_of_frame(self.log_npixels, bits, log_target)
        } else {
            i64::MIN
        }
    }

    /// What a first pass tells of a frame.
    fn frame_data(
        &self,
        bits: i64,
        fti: usize,
        shown: bool,
        log_target: i64,
        trial: bool,
    ) -> RCFrameMetrics
        requires { fti ≤ 4 }
        ensures data { result ≡ frame_data (entry bits fti shown log_target trial) self.now }
        ensures known { result.fti ≤ 4 }
    {
        RCFrameMetrics {
            log_scale_q24: q57_to_q24(self.scale_shown(bits, fti, shown, log_target, trial)),
            fti: fti as u8,
            show_frame: shown,
        }
    }

    /// Emits the frame's data in a first pass, and uses its metrics up in a second.
    fn hand_on(&mut self, m: RCFrameMetrics, trial: bool)
        requires { m.fti ≤ 4 }
        ensures { self.new ≡ with_frame_data m trial self.old }
    {
        if self.second && !trial {
            self.given.code();
        }
        if self.first {
            self.emitted.set_waiting(m);
        }
    }

    fn take_and_hand_on(&mut self, bits: i64, fti: usize, shown: bool, log_target: i64, trial: bool)
        requires { fti ≤ 4 }
        ensures { let e = entry bits fti shown log_target trial in
            self.new ≡ with_frame_data (frame_data e self.old) trial (after e self.old) }
    {
        let m = self.frame_data(bits, fti, shown, log_target, trial);
        self.take(bits, fti, shown, log_target, trial);
        self.hand_on(m, trial);
    }

    /// Takes a coded frame or a show, if there is a bitrate.
    fn take_if_controlled(
        &mut self,
        bits: i64,
        fti: usize,
        shown: bool,
        log_target: i64,
        trial: bool,
    )
        requires { fti ≤ 4 }
        ensures { self.new ≡ update (entry bits fti shown log_target trial) self.old }
    {
        if self.is_controlled() {
            self.take_and_hand_on(bits, fti, shown, log_target, trial);
        }
    }

    /// Takes the bits of a frame, and tells whether the frame is dropped, since it has none.
    ///
    /// `log_target_q` is the quantiser that the frame aimed at. A trial sets what is known of its subtype, and isn't
    /// charged. A first pass has the frame's data to be taken then, and a second pass lets its metrics go, if they are there.
    /// Without a bitrate nothing changes. `droppable` has no effect.
    pub fn update_state(
        &mut self,
        bits: i64,
        fti: usize,
        show_frame: bool,
        log_target_q: i64,
        trial: bool,
        droppable: bool,
    ) -> bool
        requires { fti ≤ 4 }
        ensures state { self.new ≡ update (entry bits fti show_frame log_target_q trial) self.old }
        ensures dropped { result
            ≡ is_dropped (entry bits fti show_frame log_target_q trial) self.old }
        ensures most_low { pos 1 ≤ℤ self.old.most }
        ensures most_high { self.old.most ≤ℤ pos (2 ^ 78) }
    {
        let _ = droppable;
        let _ = &self.most;
        let dropped = self.drops(bits, fti, show_frame, log_target_q, trial);
        self.take_if_controlled(bits, fti, show_frame, log_target_q, trial);
        dropped
    }
}
