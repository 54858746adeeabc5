ghost use Rattle.std.specs.Prelude.{◌≡◌, ◌↔◌, ℕ, ◌^◌, ◌<◌, not, ◌&&◌, [], ◌∷◌, Option, Some, None, is_some, ⊤, true, false, IsTrue, IsFalse, IsNone, MatchOption, ℤ, pos, ◌+ℤ◌, int_lt, if◌then◌else◌};
ghost use Rattle.pass_stats.specs.Grammar.{any_negative, any_zero};
ghost use Rattle.pass_stats.specs.Metric.{Metric};
ghost use Rattle.pass_data.specs.Emitted.{with_frame_emitted, summed_up};
ghost use Rattle.rate_model.specs.Subtype.{SubtypeRate, subtype_at};
ghost use Rattle.ratecontrol.specs.Passes.{can_emit as can_emit_of, frame_emitted, after_frame_emitted, counts_coded as counts_coded_of, exponents_of, after_summary, IsSummaryOf, gives_frame as gives_frame_of, gives_summary as gives_summary_of, given_out};

use crate::state::RCState;
use arrayvec::ArrayVec;

/// As many commands a summary can count.
const MOST_COMMANDS: i128 = i32::MAX as i128;

impl RCState {
    fn can_emit(&self) -> bool
        ensures { result ≡ can_emit_of self.now }
    {
        self.commands() < MOST_COMMANDS
    }

    /// Gives the last frame's data, 8 bytes, if it waits to be taken. Once as many commands were coded as a summary can count, it
    /// gives none, and the data waits on.
    pub fn emit_frame_data(&mut self) -> Option<ArrayVec<u8, 68>>
        ensures state { self.new ≡ after_frame_emitted self.old }
        ensures none { IsNone result ↔ (frame_emitted self.old ≡ None) }
        ensures bytes { MatchOption result ⊤
            (λ bytes. MatchOption (frame_emitted self.old) ⊥ (λ m. Metric bytes.items m)) }
    {
        if self.can_emit() {
            self.emitted.emit_frame()
        } else {
            None
        }
    }

    /// How many frames of each subtype were coded, and how many shows of coded frames.
    fn counts_coded(&self) -> [i32; 5]
        ensures { result ≡ counts_coded_of self.now }
    {
        [
            self.subtypes[0].frames(),
            self.subtypes[1].frames(),
            self.subtypes[2].frames(),
            self.subtypes[3].frames(),
            self.shows,
        ]
    }

    /// Gives the summary, 68 bytes, of the frames whose data was taken.
    pub fn emit_summary(&mut self) -> ArrayVec<u8, 68>
        ensures state { self.new ≡ after_summary self.old }
        ensures summary { IsSummaryOf self.old result.items }
        ensures exponents { IsFalse (any_zero (exponents_of self.old)) }
        ensures sums { IsFalse (any_negative self.old.emitted.sums) }
    {
        let counts = self.counts_coded();
        let exponents = self.exponents();
        self.emitted.emit_summary(counts, exponents)
    }

    /// Whether `twopass_out` would meet a frame's data that waits: then it gives that, or nothing, and no summary.
    pub fn gives_frame(&self) -> bool
        ensures { result ≡ gives_frame_of self.now }
    {
        self.is_controlled() && self.emitted.is_waiting()
    }

    fn gives_summary(&self, done: bool) -> bool
        ensures { result ≡ gives_summary_of done self.now }
    {
        self.is_controlled() && !self.emitted.is_waiting() && done && !self.emitted.is_summed_up()
    }

    /// Gives the last frame's data, while it waits to be taken, and, once all is `done`, the summary, once. Without a bitrate there is nothing.
    pub fn twopass_out(&mut self, done: bool) -> Option<ArrayVec<u8, 68>>
        ensures state { self.new ≡ given_out done self.old }
        ensures frame { IsTrue (gives_frame_of self.old) → MatchOption result
            (frame_emitted self.old ≡ None)
            (λ bytes. MatchOption (frame_emitted self.old) ⊥ (λ m. Metric bytes.items m)) }
        ensures summary { IsTrue (gives_summary_of done self.old)
            → MatchOption result ⊥ (λ bytes. IsSummaryOf self.old bytes.items) }
        ensures nothing { gives_frame_of self.old ≡ false → gives_summary_of done self.old ≡ false
            → IsNone result }
    {
        if self.gives_frame() {
            self.emit_frame_data()
        } else if self.gives_summary(done) {
            Some(self.emit_summary())
        } else {
            None
        }
    }
}
