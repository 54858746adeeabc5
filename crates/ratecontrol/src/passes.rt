ghost use Rattle.std.specs.Prelude.{◌≡◌, ◌≢◌, ◌↔◌, ℕ, ◌+◌, ◌-◌, ◌*◌, ◌^◌, ◌<◌, ◌≤◌, not, ◌&&◌, ◌||◌, ◌⊎◌, [], ◌∷◌, length, slice_index, Option, Some, None, Ok, Err, is_some, IsSome, IfSome, IfErr, MatchResult, MatchOption, IsTrue, IsFalse, ℤ, pos, ◌+ℤ◌, ◌-ℤ◌, ◌*ℤ◌, ◌≤ℤ◌, int_lt, unsigned_abs, if◌then◌else◌, true, false};
ghost use Rattle.std.specs.Option.{unwrap_or};
ghost use Rattle.std.specs.Int.{int_min};
ghost use Rattle.std.specs.Ordering.{int_eq};
ghost use Rattle.fixed_log.specs.Within.{IsWithin};
ghost use Rattle.rate_model.specs.Subtype.{SubtypeRate, subtype_at};
ghost use Rattle.pass_data.specs.Given.{Given, IsHeader, sent, verdict, with_values};
ghost use Rattle.pass_data.specs.Pieces.{given_bytes, answer};
ghost use Rattle.pass_data.specs.declared.error.PassDataError.{PassDataError};
ghost use Rattle.ratecontrol.specs.Rate.{Rate};
ghost use Rattle.ratecontrol.specs.Passes.{commands as commands_of, is_controlled as is_controlled_of, in_first, room_for as room_for_of, with_buffer, in_second, RunsOut, WantsMemory, frames_needed as frames_needed_of, is_ready as is_ready_of, with_exponent, with_exponents, with_levels as with_levels_of, over_the_file as over_the_file_of, over_the_window as over_the_window_of, set_up as set_up_of, set_up_by, with_given as with_given_of, with_summary, is_open as is_open_of, bytes_wanted as bytes_wanted_of, given_in, asked, taken_in, IsAnswered};

use crate::state::RCState;
use coding_base::OutOfMemory;
use pass_data::{Header, PassDataError};
use pass_stats::RCSummary;
use rate_model::SubtypeState;
use reservoir::levels::{reservoir_most, reservoir_target};

/// How many metrics a window has room for: two for each temporal unit of a delay, and 8 more.
fn room_for(delay: i32) -> usize
    requires low { pos 12 ≤ℤ delay }
    requires high { delay ≤ℤ pos (2 ^ 17) }
    ensures value { result ≡ room_for_of delay }
    ensures small { result ≤ 2 ^ 19 }
{
    (2 * delay + 8) as usize
}

fn shorter_delay(delay: i32, ntus: i32) -> i32
    requires delay { pos 1 ≤ℤ delay }
    requires ntus { pos 1 ≤ℤ ntus }
    ensures value { result ≡ int_min delay ntus }
    ensures low { pos 1 ≤ℤ result }
{
    if delay < ntus { delay } else { ntus }
}

fn base_or(base: Option<i64>, last: i64) -> i64
    ensures { result ≡ unwrap_or base last }
{
    base.unwrap_or(last)
}

fn set_exponents(subtypes: &mut [SubtypeState; 4], exp: &[u8; 4])
    requires { (j : ℕ) → j < 4 → 1 ≤ slice_index exp.now j }
    ensures { subtypes.new ≡ with_exponents exp.now subtypes.old }
{
    subtypes[0].set_exponent(exp[0]);
    subtypes[1].set_exponent(exp[1]);
    subtypes[2].set_exponent(exp[2]);
    subtypes[3].set_exponent(exp[3]);
}

impl RCState {
    /// How many frames were coded, and shows of coded frames.
    pub(crate) fn commands(&self) -> i128
        ensures { result ≡ commands_of self.now }
    {
        self.coded as i128 + self.shown_again as i128
    }

    /// Begins a first pass: in a session with one pass from a base, which its frames are coded by, and beside a second pass
    /// from none. That base is the one that `select_qi` gives for a key frame at the start of a session with one pass,
    /// without a base before and with a mean scale of 0.
    pub fn init_first_pass(&mut self, base: Option<i64>)
        ensures { self.new ≡ in_first base self.old }
    {
        self.first = true;
        self.first_base = base_or(base, self.first_base);
    }

    fn take_buffer(&mut self) -> Result<(), OutOfMemory>
        ensures state { MatchResult result
            (λ _. self.new ≡ record self.old {
              given = with_buffer self.old.set_delay self.old.given;
            })
            (λ _. self.new ≡ self.old) }
        ensures window { IfErr result (λ _. IsSome self.old.set_delay) }
    {
        match self.set_delay {
            Some(delay) => self.given.take_window(self.alloc, room_for(delay)),
            None => Ok(()),
        }
    }

    fn begin_second_pass(&mut self) -> Result<(), OutOfMemory>
        requires { IsFalse self.old.second }
        ensures { MatchResult result
            (λ _. self.new ≡ in_second self.old)
            (λ _. WantsMemory self.old self.new) }
    {
        self.take_buffer()?;
        self.second = true;
        Ok(())
    }

    /// Begins a second pass, beside a first one where that is on. Where a reservoir's delay was set, a window for metrics is
    /// taken; else the whole file's statistics are counted on. Where a second pass is on already nothing changes.
    ///
    /// # Errors
    ///
    /// Want of memory for the window. Then nothing has changed.
    pub fn init_second_pass(&mut self) -> Result<(), OutOfMemory>
        ensures { MatchResult result
            (λ _. self.new ≡ in_second self.old)
            (λ _. WantsMemory self.old self.new) }
    {
        if self.second {
            return Ok(());
        }
        self.begin_second_pass()
    }

    /// Whether the last frame's data was taken, where a first pass is on, and the next frame's data is there, where a second is.
    pub fn ready(&self) -> bool
        ensures { result ≡ is_ready_of self.now }
    {
        !(self.first && self.emitted.is_waiting())
            && (!self.second || self.given.has_next(self.twopass_in_frames_needed()))
    }

    /// Of how many frames metrics are needed before the next frame can be coded in a second pass.
    pub fn twopass_in_frames_needed(&self) -> i32
        ensures { result ≡ frames_needed_of self.now }
    {
        if self.second && self.is_controlled() {
            self.given.needed(self.reservoir_delay, self.commands())
        } else {
            0
        }
    }
}

impl RCState {
    /// The reservoir is evened out over the whole file.
    fn set_levels(&mut self, header: &Header)
        requires { pos 1 ≤ℤ header.now.ntus }
        ensures { self.new ≡ over_the_file_of header.now self.old }
    {
        let most = reservoir_most(self.bits_per_tu, header.ntus);
        let target = reservoir_target(most);
        self.reservoir_delay = header.ntus;
        self.most = most;
        self.target = target;
        self.reservoir = target;
    }

    fn cut_delay(&mut self, header: &Header)
        requires { pos 1 ≤ℤ header.now.ntus }
        ensures { self.new ≡ over_the_window_of header.now self.old }
    {
        self.reservoir_delay = shorter_delay(self.reservoir_delay, header.ntus);
    }

    fn take_levels(&mut self, header: &Header)
        requires { pos 1 ≤ℤ header.now.ntus }
        ensures { self.new ≡ with_levels_of header.now self.old }
    {
        if self.given.is_finite() {
            self.cut_delay(header);
        } else {
            self.set_levels(header);
        }
    }

    fn take_exponents(&mut self, exp: &[u8; 4])
        requires { (j : ℕ) → j < 4 → 1 ≤ slice_index exp.now j }
        ensures { self.new ≡ record self.old {
          subtypes = with_exponents exp.now self.old.subtypes;
        } }
    {
        set_exponents(&mut self.subtypes, exp);
    }

    /// Takes the summary's header.
    #[tactic(auto, unfolding(crate::specs::Passes::set_up), using(crate::proofs::HeaderLaws::exponents_positive))]
    fn set_up(&mut self, header: &Header)
        requires { IsHeader header.now }
        ensures { self.new ≡ set_up_of header.now self.old }
    {
        self.take_levels(header);
        self.take_exponents(&header.exp);
    }

    fn set_up_by(&mut self, header: Option<Header>)
        requires { IfSome header IsHeader }
        ensures { self.new ≡ set_up_by header self.old }
    {
        if let Some(header) = header {
            self.set_up(&header);
        }
    }

    /// Takes the summary of a first pass, before anything is coded in the second. Bytes that were given before are let go.
    pub fn setup_second_pass(&mut self, s: &RCSummary)
        ensures { self.new ≡ with_summary s.now self.old }
    {
        self.given.set_up(s);
        let header = self.given.header();
        self.set_up_by(header);
    }
}

impl RCState {
    /// Whether bytes can be given: before anything is coded, and where there is a summary.
    fn is_open(&self) -> bool
        ensures { result ≡ is_open_of self.now }
    {
        self.is_controlled() && (self.has_header() || self.commands() == 0)
    }

    fn bytes_of_summary(&self) -> usize
        ensures { result ≡ 68 + 8 * (if self.now.given.is_finite
            then unsigned_abs self.now.reservoir_delay else 1) }
    {
        if self.given.is_finite() {
            68 + 8 * self.reservoir_delay as usize
        } else {
            76
        }
    }

    fn bytes_of_packets(&self) -> usize
        ensures { result
            ≡ unsigned_abs (frames_needed_of self.now) * 8 - length self.now.given.bytes }
    {
        let needed = self.twopass_in_frames_needed().unsigned_abs() as usize;
        (needed * 8).saturating_sub(self.given.held_bytes())
    }

    fn bytes_wanted(&self) -> usize
        ensures { result ≡ bytes_wanted_of self.now }
    {
        if self.has_header() {
            self.bytes_of_packets()
        } else {
            self.bytes_of_summary()
        }
    }

    /// The header that has come, where there was none before.
    fn new_header(&self, had: bool) -> Option<Header>
        ensures value { result ≡ (if had then None else self.now.given.header) }
        ensures in_grammar { IfSome result IsHeader }
    {
        if had { None } else { self.given.header() }
    }

    fn take_bytes(&mut self, bytes: &[u8]) -> Result<usize, PassDataError>
        ensures given { let p = given_bytes self.old.reservoir_delay (commands_of self.old)
            bytes.now self.old.given in
            (self.new ≡ record self.old { given = p.given }) × (result ≡ answer p) }
        ensures never_memory { result ≢ Err PassDataError.OutOfMemory }
    {
        let commands = self.commands();
        self.given.give(self.reservoir_delay, commands, bytes)
    }

    fn has_header(&self) -> bool
        ensures { result ≡ is_some self.now.given.header }
    {
        self.given.header().is_some()
    }

    fn give(&mut self, bytes: &[u8]) -> Result<usize, PassDataError>
        ensures given { let a = given_in bytes.now self.old in
            (self.new ≡ a.rate) × (result ≡ a.answer) }
        ensures never_memory { result ≢ Err PassDataError.OutOfMemory }
    {
        let had = self.has_header();
        let answer = self.take_bytes(bytes);
        let header = self.new_header(had);
        self.set_up_by(header);
        answer
    }

    fn ask(&mut self) -> Result<usize, PassDataError>
        ensures asked { IsAnswered (asked self.old) self.old self.new result }
        ensures memory { result ≡ Err PassDataError.OutOfMemory → RunsOut self.old self.new }
    {
        if !self.is_open() {
            return Ok(0);
        }
        match self.init_second_pass() {
            Ok(()) => Ok(self.bytes_wanted()),
            Err(OutOfMemory) => Err(PassDataError::OutOfMemory),
        }
    }

    fn take_in(&mut self, bytes: &[u8]) -> Result<usize, PassDataError>
        ensures taken { IsAnswered (taken_in bytes.now self.old) self.old self.new result }
        ensures memory { result ≡ Err PassDataError.OutOfMemory → RunsOut self.old self.new }
    {
        if !self.is_open() {
            return Ok(0);
        }
        match self.init_second_pass() {
            Ok(()) => self.give(bytes),
            Err(OutOfMemory) => Err(PassDataError::OutOfMemory),
        }
    }

    /// Without bytes, how many are wanted of a summary and of frames' metrics. With bytes, takes them as far as they are wanted, and gives
    /// how many it took; those that it did not take are to be offered again. Both begin a second pass where nothing is coded. Without a
    /// bitrate, and where something is coded without a summary, both give 0 and begin none.
    ///
    /// # Errors
    ///
    /// `Corrupted`, `BadPacket` or `TooManyFrames` for the first summary or metrics that are refused; what was taken before them stays, and
    /// their bytes are let go. `OutOfMemory` where there is none for the window, and then nothing has changed.
    pub fn twopass_in(&mut self, bytes: Option<&[u8]>) -> Result<usize, PassDataError>
        ensures answer { MatchOption bytes.entry
            (IsAnswered (asked self.old) self.old self.new result)
            (λ bytes. IsAnswered (taken_in bytes.now self.old) self.old self.new result) }
        ensures memory { result ≡ Err PassDataError.OutOfMemory → RunsOut self.old self.new }
    {
        match bytes {
            Some(bytes) => self.take_in(bytes),
            None => self.ask(),
        }
    }

    /// Takes the metrics of a frame, 8 bytes. Bytes that `twopass_in` holds stay as they are. Where the packet is refused nothing changes.
    ///
    /// # Errors
    ///
    /// The first of `WrongSize`, `BadPacket`, `NotNeeded` and `TooManyFrames` that holds.
    pub fn send_packet(&mut self, bytes: &[u8]) -> Result<(), PassDataError>
        ensures { let is_needed = int_lt (pos 0) (frames_needed_of self.old) in
            let o = sent is_needed bytes.now self.old.given in
            (self.new ≡ record self.old { given = o.given }) × (result ≡ verdict o.refused) }
    {
        let is_needed = self.twopass_in_frames_needed() > 0;
        self.given.send(is_needed, bytes)
    }
}
