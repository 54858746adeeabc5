// The passes of a session: what a first one hands on, and what a second one is given.
ghost use Rattle.std.specs.Prelude.{◌≡◌, [], List, Some, None, Err, false, IsNone, IsTrue, IfErr, MatchOption, MatchResult, int_lt, pos};
ghost use Rattle.av1_settings.specs.declared.encoder.EncoderConfig.{EncoderConfig as Settings};
ghost use Rattle.pass_data.specs.Given.{sent, verdict};
ghost use Rattle.pass_stats.specs.Metric.{Metric};
ghost use Rattle.quantizers.specs.Tables.{Tables};
ghost use Rattle.ratecontrol.specs.Passes.{IsAnswered, IsSummaryOf, RunsOut, WantsMemory, asked, frame_emitted, frames_needed as frames_needed_at, given_out, gives_frame as gives_frame_at, gives_summary, in_first, in_second, is_ready as is_ready_at, taken_in, with_summary};
ghost use Rattle.session_log.specs.declared.entry.LogEntry.{LogEntry as Entry};
ghost use Rattle.session_log.specs.Keeps.{IsCodedForGood, IsLog, Keeps};
ghost use Rattle.session_log.specs.Passes.{Passes, first_begun, packet_sent, passes_of, rate_at, second_begun};

use crate::SessionRate;
use arrayvec::ArrayVec;
use coding_base::OutOfMemory;
use pass_stats::RCSummary;
use ratecontrol::{PassDataError, SubtypeGuess};

// ---- a pass begins

impl SessionRate {
    /// Begins a first pass, beside a second one where that is on. In a first pass by itself all frames are coded by the base
    /// that `guess` leads to here, at the session's start, for a key frame.
    pub fn begin_first_pass<G: SubtypeGuess>(&mut self, guess: &G)
        ensures tables { self.new.tables ≡ self.old.tables }
        ensures keeps { (enc : Settings) (tables : Tables) (passes : Passes) →
            Keeps enc tables passes [] self.old →
            Keeps enc tables
            (first_begun enc tables passes (G.guess guess.now) (G.gop_input_start guess.now)) [] self.new }
    {
        let base = self.select_subtype(guess, 0, 0).log_base_q;
        self.code_by(base);
    }

    fn code_by(&mut self, base: i64)
        ensures { self.new ≡ record self.old { state = in_first (Some base) self.old.state } }
    {
        self.state.init_first_pass(Some(base));
    }

    /// Begins a second pass with the summary of a first, at the session's start and where no summary was given before. A first
    /// pass that is on goes on beside it.
    ///
    /// # Errors
    ///
    /// Want of memory for the metrics of the frames ahead, where a reservoir's delay was set. Then nothing has changed.
    pub fn begin_second_pass(&mut self, summary: &RCSummary) -> Result<(), OutOfMemory>
        ensures tables { self.new.tables ≡ self.old.tables }
        ensures keeps { MatchResult result
            (λ _. (enc : Settings) (tables : Tables) (passes : Passes) →
            Keeps enc tables passes [] self.old → passes.given.header ≡ None →
            Keeps enc tables (second_begun enc passes summary.now) [] self.new)
            (λ _. self.new ≡ self.old) }
        ensures memory { IfErr result (λ _. WantsMemory self.old.state self.new.state) }
    {
        self.go_by(summary)
    }

    fn go_by(&mut self, summary: &RCSummary) -> Result<(), OutOfMemory>
        ensures state { MatchResult result
            (λ _. self.new ≡ record self.old {
              state = with_summary summary.now (in_second self.old.state);
            })
            (λ _. self.new ≡ self.old) }
        ensures memory { IfErr result (λ _. WantsMemory self.old.state self.new.state) }
    {
        self.state.init_second_pass()?;
        self.state.setup_second_pass(summary);
        Ok(())
    }
}

// ---- what a second pass is given

impl SessionRate {
    /// Whether the data of the last entry was taken, where a first pass is on, and the next frame's metrics are there, where a
    /// second is.
    pub fn is_ready(&self) -> bool
        ensures { (enc : Settings) (tables : Tables) (passes : Passes) (log : List Entry) →
            Keeps enc tables passes log self.now → result ≡ is_ready_at (rate_at enc passes log) }
    {
        self.ready()
    }

    fn ready(&self) -> bool
        ensures { result ≡ is_ready_at self.now.state }
    {
        self.state.ready()
    }

    /// Of how many frames metrics are needed before the next frame can be coded in a second pass.
    pub fn frames_needed(&self) -> i32
        ensures { (enc : Settings) (tables : Tables) (passes : Passes) (log : List Entry) →
            Keeps enc tables passes log self.now →
            result ≡ frames_needed_at (rate_at enc passes log) }
    {
        self.needed()
    }

    fn needed(&self) -> i32
        ensures { result ≡ frames_needed_at self.now.state }
    {
        self.state.twopass_in_frames_needed()
    }

    /// How many bytes are wanted of a summary and of frames' metrics. Where nothing is coded this begins a second pass.
    /// Without a bitrate, and where something is coded without a summary, it is 0, and none begins.
    ///
    /// # Errors
    ///
    /// `OutOfMemory` where there is none for the metrics of the frames ahead; then nothing has changed.
    pub fn bytes_needed(&mut self) -> Result<usize, PassDataError>
        ensures tables { self.new.tables ≡ self.old.tables }
        ensures answer { (enc : Settings) (tables : Tables) (passes : Passes) (log : List Entry) →
            Keeps enc tables passes log self.old →
            IsAnswered (asked (rate_at enc passes log)) (rate_at enc passes log) self.new.state result }
        ensures keeps { (enc : Settings) (tables : Tables) (passes : Passes) (log : List Entry) →
            Keeps enc tables passes log self.old →
            Keeps enc tables (passes_of self.new.state) log self.new }
        ensures memory { result ≡ Err PassDataError.OutOfMemory →
            RunsOut self.old.state self.new.state }
    {
        self.ask()
    }

    fn ask(&mut self) -> Result<usize, PassDataError>
        ensures others { self.new ≡ record self.old { state = self.new.state } }
        ensures answer { IsAnswered (asked self.old.state) self.old.state self.new.state result }
        ensures memory { result ≡ Err PassDataError.OutOfMemory →
            RunsOut self.old.state self.new.state }
    {
        self.state.twopass_in(None)
    }

    /// Takes bytes of a summary and of frames' metrics, as far as they are wanted, and gives how many it took; those that it
    /// did not take are to be offered again. Where nothing is coded this begins a second pass. Without a bitrate, and where
    /// something is coded without a summary, it takes none, and none begins.
    ///
    /// # Errors
    ///
    /// `Corrupted`, `BadPacket` or `TooManyFrames` for the first summary or metrics that are refused; what was taken before
    /// them stays, and their bytes are let go. `OutOfMemory` where there is none for the metrics of the frames ahead, and then
    /// nothing has changed.
    pub fn give_bytes(&mut self, bytes: &[u8]) -> Result<usize, PassDataError>
        ensures tables { self.new.tables ≡ self.old.tables }
        ensures answer { (enc : Settings) (tables : Tables) (passes : Passes) (log : List Entry) →
            Keeps enc tables passes log self.old →
            IsAnswered (taken_in bytes.now (rate_at enc passes log)) (rate_at enc passes log)
            self.new.state result }
        ensures keeps { (enc : Settings) (tables : Tables) (passes : Passes) (log : List Entry) →
            Keeps enc tables passes log self.old → IsLog log → IsCodedForGood log →
            Keeps enc tables (passes_of self.new.state) log self.new }
        ensures memory { result ≡ Err PassDataError.OutOfMemory →
            RunsOut self.old.state self.new.state }
    {
        self.take_bytes(bytes)
    }

    fn take_bytes(&mut self, bytes: &[u8]) -> Result<usize, PassDataError>
        ensures others { self.new ≡ record self.old { state = self.new.state } }
        ensures answer { IsAnswered (taken_in bytes.now self.old.state) self.old.state
            self.new.state result }
        ensures memory { result ≡ Err PassDataError.OutOfMemory →
            RunsOut self.old.state self.new.state }
    {
        self.state.twopass_in(Some(bytes))
    }

    /// Takes the metrics of a frame, 8 bytes. Where they are refused nothing changes.
    ///
    /// # Errors
    ///
    /// The first of `WrongSize`, `BadPacket`, `NotNeeded` and `TooManyFrames` that holds.
    pub fn send_packet(&mut self, bytes: &[u8]) -> Result<(), PassDataError>
        ensures tables { self.new.tables ≡ self.old.tables }
        ensures answer { (enc : Settings) (tables : Tables) (passes : Passes) (log : List Entry) →
            Keeps enc tables passes log self.old →
            result ≡ verdict (packet_sent enc passes log bytes.now).refused }
        ensures keeps { (enc : Settings) (tables : Tables) (passes : Passes) (log : List Entry) →
            Keeps enc tables passes log self.old →
            Keeps enc tables (record passes { given = (packet_sent enc passes log bytes.now).given })
            log self.new }
    {
        self.take_packet(bytes)
    }

    fn take_packet(&mut self, bytes: &[u8]) -> Result<(), PassDataError>
        ensures { let state = self.old.state in
            let o = sent (int_lt (pos 0) (frames_needed_at state)) bytes.now state.given in
            (self.new ≡ record self.old { state = record state { given = o.given } })
            × (result ≡ verdict o.refused) }
    {
        self.state.send_packet(bytes)
    }
}

// ---- what a first pass hands on

impl SessionRate {
    /// Whether the data of the last entry waits to be taken. Then `take_data` gives that, 8 bytes, or nothing; else it gives a
    /// summary or nothing.
    pub fn gives_frame(&self) -> bool
        ensures { (enc : Settings) (tables : Tables) (passes : Passes) (log : List Entry) →
            Keeps enc tables passes log self.now → result ≡ gives_frame_at (rate_at enc passes log) }
    {
        self.has_data()
    }

    fn has_data(&self) -> bool
        ensures { result ≡ gives_frame_at self.now.state }
    {
        self.state.gives_frame()
    }

    /// Gives the data of the last entry, while it waits to be taken, and, once all is `done`, the summary, once: 8 bytes or 68.
    /// Without a bitrate there is nothing.
    pub fn take_data(&mut self, done: bool) -> Option<ArrayVec<u8, 68>>
        ensures tables { self.new.tables ≡ self.old.tables }
        ensures keeps { (enc : Settings) (tables : Tables) (passes : Passes) (log : List Entry) →
            Keeps enc tables passes log self.old →
            Keeps enc tables (passes_of (given_out done (rate_at enc passes log))) log self.new }
        ensures frame { (enc : Settings) (tables : Tables) (passes : Passes) (log : List Entry) →
            Keeps enc tables passes log self.old →
            let rate = rate_at enc passes log in
            IsTrue (gives_frame_at rate) → MatchOption result (frame_emitted rate ≡ None)
            (λ bytes. MatchOption (frame_emitted rate) ⊥ (λ m. Metric bytes.items m)) }
        ensures summary { (enc : Settings) (tables : Tables) (passes : Passes) (log : List Entry) →
            Keeps enc tables passes log self.old →
            let rate = rate_at enc passes log in
            IsTrue (gives_summary done rate) →
            MatchOption result ⊥ (λ bytes. IsSummaryOf rate bytes.items) }
        ensures nothing { (enc : Settings) (tables : Tables) (passes : Passes) (log : List Entry) →
            Keeps enc tables passes log self.old →
            let rate = rate_at enc passes log in
            gives_frame_at rate ≡ false → gives_summary done rate ≡ false → IsNone result }
    {
        self.hand_out(done)
    }

    fn hand_out(&mut self, done: bool) -> Option<ArrayVec<u8, 68>>
        ensures state { self.new ≡ record self.old { state = given_out done self.old.state } }
        ensures frame { let rate = self.old.state in
            IsTrue (gives_frame_at rate) → MatchOption result (frame_emitted rate ≡ None)
            (λ bytes. MatchOption (frame_emitted rate) ⊥ (λ m. Metric bytes.items m)) }
        ensures summary { let rate = self.old.state in
            IsTrue (gives_summary done rate) →
            MatchOption result ⊥ (λ bytes. IsSummaryOf rate bytes.items) }
        ensures nothing { let rate = self.old.state in
            gives_frame_at rate ≡ false → gives_summary done rate ≡ false → IsNone result }
    {
        self.state.twopass_out(done)
    }
}
