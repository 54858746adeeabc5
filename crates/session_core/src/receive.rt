// What a receive does to a session: whether it codes, and which command.
ghost use Rattle.std.specs.Prelude.{◌≡◌, ◌+◌, ◌≤◌, ◌^◌, ◌++◌, All, ℕ, Err, IfOk, IfErr, None, OnOk, Some, length, map, true};
ghost use Rattle.std.specs.List.{flat_map, slice_get};
ghost use Rattle.pyramid.specs.Known.{is_coding};
ghost use Rattle.session_core.specs.declared.call.Call.TheVariants.{Receive};
ghost use Rattle.session_core.specs.declared.fault.SessionFault.TheVariants.{Coder};
ghost use Rattle.session_core.specs.Moments.{Moment, is_complete, known_at, plan_at};
ghost use Rattle.session_core.specs.Quantisers.{IsQuantised, passes_behind};
ghost use Rattle.session_core.specs.Scales.{AreScaled, IsScaled, frame_of, picture_at, scale_list};
ghost use Rattle.session_core.specs.States.{moment_of, passes_at, CanCode, FailsCoding, IsAdvanced, IsCodedTurn, IsDue, IsKept, IsRatedBehind, IsReady, IsTried};
ghost use Rattle.session_core.specs.Steps.{Fails, WhereRefused};
ghost use Rattle.session_core.specs.Taken.{IsTaken, handed_at, packet_of};
ghost use Rattle.session_core.specs.Told.{Counts, DetectorTold, IsCoderLater, IsScalesLater, heard};
ghost use Rattle.session_core.specs.Turns.{IsTurn, after_receive, frame_limit, held_back, needs_more_data};

use crate::state::SessionState;
use crate::{FrameCoder, LogList, MeanScale, Reply, SessionFault, Turn};
use av1_settings::{EncoderConfig, EncoderStatus};
use coding_base::OutOfMemory;
use pyramid::Command;
use std::alloc::Global;

// The most that a mean scale counts for, either way: 16 in Q57.
const MOST_SCALE: i64 = 1 << 61;

impl<T: Drop, O: Drop> SessionState<T, O> {
    /// Has the coder carry out the plan's next command, if it is known, and answers it.
    pub(crate) fn receive<S: MeanScale<T>, C: FrameCoder<T>>(
        &mut self,
        alloc: Global,
        enc: &EncoderConfig,
        scales: &mut S,
        coder: &mut C,
    ) -> Result<Turn<T, O>, SessionFault>
        requires ready { IsReady enc.now (moment_of self.old) }
        requires kept { IsKept enc.now self.old }
        ensures turn { IfOk result (λ turn.
            IsTurn enc.now self.new.decisions.items (moment_of self.old) Receive turn) }
        ensures after { IfOk result (λ turn.
            moment_of self.new ≡ after_receive (moment_of self.old) turn.log turn.reply) }
        ensures same { OnOk result (self.new.decisions.items ≡ self.old.decisions.items) }
        ensures kept { OnOk result (IsKept enc.now self.new) }
        ensures tables { self.new.rate.tables ≡ self.old.rate.tables }
        ensures quantised { IfOk result
            (IsQuantised enc.now self.old.rate.tables (passes_at self.old) (moment_of self.old)) }
        ensures passes { IfOk result (λ turn.
            passes_at self.new
            ≡ passes_behind enc.now (passes_at self.old) (moment_of self.old).log turn.log) }
        ensures refused { IfOk result (λ turn.
            WhereRefused turn.reply ((self.new ≡ self.old) × (scales.new ≡ scales.old)
            × (coder.new ≡ coder.old))) }
        ensures taken { IfOk result (λ turn.
            IsTaken (flat_map (handed_at (moment_of self.old)) turn.log) turn.log
            (packet_of turn.reply) (C.told coder.old) (C.told coder.new)) }
        ensures counted { IfOk result (λ turn.
            Counts (C.told coder.old).fails_after (C.told coder.new).fails_after
            (length turn.log)) }
        ensures scaled { IfOk result (λ turn.
            IsScaled (moment_of self.old) turn.log (S.told scales.old) (S.told scales.new)) }
        ensures stays { (number : ℕ) → result ≡ Err (Coder number)
            → moment_of self.new ≡ moment_of self.old }
        ensures failed { IfErr result (λ fault. (detector : DetectorTold T) →
            Fails enc.now self.old.rate.tables (passes_at self.old) Receive (moment_of self.old)
            (heard (C.told coder.old) detector (S.told scales.old))
            (heard (C.told coder.new) detector (S.told scales.new)) fault) }
        ensures later { IsCoderLater (C.told coder.old) (C.told coder.new) }
        ensures scales_later { IsScalesLater (S.told scales.old) (S.told scales.new) }
    {
        if let Some(reason) = self.held_back(enc) {
            return Ok(self.without_log(alloc, Reply::Status(reason)));
        }
        let Some(command) = self.schedule.next_command() else {
            unreachable!()
        };
        let mean_scale = self.mean_scale(alloc, scales, &command)?;
        let trials = match self.try_command(alloc, enc, coder, &command, mean_scale) {
            Ok(trials) => trials,
            Err(fault) => return Err(fault),
        };
        self.code_command(alloc, enc, coder, &command, mean_scale, trials)
    }

    // The mean scale of the frame that a command codes; 0 for a show.
    fn mean_scale<S: MeanScale<T>>(
        &self,
        alloc: Global,
        scales: &mut S,
        command: &Command,
    ) -> Result<i64, OutOfMemory>
        requires waits { self.now.packets + length self.now.waiting.items ≡ self.now.accepted }
        requires next { CanCode (moment_of self.now) command.now }
        ensures scaled { IfOk result (λ scale.
            AreScaled (frame_of (picture_at (moment_of self.now)) command.now)
            (scale_list command.now scale) (S.told scales.old) (S.told scales.new)) }
        ensures later { IsScalesLater (S.told scales.old) (S.told scales.new) }
    {
        match *command {
            Command::Code { frame, .. } => {
                let waiting = &self.waiting[(frame - self.packets) as usize];
                let scale = scales.log_isqrt_mean_scale(alloc, frame, &waiting.picture)?;
                Ok(scale.max(-MOST_SCALE).min(MOST_SCALE))
            }
            Command::Show { .. } => Ok(0),
        }
    }

    // Tries a command, where that is due, and has rate control take what it took.
    fn try_command<C: FrameCoder<T>>(
        &mut self,
        alloc: Global,
        enc: &EncoderConfig,
        coder: &mut C,
        command: &Command,
        mean_scale: i64,
    ) -> Result<LogList, SessionFault>
        requires waits { self.old.packets + length self.old.waiting.items ≡ self.old.accepted }
        requires next { CanCode (moment_of self.old) command.now }
        requires due { IsDue enc.now (moment_of self.old) self.old.schedule }
        requires kept { IsKept enc.now self.old }
        requires room { self.old.commands + 2 ≤ 2 ^ 32 }
        ensures tried { IfOk result (λ trials.
            IsTried enc.now self.old.rate.tables (passes_at self.old) (moment_of self.old) command.now mean_scale trials
            (C.told coder.old) (C.told coder.new)) }
        ensures rated { IfOk result (λ trials.
            IsRatedBehind enc.now self.old.rate.tables (moment_of self.old) trials
            self.new.rate) }
        ensures passes { IfOk result (λ trials.
            passes_at self.new
            ≡ passes_behind enc.now (passes_at self.old) (moment_of self.old).log trials) }
        ensures others { self.new ≡ record self.old { rate = self.new.rate } }
        ensures tables { self.new.rate.tables ≡ self.old.rate.tables }
        ensures failed { IfErr result (λ fault.
            FailsCoding self.old.commands (C.told coder.old) (C.told coder.new) fault) }
        ensures later { IsCoderLater (C.told coder.old) (C.told coder.new) }
    {
        let mut trials = LogList::new(alloc);
        if !self.rate.is_trial_due(command) {
            return Ok(trials);
        }
        match self.code(alloc, enc, coder, command, true, mean_scale) {
            Ok(coded) => {
                self.rate.note(&coded.entry);
                trials.push(coded.entry)?;
                Ok(trials)
            }
            Err(fault) => Err(fault),
        }
    }

    // Codes a command for good, behind its tries, and answers it.
    fn code_command<C: FrameCoder<T>>(
        &mut self,
        alloc: Global,
        enc: &EncoderConfig,
        coder: &mut C,
        command: &Command,
        mean_scale: i64,
        trials: LogList,
    ) -> Result<Turn<T, O>, SessionFault>
        requires few { self.old.accepted ≤ frame_limit }
        requires waits { self.old.packets + length self.old.waiting.items ≡ self.old.accepted }
        requires next { CanCode (moment_of self.old) command.now }
        requires due { IsDue enc.now (moment_of self.old) self.old.schedule }
        requires rated { IsRatedBehind enc.now self.old.rate.tables (moment_of self.old)
            trials self.old.rate }
        requires room { self.old.commands + 2 ≤ 2 ^ 32 }
        requires tries { All (λ trial. trial.trial ≡ true) trials }
        requires single { length trials ≤ 1 }
        ensures coded { IfOk result (λ turn.
            IsCodedTurn enc.now self.old.rate.tables (passes_at self.old) (passes_at self.new)
            (moment_of self.old) command.now mean_scale
            trials turn (C.told coder.old) (C.told coder.new)) }
        ensures after { IfOk result (λ turn.
            moment_of self.new ≡ after_receive (moment_of self.old) turn.log turn.reply) }
        ensures last_key { self.new.last_key ≡ self.old.last_key }
        ensures schedule { OnOk result (IsAdvanced self.old.schedule self.new.schedule) }
        ensures rated { IfOk result (λ turn.
            IsRatedBehind enc.now self.old.rate.tables (moment_of self.old) turn.log
            self.new.rate) }
        ensures tables { self.new.rate.tables ≡ self.old.rate.tables }
        ensures stays { (number : ℕ) → result ≡ Err (Coder number)
            → moment_of self.new ≡ moment_of self.old }
        ensures failed { IfErr result (λ fault.
            FailsCoding self.old.commands (C.told coder.old) (C.told coder.new) fault) }
        ensures later { IsCoderLater (C.told coder.old) (C.told coder.new) }
    {
        let mut coded = match self.code(alloc, enc, coder, command, false, mean_scale) {
            Ok(coded) => coded,
            Err(fault) => return Err(fault),
        };
        let reply = self.answer(alloc, &mut coded)?;
        self.rate.note(&coded.entry);
        self.schedule.advance();
        let mut log = trials;
        log.push(coded.entry)?;
        self.remember(&log);
        Ok(Turn {
            reply,
            log,
            reservoir: self.rate.reservoir(),
        })
    }

    // Takes entries into the log that contracts read.
    fn remember(&mut self, log: &LogList)
        ensures log { moment_of self.new
            ≡ record (moment_of self.old) { log = (moment_of self.old).log ++ log.now } }
        ensures others { self.new ≡ record self.old { log = self.new.log } }
    {
        for entry in log.as_slice() {
            self.log = self.log.and(entry, &());
        }
    }

    /// Why a receive codes nothing.
    pub(crate) fn held_back(&self, enc: &EncoderConfig) -> Option<EncoderStatus>
        requires kept { IsKept enc.now self.now }
        ensures { result ≡ held_back enc.now (moment_of self.now) }
    {
        if self.flushed && self.is_complete() {
            return Some(EncoderStatus::LimitReached);
        }
        if self.needs_more_data(enc) {
            return Some(EncoderStatus::NeedMoreData);
        }
        None
    }

    /// Whether every accepted frame's packet was given.
    pub(crate) fn is_complete(&self) -> bool
        ensures { result ≡ is_complete (moment_of self.now) }
    {
        self.packets == self.accepted
    }

    /// Whether the lookahead wants more frames than are known.
    pub(crate) fn needs_more_data(&self, enc: &EncoderConfig) -> bool
        requires kept { IsKept enc.now self.now }
        ensures { result ≡ needs_more_data enc.now (moment_of self.now) }
    {
        if self.flushed {
            return false;
        }
        let known = self.schedule.coded_ahead();
        known <= enc.speed_settings.rdo_lookahead_frames as u64
    }
}
