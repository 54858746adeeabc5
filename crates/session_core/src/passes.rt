// What a session in two passes does beside the calls of one pass: how its passes begin, when a receive waits for pass data, and
// how that is taken and given.
ghost use Rattle.std.specs.Prelude.{◌≡◌, ◌≤◌, ◌^◌, ℕ, None, Err, IfOk, IfErr, IsErr, IsOk, IsSome, OnOk, false, true, if◌then◌else◌};
ghost use Rattle.session_core.specs.declared.call.Call.TheVariants.{Flush};
ghost use Rattle.session_core.specs.declared.transcript.Reply.TheVariants.{Flushed};
ghost use Rattle.av1_settings.specs.declared.encoder.EncoderConfig.{EncoderConfig as Settings};
ghost use Rattle.av1_settings.specs.Checks.{IsValid};
ghost use Rattle.pass_data.specs.Given.{verdict};
ghost use Rattle.pass_data.specs.declared.rc_data.RcData.TheVariants.{Frame, Summary};
ghost use Rattle.pass_data.specs.declared.error.PassDataError.{PassDataError as Refusal};
ghost use Rattle.ratecontrol.specs.Passes.{IsAnswered, RunsOut, asked, frames_needed, taken_in};
ghost use Rattle.session_log.specs.Passes.{first_begun, packet_sent};
ghost use Rattle.session_core.specs.declared.fault.SessionFault.TheVariants.{Coder, OutOfMemory as NoMemory, PassData};
ghost use Rattle.session_core.specs.Moments.{opening};
ghost use Rattle.session_core.specs.PassStates.{FailsPass, IsBegun, IsPassCall, IsReadyTurn, at_state};
ghost use Rattle.session_core.specs.PassTurns.{IsPassData, after_given, after_taken, awaits_data, first_of, is_done, passes_begun, rate_of};
ghost use Rattle.session_core.specs.Quantisers.{gop_start_at, guess_at};
ghost use Rattle.session_core.specs.States.{moment_of, passes_at, IsKept, IsReady};
ghost use Rattle.session_core.specs.Steps.{Fails, Unused, WhereRefused};
ghost use Rattle.session_core.specs.Told.{heard, IsLater};

use crate::guess::OpeningGuess;
use crate::state::SessionState;
use crate::{
    Call, Detector, FrameCoder, MeanScale, PassCall, PassDataError, PassTurn, RcData, Reply,
    SessionFault, Turn,
};
use arrayvec::ArrayVec;
use av1_settings::{EncoderConfig, EncoderStatus, RateControlConfig};
use coding_base::OutOfMemory;
use session_log::QTables;
use std::alloc::Global;

impl<T: Drop, O: Drop> SessionState<T, O> {
    /// A session that hasn't begun, with the passes that a configuration asks for.
    pub(crate) fn begin(
        alloc: Global,
        enc: &EncoderConfig,
        tables: &QTables,
        control: &RateControlConfig,
    ) -> Result<SessionState<T, O>, OutOfMemory>
        requires valid { IsValid enc.now }
        ensures moment { IfOk result (λ state. moment_of state ≡ opening) }
        ensures kept { IfOk result (λ state. IsKept enc.now state) }
        ensures tables { IfOk result (λ state. state.rate.tables ≡ tables.now) }
        ensures passes { IfOk result (λ state.
            passes_at state ≡ passes_begun enc.now tables.now control.now) }
        ensures memory { IsErr result →
            IsSome control.now.summary × IsSome enc.now.reservoir_frame_delay }
    {
        let mut state = SessionState::with_first_pass(alloc, enc, tables, control.emit_data);
        if let Some(summary) = &control.summary {
            state.rate.begin_second_pass(summary)?;
        }
        Ok(state)
    }

    // The same without a second pass; the first is on where pass data is asked for.
    fn with_first_pass(
        alloc: Global,
        enc: &EncoderConfig,
        tables: &QTables,
        emits: bool,
    ) -> SessionState<T, O>
        requires valid { IsValid enc.now }
        ensures begun { IsBegun enc.now tables.now (first_of enc.now tables.now emits) result }
        ensures delay { result.rate.state.set_delay ≡ enc.now.reservoir_frame_delay }
    {
        let mut state = SessionState::new(alloc, enc, tables);
        if emits {
            state.begin_first_pass(enc);
        }
        state
    }

    // Begins a first pass, where nothing is known of the frames yet.
    fn begin_first_pass(&mut self, enc: &EncoderConfig)
        requires opens { moment_of self.old ≡ opening }
        requires kept { IsKept enc.now self.old }
        ensures others { self.new ≡ record self.old { rate = self.new.rate } }
        ensures tables { self.new.rate.tables ≡ self.old.rate.tables }
        ensures passes { passes_at self.new
            ≡ first_begun enc.now self.old.rate.tables (passes_at self.old)
            (guess_at {T = Unit {0}} {O = Unit {0}} enc.now opening)
            (gop_start_at {T = Unit {0}} {O = Unit {0}} enc.now opening) }
        ensures kept { IsKept enc.now self.new }
    {
        let guess = OpeningGuess {
            enc,
            schedule: &self.schedule,
        };
        self.rate.begin_first_pass(&guess);
    }

    /// Whether it is flushed and every frame's packet was given.
    pub(crate) fn is_done(&self) -> bool
        ensures { result ≡ is_done (moment_of self.now) }
    {
        self.flushed && self.is_complete()
    }
}

impl<T: Drop, O: Drop> SessionState<T, O> {
    /// What one call answers and codes, where a receive may wait for pass data.
    pub(crate) fn ready_turn<D: Detector<T>, S: MeanScale<T>, C: FrameCoder<T>>(
        &mut self,
        alloc: Global,
        enc: &EncoderConfig,
        detector: &mut D,
        scales: &mut S,
        coder: &mut C,
        call: Call<T, O>,
    ) -> Result<Turn<T, O>, SessionFault>
        requires ready { IsReady enc.now (moment_of self.old) }
        requires kept { IsKept enc.now self.old }
        ensures turn { IfOk result (λ turn.
            IsReadyTurn enc.now self.old.rate.tables call turn (at_state self.old)
            (at_state self.new)
            (heard (C.told coder.old) (D.told detector.old) (S.told scales.old))
            (heard (C.told coder.new) (D.told detector.new) (S.told scales.new))) }
        ensures refused { IfOk result (λ turn.
            WhereRefused turn.reply ((self.new ≡ self.old)
            × (detector.new ≡ detector.old) × (scales.new ≡ scales.old)
            × (coder.new ≡ coder.old))) }
        ensures unused { Unused call (detector.new ≡ detector.old)
            ((coder.new ≡ coder.old) × (scales.new ≡ scales.old)) }
        ensures tables { self.new.rate.tables ≡ self.old.rate.tables }
        ensures kept { OnOk result (IsKept enc.now self.new) }
        ensures stays { (number : ℕ) → result ≡ Err (Coder number)
            → moment_of self.new ≡ moment_of self.old }
        ensures failed { IfErr result (λ fault.
            (awaits_data enc.now (at_state self.old) call ≡ false)
            × Fails enc.now self.old.rate.tables (passes_at self.old) call (moment_of self.old)
            (heard (C.told coder.old) (D.told detector.old) (S.told scales.old))
            (heard (C.told coder.new) (D.told detector.new) (S.told scales.new)) fault) }
        ensures again { call ≡ Flush
            → self.old.flushed ≡ true
            → IfOk result (λ turn. turn.reply ≡ Flushed) × IsOk result
            × (self.new ≡ self.old) × (detector.new ≡ detector.old) }
        ensures later { IsLater (heard (C.told coder.old) (D.told detector.old) (S.told scales.old))
            (heard (C.told coder.new) (D.told detector.new) (S.told scales.new)) }
    {
        if self.awaits_data(enc, &call) {
            return Ok(self.without_log(alloc, Reply::Status(EncoderStatus::NotReady)));
        }
        self.turn(alloc, enc, detector, scales, coder, call)
    }

    // Whether a call waits for pass data.
    fn awaits_data(&self, enc: &EncoderConfig, call: &Call<T, O>) -> bool
        requires kept { IsKept enc.now self.now }
        ensures { result ≡ awaits_data enc.now (at_state self.now) call.now }
    {
        match call {
            Call::Receive => self.held_back(enc).is_none() && !self.rate.is_ready(),
            Call::Send(..) | Call::Flush => false,
        }
    }

    /// What one call of a session in two passes does.
    pub(crate) fn pass_turn<D: Detector<T>, S: MeanScale<T>, C: FrameCoder<T>>(
        &mut self,
        alloc: Global,
        enc: &EncoderConfig,
        detector: &mut D,
        scales: &mut S,
        coder: &mut C,
        call: PassCall<T, O>,
    ) -> Result<PassTurn<T, O>, SessionFault>
        requires ready { IsReady enc.now (moment_of self.old) }
        requires kept { IsKept enc.now self.old }
        ensures turn { IfOk result (λ turn.
            IsPassCall enc.now self.old.rate.tables call turn (at_state self.old)
            (at_state self.new)
            (heard (C.told coder.old) (D.told detector.old) (S.told scales.old))
            (heard (C.told coder.new) (D.told detector.new) (S.told scales.new))) }
        ensures tables { self.new.rate.tables ≡ self.old.rate.tables }
        ensures kept { OnOk result (IsKept enc.now self.new) }
        ensures failed { IfErr result (λ fault.
            FailsPass enc.now self.old.rate.tables call (at_state self.old)
            (heard (C.told coder.old) (D.told detector.old) (S.told scales.old))
            (heard (C.told coder.new) (D.told detector.new) (S.told scales.new)) fault) }
        ensures later { IsLater (heard (C.told coder.old) (D.told detector.old) (S.told scales.old))
            (heard (C.told coder.new) (D.told detector.new) (S.told scales.new)) }
    {
        match call {
            PassCall::Call(call) => {
                match self.ready_turn(alloc, enc, detector, scales, coder, call) {
                    Ok(turn) => Ok(PassTurn::Turn(turn)),
                    Err(fault) => Err(fault),
                }
            }
            PassCall::Take => Ok(PassTurn::Taken(self.take_data())),
            PassCall::Give(message) => match self.give(message.as_slice()) {
                Ok(()) => Ok(PassTurn::Given),
                Err(refusal) => Err(SessionFault::PassData(refusal)),
            },
        }
    }
}

impl<T: Drop, O: Drop> SessionState<T, O> {
    /// Takes what the first pass hands on: the data of the last entry while it waits, or, once all is done, the summary, once.
    pub(crate) fn take_data(&mut self) -> Option<RcData>
        ensures message { (enc : Settings) → IsKept enc self.old →
            IsPassData (is_done (moment_of self.old)) (rate_of enc (at_state self.old)) result }
        ensures after { (enc : Settings) → IsKept enc self.old →
            at_state self.new ≡ after_taken enc (at_state self.old) }
        ensures tables { self.new.rate.tables ≡ self.old.rate.tables }
        ensures kept { (enc : Settings) → IsKept enc self.old → IsKept enc self.new }
    {
        let done = self.is_done();
        let is_frame = self.rate.gives_frame();
        let bytes = self.rate.take_data(done)?;
        Some(pass_data(is_frame, bytes))
    }

    /// Gives the second pass the metrics of a frame.
    pub(crate) fn give(&mut self, message: &[u8]) -> Result<(), PassDataError>
        ensures answer { (enc : Settings) → IsKept enc self.old →
            result ≡ verdict
            (packet_sent enc (passes_at self.old) (moment_of self.old).log message.now).refused }
        ensures after { (enc : Settings) → IsKept enc self.old →
            at_state self.new ≡ after_given enc (at_state self.old) message.now }
        ensures tables { self.new.rate.tables ≡ self.old.rate.tables }
        ensures kept { (enc : Settings) → IsKept enc self.old → IsKept enc self.new }
    {
        self.rate.send_packet(message)
    }

    /// How many bytes of a summary and of frames' metrics are wanted. Where nothing is coded this begins a second pass.
    pub(crate) fn bytes_needed(&mut self) -> Result<usize, PassDataError>
        ensures answer { (enc : Settings) → IsKept enc self.old →
            IsAnswered (asked (rate_of enc (at_state self.old))) (rate_of enc (at_state self.old))
            self.new.rate.state result }
        ensures others { self.new ≡ record self.old { rate = self.new.rate } }
        ensures tables { self.new.rate.tables ≡ self.old.rate.tables }
        ensures kept { (enc : Settings) → IsKept enc self.old → IsKept enc self.new }
    {
        self.rate.bytes_needed()
    }

    /// Gives bytes of a summary and of frames' metrics, and says how many were taken. Where nothing is coded this begins a
    /// second pass.
    pub(crate) fn give_bytes(&mut self, bytes: &[u8]) -> Result<usize, PassDataError>
        requires few { self.old.commands ≤ 2 ^ 32 }
        ensures answer { (enc : Settings) → IsKept enc self.old →
            IsAnswered (taken_in bytes.now (rate_of enc (at_state self.old)))
            (rate_of enc (at_state self.old)) self.new.rate.state result }
        ensures others { self.new ≡ record self.old { rate = self.new.rate } }
        ensures tables { self.new.rate.tables ≡ self.old.rate.tables }
        ensures kept { (enc : Settings) → IsKept enc self.old → IsKept enc self.new }
    {
        self.rate.give_bytes(bytes)
    }

    /// Of how many frames metrics are wanted before the next can be coded.
    pub(crate) fn frames_needed(&self) -> i32
        ensures { (enc : Settings) → IsKept enc self.now →
            result ≡ frames_needed (rate_of enc (at_state self.now)) }
    {
        self.rate.frames_needed()
    }
}

// A frame's metrics, or a summary.
fn pass_data(is_frame: bool, bytes: ArrayVec<u8, 68>) -> RcData
    ensures { result ≡ (if is_frame then Frame bytes else Summary bytes) }
{
    if is_frame {
        RcData::Frame(bytes)
    } else {
        RcData::Summary(bytes)
    }
}
