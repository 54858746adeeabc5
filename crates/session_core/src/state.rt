// The state of a session, and what a send and a flush do to it.
ghost use Rattle.std.specs.Prelude.{◌≡◌, ℕ, List, [], true, Ok, Err, IfOk, IfErr, IsOk, OnOk};
ghost use Rattle.av1_settings.specs.declared.encoder.EncoderConfig.{EncoderConfig as Settings};
ghost use Rattle.av1_settings.specs.Checks.{IsValid};
ghost use Rattle.quantizers.specs.Tables.{Tables};
ghost use Rattle.session_log.specs.declared.entry.LogEntry.{LogEntry as Entry};
ghost use Rattle.session_log.specs.Keeps.{Keeps};
ghost use Rattle.session_log.specs.Passes.{Passes, no_passes};
ghost use Rattle.session_log.specs.Selection.{reservoir_after};
ghost use Rattle.session_core.specs.declared.call.Call.TheVariants.{Flush};
ghost use Rattle.session_core.specs.declared.fault.SessionFault.TheVariants.{Coder};
ghost use Rattle.session_core.specs.declared.transcript.Reply.TheVariants.{Flushed};
ghost use Rattle.session_core.specs.Moments.{opening};
ghost use Rattle.session_core.specs.Quantisers.{passes_behind};
ghost use Rattle.session_core.specs.Questions.{IsAskedIn};
ghost use Rattle.session_core.specs.States.{moment_of, passes_at, IsKept, IsReady};
ghost use Rattle.session_core.specs.Steps.{Fails, IsStep, Unused, WhereRefused};
ghost use Rattle.session_core.specs.Told.{heard, IsDetectorLater, IsLater};
ghost use Rattle.session_core.specs.Turns.{Decides, accepted_of, after_flush, after_send, has_enough, sent_reply};

use crate::waiting::WaitingFrame;
use crate::{
    Call, Decision, Detector, FrameCoder, FrameParameters, LogEntry, LogList, MeanScale, Reply,
    SessionFault, Turn,
};
use av1_frame::Frame;
use av1_settings::{EncoderConfig, EncoderStatus};
use coding_base::OutOfMemory;
use http_server::Log;
use pyramid::{InterConfig, Schedule};
use session_log::{QTables, SessionRate};
use std::alloc::Global;
use std::collections::VecDeque;
use std::sync::Arc;

/// The most frames that a session accepts.
const FRAME_LIMIT: u64 = 2147483646;

/// All of a session but its detector and its coder, which its calls borrow.
#[derive(Drop)]
pub(crate) struct SessionState<T, O> {
    /// How many frames were accepted.
    pub(crate) accepted: u64,
    /// Whether no more frames come.
    pub(crate) flushed: bool,
    /// How many commands were coded.
    pub(crate) commands: u64,
    /// How many packets were given.
    pub(crate) packets: u64,
    /// The decisions made so far, by rising position.
    pub(crate) decisions: Vec<Decision>,
    /// The greatest position that is decided to be a key; 0, the first frame, where there is none.
    pub(crate) last_key: u64,
    /// The known places from that of the next command on.
    pub(crate) schedule: Schedule,
    /// The frames whose packets aren't given, in order.
    pub(crate) waiting: VecDeque<WaitingFrame<T, O>>,
    /// The bytes coded since the last packet.
    pub(crate) pending: Vec<u8>,
    /// The rate control.
    pub(crate) rate: SessionRate,
    /// All that the coder was asked for; for contracts alone, without memory.
    pub(crate) log: Log<LogEntry, ()>,
}

impl<T, O> SessionState<T, O> {
    pub(crate) fn new(alloc: Global, enc: &EncoderConfig, tables: &QTables) -> SessionState<T, O>
        requires valid { IsValid enc.now }
        ensures moment { moment_of result ≡ opening }
        ensures kept { IsKept enc.now result }
        ensures tables { result.rate.tables ≡ tables.now }
        ensures passes { passes_at result ≡ no_passes }
    {
        let schedule = Schedule::new(alloc, InterConfig::new(enc), enc.key_frame_interval());
        SessionState {
            accepted: 0,
            flushed: false,
            commands: 0,
            packets: 0,
            decisions: Vec::new(alloc),
            last_key: 0,
            schedule,
            waiting: VecDeque::new(alloc),
            pending: Vec::new(alloc),
            rate: SessionRate::new(alloc, enc, tables),
            log: Log::new(),
        }
    }
}

impl<T: Drop, O: Drop> SessionState<T, O> {
    /// What one call answers and codes.
    pub(crate) fn turn<D: Detector<T>, S: MeanScale<T>, C: FrameCoder<T>>(
        &mut self,
        alloc: Global,
        enc: &EncoderConfig,
        detector: &mut D,
        scales: &mut S,
        coder: &mut C,
        call: Call<T, O>,
    ) -> Result<Turn<T, O>, SessionFault>
        requires ready { IsReady enc.now (moment_of self.old) }
        requires kept { IsKept enc.now self.old }
        ensures step { IfOk result (λ turn.
            IsStep enc.now self.old.rate.tables (passes_at self.old) call turn (moment_of self.old) (moment_of self.new)
            (heard (C.told coder.old) (D.told detector.old) (S.told scales.old))
            (heard (C.told coder.new) (D.told detector.new) (S.told scales.new))) }
        ensures passes { IfOk result (λ turn.
            passes_at self.new
            ≡ passes_behind enc.now (passes_at self.old) (moment_of self.old).log turn.log) }
        ensures refused { IfOk result (λ turn.
            WhereRefused turn.reply ((self.new ≡ self.old)
            × (detector.new ≡ detector.old) × (scales.new ≡ scales.old)
            × (coder.new ≡ coder.old))) }
        ensures unused { Unused call (detector.new ≡ detector.old)
            ((coder.new ≡ coder.old) × (scales.new ≡ scales.old)) }
        ensures tables { self.new.rate.tables ≡ self.old.rate.tables }
        ensures kept { OnOk result (IsKept enc.now self.new) }
        ensures stays { (number : ℕ) → result ≡ Err (Coder number)
            → moment_of self.new ≡ moment_of self.old }
        ensures failed { IfErr result (λ fault.
            Fails enc.now self.old.rate.tables (passes_at self.old) call (moment_of self.old)
            (heard (C.told coder.old) (D.told detector.old) (S.told scales.old))
            (heard (C.told coder.new) (D.told detector.new) (S.told scales.new)) fault) }
        ensures again { call ≡ Flush
            → self.old.flushed ≡ true
            → IfOk result (λ turn. turn.reply ≡ Flushed) × IsOk result
            × (self.new ≡ self.old) × (detector.new ≡ detector.old) }
        ensures later { IsLater (heard (C.told coder.old) (D.told detector.old) (S.told scales.old))
            (heard (C.told coder.new) (D.told detector.new) (S.told scales.new)) }
    {
        let reply = match call {
            Call::Send(frame, parameters) => self.send(alloc, enc, detector, frame, parameters)?,
            Call::Flush => self.flush(alloc, enc, detector)?,
            Call::Receive => return self.receive(alloc, enc, scales, coder),
        };
        Ok(self.without_log(alloc, reply))
    }

    /// A turn with nothing coded.
    pub(crate) fn without_log(&self, alloc: Global, reply: Reply<T, O>) -> Turn<T, O>
        ensures reply { result.reply ≡ reply }
        ensures log { result.log ≡ [] }
        ensures reservoir { (enc : Settings) (tables : Tables) (passes : Passes)
            (log : List Entry) →
            Keeps enc tables passes log self.now.rate →
            result.reservoir ≡ reservoir_after enc passes log }
    {
        Turn {
            reply,
            log: LogList::new(alloc),
            reservoir: self.rate.reservoir(),
        }
    }

    // Accepts a frame, and decides the position that has enough frames behind it now.
    fn send<D: Detector<T>>(
        &mut self,
        alloc: Global,
        enc: &EncoderConfig,
        detector: &mut D,
        frame: Arc<Frame<T>>,
        parameters: Option<FrameParameters<O>>,
    ) -> Result<Reply<T, O>, OutOfMemory>
        requires ready { IsReady enc.now (moment_of self.old) }
        requires kept { IsKept enc.now self.old }
        ensures reply { IfOk result
            (λ reply. reply ≡ sent_reply enc.now (moment_of self.old) frame.value) }
        ensures after { IfOk result (λ reply.
            moment_of self.new
            ≡ after_send enc.now self.new.decisions.items (moment_of self.old)
            (accepted_of frame.value parameters) reply) }
        ensures decides { OnOk result (Decides enc.now (moment_of self.old) (moment_of self.new)) }
        ensures kept { OnOk result (IsKept enc.now self.new) }
        ensures rate { self.new.rate ≡ self.old.rate }
        ensures asked { OnOk result (IsAskedIn enc.now (moment_of self.old)
            (moment_of self.new) (D.told detector.old).questions
            (D.told detector.new).questions (D.told detector.old).answers) }
        ensures refused { IfOk result (λ reply.
            WhereRefused reply ((self.new ≡ self.old) × (detector.new ≡ detector.old))) }
        ensures later { IsDetectorLater (D.told detector.old) (D.told detector.new) }
    {
        if self.has_enough(enc) {
            return Ok(Reply::Status(EncoderStatus::EnoughData));
        }
        if !frame.fits(enc.width, enc.height, enc.chroma_sampling) {
            return Ok(Reply::Status(EncoderStatus::FrameSizeMismatch));
        }
        let number = self.accepted;
        self.waiting
            .push_back(WaitingFrame::new(alloc, frame, parameters)?)?;
        if number == 0 {
            self.schedule.note_key(0)?;
        }
        self.accepted = number + 1;
        let last = self
            .accepted
            .saturating_sub(InterConfig::new(enc).ahead() + 1);
        self.decide(
            alloc,
            enc.speed_settings.scene_detection_mode,
            detector,
            last,
        )?;
        self.schedule.extend(self.accepted)?;
        Ok(Reply::Sent(number))
    }

    // Whether no further frame is taken.
    fn has_enough(&self, enc: &EncoderConfig) -> bool
        ensures { result ≡ has_enough enc.now (moment_of self.now) }
    {
        self.flushed || (enc.still_picture && self.accepted >= 1) || self.accepted == FRAME_LIMIT
    }

    // Takes no further frame, and decides all positions that are left.
    fn flush<D: Detector<T>>(
        &mut self,
        alloc: Global,
        enc: &EncoderConfig,
        detector: &mut D,
    ) -> Result<Reply<T, O>, OutOfMemory>
        requires ready { IsReady enc.now (moment_of self.old) }
        requires kept { IsKept enc.now self.old }
        ensures reply { IfOk result (λ reply. reply ≡ Flushed) }
        ensures after { OnOk result (
            moment_of self.new
            ≡ after_flush enc.now self.new.decisions.items (moment_of self.old)) }
        ensures decides { OnOk result (Decides enc.now (moment_of self.old) (moment_of self.new)) }
        ensures kept { OnOk result (IsKept enc.now self.new) }
        ensures rate { self.new.rate ≡ self.old.rate }
        ensures asked { OnOk result (IsAskedIn enc.now (moment_of self.old)
            (moment_of self.new) (D.told detector.old).questions
            (D.told detector.new).questions (D.told detector.old).answers) }
        ensures again { self.old.flushed ≡ true
            → (result ≡ Ok Flushed) × (self.new ≡ self.old) × (detector.new ≡ detector.old) }
        ensures later { IsDetectorLater (D.told detector.old) (D.told detector.new) }
    {
        if self.flushed {
            return Ok(Reply::Flushed);
        }
        self.flushed = true;
        let last = self.accepted.saturating_sub(1);
        self.decide(
            alloc,
            enc.speed_settings.scene_detection_mode,
            detector,
            last,
        )?;
        self.schedule.close(self.accepted)?;
        Ok(Reply::Flushed)
    }
}
