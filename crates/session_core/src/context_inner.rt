// A session that is called one call at a time.
ghost use Rattle.std.specs.Prelude.{◌≡◌, ◌≤◌, ◌+◌, ◌-◌, length, ◌&&◌, ◌||◌, not, nat_lt, None, Some, Ok, Err, true, IfOk, IfErr, IsOk, IsSome, ◌⊎◌, is_none};
ghost use Rattle.av1_frame.specs.Planes.{IsFilled};
ghost use Rattle.av1_frame.specs.Sizes.{chroma_size};
ghost use Rattle.av1_settings.specs.declared.invalid.InvalidConfig.{InvalidConfig};
ghost use Rattle.av1_settings.specs.Checks.{pixel_refusal};
ghost use Rattle.av1_settings.specs.Header.{container_sequence_header};
ghost use Rattle.session_log.specs.Passes.{rate_at};
ghost use Rattle.session_core.specs.declared.call.Call.TheVariants.{Flush, Receive};
ghost use Rattle.session_core.specs.declared.transcript.Reply.TheVariants.{Flushed};
ghost use Rattle.session_core.specs.declared.setup.SetupError.TheVariants.{Invalid, OutOfMemory as NoMemory};
ghost use Rattle.session_core.specs.Contexts.{GivesDone, GivesReceived, GivesReply, IsCall, IsReceiveReply, IsSend, fresh, Asks};
ghost use Rattle.std.specs.Option.{option_map};
ghost use Rattle.session_core.specs.Moments.{is_complete, places_ahead};
ghost use Rattle.session_core.specs.PassTurns.{passes_begun};
ghost use Rattle.session_core.specs.Told.{heard};
ghost use Rattle.session_core.specs.Turns.{HaveBytes, needs_more_data};

use crate::state::SessionState;
use crate::{
    Call, Detector, FrameCoder, FrameParameters, MeanScale, Packet, QTables, RCState, Reply,
    SessionFault, SetupError,
};
use av1_frame::{Frame, Pixel};
use av1_settings::{Config, EncoderConfig, EncoderStatus, LevelTables, container_sequence_header};
use coding_base::OutOfMemory;
use std::alloc::Global;
use std::marker::Model;
use std::sync::Arc;

/// A session that is called one call at a time, with its detector, its mean scales and its coder. Contracts see it as a record
/// (`Session`): the settings, the quantiser tables, the session's moment, what its passes hand on, the cause of the first call
/// that failed, and those three.
///
/// Each call is answered as a turn of `run_session` is, at the moment that the calls before it lead to. Where a call fails
/// its cause is kept, and each later call answers Failure and changes nothing.
#[derive(Drop)]
pub struct ContextInner<T, O, D, S, C> {
    pub(crate) enc: EncoderConfig,
    pub(crate) state: SessionState<T, O>,
    pub(crate) failure: Option<SessionFault>,
    pub(crate) detector: D,
    pub(crate) scales: S,
    pub(crate) coder: C,
}

impl<T, O, D, S, C> Model for ContextInner<T, O, D, S, C> {
    ghost use Rattle.session_core.specs.Contexts.{Session};
    ghost use Rattle.session_core.specs.States.{moment_of, passes_at};
    ghost use Rattle.session_core.specs.Held.{IsHeld};

    ghost Value = { Session T O D S C };

    ghost view = { λ c. record {
      enc = c.enc;
      tables = c.state.rate.tables;
      moment = moment_of c.state;
      passes = passes_at c.state;
      failure = c.failure;
      detector = c.detector;
      scales = c.scales;
      coder = c.coder;
    } };

    ghost invariant = { λ c. IsHeld c.enc c.state c.failure };
}

impl<
    T: Pixel,
    O: Drop,
    D: Detector<T> + Drop,
    S: MeanScale<T> + Drop,
    C: FrameCoder<T> + Drop,
> ContextInner<T, O, D, S, C> {
    /// A session that hasn't begun. A first pass is on where the configuration asks for pass data, a second where it has a
    /// summary. `levels` has the limits of the AV1
    /// specification's levels, and `tables` the quantisers by their index.
    ///
    /// The errors are `Invalid`, with the configuration's first refusal, one of which is a bit depth above the pixel type's;
    /// `OutOfMemory`, which comes only with a summary and a reservoir's delay.
    pub fn new(
        alloc: Global,
        cfg: &Config,
        levels: &LevelTables,
        tables: &QTables,
        detector: D,
        scales: S,
        coder: C,
    ) -> Result<ContextInner<T, O, D, S, C>, SetupError>
        ensures made { IfOk result (λ c. c ≡ fresh cfg.now.enc tables.now
            (passes_begun cfg.now.enc tables.now cfg.now.rate_control) detector scales coder) }
        ensures invalid { (v : InvalidConfig)
            → result ≡ Err (Invalid v)
            → pixel_refusal T.BITS levels.now cfg.now ≡ Some v }
        ensures refused { (v : InvalidConfig)
            → pixel_refusal T.BITS levels.now cfg.now ≡ Some v
            → result ≡ Err (Invalid v) }
        ensures complete { pixel_refusal T.BITS levels.now cfg.now ≡ None
            → IsOk result ⊎ (result ≡ Err NoMemory) }
        ensures memory { result ≡ Err NoMemory
            → IsSome cfg.now.rate_control.summary × IsSome cfg.now.enc.reservoir_frame_delay }
    {
        if let Err(refusal) = cfg.validate_for_pixel(levels, T::BITS) {
            return Err(SetupError::Invalid(refusal));
        }
        let Ok(state) = SessionState::begin(alloc, &cfg.enc, tables, &cfg.rate_control) else {
            return Err(SetupError::OutOfMemory);
        };
        Ok(ContextInner {
            enc: cfg.enc,
            state,
            failure: None,
            detector,
            scales,
            coder,
        })
    }

    /// Sends a frame, with or without parameters; no frame is a flush.
    ///
    /// The statuses, in this order: Failure in a session that has failed; EnoughData after a flush, for a second frame of a
    /// still picture, and past 2147483646 frames; FrameSizeMismatch; OutOfMemory, which fails the session.
    pub fn send_frame(
        &mut self,
        alloc: Global,
        frame: Option<Arc<Frame<T>>>,
        params: Option<FrameParameters<O>>,
    ) -> Result<(), EncoderStatus>
        ensures call { IsSend (option_map (λ shared. shared.value) frame) params
            self.old self.new
            (heard (C.told self.old.coder) (D.told self.old.detector) (S.told self.old.scales))
            (heard (C.told self.new.coder) (D.told self.new.detector) (S.told self.new.scales)) result }
    {
        done(self.call(alloc, sending(frame, params)))
    }

    /// Says that no further frame comes. A second flush changes nothing.
    ///
    /// The statuses are Failure in a session that has failed, and OutOfMemory, which fails the session.
    pub fn flush(&mut self, alloc: Global) -> Result<(), EncoderStatus>
        ensures call { IsCall GivesDone Flush self.old self.new
            (heard (C.told self.old.coder) (D.told self.old.detector) (S.told self.old.scales))
            (heard (C.told self.new.coder) (D.told self.new.detector) (S.told self.new.scales)) result }
        ensures again { self.old.failure ≡ None
            → self.old.moment.flushed ≡ true
            → IsOk result × (self.new ≡ self.old) }
    {
        done(self.call(alloc, Call::Flush))
    }

    /// Has the coder carry out the plan's next command, if it is known, and gives the packet of the frame that it shows.
    ///
    /// The statuses, in this order: Failure in a session that has failed; LimitReached once it is flushed and every frame's
    /// packet was given; NeedMoreData while too few frames are known; NotReady while pass data is missing; then a command is
    /// coded: Failure where the coder fails, OutOfMemory, both of which fail the session, or Encoded for a frame that isn't
    /// shown yet.
    pub fn receive_packet(&mut self, alloc: Global) -> Result<Packet<T, O>, EncoderStatus>
        ensures call { IsCall GivesReceived Receive self.old self.new
            (heard (C.told self.old.coder) (D.told self.old.detector) (S.told self.old.scales))
            (heard (C.told self.new.coder) (D.told self.new.detector) (S.told self.new.scales)) result }
        ensures bytes { self.new.failure ≡ None → HaveBytes self.new.moment.log }
    {
        received(self.call(alloc, Call::Receive))
    }

    // Carries out a call, and keeps the cause where it fails.
    fn call(&mut self, alloc: Global, call: Call<T, O>) -> Result<Reply<T, O>, EncoderStatus>
        ensures call { IsCall GivesReply call self.old self.new
            (heard (C.told self.old.coder) (D.told self.old.detector) (S.told self.old.scales))
            (heard (C.told self.new.coder) (D.told self.new.detector) (S.told self.new.scales)) result }
        ensures bytes { self.new.failure ≡ None → HaveBytes self.new.moment.log }
        ensures again { call ≡ Flush
            → self.old.failure ≡ None
            → self.old.moment.flushed ≡ true
            → (result ≡ Ok Flushed) × (self.new ≡ self.old) }
    {
        if self.failure.is_some() {
            return Err(EncoderStatus::Failure);
        }
        let turn = self.state.ready_turn(
            alloc,
            &self.enc,
            &mut self.detector,
            &mut self.scales,
            &mut self.coder,
            call,
        );
        match turn {
            Ok(turn) => Ok(turn.reply),
            Err(fault) => {
                self.failure = Some(fault);
                Err(fault.status())
            }
        }
    }

    /// Fails the session, where it hasn't failed yet, because memory ran out for one of its calls.
    pub(crate) fn run_out(&mut self) -> EncoderStatus
        ensures failed { IsSome self.old.failure
            → (result ≡ EncoderStatus.Failure) × (self.new ≡ self.old) }
        ensures fails { self.old.failure ≡ None
            → (result ≡ EncoderStatus.OutOfMemory)
            × (self.new ≡ record self.old { failure = Some SessionFault.OutOfMemory }) }
    {
        if self.failure.is_some() {
            return EncoderStatus::Failure;
        }
        self.failure = Some(SessionFault::OutOfMemory);
        EncoderStatus::OutOfMemory
    }

    /// A frame of the settings' size, each sample the least one. The session stays as it is, also where memory runs out.
    pub fn new_frame(&self, alloc: Global) -> Result<Frame<T>, OutOfMemory>
        ensures y { IfOk result (λ frame.
            IsFilled T.MIN frame.y (self.now.enc.width, self.now.enc.height)) }
        ensures u { IfOk result (λ frame. IsFilled T.MIN frame.u
            (chroma_size self.now.enc.width self.now.enc.height self.now.enc.chroma_sampling)) }
        ensures v { IfOk result (λ frame. IsFilled T.MIN frame.v
            (chroma_size self.now.enc.width self.now.enc.height self.now.enc.chroma_sampling)) }
    {
        let enc = &self.enc;
        Frame::new(alloc, enc.width, enc.height, enc.chroma_sampling)
    }

    /// The four bytes that a container says of the stream. No memory is taken.
    pub fn container_sequence_header(&self) -> [u8; 4]
        ensures { result ≡ container_sequence_header self.now.enc }
    {
        container_sequence_header(&self.enc)
    }

    /// Why the session failed: the cause of the first call that answered Failure or OutOfMemory.
    pub fn failure(&self) -> Option<SessionFault>
        ensures { result ≡ self.now.failure }
    {
        self.failure
    }

    /// The state of the rate controller. No memory is taken.
    pub fn rc(&self) -> &RCState
        ensures { self.now.failure ≡ None
            → result.now ≡ rate_at self.now.enc self.now.passes self.now.moment.log }
    {
        self.state.rate.state()
    }

    /// Whether a receive would answer NeedMoreData. A session that has failed wants nothing. No memory is taken.
    pub fn needs_more_fi_lookahead(&self) -> bool
        ensures { result
            ≡ (is_none self.now.failure && needs_more_data self.now.enc self.now.moment) }
    {
        self.failure.is_none() && self.state.needs_more_data(&self.enc)
    }

    /// Whether the session isn't flushed, or fewer frames than it accepted are meant by `frame_count`. No memory is taken.
    pub fn needs_more_frames(&self, frame_count: u64) -> bool
        ensures { result ≡ (not self.now.moment.flushed
            || nat_lt frame_count self.now.moment.accepted) }
    {
        !self.state.flushed || frame_count < self.state.accepted
    }

    /// Whether the session is flushed and every frame's packet was given. No memory is taken.
    pub fn done_processing(&self) -> bool
        ensures { result ≡ (self.now.moment.flushed && is_complete self.now.moment) }
    {
        self.state.flushed && self.state.is_complete()
    }

    /// How many accepted frames are held: those whose packets weren't given yet. No memory is taken.
    pub fn frames_held(&self) -> usize
        ensures length { result ≡ length self.now.moment.waiting }
        ensures count { self.now.failure ≡ None
            → result ≡ self.now.moment.accepted - self.now.moment.packets }
    {
        self.state.waiting.len()
    }

    /// How many places of the plan are held: in a session that hasn't failed the known ones from that of the next command
    /// on, the rows that are cut counted. No memory is taken.
    pub fn places_held(&self) -> usize
        ensures known { self.now.failure ≡ None
            → result ≡ length (places_ahead self.now.enc self.now.moment) }
        ensures few { self.now.failure ≡ None
            → result ≤ length (places_ahead self.now.enc self.now.moment) + 2 }
    {
        self.state.schedule.places_held()
    }

    /// Gives the coder back as the session's calls left it, also after a failure. No memory is taken.
    pub fn into_coder(self) -> C
        ensures { result ≡ self.coder }
    {
        let ContextInner { coder, .. } = self;
        coder
    }
}

// What a frame and its parameters ask for.
fn sending<T, O: Drop>(
    frame: Option<Arc<Frame<T>>>,
    params: Option<FrameParameters<O>>,
) -> Call<T, O>
    ensures { Asks (option_map (λ shared. shared.value) frame) params result }
{
    match frame {
        Some(frame) => Call::Send(frame, params),
        None => Call::Flush,
    }
}

// What a receive answers.
fn received<T: Drop, O: Drop>(
    answer: Result<Reply<T, O>, EncoderStatus>,
) -> Result<Packet<T, O>, EncoderStatus>
    requires { IfOk answer (λ reply. IsReceiveReply reply) }
    ensures reply { IfOk answer (λ reply. GivesReceived reply result) }
    ensures err { IfErr answer (λ status. result ≡ Err status) }
{
    match answer {
        Ok(Reply::Packet(packet)) => Ok(packet),
        Ok(Reply::Status(status)) => Err(status),
        Ok(_) => unreachable!(),
        Err(status) => Err(status),
    }
}

// What a send or a flush answers.
fn done<T: Drop, O: Drop>(answer: Result<Reply<T, O>, EncoderStatus>) -> Result<(), EncoderStatus>
    ensures reply { IfOk answer (λ reply. GivesDone reply result) }
    ensures err { IfErr answer (λ status. result ≡ Err status) }
{
    match answer {
        Ok(Reply::Status(status)) => Err(status),
        Ok(_) => Ok(()),
        Err(status) => Err(status),
    }
}
