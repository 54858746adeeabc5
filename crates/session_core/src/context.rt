ghost use Rattle.std.specs.Prelude.{◌≡◌, ◌⊎◌, None, Some, Err, IfOk, IsOk, IsSome, true};
ghost use Rattle.av1_frame.specs.Planes.{IsFilled};
ghost use Rattle.av1_frame.specs.Sizes.{chroma_size};
ghost use Rattle.av1_settings.specs.declared.config.Config.{Config as Settings};
ghost use Rattle.av1_settings.specs.declared.invalid.InvalidConfig.{InvalidConfig};
ghost use Rattle.av1_settings.specs.Checks.{pixel_refusal};
ghost use Rattle.av1_settings.specs.Header.{container_sequence_header};
ghost use Rattle.session_core.specs.declared.call.Call.TheVariants.{Flush, Receive};
ghost use Rattle.session_core.specs.declared.setup.SetupError.TheVariants.{Invalid, OutOfMemory as NoMemory};
ghost use Rattle.session_core.specs.Contexts.{GivesDone, GivesReceived, IsCall, IsSend, fresh};
ghost use Rattle.session_core.specs.PassTurns.{passes_begun};
ghost use Rattle.session_core.specs.Told.{heard};

use crate::{
    ContextInner, Detector, FrameCoder, IntoFrame, MeanScale, Packet, QTables, SessionFault,
    SetupError,
};
use av1_frame::{Frame, Pixel};
use av1_settings::{Config, EncoderStatus, LevelTables};
use coding_base::OutOfMemory;
use std::alloc::Global;
use std::marker::Model;

/// An encoding session: frames are sent, and packets are received, one call at a time. Contracts see it as the same record
/// as [`ContextInner`], on which it stands.
#[derive(Drop)]
pub struct Context<T, O, D, S, C> {
    pub(crate) inner: ContextInner<T, O, D, S, C>,
}

impl<T, O, D, S, C> Model for Context<T, O, D, S, C> {
    ghost use Rattle.session_core.specs.Contexts.{Session};

    ghost Value = { Session T O D S C };

    ghost view = { λ c. c.inner };
}

impl<
    T: Pixel,
    O: Drop,
    D: Detector<T> + Drop,
    S: MeanScale<T> + Drop,
    C: FrameCoder<T> + Drop,
> Context<T, O, D, S, C> {
    /// A frame of the settings' size, each sample the least one. The session stays as it is, also where memory runs out.
    pub fn new_frame(&self, alloc: Global) -> Result<Frame<T>, OutOfMemory>
        ensures y { IfOk result (λ frame.
            IsFilled T.MIN frame.y (self.now.enc.width, self.now.enc.height)) }
        ensures u { IfOk result (λ frame. IsFilled T.MIN frame.u
            (chroma_size self.now.enc.width self.now.enc.height self.now.enc.chroma_sampling)) }
        ensures v { IfOk result (λ frame. IsFilled T.MIN frame.v
            (chroma_size self.now.enc.width self.now.enc.height self.now.enc.chroma_sampling)) }
    {
        self.inner.new_frame(alloc)
    }

    /// Sends a frame, with or without parameters; no frame is a flush.
    ///
    /// The statuses, in this order: Failure in a session that has failed; EnoughData after a flush, for a second frame of a
    /// still picture, and past 2147483646 frames; FrameSizeMismatch; OutOfMemory, which fails the session. A frame that isn't
    /// shared yet is moved into shared memory first.
    pub fn send_frame<F: IntoFrame<T, O>>(
        &mut self,
        alloc: Global,
        frame: F,
    ) -> Result<(), EncoderStatus>
        ensures call { IsSend (F.picture frame) (F.parameters frame) self.old self.new
            (heard (C.told self.old.coder) (D.told self.old.detector) (S.told self.old.scales))
            (heard (C.told self.new.coder) (D.told self.new.detector) (S.told self.new.scales)) result }
    {
        match frame.into(alloc) {
            Ok((frame, parameters)) => self.inner.send_frame(alloc, frame, parameters),
            Err(OutOfMemory) => Err(self.inner.run_out()),
        }
    }

    /// Says that no further frame comes. A second flush changes nothing.
    ///
    /// The statuses are Failure in a session that has failed, and OutOfMemory, which fails the session.
    pub fn flush(&mut self, alloc: Global) -> Result<(), EncoderStatus>
        ensures call { IsCall GivesDone Flush self.old self.new
            (heard (C.told self.old.coder) (D.told self.old.detector) (S.told self.old.scales))
            (heard (C.told self.new.coder) (D.told self.new.detector) (S.told self.new.scales)) result }
        ensures again { self.old.failure ≡ None
            → self.old.moment.flushed ≡ true
            → IsOk result × (self.new ≡ self.old) }
    {
        self.inner.flush(alloc)
    }

    /// Has the coder carry out the plan's next command, if it is known, and gives the packet of the frame that it shows.
    ///
    /// The statuses, in this order: Failure in a session that has failed; LimitReached once it is flushed and every frame's
    /// packet was given; NeedMoreData while too few frames are known; NotReady while pass data is missing; then a command is
    /// coded: Failure where the coder fails, OutOfMemory, both of which fail the session, or Encoded for a frame that isn't
    /// shown yet.
    pub fn receive_packet(&mut self, alloc: Global) -> Result<Packet<T, O>, EncoderStatus>
        ensures call { IsCall GivesReceived Receive self.old self.new
            (heard (C.told self.old.coder) (D.told self.old.detector) (S.told self.old.scales))
            (heard (C.told self.new.coder) (D.told self.new.detector) (S.told self.new.scales)) result }
    {
        self.inner.receive_packet(alloc)
    }

    /// The four bytes that a container says of the stream. No memory is taken.
    pub fn container_sequence_header(&self) -> [u8; 4]
        ensures { result ≡ container_sequence_header self.now.enc }
    {
        self.inner.container_sequence_header()
    }

    /// Why the session failed: the cause of the first call that answered Failure or OutOfMemory.
    pub fn failure(&self) -> Option<SessionFault>
        ensures { result ≡ self.now.failure }
    {
        self.inner.failure()
    }
}

/// Makes sessions of a configuration.
pub trait NewContext {
    /// The configuration.
    ghost settings: { Self → Settings };

    /// The configuration.
    fn settings(&self) -> &Config
        ensures { result.now ≡ settings self.now };

    /// A session that hasn't begun. A first pass is on where the configuration asks for pass data, a second where it has a
    /// summary. `levels` has the limits of the AV1
    /// specification's levels, and `tables` the quantisers by their index.
    ///
    /// The errors are `Invalid`, with the configuration's first refusal, one of which is a bit depth above the pixel type's;
    /// `OutOfMemory`, which comes only with a summary and a reservoir's delay.
    final fn new_context<
        T: Pixel,
        O: Drop,
        D: Detector<T> + Drop,
        S: MeanScale<T> + Drop,
        C: FrameCoder<T> + Drop,
    >(
        &self,
        alloc: Global,
        levels: &LevelTables,
        tables: &QTables,
        detector: D,
        scales: S,
        coder: C,
    ) -> Result<Context<T, O, D, S, C>, SetupError>
        ensures made { IfOk result (λ c. c ≡ fresh (settings self.now).enc tables.now
            (passes_begun (settings self.now).enc tables.now (settings self.now).rate_control)
            detector scales coder) }
        ensures invalid { (v : InvalidConfig)
            → result ≡ Err (Invalid v)
            → pixel_refusal T.BITS levels.now (settings self.now) ≡ Some v }
        ensures refused { (v : InvalidConfig)
            → pixel_refusal T.BITS levels.now (settings self.now) ≡ Some v
            → result ≡ Err (Invalid v) }
        ensures complete { pixel_refusal T.BITS levels.now (settings self.now) ≡ None
            → IsOk result ⊎ (result ≡ Err NoMemory) }
        ensures memory { result ≡ Err NoMemory
            → IsSome (settings self.now).rate_control.summary
            × IsSome (settings self.now).enc.reservoir_frame_delay }
    {
        let inner = ContextInner::new(
            alloc,
            self.settings(),
            levels,
            tables,
            detector,
            scales,
            coder,
        )?;
        Ok(Context { inner })
    }
}

impl NewContext for Config {
    ghost settings = { λ config. config };

    fn settings(&self) -> &Config {
        self
    }
}
