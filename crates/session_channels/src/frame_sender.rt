ghost use Rattle.std.specs.Prelude.{◌≡◌, ◌==◌, IfOk, IfSome, length};
ghost use Rattle.av1_frame.specs.Planes.{IsFilled};
ghost use Rattle.av1_frame.specs.Sizes.{chroma_size};
ghost use Rattle.av1_settings.specs.Checks.{IsValid};
ghost use Rattle.session_channels.specs.Ends.{IsFrameSend, as_input, new_sender, send_result, try_send_result};
ghost use Rattle.session_channels.specs.Queues.{Closes, Puts};

use crate::answers::{frame_send_result, frame_try_send_result};
use crate::sender::LimitedSender;
use crate::{Put, SendError, TrySendError};
use av1_frame::{Frame, Pixel};
use av1_settings::EncoderConfig;
use coding_base::OutOfMemory;
use session_core::{FrameInput, FrameParameters, IntoFrame};
use std::alloc::Global;
use std::marker::{Model, PhantomData};
use std::sync::Arc;

/// What a queue of frames holds: a frame, with parameters or without.
pub type FrameMessage<T, O> = (Arc<Frame<T>>, Option<FrameParameters<O>>);

/// The end of a channel into which frames are sent. Contracts see the settings that it was made for, and of its sender the
/// queue, how many frames it may send (`limit`) and how many it has sent (`sent`). An end that is dropped leaves its queue as
/// it is.
#[derive(Drop)]
pub struct FrameSender<T, O, Q> {
    enc: EncoderConfig,
    sender: LimitedSender<Q>,
    of: PhantomData<(T, O)>,
}

impl<T, O, Q> Model for FrameSender<T, O, Q> {
    ghost use Rattle.av1_settings.specs.Checks.{IsValid};
    ghost use Rattle.session_channels.specs.Ends.{FrameEnd};

    ghost Value = { FrameEnd Q };

    ghost view = { λ s. record { enc = s.enc; sender = s.sender } };

    ghost invariant = { λ s. IsValid s.enc };
}

impl<T: Drop, O: Drop, Q: Put<FrameMessage<T, O>> + Drop> FrameSender<T, O, Q> {
    /// A sender into this queue, of `limit` frames at most, for settings that have passed `validate`. No memory is taken.
    pub fn new(enc: &EncoderConfig, queue: Q, limit: u64) -> FrameSender<T, O, Q>
        requires { IsValid enc.now }
        ensures settings { result.enc ≡ enc.now }
        ensures sender { result.sender ≡ new_sender queue limit }
    {
        FrameSender {
            enc: *enc,
            sender: LimitedSender::new(queue, limit),
            of: PhantomData,
        }
    }

    /// Sends a frame by one `try_put` of the queue: Full at the limit, without a turn, and where the queue is full;
    /// Disconnected where it is closed. What was refused comes back.
    ///
    /// A value without a frame closes the queue, at the limit too, and is answered by Ok. A frame that isn't shared yet is moved
    /// into shared memory first; where that runs out, nothing changes.
    pub fn try_send<F: IntoFrame<T, O>>(
        &mut self,
        alloc: Global,
        frame: F,
    ) -> Result<(), TrySendError<FrameInput<T, O>>>
        ensures send { IsFrameSend (Puts Q.try_put_gives Q.contents Q.queue)
            (Closes Q.contents Q.queue) (try_send_result as_input) TrySendError.OutOfMemory
            self.old.sender (F.picture frame) (F.parameters frame) result self.new.sender }
        ensures settings { self.new.enc ≡ self.old.enc }
    {
        let (frame, parameters) = match frame.into(alloc) {
            Ok(input) => input,
            Err(OutOfMemory) => return Err(TrySendError::OutOfMemory),
        };
        match frame {
            Some(frame) => frame_try_send_result(self.sender.try_put((frame, parameters))),
            None => {
                self.sender.close();
                Ok(())
            }
        }
    }

    /// Sends a frame by one `put` of the queue, which may wait: Refused at the limit, without a turn, and where the queue is
    /// closed, or full and doesn't wait. What was refused comes back.
    ///
    /// A value without a frame, and memory that runs out, are as in `try_send`.
    pub fn send<F: IntoFrame<T, O>>(
        &mut self,
        alloc: Global,
        frame: F,
    ) -> Result<(), SendError<FrameInput<T, O>>>
        ensures send { IsFrameSend (Puts Q.put_gives Q.contents Q.queue)
            (Closes Q.contents Q.queue) (send_result as_input) SendError.OutOfMemory
            self.old.sender (F.picture frame) (F.parameters frame) result self.new.sender }
        ensures settings { self.new.enc ≡ self.old.enc }
    {
        let (frame, parameters) = match frame.into(alloc) {
            Ok(input) => input,
            Err(OutOfMemory) => return Err(SendError::OutOfMemory),
        };
        match frame {
            Some(frame) => frame_send_result(self.sender.put((frame, parameters))),
            None => {
                self.sender.close();
                Ok(())
            }
        }
    }

    /// The number of frames in the queue.
    pub fn len(&self) -> usize
        ensures { IfSome (Q.contents self.now.sender.queue) (λ held. result ≡ length held) }
    {
        self.sender.len()
    }

    /// Whether the queue has no frame.
    pub fn is_empty(&self) -> bool
        ensures { IfSome (Q.contents self.now.sender.queue)
            (λ held. result ≡ (length held == 0)) }
    {
        self.len() == 0
    }

    /// Closes the queue.
    pub fn close(mut self) {
        self.sender.close();
    }
}

impl<T: Pixel, O: Drop, Q: Put<FrameMessage<T, O>> + Drop> FrameSender<T, O, Q> {
    /// A frame of the settings' size, each sample the least one.
    pub fn new_frame(&self, alloc: Global) -> Result<Frame<T>, OutOfMemory>
        ensures y { IfOk result (λ frame.
            IsFilled T.MIN frame.y (self.now.enc.width, self.now.enc.height)) }
        ensures u { IfOk result (λ frame. IsFilled T.MIN frame.u
            (chroma_size self.now.enc.width self.now.enc.height self.now.enc.chroma_sampling)) }
        ensures v { IfOk result (λ frame. IsFilled T.MIN frame.v
            (chroma_size self.now.enc.width self.now.enc.height self.now.enc.chroma_sampling)) }
    {
        let enc = &self.enc;
        Frame::new(alloc, enc.width, enc.height, enc.chroma_sampling)
    }
}
