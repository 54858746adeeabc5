ghost use Rattle.std.specs.Prelude.{◌≡◌, false, true};
ghost use Rattle.session_channels.specs.Channels.{IsReady};
ghost use Rattle.session_channels.specs.Working.{IsRun};

use crate::{ChannelFault, FrameMessage, PacketMessage, RcData, SharedQueue, drive};
use av1_frame::Pixel;
use session_core::{ContextInner, Detector, FrameCoder, MeanScale};
use std::alloc::Global;
use std::marker::Model;
use std::sync::Wait;

/// What carries out a channel's session, on a thread of the caller's. Contracts see it as a record (`Work`): its session, its
/// ends of the queues of frames and of packets, its ends of the queues of pass data where it has them, and whether it has run.
///
/// A worker that is dropped leaves its queues as they are, so that receivers wait until they are closed.
#[derive(Drop)]
pub struct Worker<T, O, D, S, C, R> {
    inner: ContextInner<T, O, D, S, C>,
    frames: SharedQueue<FrameMessage<T, O>, R>,
    packets: SharedQueue<PacketMessage<T, O>, R>,
    pass_in: Option<SharedQueue<RcData, R>>,
    pass_out: Option<SharedQueue<RcData, R>>,
    has_run: bool,
}

impl<T, O, D, S, C, R> Model for Worker<T, O, D, S, C, R> {
    ghost use Rattle.std.specs.Prelude.{◌≡◌, false};
    ghost use Rattle.session_channels.specs.Channels.{IsReady, Work};

    ghost Value = { Work T O D S C };

    ghost view = { λ w. record {
      session = w.inner;
      frames = w.frames;
      packets = w.packets;
      pass_in = w.pass_in;
      pass_out = w.pass_out;
      has_run = w.has_run;
    } };

    ghost invariant = { λ w. w.has_run ≡ false → IsReady w.inner w.packets w.pass_in w.pass_out };
}

impl<T, O, D, S, C, R> Worker<T, O, D, S, C, R> {
    // A worker that hasn't run.
    pub(crate) fn new(
        inner: ContextInner<T, O, D, S, C>,
        frames: SharedQueue<FrameMessage<T, O>, R>,
        packets: SharedQueue<PacketMessage<T, O>, R>,
        pass_in: Option<SharedQueue<RcData, R>>,
        pass_out: Option<SharedQueue<RcData, R>>,
    ) -> Worker<T, O, D, S, C, R>
        requires { IsReady inner packets pass_in pass_out }
        ensures { result ≡ record {
          session = inner;
          frames = frames;
          packets = packets;
          pass_in = pass_in;
          pass_out = pass_out;
          has_run = false;
        } }
    {
        Worker {
            inner,
            frames,
            packets,
            pass_in,
            pass_out,
            has_run: false,
        }
    }

    /// Whether it has run.
    pub fn has_run(&self) -> bool
        ensures { result ≡ self.now.has_run }
    {
        self.has_run
    }
}

impl<
    T: Pixel,
    O: Drop,
    D: Detector<T> + Drop,
    S: MeanScale<T> + Drop,
    C: FrameCoder<T> + Drop,
    R: Wait + Copy,
> Worker<T, O, D, S, C, R> {
    /// Carries out the session, by [`drive`] over the worker's queues: it waits for frames, and for pass data that it needs, until
    /// they are closed. A worker runs once.
    ///
    /// The errors are those of `drive`, which are told to the receiver of packets too.
    pub fn run(&mut self, alloc: Global) -> Result<(), ChannelFault>
        requires { self.old.has_run ≡ false }
        ensures course { IsRun (record { coder = C.told; detector = D.told; scales = S.told })
            self.old self.new result }
        ensures done { self.new.has_run ≡ true }
    {
        self.has_run = true;
        let Worker {
            inner,
            frames,
            packets,
            pass_in,
            pass_out,
            has_run: _,
        } = self;
        course(alloc, inner, frames, packets, pass_in, pass_out)
    }
}

// Drives the session over the queues that there are.
fn course<
    'a,
    'b,
    T: Pixel,
    O: Drop,
    D: Detector<T> + Drop,
    S: MeanScale<T> + Drop,
    C: FrameCoder<T> + Drop,
    R: Wait + Copy,
>(
    alloc: Global,
    inner: &mut ContextInner<T, O, D, S, C>,
    frames: &mut SharedQueue<FrameMessage<T, O>, R>,
    packets: &mut SharedQueue<PacketMessage<T, O>, R>,
    pass_in: &'a mut Option<SharedQueue<RcData, R>>,
    pass_out: &'b mut Option<SharedQueue<RcData, R>>,
) -> Result<(), ChannelFault>
    requires { IsReady inner.old packets.old pass_in.old pass_out.old }
    ensures { IsRun (record { coder = C.told; detector = D.told; scales = S.told })
        (record {
          session = inner.old;
          frames = frames.old;
          packets = packets.old;
          pass_in = pass_in.old;
          pass_out = pass_out.old;
          has_run = true;
        })
        (record {
          session = inner.new;
          frames = frames.new;
          packets = packets.new;
          pass_in = pass_in.new;
          pass_out = pass_out.new;
          has_run = true;
        })
        result }
{
    match pass_in {
        Some(pass_in) => match pass_out {
            Some(pass_out) => {
                drive(alloc, inner, frames, packets, Some(pass_in), Some(pass_out))
            }
            None => {
                let no_out: Option<&'b mut SharedQueue<RcData, R>> = None;
                drive(alloc, inner, frames, packets, Some(pass_in), no_out)
            }
        },
        None => {
            let no_in: Option<&'a mut SharedQueue<RcData, R>> = None;
            match pass_out {
                Some(pass_out) => drive(alloc, inner, frames, packets, no_in, Some(pass_out)),
                None => {
                    let no_out: Option<&'b mut SharedQueue<RcData, R>> = None;
                    drive(alloc, inner, frames, packets, no_in, no_out)
                }
            }
        }
    }
}
