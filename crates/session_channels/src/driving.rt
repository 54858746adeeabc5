// A worker's whole course.
ghost use Rattle.std.specs.Prelude.{◌≡◌, ◌<◌, ◌⊎◌, Bool, false, None, IfOk, IfSome, OnOk, is_some, pos};
ghost use Rattle.session_channels.specs.Acts.{Done, Empty, Holds, IsWanting};
ghost use Rattle.session_channels.specs.Courses.{Drove, IsNothing, PutsAll, PutsPackets, SaidClosed, TakesAll, untouched};
ghost use Rattle.session_channels.specs.Drives.{Drives, EndsBy, EndsByFault, IsNew, OfGiven, PutsAndCloses};
ghost use Rattle.session_channels.specs.Wells.{IsPaid, IsWell, frames_left};

use crate::coding::{code_known, hand_on};
use crate::no_queue::NoQueue;
use crate::putting::put;
use crate::{ChannelFault, FrameMessage, PacketMessage, Put, RcData, Take, TakeError};
use av1_frame::Pixel;
use av1_settings::EncoderStatus;
use session_core::{ContextInner, Detector, FrameCoder, MeanScale};
use std::alloc::Global;

/// Drives a session that hasn't begun between a queue of frames and a queue of packets, until the queue of frames is closed.
///
/// It takes a frame first, and before it sends that frame it codes what is known. Where the queue of frames is closed it
/// flushes the session and codes the rest. `pass_in` is given where a summary is set: while metrics are needed for the next
/// command, they are taken from it. `pass_out` is given where pass data is asked for: each command's is put into it, and at
/// the end the summary. At its end it closes the queue of packets and `pass_out`; neither may have a capacity.
///
/// A fault is the last message of the queue of packets, unless that queue is closed or has no memory:
/// - `Coder`: the coder failed;
/// - `FrameRefused`: the session refused a frame, with this status;
/// - `PassData`, `PassDataKind`: a message of pass data was refused, or is a summary;
/// - `PassDataMissing`: `pass_in` was closed while metrics were needed;
/// - `PassDataEnded`: as many commands were coded as the summary counts, or as one can count, and there are more;
/// - `PacketsClosed`: a packet or pass data was to be put into a closed queue;
/// - `OutOfMemory`.
pub fn drive<
    T: Pixel,
    O: Drop,
    D: Detector<T> + Drop,
    S: MeanScale<T> + Drop,
    C: FrameCoder<T> + Drop,
    F: Take<FrameMessage<T, O>>,
    P: Put<PacketMessage<T, O>>,
    I: Take<RcData>,
    U: Put<RcData>,
>(
    alloc: Global,
    inner: &mut ContextInner<T, O, D, S, C>,
    frames: &mut F,
    packets: &mut P,
    pass_in: Option<&mut I>,
    pass_out: Option<&mut U>,
) -> Result<(), ChannelFault>
    requires fresh { IsNew inner.old (is_some pass_in) (is_some pass_out) }
    requires packets_unlimited { (P.queue packets.old).capacity ≡ None }
    requires data_unlimited { IfSome pass_out (λ end. (U.queue end.now).capacity ≡ None) }
    ensures { Drives (record { coder = C.told; detector = D.told; scales = S.told })
        (is_some pass_out.entry)
        (record {
          frames = TakesAll F.contents F.queue frames.old frames.new;
          packets = EndsBy P.contents P.queue packets.old packets.new;
          metrics = λ taken. OfGiven pass_in.entry pass_in.exit
              (λ before now. TakesAll I.contents I.queue before now taken) (IsNothing taken);
          handed = λ put. OfGiven pass_out.entry pass_out.exit
              (λ before now. PutsAndCloses U.contents U.queue before now put) (IsNothing put);
          missing = OfGiven pass_in.entry pass_in.exit
              (λ before now. SaidClosed (I.queue before) (I.queue now)) ⊥;
          severed = SaidClosed (P.queue packets.old) (P.queue packets.new)
              ⊎ OfGiven pass_out.entry pass_out.exit
              (λ before now. SaidClosed (U.queue before) (U.queue now)) ⊥;
        })
        (λ fault. EndsByFault P.contents P.queue fault packets.old packets.new)
        (SaidClosed (F.queue frames.old) (F.queue frames.new))
        inner.old inner.new result }
{
    match pass_in {
        Some(pass_in) => match pass_out {
            Some(pass_out) => run(alloc, inner, frames, packets, pass_in, pass_out, true),
            None => run(alloc, inner, frames, packets, pass_in, &mut NoQueue, false),
        },
        None => match pass_out {
            Some(pass_out) => run(alloc, inner, frames, packets, &mut NoQueue, pass_out, true),
            None => run(
                alloc,
                inner,
                frames,
                packets,
                &mut NoQueue,
                &mut NoQueue,
                false,
            ),
        },
    }
}

// Sends a frame that is needed.
fn send<T: Pixel, O: Drop, D: Detector<T> + Drop, S: MeanScale<T> + Drop, C: FrameCoder<T> + Drop>(
    alloc: Global,
    inner: &mut ContextInner<T, O, D, S, C>,
    message: FrameMessage<T, O>,
    handing: bool,
    coded: i32,
) -> Result<(), ChannelFault>
    requires well { IsWell handing coded inner.old }
    requires paid { IsPaid handing inner.old }
    requires wanting { IsWanting inner.old }
    ensures drove { Drove (record { coder = C.told; detector = D.told; scales = S.told }) handing
        untouched
        (record { hand = Holds message; session = inner.old })
        (record { hand = Empty; session = inner.new })
        result }
    ensures well { OnOk result (IsWell handing coded inner.new) }
    ensures paid { OnOk result (IsPaid handing inner.new) }
    ensures flushed { OnOk result (inner.new.moment.flushed ≡ inner.old.moment.flushed) }
    ensures smaller { OnOk result (frames_left inner.new < frames_left inner.old) }
{
    let (frame, parameters) = message;
    match inner.send_frame(alloc, Some(frame), parameters) {
        Ok(()) => Ok(()),
        Err(status) => match status {
            EncoderStatus::OutOfMemory => Err(ChannelFault::OutOfMemory),
            refused => Err(ChannelFault::FrameRefused(refused)),
        },
    }
}

// Takes frames until their queue is closed, and sends each once what is known before it is coded. Says how many commands are coded.
fn send_frames<
    T: Pixel,
    O: Drop,
    D: Detector<T> + Drop,
    S: MeanScale<T> + Drop,
    C: FrameCoder<T> + Drop,
    F: Take<FrameMessage<T, O>>,
    P: Put<PacketMessage<T, O>>,
    I: Take<RcData>,
    U: Put<RcData>,
>(
    alloc: Global,
    inner: &mut ContextInner<T, O, D, S, C>,
    frames: &mut F,
    packets: &mut P,
    pass_in: &mut I,
    pass_out: &mut U,
    handing: bool,
) -> Result<i32, ChannelFault>
    requires well { IsWell handing (pos 0) inner.old }
    requires paid { IsPaid handing inner.old }
    requires unflushed { inner.old.moment.flushed ≡ false }
    requires packets_unlimited { (P.queue packets.old).capacity ≡ None }
    requires data_unlimited { (U.queue pass_out.old).capacity ≡ None }
    ensures drove { Drove (record { coder = C.told; detector = D.told; scales = S.told }) handing
        (record {
          frames = TakesAll F.contents F.queue frames.old frames.new;
          packets = PutsPackets P.contents P.queue packets.old packets.new;
          metrics = TakesAll I.contents I.queue pass_in.old pass_in.new;
          handed = PutsAll U.contents U.queue pass_out.old pass_out.new;
          missing = SaidClosed (I.queue pass_in.old) (I.queue pass_in.new);
          severed = SaidClosed (P.queue packets.old) (P.queue packets.new)
              ⊎ SaidClosed (U.queue pass_out.old) (U.queue pass_out.new);
        })
        (record { hand = Empty; session = inner.old })
        (record { hand = Empty; session = inner.new })
        result }
    ensures ended { OnOk result (SaidClosed (F.queue frames.old) (F.queue frames.new)) }
    ensures well { IfOk result (λ coded. IsWell handing coded inner.new) }
    ensures paid { OnOk result (IsPaid handing inner.new) }
{
    let mut count = 0;
    loop {
        let message = match frames.take() {
            Ok(message) => message,
            Err(error) => match error {
                TakeError::Closed => return Ok(count),
                TakeError::Empty => unreachable!(),
            },
        };
        match code_known(alloc, inner, packets, pass_in, pass_out, handing, count) {
            Ok(coded) => count = coded,
            Err(fault) => return Err(fault),
        }
        match send(alloc, inner, message, handing, count) {
            Ok(()) => {}
            Err(fault) => return Err(fault),
        }
    }
}

// Flushes the session, codes all that is left, and hands on the summary.
fn finish<
    T: Pixel,
    O: Drop,
    D: Detector<T> + Drop,
    S: MeanScale<T> + Drop,
    C: FrameCoder<T> + Drop,
    P: Put<PacketMessage<T, O>>,
    I: Take<RcData>,
    U: Put<RcData>,
>(
    alloc: Global,
    inner: &mut ContextInner<T, O, D, S, C>,
    packets: &mut P,
    pass_in: &mut I,
    pass_out: &mut U,
    handing: bool,
    coded: i32,
) -> Result<(), ChannelFault>
    requires well { IsWell handing coded inner.old }
    requires paid { IsPaid handing inner.old }
    requires packets_unlimited { (P.queue packets.old).capacity ≡ None }
    requires data_unlimited { (U.queue pass_out.old).capacity ≡ None }
    ensures { Drove (record { coder = C.told; detector = D.told; scales = S.told }) handing
        (record untouched {
          packets = PutsPackets P.contents P.queue packets.old packets.new;
          metrics = TakesAll I.contents I.queue pass_in.old pass_in.new;
          handed = PutsAll U.contents U.queue pass_out.old pass_out.new;
          missing = SaidClosed (I.queue pass_in.old) (I.queue pass_in.new);
          severed = SaidClosed (P.queue packets.old) (P.queue packets.new)
              ⊎ SaidClosed (U.queue pass_out.old) (U.queue pass_out.new);
        })
        (record { hand = Empty; session = inner.old })
        (record { hand = Done; session = inner.new })
        result }
{
    match inner.flush(alloc) {
        Ok(()) => {}
        Err(_) => return Err(ChannelFault::OutOfMemory),
    }
    match code_known(alloc, inner, packets, pass_in, pass_out, handing, coded) {
        Ok(count) => hand_on(inner, pass_out, handing, count),
        Err(fault) => Err(fault),
    }
}

// All frames, and the end.
fn code_all<
    T: Pixel,
    O: Drop,
    D: Detector<T> + Drop,
    S: MeanScale<T> + Drop,
    C: FrameCoder<T> + Drop,
    F: Take<FrameMessage<T, O>>,
    P: Put<PacketMessage<T, O>>,
    I: Take<RcData>,
    U: Put<RcData>,
>(
    alloc: Global,
    inner: &mut ContextInner<T, O, D, S, C>,
    frames: &mut F,
    packets: &mut P,
    pass_in: &mut I,
    pass_out: &mut U,
    handing: bool,
) -> Result<(), ChannelFault>
    requires well { IsWell handing (pos 0) inner.old }
    requires paid { IsPaid handing inner.old }
    requires unflushed { inner.old.moment.flushed ≡ false }
    requires packets_unlimited { (P.queue packets.old).capacity ≡ None }
    requires data_unlimited { (U.queue pass_out.old).capacity ≡ None }
    ensures drove { Drove (record { coder = C.told; detector = D.told; scales = S.told }) handing
        (record {
          frames = TakesAll F.contents F.queue frames.old frames.new;
          packets = PutsPackets P.contents P.queue packets.old packets.new;
          metrics = TakesAll I.contents I.queue pass_in.old pass_in.new;
          handed = PutsAll U.contents U.queue pass_out.old pass_out.new;
          missing = SaidClosed (I.queue pass_in.old) (I.queue pass_in.new);
          severed = SaidClosed (P.queue packets.old) (P.queue packets.new)
              ⊎ SaidClosed (U.queue pass_out.old) (U.queue pass_out.new);
        })
        (record { hand = Empty; session = inner.old })
        (record { hand = Done; session = inner.new })
        result }
    ensures ended { OnOk result (SaidClosed (F.queue frames.old) (F.queue frames.new)) }
{
    match send_frames(alloc, inner, frames, packets, pass_in, pass_out, handing) {
        Ok(coded) => finish(alloc, inner, packets, pass_in, pass_out, handing, coded),
        Err(fault) => Err(fault),
    }
}

// The whole course, at whose end the queues of packets and of pass data are closed, behind the fault if there is one.
fn run<
    T: Pixel,
    O: Drop,
    D: Detector<T> + Drop,
    S: MeanScale<T> + Drop,
    C: FrameCoder<T> + Drop,
    F: Take<FrameMessage<T, O>>,
    P: Put<PacketMessage<T, O>>,
    I: Take<RcData>,
    U: Put<RcData>,
>(
    alloc: Global,
    inner: &mut ContextInner<T, O, D, S, C>,
    frames: &mut F,
    packets: &mut P,
    pass_in: &mut I,
    pass_out: &mut U,
    handing: bool,
) -> Result<(), ChannelFault>
    requires fresh { (second : Bool) × IsNew inner.old second handing }
    requires packets_unlimited { (P.queue packets.old).capacity ≡ None }
    requires data_unlimited { (U.queue pass_out.old).capacity ≡ None }
    ensures { Drives (record { coder = C.told; detector = D.told; scales = S.told })
        handing
        (record {
          frames = TakesAll F.contents F.queue frames.old frames.new;
          packets = EndsBy P.contents P.queue packets.old packets.new;
          metrics = TakesAll I.contents I.queue pass_in.old pass_in.new;
          handed = PutsAndCloses U.contents U.queue pass_out.old pass_out.new;
          missing = SaidClosed (I.queue pass_in.old) (I.queue pass_in.new);
          severed = SaidClosed (P.queue packets.old) (P.queue packets.new)
              ⊎ SaidClosed (U.queue pass_out.old) (U.queue pass_out.new);
        })
        (λ fault. EndsByFault P.contents P.queue fault packets.old packets.new)
        (SaidClosed (F.queue frames.old) (F.queue frames.new))
        inner.old inner.new result }
{
    match code_all(alloc, inner, frames, packets, pass_in, pass_out, handing) {
        Ok(()) => {
            packets.close();
            pass_out.close();
            Ok(())
        }
        Err(fault) => {
            let _ = put(packets, Err(fault));
            packets.close();
            pass_out.close();
            Err(fault)
        }
    }
}
