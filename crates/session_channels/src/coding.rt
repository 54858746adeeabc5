// What a worker does with its session while it holds a frame, and at the end: it feeds it pass data, has it code, and hands on
// what comes of that.
ghost use Rattle.std.specs.Prelude.{◌≡◌, ◌<◌, ◌≤◌, ◌⊎◌, ◌∷◌, [], None, IfOk, OnOk};
ghost use Rattle.session_core.specs.PassCalls.{required_of};
ghost use Rattle.session_channels.specs.Acts.{Hand, IsOpen, owing};
ghost use Rattle.session_channels.specs.Courses.{Drove, PutsAll, PutsPackets, SaidClosed, TakesAll, untouched};
ghost use Rattle.session_channels.specs.Wells.{IsHeldBack, IsKnown, IsOwed, IsPaid, IsSameInput, IsWell, left_of, room_of};

use crate::putting::put;
use crate::{ChannelFault, PacketMessage, Put, RcData, Take, TakeError};
use av1_frame::Pixel;
use av1_settings::EncoderStatus;
use session_core::{ContextInner, Detector, FrameCoder, MeanScale, SessionFault};
use std::alloc::Global;

// Gives a message that was taken.
fn give<T: Pixel, O: Drop, D: Detector<T> + Drop, S: MeanScale<T> + Drop, C: FrameCoder<T> + Drop>(
    inner: &mut ContextInner<T, O, D, S, C>,
    message: RcData,
    handing: bool,
    coded: i32,
) -> Result<(), ChannelFault>
    requires well { IsWell handing coded inner.old }
    requires paid { IsPaid handing inner.old }
    requires known { IsKnown inner.old }
    requires needed { 1 ≤ required_of inner.old }
    ensures drove { (hand : Hand T O) → IsOpen hand
        → Drove (record { coder = C.told; detector = D.told; scales = S.told }) handing
        (record untouched {
          metrics = λ taken. taken ≡ message ∷ [];
        })
        (record { hand = hand; session = inner.old })
        (record { hand = hand; session = inner.new })
        result }
    ensures well { OnOk result (IsWell handing coded inner.new) }
    ensures paid { OnOk result (IsPaid handing inner.new) }
    ensures moment { inner.new.moment ≡ inner.old.moment }
    ensures settings { inner.new.enc ≡ inner.old.enc }
    ensures smaller { OnOk result (room_of inner.new < room_of inner.old) }
{
    let RcData::Frame(metrics) = message else {
        return Err(ChannelFault::PassDataKind);
    };
    match inner.rc_send_pass_data(metrics.as_slice()) {
        Ok(()) => Ok(()),
        Err(_) => match inner.failure() {
            Some(SessionFault::PassData(refusal)) => Err(ChannelFault::PassData(refusal)),
            _ => unreachable!(),
        },
    }
}

// Takes the metrics of frames and gives them, while they are needed before the next command.
fn feed<
    T: Pixel,
    O: Drop,
    D: Detector<T> + Drop,
    S: MeanScale<T> + Drop,
    C: FrameCoder<T> + Drop,
    I: Take<RcData>,
>(
    inner: &mut ContextInner<T, O, D, S, C>,
    pass_in: &mut I,
    handing: bool,
    coded: i32,
) -> Result<(), ChannelFault>
    requires well { IsWell handing coded inner.old }
    requires paid { IsPaid handing inner.old }
    requires known { IsKnown inner.old }
    ensures drove { (hand : Hand T O) → IsOpen hand
        → Drove (record { coder = C.told; detector = D.told; scales = S.told }) handing
        (record untouched {
          metrics = TakesAll I.contents I.queue pass_in.old pass_in.new;
          missing = SaidClosed (I.queue pass_in.old) (I.queue pass_in.new);
        })
        (record { hand = hand; session = inner.old })
        (record { hand = hand; session = inner.new })
        result }
    ensures well { OnOk result (IsWell handing coded inner.new) }
    ensures paid { OnOk result (IsPaid handing inner.new) }
    ensures moment { inner.new.moment ≡ inner.old.moment }
    ensures settings { inner.new.enc ≡ inner.old.enc }
    ensures fed { OnOk result (required_of inner.new ≡ 0) }
{
    while inner.rc_second_pass_data_required() > 0 {
        match pass_in.take() {
            Ok(message) => match give(inner, message, handing, coded) {
                Ok(()) => {}
                Err(fault) => return Err(fault),
            },
            Err(error) => match error {
                TakeError::Closed => return Err(ChannelFault::PassDataMissing),
                TakeError::Empty => unreachable!(),
            },
        }
    }
    Ok(())
}

// Has the session code the next command, and puts the packet that it gives, if it does.
fn receive<
    T: Pixel,
    O: Drop,
    D: Detector<T> + Drop,
    S: MeanScale<T> + Drop,
    C: FrameCoder<T> + Drop,
    P: Put<PacketMessage<T, O>>,
>(
    alloc: Global,
    inner: &mut ContextInner<T, O, D, S, C>,
    packets: &mut P,
    handing: bool,
    coded: i32,
) -> Result<i32, ChannelFault>
    requires well { IsWell handing coded inner.old }
    requires paid { IsPaid handing inner.old }
    requires known { IsKnown inner.old }
    requires fed { required_of inner.old ≡ 0 }
    requires unlimited { (P.queue packets.old).capacity ≡ None }
    ensures drove { (hand : Hand T O) → IsOpen hand
        → Drove (record { coder = C.told; detector = D.told; scales = S.told }) handing
        (record untouched {
          packets = PutsPackets P.contents P.queue packets.old packets.new;
          severed = SaidClosed (P.queue packets.old) (P.queue packets.new);
        })
        (record { hand = hand; session = inner.old })
        (record { hand = owing handing hand; session = inner.new })
        result }
    ensures well { IfOk result (λ count. IsWell handing count inner.new) }
    ensures owed { OnOk result (IsOwed handing inner.new) }
    ensures same { OnOk result (IsSameInput inner.old inner.new) }
    ensures smaller { OnOk result (left_of inner.new < left_of inner.old) }
{
    match inner.receive_packet(alloc) {
        Ok(packet) => match put(packets, Ok(packet)) {
            Ok(()) => Ok(coded.saturating_add(1)),
            Err(fault) => Err(fault),
        },
        Err(status) => match status {
            EncoderStatus::Encoded => Ok(coded.saturating_add(1)),
            EncoderStatus::NotReady => Err(ChannelFault::PassDataEnded { total: coded }),
            EncoderStatus::OutOfMemory => Err(ChannelFault::OutOfMemory),
            EncoderStatus::Failure => match inner.failure() {
                Some(SessionFault::Coder { command }) => Err(ChannelFault::Coder { command }),
                _ => unreachable!(),
            },
            _ => unreachable!(),
        },
    }
}

// Hands on the pass data of the last command, or at the end the summary, where that is asked for.
pub(crate) fn hand_on<
    T: Pixel,
    O: Drop,
    D: Detector<T> + Drop,
    S: MeanScale<T> + Drop,
    C: FrameCoder<T> + Drop,
    U: Put<RcData>,
>(
    inner: &mut ContextInner<T, O, D, S, C>,
    pass_out: &mut U,
    handing: bool,
    coded: i32,
) -> Result<(), ChannelFault>
    requires well { IsWell handing coded inner.old }
    requires owed { IsOwed handing inner.old }
    requires unlimited { (U.queue pass_out.old).capacity ≡ None }
    ensures drove { (hand : Hand T O)
        → Drove (record { coder = C.told; detector = D.told; scales = S.told }) handing
        (record untouched {
          handed = PutsAll U.contents U.queue pass_out.old pass_out.new;
          severed = SaidClosed (U.queue pass_out.old) (U.queue pass_out.new);
        })
        (record { hand = owing handing hand; session = inner.old })
        (record { hand = hand; session = inner.new })
        result }
    ensures well { OnOk result (IsWell handing coded inner.new) }
    ensures paid { OnOk result (IsPaid handing inner.new) }
    ensures moment { inner.new.moment ≡ inner.old.moment }
    ensures settings { inner.new.enc ≡ inner.old.enc }
{
    if !handing {
        return Ok(());
    }
    match inner.rc_receive_pass_data() {
        Some(message) => put(pass_out, message),
        None => Ok(()),
    }
}

// Codes the next command: metrics first, while they are needed, and its pass data behind it. Says how many commands are coded.
fn code_next<
    T: Pixel,
    O: Drop,
    D: Detector<T> + Drop,
    S: MeanScale<T> + Drop,
    C: FrameCoder<T> + Drop,
    P: Put<PacketMessage<T, O>>,
    I: Take<RcData>,
    U: Put<RcData>,
>(
    alloc: Global,
    inner: &mut ContextInner<T, O, D, S, C>,
    packets: &mut P,
    pass_in: &mut I,
    pass_out: &mut U,
    handing: bool,
    coded: i32,
) -> Result<i32, ChannelFault>
    requires well { IsWell handing coded inner.old }
    requires paid { IsPaid handing inner.old }
    requires known { IsKnown inner.old }
    requires packets_unlimited { (P.queue packets.old).capacity ≡ None }
    requires data_unlimited { (U.queue pass_out.old).capacity ≡ None }
    ensures drove { (hand : Hand T O) → IsOpen hand
        → Drove (record { coder = C.told; detector = D.told; scales = S.told }) handing
        (record untouched {
          packets = PutsPackets P.contents P.queue packets.old packets.new;
          metrics = TakesAll I.contents I.queue pass_in.old pass_in.new;
          handed = PutsAll U.contents U.queue pass_out.old pass_out.new;
          missing = SaidClosed (I.queue pass_in.old) (I.queue pass_in.new);
          severed = SaidClosed (P.queue packets.old) (P.queue packets.new)
              ⊎ SaidClosed (U.queue pass_out.old) (U.queue pass_out.new);
        })
        (record { hand = hand; session = inner.old })
        (record { hand = hand; session = inner.new })
        result }
    ensures well { IfOk result (λ count. IsWell handing count inner.new) }
    ensures paid { OnOk result (IsPaid handing inner.new) }
    ensures same { OnOk result (IsSameInput inner.old inner.new) }
    ensures smaller { OnOk result (left_of inner.new < left_of inner.old) }
{
    match feed(inner, pass_in, handing, coded) {
        Ok(()) => {}
        Err(fault) => return Err(fault),
    }
    let count = match receive(alloc, inner, packets, handing, coded) {
        Ok(count) => count,
        Err(fault) => return Err(fault),
    };
    match hand_on(inner, pass_out, handing, count) {
        Ok(()) => Ok(count),
        Err(fault) => Err(fault),
    }
}

// Codes what is known, command by command. Says how many commands are coded.
pub(crate) fn code_known<
    T: Pixel,
    O: Drop,
    D: Detector<T> + Drop,
    S: MeanScale<T> + Drop,
    C: FrameCoder<T> + Drop,
    P: Put<PacketMessage<T, O>>,
    I: Take<RcData>,
    U: Put<RcData>,
>(
    alloc: Global,
    inner: &mut ContextInner<T, O, D, S, C>,
    packets: &mut P,
    pass_in: &mut I,
    pass_out: &mut U,
    handing: bool,
    coded: i32,
) -> Result<i32, ChannelFault>
    requires well { IsWell handing coded inner.old }
    requires paid { IsPaid handing inner.old }
    requires packets_unlimited { (P.queue packets.old).capacity ≡ None }
    requires data_unlimited { (U.queue pass_out.old).capacity ≡ None }
    ensures drove { (hand : Hand T O) → IsOpen hand
        → Drove (record { coder = C.told; detector = D.told; scales = S.told }) handing
        (record untouched {
          packets = PutsPackets P.contents P.queue packets.old packets.new;
          metrics = TakesAll I.contents I.queue pass_in.old pass_in.new;
          handed = PutsAll U.contents U.queue pass_out.old pass_out.new;
          missing = SaidClosed (I.queue pass_in.old) (I.queue pass_in.new);
          severed = SaidClosed (P.queue packets.old) (P.queue packets.new)
              ⊎ SaidClosed (U.queue pass_out.old) (U.queue pass_out.new);
        })
        (record { hand = hand; session = inner.old })
        (record { hand = hand; session = inner.new })
        result }
    ensures well { IfOk result (λ count. IsWell handing count inner.new) }
    ensures paid { OnOk result (IsPaid handing inner.new) }
    ensures same { OnOk result (IsSameInput inner.old inner.new) }
    ensures held { OnOk result (IsHeldBack inner.new) }
{
    let mut count = coded;
    while !inner.needs_more_fi_lookahead() && !inner.done_processing() {
        match code_next(alloc, inner, packets, pass_in, pass_out, handing, count) {
            Ok(next) => count = next,
            Err(fault) => return Err(fault),
        }
    }
    Ok(count)
}
