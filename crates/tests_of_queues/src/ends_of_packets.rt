//! Receivers of packets.

use av1_settings::{Config, EncoderStats, FrameType};
use coding_base::{Bytes, OutOfMemory};
use scripted::no_levels;
use session_channels::{
    ChannelFault, LocalQueue, PacketMessage, PacketReceiver, Received, RecvError, Take,
    TryRecvError,
};
use session_core::Packet;
use std::alloc::Global;
use std::test::Fail;

/// A receiver from this queue, if the settings are valid.
pub fn receiver_from<Q: Take<PacketMessage<u8, u64>> + Drop>(
    config: &Config,
    queue: Q,
) -> Result<PacketReceiver<u8, u64, Q>, Fail> {
    match config.validate(&no_levels()) {
        Ok(()) => Ok(PacketReceiver::new(&config.enc, queue)),
        Err(_) => Err(Fail::from("invalid settings")),
    }
}

/// The packet of this number, of two bytes.
pub fn packet(alloc: Global, input_frameno: u64) -> Result<Packet<u8, u64>, OutOfMemory> {
    Ok(Packet {
        bytes: Bytes::from_slice(alloc, &[18, 0])?,
        rec: None,
        source: None,
        input_frameno,
        frame_type: FrameType::KEY,
        qp: 0,
        enc_stats: EncoderStats::default(),
        opaque: None,
    })
}

type Packets = LocalQueue<PacketMessage<u8, u64>>;

/// A closed queue of three packets and the fault behind them.
fn packets(alloc: Global, fault: ChannelFault) -> Result<Packets, OutOfMemory> {
    let mut queue = LocalQueue::new(alloc, None);
    for number in 0..3 {
        let _ = queue.put(Ok(packet(alloc, number)?));
    }
    let _ = queue.put(Err(fault));
    queue.close();
    Ok(queue)
}

type Receiver = PacketReceiver<u8, u64, Packets>;

fn try_recv(alloc: Global, receiver: &mut Receiver) -> Result<String, OutOfMemory> {
    Ok(match receiver.try_recv() {
        Ok(packet) => format!(in alloc; "{}", packet.input_frameno)?,
        Err(TryRecvError::Empty) => format!(in alloc; "empty")?,
        Err(TryRecvError::Disconnected) => format!(in alloc; "closed")?,
        Err(TryRecvError::Worker(fault)) => format!(in alloc; "{fault}")?,
    })
}

fn ended(alloc: Global, error: Option<RecvError>) -> Result<String, OutOfMemory> {
    Ok(match error {
        None => format!(in alloc; "open")?,
        Some(RecvError::Closed) => format!(in alloc; "closed")?,
        Some(RecvError::Worker(fault)) => format!(in alloc; "{fault}")?,
    })
}

/// What a call of `next` gives, and the error that ended the iterator so far.
fn next_told(alloc: Global, received: &mut Received<'_, Receiver>) -> Result<String, OutOfMemory> {
    let mut text = match received.next() {
        Some(packet) => format!(in alloc; "{} ", packet.input_frameno)?,
        None => format!(in alloc; "none ")?,
    };
    text.push_str(&ended(alloc, received.ended())?)?;
    Ok(text)
}

/// What four calls of `next` give.
fn iterated(alloc: Global, receiver: &mut Receiver) -> Result<String, OutOfMemory> {
    let mut received = receiver.iter();
    let one = next_told(alloc, &mut received)?;
    let two = next_told(alloc, &mut received)?;
    let three = next_told(alloc, &mut received)?;
    let four = next_told(alloc, &mut received)?;
    Ok(format!(in alloc; "{one}, {two}, {three}, {four}")?)
}

/// The header, the length and whether there is nothing.
fn state(alloc: Global, receiver: &Receiver) -> Result<String, OutOfMemory> {
    let [a, b, c, d] = receiver.container_sequence_header();
    let (len, is_empty) = (receiver.len(), receiver.is_empty());
    Ok(format!(in alloc; "{a:02x} {b:02x} {c:02x} {d:02x}; {len} {is_empty}")?)
}

#[test]
fn packets_come_and_then_the_fault(rt: HostRuntime) -> Result<(), Fail> {
    let alloc = rt.alloc();
    let queue = packets(alloc, ChannelFault::Coder { command: 5 })?;
    let mut receiver = receiver_from(&Config::new(), queue)?;
    let before = state(alloc, &receiver)?;
    let first = try_recv(alloc, &mut receiver)?;
    let rest = iterated(alloc, &mut receiver)?;
    let after = state(alloc, &receiver)?;
    let waited = ended(alloc, receiver.recv().err())?;
    let last = try_recv(alloc, &mut receiver)?;
    receiver.close();
    for (told, wanted) in [
        (before, "81 1f 0c 00; 4 false"),
        (first, "0"),
        (
            rest,
            "1 open, 2 open, none the coder failed at command 5, none the coder failed at command 5",
        ),
        (after, "81 1f 0c 00; 0 true"),
        (waited, "closed"),
        (last, "closed"),
    ] {
        assert_eq!(rt; told.as_str(), wanted);
    }
    Ok(())
}
