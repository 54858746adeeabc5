//! Workers of channels, on one thread where all frames are sent before, and on a thread of their own. No call of the other thread
//! waits without an end, and it closes its ends at the end, so that each test ends.
ghost use Rattle.std.specs.Prelude.{◌≡◌, None};

use crate::channels::{Channel, Kind, PlainWorker, open_channel};
use crate::courses::{ONE, course};
use crate::ends_of_frames::sender_into;
use crate::ends_of_packets::receiver_from;
use crate::settings::small;
use av1_frame::Frame;
use av1_settings::RateControlConfig;
use coding_base::OutOfMemory;
use session_channels::{
    ChannelFault, FrameMessage, FrameSender, PacketMessage, PacketReceiver, Put, RcData,
    RcDataReceiver, RcDataSender, SharedQueue, TryRecvError, TrySendError, VideoDataChannel,
};
use std::alloc::Global;
use std::sync::{Arc, Wait};
use std::test::Fail;
use std::thread;

type FrameQueue<R> = SharedQueue<FrameMessage<u8, u64>, R>;

type PacketQueue<R> = SharedQueue<PacketMessage<u8, u64>, R>;

/// How often a call that finds no room, or nothing, is made again.
const MOST_TURNS: u64 = 10_000_000;

/// Sends a frame, again and again while the queue is full. Answers whether it was sent.
fn send_frame<R: Wait + Copy>(
    alloc: Global,
    sender: &mut FrameSender<u8, u64, FrameQueue<R>>,
    frame: Arc<Frame<u8>>,
) -> bool {
    let mut waiting = Some(frame);
    for _ in 0..MOST_TURNS {
        match sender.try_send(alloc, waiting) {
            Ok(()) => return true,
            Err(TrySendError::Full(message)) => waiting = message.0,
            Err(_) => return false,
        }
        thread::yield_now();
    }
    false
}

/// Sends so many frames. Answers how many were sent.
fn send<R: Wait + Copy>(
    alloc: Global,
    sender: &mut FrameSender<u8, u64, FrameQueue<R>>,
    count: u64,
) -> u64 {
    for number in 0..count {
        let Ok(frame) = sender.new_frame(alloc) else {
            return number;
        };
        let Ok(frame) = Arc::new(alloc, frame) else {
            return number;
        };
        if !send_frame(alloc, sender, frame) {
            return number;
        }
    }
    count
}

/// Receives at most so many packets, as long as each is the next, and pauses behind each. Answers how many came, and the error
/// that ended it.
fn receive<R: Wait + Copy>(
    receiver: &mut PacketReceiver<u8, u64, PacketQueue<R>>,
    most: u64,
    pause: u64,
) -> (u64, Option<TryRecvError>) {
    let mut received = 0_u64;
    for _ in 0..MOST_TURNS {
        if received >= most {
            break;
        }
        match receiver.try_recv() {
            Ok(packet) if packet.input_frameno == received => {
                received = received.saturating_add(1);
                yield_often(pause);
            }
            Ok(_) => break,
            Err(TryRecvError::Empty) => thread::yield_now(),
            Err(error) => return (received, Some(error)),
        }
    }
    (received, None)
}

fn yield_often(times: u64) {
    for _ in 0..times {
        thread::yield_now();
    }
}

/// What a thread that uses a channel does beside sending frames and receiving packets.
#[derive(Clone, Copy)]
enum Use {
    /// It closes the queue of frames, and pauses behind each packet.
    All { pause: u64 },
    /// It receives one packet, closes their queue, and sends a frame after that, so that a packet is left.
    CloseEarly,
}

/// Sends so many frames and receives packets: how many were sent and received, and the error that ended the packets.
fn seen<R: Wait + Copy>(
    alloc: Global,
    ends: VideoDataChannel<u8, u64, R>,
    count: u64,
    how: Use,
) -> (u64, u64, Option<TryRecvError>) {
    let (mut sender, mut receiver) = ends;
    let sent = send(alloc, &mut sender, count);
    match how {
        Use::All { pause } => {
            sender.close();
            let (received, ended) = receive(&mut receiver, count.saturating_add(1), pause);
            receiver.close();
            (sent, received, ended)
        }
        Use::CloseEarly => {
            let (received, ended) = receive(&mut receiver, 1, 0);
            receiver.close();
            let last = send(alloc, &mut sender, 1);
            sender.close();
            (sent.saturating_add(last), received, ended)
        }
    }
}

/// What was seen, and how the worker ended.
fn told(
    alloc: Global,
    seen: (u64, u64, Option<TryRecvError>),
    worked: Result<(), ChannelFault>,
) -> Result<String, OutOfMemory> {
    let (sent, received, ended) = seen;
    let mut text = format!(in alloc; "sent {sent}, received {received}, ")?;
    match ended {
        None => text.push_str("open; ")?,
        Some(error) => write!(text, "{error}; ")?,
    }
    match worked {
        Ok(()) => text.push_str("ok")?,
        Err(fault) => write!(text, "{fault}")?,
    }
    Ok(text)
}

/// Runs the worker, once.
fn work<R: Wait + Copy>(alloc: Global, mut worker: PlainWorker<R>) -> Result<(), ChannelFault> {
    if worker.has_run() {
        return Err(ChannelFault::OutOfMemory);
    }
    let ended = worker.run(alloc);
    if worker.has_run() {
        ended
    } else {
        Err(ChannelFault::OutOfMemory)
    }
}

#[test]
fn packets_come_from_another_thread(rt: HostRuntime) -> Result<(), Fail> {
    let alloc = rt.alloc();
    for (count, how, wanted) in [
        (
            41,
            Use::All { pause: 0 },
            "sent 41, received 41, the channel is closed; ok",
        ),
        (
            20,
            Use::CloseEarly,
            "sent 21, received 1, open; the queue of packets or of pass data was closed",
        ),
    ] {
        let Channel { ends, worker, .. } = open_channel(&rt, alloc, Kind::One, &small(10))?;
        let (seen, worked) = thread::join(
            &rt,
            || seen(alloc, ends, count, how),
            || work(alloc, worker),
        );
        assert_eq!(rt; told(alloc, seen, worked)?.as_str(), wanted);
    }
    Ok(())
}

/// Drives a session between these queues.
fn drive_between<R: Wait + Copy>(
    alloc: Global,
    frames: FrameQueue<R>,
    packets: PacketQueue<R>,
) -> Result<(), ChannelFault>
    requires { packets.capacity ≡ None }
{
    let (mut frames, mut packets) = (frames, packets);
    match course(alloc, &ONE, &[], &mut frames, &mut packets) {
        Ok((answer, _)) => answer,
        Err(_) => Err(ChannelFault::OutOfMemory),
    }
}

/// The sender has to wait for the course before each frame but the first, and the packets wait for the receiver.
#[test]
fn a_queue_of_one_frame_and_a_slow_receiver(rt: HostRuntime) -> Result<(), Fail> {
    let alloc = rt.alloc();
    let frames = SharedQueue::new(&rt, alloc, Some(1))?;
    let packets = SharedQueue::new(&rt, alloc, None)?;
    let config = small(10);
    let ends = (
        sender_into(&config, frames.another()?, 100)?,
        receiver_from(&config, packets.another()?)?,
    );
    let (seen, worked) = thread::join(
        &rt,
        || seen(alloc, ends, 12, Use::All { pause: 1000 }),
        move || -> Result<(), ChannelFault>
            requires { packets.capacity ≡ None }
        { drive_between(alloc, frames, packets) },
    );
    assert_eq!(rt;
        told(alloc, seen, worked)?.as_str(),
        "sent 12, received 12, the channel is closed; ok"
    );
    Ok(())
}

/// Drops the sender, looks for a packet, and closes the queue of frames by another handle.
fn drop_sender<R: Wait + Copy>(
    alloc: Global,
    ends: VideoDataChannel<u8, u64, R>,
    mut frames: FrameQueue<R>,
) -> (u64, u64, Option<TryRecvError>) {
    let (mut sender, mut receiver) = ends;
    let sent = send(alloc, &mut sender, 3);
    drop(sender);
    yield_often(1000);
    let early = receiver.try_recv().err();
    Put::close(&mut frames);
    let (received, _) = receive(&mut receiver, 4, 0);
    receiver.close();
    (sent, received, early)
}

/// A sender of frames that is dropped leaves the course waiting for more; a close of the queue by another handle ends it.
#[test]
fn a_course_waits_until_its_frames_are_closed(rt: HostRuntime) -> Result<(), Fail> {
    let alloc = rt.alloc();
    let frames = SharedQueue::new(&rt, alloc, Some(20))?;
    let packets = SharedQueue::new(&rt, alloc, None)?;
    let config = small(10);
    let ends = (
        sender_into(&config, frames.another()?, 100)?,
        receiver_from(&config, packets.another()?)?,
    );
    let closing = frames.another()?;
    let (seen, worked) = thread::join(
        &rt,
        || drop_sender(alloc, ends, closing),
        move || -> Result<(), ChannelFault>
            requires { packets.capacity ≡ None }
        { drive_between(alloc, frames, packets) },
    );
    assert_eq!(rt;
        told(alloc, seen, worked)?.as_str(),
        "sent 3, received 3, the channel is empty; ok"
    );
    Ok(())
}

/// The frames of each pass.
const FRAMES: u64 = 12;

/// Receives at most a hundred messages, up to the first error, of which the last is the summary. Gives it apart.
fn take_all<R: Wait + Copy>(
    alloc: Global,
    receiver: &mut RcDataReceiver<SharedQueue<RcData, R>>,
) -> Result<(Vec<RcData>, RateControlConfig), Fail> {
    let mut messages = Vec::new(alloc);
    for _ in 0..100 {
        match receiver.try_recv() {
            Ok(message) => messages.push(message)?,
            Err(_) => break,
        }
    }
    match messages.pop() {
        Some(RcData::Summary(bytes)) => {
            Ok((messages, RateControlConfig::from_summary_slice(&bytes)?))
        }
        _ => Err(Fail::from("no summary")),
    }
}

/// Sends these messages. Whether each was sent.
fn give_all<R: Wait + Copy>(
    mut sender: RcDataSender<SharedQueue<RcData, R>>,
    messages: Vec<RcData>,
) -> bool {
    let mut are_sent = true;
    for message in messages {
        are_sent = sender.send(message).is_ok() && are_sent;
    }
    sender.close();
    are_sent
}

/// Carries out a pass of this kind on one thread, with the pass data of the one before. Gives what was seen of it, and the data
/// that it hands on.
fn pass<R: Wait + Copy>(
    rt: R,
    alloc: Global,
    kind: Kind,
    control: RateControlConfig,
    messages: Vec<RcData>,
) -> Result<(String, Vec<RcData>, RateControlConfig), Fail> {
    let mut config = small(10).with_rate_control(control);
    config.enc.bitrate = 30000;
    let Channel {
        ends: (mut sender, mut receiver),
        data_in,
        data_out,
        worker,
    } = open_channel(rt, alloc, kind, &config)?;
    let given = match data_in {
        Some(data_in) => give_all(data_in, messages),
        None => messages.is_empty(),
    };
    let sent = send(alloc, &mut sender, FRAMES);
    sender.close();
    let worked = work(alloc, worker);
    let (received, ended) = receive(&mut receiver, 100, 0);
    let text = told(alloc, (sent, received, ended), worked)?;
    if !given {
        return Err(Fail::from("pass data was not taken"));
    }
    match data_out {
        Some(mut data_out) => {
            let (messages, control) = take_all(alloc, &mut data_out)?;
            Ok((text, messages, control))
        }
        None => Ok((text, Vec::new(alloc), RateControlConfig::new())),
    }
}

/// All frames of a pass are sent before its worker runs.
#[test]
fn data_goes_from_a_first_pass_to_one_that_is_both_and_to_a_second(
    rt: HostRuntime,
) -> Result<(), Fail> {
    let alloc = rt.alloc();
    let mut control = RateControlConfig::new();
    let mut messages = Vec::new(alloc);
    for (kind, emits) in [
        (Kind::First, true),
        (Kind::Both, true),
        (Kind::Second, false),
    ] {
        let control_now = control.with_emit_data(emits);
        let (text, data, summary) = pass(&rt, alloc, kind, control_now, messages)?;
        assert_eq!(rt;
            text.as_str(),
            "sent 12, received 12, the channel is closed; ok"
        );
        control = summary;
        messages = data;
    }
    Ok(())
}
