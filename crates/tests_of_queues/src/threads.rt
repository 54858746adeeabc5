//! Shared queues and the ends over them between two threads. A third closes the queues where these don't come to an end, so that
//! each test ends.

use crate::ends_of_frames::sender_into;
use crate::ends_of_packets::{packet, receiver_from};
use av1_settings::Config;
use session_channels::{
    FrameMessage, FrameSender, PacketMessage, PacketReceiver, Put, RecvError, SharedQueue, Take,
};
use std::alloc::Global;
use std::sync::Wait;
use std::sync::atomic::{AtomicBool, Ordering};
use std::test::Fail;
use std::thread;

/// Puts so many messages, from 0, and closes the queue. Answers how many were put.
fn put_all<R: Wait + Copy>(mut queue: SharedQueue<u16, R>, count: u16) -> u16 {
    let mut put = 0_u16;
    for message in 0..count {
        if queue.put(message).is_ok() {
            put = put.saturating_add(1);
        }
    }
    Put::close(&mut queue);
    put
}

/// Takes at most so many messages, as long as each is the next number. Answers how many were.
fn take_all<R: Wait + Copy>(mut queue: SharedQueue<u16, R>, most: u16) -> u16 {
    for number in 0..most {
        match queue.take() {
            Ok(message) if message == number => {}
            _ => return number,
        }
    }
    most
}

/// How often the third thread looks.
const MOST_LOOKS: u64 = 10_000_000;

/// Closes the queue unless `done` is set in time.
fn watch<M: Drop, R: Wait + Copy>(mut queue: SharedQueue<M, R>, done: &AtomicBool) {
    for _ in 0..MOST_LOOKS {
        if done.load(Ordering::SeqCst) {
            return;
        }
        thread::yield_now();
    }
    Put::close(&mut queue);
}

/// Each put but the first has to wait for a take.
#[test]
fn a_queue_of_one_between_two_threads(rt: HostRuntime) -> Result<(), Fail> {
    let putting = SharedQueue::new(&rt, rt.alloc(), Some(1))?;
    let (taking, watched) = (putting.another()?, putting.another()?);
    let done = AtomicBool::new(false);
    let (counts, ()) = thread::join(
        &rt,
        || {
            let counts = thread::join(&rt, || put_all(putting, 500), || take_all(taking, 501));
            done.store(true, Ordering::SeqCst);
            counts
        },
        || watch(watched, &done),
    );
    assert_eq!(rt; [counts.0, counts.1], [500, 500]);
    Ok(())
}

type Sender<R> = FrameSender<u8, u64, SharedQueue<FrameMessage<u8, u64>, R>>;

type Receiver<R> = PacketReceiver<u8, u64, SharedQueue<PacketMessage<u8, u64>, R>>;

/// Sends so many frames, closes their queue, and receives as many packets and once more. Answers how many came in order, and the
/// last error.
fn encode<R: Wait + Copy>(
    alloc: Global,
    mut sender: Sender<R>,
    mut receiver: Receiver<R>,
    count: u64,
) -> (u64, Option<RecvError>) {
    for _ in 0..count {
        if let Ok(frame) = sender.new_frame(alloc) {
            let _ = sender.send(alloc, frame);
        }
    }
    sender.close();
    let mut in_order = 0_u64;
    for number in 0..count {
        match receiver.recv() {
            Ok(packet) if packet.input_frameno == number => in_order = in_order.saturating_add(1),
            _ => {}
        }
    }
    (in_order, receiver.recv().err())
}

/// Puts a packet for each of the frames that come, at most so many, and closes the queue of packets.
fn answer_frames<R: Wait + Copy>(
    alloc: Global,
    mut frames: SharedQueue<FrameMessage<u8, u64>, R>,
    mut packets: SharedQueue<PacketMessage<u8, u64>, R>,
    most: u64,
) {
    for number in 0..most {
        if frames.take().is_err() {
            break;
        }
        if let Ok(packet) = packet(alloc, number) {
            let _ = packets.put(Ok(packet));
        }
    }
    Put::close(&mut packets);
}

#[test]
fn frames_go_to_another_thread_and_packets_come_back(rt: HostRuntime) -> Result<(), Fail> {
    let alloc = rt.alloc();
    let frames = SharedQueue::new(&rt, alloc, Some(2))?;
    let packets = SharedQueue::new(&rt, alloc, None)?;
    let sender = sender_into(&Config::new(), frames.another()?, 100)?;
    let receiver = receiver_from(&Config::new(), packets.another()?)?;
    let watched = (frames.another()?, packets.another()?);
    let done = AtomicBool::new(false);
    let ((in_order, ended), ()) = thread::join(
        &rt,
        || {
            let (outcome, ()) = thread::join(
                &rt,
                || encode(alloc, sender, receiver, 5),
                || answer_frames(alloc, frames, packets, 10),
            );
            done.store(true, Ordering::SeqCst);
            outcome
        },
        || {
            watch(watched.0, &done);
            watch(watched.1, &done);
        },
    );
    assert_eq!(rt; in_order, 5);
    assert!(rt; matches!(ended, Some(RecvError::Closed)));
    Ok(())
}
