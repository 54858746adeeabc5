//! The texts of errors.

use av1_settings::EncoderStatus;
use pass_data::PassDataError;
use session_channels::{
    ChannelFault, PutError, RecvError, SendError, TakeError, TryRecvError, TrySendError,
};
use std::alloc::Global;
use std::fmt::Display;

fn is_told<E: Display + Drop>(alloc: Global, error: E, wanted: &str) -> bool {
    match error.to_string(alloc) {
        Ok(text) => text.as_str() == wanted,
        Err(_) => false,
    }
}

#[test]
fn texts_of_refusals(rt: HostRuntime) {
    let alloc = rt.alloc();
    let no_more = "the channel takes no further message";
    let refusals = [
        is_told(alloc, PutError::Full(7), "the queue is full"),
        is_told(alloc, PutError::Closed(7), "the queue is closed"),
        is_told(alloc, PutError::OutOfMemory(7), "out of memory"),
        is_told(alloc, TakeError::Empty, "the queue is empty"),
        is_told(alloc, TakeError::Closed, "the queue is closed"),
        is_told(alloc, TrySendError::Full(7), "the channel is full"),
        is_told(
            alloc,
            TrySendError::Disconnected(7),
            "the channel is closed",
        ),
        is_told(alloc, SendError::Refused(7), no_more),
    ];
    for (number, told) in refusals.iter().enumerate() {
        assert!(rt; *told, "refusal {number}");
    }
}

#[test]
fn texts_of_ends(rt: HostRuntime) {
    let alloc = rt.alloc();
    let missing = ChannelFault::PassDataMissing;
    let ended = "the worker ended: pass data is missing";
    let ends = [
        is_told(alloc, RecvError::Closed, "the channel is closed"),
        is_told(alloc, RecvError::Worker(missing), ended),
        is_told(alloc, TryRecvError::Empty, "the channel is empty"),
        is_told(alloc, TryRecvError::Disconnected, "the channel is closed"),
        is_told(alloc, TryRecvError::Worker(missing), ended),
    ];
    for (number, told) in ends.iter().enumerate() {
        assert!(rt; *told, "end {number}");
    }
}

const FAULTS: [(ChannelFault, &str); 8] = [
    (
        ChannelFault::Coder { command: 3 },
        "the coder failed at command 3",
    ),
    (
        ChannelFault::FrameRefused(EncoderStatus::FrameSizeMismatch),
        "a frame was refused: frame size mismatch",
    ),
    (
        ChannelFault::PassData(PassDataError::NotNeeded),
        "pass data was refused: no frame data is needed",
    ),
    (ChannelFault::PassDataMissing, "pass data is missing"),
    (
        ChannelFault::PassDataKind,
        "a summary came in place of a frame's pass data",
    ),
    (
        ChannelFault::PassDataEnded { total: 1 },
        "pass data ended after 1 commands",
    ),
    (
        ChannelFault::PacketsClosed,
        "the queue of packets or of pass data was closed",
    ),
    (ChannelFault::OutOfMemory, "out of memory"),
];

#[test]
fn texts_of_faults(rt: HostRuntime) {
    for (fault, wanted) in &FAULTS {
        assert!(rt; is_told(rt.alloc(), *fault, wanted), "{wanted}");
    }
}
