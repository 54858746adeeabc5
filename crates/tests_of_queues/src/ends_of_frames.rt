//! Senders of frames, over queues in memory of capacity 2.

use av1_frame::{Frame, Pixel};
use av1_settings::{Config, T35List};
use coding_base::OutOfMemory;
use scripted::no_levels;
use session_channels::{FrameMessage, FrameSender, LocalQueue, Put, SendError, TrySendError};
use session_core::{FrameInput, FrameParameters, FrameTypeOverride, IntoFrame};
use std::alloc::Global;
use std::sync::Arc;
use std::test::Fail;

/// A sender into this queue, of so many frames, if the settings are valid.
pub fn sender_into<T: Drop, Q: Put<FrameMessage<T, u64>> + Drop>(
    config: &Config,
    queue: Q,
    limit: u64,
) -> Result<FrameSender<T, u64, Q>, Fail> {
    match config.validate(&no_levels()) {
        Ok(()) => Ok(FrameSender::new(&config.enc, queue, limit)),
        Err(_) => Err(Fail::from("invalid settings")),
    }
}

/// A call of a sender, with the opaque value of the frame that is sent.
#[derive(Clone, Copy)]
enum Call {
    TrySendWith(u64),
    TrySendAlone,
    TrySendNothing,
    SendSharedWith(u64),
    SendAlone,
    SendNothing,
    Len,
}

use Call::{
    Len, SendAlone, SendNothing, SendSharedWith, TrySendAlone, TrySendNothing, TrySendWith,
};

/// The width and the opaque value of what came back, 0 for none.
fn back<T: Drop>(alloc: Global, word: &str, input: &FrameInput<T, u64>) -> Result<String, Fail> {
    let (frame, parameters) = input;
    let width = match frame {
        Some(frame) => frame.y.width,
        None => 0,
    };
    let opaque = match parameters {
        Some(parameters) => parameters.opaque.unwrap_or(0),
        None => 0,
    };
    Ok(format!(in alloc; "{word} {width} {opaque}")?)
}

type Frames<T> = LocalQueue<FrameMessage<T, u64>>;

fn try_send<T: Drop, F: IntoFrame<T, u64>>(
    alloc: Global,
    sender: &mut FrameSender<T, u64, Frames<T>>,
    frame: F,
) -> Result<String, Fail> {
    match sender.try_send(alloc, frame) {
        Ok(()) => Ok(format!(in alloc; "sent")?),
        Err(TrySendError::Full(input)) => back(alloc, "full", &input),
        Err(TrySendError::Disconnected(input)) => back(alloc, "closed", &input),
        Err(TrySendError::OutOfMemory) => Ok(format!(in alloc; "no memory")?),
    }
}

fn send<T: Drop, F: IntoFrame<T, u64>>(
    alloc: Global,
    sender: &mut FrameSender<T, u64, Frames<T>>,
    frame: F,
) -> Result<String, Fail> {
    match sender.send(alloc, frame) {
        Ok(()) => Ok(format!(in alloc; "sent")?),
        Err(SendError::Refused(input)) => back(alloc, "refused", &input),
        Err(SendError::OutOfMemory) => Ok(format!(in alloc; "no memory")?),
    }
}

fn parameters(alloc: Global, opaque: u64) -> FrameParameters<u64> {
    FrameParameters {
        frame_type_override: FrameTypeOverride::No,
        opaque: Some(opaque),
        t35_metadata: T35List::new(alloc),
    }
}

fn answer<T: Pixel>(
    alloc: Global,
    sender: &mut FrameSender<T, u64, Frames<T>>,
    call: Call,
) -> Result<String, Fail> {
    let frame = sender.new_frame(alloc)?;
    let nothing: Option<Arc<Frame<T>>> = None;
    match call {
        TrySendWith(opaque) => try_send(alloc, sender, (frame, parameters(alloc, opaque))),
        TrySendAlone => try_send(alloc, sender, frame),
        TrySendNothing => try_send(alloc, sender, nothing),
        SendSharedWith(opaque) => {
            let shared = Arc::new(alloc, frame)?;
            send(alloc, sender, (shared, Some(parameters(alloc, opaque))))
        }
        SendAlone => send(alloc, sender, frame),
        SendNothing => send(alloc, sender, nothing),
        Len => Ok(format!(in alloc; "{}", sender.len())?),
    }
}

/// Makes the calls, and tells the answers, between whether the queue was empty.
fn answers<T: Pixel>(alloc: Global, limit: u64, calls: &[Call]) -> Result<String, Fail> {
    let queue: Frames<T> = LocalQueue::new(alloc, Some(2));
    let mut sender = sender_into(&Config::new(), queue, limit)?;
    let mut text = format!(in alloc; "{}, ", sender.is_empty())?;
    for call in calls {
        text.push_str(&answer(alloc, &mut sender, *call)?)?;
        text.push_str(", ")?;
    }
    write!(text, "{}", sender.is_empty())?;
    sender.close();
    Ok(text)
}

#[test]
fn a_full_queue_and_a_limit_give_the_frame_back(rt: HostRuntime) -> Result<(), Fail> {
    let full = [
        TrySendWith(0),
        TrySendWith(1),
        Len,
        TrySendWith(7),
        SendSharedWith(8),
        TrySendNothing,
        TrySendAlone,
    ];
    assert_eq!(rt;
        answers::<u8>(rt.alloc(), 9, &full)?.as_str(),
        "true, sent, sent, 2, full 640 7, refused 640 8, sent, closed 640 0, false"
    );
    let limited = [SendAlone, TrySendAlone, SendAlone, SendNothing];
    assert_eq!(rt;
        answers::<u16>(rt.alloc(), 1, &limited)?.as_str(),
        "true, sent, full 640 0, refused 640 0, sent, false"
    );
    Ok(())
}
