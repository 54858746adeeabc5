//! Senders and receivers of pass data.
ghost use Rattle.std.specs.Prelude.{◌≡◌};
ghost use Rattle.session_channels.specs.Queues.{next_count};

use arrayvec::ArrayVec;
use coding_base::OutOfMemory;
use session_channels::{
    Counts, Put, PutError, RcData, RcDataReceiver, RcDataSender, Received, RecvError, SendError,
    SharedQueue, Take, TakeError, TryRecvError, TrySendError,
};
use std::alloc::Global;
use std::test::Fail;

/// A frame's pass data of these bytes, or a summary if there are 68.
pub fn data(bytes: &[u8]) -> RcData {
    let mut message = ArrayVec::new();
    for byte in bytes {
        let _ = message.try_push(*byte);
    }
    match bytes.len() {
        68 => RcData::Summary(message),
        _ => RcData::Frame(message),
    }
}

/// The kind of a message, and its bytes.
fn told(alloc: Global, word: &str, message: &RcData) -> Result<String, OutOfMemory> {
    let (kind, bytes) = match message {
        RcData::Frame(bytes) => ("frame", bytes.as_slice()),
        RcData::Summary(bytes) => ("summary", bytes.as_slice()),
    };
    let mut text = format!(in alloc; "{word} {kind}")?;
    for byte in bytes {
        write!(text, " {byte}")?;
    }
    Ok(text)
}

/// A call of a sender, with the byte that is sent, or of a receiver.
#[derive(Clone, Copy)]
enum Call {
    TrySend(u8),
    Send(u8),
    Lens,
    SummarySize,
    TryRecv,
    Recv,
}

use Call::{Lens, Recv, Send, SummarySize, TryRecv, TrySend};

fn try_send<Q: Put<RcData> + Drop>(
    alloc: Global,
    sender: &mut RcDataSender<Q>,
    byte: u8,
) -> Result<String, OutOfMemory> {
    match sender.try_send(data(&[byte])) {
        Ok(()) => Ok(format!(in alloc; "sent")?),
        Err(TrySendError::Full(back)) => told(alloc, "full", &back),
        Err(TrySendError::Disconnected(back)) => told(alloc, "closed", &back),
        Err(TrySendError::OutOfMemory) => Ok(format!(in alloc; "no memory")?),
    }
}

fn send<Q: Put<RcData> + Drop>(
    alloc: Global,
    sender: &mut RcDataSender<Q>,
    byte: u8,
) -> Result<String, OutOfMemory> {
    match sender.send(data(&[byte])) {
        Ok(()) => Ok(format!(in alloc; "sent")?),
        Err(SendError::Refused(back)) => told(alloc, "refused", &back),
        Err(SendError::OutOfMemory) => Ok(format!(in alloc; "no memory")?),
    }
}

fn try_recv<Q: Take<RcData> + Drop>(
    alloc: Global,
    receiver: &mut RcDataReceiver<Q>,
) -> Result<String, OutOfMemory> {
    match receiver.try_recv() {
        Ok(message) => told(alloc, "got", &message),
        Err(TryRecvError::Empty) => Ok(format!(in alloc; "empty")?),
        Err(_) => Ok(format!(in alloc; "ended")?),
    }
}

fn recv<Q: Take<RcData> + Drop>(
    alloc: Global,
    receiver: &mut RcDataReceiver<Q>,
) -> Result<String, OutOfMemory> {
    match receiver.recv() {
        Ok(message) => told(alloc, "got", &message),
        Err(_) => Ok(format!(in alloc; "ended")?),
    }
}

fn answer<P: Put<RcData> + Drop, Q: Take<RcData> + Drop>(
    alloc: Global,
    sender: &mut RcDataSender<P>,
    receiver: &mut RcDataReceiver<Q>,
    call: Call,
) -> Result<String, OutOfMemory> {
    match call {
        TrySend(byte) => try_send(alloc, sender, byte),
        Send(byte) => send(alloc, sender, byte),
        Lens => Ok(format!(in alloc;
            "{} {}, {} {}",
            sender.len(),
            sender.is_empty(),
            receiver.len(),
            receiver.is_empty()
        )?),
        SummarySize => Ok(format!(in alloc; "{}", receiver.summary_size())?),
        TryRecv => try_recv(alloc, receiver),
        Recv => recv(alloc, receiver),
    }
}

/// What a call of `next` gives, and the error that ended the iterator so far.
fn next_told<Q: Take<RcData> + Drop>(
    alloc: Global,
    received: &mut Received<'_, RcDataReceiver<Q>>,
) -> Result<String, OutOfMemory> {
    let mut text = match received.next() {
        Some(message) => told(alloc, "got", &message)?,
        None => format!(in alloc; "none")?,
    };
    text.push_str(match received.ended() {
        None => ", open",
        Some(RecvError::Closed) => ", closed",
        Some(RecvError::Worker(_)) => ", a fault",
    })?;
    Ok(text)
}

const CALLS: [(Call, &str); 11] = [
    (SummarySize, "68"),
    (TryRecv, "empty"),
    (TrySend(1), "sent"),
    (Send(2), "sent"),
    (Send(3), "sent"),
    (TrySend(4), "full frame 4"),
    (Send(5), "refused frame 5"),
    (Lens, "3 false, 3 false"),
    (TryRecv, "got frame 1"),
    (Recv, "got frame 2"),
    (Lens, "1 false, 1 false"),
];

#[test]
fn pass_data_goes_through(rt: HostRuntime) -> Result<(), Fail> {
    let alloc = rt.alloc();
    let queue = SharedQueue::new(&rt, alloc, Some(3))?;
    let mut sender = RcDataSender::new(queue.another()?, 3);
    let mut receiver = RcDataReceiver::new(queue);
    for (number, (call, wanted)) in CALLS.iter().enumerate() {
        let told = answer(alloc, &mut sender, &mut receiver, *call)?;
        assert!(rt; told.as_str() == *wanted, "call {number}: {told}");
    }
    sender.close();
    let mut received = receiver.iter();
    let third = next_told(alloc, &mut received)?;
    let none = next_told(alloc, &mut received)?;
    assert_eq!(rt; third.as_str(), "got frame 3, open");
    assert_eq!(rt; none.as_str(), "none, closed");
    Ok(())
}

#[test]
fn close_closes_and_a_drop_does_not(rt: HostRuntime) -> Result<(), Fail> {
    let mut queue = SharedQueue::new(&rt, rt.alloc(), None)?;
    drop(RcDataSender::new(queue.another()?, 3));
    drop(RcDataReceiver::new(queue.another()?));
    let dropped: Result<RcData, TakeError> = queue.try_take();
    assert!(rt; matches!(&dropped, Err(TakeError::Empty)));
    RcDataReceiver::new(queue.another()?).close();
    let closed = queue.try_take();
    assert!(rt; matches!(&closed, Err(TakeError::Closed)));
    Ok(())
}

/// A queue that is full whenever it holds a message, tells nothing, and whose length is the number of turns so far.
#[derive(Drop)]
struct Turns {
    turns: usize,
    held: bool,
    counts: Counts,
    closes: u64,
    at_close: Counts,
}

fn next_count(count: u64) -> u64
    ensures { result ≡ next_count count }
{
    if count < u64::MAX { count + 1 } else { count }
}

impl Put<RcData> for Turns {
    ghost use Rattle.std.specs.Prelude.{None, Some};

    ghost contents = { λ _. None };

    ghost queue = { λ q. record {
      capacity = Some 1;
      counts = q.counts;
      closes = q.closes;
      at_close = q.at_close;
    } };

    fn try_put(&mut self, message: RcData) -> Result<(), PutError<RcData>> {
        self.turns = self.turns.saturating_add(1);
        if self.held {
            self.counts.full = next_count(self.counts.full);
            return Err(PutError::Full(message));
        }
        self.held = true;
        Ok(())
    }

    fn put(&mut self, message: RcData) -> Result<(), PutError<RcData>> {
        self.try_put(message)
    }

    fn close(&mut self) {
        self.closes = next_count(self.closes);
        self.at_close = self.counts;
    }

    fn len(&self) -> usize {
        self.turns
    }
}

#[test]
fn a_refused_send_is_one_turn_and_none_at_the_limit(rt: HostRuntime) -> Result<(), Fail> {
    let alloc = rt.alloc();
    for (limit, turns) in [(1, 1), (2, 2)] {
        let queue = Turns {
            turns: 0,
            held: false,
            counts: Counts::NONE,
            closes: 0,
            at_close: Counts::NONE,
        };
        let mut sender = RcDataSender::new(queue, limit);
        assert!(rt; sender.is_empty());
        for wanted in ["sent", "full frame 1"] {
            let told = try_send(alloc, &mut sender, 1)?;
            assert_eq!(rt; told.as_str(), wanted);
        }
        assert_eq!(rt; sender.len(), turns);
    }
    Ok(())
}
