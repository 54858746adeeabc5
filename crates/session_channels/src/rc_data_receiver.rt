ghost use Rattle.std.specs.Prelude.{◌≡◌, ◌==◌, IfSome, None, length};
ghost use Rattle.session_channels.specs.Ends.{IsDataRecv, IsDataTryRecv};
ghost use Rattle.session_channels.specs.Queues.{Takes};

use crate::{Receive, Received, RecvError, Take, TakeError, TryRecvError};
use pass_data::RcData;
use std::marker::Model;

/// The end of a channel from which a first pass's data comes. Contracts see its queue. An end that is dropped leaves its queue
/// as it is.
#[derive(Drop)]
pub struct RcDataReceiver<Q> {
    queue: Q,
}

impl<Q> Model for RcDataReceiver<Q> {
    ghost use Rattle.session_channels.specs.Ends.{DataEnd};

    ghost Value = { DataEnd Q };

    ghost view = { λ r. record { queue = r.queue } };
}

impl<Q: Take<RcData> + Drop> RcDataReceiver<Q> {
    /// A receiver from this queue. No memory is taken.
    pub fn new(queue: Q) -> RcDataReceiver<Q>
        ensures { result.queue ≡ queue }
    {
        RcDataReceiver { queue }
    }

    /// Receives a message by one `try_take` of the queue. Without one: Empty where the queue is empty, Disconnected where it
    /// is empty and closed.
    pub fn try_recv(&mut self) -> Result<RcData, TryRecvError>
        ensures { IsDataTryRecv (Takes Q.try_take_gives Q.contents Q.queue)
            self.old.queue result self.new.queue }
    {
        match self.queue.try_take() {
            Ok(data) => Ok(data),
            Err(TakeError::Empty) => Err(TryRecvError::Empty),
            Err(TakeError::Closed) => Err(TryRecvError::Disconnected),
        }
    }

    /// Receives a message by one `take` of the queue, which may wait. Without one it is Closed: the queue is empty and closed.
    pub fn recv(&mut self) -> Result<RcData, RecvError>
        ensures { IsDataRecv (Takes Q.take_gives Q.contents Q.queue)
            self.old.queue result self.new.queue }
    {
        match self.queue.take() {
            Ok(data) => Ok(data),
            Err(TakeError::Closed) => Err(RecvError::Closed),
            Err(TakeError::Empty) => unreachable!(),
        }
    }

    /// The number of messages in the queue.
    pub fn len(&self) -> usize
        ensures { IfSome (Q.contents self.now.queue) (λ held. result ≡ length held) }
    {
        self.queue.len()
    }

    /// Whether the queue has no message.
    pub fn is_empty(&self) -> bool
        ensures { IfSome (Q.contents self.now.queue) (λ held. result ≡ (length held == 0)) }
    {
        self.len() == 0
    }

    /// The messages that come, up to the first error of `recv`.
    pub fn iter(&mut self) -> Received<'_, RcDataReceiver<Q>>
        ensures same_reference { result.end.ghost_name ≡ self.entry.ghost_name }
        ensures end { result.end.now ≡ self.old }
        ensures ended { result.ended ≡ None }
    {
        Received::new(self)
    }

    /// The bytes of a summary: 68.
    pub fn summary_size(&self) -> usize
        ensures { result ≡ 68 }
    {
        68
    }

    /// Closes the queue.
    pub fn close(mut self) {
        self.queue.close();
    }
}

impl<Q: Take<RcData> + Drop> Receive for RcDataReceiver<Q> {
    ghost use Rattle.session_channels.specs.Ends.{IsDataRecv};
    ghost use Rattle.session_channels.specs.Queues.{Takes};

    type Message = RcData;

    ghost recv_gives = { λ before answer now.
        IsDataRecv (Takes Q.take_gives Q.contents Q.queue) before.queue answer now.queue };

    fn recv(&mut self) -> Result<RcData, RecvError> {
        self.recv()
    }
}
