ghost use Rattle.std.specs.Prelude.{◌≡◌, ◌==◌, IfSome, length};
ghost use Rattle.session_channels.specs.Ends.{IsDataSend, new_sender, send_result, try_send_result};
ghost use Rattle.session_channels.specs.Queues.{Puts};

use crate::answers::{send_result, try_send_result};
use crate::sender::LimitedSender;
use crate::{Put, SendError, TrySendError};
use pass_data::RcData;
use std::marker::Model;

/// The end of a channel into which the pass data of a first pass is sent. Contracts see its queue, how many messages it may
/// send (`limit`) and how many it has sent (`sent`). An end that is dropped leaves its queue as it is.
#[derive(Drop)]
pub struct RcDataSender<Q> {
    sender: LimitedSender<Q>,
}

impl<Q> Model for RcDataSender<Q> {
    ghost use Rattle.session_channels.specs.Ends.{Sender};

    ghost Value = { Sender Q };

    ghost view = { λ s. s.sender };
}

impl<Q: Put<RcData> + Drop> RcDataSender<Q> {
    /// A sender into this queue, of `limit` messages at most. No memory is taken.
    pub fn new(queue: Q, limit: u64) -> RcDataSender<Q>
        ensures { result ≡ new_sender queue limit }
    {
        RcDataSender {
            sender: LimitedSender::new(queue, limit),
        }
    }

    /// Sends a message by one `try_put` of the queue: Full at the limit, without a turn, and where the queue is full;
    /// Disconnected where it is closed. The refused message comes back.
    pub fn try_send(&mut self, message: RcData) -> Result<(), TrySendError<RcData>>
        ensures { IsDataSend (Puts Q.try_put_gives Q.contents Q.queue)
            (try_send_result (λ told. told)) self.old message result self.new }
    {
        try_send_result(self.sender.try_put(message))
    }

    /// Sends a message by one `put` of the queue, which may wait: Refused at the limit, without a turn, and where the queue is
    /// closed, or full and doesn't wait. The refused message comes back.
    pub fn send(&mut self, message: RcData) -> Result<(), SendError<RcData>>
        ensures { IsDataSend (Puts Q.put_gives Q.contents Q.queue)
            (send_result (λ told. told)) self.old message result self.new }
    {
        send_result(self.sender.put(message))
    }

    /// The number of messages in the queue.
    pub fn len(&self) -> usize
        ensures { IfSome (Q.contents self.now.queue) (λ held. result ≡ length held) }
    {
        self.sender.len()
    }

    /// Whether the queue has no message.
    pub fn is_empty(&self) -> bool
        ensures { IfSome (Q.contents self.now.queue) (λ held. result ≡ (length held == 0)) }
    {
        self.len() == 0
    }

    /// Closes the queue.
    pub fn close(mut self) {
        self.sender.close();
    }
}
