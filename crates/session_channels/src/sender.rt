ghost use Rattle.std.specs.Prelude.{◌≡◌, IfSome, length};
ghost use Rattle.session_channels.specs.Ends.{IsSenderPut, new_sender};
ghost use Rattle.session_channels.specs.Queues.{Closes, Puts};

use crate::{Put, PutError};
use std::marker::Model;

// What both kinds of senders have: a queue, how many messages may be sent, and how many were.
#[derive(Drop)]
pub(crate) struct LimitedSender<Q> {
    queue: Q,
    limit: u64,
    sent: u64,
}

impl<Q> Model for LimitedSender<Q> {
    ghost use Rattle.std.specs.Prelude.{◌≤◌};
    ghost use Rattle.session_channels.specs.Ends.{Sender};

    ghost Value = { Sender Q };

    ghost view = { λ s. record { queue = s.queue; limit = s.limit; sent = s.sent } };

    ghost invariant = { λ s. s.sent ≤ s.limit };
}

impl<Q> LimitedSender<Q> {
    pub(crate) fn new(queue: Q, limit: u64) -> LimitedSender<Q>
        ensures { result ≡ new_sender queue limit }
    {
        LimitedSender {
            queue,
            limit,
            sent: 0,
        }
    }

    pub(crate) fn try_put<M>(&mut self, message: M) -> Result<(), PutError<M>>
    where
        Q: Put<M>,
        ensures { IsSenderPut (Puts Q.try_put_gives Q.contents Q.queue)
            self.old message result self.new }
    {
        if self.sent == self.limit {
            return Err(PutError::Full(message));
        }
        let answer = self.queue.try_put(message);
        if answer.is_ok() {
            self.sent += 1;
        }
        answer
    }

    pub(crate) fn put<M>(&mut self, message: M) -> Result<(), PutError<M>>
    where
        Q: Put<M>,
        ensures { IsSenderPut (Puts Q.put_gives Q.contents Q.queue)
            self.old message result self.new }
    {
        if self.sent == self.limit {
            return Err(PutError::Full(message));
        }
        let answer = self.queue.put(message);
        if answer.is_ok() {
            self.sent += 1;
        }
        answer
    }

    pub(crate) fn close<M>(&mut self)
    where
        Q: Put<M>,
        ensures queue { Closes Q.contents Q.queue self.old.queue self.new.queue }
        ensures limit { self.new.limit ≡ self.old.limit }
        ensures sent { self.new.sent ≡ self.old.sent }
    {
        self.queue.close();
    }

    pub(crate) fn len<M>(&self) -> usize
    where
        Q: Put<M>,
        ensures { IfSome (Q.contents self.now.queue) (λ held. result ≡ length held) }
    {
        self.queue.len()
    }
}
