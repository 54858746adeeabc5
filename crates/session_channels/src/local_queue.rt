ghost use Rattle.std.specs.Prelude.{◌≡◌, true, length};
ghost use Rattle.session_channels.specs.LocalQueues.{IsPut, IsTake, after_close, is_full, local_of, new_local};

use crate::counts::next_count;
use crate::{Counts, Put, PutError, Take, TakeError};
use std::alloc::Global;
use std::collections::VecDeque;

/// A queue in memory, for one thread. It tells its contents.
#[derive(Drop)]
pub struct LocalQueue<M> {
    messages: VecDeque<M>,
    capacity: Option<usize>,
    closed: bool,
    counts: Counts,
    closes: u64,
    at_close: Counts,
}

impl<M> LocalQueue<M> {
    /// An open queue without messages, which holds `capacity` at most; None is no capacity. No memory is taken.
    pub fn new(alloc: Global, capacity: Option<usize>) -> LocalQueue<M>
        ensures { local_of result ≡ new_local capacity }
    {
        LocalQueue {
            messages: VecDeque::new(alloc),
            capacity,
            closed: false,
            counts: Counts::NONE,
            closes: 0,
            at_close: Counts::NONE,
        }
    }

    /// Puts a message behind the others: Closed where the queue is closed, else Full where it holds its capacity.
    pub fn try_put(&mut self, message: M) -> Result<(), PutError<M>>
        ensures { IsPut (local_of self.old) message result (local_of self.new) }
    {
        if self.closed {
            self.counts.closed = next_count(self.counts.closed);
            return Err(PutError::Closed(message));
        }
        if self.is_full() {
            self.counts.full = next_count(self.counts.full);
            return Err(PutError::Full(message));
        }
        match self.messages.push_back(message) {
            Ok(()) => Ok(()),
            Err(refused) => {
                self.counts.out_of_memory = next_count(self.counts.out_of_memory);
                Err(PutError::OutOfMemory(refused.value))
            }
        }
    }

    /// The same: nobody else takes from this queue, so there is nothing to wait for.
    pub fn put(&mut self, message: M) -> Result<(), PutError<M>>
        ensures { IsPut (local_of self.old) message result (local_of self.new) }
    {
        self.try_put(message)
    }

    /// Takes the front. Where there is none: Closed if the queue is closed, else Empty. No memory is taken.
    pub fn try_take(&mut self) -> Result<M, TakeError>
        ensures { IsTake (local_of self.old).is_closed (local_of self.old) result
            (local_of self.new) }
    {
        self.take_front(self.closed)
    }

    /// Takes the front. Where there is none it answers Closed: nobody else puts into this queue.
    pub fn take(&mut self) -> Result<M, TakeError>
        ensures { IsTake true (local_of self.old) result (local_of self.new) }
    {
        self.take_front(true)
    }

    /// Closes the queue. The messages in it stay, and can be taken.
    pub fn close(&mut self)
        ensures { local_of self.new ≡ after_close (local_of self.old) }
    {
        self.closed = true;
        self.closes = next_count(self.closes);
        self.at_close = self.counts;
    }

    /// The number of messages in the queue.
    pub fn len(&self) -> usize
        ensures { result ≡ length (local_of self.now).contents }
    {
        self.messages.len()
    }

    // Takes the front; where there is none it answers Closed or Empty as the caller says.
    fn take_front(&mut self, closed: bool) -> Result<M, TakeError>
        ensures { IsTake closed (local_of self.old) result (local_of self.new) }
    {
        match self.messages.pop_front() {
            Some(front) => Ok(front),
            None if closed => {
                self.counts.closed = next_count(self.counts.closed);
                Err(TakeError::Closed)
            }
            None => {
                self.counts.empty = next_count(self.counts.empty);
                Err(TakeError::Empty)
            }
        }
    }

    // Whether the queue holds its capacity.
    fn is_full(&self) -> bool
        ensures { result ≡ is_full (local_of self.now) }
    {
        self.capacity
            .is_some_and(|capacity| capacity <= self.messages.len())
    }
}

impl<M> Put<M> for LocalQueue<M> {
    ghost use Rattle.std.specs.Prelude.{Some};
    ghost use Rattle.session_channels.specs.LocalQueues.{IsPut, local_of};

    ghost contents = { λ local. Some (local_of local).contents };

    ghost queue = { λ local. (local_of local).queue };

    ghost try_put_gives = { λ before message answer now.
        IsPut (local_of before) message answer (local_of now) };

    ghost put_gives = { λ before message answer now.
        IsPut (local_of before) message answer (local_of now) };

    fn try_put(&mut self, message: M) -> Result<(), PutError<M>> {
        self.try_put(message)
    }

    fn put(&mut self, message: M) -> Result<(), PutError<M>> {
        self.put(message)
    }

    fn close(&mut self) {
        self.close();
    }

    fn len(&self) -> usize {
        self.len()
    }
}

impl<M> Take<M> for LocalQueue<M> {
    ghost use Rattle.std.specs.Prelude.{Some, true};
    ghost use Rattle.session_channels.specs.LocalQueues.{IsTake, local_of};

    ghost contents = { λ local. Some (local_of local).contents };

    ghost queue = { λ local. (local_of local).queue };

    ghost try_take_gives = { λ before answer now.
        IsTake (local_of before).is_closed (local_of before) answer (local_of now) };

    ghost take_gives = { λ before answer now. IsTake true (local_of before) answer (local_of now) };

    fn try_take(&mut self) -> Result<M, TakeError> {
        self.try_take()
    }

    fn take(&mut self) -> Result<M, TakeError> {
        self.take()
    }

    fn close(&mut self) {
        self.close();
    }

    fn len(&self) -> usize {
        self.len()
    }
}
