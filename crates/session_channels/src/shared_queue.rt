ghost use Rattle.std.specs.Prelude.{◌≡◌, Err, IfErr, IfOk};
ghost use Rattle.session_channels.specs.Queues.{IsClosing, given_back, new_queue};
ghost use Rattle.session_channels.specs.SharedQueues.{after_put, after_take, told_put};

use crate::counts::next_count;
use crate::{Counts, LocalQueue, Put, PutError, Take, TakeError};
use coding_base::OutOfMemory;
use std::alloc::Global;
use std::marker::Model;
use std::sync::{Arc, Condvar, Mutex, Wait};

// What the handles of a queue share: the queue in memory, and where threads wait for a move of it.
#[derive(Drop)]
struct Shared<M> {
    queue: Mutex<LocalQueue<M>>,
    moved: Condvar,
}

/// A handle on a queue that threads share. Each turn is one call of a [`LocalQueue`] under a lock; `put` waits in place of
/// answering Full, and `take` in place of answering Empty. It tells no contents, and its counts are of this handle's calls.
#[derive(Drop)]
pub struct SharedQueue<M, R> {
    rt: R,
    shared: Arc<Shared<M>>,
    capacity: Option<usize>,
    counts: Counts,
    closes: u64,
    at_close: Counts,
}

impl<M, R> Model for SharedQueue<M, R> {
    ghost use Rattle.session_channels.specs.Queues.{Queue};

    ghost Value = { Queue };

    ghost view = { λ s. record {
      capacity = s.capacity;
      counts = s.counts;
      closes = s.closes;
      at_close = s.at_close;
    } };
}

impl<M: Drop, R: Wait + Copy> SharedQueue<M, R> {
    /// An open queue without messages, which holds `capacity` at most; None is no capacity. Its calls wait by `rt`.
    pub fn new(
        rt: R,
        alloc: Global,
        capacity: Option<usize>,
    ) -> Result<SharedQueue<M, R>, OutOfMemory>
        ensures { IfOk result (λ made. made ≡ new_queue capacity) }
    {
        let shared = Shared {
            queue: Mutex::new(LocalQueue::new(alloc, capacity)),
            moved: Condvar::new(),
        };
        Ok(SharedQueue::handle(rt, Arc::new(alloc, shared)?, capacity))
    }

    /// A second handle on the same queue.
    pub fn another(&self) -> Result<SharedQueue<M, R>, OutOfMemory>
        ensures { IfOk result (λ made. made ≡ new_queue self.now.capacity) }
    {
        let shared = Arc::try_clone(&self.shared)?;
        Ok(SharedQueue::handle(self.rt, shared, self.capacity))
    }

    // A handle that was not used yet.
    fn handle(rt: R, shared: Arc<Shared<M>>, capacity: Option<usize>) -> SharedQueue<M, R>
        ensures { result ≡ new_queue capacity }
    {
        SharedQueue {
            rt,
            shared,
            capacity,
            counts: Counts::NONE,
            closes: 0,
            at_close: Counts::NONE,
        }
    }

    // Counts a put's refusal, and gives the handle's answer.
    fn counted_put(&mut self, answer: Result<(), PutError<M>>) -> Result<(), PutError<M>>
        ensures told { result ≡ told_put self.old.capacity answer }
        ensures counted { self.new ≡ after_put self.old result }
    {
        match answer {
            Ok(()) => Ok(()),
            Err(PutError::Full(message)) => {
                if self.capacity.is_some() {
                    self.counts.full = next_count(self.counts.full);
                    Err(PutError::Full(message))
                } else {
                    self.counts.out_of_memory = next_count(self.counts.out_of_memory);
                    Err(PutError::OutOfMemory(message))
                }
            }
            Err(PutError::Closed(message)) => {
                self.counts.closed = next_count(self.counts.closed);
                Err(PutError::Closed(message))
            }
            Err(PutError::OutOfMemory(message)) => {
                self.counts.out_of_memory = next_count(self.counts.out_of_memory);
                Err(PutError::OutOfMemory(message))
            }
        }
    }

    // Counts a take's refusal.
    fn counted_take(&mut self, answer: Result<M, TakeError>) -> Result<M, TakeError>
        ensures told { result ≡ answer }
        ensures counted { self.new ≡ after_take self.old result }
    {
        match answer {
            Ok(front) => Ok(front),
            Err(TakeError::Empty) => {
                self.counts.empty = next_count(self.counts.empty);
                Err(TakeError::Empty)
            }
            Err(TakeError::Closed) => {
                self.counts.closed = next_count(self.counts.closed);
                Err(TakeError::Closed)
            }
        }
    }

    fn close_shared(&mut self)
        ensures { IsClosing self.old self.new }
    {
        self.shared.close(&self.rt);
        self.closes = next_count(self.closes);
        self.at_close = self.counts;
    }
}

impl<M: Drop> Shared<M> {
    fn try_put<R: Wait>(&self, rt: &R, message: M) -> Result<(), PutError<M>>
        ensures { IfErr result (λ error. given_back error ≡ message) }
    {
        let answer = self.queue.lock(rt).try_put(message);
        if answer.is_ok() {
            self.moved.notify_all();
        }
        answer
    }

    // Waits while the queue is full.
    fn put<R: Wait>(&self, rt: &R, message: M) -> Result<(), PutError<M>>
        ensures { IfErr result (λ error. given_back error ≡ message) }
    {
        let mut waiting = message;
        let mut queue = self.queue.lock(rt);
        for _ in rt.forever() {
            match queue.try_put(waiting) {
                Ok(()) => {
                    self.moved.notify_all();
                    return Ok(());
                }
                Err(PutError::Full(back)) => {
                    waiting = back;
                    queue = self.moved.wait(rt, queue);
                }
                Err(refused) => return Err(refused),
            }
        }
        unreachable!()
    }

    fn try_take<R: Wait>(&self, rt: &R) -> Result<M, TakeError> {
        let answer = self.queue.lock(rt).try_take();
        if answer.is_ok() {
            self.moved.notify_all();
        }
        answer
    }

    // Waits while the queue is open and empty.
    fn take<R: Wait>(&self, rt: &R) -> Result<M, TakeError>
        ensures { result ≡ Err TakeError.Empty → ⊥ }
    {
        let mut queue = self.queue.lock(rt);
        for _ in rt.forever() {
            match queue.try_take() {
                Ok(front) => {
                    self.moved.notify_all();
                    return Ok(front);
                }
                Err(TakeError::Empty) => queue = self.moved.wait(rt, queue),
                Err(TakeError::Closed) => return Err(TakeError::Closed),
            }
        }
        unreachable!()
    }

    fn close<R: Wait>(&self, rt: &R) {
        self.queue.lock(rt).close();
        self.moved.notify_all();
    }

    fn len<R: Wait>(&self, rt: &R) -> usize {
        self.queue.lock(rt).len()
    }
}

impl<M: Drop, R: Wait + Copy> Put<M> for SharedQueue<M, R> {
    ghost use Rattle.std.specs.Prelude.{◌≡◌, None};
    ghost use Rattle.session_channels.specs.SharedQueues.{after_put};

    ghost contents = { λ _. None };

    ghost queue = { λ shared. shared };

    ghost try_put_gives = { λ before message answer now. now ≡ after_put before answer };

    ghost put_gives = { λ before message answer now. now ≡ after_put before answer };

    fn try_put(&mut self, message: M) -> Result<(), PutError<M>> {
        let answer = self.shared.try_put(&self.rt, message);
        self.counted_put(answer)
    }

    fn put(&mut self, message: M) -> Result<(), PutError<M>> {
        let answer = self.shared.put(&self.rt, message);
        self.counted_put(answer)
    }

    fn close(&mut self) {
        self.close_shared();
    }

    fn len(&self) -> usize {
        self.shared.len(&self.rt)
    }
}

impl<M: Drop, R: Wait + Copy> Take<M> for SharedQueue<M, R> {
    ghost use Rattle.std.specs.Prelude.{◌≡◌, None};
    ghost use Rattle.session_channels.specs.SharedQueues.{after_take};

    ghost contents = { λ _. None };

    ghost queue = { λ shared. shared };

    ghost try_take_gives = { λ before answer now. now ≡ after_take before answer };

    ghost take_gives = { λ before answer now. now ≡ after_take before answer };

    fn try_take(&mut self) -> Result<M, TakeError> {
        let answer = self.shared.try_take(&self.rt);
        self.counted_take(answer)
    }

    fn take(&mut self) -> Result<M, TakeError> {
        let answer = self.shared.take(&self.rt);
        self.counted_take(answer)
    }

    fn close(&mut self) {
        self.close_shared();
    }

    fn len(&self) -> usize {
        self.shared.len(&self.rt)
    }
}
