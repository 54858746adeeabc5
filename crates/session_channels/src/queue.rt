ghost use Rattle.std.specs.Prelude.{◌≡◌, ℕ, ⊤, List, Option, Result, IfErr, IfOk, IfSome, OnErr, OnOk, length, Err};
ghost use Rattle.session_channels.specs.declared.errors.PutError.{PutError as PutRefusal};
ghost use Rattle.session_channels.specs.declared.errors.TakeError.{TakeError as TakeRefusal};
ghost use Rattle.session_channels.specs.Queues.{HasPutCause, HasTakeCause, IsClosing, IsTurn, Queue, before_all, behind, given_back};

use crate::{PutError, TakeError};

/// The end of a queue into which messages are put. Each call is one turn on the queue.
///
/// A queue may tell its contents, as one in memory does, or not, as one that threads share. Its counts are of the calls on
/// this object alone, and so is the number of `close` calls.
pub trait Put<M> {
    /// The messages in the queue, its front first, where they are told.
    ghost contents: { Self → Option (List M) };

    /// The capacity, the counts, and what is kept of `close` calls.
    ghost queue: { Self → Queue };

    /// What is said of one turn of `try_put` beside the clauses of the call: the queue before, the message, the answer and the
    /// queue after. So a caller can say that a call of its own is one turn.
    ghost try_put_gives: { Self → M → Result (Unit {0}) (PutRefusal M) → Self → Type 0 } = { λ _ _ _ _. ⊤ };

    /// The same of `put`.
    ghost put_gives: { Self → M → Result (Unit {0}) (PutRefusal M) → Self → Type 0 } = { λ _ _ _ _. ⊤ };

    /// Puts a message behind the others. A refused message comes back. `Full` comes only from a queue with a capacity, and
    /// each refusal only where its count rose.
    fn try_put(&mut self, message: M) -> Result<(), PutError<M>>
        ensures gives { try_put_gives self.old message result self.new }
        ensures put { OnOk result (contents self.new ≡ behind message (contents self.old)) }
        ensures kept { OnErr result (contents self.new ≡ contents self.old) }
        ensures back { IfErr result (λ error. given_back error ≡ message) }
        ensures cause { IfErr result
            (λ error. HasPutCause (queue self.old) (queue self.new) error) }
        ensures turn { IsTurn (queue self.old) (queue self.new) };

    /// The same; a queue that can wait does so in place of answering `Full`.
    fn put(&mut self, message: M) -> Result<(), PutError<M>>
        ensures gives { put_gives self.old message result self.new }
        ensures put { OnOk result (contents self.new ≡ behind message (contents self.old)) }
        ensures kept { OnErr result (contents self.new ≡ contents self.old) }
        ensures back { IfErr result (λ error. given_back error ≡ message) }
        ensures cause { IfErr result
            (λ error. HasPutCause (queue self.old) (queue self.new) error) }
        ensures turn { IsTurn (queue self.old) (queue self.new) };

    /// Closes the queue. The messages in it stay.
    fn close(&mut self)
        ensures kept { contents self.new ≡ contents self.old }
        ensures closed { IsClosing (queue self.old) (queue self.new) };

    /// The number of messages in the queue.
    fn len(&self) -> usize
        ensures { IfSome (contents self.now) (λ held. result ≡ length held) };
}

/// The end of a queue from which messages are taken. Each call is one turn on the queue.
///
/// What is told of a queue is as for [`Put`].
pub trait Take<M> {
    /// The messages in the queue, its front first, where they are told.
    ghost contents: { Self → Option (List M) };

    /// The capacity, the counts, and what is kept of `close` calls.
    ghost queue: { Self → Queue };

    /// What is said of one turn of `try_take` beside the clauses of the call: the queue before, the answer and the queue after.
    ghost try_take_gives: { Self → Result M TakeRefusal → Self → Type 0 } = { λ _ _ _. ⊤ };

    /// The same of `take`.
    ghost take_gives: { Self → Result M TakeRefusal → Self → Type 0 } = { λ _ _ _. ⊤ };

    /// Takes the front. Each refusal comes only where its count rose.
    fn try_take(&mut self) -> Result<M, TakeError>
        ensures gives { try_take_gives self.old result self.new }
        ensures taken { IfOk result
            (λ front. contents self.old ≡ before_all front (contents self.new)) }
        ensures kept { OnErr result (contents self.new ≡ contents self.old) }
        ensures cause { IfErr result
            (λ error. HasTakeCause (queue self.old) (queue self.new) error) }
        ensures turn { IsTurn (queue self.old) (queue self.new) };

    /// The same; a queue that can wait does so in place of answering `Empty`, and none answers that.
    fn take(&mut self) -> Result<M, TakeError>
        ensures gives { take_gives self.old result self.new }
        ensures taken { IfOk result
            (λ front. contents self.old ≡ before_all front (contents self.new)) }
        ensures kept { OnErr result (contents self.new ≡ contents self.old) }
        ensures cause { IfErr result
            (λ error. HasTakeCause (queue self.old) (queue self.new) error) }
        ensures closed { result ≡ Err TakeError.Empty → ⊥ }
        ensures turn { IsTurn (queue self.old) (queue self.new) };

    /// Closes the queue. The messages in it stay.
    fn close(&mut self)
        ensures kept { contents self.new ≡ contents self.old }
        ensures closed { IsClosing (queue self.old) (queue self.new) };

    /// The number of messages in the queue.
    fn len(&self) -> usize
        ensures { IfSome (contents self.now) (λ held. result ≡ length held) };
}
