use crate::{Put, PutError, Take, TakeError};

// Stands where no queue is given: nothing that is put into it is kept, and nothing can be taken from it.
#[derive(Drop)]
pub(crate) struct NoQueue;

impl<M: Drop> Put<M> for NoQueue {
    ghost use Rattle.std.specs.Prelude.{None};
    ghost use Rattle.session_channels.specs.NoQueues.{no_put};

    ghost contents = { λ _. None };

    ghost queue = { λ _. no_put };

    fn try_put(&mut self, _message: M) -> Result<(), PutError<M>> {
        Ok(())
    }

    fn put(&mut self, _message: M) -> Result<(), PutError<M>> {
        Ok(())
    }

    fn close(&mut self) {}

    fn len(&self) -> usize {
        0
    }
}

impl<M: Drop> Take<M> for NoQueue {
    ghost use Rattle.std.specs.Prelude.{None};
    ghost use Rattle.session_channels.specs.NoQueues.{no_take};

    ghost contents = { λ _. None };

    ghost queue = { λ _. no_take };

    fn try_take(&mut self) -> Result<M, TakeError> {
        Err(TakeError::Closed)
    }

    fn take(&mut self) -> Result<M, TakeError> {
        Err(TakeError::Closed)
    }

    fn close(&mut self) {}

    fn len(&self) -> usize {
        0
    }
}
