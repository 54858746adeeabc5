// Puts into queues that hold as many messages as come.
ghost use Rattle.std.specs.Prelude.{◌≡◌, ◌∷◌, ◌⊎◌, [], None, IfErr, OnOk, Err};
ghost use Rattle.session_channels.specs.Courses.{IsPutFault, PutsAll, SaidClosed, SaidNoMemory};

use crate::{ChannelFault, Put, PutError};

// Puts a message.
pub(crate) fn put<M: Drop, Q: Put<M>>(queue: &mut Q, message: M) -> Result<(), ChannelFault>
    requires { (Q.queue queue.old).capacity ≡ None }
    ensures put { OnOk result
        (PutsAll Q.contents Q.queue queue.old queue.new (message ∷ [])) }
    ensures refused { IfErr result (λ fault.
        PutsAll Q.contents Q.queue queue.old queue.new []
        × IsPutFault (Q.queue queue.old) (Q.queue queue.new) fault) }
{
    match queue.put(message) {
        Ok(()) => Ok(()),
        Err(error) => match error {
            PutError::Full(_) => unreachable!(),
            PutError::Closed(_) => Err(ChannelFault::PacketsClosed),
            PutError::OutOfMemory(_) => Err(ChannelFault::OutOfMemory),
        },
    }
}
