// The messages that are put into a queue without a capacity.
ghost use Rattle.std.specs.Prelude.{◌≡◌, [], ◌∷◌, None, IfOk, MatchBool, OnErr};
ghost use Rattle.gop_channel.specs.Driving.{PutsEnd};
ghost use Rattle.gop_channel.specs.Messages.{PutsAll, PutsFirst, PutsPackets, SaidClosed, SaidNoMemory};

use crate::GopEnd;
use coding_base::OutOfMemory;
use gop_board::PacketList;
use session_channels::{PacketMessage, Put, PutError};

// Puts packets, the first to the last, until one is refused. Answers whether all were put; else the queue is closed.
pub(crate) fn put_packets<T: Drop, P: Put<PacketMessage<T, ()>>>(
    queue: &mut P,
    packets: PacketList<T>,
) -> Result<bool, OutOfMemory>
    requires { (P.queue queue.old).capacity ≡ None }
    ensures put { IfOk result (λ all. MatchBool all
        (PutsPackets P.contents P.queue queue.old queue.new packets)
        (PutsFirst (PutsPackets P.contents P.queue queue.old queue.new) packets
        × SaidClosed (P.queue queue.old) (P.queue queue.new))) }
    ensures lacked { OnErr result
        (PutsFirst (PutsPackets P.contents P.queue queue.old queue.new) packets) }
{
    for packet in packets.into_vec() {
        if !put_message(queue, Ok(packet))? {
            return Ok(false);
        }
    }
    Ok(true)
}

// Puts a message. Answers whether it was put; else the queue is closed.
pub(crate) fn put_message<M: Drop, P: Put<M>>(
    queue: &mut P,
    message: M,
) -> Result<bool, OutOfMemory>
    requires { (P.queue queue.old).capacity ≡ None }
    ensures put { IfOk result (λ done. MatchBool done
        (PutsAll P.contents P.queue queue.old queue.new (message ∷ []))
        (PutsAll P.contents P.queue queue.old queue.new []
        × SaidClosed (P.queue queue.old) (P.queue queue.new))) }
    ensures lacked { OnErr result
        (PutsAll P.contents P.queue queue.old queue.new []
        × SaidNoMemory (P.queue queue.old) (P.queue queue.new)) }
{
    match queue.put(message) {
        Ok(()) => Ok(true),
        Err(PutError::Closed(_)) => Ok(false),
        Err(PutError::OutOfMemory(_)) => Err(OutOfMemory),
        Err(PutError::Full(_)) => unreachable!(),
    }
}

// Puts the fault that ends a run, if one does, and closes the queue.
pub(crate) fn put_end<T: Drop, C: Drop, P: Put<PacketMessage<T, ()>>>(
    queue: &mut P,
    ended: &Result<(), GopEnd<C>>,
)
    requires { (P.queue queue.old).capacity ≡ None }
    ensures { PutsEnd P.contents P.queue queue.old queue.new ended.now [] }
{
    let Err(end) = ended else {
        queue.close();
        return;
    };
    let _ = put_message(queue, Err(end.fault));
    queue.close();
}
