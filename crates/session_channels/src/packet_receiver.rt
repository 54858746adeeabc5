ghost use Rattle.std.specs.Prelude.{◌≡◌, ◌==◌, IfSome, None, length};
ghost use Rattle.av1_settings.specs.Checks.{IsValid};
ghost use Rattle.av1_settings.specs.Header.{container_sequence_header};
ghost use Rattle.session_channels.specs.Ends.{IsPacketRecv, IsPacketTryRecv};
ghost use Rattle.session_channels.specs.Queues.{Takes};

use crate::{ChannelFault, Receive, Received, RecvError, Take, TakeError, TryRecvError};
use av1_settings::{EncoderConfig, container_sequence_header};
use session_core::Packet;
use std::marker::{Model, PhantomData};

/// What a queue of packets holds: a packet, or as the last message the fault by which the worker ended.
pub type PacketMessage<T, O> = Result<Packet<T, O>, ChannelFault>;

/// The end of a channel from which packets come. Contracts see the settings that it was made for, and its queue. An end that
/// is dropped leaves its queue as it is.
#[derive(Drop)]
pub struct PacketReceiver<T, O, Q> {
    enc: EncoderConfig,
    queue: Q,
    of: PhantomData<(T, O)>,
}

impl<T, O, Q> Model for PacketReceiver<T, O, Q> {
    ghost use Rattle.session_channels.specs.Ends.{PacketEnd};

    ghost Value = { PacketEnd Q };

    ghost view = { λ r. record { enc = r.enc; queue = r.queue } };
}

impl<T: Drop, O: Drop, Q: Take<PacketMessage<T, O>> + Drop> PacketReceiver<T, O, Q> {
    /// A receiver from this queue, for settings that have passed `validate`. No memory is taken.
    pub fn new(enc: &EncoderConfig, queue: Q) -> PacketReceiver<T, O, Q>
        requires { IsValid enc.now }
        ensures settings { result.enc ≡ enc.now }
        ensures queue { result.queue ≡ queue }
    {
        PacketReceiver {
            enc: *enc,
            queue,
            of: PhantomData,
        }
    }

    /// Receives a packet by one `try_take` of the queue. Without one: Worker where the message taken is a fault, Empty where
    /// the queue is empty, Disconnected where it is empty and closed.
    pub fn try_recv(&mut self) -> Result<Packet<T, O>, TryRecvError>
        ensures turn { IsPacketTryRecv (Takes Q.try_take_gives Q.contents Q.queue)
            self.old.queue result self.new.queue }
        ensures settings { self.new.enc ≡ self.old.enc }
    {
        match self.queue.try_take() {
            Ok(Ok(packet)) => Ok(packet),
            Ok(Err(fault)) => Err(TryRecvError::Worker(fault)),
            Err(TakeError::Empty) => Err(TryRecvError::Empty),
            Err(TakeError::Closed) => Err(TryRecvError::Disconnected),
        }
    }

    /// Receives a packet by one `take` of the queue, which may wait. Without one: Worker where the message taken is a fault,
    /// Closed where the queue is empty and closed.
    pub fn recv(&mut self) -> Result<Packet<T, O>, RecvError>
        ensures turn { IsPacketRecv (Takes Q.take_gives Q.contents Q.queue)
            self.old.queue result self.new.queue }
        ensures settings { self.new.enc ≡ self.old.enc }
    {
        match self.queue.take() {
            Ok(Ok(packet)) => Ok(packet),
            Ok(Err(fault)) => Err(RecvError::Worker(fault)),
            Err(TakeError::Closed) => Err(RecvError::Closed),
            Err(TakeError::Empty) => unreachable!(),
        }
    }

    /// The number of messages in the queue.
    pub fn len(&self) -> usize
        ensures { IfSome (Q.contents self.now.queue) (λ held. result ≡ length held) }
    {
        self.queue.len()
    }

    /// Whether the queue has no message.
    pub fn is_empty(&self) -> bool
        ensures { IfSome (Q.contents self.now.queue) (λ held. result ≡ (length held == 0)) }
    {
        self.len() == 0
    }

    /// The packets that come, up to the first error of `recv`.
    pub fn iter(&mut self) -> Received<'_, PacketReceiver<T, O, Q>>
        ensures same_reference { result.end.ghost_name ≡ self.entry.ghost_name }
        ensures end { result.end.now ≡ self.old }
        ensures ended { result.ended ≡ None }
    {
        Received::new(self)
    }

    /// The four bytes that a container says of the stream. No memory is taken.
    pub fn container_sequence_header(&self) -> [u8; 4]
        ensures { result ≡ container_sequence_header self.now.enc }
    {
        container_sequence_header(&self.enc)
    }

    /// Closes the queue.
    pub fn close(mut self) {
        self.queue.close();
    }
}

impl<T: Drop, O: Drop, Q: Take<PacketMessage<T, O>> + Drop> Receive for PacketReceiver<T, O, Q> {
    ghost use Rattle.std.specs.Prelude.{◌≡◌};
    ghost use Rattle.session_channels.specs.Ends.{IsPacketRecv};
    ghost use Rattle.session_channels.specs.Queues.{Takes};

    type Message = Packet<T, O>;

    ghost recv_gives = { λ before answer now.
        IsPacketRecv (Takes Q.take_gives Q.contents Q.queue) before.queue answer now.queue
        × (now.enc ≡ before.enc) };

    fn recv(&mut self) -> Result<Packet<T, O>, RecvError> {
        self.recv()
    }
}
