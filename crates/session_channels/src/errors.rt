use crate::ChannelFault;
use thiserror::Error;

/// Why a put was refused, with the message that wasn't put.
#[derive(Debug, Drop, Error)]
pub enum PutError<M> {
    /// The queue holds as many messages as it may.
    #[error("the queue is full")]
    Full(M),
    /// The queue is closed.
    #[error("the queue is closed")]
    Closed(M),
    /// Memory ran out.
    #[error("out of memory")]
    OutOfMemory(M),
}

/// Why there was nothing to take.
#[derive(Clone, Copy, Debug, PartialEq, Eq, Error)]
pub enum TakeError {
    /// The queue has no message now.
    #[error("the queue is empty")]
    Empty,
    /// The queue has no message, and none comes any more.
    #[error("the queue is closed")]
    Closed,
}

/// Why a message wasn't sent at once.
#[derive(Debug, Drop, Error)]
pub enum TrySendError<M> {
    /// The queue is full, or the sender has sent as many messages as it may.
    #[error("the channel is full")]
    Full(M),
    /// The queue is closed.
    #[error("the channel is closed")]
    Disconnected(M),
    /// Memory ran out, and the message is lost.
    #[error("out of memory")]
    OutOfMemory,
}

/// Why a message wasn't sent.
#[derive(Debug, Drop, Error)]
pub enum SendError<M> {
    /// The queue takes it neither now nor later, or the sender has sent as many messages as it may.
    #[error("the channel takes no further message")]
    Refused(M),
    /// Memory ran out, and the message is lost.
    #[error("out of memory")]
    OutOfMemory,
}

/// Why no message was received.
#[derive(Clone, Copy, Debug, PartialEq, Eq, Error)]
pub enum RecvError {
    /// No message is there, and none comes any more.
    #[error("the channel is closed")]
    Closed,
    /// The worker ended by a fault, which was its last message.
    #[error("the worker ended: {0}")]
    Worker(ChannelFault),
}

/// Why no message was received at once.
#[derive(Clone, Copy, Debug, PartialEq, Eq, Error)]
pub enum TryRecvError {
    /// No message is there now.
    #[error("the channel is empty")]
    Empty,
    /// No message is there, and none comes any more.
    #[error("the channel is closed")]
    Disconnected,
    /// The worker ended by a fault, which was its last message.
    #[error("the worker ended: {0}")]
    Worker(ChannelFault),
}
