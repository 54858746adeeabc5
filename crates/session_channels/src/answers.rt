// What the senders answer where their queue answered a put so.
ghost use Rattle.std.specs.Prelude.{◌≡◌};
ghost use Rattle.session_channels.specs.Ends.{as_input, send_result, try_send_result};

use crate::{FrameMessage, PutError, SendError, TrySendError};
use session_core::FrameInput;

pub(crate) fn try_send_result<M: Drop>(
    answer: Result<(), PutError<M>>,
) -> Result<(), TrySendError<M>>
    ensures { result ≡ try_send_result (λ message. message) answer }
{
    match answer {
        Ok(()) => Ok(()),
        Err(PutError::Full(message)) => Err(TrySendError::Full(message)),
        Err(PutError::Closed(message)) => Err(TrySendError::Disconnected(message)),
        Err(PutError::OutOfMemory(_)) => Err(TrySendError::OutOfMemory),
    }
}

pub(crate) fn send_result<M: Drop>(answer: Result<(), PutError<M>>) -> Result<(), SendError<M>>
    ensures { result ≡ send_result (λ message. message) answer }
{
    match answer {
        Ok(()) => Ok(()),
        Err(PutError::Full(message)) => Err(SendError::Refused(message)),
        Err(PutError::Closed(message)) => Err(SendError::Refused(message)),
        Err(PutError::OutOfMemory(_)) => Err(SendError::OutOfMemory),
    }
}

// The message comes back as what a sender's caller gave.
pub(crate) fn frame_try_send_result<T: Drop, O: Drop>(
    answer: Result<(), PutError<FrameMessage<T, O>>>,
) -> Result<(), TrySendError<FrameInput<T, O>>>
    ensures { result ≡ try_send_result as_input answer }
{
    match answer {
        Ok(()) => Ok(()),
        Err(PutError::Full((frame, parameters))) => {
            Err(TrySendError::Full((Some(frame), parameters)))
        }
        Err(PutError::Closed((frame, parameters))) => {
            Err(TrySendError::Disconnected((Some(frame), parameters)))
        }
        Err(PutError::OutOfMemory(_)) => Err(TrySendError::OutOfMemory),
    }
}

pub(crate) fn frame_send_result<T: Drop, O: Drop>(
    answer: Result<(), PutError<FrameMessage<T, O>>>,
) -> Result<(), SendError<FrameInput<T, O>>>
    ensures { result ≡ send_result as_input answer }
{
    match answer {
        Ok(()) => Ok(()),
        Err(PutError::Full((frame, parameters))) => {
            Err(SendError::Refused((Some(frame), parameters)))
        }
        Err(PutError::Closed((frame, parameters))) => {
            Err(SendError::Refused((Some(frame), parameters)))
        }
        Err(PutError::OutOfMemory(_)) => Err(SendError::OutOfMemory),
    }
}
