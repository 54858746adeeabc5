ghost use Rattle.std.specs.Prelude.{◌≡◌};
ghost use Rattle.session_core.specs.Contexts.{status_of};
ghost use Rattle.session_core.specs.PassCalls.{fault_of};

use av1_settings::EncoderStatus;
use coding_base::OutOfMemory;
use pass_data::PassDataError;
use std::alloc::{AllocError, AllocFailed};
use thiserror::Error;

/// Why a session can't go on.
#[derive(Clone, Copy, Debug, PartialEq, Eq, Error)]
pub enum SessionFault {
    /// The coder failed.
    #[error("the coder failed at command {command}")]
    Coder {
        /// The number of commands coded before.
        command: u64,
    },
    /// Pass data was refused, but never for want of memory.
    #[error("pass data was refused: {0}")]
    PassData(PassDataError),
    /// Memory ran out in a call that changes the session.
    #[error("out of memory")]
    OutOfMemory,
}

impl SessionFault {
    // The status of the call that met it.
    pub(crate) fn status(self) -> EncoderStatus
        ensures { result ≡ status_of self }
    {
        match self {
            SessionFault::Coder { .. } | SessionFault::PassData(_) => EncoderStatus::Failure,
            SessionFault::OutOfMemory => EncoderStatus::OutOfMemory,
        }
    }
}

// The fault of a session that is given refused pass data.
pub(crate) fn refusal_of(error: PassDataError) -> SessionFault
    ensures { result ≡ fault_of error }
{
    match error {
        PassDataError::OutOfMemory => SessionFault::OutOfMemory,
        refusal => SessionFault::PassData(refusal),
    }
}

impl From<OutOfMemory> for SessionFault {
    ghost use Rattle.session_core.specs.declared.fault.SessionFault.{SessionFault};
    ghost use Rattle.std.specs.Prelude.{◌≡◌};

    ghost from_gives = { λ _ e. e ≡ SessionFault.OutOfMemory };

    fn from(_: OutOfMemory) -> Self {
        SessionFault::OutOfMemory
    }
}

impl From<AllocError> for SessionFault {
    ghost use Rattle.session_core.specs.declared.fault.SessionFault.{SessionFault};
    ghost use Rattle.std.specs.Prelude.{◌≡◌};

    ghost from_gives = { λ _ e. e ≡ SessionFault.OutOfMemory };

    fn from(_: AllocError) -> Self {
        SessionFault::OutOfMemory
    }
}

impl<T: Drop> From<AllocFailed<T>> for SessionFault {
    ghost use Rattle.session_core.specs.declared.fault.SessionFault.{SessionFault};
    ghost use Rattle.std.specs.Prelude.{◌≡◌};

    ghost from_gives = { λ _ e. e ≡ SessionFault.OutOfMemory };

    fn from(_: AllocFailed<T>) -> Self {
        SessionFault::OutOfMemory
    }
}
