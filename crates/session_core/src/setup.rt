use av1_settings::InvalidConfig;
use thiserror::Error;

/// Why a session wasn't made.
#[derive(Clone, Copy, Debug, PartialEq, Eq, Error)]
pub enum SetupError {
    /// The configuration is refused.
    #[error("invalid configuration: {0}")]
    Invalid(InvalidConfig),
    /// Memory ran out.
    #[error("out of memory")]
    OutOfMemory,
}
