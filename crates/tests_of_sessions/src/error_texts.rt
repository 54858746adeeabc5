//! The texts of a session's faults and errors.

use av1_settings::InvalidConfig;
use session_core::{CoderError, PassDataError, SessionError, SessionFault, SetupError};
use std::test::Fail;

#[test]
fn errors_have_their_texts(rt: HostRuntime) -> Result<(), Fail> {
    let texts = format!(in rt.alloc();
        "{}, {}, {}, {}, {}, {}, {}, {}",
        SessionFault::Coder { command: 3 },
        SessionFault::OutOfMemory,
        SetupError::Invalid(InvalidConfig::InvalidWidth(15)),
        SetupError::OutOfMemory,
        SessionFault::PassData(PassDataError::NotNeeded),
        SessionError::PassData(PassDataError::WrongSize(1)),
        CoderError::Failed,
        CoderError::OutOfMemory
    )?;
    assert_eq!(rt;
        texts.as_str(),
        "the coder failed at command 3, out of memory, invalid configuration: invalid width 15 (expected >= 16, <= 65535), out of memory, pass data was refused: no frame data is needed, pass data was refused: a packet of 1 bytes (expected 8), the coder failed, out of memory"
    );
    Ok(())
}
