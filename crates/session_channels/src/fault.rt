use av1_settings::EncoderStatus;
use pass_data::PassDataError;
use thiserror::Error;

/// Why a worker ended before its session did. The receiving end gets it as the last message.
#[derive(Clone, Copy, Debug, PartialEq, Eq, Error)]
pub enum ChannelFault {
    /// The coder failed.
    #[error("the coder failed at command {command}")]
    Coder {
        /// The number of commands coded before.
        command: u64,
    },
    /// The session refused a frame, with this status.
    #[error("a frame was refused: {0}")]
    FrameRefused(EncoderStatus),
    /// Pass data was refused.
    #[error("pass data was refused: {0}")]
    PassData(PassDataError),
    /// The queue of pass data was closed while a frame's was needed.
    #[error("pass data is missing")]
    PassDataMissing,
    /// A summary came where a frame's pass data was needed.
    #[error("a summary came in place of a frame's pass data")]
    PassDataKind,
    /// As many commands were coded as the summary counts, and there are more.
    #[error("pass data ended after {total} commands")]
    PassDataEnded {
        /// The commands that the summary counts; 2147483647 where there is no summary.
        total: i32,
    },
    /// The queue of packets, or that of the pass data to be handed on, was closed.
    #[error("the queue of packets or of pass data was closed")]
    PacketsClosed,
    /// Memory ran out.
    #[error("out of memory")]
    OutOfMemory,
}
