use av1_frame::Frame;
use av1_settings::T35List;
use std::sync::Arc;

/// What a caller asks of a frame's type.
#[derive(Clone, Copy, Debug, PartialEq, Eq)]
pub enum FrameTypeOverride {
    /// Nothing.
    No,
    /// That the frame is a key frame.
    Key,
}

/// What is sent with a frame.
#[derive(Debug, Drop)]
pub struct FrameParameters<O> {
    /// The type asked for.
    pub frame_type_override: FrameTypeOverride,
    /// A value that comes back with the frame's packet.
    pub opaque: Option<O>,
    /// Metadata for the frame, which stays with it until it is coded.
    pub t35_metadata: T35List,
}

/// A call of a session.
#[derive(Drop)]
pub enum Call<T, O> {
    /// Send a frame, with or without parameters.
    Send(Arc<Frame<T>>, Option<FrameParameters<O>>),
    /// No further frame comes.
    Flush,
    /// Code the next command, and give its packet if it shows a frame.
    Receive,
}
