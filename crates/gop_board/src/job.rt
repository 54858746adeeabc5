use av1_frame::Frame;
use coding_base::Sequence;
use std::sync::Arc;

/// Frames, in order.
pub type FrameList<T> = Sequence<Arc<Frame<T>>>;

/// The frames of one GOP, to be coded by a session of their own.
#[derive(Drop)]
pub struct Job<T> {
    /// The job's number, from 0.
    pub number: u64,
    /// The position of its first frame among all frames.
    pub first: u64,
    /// Its frames, at least one.
    pub frames: FrameList<T>,
}
