use crate::Packet;
use av1_settings::EncoderStatus;
use coding_base::Sequence;
use session_log::LogList;

/// What a session answered to a call.
#[derive(Drop)]
pub enum Reply<T, O> {
    /// The frame was accepted, with this input number.
    Sent(u64),
    /// The session is flushed.
    Flushed,
    /// The next packet.
    Packet(Packet<T, O>),
    /// No frame was taken, or no packet given.
    Status(EncoderStatus),
}

/// What a call did.
#[derive(Drop)]
pub struct Turn<T, O> {
    /// The answer.
    pub reply: Reply<T, O>,
    /// The calls of the coder.
    pub log: LogList,
    /// The bits that the reservoir holds then; none where there is no bitrate.
    pub reservoir: Option<i128>,
}

/// Turns, one for each call.
pub type TurnList<T, O> = Sequence<Turn<T, O>>;

/// Whether a frame begins a GOP.
#[derive(Clone, Copy, Debug, PartialEq, Eq)]
pub struct Decision {
    /// The frame's input number, 1 or more.
    pub position: u64,
    /// Whether it was sent as a key frame.
    pub forced: bool,
    /// Whether it is a key frame.
    pub key: bool,
}

/// Decisions by rising position.
pub type DecisionList = Sequence<Decision>;

/// What a session did with a list of calls.
#[derive(Drop)]
pub struct Transcript<T, O> {
    /// One turn for each call.
    pub turns: TurnList<T, O>,
    /// The decisions made, each once.
    pub decisions: DecisionList,
}
