use crate::{Call, DecisionList, Turn};
use arrayvec::ArrayVec;
use coding_base::Sequence;
use pass_data::RcData;

/// A call of a session in two passes.
#[derive(Drop)]
pub enum PassCall<T, O> {
    /// A call that a session in one pass has too.
    Call(Call<T, O>),
    /// Take what the first pass hands on.
    Take,
    /// Give the second pass the metrics of a frame, 8 bytes.
    Give(ArrayVec<u8, 68>),
}

/// What such a call did.
#[derive(Drop)]
pub enum PassTurn<T, O> {
    /// The turn of a call that a session in one pass has too.
    Turn(Turn<T, O>),
    /// What the first pass handed on; none where nothing waited.
    Taken(Option<RcData>),
    /// The metrics were accepted.
    Given,
}

/// Turns, one for each call.
pub type PassTurnList<T, O> = Sequence<PassTurn<T, O>>;

/// What a session in two passes did with a list of calls.
#[derive(Drop)]
pub struct PassTranscript<T, O> {
    /// One turn for each call.
    pub turns: PassTurnList<T, O>,
    /// The decisions made, each once.
    pub decisions: DecisionList,
}
