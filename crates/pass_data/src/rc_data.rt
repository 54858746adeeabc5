use arrayvec::ArrayVec;

/// What a first pass hands on to a second, as one message of at most 68 bytes.
#[derive(Debug, Drop, PartialEq, Eq)]
pub enum RcData {
    /// The summary of a whole pass, which comes last: 68 bytes.
    Summary(ArrayVec<u8, 68>),
    /// The metrics of one frame: 8 bytes.
    Frame(ArrayVec<u8, 68>),
}
