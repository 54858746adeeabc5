/// Where the building of a plan goes on.
#[derive(Clone, Copy)]
pub struct Spot {
    /// Whether the first key is built.
    pub begun: bool,
    /// The input of the last key that was built.
    pub start: u64,
    /// How many groups of its GOP are built.
    pub number: u64,
}
