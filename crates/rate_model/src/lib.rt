//! How many bits frames take: the numbers of the frame subtypes and what sets their quantisers apart, the model of a frame
//! subtype, which follows what its frames took, and the search for the base quantiser at which frames ahead take a budget.
//!
//! All logarithms are binary and in Q57 where nothing else is said. No call takes memory.
#![tactic(auto)]

mod curves;
mod frame_subtypes;
mod model;
mod search;
mod subtype;
pub mod wide;

pub use curves::start_subtypes;
pub use frame_subtypes::{
    FRAME_NSUBTYPES, FRAME_SUBTYPE_B0, FRAME_SUBTYPE_B1, FRAME_SUBTYPE_I, FRAME_SUBTYPE_P,
    FRAME_SUBTYPE_SEF, modulated, subtype_offset,
};
pub use model::{RateModel, power_log};
pub use search::{Search, search_base_q};
pub use subtype::SubtypeState;
