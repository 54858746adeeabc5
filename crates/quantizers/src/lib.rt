//! Quantisers: tables of their values by index, the index that is nearest to a quantiser, and the quantiser parameters
//! of a frame.
//!
//! A quantiser is mostly handled as its binary logarithm in Q57, without the scale that a table's values have at a bit
//! depth. No call takes memory.
#![tactic(auto)]

mod bounds;
mod chroma;
mod flat;
mod nearest;
mod parameters;
mod settings;
mod tables;

pub use bounds::{above_least, below_greatest};
pub use flat::{flat_quantizer, log_of_value};
pub use parameters::{LogQuantizer, QuantizerParameters};
pub use settings::{QSettings, table_scale};
pub use tables::{BadTable, QTables};
