//! Scripts of session calls: a line for each setting, then a line for each call. Bytes are read as a script, or the first
//! line is named that can't stand where it stands. Which calls there are is a matter of the script's dialect.
//!
//! Of the lemmas in `proofs/`, callers may name those of `Acts`.
#![tactic(auto)]

mod answer;
mod cut;
mod dialect;
mod hex_bytes;
mod line;
mod number;
mod script;
mod setting;

pub use answer::{Answer, Print};
pub use dialect::Dialect;
pub use line::{Action, ScriptCall, ScriptCallList};
pub use number::number_up_to;
pub use script::{MOST_CALLS, Script, ScriptError, SettingList, parse};
pub use setting::Setting;
