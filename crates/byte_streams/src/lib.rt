//! Where a program's bytes come from and where they go: sources and sinks, in memory and over the streams of std, and
//! calls that read a source to its end and write a whole text.
#![tactic(auto)]

mod read;
mod sink;
mod source;
mod standard;
mod write;

pub use read::{ReadError, read_all};
pub use sink::{MemSink, Sink};
pub use source::{Failed, MemSource, Source};
pub use standard::{Reading, Writing};
pub use write::write_all;
