//! Carries out a script of session calls, or the one that a seed makes, or codes the frames of a script as jobs side by side, and
//! prints what came of it.
#![tactic(auto)]

mod calls;
mod gops;
mod help;
mod outcome;
mod program;
mod run;
mod script_maker;
#[cfg(test)]
mod tests;
mod words;

pub use byte_streams::{Failed, MemSink, MemSource, Sink, Source};
use byte_streams::{Reading, Writing};
pub use gops::run_gops;
pub use outcome::{Account, Outcome, Report};
use program::run_program;
pub use run::{run_script, run_with};
pub use scripted::{ScriptedCoder, ScriptedDetector, ScriptedScales};
use std::io;
use std::process::ExitCode;
use words::{ask_for_gops, command_words};

fn main(rt: HostRuntime) -> ExitCode {
    let words = match command_words(&rt) {
        Ok(words) => words,
        Err(error) if error.kind() == io::ErrorKind::OutOfMemory => return ExitCode::from(9),
        Err(_) => return ExitCode::from(2),
    };
    let mut source = Reading::new(rt.reader());
    let mut sink = Writing::new(io::writer(&rt));
    let status = if ask_for_gops(&words) {
        run_gops(&rt, rt.alloc(), &words, &mut source, &mut sink).status
    } else {
        run_program(rt.alloc(), &words, &mut source, &mut sink)
    };
    ExitCode::from(status)
}
