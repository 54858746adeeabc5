ghost use Rattle.std.specs.Prelude.{◌≡◌, codes};
ghost use Rattle.session_script.specs.declared.help.TheConstants.{HELP, VERSION};
ghost use Rattle.session_script.specs.Outcomes.{IsAnswer, span};
ghost use Rattle.session_script.specs.Program.{Prints, IsAnswered};
ghost use Rattle.session_script.specs.Words.{AreOne};

use crate::help::{HELP, VERSION};
use crate::run::run_script;
use crate::words::are_one;
use byte_streams::{Sink, Source, write_all};
use std::alloc::Global;

/// Does what the words of the command line ask for, and says the exit status: `--help` and `--version` print a text, and
/// any other words are those of a run.
pub fn run_program<R: Source, W: Sink>(
    alloc: Global,
    words: &[String],
    source: &mut R,
    sink: &mut W,
) -> u8
    ensures help { AreOne (codes "--help") words.now →
        Prints (span W.held W.faults sink.old sink.new) HELP.now result }
    ensures version { AreOne (codes "--version") words.now →
        Prints (span W.held W.faults sink.old sink.new) VERSION.now result }
    ensures run { ¬ AreOne (codes "--help") words.now → ¬ AreOne (codes "--version") words.now →
        IsAnswered words.now (span R.left R.faults source.old source.new)
        (span W.held W.faults sink.old sink.new) result }
{
    if are_one(words, "--help") {
        return print(sink, HELP);
    }
    if are_one(words, "--version") {
        return print(sink, VERSION);
    }
    run_script(alloc, words, source, sink).status
}

// Prints a text, and says the status.
fn print<W: Sink>(sink: &mut W, text: &str) -> u8
    ensures { Prints (span W.held W.faults sink.old sink.new) text.now result }
{
    match write_all(sink, text.as_bytes()) {
        Ok(()) => 0,
        Err(_) => 6,
    }
}
