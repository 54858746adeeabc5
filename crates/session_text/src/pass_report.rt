ghost use Rattle.std.specs.Prelude.{◌≡◌, ◌++◌, IfOk, OnOk, string_bytes};
ghost use Rattle.session_text.specs.PassLines.{data_line, pass_report, pass_turn_lines, taken_lines};

use crate::report::{ReportOptions, write_turn};
use coding_base::OutOfMemory;
use hex::encode;
use pass_data::RcData;
use session_core::PassTurn;
use std::alloc::Global;

/// The report of the turns of a session in two passes. A call that a session in one pass has too has the lines that
/// [`report_text`](crate::report_text) gives it. Pass data that was taken has the line `pass HEX`, where it is the metrics of a
/// frame, or `summary HEX`, two lower-case digits for each of its bytes; where nothing was taken there is no line. Metrics that
/// were given have the line `given`.
pub fn pass_report_text<T, O>(
    alloc: Global,
    options: ReportOptions,
    turns: &[PassTurn<T, O>],
) -> Result<String, OutOfMemory>
    ensures { IfOk result (λ text. string_bytes text ≡ pass_report options turns.now) }
{
    let mut text = String::new(alloc);
    for turn in turns {
        write_pass_turn(alloc, options, &mut text, turn)?;
    }
    Ok(text)
}

fn write_pass_turn<T, O>(
    alloc: Global,
    options: ReportOptions,
    text: &mut String,
    turn: &PassTurn<T, O>,
) -> Result<(), OutOfMemory>
    ensures { OnOk result
        (string_bytes text.new ≡ string_bytes text.old ++ pass_turn_lines options turn.now) }
{
    match turn {
        PassTurn::Turn(turn) => write_turn(alloc, options, text, turn),
        PassTurn::Taken(message) => write_taken(alloc, text, message),
        PassTurn::Given => {
            writeln!(text, "given")?;
            Ok(())
        }
    }
}

// What was taken, if anything was.
fn write_taken(
    alloc: Global,
    text: &mut String,
    message: &Option<RcData>,
) -> Result<(), OutOfMemory>
    ensures { OnOk result
        (string_bytes text.new ≡ string_bytes text.old ++ taken_lines message.now) }
{
    match message {
        None => Ok(()),
        Some(RcData::Frame(bytes)) => write_data(alloc, text, "pass", bytes.as_slice()),
        Some(RcData::Summary(bytes)) => write_data(alloc, text, "summary", bytes.as_slice()),
    }
}

#[tactic(auto, unfolding(crate::specs::PassLines::data_line))]
fn write_data(alloc: Global, text: &mut String, word: &str, bytes: &[u8]) -> Result<(), OutOfMemory>
    ensures { OnOk result
        (string_bytes text.new ≡ string_bytes text.old ++ data_line word.now bytes.now) }
{
    let digits = encode(alloc, bytes)?;
    writeln!(text, "{word} {digits}")?;
    Ok(())
}
