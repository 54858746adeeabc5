ghost use Rattle.std.specs.Prelude.{◌≡◌, ◌++◌, IfOk, OnOk, string_bytes};
ghost use Rattle.session_core.specs.Turns.{luma_index};
ghost use Rattle.session_text.specs.ReportLines.{report, turn_lines, log_lines, entry_lines, trial_line, index_line, index_lines, reply_line, status_word, bytes_line, lines_behind, reservoir_line, reservoir_lines};

use crate::command_lines::write_command;
use av1_settings::EncoderStatus;
use coding_base::OutOfMemory;
use hex::encode;
use pyramid::Command;
use session_core::{LogEntry, QuantizerParameters, Reply, Turn};
use std::alloc::Global;

/// What a report has besides the lines of commands and replies.
#[derive(Clone, Copy, Debug, PartialEq, Eq)]
pub struct ReportOptions {
    /// Whether a packet's bytes stand behind its line.
    pub bytes: bool,
    /// Whether the AC index of the luma plane stands behind a coded frame's line.
    pub quantizer_index: bool,
    /// Whether the bits that the reservoir holds stand behind a receive that coded, where there is a bitrate.
    pub reservoir: bool,
}

/// The report of a session's turns: for each call a line for each command that it tried or coded, then a line with the reply.
/// A frame that was only tried has the line `trial F`. The options add `q N` behind the line of a coded frame, N being the AC
/// index of its luma plane; behind a packet `bytes HEX`, two lower-case digits for each of its bytes; and last behind a call that
/// coded `reservoir N`, N being the bits that the reservoir holds then, where there is a bitrate.
pub fn report_text<T, O>(
    alloc: Global,
    options: ReportOptions,
    turns: &[Turn<T, O>],
) -> Result<String, OutOfMemory>
    ensures { IfOk result (λ text. string_bytes text ≡ report options turns.now) }
{
    let mut text = String::new(alloc);
    for turn in turns {
        write_turn(alloc, options, &mut text, turn)?;
    }
    Ok(text)
}

/// The lines of a call, at the end of a text.
pub fn write_turn<T, O>(
    alloc: Global,
    options: ReportOptions,
    text: &mut String,
    turn: &Turn<T, O>,
) -> Result<(), OutOfMemory>
    ensures { OnOk result
        (string_bytes text.new ≡ string_bytes text.old ++ turn_lines options turn.now) }
{
    write_log(options, text, turn.log.as_slice())?;
    write_reply(text, &turn.reply)?;
    write_behind(alloc, options, text, &turn.reply)?;
    write_reservoir(options, text, turn)?;
    Ok(())
}

// What the options add behind a reply.
fn write_behind<T, O>(
    alloc: Global,
    options: ReportOptions,
    text: &mut String,
    reply: &Reply<T, O>,
) -> Result<(), OutOfMemory>
    ensures { OnOk result
        (string_bytes text.new ≡ string_bytes text.old ++ lines_behind options reply.now) }
{
    match reply {
        Reply::Packet(packet) if options.bytes => write_bytes(alloc, text, packet.bytes.as_slice()),
        _ => Ok(()),
    }
}

#[tactic(auto, unfolding(crate::specs::ReportLines::bytes_line))]
fn write_bytes(alloc: Global, text: &mut String, bytes: &[u8]) -> Result<(), OutOfMemory>
    ensures { OnOk result (string_bytes text.new ≡ string_bytes text.old ++ bytes_line bytes.now) }
{
    let digits = encode(alloc, bytes)?;
    writeln!(text, "bytes {digits}")?;
    Ok(())
}

// What the options add behind a call that coded.
fn write_reservoir<T, O>(
    options: ReportOptions,
    text: &mut String,
    turn: &Turn<T, O>,
) -> Result<(), OutOfMemory>
    ensures { OnOk result
        (string_bytes text.new ≡ string_bytes text.old ++ reservoir_lines options turn.now) }
{
    if !options.reservoir || turn.log.len() == 0 {
        return Ok(());
    }
    match turn.reservoir {
        Some(bits) => write_bits(text, bits),
        None => Ok(()),
    }
}

/// Puts the line of a reservoir's bits at the end of a text.
#[tactic(auto, unfolding(crate::specs::ReportLines::reservoir_line))]
pub(crate) fn write_bits(text: &mut String, bits: i128) -> Result<(), OutOfMemory>
    ensures { OnOk result (string_bytes text.new ≡ string_bytes text.old ++ reservoir_line bits) }
{
    writeln!(text, "reservoir {bits}")?;
    Ok(())
}

fn write_log(options: ReportOptions, text: &mut String, log: &[LogEntry]) -> Result<(), OutOfMemory>
    ensures { OnOk result
        (string_bytes text.new ≡ string_bytes text.old ++ log_lines options log.now) }
{
    for entry in log {
        write_entry(options, text, entry)?;
    }
    Ok(())
}

fn write_entry(
    options: ReportOptions,
    text: &mut String,
    entry: &LogEntry,
) -> Result<(), OutOfMemory>
    ensures { OnOk result
        (string_bytes text.new ≡ string_bytes text.old ++ entry_lines options entry.now) }
{
    match entry.command {
        Command::Code { frame, .. } if entry.trial => write_trial(text, frame),
        Command::Code { .. } => {
            write_command(text, &entry.command)?;
            write_index(options, text, entry)
        }
        Command::Show { .. } => write_command(text, &entry.command),
    }
}

#[tactic(auto, unfolding(crate::specs::ReportLines::trial_line))]
fn write_trial(text: &mut String, frame: u64) -> Result<(), OutOfMemory>
    ensures { OnOk result (string_bytes text.new ≡ string_bytes text.old ++ trial_line frame) }
{
    writeln!(text, "trial {frame}")?;
    Ok(())
}

// What the options add behind a coded frame.
#[tactic(auto, unfolding(crate::specs::ReportLines::index_line))]
fn write_index(
    options: ReportOptions,
    text: &mut String,
    entry: &LogEntry,
) -> Result<(), OutOfMemory>
    ensures { OnOk result
        (string_bytes text.new ≡ string_bytes text.old ++ index_lines options entry.now) }
{
    if options.quantizer_index {
        let index = luma_index(entry.quant);
        writeln!(text, "q {index}")?;
    }
    Ok(())
}

// The AC index of the luma plane; 0 where there are no quantisers.
fn luma_index(quant: Option<QuantizerParameters>) -> u8
    ensures { result ≡ luma_index quant }
{
    match quant {
        Some(quant) => quant.ac_qi[0],
        None => 0,
    }
}

#[tactic(auto, unfolding(crate::specs::ReportLines::reply_line))]
fn write_reply<T, O>(text: &mut String, reply: &Reply<T, O>) -> Result<(), OutOfMemory>
    ensures { OnOk result (string_bytes text.new ≡ string_bytes text.old ++ reply_line reply.now) }
{
    match reply {
        Reply::Sent(number) => {
            writeln!(text, "sent {number}")?;
            Ok(())
        }
        Reply::Flushed => {
            writeln!(text, "flushed")?;
            Ok(())
        }
        Reply::Packet(packet) => {
            writeln!(text, "{packet}")?;
            Ok(())
        }
        Reply::Status(status) => {
            let word = status_word(*status);
            writeln!(text, "{word}")?;
            Ok(())
        }
    }
}

fn status_word(status: EncoderStatus) -> &'static str
    ensures { result.now ≡ status_word status }
{
    match status {
        EncoderStatus::NeedMoreData => "need-more-data",
        EncoderStatus::EnoughData => "send enough-data",
        EncoderStatus::LimitReached => "limit-reached",
        EncoderStatus::Encoded => "encoded",
        EncoderStatus::Failure => "failure",
        EncoderStatus::NotReady => "not-ready",
        EncoderStatus::FrameSizeMismatch => "send frame-size-mismatch",
        EncoderStatus::OutOfMemory => "out-of-memory",
    }
}
