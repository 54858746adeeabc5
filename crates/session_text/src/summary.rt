ghost use Rattle.std.specs.Prelude.{◌≡◌, ◌++◌, ◌∷◌, [], not, length, filter, map, sum, sum_by, count_by, IfOk, OnOk, string_bytes};
ghost use Rattle.pyramid.specs.Display.{hiding};
ghost use Rattle.session_core.specs.Sessions.{commands_of, packets_of};
ghost use Rattle.session_core.specs.Taken.{packet_of};
ghost use Rattle.session_core.specs.Turns.{real_entries};
ghost use Rattle.session_text.specs.SummaryLines.{count_line, is_key, is_sent, last_reservoir, reservoir_left, summary};

use crate::report::write_bits;
use av1_settings::FrameType;
use coding_base::OutOfMemory;
use pyramid::Command;
use session_core::{LogEntry, Reply, Turn};
use std::alloc::Global;

/// What a session's turns came to, in six lines: `frames F` accepted; `keys K` coded, and `hidden H`, the commands that showed
/// nothing, trials aside; `packets P` given, and `bytes B` of all packets; `reservoir R`, the bits that the reservoir holds
/// behind the last turn, where there is a bitrate.
#[tactic(auto, unfolding(crate::specs::SummaryLines::summary))]
pub fn summary_text<T, O>(alloc: Global, turns: &[Turn<T, O>]) -> Result<String, OutOfMemory>
    ensures { IfOk result (λ text. string_bytes text ≡ summary turns.now) }
{
    let commands = commands(alloc, turns)?;
    let sizes = packet_sizes(alloc, turns)?;
    let mut text = String::new(alloc);
    write_count(&mut text, "frames", frames(turns) as u128)?;
    write_count(&mut text, "keys", keys(&commands) as u128)?;
    write_count(&mut text, "hidden", hidden(&commands) as u128)?;
    write_count(&mut text, "packets", sizes.len() as u128)?;
    write_count(&mut text, "bytes", sum(&sizes))?;
    write_reservoir_left(&mut text, turns)?;
    Ok(text)
}

#[tactic(auto, unfolding(crate::specs::SummaryLines::count_line))]
fn write_count(text: &mut String, word: &str, count: u128) -> Result<(), OutOfMemory>
    ensures { OnOk result
        (string_bytes text.new ≡ string_bytes text.old ++ count_line word.now count) }
{
    writeln!(text, "{word} {count}")?;
    Ok(())
}

fn write_reservoir_left<T, O>(text: &mut String, turns: &[Turn<T, O>]) -> Result<(), OutOfMemory>
    ensures { OnOk result (string_bytes text.new ≡ string_bytes text.old ++ reservoir_left turns.now) }
{
    match last_reservoir(turns) {
        Some(bits) => write_bits(text, bits),
        None => Ok(()),
    }
}

fn last_reservoir<T, O>(turns: &[Turn<T, O>]) -> Option<i128>
    ensures { result ≡ last_reservoir turns.now }
{
    turns.last()?.reservoir
}

// How many frames were accepted.
fn frames<T, O>(turns: &[Turn<T, O>]) -> usize
    ensures { result ≡ count_by (λ turn. is_sent turn.reply) turns.now }
{
    turns
        .iter()
        .filter(|turn| matches!(turn.reply, Reply::Sent(_)))
        .count()
}

// What was coded for good.
fn commands<T, O>(alloc: Global, turns: &[Turn<T, O>]) -> Result<Vec<Command>, OutOfMemory>
    ensures { IfOk result (λ commands. commands.items ≡ commands_of turns.now) }
{
    let mut commands = Vec::new(alloc);
    for turn in turns {
        push_commands(&mut commands, turn.log.as_slice())?;
    }
    Ok(commands)
}

fn push_commands(commands: &mut Vec<Command>, log: &[LogEntry]) -> Result<(), OutOfMemory>
    ensures { OnOk result (commands.new.items
        ≡ commands.old.items ++ map (λ entry. entry.command) (real_entries log.now)) }
{
    for entry in log {
        push_command(commands, entry)?;
    }
    Ok(())
}

fn push_command(commands: &mut Vec<Command>, entry: &LogEntry) -> Result<(), OutOfMemory>
    ensures { OnOk result (commands.new.items
        ≡ commands.old.items ++ map (λ entry. entry.command) (real_entries (entry.now ∷ []))) }
{
    if !entry.trial {
        commands.push(entry.command)?;
    }
    Ok(())
}

fn keys(commands: &[Command]) -> usize
    ensures { result ≡ count_by is_key commands.now }
{
    commands.iter().filter(|command| is_key(command)).count()
}

fn is_key(command: &Command) -> bool
    ensures { result ≡ is_key command.now }
{
    matches!(
        command,
        Command::Code {
            kind: FrameType::KEY,
            ..
        }
    )
}

fn hidden(commands: &[Command]) -> usize
    ensures { result ≡ hiding commands.now }
{
    commands
        .iter()
        .filter(|command| matches!(command, Command::Code { shown: false, .. }))
        .count()
}

// How many bytes each packet has.
fn packet_sizes<T, O>(alloc: Global, turns: &[Turn<T, O>]) -> Result<Vec<usize>, OutOfMemory>
    ensures { IfOk result (λ sizes. sizes.items
        ≡ map (λ packet. length packet.bytes) (packets_of turns.now)) }
{
    let mut sizes = Vec::new(alloc);
    for turn in turns {
        push_size(&mut sizes, &turn.reply)?;
    }
    Ok(sizes)
}

fn push_size<T, O>(sizes: &mut Vec<usize>, reply: &Reply<T, O>) -> Result<(), OutOfMemory>
    ensures { OnOk result (sizes.new.items
        ≡ sizes.old.items ++ map (λ packet. length packet.bytes) (packet_of reply.now)) }
{
    if let Reply::Packet(packet) = reply {
        sizes.push(packet.bytes.len())?;
    }
    Ok(())
}

fn sum(sizes: &[usize]) -> u128
    ensures { result ≡ sum sizes.now }
{
    let mut sum = 0;
    for size in sizes {
        sum += *size as u128;
    }
    sum
}
