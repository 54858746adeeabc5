ghost use Rattle.std.specs.Prelude.{◌≡◌, ℕ, ◌+◌, ◌-◌, ◌*◌, ◌^◌, ◌≤◌, ◌<◌, ◌++◌, IfOk, min};
ghost use Rattle.pyramid.specs.Gop.{group, group_count, gop};
ghost use Rattle.pyramid.specs.Plan.{first_or, key_above, plan};

use crate::row_command::{command_of, key_of};
use crate::{Command, InterConfig};
use coding_base::OutOfMemory;
use std::alloc::Global;

/// The commands that a session of `frames` inputs is to code, in order, where `keys` are the inputs that were decided
/// to be keys, in rising order, and two keys are at most `max_interval` inputs apart.
///
/// The first GOP starts at input 0, and each other at the first key above the last start, or `max_interval` inputs
/// after it if that is sooner. The one error is want of memory.
pub fn plan(
    alloc: Global,
    cfg: &InterConfig,
    max_interval: u64,
    frames: u64,
    keys: &[u64],
) -> Result<Vec<Command>, OutOfMemory>
    requires interval { 1 ≤ max_interval }
    requires frames { frames ≤ 2 ^ 31 - 2 }
    ensures { IfOk result (λ commands. commands.items ≡ plan cfg.now max_interval frames keys.now) }
{
    let mut commands = Vec::new(alloc);
    let mut start = 0;
    let mut rest = keys;
    while start < frames {
        rest = keys_above(rest, start);
        let next = start_after(max_interval, frames, rest, start);
        push_gop(&mut commands, cfg, start, next - start)?;
        start = next;
    }
    Ok(commands)
}

// The start after `start`, where the first of `rest` is the first key above it.
pub(crate) fn start_after(max_interval: u64, frames: u64, rest: &[u64], start: u64) -> u64
    requires interval { 1 ≤ max_interval }
    requires start { start < frames }
    requires frames { frames < 2 ^ 63 }
    requires above { start < first_or frames rest.now }
    ensures value { result ≡ min (first_or frames rest.now) (min (start + max_interval) frames) }
    ensures later { start < result }
    ensures within { result ≤ frames }
{
    let key = rest.first().copied().unwrap_or(frames);
    key.min(start.saturating_add(max_interval).min(frames))
}

// The keys from the first one above `start` on.
pub(crate) fn keys_above(keys: &[u64], start: u64) -> &[u64]
    ensures first { (frames : ℕ) → first_or frames result.now ≡ key_above frames keys.now start }
    ensures above { (frames : ℕ) → start < frames → start < first_or frames result.now }
    ensures later { (frames later : ℕ) →
        start ≤ later → key_above frames result.now later ≡ key_above frames keys.now later }
{
    for (i, key) in keys.iter().enumerate() {
        if *key > start {
            return &keys[i..];
        }
    }
    &keys[keys.len()..]
}

// Puts the commands of a GOP at the end.
fn push_gop(
    commands: &mut Vec<Command>,
    cfg: &InterConfig,
    start: u64,
    length: u64,
) -> Result<(), OutOfMemory>
    requires some { 1 ≤ length }
    requires end { start + length ≤ 2 ^ 31 }
    ensures { IfOk result
        (λ _. commands.new.items ≡ commands.old.items ++ gop cfg.now start length) }
{
    commands.push(key_of(start))?;
    for number in 0..group_count(cfg, length) {
        push_group(commands, cfg, start, length, number)?;
    }
    Ok(())
}

// How many groups have a position below a GOP's length.
pub(crate) fn group_count(cfg: &InterConfig, length: u64) -> u64
    requires some { 1 ≤ length }
    ensures value { result ≡ group_count cfg.now length }
    ensures within { result ≤ length }
{
    (length - 1).div_ceil(cfg.group_inputs())
}

// Puts the commands of a group at the end: those of its rows whose positions are below the GOP's length.
fn push_group(
    commands: &mut Vec<Command>,
    cfg: &InterConfig,
    start: u64,
    length: u64,
    number: u64,
) -> Result<(), OutOfMemory>
    requires end { start + length ≤ 2 ^ 31 }
    requires number { number ≤ 2 ^ 32 }
    ensures { IfOk result
        (λ _. commands.new.items ≡ commands.old.items ++ group cfg.now start length number) }
{
    let rows = cfg.rows();
    for row in rows {
        if cfg.row_position(number, row) < length {
            commands.push(command_of(cfg, start, number, row))?;
        }
    }
    Ok(())
}
