ghost use Rattle.std.specs.Prelude.{◌≡◌, ◌++◌, ◌∷◌, None, replicate, IfOk, OnOk};
ghost use Rattle.std.specs.List.{enumerate_from};
ghost use Rattle.av1_settings.specs.declared.level.LevelTables.{LevelTables};
ghost use Rattle.av1_settings.specs.Checks.{session_refusal};
ghost use Rattle.av1_settings.specs.Defaults.{default_rate_control};
ghost use Rattle.script_lines.specs.Grammar.{config_of, GivesNothing};
ghost use Rattle.script_lines.specs.declared.line.ScriptCall.TheVariants.{Act};
ghost use Rattle.generated_script.specs.Generated.{byte_counts_of, calls_of, cuts_of, generated, is_cut, script_with, the_settings};

use crate::numbers::numbers_after;
use coding_base::{OutOfMemory, Sequence};
use script_lines::{Action, Script, ScriptCall, ScriptCallList, Setting, SettingList};
use std::alloc::Global;

/// The frames that a generated script sends.
pub const FRAMES: usize = 2000;

/// The receives of a generated script.
pub const RECEIVES: usize = 3000;

// A number that this divides makes its frame a scene cut.
const CUT_DIVISOR: u64 = 50;

// What of a number doesn't count for its frame's bytes.
const BYTES_DIVISOR: u64 = 64;

// How many byte counts there are, and the least of them.
const BYTES_RANGE: u64 = 200;

const LEAST_BYTES: u64 = 20;

/// The script of a seed: frames of 64 by 64 with a bitrate of 60,000 bits a second, whose scene cuts and bytes follow from the
/// seed's pseudorandom numbers; they are sent, then a flush, then receives, and no pass data is given. Its configuration is valid
/// for samples of 8 bits, whatever the levels are.
pub fn generated_script(alloc: Global, seed: u64) -> Result<Script, OutOfMemory>
    ensures script { IfOk result (λ script. script ≡ generated seed) }
    ensures valid { IfOk result (λ script. (levels : LevelTables) →
        session_refusal 8 levels (config_of script default_rate_control) ≡ None) }
    ensures gives_nothing { IfOk result (λ script. GivesNothing script) }
{
    script_with(alloc, seed, FRAMES, RECEIVES)
}

// The script of a seed with so many frames and receives.
#[tactic(auto, unfolding(crate::specs::Generated::script_with))]
pub(crate) fn script_with(
    alloc: Global,
    seed: u64,
    frames: usize,
    receives: usize,
) -> Result<Script, OutOfMemory>
    ensures { IfOk result (λ script. script ≡ script_with frames receives seed) }
{
    let numbers = numbers_after(alloc, seed, frames)?;
    Ok(Script {
        settings: settings(alloc)?,
        summary: None,
        cuts: cuts(alloc, &numbers)?,
        byte_counts: byte_counts(alloc, &numbers)?,
        faults: Sequence::new(alloc),
        scales: Sequence::new(alloc),
        prints: Sequence::new(alloc),
        calls: calls(alloc, frames, receives)?,
    })
}

fn settings(alloc: Global) -> Result<SettingList, OutOfMemory>
    ensures { IfOk result (λ settings. settings ≡ the_settings) }
{
    let settings = [
        Setting::Size {
            width: 64,
            height: 64,
        },
        Setting::KeyInterval { min: 12, max: 60 },
        Setting::Lookahead(10),
        Setting::Bitrate(60_000),
    ];
    Sequence::from_slice(alloc, &settings)
}

// The frames, by their numbers, at which there is a scene cut.
fn cuts(alloc: Global, numbers: &[u64]) -> Result<Sequence<u64>, OutOfMemory>
    ensures { IfOk result (λ cuts. cuts ≡ cuts_of (enumerate_from 0 numbers.now)) }
{
    let mut cuts = Sequence::new(alloc);
    for (frame, number) in numbers.iter().enumerate() {
        if is_cut(frame, *number) {
            cuts.push(frame as u64)?;
        }
    }
    Ok(cuts)
}

fn is_cut(frame: usize, number: u64) -> bool
    ensures { result ≡ is_cut (frame, number) }
{
    1 <= frame && number % CUT_DIVISOR == 0
}

// Each frame, and how many bytes it has.
fn byte_counts(alloc: Global, numbers: &[u64]) -> Result<Sequence<(u64, u64)>, OutOfMemory>
    ensures { IfOk result (λ counts. counts ≡ byte_counts_of (enumerate_from 0 numbers.now)) }
{
    let mut counts = Sequence::new(alloc);
    for (frame, number) in numbers.iter().enumerate() {
        let count = LEAST_BYTES + number / BYTES_DIVISOR % BYTES_RANGE;
        counts.push((frame as u64, count))?;
    }
    Ok(counts)
}

fn calls(alloc: Global, frames: usize, receives: usize) -> Result<ScriptCallList, OutOfMemory>
    ensures { IfOk result (λ calls. calls ≡ calls_of frames receives) }
{
    let mut calls = Sequence::new(alloc);
    push_calls(&mut calls, Action::Send, frames)?;
    push_calls(&mut calls, Action::Flush, 1)?;
    push_calls(&mut calls, Action::Receive, receives)?;
    Ok(calls)
}

// Puts so many calls at the end.
fn push_calls(calls: &mut ScriptCallList, action: Action, count: usize) -> Result<(), OutOfMemory>
    ensures { OnOk result (calls.new ≡ calls.old ++ replicate count (Act action)) }
{
    for _done in 0..count {
        calls.push(ScriptCall::Act(action))?;
    }
    Ok(())
}
