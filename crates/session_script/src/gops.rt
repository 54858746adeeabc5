ghost use Rattle.std.specs.Prelude.{◌≡◌, ◌+◌, ◌≤◌, ℕ, Ok, None, false};
ghost use Rattle.byte_streams.specs.Streams.{TakesAtMost};
ghost use Rattle.av1_settings.specs.Checks.{asks_passes, session_refusal, IsValid};
ghost use Rattle.script_lines.specs.Grammar.{IsConfig, IsOfGops};
ghost use Rattle.scripted.specs.NoLevels.{no_levels};
ghost use Rattle.session_core.specs.Told.{Heard};
ghost use Rattle.session_script.specs.Causes.{script_for};
ghost use Rattle.session_script.specs.declared.run.TheConstants.{MOST_BYTES};
ghost use Rattle.session_script.specs.declared.words.Task.TheVariants.{Gops};
ghost use Rattle.session_script.specs.Outcomes.{IsAnswer, IsOfKind, IsRun, IsScriptOutcome, IsSourceOutcome, span};
ghost use Rattle.session_script.specs.Words.{gops_of};

use crate::calls::sent_frames;
use crate::outcome::{Account, Outcome, Report};
use crate::run::{CORRUPTED, MOST_BYTES, tell};
use crate::script_maker::ScriptMaker;
use crate::words::workers_asked;
use av1_frame::Pixel;
use av1_settings::{Config, LevelTables};
use byte_streams::{ReadError, Sink, Source, read_all};
use gop_board::{GopError, OpenGate, encode_gops};
use script_lines::{Dialect, Script, ScriptError, parse};
use scripted::{ScriptedDetector, no_levels, scripted_tables};
use std::alloc::Global;
use std::sync::Wait;
use std::thread::Threads;

/// Does what the words of the command line after the program's name ask for, where they are `gops` and a number of workers,
/// 1 to 16: splits the frames of the script that the source holds into jobs at its cuts, codes these side by side, each with a
/// coder and mean scales of its own, and puts the line of each packet into the sink, in the order of the jobs. It waits for its
/// workers, and how many there are changes nothing of what is written. The script has plain frames and a flush behind them,
/// and no still picture. Frame P of a job is the script's frame `first + P`, where `first` is the one at which the job begins; a
/// call that the script has fail is that call of each job's coder.
///
/// The statuses are those of [`run_script`](crate::run_script). At 8 the job that is named is the least whose coder fails, and
/// 3 names the line behind the last one where the flush is missing. There is no transcript.
pub fn run_gops<H: Threads + Wait + Sync, R: Source, W: Sink>(
    rt: &H,
    alloc: Global,
    words: &[String],
    source: &mut R,
    sink: &mut W,
) -> Report
    ensures outcome { IsAnswer (gops_of words.now) (span R.left R.faults source.old source.new)
        (span W.held W.faults sink.old sink.new) result }
    ensures no_session { (result.transcript ≡ None) × (result.pass ≡ None) }
    ensures untouched { gops_of words.now ≡ None →
        (source.new ≡ source.old) × (sink.new ≡ sink.old) }
{
    Report::of(encode_words(rt, alloc, words, source, sink))
}

// The same, as what it came to.
fn encode_words<H: Threads + Wait + Sync, R: Source, W: Sink>(
    rt: &H,
    alloc: Global,
    words: &[String],
    source: &mut R,
    sink: &mut W,
) -> Outcome
    ensures outcome { (heard : Heard ℕ) →
        IsRun (gops_of words.now) (span R.left R.faults source.old source.new)
        (span W.held W.faults sink.old sink.new) heard result }
    ensures untouched { gops_of words.now ≡ None →
        (source.new ≡ source.old) × (sink.new ≡ sink.old) }
{
    let Some(workers) = workers_asked(words) else {
        return Outcome::WrongWords;
    };
    let outcome = encode_source(rt, alloc, workers, source);
    tell(alloc, outcome, sink)
}

// Reads a script, and codes its frames.
fn encode_source<H: Threads + Wait + Sync, R: Source>(
    rt: &H,
    alloc: Global,
    workers: u64,
    source: &mut R,
) -> Outcome
    ensures cause { (heard : Heard ℕ) →
        IsSourceOutcome (span R.left R.faults source.old source.new) heard (Gops workers) result }
    ensures kind { IsOfKind (Gops workers) result }
    ensures reads { TakesAtMost (MOST_BYTES + 1) (R.left source.old) (R.left source.new) }
    ensures later { R.faults source.old ≤ R.faults source.new }
{
    match read_all(alloc, source, MOST_BYTES) {
        Ok(bytes) => encode_bytes(rt, alloc, workers, &bytes),
        Err(ReadError::Failed) => Outcome::Unreadable,
        Err(ReadError::TooLong) => Outcome::TooLong,
        Err(ReadError::OutOfMemory) => Outcome::OutOfMemory,
    }
}

fn encode_bytes<H: Threads + Wait + Sync>(
    rt: &H,
    alloc: Global,
    workers: u64,
    bytes: &[u8],
) -> Outcome
    ensures { (heard : Heard ℕ) →
        IsScriptOutcome heard (Gops workers) (script_for (Gops workers) bytes.now) result }
{
    match parse(alloc, Dialect::Gops, bytes) {
        Ok(script) => encode_script(rt, alloc, workers, &script),
        Err(ScriptError::BadLine(line)) => Outcome::BadLine(line),
        Err(ScriptError::OutOfMemory) => Outcome::OutOfMemory,
    }
}

// Codes the frames of a script, if its configuration is valid: only then is the picture's size within its bounds.
fn encode_script<H: Threads + Wait + Sync>(
    rt: &H,
    alloc: Global,
    workers: u64,
    script: &Script,
) -> Outcome
    requires { IsOfGops script.now }
    ensures outcome { (heard : Heard ℕ) →
        IsScriptOutcome heard (Gops workers) (Ok script.now) result }
{
    let Ok(config) = script.config() else {
        return Outcome::RefusedPassData(CORRUPTED);
    };
    let levels = no_levels();
    if let Err(refusal) = config.validate_for_session(&levels, <u8 as Pixel>::BITS) {
        return Outcome::Refused(refusal.number());
    }
    encode_frames(rt, alloc, workers, script, &config, &levels)
}

// Codes the frames of a script by its configuration, which is valid for a session in one pass.
fn encode_frames<H: Threads + Wait + Sync>(
    rt: &H,
    alloc: Global,
    workers: u64,
    script: &Script,
    config: &Config,
    levels: &LevelTables,
) -> Outcome
    requires gops { IsOfGops script.now }
    requires made { IsConfig script.now config.now }
    requires levels { levels.now ≡ no_levels }
    requires valid { session_refusal 8 levels.now config.now ≡ None }
    requires sizes { IsValid config.now.enc }
    requires one_pass { asks_passes config.now ≡ false }
    ensures outcome { (heard : Heard ℕ) →
        IsScriptOutcome heard (Gops workers) (Ok script.now) result }
{
    let Ok(frames) = sent_frames(alloc, &config.enc, script.calls.as_slice()) else {
        return Outcome::OutOfMemory;
    };
    let Ok(mut detector) = ScriptedDetector::new(alloc, script.cuts.as_slice()) else {
        return Outcome::OutOfMemory;
    };
    let maker = ScriptMaker { script };
    let tables = scripted_tables();
    match encode_gops(
        rt,
        alloc,
        config,
        levels,
        &tables,
        frames,
        &mut detector,
        &maker,
        workers as usize,
        &OpenGate,
    ) {
        Ok(packets) => Outcome::Done(Account::Packets(packets)),
        Err(GopError::CoderFault { job, command, .. }) => Outcome::JobFault { job, command },
        Err(GopError::OutOfMemory) => Outcome::OutOfMemory,
        // The configuration is valid.
        Err(GopError::Invalid(_)) => unreachable!(),
    }
}
