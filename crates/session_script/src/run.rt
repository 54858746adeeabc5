ghost use Rattle.std.specs.Prelude.{◌≡◌, ◌≢◌, ◌+◌, ◌≤◌, ℕ, IsTrue, OnOk, Ok, None, Some, false, if◌then◌else◌};
ghost use Rattle.std.specs.List.{list_any};
ghost use Rattle.std.specs.Result.{result_err};
ghost use Rattle.av1_settings.specs.Checks.{IsValid};
ghost use Rattle.byte_streams.specs.Streams.{TakesAtMost};
ghost use Rattle.script_lines.specs.Grammar.{GivesNothing};
ghost use Rattle.session_core.specs.PassSessions.{passes_refusal};
ghost use Rattle.session_script.specs.Carried.{asks_bytes, asks_index, asks_reservoir, heard_first, heard_of, options_of};
ghost use Rattle.session_script.specs.Causes.{script_for};
ghost use Rattle.session_script.specs.declared.run.TheConstants.{MOST_BYTES};
ghost use Rattle.session_script.specs.declared.words.Task.TheVariants.{Run, FirstPass, SecondPass, Generate};
ghost use Rattle.session_script.specs.Outcomes.{IsAnswer, IsOfKind, IsRun, IsScriptOutcome, IsSeedOutcome, IsSourceOutcome, IsTaskOutcome, IsTold, IsWritten, span, status_of};
ghost use Rattle.session_script.specs.Words.{has_jobs, reads_script, task_of};

use crate::calls::{pass_calls, session_calls};
use crate::outcome::{Account, Outcome, Report};
use crate::words::{Task, task_of};
use av1_frame::Pixel;
use av1_settings::{Config, InvalidConfig, LevelTables};
use byte_streams::{ReadError, Sink, Source, read_all, write_all};
use coding_base::OutOfMemory;
use generated_script::generated_script;
use script_lines::{Print, Script, ScriptError, parse};
use scripted::{ScriptedCoder, ScriptedDetector, ScriptedScales, no_levels, scripted_tables};
use session_core::{SessionError, run_pass_session, run_session};
use session_text::ReportOptions;
use std::alloc::Global;

/// The most bytes of a script.
pub const MOST_BYTES: usize = 1_048_576;

/// The number of the error for pass data that is no summary.
pub const CORRUPTED: u8 = 1;

/// Does what the words of the command line after the program's name ask for: `run` carries out the script that the source
/// holds in one pass, and puts its report into the sink; `pass1` asks for pass data, takes it behind each receive, and reports it
/// too; `pass2` is given the pass data of the script's `pass` lines. A script's summary makes a second pass, also of `pass1`, and
/// is refused by `run`. `gen` and a seed of 1 to 10000 carries out the script that the seed makes, without reading the source,
/// and puts into the sink what it came to in six lines.
///
/// The statuses, in this order: 2 for other words; 5 for a source that fails; 7 for a source of more than 1,048,576 bytes;
/// 3 for a line outside the grammar, the first of which is named; 10 for a summary that is refused; 4 for a configuration that
/// is refused; 8 for a coder that fails, at a call that the script names, or 10 for pass data that is refused, whichever comes
/// first; 6 for a sink that fails while the text is written; 0 for a text that is written whole; 9 where memory runs out, at any
/// point.
pub fn run_script<R: Source, W: Sink>(
    alloc: Global,
    words: &[String],
    source: &mut R,
    sink: &mut W,
) -> Report
    ensures outcome { IsAnswer (task_of words.now) (span R.left R.faults source.old source.new)
        (span W.held W.faults sink.old sink.new) result }
    ensures untouched { task_of words.now ≡ None →
        (source.new ≡ source.old) × (sink.new ≡ sink.old) }
    ensures unread { (seed : ℕ) → task_of words.now ≡ Some (Generate seed) →
        source.new ≡ source.old }
{
    let mut coder = ScriptedCoder::new(alloc);
    let mut detector = ScriptedDetector::without_cuts(alloc);
    let mut scales = ScriptedScales::without_values(alloc);
    Report::of(run_with(
        alloc,
        words,
        source,
        sink,
        &mut coder,
        &mut detector,
        &mut scales,
    ))
}

/// The same with this coder, this detector and these mean scales, which say afterwards what they were asked for. A session
/// begins with them made anew, by the rules of the script.
pub fn run_with<R: Source, W: Sink>(
    alloc: Global,
    words: &[String],
    source: &mut R,
    sink: &mut W,
    coder: &mut ScriptedCoder,
    detector: &mut ScriptedDetector,
    scales: &mut ScriptedScales,
) -> Outcome
    ensures outcome { IsRun (task_of words.now) (span R.left R.faults source.old source.new)
        (span W.held W.faults sink.old sink.new) (heard_of coder.new detector.new scales.new)
        result }
    ensures untouched { task_of words.now ≡ None →
        (source.new ≡ source.old) × (sink.new ≡ sink.old)
        × (coder.new ≡ coder.old) × (detector.new ≡ detector.old) × (scales.new ≡ scales.old) }
    ensures unread { (seed : ℕ) → task_of words.now ≡ Some (Generate seed) →
        source.new ≡ source.old }
{
    let Some(task) = task_of(words) else {
        return Outcome::WrongWords;
    };
    let outcome = carry_out(alloc, task, source, coder, detector, scales);
    tell(alloc, outcome, sink)
}

// Carries out a task.
fn carry_out<R: Source>(
    alloc: Global,
    task: Task,
    source: &mut R,
    coder: &mut ScriptedCoder,
    detector: &mut ScriptedDetector,
    scales: &mut ScriptedScales,
) -> Outcome
    requires { has_jobs task ≡ false }
    ensures cause { IsTaskOutcome (span R.left R.faults source.old source.new)
        (heard_of coder.new detector.new scales.new) task result }
    ensures kind { IsOfKind task result }
    ensures reads { TakesAtMost (MOST_BYTES + 1) (R.left source.old) (R.left source.new) }
    ensures later { R.faults source.old ≤ R.faults source.new }
    ensures unread { (seed : ℕ) → task ≡ Generate seed → source.new ≡ source.old }
{
    match task {
        Task::Generate(seed) => carry_out_seed(alloc, seed, coder, detector, scales),
        Task::Run | Task::FirstPass | Task::SecondPass => {
            carry_out_source(alloc, task, source, coder, detector, scales)
        }
        Task::Gops(_) => unreachable!(),
    }
}

// Reads a script and carries it out.
fn carry_out_source<R: Source>(
    alloc: Global,
    task: Task,
    source: &mut R,
    coder: &mut ScriptedCoder,
    detector: &mut ScriptedDetector,
    scales: &mut ScriptedScales,
) -> Outcome
    requires reads { IsTrue (reads_script task) }
    requires alone { has_jobs task ≡ false }
    ensures cause { IsSourceOutcome (span R.left R.faults source.old source.new)
        (heard_of coder.new detector.new scales.new) task result }
    ensures kind { IsOfKind task result }
    ensures reads { TakesAtMost (MOST_BYTES + 1) (R.left source.old) (R.left source.new) }
    ensures later { R.faults source.old ≤ R.faults source.new }
{
    match read_all(alloc, source, MOST_BYTES) {
        Ok(bytes) => carry_out_bytes(alloc, task, &bytes, coder, detector, scales),
        Err(ReadError::Failed) => Outcome::Unreadable,
        Err(ReadError::TooLong) => Outcome::TooLong,
        Err(ReadError::OutOfMemory) => Outcome::OutOfMemory,
    }
}

fn carry_out_bytes(
    alloc: Global,
    task: Task,
    bytes: &[u8],
    coder: &mut ScriptedCoder,
    detector: &mut ScriptedDetector,
    scales: &mut ScriptedScales,
) -> Outcome
    requires reads { IsTrue (reads_script task) }
    requires alone { has_jobs task ≡ false }
    ensures outcome { IsScriptOutcome (heard_of coder.new detector.new scales.new) task
        (script_for task bytes.now) result }
{
    let script = match parse(alloc, task.dialect(), bytes) {
        Ok(script) => script,
        Err(ScriptError::BadLine(line)) => return Outcome::BadLine(line),
        Err(ScriptError::OutOfMemory) => return Outcome::OutOfMemory,
    };
    match task {
        Task::Run => carry_out_script(alloc, &script, coder, detector, scales),
        Task::FirstPass => carry_out_passes(alloc, true, &script, coder, detector, scales),
        Task::SecondPass => carry_out_passes(alloc, false, &script, coder, detector, scales),
        Task::Generate(_) | Task::Gops(_) => unreachable!(),
    }
}

// Carries out the script that a seed makes.
fn carry_out_seed(
    alloc: Global,
    seed: u64,
    coder: &mut ScriptedCoder,
    detector: &mut ScriptedDetector,
    scales: &mut ScriptedScales,
) -> Outcome
    ensures outcome { IsSeedOutcome (heard_of coder.new detector.new scales.new) seed result }
{
    match generated_script(alloc, seed) {
        Ok(script) => carry_out_script(alloc, &script, coder, detector, scales).summed_up(),
        Err(_) => Outcome::OutOfMemory,
    }
}

// Carries out the calls of a script in one pass, if its configuration is valid: only then is the picture's size within its bounds.
fn carry_out_script(
    alloc: Global,
    script: &Script,
    coder: &mut ScriptedCoder,
    detector: &mut ScriptedDetector,
    scales: &mut ScriptedScales,
) -> Outcome
    requires { GivesNothing script.now }
    ensures outcome { IsScriptOutcome (heard_of coder.new detector.new scales.new) Run
        (Ok script.now) result }
{
    let Ok(config) = script.config() else {
        return Outcome::RefusedPassData(CORRUPTED);
    };
    let levels = no_levels();
    if let Err(refusal) = config.validate_for_session(&levels, <u8 as Pixel>::BITS) {
        return Outcome::Refused(refusal.number());
    }
    let Ok(calls) = session_calls(alloc, &config.enc, script.calls.as_slice()) else {
        return Outcome::OutOfMemory;
    };
    let Ok(()) = begin(alloc, script, coder, detector, scales) else {
        return Outcome::OutOfMemory;
    };
    let tables = scripted_tables();
    match run_session(
        alloc, &config, &levels, &tables, detector, scales, coder, calls,
    ) {
        Ok(transcript) => Outcome::Done(Account::Turns(transcript, report_options(script))),
        Err(SessionError::CoderFault { command }) => Outcome::CoderFault(command),
        Err(SessionError::OutOfMemory) => Outcome::OutOfMemory,
        // The configuration was found valid above.
        Err(SessionError::Invalid(_)) => unreachable!(),
        // No pass data was given.
        Err(SessionError::PassData(_)) => unreachable!(),
    }
}

// The same in two passes.
fn carry_out_passes(
    alloc: Global,
    emits: bool,
    script: &Script,
    coder: &mut ScriptedCoder,
    detector: &mut ScriptedDetector,
    scales: &mut ScriptedScales,
) -> Outcome
    ensures outcome { IsScriptOutcome (heard_of coder.new detector.new scales.new)
        (if emits then FirstPass else SecondPass) (Ok script.now) result }
{
    let Ok(mut config) = script.config() else {
        return Outcome::RefusedPassData(CORRUPTED);
    };
    config.rate_control.emit_data = emits;
    let levels = no_levels();
    if let Err(refusal) = check_passes(&config, &levels) {
        return Outcome::Refused(refusal.number());
    }
    let Ok(calls) = pass_calls(alloc, &config.enc, script.calls.as_slice(), emits) else {
        return Outcome::OutOfMemory;
    };
    let Ok(()) = begin(alloc, script, coder, detector, scales) else {
        return Outcome::OutOfMemory;
    };
    let tables = scripted_tables();
    match run_pass_session(
        alloc, &config, &levels, &tables, detector, scales, coder, calls,
    ) {
        Ok(transcript) => Outcome::Done(Account::Passes(transcript, report_options(script))),
        Err(SessionError::CoderFault { command }) => Outcome::CoderFault(command),
        Err(SessionError::PassData(refusal)) => Outcome::RefusedPassData(refusal.number()),
        Err(SessionError::OutOfMemory) => Outcome::OutOfMemory,
        // The configuration was found valid above.
        Err(SessionError::Invalid(_)) => unreachable!(),
    }
}

// The checks of a session in two passes.
fn check_passes(config: &Config, levels: &LevelTables) -> Result<(), InvalidConfig>
    ensures first { result_err result ≡ passes_refusal 8 levels.now config.now }
    ensures valid { OnOk result (IsValid config.now.enc) }
{
    if !config.rate_control.emit_data && config.rate_control.summary.is_none() {
        return Err(InvalidConfig::RateControlConfigurationMismatch);
    }
    config.validate_for_pixel(levels, <u8 as Pixel>::BITS)
}

// Makes coder, detector and mean scales anew, by the rules of a script.
fn begin(
    alloc: Global,
    script: &Script,
    coder: &mut ScriptedCoder,
    detector: &mut ScriptedDetector,
    scales: &mut ScriptedScales,
) -> Result<(), OutOfMemory>
    ensures { OnOk result
        (heard_of coder.new detector.new scales.new ≡ heard_first script.now) }
{
    let byte_counts = script.byte_counts.as_slice();
    *coder = ScriptedCoder::with_rules(alloc, byte_counts, script.faults.as_slice())?;
    *detector = ScriptedDetector::new(alloc, script.cuts.as_slice())?;
    *scales = ScriptedScales::new(alloc, script.scales.as_slice())?;
    Ok(())
}

// What the report has besides.
fn report_options(script: &Script) -> ReportOptions
    ensures { result ≡ options_of script.now }
{
    let prints = script.prints.as_slice();
    ReportOptions {
        bytes: ask_bytes(prints),
        quantizer_index: ask_index(prints),
        reservoir: ask_reservoir(prints),
    }
}

fn ask_bytes(prints: &[Print]) -> bool
    ensures { result ≡ list_any asks_bytes prints.now }
{
    prints.iter().any(|print| matches!(print, Print::Bytes))
}

fn ask_index(prints: &[Print]) -> bool
    ensures { result ≡ list_any asks_index prints.now }
{
    prints
        .iter()
        .any(|print| matches!(print, Print::QuantizerIndex))
}

fn ask_reservoir(prints: &[Print]) -> bool
    ensures { result ≡ list_any asks_reservoir prints.now }
{
    prints.iter().any(|print| matches!(print, Print::Reservoir))
}

/// Writes the text of an outcome, and says what it comes to then.
pub fn tell<W: Sink>(alloc: Global, outcome: Outcome, sink: &mut W) -> Outcome
    requires { status_of outcome ≢ 6 }
    ensures told { IsTold outcome result }
    ensures writes { IsWritten (span W.held W.faults sink.old sink.new) result }
{
    if outcome.is_silent() {
        return outcome;
    }
    let Ok(text) = outcome.text(alloc) else {
        return Outcome::OutOfMemory;
    };
    match write_all(sink, text.as_bytes()) {
        Ok(()) => outcome,
        Err(_) => outcome.cut_short(),
    }
}
