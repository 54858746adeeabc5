ghost use Rattle.std.specs.Prelude.{◌≡◌, ◌≢◌, ◌↔◌, ◌<◌, ◌≤◌, ◌∷◌, ◌&&◌, not, length, ℤ, [], ◌+◌, Ok, Err, bytes_eq, nat_le, None, Some, IfOk, MatchResult, if◌then◌else◌};
ghost use Rattle.std.specs.List.{list_any};
ghost use Rattle.pass_stats.specs.declared.error.Why.{Why};
ghost use Rattle.pass_stats.specs.declared.error.RateControlError.TheVariants.{CorruptedSummary, InvalidVersion};
ghost use Rattle.av1_settings.specs.declared.config.Config.{Config};
ghost use Rattle.script_lines.specs.Grammar.{empty_draft, is_flushed, lacks_flush, may_call, may_set, script_after, script_at_end, with_line, with_text, GivesNothing, IsOfGops, script_of, summary_refusal, IsConfig, IsScriptError};
ghost use Rattle.script_lines.specs.SettingLines.{encoder_of, preset_of};
ghost use Rattle.script_lines.specs.declared.line.Line.TheVariants.{Set, Answers, Prints, Summary, Calls, Gives};
ghost use Rattle.script_lines.specs.declared.dialect.Dialect.TheVariants.{Gops, SecondPass};
ghost use Rattle.script_lines.specs.Lines.{lines_of};

use crate::answer::{Answer, Print};
use crate::cut::cut;
use crate::dialect::Dialect;
use crate::line::{Action, Line, ScriptCall, ScriptCallList, key, read_line};
use crate::setting::Setting;
use arrayvec::ArrayVec;
use av1_settings::{Config, EncoderConfig, RateControlConfig};
use coding_base::{Bytes, OutOfMemory, Sequence};
use pass_stats::{RateControlError, parse_summary};
use std::alloc::Global;
use thiserror::Error;

/// Settings, as a script gives them.
pub type SettingList = Sequence<Setting>;

/// What a script says.
#[derive(Drop)]
pub struct Script {
    /// The settings, in the order of their lines.
    pub settings: SettingList,
    /// The bytes of the summary that makes a second pass.
    pub summary: Option<Bytes>,
    /// The frames at which the detector finds a scene cut.
    pub cuts: Sequence<u64>,
    /// Frames, and how many bytes the coder gives each; the last for a frame counts.
    pub byte_counts: Sequence<(u64, u64)>,
    /// The calls that the coder fails, by their numbers from 0.
    pub faults: Sequence<u64>,
    /// Frames, and the mean scale of each; the last for a frame counts.
    pub scales: Sequence<(u64, i64)>,
    /// What the report has besides.
    pub prints: Sequence<Print>,
    /// The calls, in order.
    pub calls: ScriptCallList,
}

/// Why bytes are no script.
#[derive(Clone, Copy, Debug, PartialEq, Eq, Error)]
pub enum ScriptError {
    /// The first line that can't stand where it stands, or the one behind the last where a line is missing, by its number
    /// from 1.
    #[error("line {0} is no script line")]
    BadLine(u64),
    /// Memory ran out.
    #[error("out of memory")]
    OutOfMemory,
}

/// The most calls of a script.
pub const MOST_CALLS: usize = 100_000;

// The speed preset of a script that names none.
const DEFAULT_PRESET: u8 = 6;

impl Script {
    /// The configuration that the lines before the calls give: the script's preset first, then its other settings over it, and
    /// the second pass that its summary makes. No memory is taken.
    ///
    /// # Errors
    ///
    /// That of the summary's bytes, where there are such bytes and they are no summary.
    pub fn config(&self) -> Result<Config, RateControlError>
        ensures accepted { (config : Config) → (result ≡ Ok config) ↔ IsConfig self.now config }
        ensures refused { (why : Why) →
            (result ≡ Err (CorruptedSummary why)) ↔ (summary_refusal self.now ≡ Some why) }
        ensures never_version { (v : ℤ) → result ≢ Err (InvalidVersion v) }
    {
        let config = Config::new().with_encoder_config(self.encoder());
        match &self.summary {
            None => Ok(config),
            Some(bytes) => match parse_summary(bytes.as_slice()) {
                Ok(summary) => {
                    let rate_control = RateControlConfig::new().with_summary(summary);
                    Ok(config.with_rate_control(rate_control))
                }
                Err(error) => Err(error),
            },
        }
    }

    // The encoder's settings.
    fn encoder(&self) -> EncoderConfig
        ensures { result ≡ encoder_of self.now.settings }
    {
        let mut enc = EncoderConfig::with_speed_preset(self.preset());
        for setting in self.settings.as_slice() {
            setting.apply(&mut enc);
        }
        enc
    }

    // The speed preset.
    fn preset(&self) -> u8
        ensures { result ≡ preset_of self.now.settings }
    {
        for setting in self.settings.as_slice() {
            if let Setting::Preset(speed) = setting {
                return *speed;
            }
        }
        DEFAULT_PRESET
    }
}

// A script as far as it was read, and the words of its setting lines.
#[derive(Drop)]
struct Draft {
    dialect: Dialect,
    script: Script,
    words: Sequence<Bytes>,
}

impl Draft {
    fn new(alloc: Global, dialect: Dialect) -> Draft
        ensures { result ≡ empty_draft dialect }
    {
        Draft {
            dialect,
            script: Script {
                settings: Sequence::new(alloc),
                summary: None,
                cuts: Sequence::new(alloc),
                byte_counts: Sequence::new(alloc),
                faults: Sequence::new(alloc),
                scales: Sequence::new(alloc),
                prints: Sequence::new(alloc),
                calls: Sequence::new(alloc),
            },
            words: Sequence::new(alloc),
        }
    }

    // Adds the lines of a text, and says how many they are.
    fn add_lines(&mut self, alloc: Global, text: &[u8]) -> Result<u64, ScriptError>
        ensures lines { let made = script_after self.old 1 (lines_of text.now) in
            MatchResult result (λ count. made ≡ script_at_end self.new (count + 1))
            (λ e. IsScriptError made e) }
        ensures few { IfOk result (λ count. count ≤ length text.now) }
    {
        let mut rest = text;
        let mut number = 0;
        while !rest.is_empty() {
            let (line, more) = first_line(rest);
            number += 1;
            match self.add_text(alloc, line) {
                Ok(true) => {}
                Ok(false) => return Err(ScriptError::BadLine(number)),
                Err(OutOfMemory) => return Err(ScriptError::OutOfMemory),
            }
            rest = more;
        }
        Ok(number)
    }

    // Adds the line of a text, and says whether it is a line that may stand here.
    fn add_text(&mut self, alloc: Global, text: &[u8]) -> Result<bool, OutOfMemory>
        ensures { IfOk result (λ good.
            with_text self.old text.now ≡ (if good then Some self.new else None)) }
    {
        match read_line(alloc, self.dialect, text)? {
            Some(line) => self.add(alloc, key(text), line),
            None => Ok(false),
        }
    }

    // The script, where no flush is missing; else the number of the line behind the last one, which is given, is bad.
    fn into_script(self, end: u64) -> Result<Script, ScriptError>
        ensures { MatchResult result (λ script. script_at_end self end ≡ Ok script)
            (λ e. IsScriptError (script_at_end self end) e) }
    {
        if self.lacks_flush() {
            return Err(ScriptError::BadLine(end));
        }
        Ok(self.script)
    }

    // Adds what a line asks for, and says whether the line may stand here.
    fn add(&mut self, alloc: Global, word: &[u8], line: Line) -> Result<bool, OutOfMemory>
        ensures { IfOk result (λ good.
            with_line self.old word.now line ≡ (if good then Some self.new else None)) }
    {
        match line {
            Line::Blank => Ok(true),
            Line::Set(setting) => self.add_setting(alloc, word, setting),
            Line::Answers(answer) => self.add_answer(answer),
            Line::Prints(print) => self.add_print(alloc, word, print),
            Line::Summary(bytes) => self.add_summary(alloc, word, bytes),
            Line::Calls { action, count } => self.add_calls(action, count),
            Line::Gives(bytes) => self.add_give(bytes),
        }
    }

    fn add_setting(
        &mut self,
        alloc: Global,
        word: &[u8],
        setting: Setting,
    ) -> Result<bool, OutOfMemory>
        ensures { IfOk result (λ good.
            with_line self.old word.now (Set setting) ≡ (if good then Some self.new else None)) }
    {
        if !self.may_set(word) {
            return Ok(false);
        }
        self.words.push(Sequence::from_slice(alloc, word)?)?;
        self.script.settings.push(setting)?;
        Ok(true)
    }

    fn add_answer(&mut self, answer: Answer) -> Result<bool, OutOfMemory>
        ensures { IfOk result (λ good.
            with_line self.old [] (Answers answer) ≡ (if good then Some self.new else None)) }
    {
        if self.script.calls.len() > 0 {
            return Ok(false);
        }
        match answer {
            Answer::Cut(frame) => self.script.cuts.push(frame)?,
            Answer::ByteCount { frame, count } => self.script.byte_counts.push((frame, count))?,
            Answer::Fault(call) => self.script.faults.push(call)?,
            Answer::Scale { frame, value } => self.script.scales.push((frame, value))?,
        }
        Ok(true)
    }

    fn add_print(&mut self, alloc: Global, word: &[u8], print: Print) -> Result<bool, OutOfMemory>
        ensures { IfOk result (λ good.
            with_line self.old word.now (Prints print) ≡ (if good then Some self.new else None)) }
    {
        if !self.may_set(word) {
            return Ok(false);
        }
        self.words.push(Sequence::from_slice(alloc, word)?)?;
        self.script.prints.push(print)?;
        Ok(true)
    }

    fn add_summary(&mut self, alloc: Global, word: &[u8], bytes: Bytes) -> Result<bool, OutOfMemory>
        ensures { IfOk result (λ good.
            with_line self.old word.now (Summary bytes) ≡ (if good then Some self.new else None)) }
    {
        if !self.may_set(word) {
            return Ok(false);
        }
        self.words.push(Sequence::from_slice(alloc, word)?)?;
        self.script.summary = Some(bytes);
        Ok(true)
    }

    // Whether a setting line with this word may stand here.
    fn may_set(&self, word: &[u8]) -> bool
        ensures { result ≡ may_set self.now word.now }
    {
        self.script.calls.len() == 0 && !self.has_word(word)
    }

    // Whether a setting line with this word was read.
    fn has_word(&self, word: &[u8]) -> bool
        ensures { result ≡ list_any (λ used. bytes_eq used word.now) self.now.words }
    {
        self.words
            .as_slice()
            .iter()
            .any(|used| used.as_slice() == word)
    }

    fn add_calls(&mut self, action: Action, count: u64) -> Result<bool, OutOfMemory>
        ensures { IfOk result (λ good.
            with_line self.old [] (Calls action count) ≡ (if good then Some self.new else None)) }
    {
        if !self.may_call(count) {
            return Ok(false);
        }
        for _done in 0..count {
            self.script.calls.push(ScriptCall::Act(action))?;
        }
        Ok(true)
    }

    fn add_give(&mut self, bytes: ArrayVec<u8, 68>) -> Result<bool, OutOfMemory>
        ensures { IfOk result (λ good.
            with_line self.old [] (Gives bytes) ≡ (if good then Some self.new else None)) }
    {
        if !self.may_call(1) {
            return Ok(false);
        }
        self.script.calls.push(ScriptCall::Give(bytes))?;
        Ok(true)
    }

    // Whether so many calls may stand here.
    fn may_call(&self, count: u64) -> bool
        ensures { result ≡ may_call self.now count }
    {
        has_room(self.script.calls.len(), count)
            && !(self.dialect.ends_with_flush() && self.is_flushed())
    }

    // Whether the flush that ends the calls is missing.
    fn lacks_flush(&self) -> bool
        ensures { result ≡ lacks_flush self.now }
    {
        self.dialect.ends_with_flush() && !self.is_flushed()
    }

    fn is_flushed(&self) -> bool
        ensures { result ≡ is_flushed self.now.script.calls }
    {
        match self.script.calls.as_slice().last() {
            Some(ScriptCall::Act(action)) => matches!(action, Action::Flush),
            Some(ScriptCall::Give(_)) | None => false,
        }
    }
}

// Whether there is room for so many calls behind those that are there.
fn has_room(before: usize, count: u64) -> bool
    ensures { result ≡ nat_le (before + count) MOST_CALLS }
{
    before <= MOST_CALLS && count <= (MOST_CALLS - before) as u64
}

/// Reads a script of a dialect.
///
/// # Errors
///
/// `BadLine` names the first line that is no script line of the dialect, or can't stand where it stands; where the flush that
/// ends a script is missing, and no line before is bad, it names the line behind the last one. `OutOfMemory` is answered where
/// memory ran out.
pub fn parse(alloc: Global, dialect: Dialect, text: &[u8]) -> Result<Script, ScriptError>
    ensures script { MatchResult result (λ script. script_of dialect text.now ≡ Ok script)
        (λ e. IsScriptError (script_of dialect text.now) e) }
    ensures gives_nothing { dialect ≢ SecondPass → IfOk result (λ script. GivesNothing script) }
    ensures of_gops { dialect ≡ Gops → IfOk result (λ script. IsOfGops script) }
{
    let mut draft = Draft::new(alloc, dialect);
    match draft.add_lines(alloc, text) {
        Ok(count) => draft.into_script(count + 1),
        Err(error) => Err(error),
    }
}

// The first line of a text that isn't empty, and what stands behind it.
fn first_line(text: &[u8]) -> (&[u8], &[u8])
    requires { 0 < length text.now }
    ensures lines { lines_of text.now ≡ result.0.now ∷ lines_of result.1.now }
    ensures shorter { length result.1.now < length text.now }
{
    let (line, rest) = cut(text, b'\n');
    match rest {
        Some(rest) => (line, rest),
        None => (line, &[]),
    }
}
