ghost use Rattle.std.specs.Prelude.{◌≡◌, IfOk};
ghost use Rattle.script_lines.specs.Lines.{calls_of_none, calls_of_one, calls_of_two, is_side, key_of, line_in, line_of, line_of_none, line_of_numbers, line_of_one, line_of_two, line_of_words, parts, some_calls, word_of};

use crate::Setting;
use crate::answer::{Answer, Print};
use crate::cut::cut;
use crate::dialect::Dialect;
use crate::hex_bytes::{pass_bytes, summary_bytes};
use crate::number::number;
use crate::setting::is;
use arrayvec::ArrayVec;
use coding_base::{Bytes, OutOfMemory, Sequence};
use std::alloc::Global;

/// A call of any session, as a script asks for it.
#[derive(Clone, Copy)]
pub enum Action {
    /// Send the plain picture.
    Send,
    /// Send the plain picture as a key frame.
    SendKey,
    /// Send the plain picture with this opaque value.
    SendOpaque(u64),
    /// Send a plain picture of this size, in place of the settings' size.
    SendSize {
        /// Its width, 1 to 64.
        width: u8,
        /// Its height, 1 to 64.
        height: u8,
    },
    /// Flush.
    Flush,
    /// Receive.
    Receive,
}

// The most width or height of a frame of another size.
const MOST_SIDE: u64 = 64;

/// A call, as a script asks for it.
#[derive(Drop)]
pub enum ScriptCall {
    /// One of any session.
    Act(Action),
    /// Give these bytes of pass data, 1 to 68: only in a second pass.
    Give(ArrayVec<u8, 68>),
}

/// Calls, as a script asks for them.
pub type ScriptCallList = Sequence<ScriptCall>;

/// What a line of a script asks for.
#[derive(Drop)]
pub enum Line {
    /// Nothing: the line is empty, or a comment.
    Blank,
    /// A setting.
    Set(Setting),
    /// What the detector, the mean scales or the coder is to answer.
    Answers(Answer),
    /// What a report has besides.
    Prints(Print),
    /// A second pass, by the summary in these bytes.
    Summary(Bytes),
    /// Calls, one after another.
    Calls {
        /// Each of them.
        action: Action,
        /// How many.
        count: u64,
    },
    /// A call that gives this pass data.
    Gives(ArrayVec<u8, 68>),
}

/// What a line asks for, where a dialect has such a line.
pub fn read_line(alloc: Global, dialect: Dialect, text: &[u8]) -> Result<Option<Line>, OutOfMemory>
    ensures { IfOk result (λ line. line ≡ line_in dialect text.now) }
{
    let Some(line) = any_line(alloc, text)? else {
        return Ok(None);
    };
    Ok(if dialect.has(&line) { Some(line) } else { None })
}

// What a line asks for in any dialect.
#[tactic(auto, unfolding(crate::specs::Lines::line_of))]
fn any_line(alloc: Global, text: &[u8]) -> Result<Option<Line>, OutOfMemory>
    ensures { IfOk result (λ line. line ≡ line_of text.now) }
{
    match text {
        [] | [b'#', ..] => Ok(Some(Line::Blank)),
        _ => line_of_words(alloc, text),
    }
}

/// What can stand once in a script: the word of a line, and all of a `print` line.
pub fn key(text: &[u8]) -> &[u8]
    ensures { result.now ≡ key_of text.now }
{
    let word = first_word(text);
    if is(word, "print") { text } else { word }
}

// The word that a line begins with: what stands before its first space.
fn first_word(text: &[u8]) -> &[u8]
    ensures { result.now ≡ word_of text.now }
{
    let (word, _) = cut(text, b' ');
    word
}

fn line_of_words(alloc: Global, text: &[u8]) -> Result<Option<Line>, OutOfMemory>
    ensures { IfOk result (λ line. line ≡ line_of_words (parts 32 text.now)) }
{
    let (word, rest) = cut(text, b' ');
    let Some(rest) = rest else {
        return Ok(line_of_none(word));
    };
    let (first, rest) = cut(rest, b' ');
    let Some(rest) = rest else {
        return line_of_one(alloc, word, first);
    };
    let (second, rest) = cut(rest, b' ');
    match rest {
        None => Ok(line_of_two(word, first, second)),
        Some(_) => Ok(None),
    }
}

// What a word alone asks for.
fn line_of_none(word: &[u8]) -> Option<Line>
    ensures { result ≡ line_of_none word.now }
{
    match Setting::of_none(word) {
        Some(setting) => Some(Line::Set(setting)),
        None => calls_of_none(word),
    }
}

// What a word and what stands behind it ask for.
fn line_of_one(alloc: Global, word: &[u8], text: &[u8]) -> Result<Option<Line>, OutOfMemory>
    ensures { IfOk result (λ line. line ≡ line_of_one word.now text.now) }
{
    if is(word, "summary") {
        return match summary_bytes(alloc, text)? {
            Some(bytes) => Ok(Some(Line::Summary(bytes))),
            None => Ok(None),
        };
    }
    if is(word, "pass") {
        return match pass_bytes(alloc, text)? {
            Some(bytes) => Ok(Some(Line::Gives(bytes))),
            None => Ok(None),
        };
    }
    if is(word, "print") {
        return match Print::of_text(text) {
            Some(print) => Ok(Some(Line::Prints(print))),
            None => Ok(None),
        };
    }
    if let Some(setting) = Setting::of_one(word, text) {
        return Ok(Some(Line::Set(setting)));
    }
    match Answer::of_one(word, text) {
        Some(answer) => Ok(Some(Line::Answers(answer))),
        None => Ok(calls_of_one(word, text)),
    }
}

// What a word and what stands behind it in two words ask for.
fn line_of_two(word: &[u8], first: &[u8], second: &[u8]) -> Option<Line>
    ensures { result ≡ line_of_two word.now first.now second.now }
{
    if is(word, "scale") {
        return Some(Line::Answers(Answer::of_scale(first, second)?));
    }
    line_of_numbers(word, number(first)?, number(second)?)
}

// What a word and two numbers ask for.
fn line_of_numbers(word: &[u8], first: u64, second: u64) -> Option<Line>
    ensures { result ≡ line_of_numbers word.now first second }
{
    if let Some(setting) = Setting::of_two(word, first, second) {
        return Some(Line::Set(setting));
    }
    match Answer::of_two(word, first, second) {
        Some(answer) => Some(Line::Answers(answer)),
        None => calls_of_two(word, first, second),
    }
}

// The calls of a word alone.
fn calls_of_none(word: &[u8]) -> Option<Line>
    ensures { result ≡ calls_of_none word.now }
{
    if is(word, "send") {
        return some_calls(Action::Send, 1);
    }
    if is(word, "sendkey") {
        return some_calls(Action::SendKey, 1);
    }
    if is(word, "flush") {
        return some_calls(Action::Flush, 1);
    }
    if is(word, "receive") {
        return some_calls(Action::Receive, 1);
    }
    None
}

// The calls of a word and a number.
fn calls_of_one(word: &[u8], text: &[u8]) -> Option<Line>
    ensures { result ≡ calls_of_one word.now text.now }
{
    if is(word, "send") {
        return some_calls(Action::Send, number(text)?);
    }
    if is(word, "sendopaque") {
        return some_calls(Action::SendOpaque(number(text)?), 1);
    }
    if is(word, "receive") {
        return some_calls(Action::Receive, number(text)?);
    }
    None
}

// The calls of a word and two numbers.
fn calls_of_two(word: &[u8], first: u64, second: u64) -> Option<Line>
    ensures { result ≡ calls_of_two word.now first second }
{
    if !is(word, "sendsize") || !is_side(first) || !is_side(second) {
        return None;
    }
    let (width, height) = (first as u8, second as u8);
    some_calls(Action::SendSize { width, height }, 1)
}

// Whether this is a side of a frame of another size.
fn is_side(n: u64) -> bool
    ensures { result ≡ is_side n }
{
    1 <= n && n <= MOST_SIDE
}

fn some_calls(action: Action, count: u64) -> Option<Line>
    ensures { result ≡ some_calls action count }
{
    if count == 0 {
        return None;
    }
    Some(Line::Calls { action, count })
}
