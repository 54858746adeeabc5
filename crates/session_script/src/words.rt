ghost use Rattle.std.specs.Prelude.{◌≡◌, ◌↔◌, IfSome, IsTrue, codes, false};
ghost use Rattle.session_script.specs.Words.{AreOne, BeginWith, dialect_of, has_jobs, number_within, seed_of, task_of, task_of_word, workers_asked, workers_of};

use script_lines::{Dialect, number_up_to};
use std::rt::Env;
use std::{env, io};

/// What the program is to do.
#[derive(Clone, Copy, Debug, PartialEq, Eq)]
pub enum Task {
    /// Carry out the script that the source holds, in one pass.
    Run,
    /// Carry it out as a first pass, which hands on pass data.
    FirstPass,
    /// Carry it out as a second pass, which the script gives pass data.
    SecondPass,
    /// Carry out the script that a seed makes.
    Generate(u64),
    /// Code the frames of the script that the source holds as jobs side by side, on so many workers.
    Gops(u64),
}

// The seeds of generated scripts.
const LEAST_SEED: u64 = 1;

const MOST_SEED: u64 = 10_000;

// The numbers of workers.
const LEAST_WORKERS: u64 = 1;

const MOST_WORKERS: u64 = 16;

/// The words of the command line after the program's name.
pub fn command_words<R: Env + AllocGlobal>(rt: &R) -> io::Result<Vec<String>> {
    let mut words = Vec::new(rt.alloc());
    for word in env::args(rt)?.skip(1) {
        words.push(word)?;
    }
    Ok(words)
}

/// Whether the words are this one word.
pub fn are_one(words: &[String], word: &str) -> bool
    ensures { IsTrue result ↔ AreOne word.now words.now }
{
    words.len() == 1 && words[0].as_str() == word
}

/// Whether the words are those of jobs side by side, as the first of them says.
pub fn ask_for_gops(words: &[String]) -> bool
    ensures { IsTrue result ↔ BeginWith (codes "gops") words.now }
{
    match words {
        [word, ..] => word.as_str() == "gops",
        [] => false,
    }
}

impl Task {
    /// Which lines the task's scripts may have.
    pub fn dialect(self) -> Dialect
        ensures { result ≡ dialect_of self }
    {
        match self {
            Task::SecondPass => Dialect::SecondPass,
            Task::Gops(_) => Dialect::Gops,
            Task::Run | Task::FirstPass | Task::Generate(_) => Dialect::Run,
        }
    }
}

/// The task that the words ask for: `run`, `pass1`, `pass2`, or `gen` and a seed. It is done without waiting.
pub fn task_of(words: &[String]) -> Option<Task>
    ensures task { result ≡ task_of words.now }
    ensures alone { IfSome result (λ task. has_jobs task ≡ false) }
{
    match words {
        [word] => task_of_word(word),
        [word, seed] if word.as_str() == "gen" => Some(Task::Generate(seed_of(seed)?)),
        _ => None,
    }
}

// The task that one word asks for.
fn task_of_word(word: &str) -> Option<Task>
    ensures task { result ≡ task_of_word word.now }
    ensures alone { IfSome result (λ task. has_jobs task ≡ false) }
{
    match word {
        "run" => Some(Task::Run),
        "pass1" => Some(Task::FirstPass),
        "pass2" => Some(Task::SecondPass),
        _ => None,
    }
}

/// How many workers the words ask for, where they are `gops` and a number of workers.
pub fn workers_asked(words: &[String]) -> Option<u64>
    ensures { result ≡ workers_asked words.now }
{
    match words {
        [word, count] if word.as_str() == "gops" => workers_of(count),
        _ => None,
    }
}

// The seed that a text writes, if it is one.
fn seed_of(text: &str) -> Option<u64>
    ensures { result ≡ seed_of text.now }
{
    number_within(text, LEAST_SEED, MOST_SEED)
}

// The number of workers that a text writes, if it is one.
fn workers_of(text: &str) -> Option<u64>
    ensures { result ≡ workers_of text.now }
{
    number_within(text, LEAST_WORKERS, MOST_WORKERS)
}

// The number that a text of 1 to 20 digits writes, if it lies within these bounds.
fn number_within(text: &str, least: u64, most: u64) -> Option<u64>
    ensures { result ≡ number_within least most text.now }
{
    let number = number_up_to(text.as_bytes(), most)?;
    if least <= number { Some(number) } else { None }
}
