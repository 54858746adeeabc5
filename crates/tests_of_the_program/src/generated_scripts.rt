//! Scripts that a number makes.

use crate::script_texts::{read, told_calls, told_settings};
use generated_script::{FRAMES, RECEIVES, generated_script};
use script_lines::{Dialect, Script};
use std::alloc::Global;
use std::test::Fail;

/// What is told of a script.
#[derive(Clone, Copy)]
enum Part {
    /// The settings, and what is answered for the first six frames.
    Head,
    /// The same of the script that these lines are read as.
    Read,
    /// The first three cuts and byte counts, how many cuts and calls there are, and the last byte count.
    Numbers,
    /// The calls.
    Calls,
}

fn told_head(alloc: Global, script: &Script) -> Result<String, Fail> {
    let mut text = told_settings(alloc, script.settings.as_slice())?;
    for cut in script.cuts.as_slice().iter().filter(|cut| **cut < 6) {
        write!(text, "cut {cut}\n")?;
    }
    for (frame, count) in script.byte_counts.as_slice().iter().take(6) {
        write!(text, "bytes {frame} {count}\n")?;
    }
    Ok(text)
}

fn told_numbers(alloc: Global, script: &Script) -> Result<String, Fail> {
    let mut text = String::new(alloc);
    for cut in script.cuts.as_slice().iter().take(3) {
        write!(text, "cut {cut} ")?;
    }
    write!(text, "of {} ", script.cuts.len())?;
    for (frame, count) in script.byte_counts.as_slice().iter().take(3) {
        write!(text, "bytes {frame} {count} ")?;
    }
    if let Some((frame, count)) = script.byte_counts.as_slice().last() {
        write!(text, "to {frame} {count} ")?;
    }
    write!(text, "calls {}", script.calls.len())?;
    Ok(text)
}

fn told(alloc: Global, seed: u64, part: Part) -> Result<String, Fail> {
    let script = generated_script(alloc, seed)?;
    match part {
        Part::Head => told_head(alloc, &script),
        Part::Read => {
            let lines = told_head(alloc, &script)?;
            let read = read(alloc, Dialect::Run, lines.as_str().as_bytes())?;
            told_head(alloc, &read)
        }
        Part::Numbers => told_numbers(alloc, &script),
        Part::Calls => told_calls(alloc, script.calls.as_slice()),
    }
}

// The head of the script of 197. Computed apart.
const HEAD: &str =
    "size 64 64\nkeyint 12 60\nrdo 10\nbitrate 60000\ncut 2\ncut 4\nbytes 0 44\nbytes 1 145\n\
    bytes 2 160\nbytes 3 77\nbytes 4 203\nbytes 5 80\n";

// A seed, and what is told of a part of its script. Computed apart.
const SEEDS: [(u64, Part, &str); 6] = [
    (197, Part::Head, HEAD),
    (197, Part::Read, HEAD),
    (
        7,
        Part::Numbers,
        "cut 10 cut 16 cut 112 of 48 bytes 0 96 bytes 1 81 bytes 2 175 to 1999 192 calls 5001",
    ),
    // The first number of 11 is a multiple of 50, but frame 0 is no cut.
    (
        11,
        Part::Numbers,
        "cut 36 cut 122 cut 268 of 44 bytes 0 135 bytes 1 56 bytes 2 194 to 1999 116 calls 5001",
    ),
    (
        10_000,
        Part::Numbers,
        "cut 21 cut 173 cut 175 of 38 bytes 0 28 bytes 1 156 bytes 2 156 to 1999 218 calls 5001",
    ),
    (
        u64::MAX,
        Part::Numbers,
        "cut 8 cut 26 cut 118 of 36 bytes 0 219 bytes 1 132 bytes 2 136 to 1999 144 calls 5001",
    ),
];

#[test]
fn numbers_follow_on_the_seed(rt: HostRuntime) -> Result<(), Fail> {
    for (seed, part, wanted) in SEEDS {
        let told = told(rt.alloc(), seed, part)?;
        assert_eq!(rt; told.as_str(), wanted, "{seed}");
    }
    Ok(())
}

#[test]
fn all_is_sent_before_all_is_received(rt: HostRuntime) -> Result<(), Fail> {
    let mut wanted = String::new(rt.alloc());
    for (line, count) in [("send\n", FRAMES), ("flush\n", 1), ("receive\n", RECEIVES)] {
        for _ in 0..count {
            wanted.push_str(line)?;
        }
    }
    let told = told(rt.alloc(), 197, Part::Calls)?;
    assert_eq!(rt; told.as_str(), wanted.as_str());
    Ok(())
}
