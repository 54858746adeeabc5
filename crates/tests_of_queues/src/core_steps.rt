//! The core's steps, one by one and as a list.

use CoreStep::{Collect, Deposit, Submit, Take};
use coding_base::OutOfMemory;
use gop_board::{CoreState, CoreStep, core_run, core_step};
use std::alloc::Global;
use std::test::Fail;

/// Whether each step was enabled, by `+` and `-`.
fn signs(alloc: Global, answers: &[bool]) -> Result<String, OutOfMemory> {
    let mut text = String::new(alloc);
    for answer in answers {
        text.push_str(if *answer { "+" } else { "-" })?;
    }
    Ok(text)
}

/// The answers to steps of two jobs, as a list.
fn run(alloc: Global, steps: &[CoreStep]) -> Result<String, OutOfMemory> {
    let mut state = CoreState::new(alloc, 2);
    let found = core_run(alloc, &mut state, steps)?;
    signs(alloc, &found)
}

/// The answers to steps of two jobs, one by one.
fn run_singly(alloc: Global, steps: &[CoreStep]) -> Result<String, OutOfMemory> {
    let mut state = CoreState::new(alloc, 2);
    let mut found = Vec::new(alloc);
    for step in steps {
        found.push(core_step(alloc, &mut state, *step)?)?;
    }
    signs(alloc, &found)
}

const LAST: u64 = u64::MAX;

const ROWS: [(&[CoreStep], &str); 2] = [
    (
        &[
            Collect,
            Submit,
            Take { worker: 0 },
            Take { worker: 0 },
            Deposit { worker: 0 },
            Collect,
            Take { worker: 0 },
            Submit,
        ],
        "-++-++-+",
    ),
    (
        &[
            Submit,
            Submit,
            Submit,
            Take { worker: 7 },
            Take { worker: LAST },
            Deposit { worker: LAST },
            Collect,
            Deposit { worker: 7 },
            Collect,
            Deposit { worker: 7 },
            Collect,
            Collect,
        ],
        "++-+++-++-+-",
    ),
];

#[test]
fn steps_are_enabled_as_they_should(rt: HostRuntime) -> Result<(), Fail> {
    let alloc = rt.alloc();
    for (steps, wanted) in &ROWS {
        assert_eq!(rt; run(alloc, steps)?.as_str(), *wanted);
        assert_eq!(rt; run_singly(alloc, steps)?.as_str(), *wanted);
    }
    Ok(())
}
