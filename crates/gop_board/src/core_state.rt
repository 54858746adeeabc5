//! The core: which job is where, and the steps that move one.

ghost use Rattle.std.specs.Prelude.{◌≡◌, not, nat_lt, ◌==◌, if◌then◌else◌, is_some, filter, find, None, Some, IfOk, IsTrue, OnErr, OnOk};
ghost use Rattle.std.specs.List.{slice_get};
ghost use Rattle.gop_board.specs.Core.{after_step, held_by, is_enabled, moved, opening, with_moved};
ghost use Rattle.gop_board.specs.CoreRuns.{IsOnTheWay, after_steps, answers};
ghost use Rattle.gop_board.specs.Places.{EachAtOnePlace};

use coding_base::OutOfMemory;
use std::alloc::Global;
use std::collections::VecDeque;
use std::marker::Model;

/// What may happen next in a run whose jobs are coded side by side.
#[derive(Clone, Copy, Debug, PartialEq, Eq)]
pub enum CoreStep {
    /// The next job is put at the end of the queue.
    Submit,
    /// A worker that holds no job takes the front of the queue.
    Take {
        /// The worker's number. Any number is a worker.
        worker: u64,
    },
    /// A worker deposits the job that it holds.
    Deposit {
        /// The worker's number.
        worker: u64,
    },
    /// The next job in order is collected.
    Collect,
}

/// A worker, and the job that it holds.
#[derive(Clone, Copy, Debug, PartialEq, Eq)]
pub(crate) struct Holding {
    pub(crate) worker: u64,
    pub(crate) job: u64,
}

/// Which job is where. Jobs are numbers from 0 on. Contracts see the number of jobs, how many were submitted, the queue, who
/// holds which job, the jobs that are deposited and not collected, and how many were collected.
#[derive(Debug, Drop)]
pub struct CoreState {
    jobs: u64,
    submitted: u64,
    queued: VecDeque<u64>,
    held: Vec<Holding>,
    deposited: Vec<u64>,
    collected: u64,
}

impl Model for CoreState {
    ghost use Rattle.gop_board.specs.Core.{Core};
    ghost use Rattle.gop_board.specs.Places.{EachAtOnePlace};

    ghost Value = { Core };

    ghost use Rattle.gop_board.specs.CoreFields.{core_of};

    ghost view = { core_of };

    ghost invariant = { λ fields. EachAtOnePlace (core_of fields) };
}

impl CoreState {
    /// The opening: no job is submitted. No memory is taken.
    pub fn new(alloc: Global, jobs: u64) -> CoreState
        ensures state { result ≡ opening jobs }
        ensures places { EachAtOnePlace result }
    {
        CoreState {
            jobs,
            submitted: 0,
            queued: VecDeque::new(alloc),
            held: Vec::new(alloc),
            deposited: Vec::new(alloc),
            collected: 0,
        }
    }

    // The job that a step moves; None where the step isn't enabled.
    fn moved(&self, step: CoreStep) -> Option<u64>
        ensures job { result ≡ moved self.now step }
        ensures places { EachAtOnePlace self.now }
    {
        match step {
            CoreStep::Submit => next_job(self.submitted, self.jobs),
            CoreStep::Take { worker } => taken(worker, &self.held, &self.queued),
            CoreStep::Deposit { worker } => held_by(worker, &self.held),
            CoreStep::Collect => due(self.collected, &self.deposited),
        }
    }

    // Moves the job. Where memory runs out all stays as it was.
    fn move_job(&mut self, step: CoreStep, job: u64) -> Result<(), OutOfMemory>
        requires { moved self.old step ≡ Some job }
        ensures ok { OnOk result (self.new ≡ with_moved self.old step job) }
        ensures err { OnErr result (self.new ≡ self.old) }
    {
        match step {
            CoreStep::Submit => {
                self.queued.push_back(job)?;
                self.submitted += 1;
            }
            CoreStep::Take { worker } => {
                self.held.push(Holding { worker, job })?;
                let _ = self.queued.pop_front();
            }
            CoreStep::Deposit { worker } => {
                self.deposited.push(job)?;
                let_go(worker, &mut self.held);
            }
            CoreStep::Collect => {
                take_out(job, &mut self.deposited);
                self.collected += 1;
            }
        }
        Ok(())
    }
}

// The next job to be submitted.
fn next_job(submitted: u64, jobs: u64) -> Option<u64>
    ensures { result ≡ (if nat_lt submitted jobs then Some submitted else None) }
{
    (submitted < jobs).then_some(submitted)
}

// The job that a worker takes, if it holds none and there is one.
fn taken(worker: u64, held: &[Holding], queued: &VecDeque<u64>) -> Option<u64>
    ensures { result
        ≡ (if is_some (held_by worker held.now) then None
        else slice_get queued.now.items 0) }
{
    if held_by(worker, held).is_some() {
        None
    } else {
        queued.front().copied()
    }
}

// The job that a worker holds.
fn held_by(worker: u64, held: &[Holding]) -> Option<u64>
    ensures { result ≡ held_by worker held.now }
{
    held.iter()
        .find(|holding| holding.worker == worker)
        .map(|holding| holding.job)
}

// The job that is to be collected next, if it is deposited.
fn due(collected: u64, deposited: &[u64]) -> Option<u64>
    ensures { result ≡ find (λ job. job == collected) deposited.now }
{
    deposited.iter().copied().find(|job| *job == collected)
}

// A worker lets go of what it holds.
fn let_go(worker: u64, held: &mut Vec<Holding>)
    ensures { held.new.items ≡ filter (λ holding. not (holding.worker == worker)) held.old.items }
{
    held.retain(|holding| holding.worker != worker);
}

// A deposited job is taken out.
fn take_out(job: u64, deposited: &mut Vec<u64>)
    ensures { deposited.new.items
        ≡ filter (λ deposited. not (deposited == job)) deposited.old.items }
{
    deposited.retain(|deposited| *deposited != job);
}

/// Tries a step. True exactly where it is enabled: `Submit` while jobs remain, `Take` where the worker holds nothing and the
/// queue isn't empty, `Deposit` where the worker holds a job, `Collect` where the job numbered as many as were collected is
/// deposited. False changes nothing, nor does want of memory.
pub fn core_step(_alloc: Global, state: &mut CoreState, step: CoreStep) -> Result<bool, OutOfMemory>
    ensures enabled { IfOk result (λ answer. answer ≡ is_enabled state.old step) }
    ensures after { OnOk result (state.new ≡ after_step state.old step) }
    ensures kept { OnErr result (state.new ≡ state.old) }
    ensures asked { OnErr result (IsTrue (is_enabled state.old step)) }

    // Each submitted job stands at exactly one place.
    ensures places { EachAtOnePlace state.new }
{
    match state.moved(step) {
        Some(job) => {
            state.move_job(step, job)?;
            Ok(true)
        }
        None => Ok(false),
    }
}

/// Tries steps one after the other, and gives their answers in order. Where memory runs out the state is that after some of
/// the steps, from the first on.
pub fn core_run(
    alloc: Global,
    state: &mut CoreState,
    steps: &[CoreStep],
) -> Result<Vec<bool>, OutOfMemory>
    ensures enabled { IfOk result (λ found. found.items ≡ answers state.old steps.now) }
    ensures after { OnOk result (state.new ≡ after_steps state.old steps.now) }
    ensures cut { OnErr result (IsOnTheWay state.old steps.now state.new) }

    // Each submitted job still stands at exactly one place.
    ensures places { EachAtOnePlace state.old → EachAtOnePlace state.new }
{
    let mut found = Vec::new(alloc);
    for step in steps {
        let enabled = core_step(alloc, state, *step)?;
        found.push(enabled)?;
    }
    Ok(found)
}
