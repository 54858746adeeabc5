// Results by job number, and their collection in order.
ghost use Rattle.std.specs.Prelude.{◌≡◌, ◌<◌, ◌≤◌, ℕ, false, None, Some, IfOk, IfSome, IsTrue, OnSome, Option, option_map};
ghost use Rattle.gop_board.specs.Rows.{Row, is_absent, new_row, next_result, with_absent_entry, with_entry, without_next};

use crate::JobResult;
use coding_base::OutOfMemory;
use std::alloc::Global;
use std::marker::{Model, PhantomData};

/// Names a run: how many jobs it has, and which results belong to which job. Nothing calls it; a board carries such a type
/// since a value that comes out of a lock is known by its type alone.
pub trait Run<T, C> {
    ghost use Rattle.std.specs.Prelude.{ℕ};
    ghost use Rattle.gop_board.specs.declared.job_result.JobResult.{JobResult};

    /// The number of jobs.
    ghost jobs: { ℕ };

    /// A result belongs to the job of this number.
    ghost belongs: { ℕ → JobResult T C → Type 0 };
}

/// A row of entries, one for each job of a run. Contracts see which results are there, and how many were collected; each result
/// that is there belongs to its job.
#[derive(Drop)]
pub struct Board<T, C, N: Run<T, C>> {
    entries: Vec<Option<JobResult<T, C>>>,
    collected: u64,
    of: PhantomData<N>,
}

impl<T, C, N: Run<T, C>> Model for Board<T, C, N> {
    ghost use Rattle.std.specs.Prelude.{◌≡◌, ◌≤◌, Some};
    ghost use Rattle.gop_board.specs.Rows.{IsRowOf, Row};

    ghost Value = { Row T C };

    ghost view = { λ b. record { entries = b.entries.items; collected = b.collected } };

    ghost invariant = { λ b. IsRowOf N.jobs N.belongs
        (record { entries = b.entries.items; collected = b.collected }) };
}

impl<T: Drop, C: Drop, N: Run<T, C>> Board<T, C, N> {
    /// A board on which no result is there yet, for as many jobs as the run has. Only this takes memory.
    pub fn new(alloc: Global, jobs: u64) -> Result<Board<T, C, N>, OutOfMemory>
        requires { jobs ≡ N.jobs }
        ensures { IfOk result (λ board. board ≡ new_row jobs) }
    {
        let mut entries = Vec::new(alloc);
        for _ in 0..jobs {
            entries.push(None)?;
        }
        Ok(Board {
            entries,
            collected: 0,
            of: PhantomData,
        })
    }

    /// Whether no result was deposited for this job so far. A job whose result was collected isn't absent.
    pub fn is_absent(&self, job: u64) -> bool
        requires { job < N.jobs }
        ensures { result ≡ is_absent self.now job }
    {
        job >= self.collected && self.entries[job as usize].is_none()
    }

    /// Sets the entry of this job, and no other.
    pub fn deposit(&mut self, job: u64, job_result: JobResult<T, C>)
        requires below { job < N.jobs }
        requires absent { IsTrue (is_absent self.old job) }
        requires belongs { N.belongs job job_result }
        ensures row { self.new ≡ with_entry self.old job job_result }
        ensures there { is_absent self.new job ≡ false }
    {
        self.entries[job as usize] = Some(job_result);
    }

    /// Takes the result of the next job in order. None comes exactly where it isn't there, or all are collected; then nothing
    /// changes.
    pub fn collect_next(&mut self) -> Option<JobResult<T, C>>
        ensures next { result ≡ next_result self.old }
        ensures row { self.new ≡ without_next self.old result }
        ensures belongs { IfSome result (N.belongs self.old.collected) }
        ensures within { OnSome result (self.old.collected < N.jobs) }
    {
        let next = self.collected as usize;
        if next >= self.entries.len() {
            return None;
        }
        let found = self.entries[next].take()?;
        self.collected += 1;
        Some(found)
    }
}

/// Where a worker leaves a result: a board, or an adapter over a lock with one.
pub trait Deposits<T, C, N: Run<T, C>> {
    /// The row of results, where it is told.
    ghost told: { Self → Option (Row T C) };

    /// Sets the entry of this job where it is absent; else the result is dropped. Nothing else changes.
    fn deposit_absent(&mut self, job: u64, job_result: JobResult<T, C>)
        requires below { job < N.jobs }
        requires belongs { N.belongs job job_result }
        ensures { told self.new
            ≡ option_map (λ row. with_absent_entry row job job_result) (told self.old) };
}

impl<T: Drop, C: Drop, N: Run<T, C>> Deposits<T, C, N> for Board<T, C, N> {
    ghost use Rattle.std.specs.Prelude.{Some};

    ghost told = { λ board. Some board };

    fn deposit_absent(&mut self, job: u64, job_result: JobResult<T, C>)
        requires below { job < N.jobs }
        requires belongs { N.belongs job job_result }
        ensures { self.new ≡ with_absent_entry self.old job job_result }
    {
        if self.is_absent(job) {
            self.deposit(job, job_result);
        }
    }
}
