// Jobs coded side by side.
ghost use Rattle.std.specs.Prelude.{◌≡◌, ◌≤◌, ◌<◌, ◌+◌, None, IfOk, false, length};
ghost use Rattle.av1_settings.specs.Checks.{session_refusal};
ghost use Rattle.gop_board.specs.Deposited.{SessionsBelong};
ghost use Rattle.gop_board.specs.Gathering.{IsGathered};
ghost use Rattle.gop_board.specs.Rows.{is_absent};
ghost use Rattle.gop_board.specs.Workers.{AreFitting, EachIs, EachJob, IsResultOf};

use crate::fan_out::{Uncollected, run_workers};
use crate::{Board, Gate, Gathered, Job, JobResult, MakeSession, Run, run_job};
use av1_frame::Pixel;
use av1_settings::{Config, LevelTables};
use coding_base::OutOfMemory;
use session_core::QTables;
use std::alloc::Global;
use std::marker::Brand;
use std::sync::{Mutex, Wait};
use std::thread::Threads;

impl<T, C> Run<T, C> for Brand {
    ghost use Rattle.std.specs.Prelude.{⊤};

    ghost jobs = { 0 };

    ghost belongs = { λ job found. ⊤ };
}

/// Codes jobs on as many workers as are asked for, 0 being 1, as `encode_gops` does, and gathers what they gave in their order:
/// the packets up to the first job whose coder failed, numbered anew from 0, and that fault. Each job has the number of its
/// place. The error comes where a job ran out of memory too.
pub fn code_jobs<H: Threads + Wait + Sync, T: Pixel, M: MakeSession<T> + Sync, G: Gate + Sync>(
    rt: &H,
    alloc: Global,
    cfg: &Config,
    levels: &LevelTables,
    tables: &QTables,
    jobs: &[Job<T>],
    maker: &M,
    workers: usize,
    gate: &G,
) -> Result<Gathered<T, M::Coder>, OutOfMemory>
where
    M::Scales: Send,
    M::Coder: Send,
    requires valid { session_refusal T.BITS levels.now cfg.now ≡ None }
    requires frames { EachJob (λ place job. AreFitting cfg.now.enc job.frames) jobs.now }
    requires numbers { EachJob (λ place job. job.number ≡ place) jobs.now }
    ensures { IfOk result (IsGathered cfg.now.enc tables.now (M.told maker.now)
        M.Coder.told jobs.now) }
{
    gather_jobs::<Brand, H, T, M, G>(rt, alloc, cfg, levels, tables, jobs, maker, workers, gate)
}

// Codes jobs on workers, and gathers their results in order.
pub(crate) fn gather_jobs<
    N: Run<T, M::Coder> + Send + Sync,
    H: Threads + Wait + Sync,
    T: Pixel,
    M: MakeSession<T> + Sync,
    G: Gate + Sync,
>(
    rt: &H,
    alloc: Global,
    cfg: &Config,
    levels: &LevelTables,
    tables: &QTables,
    jobs: &[Job<T>],
    maker: &M,
    workers: usize,
    gate: &G,
) -> Result<Gathered<T, M::Coder>, OutOfMemory>
where
    M::Scales: Send,
    M::Coder: Send,
    requires valid { session_refusal T.BITS levels.now cfg.now ≡ None }
    requires frames { EachJob (λ place job. AreFitting cfg.now.enc job.frames) jobs.now }
    requires numbers { EachJob (λ place job. job.number ≡ place) jobs.now }
    requires run { N.jobs ≡ length jobs.now }
    requires belongs { EachIs
        (IsResultOf cfg.now.enc tables.now (M.told maker.now) M.Coder.told jobs.now) N.belongs }
    requires belonging { EachIs N.belongs
        (IsResultOf cfg.now.enc tables.now (M.told maker.now) M.Coder.told jobs.now) }
    ensures { IfOk result (IsGathered cfg.now.enc tables.now (M.told maker.now)
        M.Coder.told jobs.now) }
{
    let board = Board::<T, M::Coder, N>::new(alloc, jobs.len() as u64)?;
    let results = Mutex::new(Uncollected::new(board));
    run_workers(
        rt, alloc, cfg, levels, tables, jobs, maker, workers, gate, &results,
    )?;
    let Uncollected { board } = results.into_inner();
    gather::<N, T, M>(alloc, cfg, levels, tables, jobs, maker, board)
}

// Gathers the results in the order of the jobs, the packets up to the first fault.
fn gather<N: Run<T, M::Coder>, T: Pixel, M: MakeSession<T>>(
    alloc: Global,
    cfg: &Config,
    levels: &LevelTables,
    tables: &QTables,
    jobs: &[Job<T>],
    maker: &M,
    board: Board<T, M::Coder, N>,
) -> Result<Gathered<T, M::Coder>, OutOfMemory>
    requires valid { session_refusal T.BITS levels.now cfg.now ≡ None }
    requires frames { EachJob (λ place job. AreFitting cfg.now.enc job.frames) jobs.now }
    requires numbers { EachJob (λ place job. job.number ≡ place) jobs.now }
    requires run { N.jobs ≡ length jobs.now }
    requires belongs { EachIs
        (IsResultOf cfg.now.enc tables.now (M.told maker.now) M.Coder.told jobs.now) N.belongs }
    requires belonging { EachIs N.belongs
        (IsResultOf cfg.now.enc tables.now (M.told maker.now) M.Coder.told jobs.now) }
    requires uncollected { board.collected ≡ 0 }
    ensures { IfOk result (IsGathered cfg.now.enc tables.now (M.told maker.now)
        M.Coder.told jobs.now) }
{
    let mut board = board;
    let mut gathered = Gathered::new(alloc);
    for number in 0..jobs.len() {
        let job = &jobs[number];
        let found = take_result::<N, T, M>(alloc, cfg, levels, tables, job, maker, &mut board);
        gathered.add(number as u64, found)?;
    }
    Ok(gathered)
}

// Collects the result of the job that comes next.
fn take_result<N: Run<T, M::Coder>, T: Pixel, M: MakeSession<T>>(
    alloc: Global,
    cfg: &Config,
    levels: &LevelTables,
    tables: &QTables,
    job: &Job<T>,
    maker: &M,
    board: &mut Board<T, M::Coder, N>,
) -> JobResult<T, M::Coder>
    requires valid { session_refusal T.BITS levels.now cfg.now ≡ None }
    requires frames { AreFitting cfg.now.enc job.now.frames }
    requires below { job.now.number < N.jobs }
    requires belongs { SessionsBelong cfg.now.enc tables.now (M.told maker.now) M.Coder.told
        N.belongs job.now }
    requires next { board.old.collected ≡ job.now.number }
    ensures belongs { N.belongs job.now.number result }
    ensures next { board.new.collected ≡ job.now.number + 1 }
{
    fill::<N, T, M>(alloc, cfg, levels, tables, job, maker, board);
    match board.collect_next() {
        Some(found) => found,
        None => unreachable!(),
    }
}

// Runs a job whose result isn't there.
fn fill<N: Run<T, M::Coder>, T: Pixel, M: MakeSession<T>>(
    alloc: Global,
    cfg: &Config,
    levels: &LevelTables,
    tables: &QTables,
    job: &Job<T>,
    maker: &M,
    board: &mut Board<T, M::Coder, N>,
)
    requires valid { session_refusal T.BITS levels.now cfg.now ≡ None }
    requires frames { AreFitting cfg.now.enc job.now.frames }
    requires below { job.now.number < N.jobs }
    requires belongs { SessionsBelong cfg.now.enc tables.now (M.told maker.now) M.Coder.told
        N.belongs job.now }
    ensures there { is_absent board.new job.now.number ≡ false }
    ensures collected { board.new.collected ≡ board.old.collected }
{
    if board.is_absent(job.number) {
        let found = run_job(alloc, cfg, levels, tables, job, maker);
        board.deposit(job.number, found);
    }
}
