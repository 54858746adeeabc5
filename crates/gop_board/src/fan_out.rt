// The workers of a run: the numbers of its jobs are put into a queue, and each worker takes some.
ghost use Rattle.std.specs.Prelude.{◌≡◌, ◌≤◌, ◌<◌, ℕ, None, All, IfOk, length, true};
ghost use Rattle.av1_settings.specs.Checks.{session_refusal};
ghost use Rattle.gop_board.specs.Handing.{first_part};
ghost use Rattle.gop_board.specs.Workers.{AreFitting, CanWork, EachIs, EachJob, IsResultOf};

use crate::{Board, Deposits, Gate, Job, JobPass, JobQueue, JobResult, MakeSession, Run, work};
use av1_frame::Pixel;
use av1_settings::{Config, LevelTables};
use coding_base::OutOfMemory;
use session_core::QTables;
use std::alloc::Global;
use std::sync::{Mutex, Wait};
use std::thread;
use std::thread::Threads;

// A board of which nothing was collected, so that this is known of it behind a lock.
#[derive(Drop)]
pub(crate) struct Uncollected<T, C, N: Run<T, C>> {
    pub board: Board<T, C, N>,
    ghost none: { board.collected ≡ 0 },
}

impl<T: Drop, C: Drop, N: Run<T, C>> Uncollected<T, C, N> {
    pub(crate) fn new(board: Board<T, C, N>) -> Uncollected<T, C, N>
        requires { board.collected ≡ 0 }
    {
        Uncollected { board }
    }

    fn deposit_absent(&mut self, job: u64, found: JobResult<T, C>)
        requires below { job < N.jobs }
        requires belongs { N.belongs job found }
    {
        self.board.deposit_absent(job, found);
    }
}

// A worker's way to a board that workers share: each deposit is one turn under its lock.
struct Locked<'a, H, T, C, N: Run<T, C>> {
    rt: &'a H,
    lock: &'a Mutex<Uncollected<T, C, N>>,
}

impl<H: Wait, T: Drop, C: Drop, N: Run<T, C>> Deposits<T, C, N> for Locked<'_, H, T, C, N> {
    ghost use Rattle.std.specs.Prelude.{None};

    ghost told = { λ _. None };

    fn deposit_absent(&mut self, job: u64, found: JobResult<T, C>)
        requires below { job < N.jobs }
        requires belongs { N.belongs job found }
    {
        self.lock.lock(self.rt).deposit_absent(job, found);
    }
}

impl<H, T, C, N: Run<T, C>> Drop for Locked<'_, H, T, C, N> {
    fn drop(self) {
        let Locked { rt: _, lock: _ } = self;
    }
}

// What the workers of a run share: how jobs are coded, the queue of their numbers, and the board for their results.
struct Crew<'a, N: Run<T, M::Coder>, H, T: Pixel, M: MakeSession<T>, G> {
    rt: &'a H,
    alloc: Global,
    cfg: &'a Config,
    levels: &'a LevelTables,
    tables: &'a QTables,
    jobs: &'a [Job<T>],
    maker: &'a M,
    gate: &'a G,
    queue: &'a JobQueue,
    results: &'a Mutex<Uncollected<T, M::Coder, N>>,
}

impl<N: Run<T, M::Coder>, H, T: Pixel, M: MakeSession<T>, G> Drop for Crew<'_, N, H, T, M, G> {
    fn drop(self) {
        let Crew {
            rt: _,
            alloc: _,
            cfg: _,
            levels: _,
            tables: _,
            jobs: _,
            maker: _,
            gate: _,
            queue: _,
            results: _,
        } = self;
    }
}

// Runs jobs on workers, at least one and at most as many as there are jobs, and waits for them.
pub(crate) fn run_workers<
    N: Run<T, M::Coder> + Send + Sync,
    H: Threads + Wait + Sync,
    T: Pixel,
    M: MakeSession<T> + Sync,
    G: Gate + Sync,
>(
    rt: &H,
    alloc: Global,
    cfg: &Config,
    levels: &LevelTables,
    tables: &QTables,
    jobs: &[Job<T>],
    maker: &M,
    workers: usize,
    gate: &G,
    results: &Mutex<Uncollected<T, M::Coder, N>>,
) -> Result<(), OutOfMemory>
where
    M::Scales: Send,
    M::Coder: Send,
    requires valid { session_refusal T.BITS levels.now cfg.now ≡ None }
    requires frames { EachJob (λ place job. AreFitting cfg.now.enc job.frames) jobs.now }
    requires numbers { EachJob (λ place job. job.number ≡ place) jobs.now }
    requires run { N.jobs ≡ length jobs.now }
    requires belongs { EachIs
        (IsResultOf cfg.now.enc tables.now (M.told maker.now) M.Coder.told jobs.now) N.belongs }
{
    if jobs.is_empty() {
        return Ok(());
    }
    let (queue, mut pass) = JobQueue::new(alloc, jobs.len() as u64)?;
    push_all(rt, &queue, &mut pass, jobs.len() as u64);
    let passes = split_passes(alloc, &queue, &mut pass, workers.clamp(1, jobs.len()))?;
    let crew = Crew {
        rt,
        alloc,
        cfg,
        levels,
        tables,
        jobs,
        maker,
        gate,
        queue: &queue,
        results,
    };
    run_crew(&crew, passes)
}

// A worker for each of these passes; it waits for all of them.
fn run_crew<
    N: Run<T, M::Coder> + Send + Sync,
    H: Threads + Wait + Sync,
    T: Pixel,
    M: MakeSession<T> + Sync,
    G: Gate + Sync,
>(crew: &Crew<N, H, T, M, G>, passes: Vec<JobPass>) -> Result<(), OutOfMemory>
where
    M::Scales: Send,
    M::Coder: Send,
    requires passes { All (λ one. one.queue ≡ crew.now.queue.now) passes.items }
    requires works { CanWork (session_refusal T.BITS crew.now.levels.now crew.now.cfg.now)
        crew.now.cfg.now.enc crew.now.tables.now (M.told crew.now.maker.now) M.Coder.told
        crew.now.jobs.now crew.now.queue.now N.jobs N.belongs }
{
    thread::map_vec(
        crew.rt,
        passes,
        &|mine: JobPass|
            requires { (mine.queue ≡ crew.now.queue.now)
                × CanWork (session_refusal T.BITS crew.now.levels.now crew.now.cfg.now)
                crew.now.cfg.now.enc crew.now.tables.now (M.told crew.now.maker.now) M.Coder.told
                crew.now.jobs.now crew.now.queue.now N.jobs N.belongs }
        {
            run_worker(crew, mine);
        },
    )?;
    Ok(())
}

// One worker, whose results go to a board under a lock.
fn run_worker<N: Run<T, M::Coder>, H: Wait, T: Pixel, M: MakeSession<T>, G: Gate>(
    crew: &Crew<N, H, T, M, G>,
    pass: JobPass,
)
    requires pass { pass.queue ≡ crew.now.queue.now }
    requires works { CanWork (session_refusal T.BITS crew.now.levels.now crew.now.cfg.now)
        crew.now.cfg.now.enc crew.now.tables.now (M.told crew.now.maker.now) M.Coder.told
        crew.now.jobs.now crew.now.queue.now N.jobs N.belongs }
{
    let mut pass = pass;
    let mut board = Locked {
        rt: crew.rt,
        lock: crew.results,
    };
    work::<H, T, M, G, N, Locked<H, T, M::Coder, N>>(
        crew.rt,
        crew.alloc,
        crew.cfg,
        crew.levels,
        crew.tables,
        crew.jobs,
        crew.maker,
        crew.gate,
        crew.queue,
        &mut pass,
        &mut board,
    );
}

// Puts the numbers of so many jobs.
fn push_all<H: Wait>(rt: &H, queue: &JobQueue, pass: &mut JobPass, jobs: u64)
    requires belongs { pass.old.queue ≡ queue.now }
    requires first { pass.old.part ≡ first_part jobs }
    requires jobs { queue.now.jobs ≡ jobs }
    ensures { pass.new.queue ≡ queue.now }
{
    for _ in 0..jobs {
        let _ = queue.push(rt, pass);
    }
}

// Splits so many passes off.
fn split_passes(
    alloc: Global,
    queue: &JobQueue,
    pass: &mut JobPass,
    count: usize,
) -> Result<Vec<JobPass>, OutOfMemory>
    requires { pass.old.queue ≡ queue.now }
    ensures { IfOk result (λ passes. All (λ one. one.queue ≡ queue.now) passes.items) }
{
    let mut passes = Vec::new(alloc);
    for _ in 0..count {
        passes.push(queue.another(pass))?;
    }
    Ok(passes)
}
