// One worker's loop.
ghost use Rattle.std.specs.Prelude.{◌≡◌, ◌≤◌, ◌<◌, ◌++◌, ℕ, None, All, IsTrue, length};
ghost use Rattle.coding_base.specs.Faults.{Rose};
ghost use Rattle.av1_frame.specs.Planes.{fits};
ghost use Rattle.av1_settings.specs.Checks.{session_refusal};
ghost use Rattle.gop_board.specs.Handing.{WasEmpty};
ghost use Rattle.gop_board.specs.Workers.{AreFitting, EachIs, EachJob, Fills, IsResultOf, given_since};
ghost use Rattle.gop_board.specs.Deposited.{IsDeposited, SessionsBelong};

use crate::{Deposits, Gate, Job, JobPass, JobQueue, MakeSession, Run, run_job};
use av1_frame::Pixel;
use av1_settings::{Config, LevelTables};
use session_core::QTables;
use std::alloc::Global;
use std::sync::Wait;

/// Takes numbers from the queue until it answers None; of each it runs the job, and leaves the result on `board` where there is
/// none for the job yet. `gate` is told when a job begins, and when its result was left.
///
/// Afterwards the pass's count of answers None rose. Where the board tells its entries, each job whose number the pass was given
/// has its entry, the entries that were there before are unchanged, and no other was set.
pub fn work<
    H: Wait,
    T: Pixel,
    M: MakeSession<T>,
    G: Gate,
    N: Run<T, M::Coder>,
    B: Deposits<T, M::Coder, N>,
>(
    rt: &H,
    alloc: Global,
    cfg: &Config,
    levels: &LevelTables,
    tables: &QTables,
    jobs: &[Job<T>],
    maker: &M,
    gate: &G,
    queue: &JobQueue,
    pass: &mut JobPass,
    board: &mut B,
)
    requires valid { session_refusal T.BITS levels.now cfg.now ≡ None }
    requires frames { EachJob (λ place job. AreFitting cfg.now.enc job.frames) jobs.now }
    requires numbers { EachJob (λ place job. job.number ≡ place) jobs.now }
    requires queue { queue.now.jobs ≡ length jobs.now }
    requires pass { pass.old.queue ≡ queue.now }
    requires run { N.jobs ≡ length jobs.now }
    requires belongs { EachIs
        (IsResultOf cfg.now.enc tables.now (M.told maker.now) M.Coder.told jobs.now) N.belongs }

    // The pass took numbers, until the queue was empty at one moment of the call.
    ensures queue { pass.new.queue ≡ pass.old.queue }
    ensures part { pass.new.part ≡ record pass.old.part {
      popped = pass.old.part.popped ++ given_since pass.old pass.new;
    } }
    ensures misses { Rose pass.old.misses pass.new.misses }
    ensures empty { WasEmpty queue.now.jobs pass.new.part }

    // Their entries were set, and no others.
    ensures entries { Fills
        (IsResultOf cfg.now.enc tables.now (M.told maker.now) M.Coder.told jobs.now)
        (given_since pass.old pass.new) (B.told board.old) (B.told board.new) }
{
    for _ in rt.forever() {
        let Some(number) = queue.pop(rt, pass) else {
            return;
        };
        let job = &jobs[number as usize];
        work_on::<T, M, G, N, B>(alloc, cfg, levels, tables, job, maker, gate, board);
    }
    unreachable!()
}

// Runs a job, and leaves its result.
fn work_on<T: Pixel, M: MakeSession<T>, G: Gate, N: Run<T, M::Coder>, B: Deposits<T, M::Coder, N>>(
    alloc: Global,
    cfg: &Config,
    levels: &LevelTables,
    tables: &QTables,
    job: &Job<T>,
    maker: &M,
    gate: &G,
    board: &mut B,
)
    requires valid { session_refusal T.BITS levels.now cfg.now ≡ None }
    requires frames { AreFitting cfg.now.enc job.now.frames }
    requires below { job.now.number < N.jobs }
    requires belongs { SessionsBelong cfg.now.enc tables.now (M.told maker.now) M.Coder.told
        N.belongs job.now }
    ensures { IsDeposited cfg.now.enc tables.now (M.told maker.now) M.Coder.told job.now
        (B.told board.old) (B.told board.new) }
{
    gate.before(job.number);
    let found = run_job(alloc, cfg, levels, tables, job, maker);
    board.deposit_absent(job.number, found);
    gate.after(job.number);
}
