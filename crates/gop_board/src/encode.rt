// Frames coded as jobs side by side.
ghost use Rattle.std.specs.Prelude.{◌≡◌, ◌≤◌, ◌⊎◌, ℕ, None, Some, Err, All, IfErr, IfOk, IsOk, IsTrue, length, map};
ghost use Rattle.av1_frame.specs.Planes.{fits};
ghost use Rattle.av1_settings.specs.declared.invalid.InvalidConfig.{InvalidConfig};
ghost use Rattle.av1_settings.specs.Checks.{session_refusal};
ghost use Rattle.session_core.specs.Told.{IsDetectorLater};
ghost use Rattle.gop_board.specs.Encoding.{IsCause, IsJobsCause, IsWhole, JoinsPackets, NoneFails};
ghost use Rattle.gop_board.specs.Workers.{AreFitting, EachIs, EachJob, IsResultOf};

use crate::coding::gather_jobs;
use crate::{Gate, Gathered, Job, JobFault, MakeSession, PacketList, Run, split_gops};
use av1_frame::{Frame, Pixel};
use av1_settings::{Config, InvalidConfig, LevelTables};
use session_core::{Detector, QTables};
use std::alloc::Global;
use std::marker::Brand;
use std::sync::{Arc, Wait};
use std::thread::Threads;
use thiserror::Error;

/// Why frames weren't coded. The numbers are 1, 2 and 3, in this order.
#[derive(Debug, Drop, Error)]
pub enum GopError<C> {
    /// The configuration is refused.
    #[error("invalid configuration: {0}")]
    Invalid(InvalidConfig),
    /// The coder of a job failed; it is the least such job.
    #[error("the coder of job {job} failed at command {command}")]
    CoderFault {
        /// The job's number.
        job: u64,
        /// The number of commands that it coded before.
        command: u64,
        /// The coder as its calls left it.
        coder: C,
    },
    /// Memory ran out, maybe in a job.
    #[error("out of memory")]
    OutOfMemory,
}

/// Splits frames into jobs (`split_gops`), codes each in a session of its own (`run_job`) on as many workers as are asked for, 0
/// being 1, and gives the packets of all jobs in the order of the jobs, numbered anew from 0. It waits for its workers. A job that
/// no worker ran is run by the caller, past the gate.
///
/// The errors are `Invalid` with the configuration's first refusal, before anything is asked or coded; `CoderFault` of the least
/// job whose coder failed; and `OutOfMemory`, which goes before `CoderFault` where any job ran out of memory.
pub fn encode_gops<
    H: Threads + Wait + Sync,
    T: Pixel,
    D: Detector<T>,
    M: MakeSession<T> + Sync,
    G: Gate + Sync,
>(
    rt: &H,
    alloc: Global,
    cfg: &Config,
    levels: &LevelTables,
    tables: &QTables,
    frames: Vec<Arc<Frame<T>>>,
    detector: &mut D,
    maker: &M,
    workers: usize,
    gate: &G,
) -> Result<PacketList<T>, GopError<M::Coder>>
where
    M::Scales: Send,
    M::Coder: Send,
    requires fit { All (λ frame. IsTrue (fits frame.value cfg.now.enc.width cfg.now.enc.height
        cfg.now.enc.chroma_sampling)) frames.items }
    requires few { length frames.items ≤ 2147483646 }

    // The packets of all jobs.
    ensures whole { IfOk result (λ packets.
        IsWhole cfg.now.enc tables.now (M.told maker.now)
        (map (λ frame. frame.value) frames.items)
        (D.told detector.old) (D.told detector.new) packets) }

    // When each error comes.
    ensures error { IfErr result (IsCause (session_refusal T.BITS levels.now cfg.now)
        cfg.now.enc tables.now (M.told maker.now) M.Coder.told
        (map (λ frame. frame.value) frames.items)
        (D.told detector.old) (D.told detector.new)) }
    ensures refused { (v : InvalidConfig)
        → session_refusal T.BITS levels.now cfg.now ≡ Some v
        → result ≡ Err (GopError.Invalid v) }
    ensures complete { session_refusal T.BITS levels.now cfg.now ≡ None
        → NoneFails (M.told maker.now)
        → IsOk result ⊎ (result ≡ Err GopError.OutOfMemory) }

    // What the detector tells goes on; it isn't asked where the configuration is refused.
    ensures later { IsDetectorLater (D.told detector.old) (D.told detector.new) }
    ensures untouched { (v : InvalidConfig)
        → session_refusal T.BITS levels.now cfg.now ≡ Some v
        → detector.new ≡ detector.old }
{
    if let Err(refusal) = cfg.validate_for_session(levels, T::BITS) {
        return Err(GopError::Invalid(refusal));
    }
    match split_gops(alloc, cfg, frames, detector) {
        Ok(jobs) => encode_jobs::<Brand, H, T, M, G>(
            rt, alloc, cfg, levels, tables, &jobs, maker, workers, gate,
        ),
        Err(_) => Err(GopError::OutOfMemory),
    }
}

// Codes jobs on workers, and gives the packets of all.
fn encode_jobs<
    N: Run<T, M::Coder> + Send + Sync,
    H: Threads + Wait + Sync,
    T: Pixel,
    M: MakeSession<T> + Sync,
    G: Gate + Sync,
>(
    rt: &H,
    alloc: Global,
    cfg: &Config,
    levels: &LevelTables,
    tables: &QTables,
    jobs: &[Job<T>],
    maker: &M,
    workers: usize,
    gate: &G,
) -> Result<PacketList<T>, GopError<M::Coder>>
where
    M::Scales: Send,
    M::Coder: Send,
    requires valid { session_refusal T.BITS levels.now cfg.now ≡ None }
    requires frames { EachJob (λ place job. AreFitting cfg.now.enc job.frames) jobs.now }
    requires numbers { EachJob (λ place job. job.number ≡ place) jobs.now }
    requires run { N.jobs ≡ length jobs.now }
    requires belongs { EachIs
        (IsResultOf cfg.now.enc tables.now (M.told maker.now) M.Coder.told jobs.now) N.belongs }
    requires belonging { EachIs N.belongs
        (IsResultOf cfg.now.enc tables.now (M.told maker.now) M.Coder.told jobs.now) }
    ensures joins { IfOk result (JoinsPackets cfg.now.enc tables.now (M.told maker.now) jobs.now) }
    ensures error { IfErr result (IsJobsCause cfg.now.enc tables.now (M.told maker.now)
        M.Coder.told jobs.now) }
{
    let gathered = gather_jobs::<N, H, T, M, G>(
        rt, alloc, cfg, levels, tables, jobs, maker, workers, gate,
    );
    let Ok(Gathered { packets, fault }) = gathered else {
        return Err(GopError::OutOfMemory);
    };
    match fault {
        None => Ok(packets),
        Some(fault) => {
            let JobFault {
                job,
                command,
                coder,
            } = fault;
            Err(GopError::CoderFault {
                job,
                command,
                coder,
            })
        }
    }
}
