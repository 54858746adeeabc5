//! Frames split into jobs, and the jobs coded: one alone, by one worker, and side by side.
ghost use Rattle.std.specs.Prelude.{◌≡◌, ◌≤◌, IfOk, length};
ghost use Rattle.gop_board.specs.Workers.{AreFitting, EachJob};

use crate::boards::{BoardOfThree, Three};
use crate::maker::{SOUND, ScriptedMaker};
use crate::settings::{fitting_frames, frames, small, valid};
use av1_settings::Config;
use coding_base::OutOfMemory;
use gop_board::{
    Board, FrameList, Gate, GopError, Job, JobQueue, JobResult, OpenGate, PacketList, encode_gops,
    run_job, split_gops, work,
};
use scripted::{ScriptedCoder, ScriptedDetector, no_levels, scripted_tables};
use session_core::FrameCoder;
use std::alloc::Global;
use std::sync::Wait;
use std::sync::atomic::{AtomicU64, Ordering};
use std::test::Fail;
use std::thread;
use std::thread::Threads;

/// The jobs of so many frames, with cuts at these positions, and the detector that was asked.
fn split(
    alloc: Global,
    config: &Config,
    count: usize,
    cuts: &[u64],
) -> Result<(Vec<Job<u8>>, ScriptedDetector), OutOfMemory> {
    let mut detector = ScriptedDetector::new(alloc, cuts)?;
    let jobs = split_gops(alloc, config, frames(alloc, count)?, &mut detector)?;
    Ok((jobs, detector))
}

/// Of each job its number, its first position and how many frames it has; of each question position, last key and how many frames.
#[test]
fn three_jobs_of_four_frames(rt: HostRuntime) -> Result<(), Fail> {
    let (jobs, detector) = split(rt.alloc(), &Config::new(), 12, &[4, 8])?;
    let mut text = String::new(rt.alloc());
    for job in &jobs {
        write!(text, "{} {} {}, ", job.number, job.first, job.frames.len())?;
    }
    assert_eq!(rt; text.as_str(), "0 0 4, 1 4 4, 2 8 4, ");
    text.clear();
    for asked in detector.questions() {
        let frames = asked.frames.len();
        write!(text, "{} {} {frames}, ", asked.position, asked.last_key)?;
    }
    assert_eq!(rt;
        text.as_str(),
        "1 0 7, 2 0 7, 3 0 7, 4 0 7, 5 4 7, 6 4 7, 7 4 6, 8 4 5, 9 8 4, 10 8 3, 11 8 2, "
    );
    Ok(())
}

#[test]
fn no_frames_give_no_job(rt: HostRuntime) -> Result<(), Fail> {
    let mut config = Config::new();
    config.enc.low_latency = true;
    for (count, wanted) in [(0, [0, 0]), (1, [1, 0]), (6, [2, 5])] {
        let (jobs, detector) = split(rt.alloc(), &config, count, &[5, 6])?;
        let asked = detector.questions();
        assert_eq!(rt; [jobs.len(), asked.len()], wanted);
        for question in asked {
            assert!(rt; question.frames.len() <= 4);
        }
    }
    Ok(())
}

/// The numbers of packets, and how many bytes they have.
fn sizes(alloc: Global, packets: &PacketList<u8>) -> Result<String, OutOfMemory> {
    let mut text = String::new(alloc);
    for packet in packets.as_slice() {
        write!(text, "{}:{} ", packet.input_frameno, packet.bytes.len())?;
    }
    Ok(text)
}

/// The packets of a job, or its fault.
fn told(alloc: Global, found: Option<JobResult<u8, ScriptedCoder>>) -> Result<String, OutOfMemory> {
    match found {
        Some(JobResult::Packets(packets)) => sizes(alloc, &packets),
        Some(JobResult::Fault { command, coder }) => {
            let faults = coder.faults();
            Ok(format!(in alloc; "fault at {command}, {faults} in all")?)
        }
        Some(JobResult::OutOfMemory) => Ok(format!(in alloc; "no memory")?),
        None => Ok(format!(in alloc; "none")?),
    }
}

/// The result of a job of four frames.
fn run(alloc: Global, maker: &ScriptedMaker) -> Result<String, Fail> {
    let levels = no_levels();
    let config = valid(&levels)?;
    let frames = fitting_frames(alloc, &config.enc, 4)?;
    let job = Job {
        number: 0,
        first: 0,
        frames: FrameList::from_vec(frames),
    };
    let found = run_job(alloc, &config, &levels, &scripted_tables(), &job, maker);
    Ok(told(alloc, Some(found))?)
}

#[test]
fn the_session_of_a_job(rt: HostRuntime) -> Result<(), Fail> {
    for (from, fails, wanted) in [
        (1, 0, "0:102 1:42 2:5 3:22 "),
        (0, 0, "fault at 0, 1 in all"),
        (0, 1, "fault at 1, 1 in all"),
        (0, 4, "fault at 4, 1 in all"),
    ] {
        let told = run(rt.alloc(), &ScriptedMaker { from, fails })?;
        assert_eq!(rt; told.as_str(), wanted);
    }
    Ok(())
}

/// Three jobs of four frames, in order.
fn three_jobs(alloc: Global, config: &Config) -> Result<Vec<Job<u8>>, Fail>
    ensures fit { IfOk result (λ jobs.
        EachJob (λ place job. AreFitting config.now.enc job.frames) jobs.items) }
    ensures numbers { IfOk result (λ jobs.
        EachJob (λ place job. job.number ≡ place) jobs.items) }
    ensures three { IfOk result (λ jobs. length jobs.items ≡ 3) }
{
    let frames = fitting_frames(alloc, &config.enc, 12)?;
    let mut detector = ScriptedDetector::new(alloc, &[4, 8])?;
    let jobs = split_gops(alloc, config, frames, &mut detector)?;
    if jobs.len() != 3 {
        return Err(Fail::from("not three jobs"));
    }
    Ok(jobs)
}

/// Notes what passes it as digits, 2 * job + 1 before a job and 2 * job + 2 after it.
#[derive(Drop)]
struct NotingGate {
    passed: AtomicU64,
}

impl NotingGate {
    fn note(&self, digit: u64) {
        let passed = self.passed.load(Ordering::SeqCst);
        self.passed.store(
            passed.wrapping_mul(10).wrapping_add(digit),
            Ordering::SeqCst,
        );
    }
}

impl Gate for NotingGate {
    fn before(&self, job: u64) {
        self.note(job.wrapping_mul(2).wrapping_add(1));
    }

    fn after(&self, job: u64) {
        self.note(job.wrapping_mul(2).wrapping_add(2));
    }
}

/// The board that one worker leaves.
fn worked_alone<R: Wait>(rt: &R, alloc: Global, gate: &NotingGate) -> Result<BoardOfThree, Fail> {
    let levels = no_levels();
    let config = valid(&levels)?;
    let jobs = three_jobs(alloc, &config)?;
    let (queue, mut pass) = JobQueue::new(alloc, 3)?;
    let _ = queue.push(rt, &mut pass);
    let _ = queue.push(rt, &mut pass);
    let _ = queue.push(rt, &mut pass);
    let mut board = Board::<u8, ScriptedCoder, Three>::new(alloc, 3)?;
    let tables = scripted_tables();
    work(
        rt, alloc, &config, &levels, &tables, &jobs, &SOUND, gate, &queue, &mut pass, &mut board,
    );
    Ok(board)
}

#[test]
fn a_worker_runs_all_jobs_in_order(rt: HostRuntime) -> Result<(), Fail> {
    let alloc = rt.alloc();
    let gate = NotingGate {
        passed: AtomicU64::new(0),
    };
    let mut board = worked_alone(&rt, alloc, &gate)?;
    assert_eq!(rt; gate.passed.load(Ordering::SeqCst), 123_456);
    let absent = [board.is_absent(0), board.is_absent(1), board.is_absent(2)];
    assert!(rt; !absent.contains(&true));
    for wanted in [
        "0:102 1:42 2:5 3:22 ",
        "0:102 1:42 2:5 3:22 ",
        "0:102 1:42 2:5 3:22 ",
        "none",
    ] {
        let told = told(alloc, board.collect_next())?;
        assert_eq!(rt; told.as_str(), wanted);
    }
    Ok(())
}

/// The packets of the jobs of twelve frames, with cuts at 4 and 8, or the error and the faults of its coder.
fn encode<R: Threads + Wait + Sync, G: Gate + Sync>(
    rt: &R,
    alloc: Global,
    maker: &ScriptedMaker,
    workers: usize,
    gate: &G,
) -> Result<String, Fail> {
    let (config, levels, tables) = (small(1), no_levels(), scripted_tables());
    let frames = fitting_frames(alloc, &config.enc, 12)?;
    let mut detector = ScriptedDetector::new(alloc, &[4, 8])?;
    let encoded = encode_gops(
        rt,
        alloc,
        &config,
        &levels,
        &tables,
        frames,
        &mut detector,
        maker,
        workers,
        gate,
    );
    match encoded {
        Ok(packets) => Ok(sizes(alloc, &packets)?),
        Err(error) => error_told(alloc, error),
    }
}

fn error_told(alloc: Global, error: GopError<ScriptedCoder>) -> Result<String, Fail> {
    let mut text = error.to_string(alloc)?;
    if let GopError::CoderFault { coder, .. } = error {
        write!(text, ", {} faults", coder.faults())?;
    }
    Ok(text)
}

const SIZES: &str = "0:102 1:42 2:5 3:22 4:102 5:42 6:5 7:22 8:102 9:42 10:5 11:22 ";

#[test]
fn jobs_coded_side_by_side(rt: HostRuntime) -> Result<(), Fail> {
    let failing = ScriptedMaker { from: 1, fails: 2 };
    for (maker, workers, wanted) in [
        (SOUND, 0, SIZES),
        (SOUND, 1, SIZES),
        (SOUND, 2, SIZES),
        (SOUND, 9, SIZES),
        (
            failing,
            2,
            "the coder of job 1 failed at command 2, 1 faults",
        ),
    ] {
        let told = encode(&rt, rt.alloc(), &maker, workers, &OpenGate)?;
        assert_eq!(rt; told.as_str(), wanted);
    }
    Ok(())
}

/// How often a worker looks whether the other one is done.
const MOST_LOOKS: u64 = 10_000_000;

/// Holds job 1 until job 2 is done, and counts what passes, 1 before a job and 10 after it.
#[derive(Drop)]
struct CrossedGate {
    passed: [AtomicU64; 3],
    late: AtomicU64,
}

impl CrossedGate {
    fn new() -> CrossedGate {
        CrossedGate {
            passed: [AtomicU64::new(0), AtomicU64::new(0), AtomicU64::new(0)],
            late: AtomicU64::new(0),
        }
    }

    fn count(&self, job: u64, by: u64) {
        if let Some(passed) = self.passed.get(job as usize) {
            passed.fetch_add(by, Ordering::SeqCst);
        }
    }

    fn wait_for_job_2(&self) {
        for _ in 0..MOST_LOOKS {
            if self.passed[2].load(Ordering::SeqCst) >= 10 {
                return;
            }
            thread::yield_now();
        }
        self.late.fetch_add(1, Ordering::SeqCst);
    }
}

impl Gate for CrossedGate {
    fn before(&self, job: u64) {
        self.count(job, 1);
        if job == 1 {
            self.wait_for_job_2();
        }
    }

    fn after(&self, job: u64) {
        self.count(job, 10);
    }
}

#[test]
fn a_gate_needs_two_workers(rt: HostRuntime) -> Result<(), Fail> {
    let gate = CrossedGate::new();
    let told = encode(&rt, rt.alloc(), &SOUND, 2, &gate)?;
    assert_eq!(rt; told.as_str(), SIZES);
    assert_eq!(rt; gate.late.load(Ordering::SeqCst), 0);
    for passed in &gate.passed {
        assert_eq!(rt; passed.load(Ordering::SeqCst), 11);
    }
    Ok(())
}
