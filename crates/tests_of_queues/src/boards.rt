//! Boards of three jobs. A result that is a fault is told by its command.
ghost use Rattle.std.specs.Prelude.{◌<◌};

use coding_base::OutOfMemory;
use gop_board::{Board, Deposits, Gate, JobResult, OpenGate, PacketList, Run};
use scripted::ScriptedCoder;
use std::alloc::Global;
use std::test::Fail;

/// Three jobs, to which any results belong.
pub struct Three;

impl Run<u8, ScriptedCoder> for Three {
    ghost use Rattle.std.specs.Prelude.{⊤};

    ghost jobs = { 3 };

    ghost belongs = { λ job found. ⊤ };
}

/// A board of three jobs.
pub type BoardOfThree = Board<u8, ScriptedCoder, Three>;

/// A call of a board, of jobs below 3.
#[derive(Clone, Copy)]
enum Call {
    /// A fault with the job's number as its command is left, where there is no result.
    Leave(u64),
    /// An empty list of packets is deposited, if there is no result.
    Deposit(u64),
    IsAbsent(u64),
    Collect,
}

use Call::{Collect, Deposit, IsAbsent, Leave};

fn leave<B: Deposits<u8, ScriptedCoder, Three>>(alloc: Global, board: &mut B, job: u64)
    requires { job < 3 }
{
    let coder = ScriptedCoder::new(alloc);
    board.deposit_absent(
        job,
        JobResult::Fault {
            command: job,
            coder,
        },
    );
}

fn collected(alloc: Global, board: &mut BoardOfThree) -> Result<String, OutOfMemory> {
    Ok(match board.collect_next() {
        Some(
            JobResult::Fault {
                command,
                coder: _coder,
            },
        ) => format!(in alloc; "{command}")?,
        Some(JobResult::Packets(packets)) => format!(in alloc; "{} packets", packets.len())?,
        Some(JobResult::OutOfMemory) => format!(in alloc; "no memory")?,
        None => format!(in alloc; "none")?,
    })
}

fn answer(alloc: Global, board: &mut BoardOfThree, call: Call) -> Result<String, OutOfMemory> {
    match call {
        Leave(job) if job < 3 => leave(alloc, board, job),
        Deposit(job) if job < 3 => {
            if board.is_absent(job) {
                board.deposit(job, JobResult::Packets(PacketList::new(alloc)));
            }
        }
        IsAbsent(job) if job < 3 => return Ok(format!(in alloc; "{}", board.is_absent(job))?),
        Collect => return collected(alloc, board),
        _ => return Ok(format!(in alloc; "no job")?),
    }
    Ok(format!(in alloc; ".")?)
}

const ROWS: [(&[Call], &str); 2] = [
    (
        &[
            Leave(2),
            Collect,
            Leave(0),
            Collect,
            Collect,
            Leave(1),
            Collect,
            Collect,
            Collect,
        ],
        ". none . 0 none . 1 2 none ",
    ),
    (
        &[
            Deposit(0),
            IsAbsent(0),
            IsAbsent(1),
            Leave(0),
            Collect,
            IsAbsent(0),
            Leave(0),
            Collect,
        ],
        ". false true . 0 packets false . none ",
    ),
];

#[test]
fn results_are_set_once_and_collected_in_order(rt: HostRuntime) -> Result<(), Fail> {
    let alloc = rt.alloc();
    for (calls, wanted) in &ROWS {
        let mut board = BoardOfThree::new(alloc, 3)?;
        let mut text = String::new(alloc);
        for call in *calls {
            text.push_str(&answer(alloc, &mut board, *call)?)?;
            text.push_str(" ")?;
        }
        assert_eq!(rt; text.as_str(), *wanted);
    }
    Ok(())
}

fn pass<G: Gate>(gate: &G, job: u64) {
    gate.before(job);
    gate.after(job);
}

#[test]
fn an_open_gate_holds_nobody_back() {
    pass(&OpenGate, 7);
}
