// Runs over queues in memory, with cuts at 4 and 8.
ghost use Rattle.std.specs.Prelude.{◌≡◌, None};
ghost use Rattle.session_channels.specs.LocalQueues.{local_of};

use super::making::{Frames, SOUND, ScriptedMaker, frames_of, settings};
use crate::{GopEnd, drive_gops};
use coding_base::OutOfMemory;
use scripted::{ScriptedCoder, ScriptedDetector, no_levels, scripted_tables};
use session_channels::{LocalQueue, PacketMessage, TakeError};
use std::alloc::Global;
use std::sync::Wait;
use std::test::Fail;
use std::thread::Threads;

type Packets = LocalQueue<PacketMessage<u8, ()>>;

// What a run is given: the widths of the frames, whether their queue is closed behind them, whether they are one still picture,
// whether the queue of packets is closed before, and the maker.
#[derive(Clone, Copy)]
struct Given<'a> {
    widths: &'a [usize],
    is_whole: bool,
    is_still: bool,
    is_severed: bool,
    maker: ScriptedMaker,
}

const TWELVE: Given<'static> = Given {
    widths: &[64; 12],
    is_whole: true,
    is_still: false,
    is_severed: false,
    maker: SOUND,
};

fn new_packets(alloc: Global, is_closed: bool) -> Packets
    ensures { (local_of result).queue.capacity ≡ None }
{
    let mut packets = LocalQueue::new(alloc, None);
    if !is_closed {
        return packets;
    }
    packets.close();
    packets
}

// How a run over a queue of frames ended, and its packets.
fn driven<R: Threads + Wait + Sync>(
    rt: &R,
    alloc: Global,
    given: &Given,
    frames: &mut Frames,
) -> Result<(Result<(), GopEnd<ScriptedCoder>>, Packets), Fail> {
    let (levels, tables) = (no_levels(), scripted_tables());
    let mut config = settings();
    config.enc.still_picture = given.is_still;
    if config.validate_for_session(&levels, 8).is_err() {
        return Err(Fail::from("invalid settings"));
    }
    let mut packets = new_packets(alloc, given.is_severed);
    let mut detector = ScriptedDetector::new(alloc, &[4, 8])?;
    let ended = drive_gops(
        rt,
        alloc,
        &config,
        &levels,
        &tables,
        &mut detector,
        &given.maker,
        frames,
        &mut packets,
        2,
    );
    Ok((ended, packets))
}

// The fault, and how many calls its coder answered, if there is one.
fn end_told(
    alloc: Global,
    ended: Result<(), GopEnd<ScriptedCoder>>,
) -> Result<String, OutOfMemory> {
    let Err(end) = ended else {
        return Ok(format!(in alloc; "ok")?);
    };
    let GopEnd { fault, coder } = end;
    let mut text = format!(in alloc; "{fault}")?;
    if let Some(coder) = coder {
        write!(text, " (it answered {})", coder.given().len())?;
    }
    Ok(text)
}

// The numbers of packets and how many bytes they have, the fault behind them, and what the next take answers.
fn packets_told(alloc: Global, packets: Packets) -> Result<String, OutOfMemory> {
    let mut packets = packets;
    let mut text = format!(in alloc; "packets")?;
    for _ in 0..20 {
        match packets.try_take() {
            Ok(Ok(packet)) => write!(text, " {}:{}", packet.input_frameno, packet.bytes.len())?,
            Ok(Err(fault)) => write!(text, ", {fault}")?,
            Err(TakeError::Closed) => {
                text.push_str(", closed")?;
                break;
            }
            Err(TakeError::Empty) => {
                text.push_str(", open")?;
                break;
            }
        }
    }
    Ok(text)
}

// How many frames are left, and what the take behind them answers.
fn frames_told(alloc: Global, frames: Frames) -> Result<String, OutOfMemory> {
    let mut frames = frames;
    let mut text = format!(in alloc; "{} left", frames.len())?;
    for _ in 0..20 {
        match frames.try_take() {
            Ok(_) => text.push_str(", one")?,
            Err(TakeError::Closed) => {
                text.push_str(", closed")?;
                break;
            }
            Err(TakeError::Empty) => {
                text.push_str(", open")?;
                break;
            }
        }
    }
    Ok(text)
}

fn told<R: Threads + Wait + Sync>(
    rt: &R,
    alloc: Global,
    given: &Given,
) -> Result<[String; 3], Fail> {
    let mut frames = frames_of(alloc, given.widths)?;
    if given.is_whole {
        frames.close();
    }
    let (ended, packets) = driven(rt, alloc, given, &mut frames)?;
    Ok([
        end_told(alloc, ended)?,
        packets_told(alloc, packets)?,
        frames_told(alloc, frames)?,
    ])
}

// Each run, and what it answers, what is put into the queue of packets, and what is left in that of frames.
const ROWS: [(Given<'static>, [&str; 3]); 5] = [
    (
        TWELVE,
        [
            "ok",
            "packets 0:102 1:42 2:5 3:22 4:102 5:42 6:5 7:22 8:102 9:42 10:5 11:22, closed",
            "0 left, closed",
        ],
    ),
    (
        Given {
            widths: &[64, 32, 64],
            is_whole: false,
            ..TWELVE
        },
        [
            "a frame was refused: frame size mismatch",
            "packets 0:102, a frame was refused: frame size mismatch, closed",
            "1 left, one, open",
        ],
    ),
    (
        Given {
            widths: &[64; 2],
            is_whole: false,
            is_still: true,
            ..TWELVE
        },
        [
            "a frame was refused: enough data",
            "packets 0:102, a frame was refused: enough data, closed",
            "0 left, open",
        ],
    ),
    (
        Given {
            maker: ScriptedMaker { from: 1, fails: 2 },
            ..TWELVE
        },
        [
            "the coder failed at command 2 (it answered 2)",
            "packets 0:102 1:42 2:5 3:22, the coder failed at command 2, closed",
            "0 left, closed",
        ],
    ),
    (
        Given {
            is_severed: true,
            ..TWELVE
        },
        [
            "the queue of packets or of pass data was closed",
            "packets, closed",
            "0 left, closed",
        ],
    ),
];

#[test]
fn runs_end_as_their_rows_say(rt: HostRuntime) -> Result<(), Fail> {
    for (given, wanted) in &ROWS {
        let told = told(&rt, rt.alloc(), given)?;
        for (part, wanted) in told.iter().zip(wanted) {
            assert_eq!(rt; part.as_str(), *wanted);
        }
    }
    Ok(())
}
