// Channels whose frames are coded as jobs, and one between two threads.
use super::making::{SOUND, ScriptedMaker, settings};
use crate::{GopWorker, NewGopChannel, VideoDataChannel};
use av1_settings::{InvalidConfig, LevelTables};
use coding_base::OutOfMemory;
use scripted::{ScriptedDetector, no_levels, scripted_tables};
use session_channels::TryRecvError;
use session_core::SetupError;
use std::alloc::Global;
use std::sync::Wait;
use std::test::Fail;
use std::thread;
use std::thread::Threads;

type Worker<'a, R> = GopWorker<'a, u8, ScriptedDetector, ScriptedMaker, R>;

// A channel with cuts at 4 and 8 and two workers, of which pass data is asked for or not.
fn open<'a, R: Threads + Wait + Copy + Sync>(
    rt: R,
    alloc: Global,
    levels: &'a LevelTables,
    emits: bool,
) -> Result<(VideoDataChannel<u8, (), R>, Worker<'a, R>), SetupError> {
    let mut config = settings();
    config.rate_control.emit_data = emits;
    let Ok(detector) = ScriptedDetector::new(alloc, &[4, 8]) else {
        return Err(SetupError::OutOfMemory);
    };
    config.new_by_gop_channel(rt, alloc, levels, &scripted_tables(), detector, SOUND, 2)
}

// How often a receive that finds nothing is made again.
const MOST_TURNS: u64 = 10_000_000;

// Sends so many frames, which the queue has to have room for in time, closes their queue, and receives packets up to the first
// error. Answers the number and the size of each packet, that error, and the one of a receive behind it that waits.
fn encode<R: Wait + Copy>(
    alloc: Global,
    ends: VideoDataChannel<u8, (), R>,
    count: u64,
) -> Result<String, OutOfMemory> {
    let (mut sender, mut receiver) = ends;
    for _ in 0..count {
        if let Ok(frame) = sender.new_frame(alloc) {
            let _ = sender.send(alloc, frame);
        }
    }
    sender.close();
    let mut text = String::new(alloc);
    for _ in 0..MOST_TURNS {
        match receiver.try_recv() {
            Ok(packet) => write!(text, "{}:{} ", packet.input_frameno, packet.bytes.len())?,
            Err(TryRecvError::Empty) => thread::yield_now(),
            Err(error) => {
                write!(text, "{error:?} {:?}", receiver.recv().err())?;
                break;
            }
        }
    }
    Ok(text)
}

// Runs the worker; whether it had not run before, has run now, and all went well.
fn work<R: Threads + Wait + Copy + Sync>(alloc: Global, mut worker: Worker<R>) -> bool {
    !worker.has_run() && worker.run(alloc).is_ok() && worker.has_run()
}

#[test]
fn frames_go_to_a_worker_and_packets_come_back(rt: HostRuntime) -> Result<(), Fail> {
    let alloc = rt.alloc();
    let levels = no_levels();
    let (ends, worker) = open(&rt, alloc, &levels, false)?;
    let (told, well) = thread::join(&rt, || encode(alloc, ends, 12), || work(alloc, worker));
    assert!(rt; well);
    assert_eq!(rt;
        told?.as_str(),
        "0:102 1:42 2:5 3:22 4:102 5:42 6:5 7:22 8:102 9:42 10:5 11:22 Disconnected Some(Closed)"
    );
    Ok(())
}

#[test]
fn pass_data_is_refused(rt: HostRuntime) {
    let mismatch = match open(&rt, rt.alloc(), &no_levels(), true) {
        Err(SetupError::Invalid(InvalidConfig::RateControlConfigurationMismatch)) => true,
        _ => false,
    };
    assert!(rt; mismatch);
}
