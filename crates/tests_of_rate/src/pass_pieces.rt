//! What the passes hand on: data that is given in pieces or packets, and data that is emitted.

use crate::frame_statistics::{SUMMARY, damaged, told_summary};
use crate::metrics_windows::told_tally;
use pass_data::{EmittedData, GivenData, PassDataError};
use pass_stats::{InvalidFrameType, RCFrameMetrics, Why};
use std::alloc::Global;
use std::process::Abort;
use std::test::Fail;

/// A shown key frame of scale 2.
pub const PACKET: [u8; 8] = [0, 0, 0, 0x80, 0, 0, 0, 1];

/// Its show flag is off.
pub const HIDDEN: [u8; 8] = [0, 0, 0, 0, 0, 0, 0, 1];

/// The summary with other counts of temporal units and of key frames.
pub fn summary_of(units: u8, keys: u8) -> [u8; 68] {
    damaged(8, &[units, 0, 0, 0, keys])
}

#[test]
fn texts_and_numbers(rt: HostRuntime) -> Result<(), Fail> {
    let rows = [
        (
            PassDataError::Corrupted(Why::Short),
            1,
            "The summary content is invalid: Summary too short",
        ),
        (
            PassDataError::BadPacket(InvalidFrameType { value: 5 }),
            2,
            "invalid frame type 5",
        ),
        (
            PassDataError::TooManyFrames,
            3,
            "too many frames for the temporal units of the reservoir",
        ),
        (PassDataError::NotNeeded, 4, "no frame data is needed"),
        (
            PassDataError::WrongSize(1),
            5,
            "a packet of 1 bytes (expected 8)",
        ),
        (PassDataError::OutOfMemory, 6, "out of memory"),
    ];
    for (error, number, text) in rows {
        assert_eq!(rt; error.number(), number);
        assert_eq!(rt; error.to_string(rt.alloc())?.as_str(), text);
    }
    Ok(())
}

/// What is asked of given data, or done to it.
#[derive(Clone, Copy)]
enum Step<'a> {
    Wants,
    Give(&'a [u8]),
    Send(bool, &'a [u8]),
    Held,
    Header,
    Needed,
    HasNext,
    Ahead,
    Code,
}

/// The answer to a step, where the reservoir is evened out over `delay` temporal units.
fn told(alloc: Global, given: &mut GivenData, delay: i32, step: Step<'_>) -> Result<String, Fail> {
    match step {
        Step::Wants => Ok(given.wants(delay, 0).to_string(alloc)?),
        Step::Give(bytes) => match given.give(delay, 0, bytes) {
            Ok(taken) => Ok(taken.to_string(alloc)?),
            Err(e) => Ok(e.to_string(alloc)?),
        },
        Step::Send(is_needed, bytes) => match given.send(is_needed, bytes) {
            Ok(()) => Ok(String::from_str(alloc, "sent")?),
            Err(e) => Ok(e.to_string(alloc)?),
        },
        Step::Held => Ok(given.held_bytes().to_string(alloc)?),
        Step::Header => told_header(alloc, given),
        Step::Needed => Ok(given.needed(delay, 0).to_string(alloc)?),
        Step::HasNext => Ok(given.has_next(0).to_string(alloc)?),
        Step::Ahead => told_ahead(alloc, given, delay),
        Step::Code => {
            given.code();
            told_tally(alloc, &given.left())
        }
    }
}

/// The temporal units, the frames and the exponents.
fn told_header(alloc: Global, given: &GivenData) -> Result<String, Fail> {
    match given.header() {
        Some(header) => {
            let exponents = header.exp.as_slice();
            Ok(format!(in alloc; "{} {} {exponents:?}", header.ntus, header.total)?)
        }
        None => Ok(String::from_str(alloc, "none")?),
    }
}

/// The counts, the coded frames, the temporal units and the current scale of what lies ahead of a key frame.
fn told_ahead(alloc: Global, given: &GivenData, delay: i32) -> Result<String, Fail> {
    let look = given.look_ahead(delay, 0);
    let counts = look.nframes.as_slice();
    Ok(format!(in alloc;
        "{counts:?} {} {} {:?}",
        look.frames, look.tus, look.current
    )?)
}

/// Takes the steps, and compares what is told of each.
fn follow(
    rt: &impl Abort,
    alloc: Global,
    given: &mut GivenData,
    rows: &[(i32, Step<'_>, &str)],
) -> Result<(), Fail> {
    for (delay, step, expected) in rows {
        let told = told(alloc, given, *delay, *step)?;
        assert_eq!(rt; told.as_str(), *expected);
    }
    Ok(())
}

#[test]
fn bytes_one_by_one(rt: HostRuntime) -> Result<(), Fail> {
    let alloc = rt.alloc();
    let mut given = GivenData::new(alloc);
    for byte in SUMMARY {
        let rows = [(240, Step::Wants, "true"), (240, Step::Give(&[byte]), "1")];
        follow(&rt, alloc, &mut given, &rows)?;
    }
    let rows = [
        (1, Step::Header, "1 1 [48, 69, 84, 87]"),
        (1, Step::Needed, "1"),
    ];
    follow(&rt, alloc, &mut given, &rows)?;
    for byte in PACKET {
        follow(&rt, alloc, &mut given, &[(1, Step::Give(&[byte]), "1")])?;
    }
    let rows = [
        (1, Step::HasNext, "true"),
        (1, Step::Needed, "0"),
        (1, Step::Give(&PACKET), "0"),
        (1, Step::Send(false, &PACKET), "no frame data is needed"),
        (1, Step::Ahead, "[1, 0, 0, 0, 0] 1 1 Some(16777216)"),
        (1, Step::Code, "[0, 0, 0, 0, 0] [-33554432, 0, 0, 0] 0 0 0"),
        (1, Step::HasNext, "false"),
    ];
    follow(&rt, alloc, &mut given, &rows)
}

#[test]
fn refused_bytes_are_let_go(rt: HostRuntime) -> Result<(), Fail> {
    let alloc = rt.alloc();
    let many = "too many frames for the temporal units of the reservoir";
    let bad = damaged(0, &[0x57]);
    let mut given = GivenData::new(alloc);
    let rows = [
        (
            12,
            Step::Give(&bad),
            "The summary content is invalid: Magic value mismatch",
        ),
        (12, Step::Held, "0"),
    ];
    follow(&rt, alloc, &mut given, &rows)?;
    given.take_window(alloc, 2)?;
    let summary = summary_of(12, 40);
    let rows = [
        (12, Step::Give(&summary), "68"),
        (12, Step::Give(&[0, 0, 0, 0, 0, 0, 0, 1, 0, 0, 0]), "11"),
        (12, Step::Held, "3"),
        (
            12,
            Step::Send(true, &[0]),
            "a packet of 1 bytes (expected 8)",
        ),
        (
            12,
            Step::Send(true, &[5, 0, 0, 0, 0, 0, 0, 0]),
            "invalid frame type 5",
        ),
        (12, Step::Send(true, &HIDDEN), "sent"),
        (12, Step::Send(true, &HIDDEN), many),
        (12, Step::Held, "3"),
        (12, Step::Give(&[0, 0, 0, 0, 1]), many),
        (12, Step::Held, "0"),
    ];
    follow(&rt, alloc, &mut given, &rows)
}

const METRICS: RCFrameMetrics = RCFrameMetrics {
    log_scale_q24: 16_777_216,
    fti: 0,
    show_frame: true,
};

#[test]
fn emitted_sums_are_those_of_taken_metrics(rt: HostRuntime) -> Result<(), Fail> {
    let mut emitted = EmittedData::new();
    for is_waiting in [false, true] {
        if is_waiting {
            emitted.set_waiting(METRICS);
        }
        assert_eq!(rt; emitted.is_waiting(), is_waiting);
        match emitted.emit_frame() {
            Some(bytes) => {
                assert!(rt; is_waiting);
                assert_eq!(rt; bytes.as_slice(), PACKET.as_slice());
            }
            None => assert!(rt; !is_waiting),
        }
    }
    emitted.set_waiting(METRICS);
    let bytes = emitted.emit_summary([1, 0, 0, 0, 0], [48, 69, 84, 87]);
    assert!(rt; emitted.is_summed_up());
    let told = told_summary(rt.alloc(), bytes.as_slice())?;
    assert_eq!(rt;
        told.as_str(),
        "1 [1, 0, 0, 0, 0] [48, 69, 84, 87] [33554432, 0, 0, 0] 1"
    );
    Ok(())
}
