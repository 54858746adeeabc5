//! A rate controller in one pass, in a first and in a second: what it asks for, what it is given and what it gives.

use crate::controllers::{Controller, Frame, GOP, KEY, PLAIN, Start, started};
use crate::frame_statistics::{SUMMARY, damaged, told_fields, told_summary};
use crate::pass_pieces::{HIDDEN, PACKET, summary_of};
use arrayvec::ArrayVec;
use pass_stats::parse_summary;
use ratecontrol::PassDataError;
use ratecontrol::laws::emitted_summary_again;
use std::alloc::Global;
use std::process::Abort;
use std::test::Fail;

/// What is asked of a controller, or done to it.
#[derive(Clone, Copy)]
enum Step<'a> {
    Ready,
    Reservoir,
    Most,
    TrialDue(usize),
    Searched(usize, i64),
    Base(usize, i64),
    Index(usize),
    Update(Frame),
    FirstPass,
    SecondPass,
    SetUp(&'a [u8]),
    Ask,
    Give(&'a [u8]),
    Send(&'a [u8]),
    FramesNeeded,
    FrameData,
    Out(bool),
    SummaryAgain,
}

/// The answer to a step.
fn told(
    rt: &impl Abort,
    alloc: Global,
    controller: &mut Controller,
    step: Step<'_>,
) -> Result<String, Fail> {
    match step {
        Step::Ready => Ok(controller.state.ready().to_string(alloc)?),
        Step::Reservoir => Ok(controller.state.reservoir().to_string(alloc)?),
        Step::Most => Ok(controller.state.reservoir_max().to_string(alloc)?),
        Step::TrialDue(fti) => Ok(controller.is_trial_due(rt, fti).to_string(alloc)?),
        Step::Searched(fti, mean_scale) => {
            let chosen = controller.select(rt, fti, None, mean_scale);
            Ok(format!(in alloc; "{:?} {}", chosen.searched_q, chosen.log_target_q)?)
        }
        Step::Base(fti, mean_scale) => {
            let chosen = controller.select(rt, fti, None, mean_scale);
            Ok(chosen.log_base_q.to_string(alloc)?)
        }
        Step::Index(fti) => {
            let chosen = controller.select(rt, fti, None, 0);
            let [index, ..] = chosen.ac_qi;
            Ok(format!(in alloc; "{index} {:?}", chosen.searched_q)?)
        }
        Step::Update(frame) => Ok(controller.update(rt, frame).to_string(alloc)?),
        Step::FirstPass => {
            let base = controller.select(rt, 0, None, 0).log_base_q;
            controller.state.init_first_pass(Some(base));
            Ok("begun".to_string(alloc)?)
        }
        _ => told_pass(alloc, controller, step),
    }
}

/// The answer to a step of a pass.
fn told_pass(alloc: Global, controller: &mut Controller, step: Step<'_>) -> Result<String, Fail> {
    match step {
        Step::SecondPass => {
            controller.state.init_second_pass()?;
            Ok("begun".to_string(alloc)?)
        }
        Step::SetUp(bytes) => {
            controller.state.setup_second_pass(&parse_summary(bytes)?);
            Ok("set up".to_string(alloc)?)
        }
        Step::Give(bytes) => told_bytes(alloc, controller.give(Some(bytes))),
        Step::Send(bytes) => match controller.state.send_packet(bytes) {
            Ok(()) => Ok("sent".to_string(alloc)?),
            Err(e) => Ok(e.to_string(alloc)?),
        },
        Step::FramesNeeded => Ok(
            controller
                .state
                .twopass_in_frames_needed()
                .to_string(alloc)?,
        ),
        Step::FrameData => told_data(alloc, controller.state.emit_frame_data()),
        Step::Out(done) => told_data(alloc, controller.state.twopass_out(done)),
        Step::SummaryAgain => told_fields(alloc, &emitted_summary_again(&mut controller.state)?),
        _ => told_bytes(alloc, controller.give(None)),
    }
}

/// How many bytes, or why not.
pub fn told_bytes(alloc: Global, answer: Result<usize, PassDataError>) -> Result<String, Fail> {
    match answer {
        Ok(bytes) => Ok(bytes.to_string(alloc)?),
        Err(e) => Ok(e.to_string(alloc)?),
    }
}

/// The bytes of a frame's data, what a summary says, or that there is nothing.
pub fn told_data(alloc: Global, data: Option<ArrayVec<u8, 68>>) -> Result<String, Fail> {
    match data {
        Some(bytes) => {
            if bytes.len() == 68 {
                return told_summary(alloc, bytes.as_slice());
            }
            Ok(format!(in alloc; "{:?}", bytes.as_slice())?)
        }
        None => Ok("nothing".to_string(alloc)?),
    }
}

/// Takes the steps, and compares what is told of each.
fn follow(
    rt: &impl Abort,
    alloc: Global,
    controller: &mut Controller,
    rows: &[(Step<'_>, &str)],
) -> Result<(), Fail> {
    for (row, (step, expected)) in rows.iter().enumerate() {
        let told = told(rt, alloc, controller, *step)?;
        assert_eq!(rt; told.as_str(), *expected, "in row {row}");
    }
    Ok(())
}

/// A shown key frame of so many bits, coded with this target, or only tried.
fn key(bits: i64, target: i64, trial: bool) -> Step<'static> {
    Step::Update(Frame {
        bits,
        fti: 0,
        shown: true,
        target,
        trial,
        droppable: false,
    })
}

/// A bitrate of 30,000.
const SLOW: Start = Start {
    bitrate: 30_000,
    ..PLAIN
};

#[test]
fn the_reservoir_after_the_first_frame(rt: HostRuntime) -> Result<(), Fail> {
    let dropped = Frame {
        bits: 0,
        fti: 1,
        shown: false,
        target: 0,
        trial: false,
        droppable: true,
    };
    let rows = [
        (Step::Ready, "true"),
        (Step::Reservoir, "118080"),
        (Step::Most, "236160"),
        (Step::TrialDue(0), "true"),
        (key(800, 0, true), "false"),
        (Step::Reservoir, "118080"),
        (key(800, 0, false), "false"),
        (Step::TrialDue(0), "false"),
        (Step::Reservoir, "118264"),
        (Step::Update(dropped), "true"),
        (Step::Reservoir, "118264"),
    ];
    let mut controller = started(&rt, rt.alloc(), &SLOW)?;
    follow(&rt, rt.alloc(), &mut controller, &rows)
}

#[test]
fn no_bitrate(rt: HostRuntime) -> Result<(), Fail> {
    let alloc = rt.alloc();
    let rows = [
        (Step::TrialDue(0), "false"),
        (Step::Index(0), "76 None"),
        (Step::Index(1), "111 None"),
        (Step::Index(2), "148 None"),
        (Step::Index(3), "196 None"),
        (key(0, 0, false), "false"),
        (Step::Ask, "0"),
        (Step::Give(&SUMMARY), "0"),
        (Step::Ready, "true"),
        (Step::Out(true), "nothing"),
    ];
    for delay in [None, Some(12)] {
        let mut controller = started(&rt, alloc, &Start { delay, ..PLAIN })?;
        let before = controller.state.reservoir();
        follow(&rt, alloc, &mut controller, &rows)?;
        assert_eq!(rt; controller.state.reservoir(), before);
    }
    Ok(())
}

#[test]
fn a_first_pass_of_one_frame(rt: HostRuntime) -> Result<(), Fail> {
    let alloc = rt.alloc();
    let start = Start {
        greatest: Some(100),
        guess: GOP,
        ..SLOW
    };
    let target = 892_436_882_446_013_672;
    for last in [Step::Out(true), Step::SummaryAgain] {
        let rows = [
            (Step::FirstPass, "begun"),
            (Step::Ready, "true"),
            (Step::Base(0, 1 << 57), "949066041771674628"),
            (Step::Searched(0, 1 << 57), "None 892436882446013672"),
            (key(800, target, true), "false"),
            (key(800, target, false), "false"),
            (Step::Ready, "false"),
            (Step::Out(false), "[0, 0, 0, 128, 25, 140, 221, 254]"),
            (Step::Ready, "true"),
            (Step::FrameData, "nothing"),
            (Step::Out(false), "nothing"),
            (
                last,
                "1 [1, 0, 0, 0, 0] [77, 83, 68, 61] [7641471, 0, 0, 0] 1",
            ),
            (Step::Out(true), "nothing"),
        ];
        let mut controller = started(&rt, alloc, &start)?;
        follow(&rt, alloc, &mut controller, &rows)?;
    }
    Ok(())
}

#[test]
fn a_second_pass_byte_by_byte(rt: HostRuntime) -> Result<(), Fail> {
    let alloc = rt.alloc();
    let start = Start {
        greatest: Some(100),
        guess: KEY,
        ..SLOW
    };
    let mut controller = started(&rt, alloc, &start)?;
    follow(
        &rt,
        alloc,
        &mut controller,
        &[(Step::Ask, "76"), (Step::Ready, "false")],
    )?;
    for byte in SUMMARY {
        let rows = [(Step::Ask, "76"), (Step::Give(&[byte]), "1")];
        follow(&rt, alloc, &mut controller, &rows)?;
    }
    let rows = [(Step::Reservoir, "492"), (Step::Most, "984")];
    follow(&rt, alloc, &mut controller, &rows)?;
    for (byte, wanted) in PACKET.iter().zip(["8", "7", "6", "5", "4", "3", "2", "1"]) {
        let rows = [(Step::Ask, wanted), (Step::Give(&[*byte]), "1")];
        follow(&rt, alloc, &mut controller, &rows)?;
    }
    let rows = [
        (Step::Ask, "0"),
        (Step::Give(&PACKET), "0"),
        (Step::Ready, "true"),
        (Step::Send(&PACKET), "no frame data is needed"),
        (Step::Send(&[0]), "a packet of 1 bytes (expected 8)"),
        (Step::Searched(0, 0), "Some(-1) -56629159325661976"),
        (Step::Base(0, 0), "-1"),
        (key(800, 0, false), "false"),
        (Step::Reservoir, "676"),
        (Step::Ready, "false"),
        (Step::FramesNeeded, "0"),
    ];
    follow(&rt, alloc, &mut controller, &rows)
}

/// The metrics of frames ahead, whose last key frame is the eleventh. Twelve of them are shown.
const AHEAD: [[u8; 8]; 14] = [
    [0, 0, 0, 128, 0, 0, 0, 1],
    [1, 0, 0, 0, 0, 0, 128, 1],
    [2, 0, 0, 0, 0, 0, 128, 0],
    [3, 0, 0, 128, 0, 0, 192, 255],
    [4, 0, 0, 128, 0, 0, 0, 0],
    [3, 0, 0, 128, 0, 0, 192, 255],
    [4, 0, 0, 128, 0, 0, 0, 0],
    [0, 0, 0, 128, 0, 0, 64, 1],
    [1, 0, 0, 128, 0, 0, 0, 1],
    [1, 0, 0, 128, 0, 0, 128, 0],
    [0, 0, 0, 128, 0, 0, 0, 1],
    [1, 0, 0, 128, 0, 0, 0, 0],
    [1, 0, 0, 128, 0, 0, 64, 0],
    [1, 0, 0, 128, 0, 0, 0, 255],
];

/// A summary of 12 temporal units, the metrics ahead, and those of one frame more.
fn bytes_ahead(alloc: Global) -> Result<Vec<u8>, Fail> {
    let mut bytes = Vec::new(alloc);
    bytes.extend_from_slice(&summary_of(12, 40))?;
    for packet in AHEAD {
        bytes.extend_from_slice(&packet)?;
    }
    bytes.extend_from_slice(&PACKET)?;
    Ok(bytes)
}

/// Gives the bytes in pieces of at most `size`, and counts those that are taken.
fn give_pieces(
    rt: &impl Abort,
    controller: &mut Controller,
    bytes: &[u8],
    size: usize,
) -> Result<usize, Fail> {
    assert!(rt; 0 < size);
    let mut taken = 0_usize;
    for piece in bytes.chunks(size) {
        taken = taken.wrapping_add(controller.give(Some(piece))?);
    }
    Ok(taken)
}

#[test]
fn pieces_of_any_size(rt: HostRuntime) -> Result<(), Fail> {
    let alloc = rt.alloc();
    let start = Start {
        bitrate: 3_000_000,
        delay: Some(12),
        guess: GOP,
        ..PLAIN
    };
    let target = 303_855_073_689_535_720;
    let rows = [
        (Step::Reservoir, "599904"),
        (Step::Most, "1199808"),
        (Step::Ready, "true"),
        (Step::FramesNeeded, "0"),
        (
            Step::Searched(0, 0),
            "Some(360484233015197695) 303855073689535720",
        ),
        (
            Step::Searched(2, 0),
            "Some(480608263887427584) 537237423213091608",
        ),
        (key(60_000, target, true), "false"),
        (Step::Ready, "true"),
        (key(60_000, target, false), "false"),
        (Step::Ready, "false"),
        (Step::FramesNeeded, "1"),
    ];
    let bytes = bytes_ahead(alloc)?;
    for size in [1, 7, 8, 68, 200] {
        let mut controller = started(&rt, alloc, &start)?;
        let taken = give_pieces(&rt, &mut controller, &bytes, size)?;
        assert_eq!(rt; taken, 68 + 14 * 8);
        follow(&rt, alloc, &mut controller, &rows)?;
    }
    Ok(())
}

const TOO_MANY: &str = "too many frames for the temporal units of the reservoir";

#[test]
fn a_window_of_32_is_full(rt: HostRuntime) -> Result<(), Fail> {
    let alloc = rt.alloc();
    let start = Start {
        delay: Some(12),
        ..SLOW
    };
    let mut controller = started(&rt, alloc, &start)?;
    let summary = summary_of(12, 40);
    let rows = [(Step::Ask, "164"), (Step::Give(&summary), "68")];
    follow(&rt, alloc, &mut controller, &rows)?;
    for _ in 0..32_u8 {
        let rows = [(Step::Send(&HIDDEN), "sent"), (Step::Ready, "false")];
        follow(&rt, alloc, &mut controller, &rows)?;
    }
    let rows = [(Step::FramesNeeded, "8"), (Step::Send(&HIDDEN), TOO_MANY)];
    follow(&rt, alloc, &mut controller, &rows)
}

#[test]
fn a_delay_is_cut_to_the_file(rt: HostRuntime) -> Result<(), Fail> {
    let start = Start {
        delay: Some(12),
        ..SLOW
    };
    let summary = summary_of(3, 5);
    let rows = [
        (Step::SecondPass, "begun"),
        (Step::SetUp(&summary), "set up"),
        (Step::Most, "11808"),
        (Step::FramesNeeded, "3"),
        (Step::Ask, "24"),
        (Step::Send(&HIDDEN), "sent"),
        (Step::Send(&PACKET), "sent"),
        (Step::Send(&PACKET), "sent"),
        (Step::FramesNeeded, "1"),
        (Step::Send(&HIDDEN), "sent"),
        (Step::Send(&HIDDEN), "sent"),
        (Step::FramesNeeded, "0"),
        (Step::Ready, "true"),
        (Step::Send(&PACKET), "no frame data is needed"),
    ];
    let mut controller = started(&rt, rt.alloc(), &start)?;
    follow(&rt, rt.alloc(), &mut controller, &rows)
}

#[test]
fn damaged_summaries(rt: HostRuntime) -> Result<(), Fail> {
    let alloc = rt.alloc();
    let rows = [
        (
            4,
            2,
            "The summary content is invalid: Version number mismatch",
        ),
        (
            8,
            0,
            "The summary content is invalid: No TUs found in first pass summary",
        ),
        (
            19,
            0x80,
            "The summary content is invalid: Got negative frame count",
        ),
        (8, 2, "The summary content is invalid: More TUs than frames"),
        (32, 0, "The summary content is invalid: Zero exponent"),
        (
            43,
            0x80,
            "The summary content is invalid: Got negative scale sum",
        ),
    ];
    for (place, byte, refusal) in rows {
        let summary = damaged(place, &[byte]);
        let mut controller = started(&rt, alloc, &SLOW)?;
        let rows = [(Step::Give(&summary), refusal), (Step::Ask, "76")];
        follow(&rt, alloc, &mut controller, &rows)?;
    }
    Ok(())
}
