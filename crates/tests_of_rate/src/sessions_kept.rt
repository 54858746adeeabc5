//! Rate control that goes by the log of a session, in one pass, in a first and in a second.

ghost use Rattle.std.specs.Prelude.{◌≡◌, true, IfOk};
ghost use Rattle.pyramid.specs.Known.{is_coding};

use crate::controlled_passes::{told_bytes, told_data};
use crate::controllers::{Always, GOP, NOTHING};
use crate::quantiser_tables::tables;
use av1_settings::{Config, EncoderConfig, FrameType, LevelRow, LevelTables};
use coding_base::Bytes;
use pass_stats::parse_summary;
use pyramid::{Command, Refs};
use session_log::{LogEntry, QuantizerParameters, SessionRate};
use std::alloc::Global;
use std::process::Abort;
use std::test::Fail;

/// The data of a shown key frame of 100 bytes, in a first pass of one frame.
const DATA: [u8; 8] = [0, 0, 0, 0x80, 0x19, 0x8c, 0xdd, 0xfe];

/// The summary of that pass.
const SUMMARY: [u8; 68] = [
    0x56, 0x41, 0x32, 0x50, 1, 0, 0, 0, 1, 0, 0, 0, 1, 0, 0, 0, 0, 0, 0, 0, 0, 0, 0, 0, 0, 0, 0, 0,
    0, 0, 0, 0, 0x4d, 0x53, 0x44, 0x3d, 0x7f, 0x99, 0x74, 0, 0, 0, 0, 0, 0, 0, 0, 0, 0, 0, 0, 0, 0,
    0, 0, 0, 0, 0, 0, 0, 0, 0, 0, 0, 0, 0, 0, 0,
];

/// Tables that define no level.
fn no_levels() -> LevelTables {
    let row = LevelRow {
        defined: false,
        max_pic_size: 0,
        max_h_size: 0,
        max_v_size: 0,
        max_display_rate: 0,
    };
    LevelTables::new([row; 31])
}

/// The default settings, 640 x 480 at 30 frames a second, with this bitrate.
fn rate_of(alloc: Global, bitrate: i32) -> Result<SessionRate, Fail> {
    let mut enc = EncoderConfig::default();
    enc.bitrate = bitrate;
    let config = Config::new().with_encoder_config(enc);
    config.validate(&no_levels())?;
    Ok(SessionRate::new(alloc, &config.enc, &tables()?))
}

/// What is asked of a session's rate control, or done to it.
#[derive(Clone, Copy)]
enum Step<'a> {
    TrialDue(FrameType, u8),
    TrialDueForShow,
    Index(FrameType, u8),
    Reservoir,
    StateReservoir,
    Code(Always),
    Try(Always),
    FirstPass,
    SecondPass,
    FramesNeeded,
    BytesNeeded,
    GiveBytes(&'a [u8]),
    Send(&'a [u8]),
    Ready,
    GivesFrame,
    Data(bool),
}

fn coding(kind: FrameType, refresh: u8) -> Result<Command, Fail>
    ensures { IfOk result (λ command. is_coding command ≡ true) }
{
    Ok(Command::Code {
        frame: 0,
        kind,
        refs: Refs::new(&[]).ok_or("no slots")?,
        refresh,
        shown: true,
    })
}

fn selected(
    rate: &SessionRate,
    guess: &Always,
    kind: FrameType,
    refresh: u8,
) -> Result<(Command, QuantizerParameters), Fail> {
    let command = coding(kind, refresh)?;
    let parameters = rate.select(guess, &command, 0);
    Ok((command, parameters))
}

/// Has a key frame of 100 bytes coded, or only tried, and tells whether it is shown.
fn code(alloc: Global, rate: &mut SessionRate, guess: &Always, trial: bool) -> Result<bool, Fail> {
    let (command, parameters) = selected(rate, guess, FrameType::KEY, 255)?;
    let entry = LogEntry {
        command,
        trial,
        bytes: Bytes::from_vec(vec![in alloc; 7_u8; 100]?),
        quant: Some(parameters),
        mean_scale: 0,
    };
    rate.note(&entry);
    Ok(entry.is_showing())
}

/// The answer to a step.
fn told(alloc: Global, rate: &mut SessionRate, step: Step<'_>) -> Result<String, Fail> {
    match step {
        Step::TrialDue(kind, refresh) => told_flag(
            alloc,
            rate.is_trial_due(&coding(kind, refresh)?),
        ),
        Step::TrialDueForShow => told_flag(alloc, rate.is_trial_due(&Command::Show { slot: 4 })),
        Step::Index(kind, refresh) => {
            let (_, parameters) = selected(rate, &NOTHING, kind, refresh)?;
            Ok(parameters.ac_qi[0].to_string(alloc)?)
        }
        Step::Reservoir => Ok(format!(in alloc; "{:?}", rate.reservoir())?),
        Step::StateReservoir => Ok(rate.state().reservoir().to_string(alloc)?),
        Step::Code(guess) => told_flag(alloc, code(alloc, rate, &guess, false)?),
        Step::Try(guess) => told_flag(alloc, code(alloc, rate, &guess, true)?),
        _ => told_pass(alloc, rate, step),
    }
}

fn told_flag(alloc: Global, flag: bool) -> Result<String, Fail> {
    Ok(flag.to_string(alloc)?)
}

/// The answer to a step of a pass.
fn told_pass(alloc: Global, rate: &mut SessionRate, step: Step<'_>) -> Result<String, Fail> {
    match step {
        Step::FirstPass => {
            rate.begin_first_pass(&GOP);
            Ok("begun".to_string(alloc)?)
        }
        Step::SecondPass => {
            rate.begin_second_pass(&parse_summary(&SUMMARY)?)?;
            Ok("begun".to_string(alloc)?)
        }
        Step::FramesNeeded => Ok(rate.frames_needed().to_string(alloc)?),
        Step::BytesNeeded => told_bytes(alloc, rate.bytes_needed()),
        Step::GiveBytes(bytes) => told_bytes(alloc, rate.give_bytes(bytes)),
        Step::Send(bytes) => told_bytes(alloc, rate.send_packet(bytes).map(|_| 0)),
        Step::Ready => told_flag(alloc, rate.is_ready()),
        Step::Data(done) => told_data(alloc, rate.take_data(done)),
        _ => told_flag(alloc, rate.gives_frame()),
    }
}

const WITHOUT_BITRATE: &[(Step<'static>, &str)] = &[
    (Step::TrialDue(FrameType::KEY, 255), "false"),
    (Step::TrialDue(FrameType::INTER, 1), "false"),
    (Step::TrialDue(FrameType::INTER, 16), "false"),
    (Step::TrialDue(FrameType::INTER, 32), "false"),
    (Step::Index(FrameType::KEY, 255), "76"),
    (Step::Index(FrameType::INTER, 1), "111"),
    (Step::Index(FrameType::INTER, 16), "148"),
    (Step::Index(FrameType::INTER, 32), "196"),
    (Step::Reservoir, "None"),
];

const FIRST_KEY: &[(Step<'static>, &str)] = &[
    (Step::TrialDue(FrameType::KEY, 255), "true"),
    (Step::TrialDueForShow, "false"),
    (Step::Reservoir, "Some(118080)"),
    (Step::Code(NOTHING), "true"),
    (Step::TrialDue(FrameType::KEY, 255), "false"),
    (Step::Reservoir, "Some(118264)"),
    (Step::StateReservoir, "118264"),
];

const FIRST_PASS: &[(Step<'static>, &str)] = &[
    (Step::FirstPass, "begun"),
    (Step::Ready, "true"),
    (Step::Try(GOP), "true"),
    (Step::Code(GOP), "true"),
    (Step::Ready, "false"),
    (Step::GivesFrame, "true"),
    (Step::GivesFrame, "true"),
    (Step::Data(false), "[0, 0, 0, 128, 25, 140, 221, 254]"),
    (Step::Ready, "true"),
    (Step::Data(false), "nothing"),
    (
        Step::Data(true),
        "1 [1, 0, 0, 0, 0] [77, 83, 68, 61] [7641471, 0, 0, 0] 1",
    ),
    (Step::Data(true), "nothing"),
];

const SECOND_PASS: &[(Step<'static>, &str)] = &[
    (Step::SecondPass, "begun"),
    (Step::FramesNeeded, "1"),
    (Step::BytesNeeded, "8"),
    (Step::GiveBytes(&DATA), "8"),
    (Step::BytesNeeded, "0"),
    (Step::Send(&DATA), "no frame data is needed"),
    (Step::Try(GOP), "true"),
    (Step::Ready, "true"),
    (Step::Code(GOP), "true"),
    (Step::Ready, "false"),
];

/// Takes the steps, and compares what is told of each.
fn follow(
    rt: &impl Abort,
    alloc: Global,
    rate: &mut SessionRate,
    rows: &[(Step<'_>, &str)],
) -> Result<(), Fail> {
    for (row, (step, expected)) in rows.iter().enumerate() {
        let told = told(alloc, rate, *step)?;
        assert_eq!(rt; told.as_str(), *expected, "in row {row}");
    }
    Ok(())
}

#[test]
fn steps_of_sessions(rt: HostRuntime) -> Result<(), Fail> {
    let alloc = rt.alloc();
    for (bitrate, rows) in [
        (0, WITHOUT_BITRATE),
        (30_000, FIRST_KEY),
        (30_000, FIRST_PASS),
        (30_000, SECOND_PASS),
    ] {
        follow(&rt, alloc, &mut rate_of(alloc, bitrate)?, rows)?;
    }
    Ok(())
}
