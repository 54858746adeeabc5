//! Lists of calls that `run_session` carries out.

use crate::rows::{ROWS, Row, Told};
use crate::settings::{parameters, picture, settings};
use crate::sized_coder::{LargeScales, NotingDetector, SizedCoder};
use av1_frame::{ChromaSampling, Frame};
use av1_settings::{Config, EncoderConfig, EncoderStatus, SceneDetectionSpeed};
use coding_base::OutOfMemory;
use scripted::{no_levels, scripted_tables};
use session_core::{
    Call, Detector, FrameCoder, MeanScale, NoDetector, NoScale, Reply, SessionError, Transcript,
    run_session,
};
use std::alloc::Global;
use std::sync::Arc;
use std::test::Fail;

fn run<D: Detector<u16>, S: MeanScale<u16>>(
    alloc: Global,
    enc: EncoderConfig,
    detector: &mut D,
    scales: &mut S,
    coder: &mut SizedCoder,
    calls: Vec<Call<u16, u64>>,
) -> Result<Transcript<u16, u64>, SessionError> {
    run_session(
        alloc,
        &Config::new().with_encoder_config(enc),
        &no_levels(),
        &scripted_tables(),
        detector,
        scales,
        coder,
        calls,
    )
}

// In each round so many sends and then so many receives; then a flush, and receives.
// The frame `forced` is sent as a key.
fn calls_of(
    alloc: Global,
    forced: u64,
    rounds: &[(u64, u64)],
    receives: u64,
) -> Result<Vec<Call<u16, u64>>, OutOfMemory> {
    let mut calls = Vec::new(alloc);
    let picture = picture(alloc)?;
    let mut number: u64 = 0;
    for (sends, between) in rounds {
        for _ in 0..*sends {
            let sent = parameters(alloc, number, number > 0 && number == forced);
            calls.push(Call::Send(Arc::try_clone(&picture)?, Some(sent)))?;
            number = number.saturating_add(1);
        }
        for _ in 0..*between {
            calls.push(Call::Receive)?;
        }
    }
    calls.push(Call::Flush)?;
    for _ in 0..receives {
        calls.push(Call::Receive)?;
    }
    Ok(calls)
}

// Adds a word behind those that stand there.
fn add(text: &mut String, word: &str) -> Result<(), Fail> {
    if !text.is_empty() {
        text.push_str(" ")?;
    }
    text.push_str(word)?;
    Ok(())
}

// The reply to a receive as a number; a packet with another frame's value is none.
fn number_of(reply: &Reply<u16, u64>) -> Option<usize> {
    match reply {
        Reply::Packet(packet) if packet.opaque == Some(packet.input_frameno) => {
            Some(packet.bytes.len())
        }
        Reply::Status(EncoderStatus::NeedMoreData) => Some(0),
        Reply::Status(EncoderStatus::Encoded) => Some(1),
        Reply::Status(EncoderStatus::LimitReached) => Some(2),
        _ => None,
    }
}

fn replies(alloc: Global, transcript: &Transcript<u16, u64>) -> Result<String, Fail> {
    let mut text = String::new(alloc);
    for turn in transcript.turns.as_slice() {
        if let Some(number) = number_of(&turn.reply) {
            add(&mut text, format!(in alloc; "{number}")?.as_str())?;
        }
    }
    Ok(text)
}

fn indices(alloc: Global, transcript: &Transcript<u16, u64>) -> Result<String, Fail> {
    let mut text = String::new(alloc);
    for turn in transcript.turns.as_slice() {
        if let Reply::Packet(packet) = &turn.reply {
            let index = packet.qp;
            add(&mut text, format!(in alloc; "{index}")?.as_str())?;
        }
    }
    Ok(text)
}

fn questions(alloc: Global, detector: &NotingDetector) -> Result<String, Fail> {
    let mut text = String::new(alloc);
    for (position, last_key, frames) in detector.notes.as_slice() {
        add(
            &mut text,
            format!(in alloc; "{position}/{last_key}/{frames}")?.as_str(),
        )?;
    }
    Ok(text)
}

fn keys(alloc: Global, transcript: &Transcript<u16, u64>) -> Result<String, Fail> {
    let mut text = String::new(alloc);
    for decision in transcript.decisions.as_slice() {
        add(&mut text, if decision.key { "true" } else { "false" })?;
    }
    Ok(text)
}

// How many turns tell a reservoir.
fn reservoirs(transcript: &Transcript<u16, u64>) -> usize {
    transcript
        .turns
        .as_slice()
        .iter()
        .filter(|turn| turn.reservoir.is_some())
        .count()
}

fn settings_of(row: &Row) -> EncoderConfig {
    let mut enc = settings(row.interval, row.rdo);
    if row.low_latency {
        enc.low_latency = true;
        enc.speed_settings.scene_detection_mode = SceneDetectionSpeed::Fast;
    }
    enc
}

#[test]
fn sessions_answer_as_their_rows(rt: HostRuntime) -> Result<(), Fail> {
    let alloc = rt.alloc();
    for row in &ROWS {
        let enc = settings_of(row);
        let mut detector = NotingDetector {
            mode: enc.speed_settings.scene_detection_mode,
            cuts: row.cuts,
            fails: 99,
            notes: Vec::new(alloc),
        };
        let mut coder = SizedCoder::new(alloc, 99);
        let calls = calls_of(alloc, row.forced, row.rounds, row.receives)?;
        let transcript = run(alloc, enc, &mut detector, &mut NoScale, &mut coder, calls)?;
        let name = row.name;
        assert_eq!(rt; reservoirs(&transcript), 0, "{name}");
        for (told, wanted) in row.wanted {
            let text = match told {
                Told::Replies => replies(alloc, &transcript)?,
                Told::Indices => indices(alloc, &transcript)?,
                Told::Questions => questions(alloc, &detector)?,
                Told::Keys => keys(alloc, &transcript)?,
            };
            assert_eq!(rt; text.as_str(), *wanted, "{name}");
        }
    }
    Ok(())
}

// Width, bitrate, the coder's call that fails, the detector's question without memory, receives between the sends and
// behind the flush, the text of the refusal, the coder's faults.
const REFUSALS: [(usize, i32, u64, usize, (u64, u64), &str, u64); 4] = [
    (
        15,
        0,
        99,
        99,
        (0, 15),
        "invalid configuration: invalid width 15 (expected >= 16, <= 65535)",
        0,
    ),
    (
        64,
        30000,
        1,
        99,
        (0, 15),
        "the coder failed at command 0",
        1,
    ),
    (64, 0, 3, 99, (0, 15), "the coder failed at command 3", 1),
    (64, 0, 99, 2, (1, 9), "out of memory", 0),
];

#[test]
fn each_refusal_has_its_answer(rt: HostRuntime) -> Result<(), Fail> {
    let alloc = rt.alloc();
    for (width, bitrate, fails, asked, (between, receives), wanted, faults) in REFUSALS {
        let mut enc = settings(100, 1);
        enc.width = width;
        enc.bitrate = bitrate;
        let mut detector = NotingDetector {
            mode: enc.speed_settings.scene_detection_mode,
            cuts: [0, 0],
            fails: asked,
            notes: Vec::new(alloc),
        };
        let mut coder = SizedCoder::new(alloc, fails);
        let calls = calls_of(alloc, 0, &[(8, between), (2, between)], receives)?;
        let answer = run(alloc, enc, &mut detector, &mut NoScale, &mut coder, calls);
        let error = answer.err().ok_or("it was answered")?;
        assert_eq!(rt; error.to_string(alloc)?.as_str(), wanted);
        assert_eq!(rt; coder.faults(), faults);
        assert!(rt; asked == 99 || detector.notes.len() == 2);
    }
    Ok(())
}

#[test]
fn refused_frames_change_nothing(rt: HostRuntime) -> Result<(), Fail> {
    let alloc = rt.alloc();
    let mut calls = Vec::new(alloc);
    let small_frame = Frame::new(alloc, 32, 32, ChromaSampling::Cs420)?;
    calls.push(Call::Send(Arc::new(alloc, small_frame)?, None))?;
    calls.append(&mut calls_of(alloc, 0, &[(2, 1)], 2)?)?;
    calls.append(&mut calls_of(alloc, 0, &[(1, 0)], 1)?)?;
    let mut enc = settings(100, 1);
    enc.still_picture = true;
    let mut coder = SizedCoder::new(alloc, 99);
    let transcript = run(alloc, enc, &mut NoDetector, &mut NoScale, &mut coder, calls)?;
    let mut text = String::new(alloc);
    for turn in transcript.turns.as_slice() {
        if let Reply::Status(status) = &turn.reply {
            writeln!(&mut text, "{status}")?;
        }
    }
    assert_eq!(rt;
        text.as_str(),
        "frame size mismatch\nenough data\nneed more data\nlimit reached\nenough data\nlimit reached\n"
    );
    assert_eq!(rt; transcript.turns.len(), 10);
    assert_eq!(rt; transcript.decisions.len(), 0);
    assert_eq!(rt; coder.calls, 1);
    Ok(())
}

// The lines of the packets, and how many pairs of packets are equal.
fn packets(alloc: Global, transcript: &Transcript<u16, u64>) -> Result<(String, u64), Fail> {
    let mut text = String::new(alloc);
    let mut alike: u64 = 0;
    for turn in transcript.turns.as_slice() {
        let Reply::Packet(packet) = &turn.reply else {
            continue;
        };
        writeln!(&mut text, "{packet}")?;
        for other in transcript.turns.as_slice() {
            if let Reply::Packet(second) = &other.reply {
                alike = alike.saturating_add((*packet == *second) as u64);
            }
        }
    }
    Ok((text, alike))
}

#[test]
fn packets_say_what_they_are(rt: HostRuntime) -> Result<(), Fail> {
    let alloc = rt.alloc();
    let mut coder = SizedCoder::new(alloc, 99);
    let calls = calls_of(alloc, 0, &[(3, 0)], 4)?;
    let enc = settings(100, 1);
    let transcript = run(alloc, enc, &mut NoDetector, &mut NoScale, &mut coder, calls)?;
    let (lines, alike) = packets(alloc, &transcript)?;
    assert_eq!(rt;
        lines.as_str(),
        "Frame 0 - Key frame - 102 bytes\nFrame 1 - Inter frame - 42 bytes\nFrame 2 - Inter frame - 5 bytes\n"
    );
    assert_eq!(rt; alike, 3);
    Ok(())
}

#[test]
fn a_bitrate_is_followed(rt: HostRuntime) -> Result<(), Fail> {
    let alloc = rt.alloc();
    let mut enc = settings(240, 1);
    enc.bitrate = 30000;
    let mut coder = SizedCoder::new(alloc, 99);
    let mut scales = LargeScales {
        numbers: Vec::new(alloc),
    };
    let calls = calls_of(alloc, 0, &[(1, 0)], 1)?;
    let transcript = run(alloc, enc, &mut NoDetector, &mut scales, &mut coder, calls)?;
    let mut text = String::new(alloc);
    for turn in transcript.turns.as_slice() {
        for entry in turn.log.as_slice() {
            let (trial, mean_scale) = (entry.trial, entry.mean_scale);
            writeln!(&mut text, "trial {trial} scale {mean_scale}")?;
        }
        let reservoir = turn.reservoir.ok_or("no reservoir")?;
        writeln!(&mut text, "reservoir {reservoir}")?;
    }
    // The scale is the greatest, 2^61.
    assert_eq!(rt;
        text.as_str(),
        "reservoir 118080\nreservoir 118080\ntrial true scale 2305843009213693952\n\
        trial false scale 2305843009213693952\nreservoir 118264\n"
    );
    assert_eq!(rt; coder.calls, 2);
    assert_eq!(rt; scales.numbers.as_slice(), [0].as_slice());
    Ok(())
}
