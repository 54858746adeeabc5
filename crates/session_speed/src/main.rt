//! Drives a session live: sends one frame after the other, and receives after each until more frames are wanted. Prints what came
//! of 20 frames. Where it is given a number, it sends that many, and prints besides how long a frame took; where it is given a
//! further word, the coder keeps nothing of what it gave.
#![tactic(auto)]

mod plain_coder;

use anyhow::Result;
use av1_settings::{Config, EncoderConfig, EncoderStatus};
use plain_coder::PlainCoder;
use scripted::{ScriptedCoder, no_levels, scripted_tables};
use session_core::{ContextInner, FrameCoder, NoDetector, NoScale};
use std::alloc::Global;
use std::env;
use std::sync::Arc;
use std::time::Instant;

type Session<C> = ContextInner<u8, u64, NoDetector, NoScale, C>;

/// What came of a session.
#[derive(Drop)]
struct Outcome {
    packets: u64,
    bytes: u64,
    /// The most frames that were held behind a send.
    frames: usize,
    /// The most places.
    places: usize,
}

fn settings(low_latency: bool) -> EncoderConfig {
    let mut enc = EncoderConfig::default();
    enc.width = 16;
    enc.height = 16;
    enc.low_latency = low_latency;
    enc.set_key_frame_interval(0, 240);
    enc.speed_settings.rdo_lookahead_frames = 10;
    enc
}

/// Receives what there is by now.
fn receive<C: FrameCoder<u8> + Drop>(
    alloc: Global,
    session: &mut Session<C>,
    outcome: &mut Outcome,
) -> Result<()> {
    for _ in 0..u64::MAX {
        match session.receive_packet(alloc) {
            Ok(packet) => {
                outcome.packets = outcome.packets.saturating_add(1);
                outcome.bytes = outcome.bytes.saturating_add(packet.bytes.len() as u64);
            }
            Err(EncoderStatus::Encoded) => {}
            Err(EncoderStatus::NeedMoreData | EncoderStatus::LimitReached) => break,
            Err(status) => return Err(status.into()),
        }
    }
    Ok(())
}

/// Sends so many frames, which share one picture.
fn run<C: FrameCoder<u8> + Drop>(
    alloc: Global,
    low_latency: bool,
    frames: u64,
    coder: C,
) -> Result<Outcome> {
    let cfg = Config::new().with_encoder_config(settings(low_latency));
    let mut session: Session<C> = ContextInner::new(
        alloc,
        &cfg,
        &no_levels(),
        &scripted_tables(),
        NoDetector,
        NoScale,
        coder,
    )?;
    let picture = Arc::new(alloc, session.new_frame(alloc)?)?;
    let mut outcome = Outcome {
        packets: 0,
        bytes: 0,
        frames: 0,
        places: 0,
    };
    for _ in 0..frames {
        session.send_frame(alloc, Some(Arc::try_clone(&picture)?), None)?;
        outcome.frames = outcome.frames.max(session.frames_held());
        outcome.places = outcome.places.max(session.places_held());
        receive(alloc, &mut session, &mut outcome)?;
    }
    session.flush(alloc)?;
    receive(alloc, &mut session, &mut outcome)?;
    Ok(outcome)
}

fn run_with(alloc: Global, low_latency: bool, frames: u64, plain: bool) -> Result<Outcome> {
    if plain {
        run(alloc, low_latency, frames, PlainCoder)
    } else {
        run(alloc, low_latency, frames, ScriptedCoder::new(alloc))
    }
}

fn report(rt: &HostRuntime, name: &str, outcome: &Outcome) -> Result<()> {
    let Outcome {
        packets,
        bytes,
        frames,
        places,
    } = *outcome;
    println!(rt;
        "{name}: {packets} packets of {bytes} bytes, at most {frames} frames and {places} places held"
    )?;
    Ok(())
}

fn main(rt: HostRuntime) -> Result<()> {
    let alloc = rt.alloc();
    let mut words = env::args(&rt)?.skip(1);
    let number = match words.next() {
        Some(word) => Some(word.parse::<u64>()?),
        None => None,
    };
    let frames = number.unwrap_or(20);
    let plain = words.next().is_some();
    for (name, low_latency) in [("depth 2", false), ("low latency", true)] {
        let start = Instant::now(&rt)?;
        let outcome = run_with(alloc, low_latency, frames, plain)?;
        let time = start.elapsed(&rt)?.as_nanos() / u128::from(frames.max(1));
        report(&rt, name, &outcome)?;
        if number.is_some() {
            println!(rt; "{time} ns a frame")?;
        }
    }
    Ok(())
}
