//! Codes 48 frames in eight jobs side by side, with a coder that works for each frame: on one worker, and on four. Prints what came
//! of it, which is the same for both. Where it is given a number, the coder works so many rounds for each frame, and it is
//! printed besides how long the jobs took, and what the bytes sum to.
#![tactic(auto)]

mod busy_coder;

ghost use Rattle.std.specs.Prelude.{All, IsTrue};
ghost use Rattle.av1_frame.specs.Planes.{fits};

use anyhow::{Result, anyhow};
use av1_frame::{ChromaSampling, Frame};
use av1_settings::{Config, EncoderConfig};
use busy_coder::BusyMaker;
use gop_board::{OpenGate, PacketList, encode_gops};
use scripted::{ScriptedDetector, no_levels, scripted_tables};
use std::alloc::Global;
use std::env;
use std::sync::{Arc, Wait};
use std::thread::Threads;
use std::time::Instant;

const FRAMES: usize = 48;

const CUTS: [u64; 7] = [6, 12, 18, 24, 30, 36, 42];

// The rounds where none are named.
const ROUNDS: u64 = 100;

fn settings() -> EncoderConfig {
    let mut enc = EncoderConfig::default();
    enc.width = 16;
    enc.height = 16;
    enc
}

/// So many frames, which share one picture.
fn frames(alloc: Global) -> Result<Vec<Arc<Frame<u8>>>> {
    let picture = Arc::new(alloc, Frame::new(alloc, 16, 16, ChromaSampling::Cs420)?)?;
    let mut frames = Vec::new(alloc);
    for _ in 0..FRAMES {
        frames.push(Arc::try_clone(&picture)?)?;
    }
    Ok(frames)
}

fn all_fit(enc: &EncoderConfig, frames: &[Arc<Frame<u8>>]) -> bool
    ensures { IsTrue result → All (λ frame. IsTrue (fits frame.value enc.now.width enc.now.height
        enc.now.chroma_sampling)) frames.now }
{
    frames.iter().all(|frame| frame.fits(enc.width, enc.height, enc.chroma_sampling))
}

/// The packets of all jobs, on so many workers.
fn encode<R: AllocGlobal + Threads + Wait + Sync>(
    rt: &R,
    rounds: u64,
    workers: usize,
) -> Result<PacketList<u8>> {
    let alloc = rt.alloc();
    let cfg = Config::new().with_encoder_config(settings());
    let frames = frames(alloc)?;
    if frames.len() > 1000 || !all_fit(&cfg.enc, &frames) {
        return Err(anyhow!("the frames don't fit"));
    }
    let mut detector = ScriptedDetector::new(alloc, &CUTS)?;
    let maker = BusyMaker { rounds };
    match encode_gops(
        rt,
        alloc,
        &cfg,
        &no_levels(),
        &scripted_tables(),
        frames,
        &mut detector,
        &maker,
        workers,
        &OpenGate,
    ) {
        Ok(packets) => Ok(packets),
        Err(_) => Err(anyhow!("the frames weren't coded")),
    }
}

/// How many bytes packets have, and the sum of these.
fn totals(packets: &PacketList<u8>) -> (u64, u64) {
    let mut count = 0u64;
    let mut sum = 0u64;
    for packet in packets.as_slice() {
        for byte in packet.bytes.as_slice() {
            count = count.saturating_add(1);
            sum = sum.saturating_add(u64::from(*byte));
        }
    }
    (count, sum)
}

fn main(rt: HostRuntime) -> Result<()> {
    let number = match env::args(&rt)?.nth(1) {
        Some(word) => Some(word.parse::<u64>()?),
        None => None,
    };
    for workers in [1, 4] {
        let start = Instant::now(&rt)?;
        let packets = encode(&rt, number.unwrap_or(ROUNDS), workers)?;
        let time = start.elapsed(&rt)?.as_millis();
        let (bytes, sum) = totals(&packets);
        let count = packets.len();
        println!(rt; "{workers} workers: {count} packets of {bytes} bytes")?;
        if number.is_some() {
            println!(rt; "{time} ms, and the bytes sum to {sum}")?;
        }
    }
    Ok(())
}
