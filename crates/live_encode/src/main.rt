//! A live encoder: the session runs on a thread of its own, frames go in on another, and packets are written as they come back.
#![tactic(auto)]

use anyhow::{Result, anyhow};
use av1_settings::Config;
use scripted::{ScriptedCoder, no_levels, scripted_tables};
use session_channels::{NewChannel, TryRecvError, TrySendError, VideoDataChannel as Video};
use session_core::{NoDetector, NoScale};
use std::alloc::Global;
use std::sync::{Arc, Wait};
use std::thread;

/// Sends ten frames, and writes the packets. While there is no room for a frame, it looks for packets.
fn write<R: Wait + Print + Copy>(rt: R, alloc: Global, ends: &mut Video<u8, (), R>) -> Result<()> {
    let (sender, receiver) = ends;
    for _ in 0..10 {
        let mut frame = Some(Arc::new(alloc, sender.new_frame(alloc)?)?);
        for _ in rt.forever() {
            match sender.try_send(alloc, frame) {
                Ok(()) => break,
                Err(TrySendError::Full(message)) => frame = message.0,
                Err(error) => return Err(error.into()),
            }
            match receiver.try_recv() {
                Ok(packet) => println!(rt; "{packet}")?,
                Err(TryRecvError::Empty) => thread::yield_now(),
                Err(error) => return Err(error.into()),
            }
        }
    }
    sender.send(alloc, None)?;
    for _ in rt.forever() {
        let Ok(packet) = receiver.recv() else { break };
        println!(rt; "{packet}")?;
    }
    Ok(())
}

fn encode<R: Wait + Print + Copy>(rt: R, alloc: Global, mut ends: Video<u8, (), R>) -> Result<()> {
    let written = write(rt, alloc, &mut ends);
    ends.0.close();
    written
}

fn main(rt: HostRuntime) -> Result<()> {
    let alloc = rt.alloc();
    let mut cfg = Config::new();
    (cfg.enc.width, cfg.enc.height) = (64, 80);
    cfg.enc.set_key_frame_interval(0, 5);
    cfg.enc.speed_settings.rdo_lookahead_frames = 2;
    let (levels, tables, coder) = (no_levels(), scripted_tables(), ScriptedCoder::new(alloc));
    let (ends, mut worker) = cfg.new_channel(
        &rt, alloc, &levels, &tables, NoDetector, NoScale, coder,
    )?;
    let work = || !worker.has_run() && worker.run(alloc).is_ok();
    let (written, worked) = thread::join(&rt, || encode(&rt, alloc, ends), work);
    written?;
    worked.then_some(()).ok_or(anyhow!("the worker failed"))
}
