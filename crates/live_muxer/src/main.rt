//! The loop of a muxer over a session that is called live: frames go in, and each packet is written as soon as it is there.
#![tactic(auto)]

use anyhow::Result;
use av1_settings::{Config, EncoderConfig, EncoderStatus};
use scripted::{ScriptedCoder, no_levels, scripted_tables};
use session_core::{Context, NewContext, NoDetector, NoScale};
use std::alloc::Global;
use std::io::Print;

/// Writes the packets that there are by now.
fn write_packets(
    rt: &impl Print,
    alloc: Global,
    session: &mut Context<u8, u64, NoDetector, NoScale, ScriptedCoder>,
) -> Result<()> {
    for _ in 0..u64::MAX {
        match session.receive_packet(alloc) {
            Ok(packet) => println!(rt; "{packet}")?,
            Err(EncoderStatus::Encoded) => {}
            Err(EncoderStatus::NeedMoreData | EncoderStatus::LimitReached) => break,
            Err(status) => return Err(status.into()),
        }
    }
    Ok(())
}

fn main(rt: HostRuntime) -> Result<()> {
    let alloc = rt.alloc();
    let mut enc = EncoderConfig::default();
    enc.width = 64;
    enc.height = 80;
    enc.set_key_frame_interval(0, 5);
    enc.speed_settings.rdo_lookahead_frames = 10;
    let cfg = Config::new().with_encoder_config(enc);
    let mut session = cfg.new_context(
        alloc,
        &no_levels(),
        &scripted_tables(),
        NoDetector,
        NoScale,
        ScriptedCoder::new(alloc),
    )?;
    for _ in 0..10 {
        let frame = session.new_frame(alloc)?;
        session.send_frame(alloc, frame)?;
        write_packets(&rt, alloc, &mut session)?;
    }
    session.flush(alloc)?;
    write_packets(&rt, alloc, &mut session)
}
