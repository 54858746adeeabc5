// A run from a queue of frames to a queue of packets.
ghost use Rattle.std.specs.Prelude.{◌≡◌, ◌≤◌, None, All, IfOk, IsTrue, length, map};
ghost use Rattle.av1_frame.specs.Planes.{fits};
ghost use Rattle.av1_settings.specs.Checks.{session_refusal};
ghost use Rattle.session_core.specs.Told.{IsDetectorLater};
ghost use Rattle.gop_channel.specs.Driving.{AreCoded, Drives, PutsEnd, end_of};
ghost use Rattle.gop_channel.specs.Messages.{PutsPackets, SaidClosed, TakesAll};

use crate::GopEnd;
use crate::putting::{put_end, put_packets};
use crate::taking::{Taken, take_frames};
use av1_frame::{Frame, Pixel};
use av1_settings::{Config, EncoderStatus, LevelTables};
use coding_base::OutOfMemory;
use gop_board::{Gathered, JobFault, MakeSession, OpenGate, code_jobs, split_gops};
use session_channels::{ChannelFault, FrameMessage, PacketMessage, Put, Take};
use session_core::{Detector, QTables};
use std::alloc::Global;
use std::sync::{Arc, Wait};
use std::thread::Threads;

/// Takes frames until their queue is closed, splits them into jobs, codes these on as many workers as `slots` says, 0 being 1,
/// and puts the packets of all jobs in the order of the jobs, numbered anew from 0. The frames' parameters are ignored. At the
/// end the queue of packets is closed; that of frames never is.
///
/// A run that ends before all was coded puts its fault as the last message:
///
/// - FrameRefused where a frame is the second of a still picture or comes behind 2147483646 others (EnoughData), or else doesn't
///   fit the settings (FrameSizeMismatch). No further frame is taken, and the packets of the frames before it are put, up to the
///   first job whose coder fails.
/// - PacketsClosed where the queue of packets is closed, and no frame was refused.
/// - Coder of the least job whose coder failed, behind the packets of the jobs before it; the coder is kept.
/// - OutOfMemory.
pub fn drive_gops<
    H: Threads + Wait + Sync,
    T: Pixel,
    D: Detector<T>,
    M: MakeSession<T> + Sync,
    F: Take<FrameMessage<T, ()>>,
    P: Put<PacketMessage<T, ()>>,
>(
    rt: &H,
    alloc: Global,
    cfg: &Config,
    levels: &LevelTables,
    tables: &QTables,
    detector: &mut D,
    maker: &M,
    frames: &mut F,
    packets: &mut P,
    slots: usize,
) -> Result<(), GopEnd<M::Coder>>
where
    M::Scales: Send,
    M::Coder: Send,
    requires valid { session_refusal T.BITS levels.now cfg.now ≡ None }
    requires unlimited { (P.queue packets.old).capacity ≡ None }

    // What was taken, coded and put, and why it ended so.
    ensures drives { Drives (record {
      enc = cfg.now.enc;
      tables = tables.now;
      ahead = M.told maker.now;
      told = M.Coder.told;
      before = D.told detector.old;
      after = D.told detector.new;
    }) (TakesAll F.contents F.queue frames.old frames.new)
        (PutsEnd P.contents P.queue packets.old packets.new result)
        (SaidClosed (F.queue frames.old) (F.queue frames.new))
        (SaidClosed (P.queue packets.old) (P.queue packets.new)) result }

    // What the detector tells goes on.
    ensures later { IsDetectorLater (D.told detector.old) (D.told detector.new) }
{
    let ended = run::<H, T, D, M, F, P>(
        rt, alloc, cfg, levels, tables, detector, maker, frames, packets, slots,
    );
    put_end(packets, &ended);
    ended
}

// Takes and codes the frames, and puts their packets.
fn run<
    H: Threads + Wait + Sync,
    T: Pixel,
    D: Detector<T>,
    M: MakeSession<T> + Sync,
    F: Take<FrameMessage<T, ()>>,
    P: Put<PacketMessage<T, ()>>,
>(
    rt: &H,
    alloc: Global,
    cfg: &Config,
    levels: &LevelTables,
    tables: &QTables,
    detector: &mut D,
    maker: &M,
    frames: &mut F,
    packets: &mut P,
    slots: usize,
) -> Result<(), GopEnd<M::Coder>>
where
    M::Scales: Send,
    M::Coder: Send,
    requires valid { session_refusal T.BITS levels.now cfg.now ≡ None }
    requires unlimited { (P.queue packets.old).capacity ≡ None }
    ensures drives { Drives (record {
      enc = cfg.now.enc;
      tables = tables.now;
      ahead = M.told maker.now;
      told = M.Coder.told;
      before = D.told detector.old;
      after = D.told detector.new;
    }) (TakesAll F.contents F.queue frames.old frames.new)
        (PutsPackets P.contents P.queue packets.old packets.new)
        (SaidClosed (F.queue frames.old) (F.queue frames.new))
        (SaidClosed (P.queue packets.old) (P.queue packets.new)) result }
    ensures later { IsDetectorLater (D.told detector.old) (D.told detector.new) }
{
    let Ok(taken) = take_frames(alloc, &cfg.enc, frames) else {
        return GopEnd::by(ChannelFault::OutOfMemory);
    };
    let Taken { frames, refused } = taken;
    let gathered = code_frames(
        rt, alloc, cfg, levels, tables, frames, detector, maker, slots,
    );
    let Ok(
        Gathered {
            packets: coded,
            fault,
        },
    ) = gathered
    else {
        return GopEnd::by(ChannelFault::OutOfMemory);
    };
    match put_packets(packets, coded) {
        Ok(all) => end_of(all, refused, fault),
        Err(OutOfMemory) => GopEnd::by(ChannelFault::OutOfMemory),
    }
}

// Codes the jobs that frames are split into.
fn code_frames<H: Threads + Wait + Sync, T: Pixel, D: Detector<T>, M: MakeSession<T> + Sync>(
    rt: &H,
    alloc: Global,
    cfg: &Config,
    levels: &LevelTables,
    tables: &QTables,
    frames: Vec<Arc<Frame<T>>>,
    detector: &mut D,
    maker: &M,
    slots: usize,
) -> Result<Gathered<T, M::Coder>, OutOfMemory>
where
    M::Scales: Send,
    M::Coder: Send,
    requires valid { session_refusal T.BITS levels.now cfg.now ≡ None }
    requires fit { All (λ frame. IsTrue (fits frame.value cfg.now.enc.width cfg.now.enc.height
        cfg.now.enc.chroma_sampling)) frames.items }
    requires few { length frames.items ≤ 2147483646 }
    ensures coded { IfOk result (AreCoded (record {
      enc = cfg.now.enc;
      tables = tables.now;
      ahead = M.told maker.now;
      told = M.Coder.told;
      before = D.told detector.old;
      after = D.told detector.new;
    }) (map (λ frame. frame.value) frames.items)) }
    ensures later { IsDetectorLater (D.told detector.old) (D.told detector.new) }
{
    let jobs = split_gops(alloc, cfg, frames, detector)?;
    code_jobs(
        rt, alloc, cfg, levels, tables, &jobs, maker, slots, &OpenGate,
    )
}

// How a run ends whose packets were all put or not, where a frame was refused so and a coder failed so.
fn end_of<C: Drop>(
    all: bool,
    refused: Option<EncoderStatus>,
    fault: Option<JobFault<C>>,
) -> Result<(), GopEnd<C>>
    ensures { result ≡ end_of all refused fault }
{
    if let Some(status) = refused {
        return GopEnd::by(ChannelFault::FrameRefused(status));
    }
    if !all {
        return GopEnd::by(ChannelFault::PacketsClosed);
    }
    match fault {
        None => Ok(()),
        Some(fault) => {
            let JobFault { command, coder, .. } = fault;
            Err(GopEnd {
                fault: ChannelFault::Coder { command },
                coder: Some(coder),
            })
        }
    }
}
