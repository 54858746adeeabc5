ghost use Rattle.std.specs.Prelude.{◌≡◌, None, false, true};
ghost use Rattle.session_core.specs.Told.{IsDetectorLater};
ghost use Rattle.gop_channel.specs.Driving.{Drives, PutsEnd};
ghost use Rattle.gop_channel.specs.Messages.{SaidClosed, TakesAll};
ghost use Rattle.gop_channel.specs.Working.{IsReady};

use crate::{GopEnd, drive_gops};
use av1_frame::Pixel;
use av1_settings::{Config, LevelTables};
use gop_board::MakeSession;
use session_channels::{FrameMessage, PacketMessage, SharedQueue};
use session_core::{Detector, QTables};
use std::alloc::Global;
use std::marker::Model;
use std::sync::Wait;
use std::thread::Threads;

/// What codes the frames of a channel as jobs, on threads that it starts and on the one that it is run on. Contracts see it as a
/// record (`Work`): what its jobs are coded with, the detector, how many jobs are coded at once, its ends of the queues of frames
/// and of packets, and whether it has run.
///
/// A worker that is dropped leaves its queues as they are, so that receivers wait until they are closed.
#[derive(Drop)]
pub struct GopWorker<'a, T: Pixel, D, M, R> {
    rt: R,
    cfg: Config,
    levels: &'a LevelTables,
    tables: QTables,
    detector: D,
    maker: M,
    slots: usize,
    frames: SharedQueue<FrameMessage<T, ()>, R>,
    packets: SharedQueue<PacketMessage<T, ()>, R>,
    has_run: bool,
}

impl<'a, T: Pixel, D, M, R> Model for GopWorker<'a, T, D, M, R> {
    ghost use Rattle.gop_channel.specs.Working.{IsReady, Work};

    ghost Value = { Work D M };

    ghost view = { λ w. record {
      cfg = w.cfg;
      levels = w.levels.now;
      tables = w.tables;
      detector = w.detector;
      maker = w.maker;
      slots = w.slots;
      frames = w.frames;
      packets = w.packets;
      has_run = w.has_run;
    } };

    ghost invariant = { λ w. IsReady T.BITS w.levels.now w.cfg w.packets };
}

impl<'a, T: Pixel, D, M, R> GopWorker<'a, T, D, M, R> {
    // A worker that hasn't run.
    pub(crate) fn new(
        rt: R,
        cfg: Config,
        levels: &'a LevelTables,
        tables: &QTables,
        detector: D,
        maker: M,
        slots: usize,
        frames: SharedQueue<FrameMessage<T, ()>, R>,
        packets: SharedQueue<PacketMessage<T, ()>, R>,
    ) -> GopWorker<'a, T, D, M, R>
        requires { IsReady T.BITS levels.now cfg packets }
        ensures { result ≡ record {
          cfg = cfg;
          levels = levels.now;
          tables = tables.now;
          detector = detector;
          maker = maker;
          slots = slots;
          frames = frames;
          packets = packets;
          has_run = false;
        } }
    {
        GopWorker {
            rt,
            cfg,
            levels,
            tables: *tables,
            detector,
            maker,
            slots,
            frames,
            packets,
            has_run: false,
        }
    }

    /// Whether it has run.
    pub fn has_run(&self) -> bool
        ensures { result ≡ self.now.has_run }
    {
        self.has_run
    }
}

impl<T: Pixel, D: Detector<T>, M: MakeSession<T> + Sync, R: Threads + Wait + Copy + Sync> GopWorker<
    '_,
    T,
    D,
    M,
    R,
>
where
    M::Scales: Send,
    M::Coder: Send,
{
    /// Codes the frames of the channel: [`drive_gops`] over its queues. It waits for frames until their queue is closed.
    pub fn run(&mut self, alloc: Global) -> Result<(), GopEnd<M::Coder>>
        requires { self.old.has_run ≡ false }
        ensures drives { Drives (record {
          enc = self.old.cfg.enc;
          tables = self.old.tables;
          ahead = M.told self.old.maker;
          told = M.Coder.told;
          before = D.told self.old.detector;
          after = D.told self.new.detector;
        }) (TakesAll (λ _. None) (λ queue. queue) self.old.frames self.new.frames)
            (PutsEnd (λ _. None) (λ queue. queue) self.old.packets self.new.packets result)
            (SaidClosed self.old.frames self.new.frames)
            (SaidClosed self.old.packets self.new.packets) result }
        ensures later { IsDetectorLater (D.told self.old.detector) (D.told self.new.detector) }
        ensures rest { self.new ≡ record self.old {
          detector = self.new.detector;
          frames = self.new.frames;
          packets = self.new.packets;
          has_run = true;
        } }
    {
        self.has_run = true;
        drive_gops(
            &self.rt,
            alloc,
            &self.cfg,
            self.levels,
            &self.tables,
            &mut self.detector,
            &self.maker,
            &mut self.frames,
            &mut self.packets,
            self.slots,
        )
    }
}
