// The constructor of channels whose frames are coded as jobs.
ghost use Rattle.std.specs.Prelude.{◌≡◌, ◌⊎◌, None, Some, Err, IfOk, IsOk};
ghost use Rattle.av1_settings.specs.declared.invalid.InvalidConfig.{InvalidConfig};
ghost use Rattle.av1_settings.specs.Checks.{IsValid, session_refusal};
ghost use Rattle.session_core.specs.declared.setup.SetupError.TheVariants.{Invalid, OutOfMemory as NoMemory};
ghost use Rattle.session_channels.specs.Queues.{new_queue};
ghost use Rattle.gop_channel.specs.Working.{frame_capacity, gop_ends, new_work};

use crate::GopWorker;
use av1_frame::Pixel;
use av1_settings::{Config, EncoderConfig, LevelTables};
use coding_base::OutOfMemory;
use gop_board::MakeSession;
use session_channels::{FrameMessage, FrameSender, PacketMessage, PacketReceiver, SharedQueue};
use session_core::{Detector, NewContext, QTables, SetupError};
use std::alloc::Global;
use std::sync::Wait;
use std::thread::Threads;

/// The ends of a channel's video: frames are sent into the one, and packets received from the other.
pub type VideoDataChannel<T, O, R> = (
    FrameSender<T, O, SharedQueue<FrameMessage<T, O>, R>>,
    PacketReceiver<T, O, SharedQueue<PacketMessage<T, O>, R>>,
);

/// Makes channels of a configuration whose frames are coded as jobs.
pub trait NewGopChannel: NewContext {
    /// A channel whose frames are split into jobs and coded on as many workers as `slots` says, 0 being 1: ends for the caller, and
    /// a worker to run on a thread. All of them wait by `rt`. `levels` has the limits of the AV1 specification's levels, and `tables`
    /// the quantisers by their index.
    ///
    /// The queue of frames holds four times the lookahead, and that of packets as much as there is memory for. 2147483647 frames
    /// may be sent.
    ///
    /// The errors are `Invalid`, first with `RateControlConfigurationMismatch` where pass data is asked for or a summary set, then
    /// with the configuration's first refusal, one of which is a bit depth above the pixel type's; `OutOfMemory`.
    final fn new_by_gop_channel<
        'a,
        T: Pixel,
        D: Detector<T> + Drop,
        M: MakeSession<T> + Sync + Drop,
        R: Threads + Wait + Copy + Sync,
    >(
        &self,
        rt: R,
        alloc: Global,
        levels: &'a LevelTables,
        tables: &QTables,
        detector: D,
        maker: M,
        slots: usize,
    ) -> Result<(VideoDataChannel<T, (), R>, GopWorker<'a, T, D, M, R>), SetupError>
        ensures video { IfOk result (λ made. made.0 ≡ gop_ends (Self.settings self.now).enc) }
        ensures worker { IfOk result (λ made. made.1
            ≡ new_work (Self.settings self.now) levels.now tables.now detector maker slots) }
        ensures invalid { (v : InvalidConfig)
            → result ≡ Err (Invalid v)
            → session_refusal T.BITS levels.now (Self.settings self.now) ≡ Some v }
        ensures refused { (v : InvalidConfig)
            → session_refusal T.BITS levels.now (Self.settings self.now) ≡ Some v
            → result ≡ Err (Invalid v) }
        ensures complete { session_refusal T.BITS levels.now (Self.settings self.now) ≡ None
            → IsOk result ⊎ (result ≡ Err NoMemory) }
    {
        let config = self.settings();
        if let Err(refusal) = config.validate_for_session(levels, T::BITS) {
            return Err(SetupError::Invalid(refusal));
        }
        match video_queues::<T, R>(rt, alloc, &config.enc) {
            Ok((ends, frames, packets)) => {
                let Ok(cfg) = config.clone() else {
                    return Err(SetupError::OutOfMemory);
                };
                let worker = GopWorker::new(
                    rt, cfg, levels, tables, detector, maker, slots, frames, packets,
                );
                Ok((ends, worker))
            }
            Err(OutOfMemory) => Err(SetupError::OutOfMemory),
        }
    }
}

impl NewGopChannel for Config {}

// The ends for frames and packets, and the worker's handles on their queues.
fn video_queues<T: Drop, R: Wait + Copy>(
    rt: R,
    alloc: Global,
    enc: &EncoderConfig,
) -> Result<
    (
        VideoDataChannel<T, (), R>,
        SharedQueue<FrameMessage<T, ()>, R>,
        SharedQueue<PacketMessage<T, ()>, R>,
    ),
    OutOfMemory,
>
    requires { IsValid enc.now }
    ensures video { IfOk result (λ made. made.0 ≡ gop_ends enc.now) }
    ensures frames { IfOk result (λ made. made.1 ≡ new_queue (Some (frame_capacity enc.now))) }
    ensures packets { IfOk result (λ made. made.2 ≡ new_queue None) }
{
    let capacity = enc.speed_settings.rdo_lookahead_frames.saturating_mul(4);
    let frames = SharedQueue::new(rt, alloc, Some(capacity))?;
    let frames_taken = frames.another()?;
    let packets = SharedQueue::new(rt, alloc, None)?;
    let packets_put = packets.another()?;
    let sender = FrameSender::new(enc, frames, MOST_SENT);
    let receiver = PacketReceiver::new(enc, packets);
    Ok(((sender, receiver), frames_taken, packets_put))
}

// The most frames that may be sent.
const MOST_SENT: u64 = 2147483647;
