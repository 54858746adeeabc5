// What every kind of channel is made of.
ghost use Rattle.std.specs.Prelude.{◌≡◌, ◌⊎◌, None, Some, Err, IfErr, IfOk, IfSome, IsOk, OnOk, is_some, length, true};
ghost use Rattle.av1_settings.specs.declared.invalid.InvalidConfig.{InvalidConfig as Refusal};
ghost use Rattle.av1_settings.specs.Checks.{IsValid};
ghost use Rattle.session_core.specs.declared.setup.SetupError.TheVariants.{Invalid, OutOfMemory as NoMemory};
ghost use Rattle.session_core.specs.Contexts.{fresh};
ghost use Rattle.session_core.specs.PassTurns.{passes_begun};
ghost use Rattle.session_channels.specs.Channels.{channel_refusal, data_limit, frame_limit, is_both_passes, is_first_pass, is_one_pass, is_second_pass, queue_in, queue_out, video_ends, worker_of};
ghost use Rattle.session_channels.specs.Drives.{IsNew};
ghost use Rattle.session_channels.specs.Queues.{new_queue};

use crate::{
    FrameMessage, FrameSender, PacketMessage, PacketReceiver, RcData, RcDataReceiver, RcDataSender,
    SharedQueue, Worker,
};
use av1_frame::Pixel;
use av1_settings::{Config, InvalidConfig, LevelTables, RateControlConfig};
use session_core::{ContextInner, Detector, FrameCoder, MeanScale, QTables, SetupError};
use std::alloc::Global;
use std::sync::Wait;

/// The ends of a channel's video: frames are sent into the one, and packets received from the other.
pub type VideoDataChannel<T, O, R> = (
    FrameSender<T, O, SharedQueue<FrameMessage<T, O>, R>>,
    PacketReceiver<T, O, SharedQueue<PacketMessage<T, O>, R>>,
);

/// The ends of a channel's pass data: that of an earlier first pass is sent into the one, and this session's own received from
/// the other.
pub type PassDataChannel<R> = (
    RcDataSender<SharedQueue<RcData, R>>,
    RcDataReceiver<SharedQueue<RcData, R>>,
);

// Whether the settings are for one pass, or for a first pass, a second, or both at once.
pub(crate) fn fits_one_pass(control: &RateControlConfig) -> bool
    ensures { result ≡ is_one_pass control.now }
{
    !control.emit_data && control.summary.is_none()
}

pub(crate) fn fits_first_pass(control: &RateControlConfig) -> bool
    ensures { result ≡ is_first_pass control.now }
{
    control.emit_data && control.summary.is_none()
}

pub(crate) fn fits_second_pass(control: &RateControlConfig) -> bool
    ensures { result ≡ is_second_pass control.now }
{
    !control.emit_data && control.summary.is_some()
}

pub(crate) fn fits_both_passes(control: &RateControlConfig) -> bool
    ensures { result ≡ is_both_passes control.now }
{
    control.emit_data && control.summary.is_some()
}

// The session of a channel whose kind fits the settings, or doesn't.
pub(crate) fn channel_session<
    T: Pixel,
    O: Drop,
    D: Detector<T> + Drop,
    S: MeanScale<T> + Drop,
    C: FrameCoder<T> + Drop,
>(
    fits: bool,
    alloc: Global,
    config: &Config,
    levels: &LevelTables,
    tables: &QTables,
    detector: D,
    scales: S,
    coder: C,
) -> Result<ContextInner<T, O, D, S, C>, SetupError>
    ensures fits { OnOk result (fits ≡ true) }
    ensures valid { OnOk result (IsValid config.now.enc) }
    ensures made { IfOk result (λ inner. inner ≡ fresh config.now.enc tables.now
        (passes_begun config.now.enc tables.now config.now.rate_control) detector scales coder) }
    ensures new { IfOk result (λ inner. IsNew inner (is_some config.now.rate_control.summary)
        config.now.rate_control.emit_data) }
    ensures invalid { (v : Refusal)
        → result ≡ Err (Invalid v)
        → channel_refusal fits T.BITS levels.now config.now ≡ Some v }
    ensures refused { (v : Refusal)
        → channel_refusal fits T.BITS levels.now config.now ≡ Some v
        → result ≡ Err (Invalid v) }
    ensures complete { channel_refusal fits T.BITS levels.now config.now ≡ None
        → IsOk result ⊎ (result ≡ Err NoMemory) }
{
    if !fits {
        return Err(SetupError::Invalid(InvalidConfig::RateControlConfigurationMismatch));
    }
    has_five_counts(&config.rate_control);
    ContextInner::new(alloc, config, levels, tables, detector, scales, coder)
}

// Does nothing: a summary has a count of each of five subtypes, as its type says.
fn has_five_counts(control: &RateControlConfig)
    ensures { IfSome control.now.summary (λ one. length one.nframes ≡ 5) }
{
    if let Some(summary) = &control.summary {
        are_five(summary.nframes);
    }
}

fn are_five(counts: [i32; 5])
    ensures { length counts ≡ 5 }
{
    let _ = counts;
}

// The two handles of a new queue.
pub(crate) fn shared_pair<M: Drop, R: Wait + Copy>(
    rt: R,
    alloc: Global,
    capacity: Option<usize>,
) -> Result<(SharedQueue<M, R>, SharedQueue<M, R>), SetupError>
    ensures first { IfOk result (λ both. both.0 ≡ new_queue capacity) }
    ensures second { IfOk result (λ both. both.1 ≡ new_queue capacity) }
    ensures memory { IfErr result (λ error. error ≡ NoMemory) }
{
    let Ok(outer) = SharedQueue::new(rt, alloc, capacity) else {
        return Err(SetupError::OutOfMemory);
    };
    let Ok(inner) = outer.another() else {
        return Err(SetupError::OutOfMemory);
    };
    Ok((outer, inner))
}

// The most frames that may be sent.
fn frame_limit(control: &RateControlConfig) -> u64
    ensures { result ≡ frame_limit control.now }
{
    match &control.summary {
        Some(summary) => u64::from(summary.ntus.unsigned_abs()),
        None => 2147483647,
    }
}

// The most messages of pass data that may be sent.
pub(crate) fn data_limit(control: &RateControlConfig) -> u64
    ensures { result ≡ data_limit control.now }
{
    match &control.summary {
        Some(summary) => u64::from(summary.total.unsigned_abs()),
        None => 0,
    }
}

// The ends for frames and packets, and the worker behind them, which is handed the ends of the pass data's queues.
pub(crate) fn video_channel<T: Drop, O: Drop, D: Drop, S: Drop, C: Drop, R: Wait + Copy>(
    rt: R,
    alloc: Global,
    config: &Config,
    inner: ContextInner<T, O, D, S, C>,
    pass_in: Option<SharedQueue<RcData, R>>,
    pass_out: Option<SharedQueue<RcData, R>>,
) -> Result<(VideoDataChannel<T, O, R>, Worker<T, O, D, S, C, R>), SetupError>
    requires valid { IsValid config.now.enc }
    requires new { IsNew inner (is_some config.now.rate_control.summary)
        config.now.rate_control.emit_data }
    requires pass_in { pass_in ≡ queue_in config.now.rate_control }
    requires pass_out { pass_out ≡ queue_out config.now.rate_control }
    ensures video { IfOk result (λ made. made.0 ≡ video_ends config.now) }
    ensures worker { IfOk result (λ made. made.1 ≡ worker_of inner config.now) }
    ensures memory { IfErr result (λ error. error ≡ NoMemory) }
{
    let enc = &config.enc;
    let capacity = enc.speed_settings.rdo_lookahead_frames.saturating_mul(2);
    let (frames, frames_taken) = shared_pair(rt, alloc, Some(capacity))?;
    let (packets, packets_put) = shared_pair(rt, alloc, None)?;
    let sender = FrameSender::new(enc, frames, frame_limit(&config.rate_control));
    let receiver = PacketReceiver::new(enc, packets);
    let worker = Worker::new(inner, frames_taken, packets_put, pass_in, pass_out);
    Ok(((sender, receiver), worker))
}
