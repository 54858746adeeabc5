// The constructors of channels.
ghost use Rattle.std.specs.Prelude.{◌≡◌, ◌⊎◌, None, Some, Err, IfOk, IsOk};
ghost use Rattle.av1_settings.specs.declared.invalid.InvalidConfig.{InvalidConfig};
ghost use Rattle.session_core.specs.declared.setup.SetupError.TheVariants.{Invalid, OutOfMemory as NoMemory};
ghost use Rattle.session_channels.specs.Channels.{channel_refusal, data_sender, is_both_passes, is_first_pass, is_one_pass, is_second_pass, new_worker, video_ends};
ghost use Rattle.session_channels.specs.Queues.{new_queue};

use crate::channel::{
    channel_session, data_limit, fits_both_passes, fits_first_pass, fits_one_pass,
    fits_second_pass, shared_pair, video_channel,
};
use crate::{
    PassDataChannel, RcData, RcDataReceiver, RcDataSender, SharedQueue, VideoDataChannel, Worker,
};
use av1_frame::Pixel;
use av1_settings::{Config, LevelTables};
use session_core::{Detector, FrameCoder, MeanScale, NewContext, QTables, SetupError};
use std::alloc::Global;
use std::sync::Wait;

/// Makes channels of a configuration: ends for the caller, and a worker to run on a thread. All of them wait by `rt`. `levels`
/// has the limits of the AV1 specification's levels, and `tables` the quantisers by their index.
///
/// The queue of frames holds twice the lookahead, and the others as much as there is memory for. As many frames may be sent as
/// the summary counts temporal units, and 2147483647 without a summary.
///
/// The errors are `Invalid`, first with `RateControlConfigurationMismatch` where the settings are for other passes than the
/// channel, then with the configuration's first refusal, one of which is a bit depth above the pixel type's; `OutOfMemory`.
pub trait NewChannel: NewContext {
    /// A channel of a session in one pass: no pass data is asked for, and no summary is set.
    final fn new_channel<
        T: Pixel,
        O: Drop,
        D: Detector<T> + Drop,
        S: MeanScale<T> + Drop,
        C: FrameCoder<T> + Drop,
        R: Wait + Copy,
    >(
        &self,
        rt: R,
        alloc: Global,
        levels: &LevelTables,
        tables: &QTables,
        detector: D,
        scales: S,
        coder: C,
    ) -> Result<(VideoDataChannel<T, O, R>, Worker<T, O, D, S, C, R>), SetupError>
        ensures video { IfOk result (λ made. made.0 ≡ video_ends (Self.settings self.now)) }
        ensures worker { IfOk result (λ made. made.1
            ≡ new_worker (Self.settings self.now) tables.now detector scales coder) }
        ensures invalid { (v : InvalidConfig)
            → result ≡ Err (Invalid v)
            → channel_refusal (is_one_pass (Self.settings self.now).rate_control) T.BITS
            levels.now (Self.settings self.now) ≡ Some v }
        ensures refused { (v : InvalidConfig)
            → channel_refusal (is_one_pass (Self.settings self.now).rate_control) T.BITS
            levels.now (Self.settings self.now) ≡ Some v
            → result ≡ Err (Invalid v) }
        ensures complete { channel_refusal (is_one_pass (Self.settings self.now).rate_control) T.BITS
            levels.now (Self.settings self.now) ≡ None
            → IsOk result ⊎ (result ≡ Err NoMemory) }
    {
        let config = self.settings();
        let control = &config.rate_control;
        let fits = fits_one_pass(control);
        let inner = channel_session(fits, alloc, config, levels, tables, detector, scales, coder)?;
        video_channel(rt, alloc, config, inner, None, None)
    }

    /// A channel of a first pass, whose data the receiver gets: pass data is asked for, and no summary is set.
    final fn new_firstpass_channel<
        T: Pixel,
        O: Drop,
        D: Detector<T> + Drop,
        S: MeanScale<T> + Drop,
        C: FrameCoder<T> + Drop,
        R: Wait + Copy,
    >(
        &self,
        rt: R,
        alloc: Global,
        levels: &LevelTables,
        tables: &QTables,
        detector: D,
        scales: S,
        coder: C,
    ) -> Result<
        (
            VideoDataChannel<T, O, R>,
            RcDataReceiver<SharedQueue<RcData, R>>,
            Worker<T, O, D, S, C, R>,
        ),
        SetupError,
    >
        ensures video { IfOk result (λ made. made.0 ≡ video_ends (Self.settings self.now)) }
        ensures data { IfOk result (λ made. made.1 ≡ record { queue = new_queue None }) }
        ensures worker { IfOk result (λ made. made.2
            ≡ new_worker (Self.settings self.now) tables.now detector scales coder) }
        ensures invalid { (v : InvalidConfig)
            → result ≡ Err (Invalid v)
            → channel_refusal (is_first_pass (Self.settings self.now).rate_control) T.BITS
            levels.now (Self.settings self.now) ≡ Some v }
        ensures refused { (v : InvalidConfig)
            → channel_refusal (is_first_pass (Self.settings self.now).rate_control) T.BITS
            levels.now (Self.settings self.now) ≡ Some v
            → result ≡ Err (Invalid v) }
        ensures complete { channel_refusal (is_first_pass (Self.settings self.now).rate_control) T.BITS
            levels.now (Self.settings self.now) ≡ None
            → IsOk result ⊎ (result ≡ Err NoMemory) }
    {
        let config = self.settings();
        let control = &config.rate_control;
        let fits = fits_first_pass(control);
        let inner = channel_session(fits, alloc, config, levels, tables, detector, scales, coder)?;
        let (data, data_put) = shared_pair(rt, alloc, None)?;
        let (video, worker) = video_channel(rt, alloc, config, inner, None, Some(data_put))?;
        Ok((video, RcDataReceiver::new(data), worker))
    }

    /// A channel of a second pass, into whose sender the data of the first is sent, at most as many messages as the summary counts
    /// frames: a summary is set, and no pass data is asked for.
    final fn new_secondpass_channel<
        T: Pixel,
        O: Drop,
        D: Detector<T> + Drop,
        S: MeanScale<T> + Drop,
        C: FrameCoder<T> + Drop,
        R: Wait + Copy,
    >(
        &self,
        rt: R,
        alloc: Global,
        levels: &LevelTables,
        tables: &QTables,
        detector: D,
        scales: S,
        coder: C,
    ) -> Result<
        (
            VideoDataChannel<T, O, R>,
            RcDataSender<SharedQueue<RcData, R>>,
            Worker<T, O, D, S, C, R>,
        ),
        SetupError,
    >
        ensures video { IfOk result (λ made. made.0 ≡ video_ends (Self.settings self.now)) }
        ensures data { IfOk result (λ made. made.1
            ≡ data_sender (Self.settings self.now).rate_control) }
        ensures worker { IfOk result (λ made. made.2
            ≡ new_worker (Self.settings self.now) tables.now detector scales coder) }
        ensures invalid { (v : InvalidConfig)
            → result ≡ Err (Invalid v)
            → channel_refusal (is_second_pass (Self.settings self.now).rate_control) T.BITS
            levels.now (Self.settings self.now) ≡ Some v }
        ensures refused { (v : InvalidConfig)
            → channel_refusal (is_second_pass (Self.settings self.now).rate_control) T.BITS
            levels.now (Self.settings self.now) ≡ Some v
            → result ≡ Err (Invalid v) }
        ensures complete { channel_refusal (is_second_pass (Self.settings self.now).rate_control) T.BITS
            levels.now (Self.settings self.now) ≡ None
            → IsOk result ⊎ (result ≡ Err NoMemory) }
    {
        let config = self.settings();
        let control = &config.rate_control;
        let fits = fits_second_pass(control);
        let inner = channel_session(fits, alloc, config, levels, tables, detector, scales, coder)?;
        let (data, data_taken) = shared_pair(rt, alloc, None)?;
        let sender = RcDataSender::new(data, data_limit(control));
        let (video, worker) = video_channel(rt, alloc, config, inner, Some(data_taken), None)?;
        Ok((video, sender, worker))
    }

    /// A channel of a second pass that is a first pass too, with both ends of pass data: pass data is asked for, and a summary is
    /// set.
    final fn new_multipass_channel<
        T: Pixel,
        O: Drop,
        D: Detector<T> + Drop,
        S: MeanScale<T> + Drop,
        C: FrameCoder<T> + Drop,
        R: Wait + Copy,
    >(
        &self,
        rt: R,
        alloc: Global,
        levels: &LevelTables,
        tables: &QTables,
        detector: D,
        scales: S,
        coder: C,
    ) -> Result<
        (
            VideoDataChannel<T, O, R>,
            PassDataChannel<R>,
            Worker<T, O, D, S, C, R>,
        ),
        SetupError,
    >
        ensures video { IfOk result (λ made. made.0 ≡ video_ends (Self.settings self.now)) }
        ensures data_in { IfOk result (λ made. made.1.0
            ≡ data_sender (Self.settings self.now).rate_control) }
        ensures data_out { IfOk result (λ made. made.1.1 ≡ record { queue = new_queue None }) }
        ensures worker { IfOk result (λ made. made.2
            ≡ new_worker (Self.settings self.now) tables.now detector scales coder) }
        ensures invalid { (v : InvalidConfig)
            → result ≡ Err (Invalid v)
            → channel_refusal (is_both_passes (Self.settings self.now).rate_control) T.BITS
            levels.now (Self.settings self.now) ≡ Some v }
        ensures refused { (v : InvalidConfig)
            → channel_refusal (is_both_passes (Self.settings self.now).rate_control) T.BITS
            levels.now (Self.settings self.now) ≡ Some v
            → result ≡ Err (Invalid v) }
        ensures complete { channel_refusal (is_both_passes (Self.settings self.now).rate_control) T.BITS
            levels.now (Self.settings self.now) ≡ None
            → IsOk result ⊎ (result ≡ Err NoMemory) }
    {
        let config = self.settings();
        let control = &config.rate_control;
        let fits = fits_both_passes(control);
        let inner = channel_session(fits, alloc, config, levels, tables, detector, scales, coder)?;
        let (data_in, data_taken) = shared_pair(rt, alloc, None)?;
        let (data_out, data_put) = shared_pair(rt, alloc, None)?;
        let data = (
            RcDataSender::new(data_in, data_limit(control)),
            RcDataReceiver::new(data_out),
        );
        let (video, worker) = video_channel(
            rt,
            alloc,
            config,
            inner,
            Some(data_taken),
            Some(data_put),
        )?;
        Ok((video, data, worker))
    }
}

impl NewChannel for Config {}
