//! Channels as they are made.

use crate::settings::small;
use av1_settings::{Config, InvalidConfig, RateControlConfig, RateControlSummary};
use coding_base::OutOfMemory;
use scripted::{ScriptedCoder, no_levels, scripted_tables};
use session_channels::{
    NewChannel, RcData, RcDataReceiver, RcDataSender, SharedQueue, VideoDataChannel, Worker,
};
use session_core::{NoDetector, NoScale, SetupError};
use std::alloc::Global;
use std::sync::Wait;
use std::test::Fail;

/// The four kinds of channels.
#[derive(Clone, Copy)]
pub enum Kind {
    One,
    First,
    Second,
    Both,
}

/// A worker over frames of samples of 8 bits.
pub type PlainWorker<R> = Worker<u8, u64, NoDetector, NoScale, ScriptedCoder, R>;

/// A channel of any kind: its ends, those of pass data that it has, and its worker.
#[derive(Drop)]
pub struct Channel<R> {
    pub ends: VideoDataChannel<u8, u64, R>,
    pub data_in: Option<RcDataSender<SharedQueue<RcData, R>>>,
    pub data_out: Option<RcDataReceiver<SharedQueue<RcData, R>>>,
    pub worker: PlainWorker<R>,
}

fn one_pass<R: Wait + Copy>(
    rt: R,
    alloc: Global,
    config: &Config,
) -> Result<Channel<R>, SetupError> {
    let (levels, tables, coder) = (no_levels(), scripted_tables(), ScriptedCoder::new(alloc));
    let (ends, worker) = config.new_channel(
        rt, alloc, &levels, &tables, NoDetector, NoScale, coder,
    )?;
    Ok(Channel {
        ends,
        data_in: None,
        data_out: None,
        worker,
    })
}

fn first_pass<R: Wait + Copy>(
    rt: R,
    alloc: Global,
    config: &Config,
) -> Result<Channel<R>, SetupError> {
    let (levels, tables, coder) = (no_levels(), scripted_tables(), ScriptedCoder::new(alloc));
    let (ends, data_out, worker) = config.new_firstpass_channel(
        rt, alloc, &levels, &tables, NoDetector, NoScale, coder,
    )?;
    Ok(Channel {
        ends,
        data_in: None,
        data_out: Some(data_out),
        worker,
    })
}

fn second_pass<R: Wait + Copy>(
    rt: R,
    alloc: Global,
    config: &Config,
) -> Result<Channel<R>, SetupError> {
    let (levels, tables, coder) = (no_levels(), scripted_tables(), ScriptedCoder::new(alloc));
    let (ends, data_in, worker) = config.new_secondpass_channel(
        rt, alloc, &levels, &tables, NoDetector, NoScale, coder,
    )?;
    Ok(Channel {
        ends,
        data_in: Some(data_in),
        data_out: None,
        worker,
    })
}

fn both_passes<R: Wait + Copy>(
    rt: R,
    alloc: Global,
    config: &Config,
) -> Result<Channel<R>, SetupError> {
    let (levels, tables, coder) = (no_levels(), scripted_tables(), ScriptedCoder::new(alloc));
    let (ends, (data_in, data_out), worker) = config.new_multipass_channel(
        rt, alloc, &levels, &tables, NoDetector, NoScale, coder,
    )?;
    Ok(Channel {
        ends,
        data_in: Some(data_in),
        data_out: Some(data_out),
        worker,
    })
}

/// A channel of this kind.
pub fn open_channel<R: Wait + Copy>(
    rt: R,
    alloc: Global,
    kind: Kind,
    config: &Config,
) -> Result<Channel<R>, SetupError> {
    match kind {
        Kind::One => one_pass(rt, alloc, config),
        Kind::First => first_pass(rt, alloc, config),
        Kind::Second => second_pass(rt, alloc, config),
        Kind::Both => both_passes(rt, alloc, config),
    }
}

/// Two frames, a key frame and another.
fn summary() -> RateControlSummary {
    RateControlSummary {
        ntus: 2,
        nframes: [1, 2, 0, 0, 0],
        exp: [1, 1, 1, 1],
        scale_sum: [0, 0, 0, 0],
        total: 3,
    }
}

/// Settings of 64 x 80 with this bitrate, for the passes of this kind.
fn settings(kind: Kind, bitrate: i32) -> Config {
    let control = match kind {
        Kind::One => RateControlConfig::new(),
        Kind::First => RateControlConfig::new().with_emit_data(true),
        Kind::Second => RateControlConfig::new().with_summary(summary()),
        Kind::Both => RateControlConfig::new()
            .with_summary(summary())
            .with_emit_data(true),
    };
    let mut config = small(10).with_rate_control(control);
    config.enc.bitrate = bitrate;
    config
}

const KINDS: [Kind; 4] = [Kind::One, Kind::First, Kind::Second, Kind::Both];

/// What each kind of channel answers to these settings: `+` where it is made, `-` where they are of other passes, `w` where the
/// width of 1 is refused.
fn made<R: Wait + Copy>(rt: R, alloc: Global, config: &Config) -> Result<String, OutOfMemory> {
    let mut text = String::new(alloc);
    for kind in KINDS {
        text.push_str(match open_channel(rt, alloc, kind, config) {
            Ok(_) => "+",
            Err(SetupError::Invalid(InvalidConfig::RateControlConfigurationMismatch)) => "-",
            Err(SetupError::Invalid(InvalidConfig::InvalidWidth(1))) => "w",
            Err(_) => "?",
        })?;
    }
    Ok(text)
}

/// Settings of one kind are refused by the other kinds for that, before all else.
#[test]
fn settings_make_channels_of_their_passes_alone(rt: HostRuntime) -> Result<(), Fail> {
    let alloc = rt.alloc();
    for (kind, wanted, wanted_if_narrow) in [
        (Kind::One, "+---", "w---"),
        (Kind::First, "-+--", "-w--"),
        (Kind::Second, "--+-", "--w-"),
        (Kind::Both, "---+", "---w"),
    ] {
        let usual = made(&rt, alloc, &settings(kind, 30000))?;
        assert_eq!(rt; usual.as_str(), wanted);
        let mut narrow = settings(kind, 0);
        narrow.enc.width = 1;
        let told = made(&rt, alloc, &narrow)?;
        assert_eq!(rt; told.as_str(), wanted_if_narrow);
    }
    let of_new = made(&rt, alloc, &Config::new())?;
    assert_eq!(rt; of_new.as_str(), "+---");
    Ok(())
}
