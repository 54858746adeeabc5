//! Courses of a session between queues of frames and of packets.
ghost use Rattle.std.specs.Prelude.{◌≡◌, None, IfOk, IfSome, is_some, length};
ghost use Rattle.session_channels.specs.Drives.{IsNew};
ghost use Rattle.session_channels.specs.LocalQueues.{local_of};

use crate::ends_of_pass_data::data;
use av1_frame::{ChromaSampling, Frame};
use av1_settings::{Config, EncoderConfig, RateControlConfig, RateControlSummary};
use coding_base::OutOfMemory;
use scripted::{ScriptedCoder, no_levels, scripted_tables};
use session_channels::{
    ChannelFault, FrameMessage, LocalQueue, PacketMessage, Put, RcData, Take, drive,
};
use session_core::{ContextInner, NoDetector, NoScale};
use std::alloc::Global;
use std::sync::Arc;
use std::test::Fail;

type Inner = ContextInner<u8, u64, NoDetector, NoScale, ScriptedCoder>;

/// The metrics of a key frame of log scale 1 in Q24, which is shown.
const METRICS: [u8; 8] = [0, 0, 0, 0x80, 0, 0, 0, 1];

/// A message of metrics that is a summary.
const MISPLACED: [u8; 68] = [0; 68];

/// More messages than any course here puts.
const MOST_MESSAGES: usize = 20;

/// The passes that are on, with the messages of pass data that a second pass is given.
#[derive(Clone, Copy)]
pub struct Passes<'a> {
    /// Where a second pass is on.
    pub second: Option<&'a [&'a [u8]]>,
    /// Whether a first pass is on.
    pub first: bool,
}

/// One pass.
pub const ONE: Passes<'static> = Passes {
    second: None,
    first: false,
};

/// A first pass.
const FIRST: Passes<'static> = Passes {
    second: None,
    first: true,
};

fn second<'a>(messages: &'a [&'a [u8]]) -> Passes<'a> {
    Passes {
        second: Some(messages),
        first: false,
    }
}

/// Settings of 64 x 80 with a key frame at each fifth position, for the passes that are on.
fn config(passes: &Passes) -> Config
    ensures summary { is_some result.rate_control.summary ≡ is_some passes.now.second }
    ensures emits { result.rate_control.emit_data ≡ passes.now.first }
{
    let mut enc = EncoderConfig::default();
    enc.width = 64;
    enc.height = 80;
    enc.set_key_frame_interval(0, 5);
    if passes.first || passes.second.is_some() {
        enc.bitrate = 30000;
    }
    let control = match passes.second {
        Some(_) => RateControlConfig::new().with_summary(RateControlSummary {
            ntus: 1,
            nframes: [1, 0, 0, 0, 0],
            exp: [0x30, 0x45, 0x54, 0x57],
            scale_sum: [0; 4],
            total: 1,
        }),
        None => RateControlConfig::new(),
    };
    Config::new()
        .with_encoder_config(enc)
        .with_rate_control(control.with_emit_data(passes.first))
}

/// Does nothing: a summary has a count of each of five subtypes, as its type says.
fn has_five_counts(control: &RateControlConfig)
    ensures { IfSome control.now.summary (λ one. length one.nframes ≡ 5) }
{
    if let Some(summary) = &control.summary {
        are_five(summary.nframes);
    }
}

fn are_five(counts: [i32; 5])
    ensures { length counts ≡ 5 }
{
    let _ = counts;
}

/// A session for these passes, whose coder fails from these calls on.
fn session(alloc: Global, passes: &Passes, fails: &[u64]) -> Result<Inner, OutOfMemory>
    ensures { IfOk result (λ inner.
        IsNew inner (is_some passes.now.second) passes.now.first) }
{
    let config = config(passes);
    has_five_counts(&config.rate_control);
    let coder = ScriptedCoder::with_rules(alloc, &[], fails)?;
    let (levels, tables) = (no_levels(), scripted_tables());
    match ContextInner::new(alloc, &config, &levels, &tables, NoDetector, NoScale, coder) {
        Ok(inner) => Ok(inner),
        Err(_) => Err(OutOfMemory),
    }
}

/// Drives a session, and gives its answer and the pass data handed on.
pub fn course<F: Take<FrameMessage<u8, u64>>, P: Put<PacketMessage<u8, u64>>>(
    alloc: Global,
    passes: &Passes,
    fails: &[u64],
    frames: &mut F,
    packets: &mut P,
) -> Result<(Result<(), ChannelFault>, LocalQueue<RcData>), OutOfMemory>
    requires { (P.queue packets.old).capacity ≡ None }
{
    let mut inner = session(alloc, passes, fails)?;
    let mut pass_in = metrics(alloc, passes.second.unwrap_or(&[]))?;
    let mut pass_out: LocalQueue<RcData> = LocalQueue::new(alloc, None);
    let second = passes.second.is_some().then_some(&mut pass_in);
    let first = passes.first.then_some(&mut pass_out);
    let answer = drive(alloc, &mut inner, frames, packets, second, first);
    Ok((answer, pass_out))
}

/// A closed queue of these messages.
fn metrics(alloc: Global, messages: &[&[u8]]) -> Result<LocalQueue<RcData>, OutOfMemory> {
    let mut metrics = LocalQueue::new(alloc, None);
    for bytes in messages {
        if metrics.try_put(data(bytes)).is_err() {
            return Err(OutOfMemory);
        }
    }
    metrics.close();
    Ok(metrics)
}

/// A closed queue of frames of these widths.
fn frames(
    alloc: Global,
    widths: &[usize],
) -> Result<LocalQueue<FrameMessage<u8, u64>>, OutOfMemory> {
    let mut frames = LocalQueue::new(alloc, None);
    for width in widths {
        let frame = Frame::new(alloc, (*width).min(64), 80, ChromaSampling::Cs420)?;
        if frames.try_put((Arc::new(alloc, frame)?, None)).is_err() {
            return Err(OutOfMemory);
        }
    }
    frames.close();
    Ok(frames)
}

/// The numbers of the packets of a closed queue, and the fault behind them.
fn packets_told(
    alloc: Global,
    packets: LocalQueue<PacketMessage<u8, u64>>,
) -> Result<String, OutOfMemory> {
    let mut packets = packets;
    let mut text = format!(in alloc; "packets")?;
    for _ in 0..MOST_MESSAGES {
        match packets.try_take() {
            Ok(Ok(packet)) => write!(text, " {}", packet.input_frameno)?,
            Ok(Err(fault)) => write!(text, ", {fault}")?,
            Err(_) => break,
        }
    }
    Ok(text)
}

/// The lengths of the pass data in a closed queue.
fn handed_told(alloc: Global, pass_out: LocalQueue<RcData>) -> Result<String, OutOfMemory> {
    let mut pass_out = pass_out;
    let mut text = format!(in alloc; "handed")?;
    for _ in 0..MOST_MESSAGES {
        match pass_out.try_take() {
            Ok(RcData::Frame(bytes)) => write!(text, " {}", bytes.len())?,
            Ok(RcData::Summary(bytes)) => write!(text, " {}", bytes.len())?,
            Err(_) => break,
        }
    }
    Ok(text)
}

/// What a course is given: the passes, the widths of the frames, whether the queue of packets is closed before, and the coder's
/// calls that fail.
#[derive(Clone, Copy)]
struct Given<'a> {
    passes: Passes<'a>,
    widths: &'a [usize],
    severed: bool,
    fails: &'a [u64],
}

fn course_of<'a>(passes: Passes<'a>, widths: &'a [usize]) -> Given<'a> {
    Given {
        passes,
        widths,
        severed: false,
        fails: &[],
    }
}

/// A queue of packets, closed or not.
fn new_packets(alloc: Global, severed: bool) -> LocalQueue<PacketMessage<u8, u64>>
    ensures { (local_of result).queue.capacity ≡ None }
{
    let mut packets = LocalQueue::new(alloc, None);
    if severed {
        packets.close();
    }
    packets
}

fn answer_told(alloc: Global, answer: Result<(), ChannelFault>) -> Result<String, OutOfMemory> {
    match answer {
        Ok(()) => Ok(format!(in alloc; "ok")?),
        Err(fault) => Ok(format!(in alloc; "{fault}")?),
    }
}

/// The answer, the packets and the fault behind them, and the pass data handed on.
fn told(alloc: Global, given: &Given) -> Result<String, OutOfMemory> {
    let mut frames = frames(alloc, given.widths)?;
    let mut packets = new_packets(alloc, given.severed);
    let (answer, pass_out) = course(alloc, &given.passes, given.fails, &mut frames, &mut packets)?;
    let answer = answer_told(alloc, answer)?;
    let packets = packets_told(alloc, packets)?;
    let handed = handed_told(alloc, pass_out)?;
    Ok(format!(in alloc; "{answer}; {packets}; {handed}")?)
}

#[test]
fn courses_in_one_pass(rt: HostRuntime) -> Result<(), Fail> {
    let five = course_of(ONE, &[64; 5]);
    let severed = Given {
        severed: true,
        ..five
    };
    let failing = Given {
        fails: &[1],
        ..five
    };
    for (given, wanted) in [
        (five, "ok; packets 0 1 2 3 4; handed"),
        (
            course_of(ONE, &[64, 64, 32, 64]),
            "a frame was refused: frame size mismatch; packets, a frame was refused: frame size mismatch; handed",
        ),
        (
            severed,
            "the queue of packets or of pass data was closed; packets; handed",
        ),
        (
            failing,
            "the coder failed at command 1; packets 0, the coder failed at command 1; handed",
        ),
    ] {
        assert_eq!(rt; told(rt.alloc(), &given)?.as_str(), wanted);
    }
    Ok(())
}

#[test]
fn courses_in_other_passes(rt: HostRuntime) -> Result<(), Fail> {
    let both = Passes {
        first: true,
        ..second(&[&METRICS])
    };
    for (given, wanted) in [
        (
            course_of(second(&[]), &[64, 64]),
            "pass data is missing; packets, pass data is missing; handed",
        ),
        (
            course_of(second(&[&MISPLACED]), &[64, 64]),
            "a summary came in place of a frame's pass data; packets, a summary came in place of a frame's pass data; handed",
        ),
        (
            course_of(second(&[&[0, 0]]), &[64, 64]),
            "pass data was refused: a packet of 2 bytes (expected 8); packets, pass data was refused: a packet of 2 bytes (expected 8); handed",
        ),
        (
            course_of(second(&[&METRICS]), &[64, 64]),
            "pass data ended after 1 commands; packets 0, pass data ended after 1 commands; handed",
        ),
        (
            course_of(FIRST, &[64, 64]),
            "ok; packets 0 1; handed 8 8 68",
        ),
        (course_of(both, &[64]), "ok; packets 0; handed 8 68"),
    ] {
        assert_eq!(rt; told(rt.alloc(), &given)?.as_str(), wanted);
    }
    Ok(())
}
