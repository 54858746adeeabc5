//! A session called step by step, and each answer as a word.

use crate::settings::{Passes, parameters, picture, rate_control};
use crate::sized_coder::SizedCoder;
use arrayvec::ArrayVec;
use av1_frame::Frame;
use av1_settings::{Config, EncoderConfig, EncoderStatus};
use scripted::{no_levels, scripted_tables};
use session_core::{
    Context, FrameParameters, IntoFrame, NewContext, NoDetector, NoScale, Packet, RcData,
    SetupError,
};
use std::alloc::Global;
use std::sync::Arc;
use std::test::Fail;

/// A session of 16-bit frames.
pub type Frames = Context<u16, u64, NoDetector, NoScale, SizedCoder>;

/// A way to hand in a frame; `With` stands for parameters whose value is the number.
#[derive(Clone, Copy)]
pub enum Way {
    /// Shared.
    Shared,
    /// Shared, with parameters.
    SharedWith(u64),
    /// Shared, with parameters that may be none.
    SharedWithSome(u64),
    /// Not shared.
    Own,
    /// Not shared, with parameters.
    OwnWith(u64),
    /// Not shared, with parameters that may be none and are.
    OwnWithNone,
    /// No frame.
    Nothing,
}

/// A call of a session.
#[derive(Clone, Copy)]
pub enum Step {
    /// `send_frame`.
    Send(Way),
    /// `flush`.
    Flush,
    /// `receive_packet`.
    Receive,
    /// `failure`.
    Failure,
    /// `rc_summary_size`.
    SummarySize,
    /// `rc_second_pass_data_required`.
    Required,
    /// `rc_send_pass_data`.
    Give(&'static [u8]),
    /// `rc_receive_pass_data`.
    Take,
    /// `twopass_out`.
    Out,
    /// `twopass_bytes_needed`.
    Needed,
    /// `twopass_in`.
    In(&'static [u8]),
    /// `container_sequence_header`.
    Header,
    /// `new_frame`.
    NewFrame,
}

/// A session that hasn't begun; its coder's call number `fails` fails.
pub fn context(
    alloc: Global,
    enc: EncoderConfig,
    passes: Passes,
    fails: u64,
) -> Result<Result<Frames, SetupError>, Fail> {
    let config = Config::new()
        .with_encoder_config(enc)
        .with_rate_control(rate_control(passes)?);
    Ok(config.new_context(
        alloc,
        &no_levels(),
        &scripted_tables(),
        NoDetector,
        NoScale,
        SizedCoder::new(alloc, fails),
    ))
}

fn done(alloc: Global, answer: Result<(), EncoderStatus>) -> Result<String, Fail> {
    match answer {
        Ok(()) => Ok(format!(in alloc; "ok")?),
        Err(status) => Ok(format!(in alloc; "{status}")?),
    }
}

fn counted(alloc: Global, answer: Result<usize, EncoderStatus>) -> Result<String, Fail> {
    match answer {
        Ok(count) => Ok(format!(in alloc; "{count}")?),
        Err(status) => done(alloc, Err(status)),
    }
}

// The number of a packet's frame, and the value that came back with it.
fn packet_text(alloc: Global, packet: &Packet<u16, u64>) -> Result<String, Fail> {
    let frame = packet.input_frameno;
    match packet.opaque {
        Some(value) => Ok(format!(in alloc; "frame {frame} value {value}")?),
        None => Ok(format!(in alloc; "frame {frame}")?),
    }
}

fn received(alloc: Global, session: &mut Frames) -> Result<String, Fail> {
    match session.receive_packet(alloc) {
        Ok(packet) => packet_text(alloc, &packet),
        Err(status) => done(alloc, Err(status)),
    }
}

fn send<F: IntoFrame<u16, u64>>(
    alloc: Global,
    session: &mut Frames,
    frame: F,
) -> Result<String, Fail> {
    let answer = session.send_frame(alloc, frame);
    done(alloc, answer)
}

fn new_frame(alloc: Global, session: &Frames) -> Result<Frame<u16>, Fail> {
    Ok(session.new_frame(alloc)?)
}

fn sent(alloc: Global, session: &mut Frames, way: Way) -> Result<String, Fail> {
    match way {
        Way::Shared => send(alloc, session, picture(alloc)?),
        Way::SharedWith(value) => {
            send(
                alloc,
                session,
                (picture(alloc)?, parameters(alloc, value, false)),
            )
        }
        Way::SharedWithSome(value) => {
            send(
                alloc,
                session,
                (picture(alloc)?, Some(parameters(alloc, value, false))),
            )
        }
        Way::Own => {
            let frame = new_frame(alloc, session)?;
            send(alloc, session, frame)
        }
        Way::OwnWith(value) => {
            let frame = new_frame(alloc, session)?;
            send(alloc, session, (frame, parameters(alloc, value, false)))
        }
        Way::OwnWithNone => {
            let frame = new_frame(alloc, session)?;
            let none: Option<FrameParameters<u64>> = None;
            send(alloc, session, (frame, none))
        }
        Way::Nothing => send(alloc, session, None::<Arc<Frame<u16>>>),
    }
}

fn failure(alloc: Global, session: &Frames) -> Result<String, Fail> {
    match session.failure() {
        Some(fault) => Ok(format!(in alloc; "{fault}")?),
        None => Ok(format!(in alloc; "none")?),
    }
}

// A frame's metrics by their subtype and the byte that says whether it is shown; a summary by its length and its first
// 28 bytes.
fn message_text(alloc: Global, message: &ArrayVec<u8, 68>) -> Result<String, Fail> {
    let bytes = message.as_slice();
    if let [subtype, _, _, shown, _, _, _, _] = bytes {
        return Ok(format!(in alloc; "metrics {subtype} {shown}")?);
    }
    let count = bytes.len();
    let mut text = format!(in alloc; "{count} bytes")?;
    for byte in bytes.iter().take(28) {
        write!(&mut text, " {byte}")?;
    }
    Ok(text)
}

fn taken(alloc: Global, session: &mut Frames) -> Result<String, Fail> {
    match session.rc_receive_pass_data() {
        Some(RcData::Summary(bytes)) => {
            let text = message_text(alloc, &bytes)?;
            Ok(format!(in alloc; "summary of {text}")?)
        }
        Some(RcData::Frame(bytes)) => message_text(alloc, &bytes),
        None => Ok(format!(in alloc; "none")?),
    }
}

fn out(alloc: Global, session: &mut Frames) -> Result<String, Fail> {
    match session.twopass_out() {
        Some(bytes) => message_text(alloc, &bytes),
        None => Ok(format!(in alloc; "none")?),
    }
}

fn given(alloc: Global, session: &mut Frames, bytes: &[u8]) -> Result<String, Fail> {
    let answer = session.rc_send_pass_data(bytes);
    done(alloc, answer)
}

fn needed(alloc: Global, session: &mut Frames) -> Result<String, Fail> {
    let answer = session.twopass_bytes_needed();
    counted(alloc, answer)
}

fn taken_in(alloc: Global, session: &mut Frames, bytes: &[u8]) -> Result<String, Fail> {
    let answer = session.twopass_in(bytes);
    counted(alloc, answer)
}

fn flushed(alloc: Global, session: &mut Frames) -> Result<String, Fail> {
    let answer = session.flush(alloc);
    done(alloc, answer)
}

fn header(alloc: Global, session: &Frames) -> Result<String, Fail> {
    let [first, second, third, fourth] = session.container_sequence_header();
    Ok(format!(in alloc; "{first} {second} {third} {fourth}")?)
}

// The widths and heights of a frame's planes.
fn sizes(alloc: Global, session: &Frames) -> Result<String, Fail> {
    let frame = new_frame(alloc, session)?;
    let (width, height) = (frame.y.width, frame.y.height);
    let mut text = format!(in alloc; "{width} x {height}")?;
    for plane in [&frame.u, &frame.v] {
        let (width, height) = (plane.width, plane.height);
        write!(&mut text, ", {width} x {height}")?;
    }
    Ok(text)
}

/// Carries out a step, and tells its answer.
pub fn act(alloc: Global, session: &mut Frames, step: Step) -> Result<String, Fail> {
    match step {
        Step::Send(way) => sent(alloc, session, way),
        Step::Flush => flushed(alloc, session),
        Step::Receive => received(alloc, session),
        Step::Failure => failure(alloc, session),
        Step::SummarySize => counted(alloc, Ok(session.rc_summary_size())),
        Step::Required => counted(alloc, Ok(session.rc_second_pass_data_required())),
        Step::Give(bytes) => given(alloc, session, bytes),
        Step::Take => taken(alloc, session),
        Step::Out => out(alloc, session),
        Step::Needed => needed(alloc, session),
        Step::In(bytes) => taken_in(alloc, session, bytes),
        Step::Header => header(alloc, session),
        Step::NewFrame => sizes(alloc, session),
    }
}
