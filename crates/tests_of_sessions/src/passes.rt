//! Lists of calls in two passes that `run_pass_session` carries out.

use crate::settings::{METRICS, Passes, controlled, picture, rate_control};
use crate::sized_coder::SizedCoder;
use arrayvec::ArrayVec;
use av1_settings::Config;
use scripted::{no_levels, scripted_tables};
use session_core::{
    Call, NoDetector, NoScale, PassCall, PassTurn, RcData, Reply, SessionError, run_pass_session,
};
use std::alloc::Global;
use std::test::Fail;

fn message(bytes: &[u8]) -> ArrayVec<u8, 68> {
    let mut message = ArrayVec::new();
    for byte in bytes {
        let _ = message.try_push(*byte);
    }
    message
}

// A send, a flush, a receive, these bytes given, two receives more, and a take.
fn calls_of(alloc: Global, given: &[&[u8]]) -> Result<Vec<PassCall<u16, u64>>, Fail> {
    let mut calls = Vec::new(alloc);
    calls.push(PassCall::Call(Call::Send(picture(alloc)?, None)))?;
    calls.push(PassCall::Call(Call::Flush))?;
    calls.push(PassCall::Call(Call::Receive))?;
    for bytes in given {
        calls.push(PassCall::Give(message(bytes)))?;
    }
    calls.push(PassCall::Call(Call::Receive))?;
    calls.push(PassCall::Call(Call::Receive))?;
    calls.push(PassCall::Take)?;
    Ok(calls)
}

// A turn as a word.
fn told(alloc: Global, turn: &PassTurn<u16, u64>) -> Result<String, Fail> {
    let word = match turn {
        PassTurn::Turn(turn) => match &turn.reply {
            Reply::Sent(number) => return Ok(format!(in alloc; "sent {number}, ")?),
            Reply::Packet(packet) => {
                let size = packet.bytes.len();
                return Ok(format!(in alloc; "{size} bytes, ")?);
            }
            Reply::Status(status) => return Ok(format!(in alloc; "{status}, ")?),
            Reply::Flushed => "flushed, ",
        },
        PassTurn::Taken(Some(RcData::Summary(_))) => "summary",
        PassTurn::Taken(_) => "other",
        PassTurn::Given => "given, ",
    };
    Ok(format!(in alloc; "{word}")?)
}

// The turns of a session and the number of its decisions, or why it failed.
fn carried_out(alloc: Global, passes: Passes, given: &[&[u8]]) -> Result<String, Fail> {
    let cfg = Config::new()
        .with_encoder_config(controlled())
        .with_rate_control(rate_control(passes)?);
    let answer = run_pass_session(
        alloc,
        &cfg,
        &no_levels(),
        &scripted_tables(),
        &mut NoDetector,
        &mut NoScale,
        &mut SizedCoder::new(alloc, 99),
        calls_of(alloc, given)?,
    );
    let transcript = match answer {
        Ok(transcript) => transcript,
        Err(error) => return Ok(SessionError::to_string(&error, alloc)?),
    };
    let decisions = transcript.decisions.len();
    let mut text = format!(in alloc; "{decisions} decisions: ")?;
    for turn in transcript.turns.as_slice() {
        text.push_str(told(alloc, turn)?.as_str())?;
    }
    Ok(text)
}

const ROWS: [(Passes, &[&[u8]], &str); 4] = [
    (
        Passes::Second,
        &[&METRICS],
        "0 decisions: sent 0, flushed, not ready, given, 102 bytes, limit reached, summary",
    ),
    (
        Passes::Second,
        &[&[0]],
        "pass data was refused: a packet of 1 bytes (expected 8)",
    ),
    (
        Passes::Second,
        &[&METRICS, &METRICS],
        "pass data was refused: no frame data is needed",
    ),
    (
        Passes::One,
        &[],
        "invalid configuration: Mismatch in the rate control configuration",
    ),
];

#[test]
fn a_list_of_calls_in_two_passes(rt: HostRuntime) -> Result<(), Fail> {
    let alloc = rt.alloc();
    for (passes, given, wanted) in ROWS {
        let text = carried_out(alloc, passes, given)?;
        assert_eq!(rt; text.as_str(), wanted);
    }
    Ok(())
}
