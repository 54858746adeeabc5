//! Sessions called one call at a time, and what they answer.

use crate::settings::{DAMAGED, METRICS, Passes, SUMMARY, controlled, picture, settings};
use crate::sized_coder::SizedCoder;
use crate::steps::Step::{
    Failure, Flush, Give, Header, In, Needed, NewFrame, Out, Receive, Required, Send, SummarySize,
    Take,
};
use crate::steps::Way::{Nothing, Own, OwnWith, OwnWithNone, Shared, SharedWith, SharedWithSome};
use crate::steps::{Step, act, context};
use av1_settings::{Config, EncoderConfig};
use coding_base::{Bytes, OutOfMemory};
use scripted::{no_levels, scripted_tables};
use session_core::{
    ContextInner, FrameParameters, FrameTypeOverride, NoDetector, NoScale, SetupError, T35, T35List,
};
use std::alloc::Global;
use std::sync::Arc;
use std::test::Fail;

type Inner = ContextInner<u16, u64, NoDetector, NoScale, SizedCoder>;

// Which settings a row's session has.
#[derive(Clone, Copy)]
enum Set {
    Defaults,
    Plain,
    Long,
    Controlled,
}

fn settings_of(set: Set) -> EncoderConfig {
    match set {
        Set::Defaults => EncoderConfig::default(),
        Set::Plain => settings(5, 10),
        Set::Long => settings(100, 1),
        Set::Controlled => controlled(),
    }
}

// A session, the call of its coder that fails, and its steps with their answers.
struct Row {
    name: &'static str,
    set: Set,
    passes: Passes,
    fails: u64,
    steps: &'static [(Step, &'static str)],
}

const ROWS: [Row; 7] = [
    Row {
        name: "a session that failed answers failure",
        set: Set::Plain,
        passes: Passes::One,
        fails: 0,
        steps: &[
            (Send(Shared), "ok"),
            (Flush, "ok"),
            (Failure, "none"),
            (Receive, "failure"),
            (Failure, "the coder failed at command 0"),
            (Send(Shared), "failure"),
            (Flush, "failure"),
            (Failure, "the coder failed at command 0"),
            (Receive, "failure"),
            (Failure, "the coder failed at command 0"),
        ],
    },
    Row {
        name: "each way to send a frame",
        set: Set::Long,
        passes: Passes::One,
        fails: 99,
        steps: &[
            (Send(Shared), "ok"),
            (Send(SharedWith(1)), "ok"),
            (Send(SharedWithSome(2)), "ok"),
            (Send(Own), "ok"),
            (Send(OwnWith(4)), "ok"),
            (Send(OwnWithNone), "ok"),
            (Send(Nothing), "ok"),
            (Receive, "frame 0"),
            (Receive, "encoded"),
            (Receive, "encoded"),
            (Receive, "frame 1 value 1"),
            (Receive, "frame 2 value 2"),
            (Receive, "frame 3"),
            (Receive, "frame 4 value 4"),
            (Receive, "frame 5"),
            (Receive, "limit reached"),
            (Receive, "limit reached"),
        ],
    },
    Row {
        name: "a session of the defaults",
        set: Set::Defaults,
        passes: Passes::One,
        fails: 99,
        steps: &[
            (NewFrame, "640 x 480, 320 x 240, 320 x 240"),
            (Header, "129 31 12 0"),
            (Failure, "none"),
        ],
    },
    Row {
        name: "a second pass waits for its data",
        set: Set::Controlled,
        passes: Passes::Second,
        fails: 99,
        steps: &[
            (Send(Shared), "ok"),
            (Flush, "ok"),
            (Receive, "not ready"),
            (Required, "1"),
            (Give(&METRICS), "ok"),
            (Required, "0"),
            (Receive, "frame 0"),
            (Receive, "limit reached"),
            // The header's one frame is coded.
            (Give(&METRICS), "failure"),
            (Failure, "pass data was refused: no frame data is needed"),
            (Take, "none"),
        ],
    },
    Row {
        name: "a first pass hands on its data",
        set: Set::Controlled,
        passes: Passes::First,
        fails: 99,
        steps: &[
            (SummarySize, "68"),
            (Out, "none"),
            (Send(Shared), "ok"),
            (Send(Shared), "ok"),
            (Flush, "ok"),
            // A key frame that is shown, and one of subtype 3.
            (Receive, "frame 0"),
            (Receive, "not ready"),
            (Out, "metrics 0 128"),
            (Receive, "frame 1"),
            (Receive, "limit reached"),
            (Out, "metrics 3 128"),
            // The magic number, version 1, two temporal units, a key frame and one of subtype 3.
            (
                Take,
                "summary of 68 bytes 86 65 50 80 1 0 0 0 2 0 0 0 1 0 0 0 0 0 0 0 0 0 0 0 1 0 0 0",
            ),
            (Take, "none"),
        ],
    },
    Row {
        name: "bytes begin a second pass",
        set: Set::Controlled,
        passes: Passes::One,
        fails: 99,
        steps: &[
            (Needed, "76"),
            (In(&SUMMARY), "68"),
            (Needed, "8"),
            (In(&METRICS), "8"),
            (Needed, "0"),
            (Send(Shared), "ok"),
            (Flush, "ok"),
            (Receive, "frame 0"),
        ],
    },
    Row {
        name: "a summary that is none fails the session",
        set: Set::Controlled,
        passes: Passes::One,
        fails: 99,
        steps: &[
            (In(&DAMAGED), "failure"),
            (
                Failure,
                "pass data was refused: The summary content is invalid: Magic value mismatch",
            ),
            (Needed, "failure"),
        ],
    },
];

#[test]
fn sessions_answer_step_by_step(rt: HostRuntime) -> Result<(), Fail> {
    let alloc = rt.alloc();
    for row in &ROWS {
        let name = row.name;
        let mut session = context(alloc, settings_of(row.set), row.passes, row.fails)??;
        for (step, wanted) in row.steps {
            let answer = act(alloc, &mut session, *step)?;
            assert_eq!(rt; answer.as_str(), *wanted, "{name}");
        }
    }
    Ok(())
}

#[test]
fn a_pass_wants_a_bitrate(rt: HostRuntime) -> Result<(), Fail> {
    for (set, passes, wanted) in [
        (Set::Plain, Passes::One, ""),
        (Set::Controlled, Passes::One, ""),
        (Set::Controlled, Passes::First, ""),
        (
            Set::Plain,
            Passes::First,
            "invalid configuration: The rate control requires a target bitrate",
        ),
        (Set::Controlled, Passes::Second, ""),
    ] {
        let alloc = rt.alloc();
        let text = match context(alloc, settings_of(set), passes, 99)? {
            Ok(_) => String::new(alloc),
            Err(error) => error.to_string(alloc)?,
        };
        assert_eq!(rt; text.as_str(), wanted);
    }
    Ok(())
}

fn inner(alloc: Global, enc: EncoderConfig) -> Result<Inner, SetupError> {
    ContextInner::new(
        alloc,
        &Config::new().with_encoder_config(enc),
        &no_levels(),
        &scripted_tables(),
        NoDetector,
        NoScale,
        SizedCoder::new(alloc, 99),
    )
}

// What is sent with a frame of this number: metadata of one block.
fn with_metadata(alloc: Global, number: u64) -> Result<FrameParameters<u64>, OutOfMemory> {
    let mut list = T35List::new(alloc);
    list.push(T35 {
        country_code: 255,
        country_code_extension_byte: 0,
        payload: Bytes::from_slice(alloc, b"AYAYA")?,
    })?;
    Ok(FrameParameters {
        frame_type_override: FrameTypeOverride::No,
        opaque: Some(number),
        t35_metadata: list,
    })
}

// Sends frames with metadata; whether each is taken.
fn takes(alloc: Global, session: &mut Inner, count: u64) -> Result<bool, OutOfMemory> {
    for number in 0..count {
        let sent = with_metadata(alloc, number)?;
        let answer = session.send_frame(alloc, Some(picture(alloc)?), Some(sent));
        if answer.is_err() {
            return Ok(false);
        }
    }
    Ok(true)
}

// The number of the frame of the next packet; 99 where there is none.
fn next(alloc: Global, session: &mut Inner) -> u64 {
    match session.receive_packet(alloc) {
        Ok(packet) => packet.input_frameno,
        Err(_) => 99,
    }
}

// What a session says of itself: whether it wants frames for its lookahead, a first one, one behind so many, and whether
// it is done.
fn said(session: &Inner, count: u64) -> [bool; 4] {
    [
        session.needs_more_fi_lookahead(),
        session.needs_more_frames(0),
        session.needs_more_frames(count),
        session.done_processing(),
    ]
}

// How many blocks of metadata the coder was given with each frame, and the blocks.
fn blocks(alloc: Global, coder: &SizedCoder) -> Result<String, Fail> {
    let mut text = String::new(alloc);
    for list in coder.notes.iter() {
        let count = list.as_slice().len();
        writeln!(&mut text, "{count}:")?;
        for block in list.as_slice() {
            let (code, extension) = (block.country_code, block.country_code_extension_byte);
            let size = block.payload.as_slice() == b"AYAYA".as_slice();
            writeln!(&mut text, "{code} {extension} {size}")?;
        }
    }
    Ok(text)
}

#[test]
fn a_session_keeps_metadata_and_says_of_itself(rt: HostRuntime) -> Result<(), Fail> {
    let alloc = rt.alloc();
    for (count, wanted) in [
        (1, "1:\n255 0 true\n"),
        (2, "1:\n255 0 true\n1:\n255 0 true\n"),
    ] {
        let mut session = inner(alloc, settings(5, 10))?;
        assert_eq!(rt; said(&session, count), [true, true, true, false]);
        assert!(rt; takes(alloc, &mut session, count)?);
        assert!(rt; session.flush(alloc).is_ok());
        for number in 0..count {
            assert_eq!(rt; said(&session, count), [false, true, false, false]);
            assert_eq!(rt; next(alloc, &mut session), number);
        }
        assert!(rt; session.done_processing());
        assert!(rt; session.failure().is_none());
        assert!(rt; session.rc().ready());
        assert_eq!(rt;
            session.container_sequence_header(),
            [0x81, 0x1f, 0x0c, 0x00]
        );
        assert_eq!(rt; session.new_frame(alloc)?.y.width, 64);
        let coder = session.into_coder();
        assert_eq!(rt; coder.calls, count);
        assert_eq!(rt; blocks(alloc, &coder)?.as_str(), wanted);
    }
    Ok(())
}

#[test]
fn frames_are_held_until_their_packets_are_given(rt: HostRuntime) -> Result<(), Fail> {
    let alloc = rt.alloc();
    let mut enc = settings(100, 1);
    enc.low_latency = true;
    let mut session = inner(alloc, enc)?;
    assert!(rt; takes(alloc, &mut session, 5)?);
    assert_eq!(rt; (session.frames_held(), session.places_held()), (5, 2));
    assert_eq!(rt; next(alloc, &mut session), 0);
    assert_eq!(rt; (session.frames_held(), session.places_held()), (4, 1));
    Ok(())
}
