use super::{Streams, sink, source, words};
use crate::Report;
use crate::gops::run_gops;
use crate::help::HELP;
use crate::program::run_program;
use crate::run::run_script;
use session_core::{PassTranscript, PassTurn, RcData, Reply, Transcript};
use std::str;
use std::sync::Wait;
use std::test::Fail;
use std::thread::Threads;

// Who is called.
#[derive(Clone, Copy)]
enum Call {
    Program,
    Session,
    Jobs,
}

// Who is called, with which words, on which script and streams, and what is told of that.
type Row = (
    Call,
    &'static [&'static str],
    &'static str,
    Streams,
    &'static str,
);

// The fields of a report at each status, by one pass, two, and jobs.
const REPORTS: [Row; 17] = [
    (
        Call::Session,
        &["run"],
        "sendopaque 7\nsend\nflush\nreceive 2\n",
        Streams::Whole,
        "status 0, 5 turns, packet 0 Some(7), packet 1 None: sent 0\nsent 1\nflushed\n\
        code 0 key refs - refresh 255 shown\nFrame 0 - Key frame - 102 bytes\n\
        code 1 inter refs 0 4 5 refresh 32 shown\nFrame 1 - Inter frame - 22 bytes\n",
    ),
    (
        Call::Session,
        &["run"],
        "x\n",
        Streams::Whole,
        "status 3, line 1: script line 1\n",
    ),
    (
        Call::Session,
        &["run"],
        "size 15 15\nflush\n",
        Streams::Whole,
        "status 4, config 1: invalid config 1\n",
    ),
    (
        Call::Session,
        &["run"],
        "fault 3\nsize 64 80\nkeyint 0 5\nrdo 10\nsend 10\nflush\nreceive 15\n",
        Streams::Whole,
        "status 8, command 3: coder fault 3\n",
    ),
    (
        Call::Session,
        &["run"],
        "summary 56\nflush\n",
        Streams::Whole,
        "status 10: pass data 1\n",
    ),
    (
        Call::Session,
        &["pass2"],
        "bitrate 30000\n\
        summary 5641325001000000010000000100000000000000000000000000000000000000\
        304554570000000000000000000000000000000000000000000000000000000000000000\n\
        send\nflush\nreceive\npass 0000008000000001\nreceive 2\n",
        Streams::Whole,
        "status 0, 6 turns of passes, 0 without a reservoir: sent 0\nflushed\nnot-ready\ngiven\n\
        trial 0\ncode 0 key refs - refresh 255 shown\nFrame 0 - Key frame - 102 bytes\nlimit-reached\n",
    ),
    // Four calls, and what is taken behind each receive.
    (
        Call::Session,
        &["pass1"],
        "bitrate 30000\nsend\nflush\nreceive 2\n",
        Streams::Whole,
        "status 0, 6 turns of passes, 0 without a reservoir, taken 00000080198cddfe, \
        taken 5641325001000000010000000100000000000000000000000000000000000000\
        4d53443d7f99740000000000000000000000000000000000000000000000000000000000: sent 0\nflushed\n\
        trial 0\ncode 0 key refs - refresh 255 shown\nFrame 0 - Key frame - 102 bytes\n\
        pass 00000080198cddfe\nlimit-reached\n\
        summary 5641325001000000010000000100000000000000000000000000000000000000\
        4d53443d7f99740000000000000000000000000000000000000000000000000000000000\n",
    ),
    (
        Call::Session,
        &["pass1"],
        "bitrate 30000\nflush\npass 0000008000000001\n",
        Streams::Whole,
        "status 3, line 3: script line 3\n",
    ),
    (
        Call::Session,
        &["pass1"],
        "flush\n",
        Streams::Whole,
        "status 4, config 16: invalid config 16\n",
    ),
    (
        Call::Session,
        &["pass1"],
        "bitrate 30000\nfault 1\nsend\nflush\nreceive\n",
        Streams::Whole,
        "status 8, command 0: coder fault 0\n",
    ),
    (
        Call::Session,
        &["pass2"],
        "summary 56\npass 00\n",
        Streams::Whole,
        "status 10: pass data 1\n",
    ),
    (
        Call::Jobs,
        &["gops", "2"],
        "fault 1\nsend\nflush\n",
        Streams::Whole,
        "status 0: Frame 0 - Key frame - 102 bytes\n",
    ),
    (
        Call::Jobs,
        &["gops", "2"],
        "send\n",
        Streams::Whole,
        "status 3, line 2: script line 2\n",
    ),
    (
        Call::Jobs,
        &["gops", "2"],
        "size 15 15\nflush\n",
        Streams::Whole,
        "status 4, config 1: invalid config 1\n",
    ),
    (
        Call::Jobs,
        &["gops", "2"],
        "cut 1\nfault 2\nsend 5\nflush\n",
        Streams::Whole,
        "status 8, command 2: coder fault 1 2\n",
    ),
    (
        Call::Jobs,
        &["gops", "2"],
        "summary 56\nflush\n",
        Streams::Whole,
        "status 10: pass data 1\n",
    ),
    (
        Call::Program,
        &["--version"],
        "x\n",
        Streams::Whole,
        "status 0: session_script 0.1.0\n",
    ),
];

const SUMMED_UP: &str =
    "status 0, 5001 turns: frames 2000\nkeys 63\nhidden 937\npackets 2000\nbytes 245244\n\
    reservoir 178560\n";

// Streams that fail at a place. A seed reads nothing, so it does not matter that a read would fail.
const STREAMS: [Row; 12] = [
    (
        Call::Program,
        &["run"],
        "flush\nreceive\n",
        Streams::Unread(1),
        "status 5: ",
    ),
    (
        Call::Session,
        &["run"],
        "flush\nreceive\n",
        Streams::Unwritten,
        "status 6, 2 turns: ",
    ),
    (
        Call::Program,
        &["run"],
        "flush\nreceive\n",
        Streams::Room(10),
        "status 6: flushed\nli",
    ),
    (
        Call::Session,
        &["run"],
        "x\n",
        Streams::Room(6),
        "status 3, line 1: script",
    ),
    (
        Call::Session,
        &["gen", "7"],
        "x\n",
        Streams::Unread(0),
        SUMMED_UP,
    ),
    (
        Call::Session,
        &["gen", "7"],
        "x\n",
        Streams::Unread(0),
        SUMMED_UP,
    ),
    (
        Call::Program,
        &["gen", "00000000000000000007"],
        "x\n",
        Streams::RoomUnread(10),
        "status 6: frames 200",
    ),
    (
        Call::Program,
        &["--help"],
        "x\n",
        Streams::Room(3),
        "status 6: ses",
    ),
    (
        Call::Program,
        &["--version"],
        "x\n",
        Streams::Room(3),
        "status 6: ses",
    ),
    (
        Call::Jobs,
        &["gops", "2"],
        "send\nflush\n",
        Streams::Room(10),
        "status 6: Frame 0 - ",
    ),
    (
        Call::Jobs,
        &["gops", "2"],
        "send\nflush\n",
        Streams::RoomUnread(10),
        "status 5: ",
    ),
    (
        Call::Session,
        &["gops", "2"],
        "flush\n",
        Streams::Whole,
        "status 2: ",
    ),
];

// Words that ask for no jobs.
const OTHER_WORDS: [&[&str]; 9] = [
    &["run"],
    &["gen", "7"],
    &["gops"],
    &["gops", "0"],
    &["gops", "17"],
    &["gops", "2 "],
    &["gops", "2", "2"],
    &["2", "gops"],
    &[],
];

// The fields of the report, or the status alone, and what was written.
fn report_of<R: AllocGlobal + Threads + Wait + Sync>(
    rt: &R,
    call: Call,
    texts: &[&str],
    script: &str,
    streams: Streams,
) -> Result<String, Fail> {
    let alloc = rt.alloc();
    let words = words(alloc, texts)?;
    let mut source = source(alloc, script, streams)?;
    let mut sink = sink(alloc, streams)?;
    let mut text = String::new(alloc);
    match call {
        Call::Program => {
            let status = run_program(alloc, &words, &mut source, &mut sink);
            write!(text, "status {status}")?;
        }
        Call::Session => {
            let report = run_script(alloc, &words, &mut source, &mut sink);
            write_report(&mut text, &report)?;
        }
        Call::Jobs => {
            let report = run_gops(rt, alloc, &words, &mut source, &mut sink);
            write_report(&mut text, &report)?;
        }
    }
    text.push_str(": ")?;
    text.push_str(str::from_utf8(sink.bytes())?)?;
    Ok(text)
}

fn write_report(text: &mut String, report: &Report) -> Result<(), Fail> {
    write!(text, "status {}", report.status)?;
    if let Some(line) = report.line {
        write!(text, ", line {line}")?;
    }
    if let Some(number) = report.config {
        write!(text, ", config {number}")?;
    }
    if let Some(command) = report.command {
        write!(text, ", command {command}")?;
    }
    if let Some(transcript) = &report.transcript {
        write_transcript(text, transcript)?;
    }
    if let Some(transcript) = &report.pass {
        write_passes(text, transcript)?;
    }
    Ok(())
}

// How many turns there are, and the opaque value of each packet in a short one.
fn write_transcript(text: &mut String, transcript: &Transcript<u8, u64>) -> Result<(), Fail> {
    write!(text, ", {} turns", transcript.turns.len())?;
    for turn in transcript.turns.as_slice().iter().take(9) {
        if let Reply::Packet(packet) = &turn.reply {
            write!(
                text,
                ", packet {} {:?}",
                packet.input_frameno, packet.opaque
            )?;
        }
    }
    Ok(())
}

// How many turns there are, how many of them without a reservoir, and each message taken in a short transcript.
fn write_passes(text: &mut String, transcript: &PassTranscript<u8, u64>) -> Result<(), Fail> {
    let turns = transcript.turns.as_slice();
    let without = turns.iter().filter(|turn| lacks_reservoir(turn)).count();
    write!(
        text,
        ", {} turns of passes, {without} without a reservoir",
        turns.len()
    )?;
    for turn in turns.iter().take(9) {
        match turn {
            PassTurn::Taken(Some(RcData::Frame(bytes))) => write_taken(text, bytes.as_slice())?,
            PassTurn::Taken(Some(RcData::Summary(bytes))) => write_taken(text, bytes.as_slice())?,
            _ => {}
        }
    }
    Ok(())
}

fn write_taken(text: &mut String, bytes: &[u8]) -> Result<(), Fail> {
    text.push_str(", taken ")?;
    for byte in bytes {
        write!(text, "{byte:02x}")?;
    }
    Ok(())
}

fn lacks_reservoir(turn: &PassTurn<u8, u64>) -> bool {
    match turn {
        PassTurn::Turn(turn) => turn.reservoir.is_none(),
        PassTurn::Taken(_) | PassTurn::Given => false,
    }
}

#[test]
fn calls_have_their_reports(rt: HostRuntime) -> Result<(), Fail> {
    for (call, words, script, streams, told) in &REPORTS {
        let report = report_of(&rt, *call, words, script, *streams)?;
        assert_eq!(rt; report.as_str(), *told, "{words:?} {script}");
    }
    Ok(())
}

#[test]
fn streams_may_fail(rt: HostRuntime) -> Result<(), Fail> {
    for (call, words, script, streams, told) in &STREAMS {
        let report = report_of(&rt, *call, words, script, *streams)?;
        assert_eq!(rt; report.as_str(), *told, "{words:?} {script}");
    }
    Ok(())
}

#[test]
fn other_words_ask_for_nothing(rt: HostRuntime) -> Result<(), Fail> {
    for words in &OTHER_WORDS {
        let report = report_of(&rt, Call::Jobs, words, "flush\n", Streams::Whole)?;
        assert_eq!(rt; report.as_str(), "status 2: ", "{words:?}");
    }
    Ok(())
}

#[test]
fn help_is_printed_whole(rt: HostRuntime) -> Result<(), Fail> {
    let mut help = String::from_str(rt.alloc(), "status 0: ")?;
    help.push_str(HELP)?;
    let report = report_of(&rt, Call::Program, &["--help"], "x\n", Streams::Whole)?;
    assert_eq!(rt; report.as_str(), help.as_str());
    Ok(())
}
