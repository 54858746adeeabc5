//! The lines of commands, replies, packets and pass data.

use arrayvec::ArrayVec;
use av1_settings::{EncoderStats, EncoderStatus, FrameType};
use coding_base::{Bytes, Sequence};
use pass_data::RcData;
use pyramid::{Command, Refs};
use session_core::{LogEntry, LogList, Packet, PassTurn, QuantizerParameters, Reply, Turn};
use session_text::{
    ReportOptions, packets_text, pass_report_text, report_text, summary_text, write_command,
};
use std::alloc::Global;
use std::test::Fail;

#[test]
fn commands_have_their_lines(rt: HostRuntime) -> Result<(), Fail> {
    for (kind, slots, shown, line) in [
        (
            FrameType::KEY,
            [].as_slice(),
            true,
            "code 12 key refs - refresh 6 shown\n",
        ),
        (
            FrameType::INTER,
            [4].as_slice(),
            false,
            "code 12 inter refs 4 refresh 6 hidden\n",
        ),
        (
            FrameType::INTRA_ONLY,
            [4, 0].as_slice(),
            true,
            "code 12 intra refs 4 0 refresh 6 shown\n",
        ),
        (
            FrameType::SWITCH,
            [4, 0, 7].as_slice(),
            true,
            "code 12 switch refs 4 0 7 refresh 6 shown\n",
        ),
    ] {
        let mut text = String::new(rt.alloc());
        let command = Command::Code {
            frame: 12,
            kind,
            refs: Refs::new(slots).ok_or("no slots")?,
            refresh: 6,
            shown,
        };
        write_command(&mut text, &command)?;
        assert_eq!(rt; text.as_str(), line);
    }
    let mut text = String::new(rt.alloc());
    write_command(&mut text, &Command::Show { slot: 5 })?;
    assert_eq!(rt; text.as_str(), "show 5\n");
    Ok(())
}

fn turn(alloc: Global, reply: Reply<u8, u64>, log: LogList) -> Result<Vec<Turn<u8, u64>>, Fail> {
    let mut turns = Vec::new(alloc);
    turns.push(Turn {
        reply,
        log,
        reservoir: Some(-7),
    })?;
    Ok(turns)
}

// Options without and with all that may be added.
fn options() -> [ReportOptions; 2] {
    [false, true].map(|all| ReportOptions {
        bytes: all,
        quantizer_index: all,
        reservoir: all,
    })
}

// An entry of frame 4, with index 78.
fn coded(alloc: Global, trial: bool) -> Result<LogEntry, Fail> {
    Ok(LogEntry {
        command: Command::Code {
            frame: 4,
            kind: FrameType::KEY,
            refs: Refs::new(&[]).ok_or("no slots")?,
            refresh: 255,
            shown: true,
        },
        trial,
        bytes: Sequence::new(alloc),
        quant: Some(QuantizerParameters {
            log_base_q: 1,
            log_target_q: 2,
            dc_qi: [3, 4, 5],
            ac_qi: [78, 7, 8],
            searched_q: None,
            lambda_q57: 9,
            dist_scale_q16: [10, 11, 12],
        }),
        mean_scale: 0,
    })
}

fn packet(bytes: Bytes) -> Packet<u8, u64> {
    Packet {
        bytes,
        rec: None,
        source: None,
        input_frameno: 4,
        frame_type: FrameType::INTER,
        qp: 78,
        enc_stats: EncoderStats::default(),
        opaque: None,
    }
}

#[test]
fn replies_have_their_lines(rt: HostRuntime) -> Result<(), Fail> {
    let alloc = rt.alloc();
    for (reply, line) in [
        (Reply::Sent(3), "sent 3\n"),
        (Reply::Flushed, "flushed\n"),
        (
            Reply::Status(EncoderStatus::NeedMoreData),
            "need-more-data\n",
        ),
        (
            Reply::Status(EncoderStatus::EnoughData),
            "send enough-data\n",
        ),
        (
            Reply::Status(EncoderStatus::LimitReached),
            "limit-reached\n",
        ),
        (Reply::Status(EncoderStatus::Encoded), "encoded\n"),
        (Reply::Status(EncoderStatus::Failure), "failure\n"),
        (Reply::Status(EncoderStatus::NotReady), "not-ready\n"),
        (
            Reply::Status(EncoderStatus::FrameSizeMismatch),
            "send frame-size-mismatch\n",
        ),
        (Reply::Status(EncoderStatus::OutOfMemory), "out-of-memory\n"),
    ] {
        let turns = turn(alloc, reply, Sequence::new(alloc))?;
        for options in options() {
            let text = report_text(alloc, options, &turns)?;
            assert_eq!(rt; text.as_str(), line);
        }
    }
    Ok(())
}

#[test]
fn a_packet_stands_behind_its_commands(rt: HostRuntime) -> Result<(), Fail> {
    let alloc = rt.alloc();
    let bytes: Bytes = Sequence::from_slice(alloc, &[0x12, 0, 0xaf])?;
    let mut log = LogList::new(alloc);
    log.push(coded(alloc, true)?)?;
    log.push(coded(alloc, false)?)?;
    log.push(LogEntry {
        command: Command::Show { slot: 1 },
        trial: false,
        bytes: Sequence::new(alloc),
        quant: None,
        mean_scale: 0,
    })?;
    let turns = turn(alloc, Reply::Packet(packet(bytes)), log)?;
    let plain =
        "trial 4\ncode 4 key refs - refresh 255 shown\nshow 1\nFrame 4 - Inter frame - 3 bytes\n";
    let whole = "trial 4\ncode 4 key refs - refresh 255 shown\nq 78\nshow 1\n\
        Frame 4 - Inter frame - 3 bytes\nbytes 1200af\nreservoir -7\n";
    for (options, wanted) in options().into_iter().zip([plain, whole]) {
        let text = report_text(alloc, options, &turns)?;
        assert_eq!(rt; text.as_str(), wanted);
    }
    Ok(())
}

#[test]
fn packets_have_a_line_each(rt: HostRuntime) -> Result<(), Fail> {
    let alloc = rt.alloc();
    let mut packets = Vec::new(alloc);
    packets.push(packet(Sequence::from_slice(alloc, &[0x12, 0, 7])?))?;
    packets.push(packet(Sequence::new(alloc)))?;
    let text = packets_text(alloc, &packets)?;
    let lines = "Frame 4 - Inter frame - 3 bytes\nFrame 4 - Inter frame - 0 bytes\n";
    assert_eq!(rt; text.as_str(), lines);
    Ok(())
}

#[test]
fn a_session_has_six_lines(rt: HostRuntime) -> Result<(), Fail> {
    let alloc = rt.alloc();
    let mut turns: Vec<Turn<u8, u64>> = Vec::new(alloc);
    let none = summary_text(alloc, &turns)?;
    let empty = "frames 0\nkeys 0\nhidden 0\npackets 0\nbytes 0\n";
    assert_eq!(rt; none.as_str(), empty);
    let mut log = LogList::new(alloc);
    log.push(coded(alloc, true)?)?;
    log.push(coded(alloc, false)?)?;
    for (reply, log, reservoir) in [
        (Reply::Sent(0), LogList::new(alloc), Some(5)),
        (Reply::Sent(1), LogList::new(alloc), None),
        (
            Reply::Packet(packet(Sequence::from_slice(alloc, &[1, 2, 3])?)),
            log,
            Some(4),
        ),
        (
            Reply::Packet(packet(Sequence::from_slice(alloc, &[4])?)),
            LogList::new(alloc),
            Some(-3),
        ),
    ] {
        turns.push(Turn {
            reply,
            log,
            reservoir,
        })?;
    }
    let text = summary_text(alloc, &turns)?;
    let wanted = "frames 2\nkeys 1\nhidden 0\npackets 2\nbytes 4\nreservoir -3\n";
    assert_eq!(rt; text.as_str(), wanted);
    Ok(())
}

#[test]
fn pass_data_has_its_lines(rt: HostRuntime) -> Result<(), Fail> {
    let alloc = rt.alloc();
    let mut message: ArrayVec<u8, 68> = ArrayVec::new();
    for byte in [0, 0x2a, 0xf0] {
        message.try_push(byte).map_err(|_| "no room")?;
    }
    let mut log = LogList::new(alloc);
    log.push(coded(alloc, false)?)?;
    let mut turns: Vec<PassTurn<u8, u64>> = Vec::new(alloc);
    turns.push(PassTurn::Given)?;
    turns.push(PassTurn::Turn(Turn {
        reply: Reply::Packet(packet(Sequence::from_slice(alloc, &[0x1a])?)),
        log,
        reservoir: Some(6),
    }))?;
    turns.push(PassTurn::Taken(Some(RcData::Frame(message.clone()?))))?;
    turns.push(PassTurn::Taken(None))?;
    turns.push(PassTurn::Taken(Some(RcData::Summary(message))))?;
    let plain = "given\ncode 4 key refs - refresh 255 shown\nFrame 4 - Inter frame - 1 bytes\n\
        pass 002af0\nsummary 002af0\n";
    let whole = "given\ncode 4 key refs - refresh 255 shown\nq 78\n\
        Frame 4 - Inter frame - 1 bytes\nbytes 1a\nreservoir 6\npass 002af0\nsummary 002af0\n";
    for (options, wanted) in options().into_iter().zip([plain, whole]) {
        let text = pass_report_text(alloc, options, &turns)?;
        assert_eq!(rt; text.as_str(), wanted);
    }
    Ok(())
}
