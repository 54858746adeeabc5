//! Summaries and metrics of `pass_stats`: what is read, what is written, and the texts of refusals.

ghost use Rattle.std.specs.Prelude.{◌<◌, pos, ◌≤ℤ◌};

use arrayvec::ArrayVec;
use pass_stats::laws::{metrics_again, summary_again};
use pass_stats::{
    InvalidFrameType, RCDeserialize, RCFrameMetrics, RCSummary, RateControlError, Why,
    parse_metrics, parse_summary, write_metrics, write_placeholder, write_summary,
};
use std::alloc::Global;
use std::test::Fail;

/// One temporal unit, one key frame, the exponents 48, 69, 84 and 87, and no scales.
pub const SUMMARY: [u8; 68] = [
    0x56, 0x41, 0x32, 0x50, 1, 0, 0, 0, 1, 0, 0, 0, 1, 0, 0, 0, 0, 0, 0, 0, 0, 0, 0, 0, 0, 0, 0, 0,
    0, 0, 0, 0, 0x30, 0x45, 0x54, 0x57, 0, 0, 0, 0, 0, 0, 0, 0, 0, 0, 0, 0, 0, 0, 0, 0, 0, 0, 0, 0,
    0, 0, 0, 0, 0, 0, 0, 0, 0, 0, 0, 0,
];

const SUMMARY_TOLD: &str = "1 [1, 0, 0, 0, 0] [48, 69, 84, 87] [0, 0, 0, 0] 1";

/// The units, the counts, the exponents, the sums of scales and the total, or why the bytes are no summary.
pub fn told_summary(alloc: Global, bytes: &[u8]) -> Result<String, Fail> {
    match parse_summary(bytes) {
        Ok(s) => told_fields(alloc, &s),
        Err(e) => Ok(e.to_string(alloc)?),
    }
}

pub fn told_fields(alloc: Global, s: &RCSummary) -> Result<String, Fail> {
    let counts = s.nframes.as_slice();
    let exponents = s.exp.as_slice();
    let sums = s.scale_sum.as_slice();
    Ok(format!(in alloc; "{} {counts:?} {exponents:?} {sums:?} {}", s.ntus, s.total)?)
}

/// Where the summary is damaged, by which bytes, and what is told of it.
const DAMAGED: [(usize, &[u8], &str); 11] = [
    (0, &[0x56], SUMMARY_TOLD),
    (
        0,
        &[0x57],
        "The summary content is invalid: Magic value mismatch",
    ),
    (
        4,
        &[2],
        "The summary content is invalid: Version number mismatch",
    ),
    (
        8,
        &[0],
        "The summary content is invalid: No TUs found in first pass summary",
    ),
    (
        19,
        &[0x80],
        "The summary content is invalid: Got negative frame count",
    ),
    (
        16,
        &[0xff, 0xff, 0xff, 0x7f],
        "The summary content is invalid: Frame count too large",
    ),
    (
        8,
        &[2],
        "The summary content is invalid: More TUs than frames",
    ),
    (
        12,
        &[0, 0, 0, 0, 1],
        "The summary content is invalid: No key frame",
    ),
    (32, &[0], "The summary content is invalid: Zero exponent"),
    (
        43,
        &[0x80],
        "The summary content is invalid: Got negative scale sum",
    ),
    (
        16,
        &[2],
        "1 [1, 2, 0, 0, 0] [48, 69, 84, 87] [0, 0, 0, 0] 3",
    ),
];

#[test]
fn summaries_read(rt: HostRuntime) -> Result<(), Fail> {
    for (at, damage, expected) in DAMAGED {
        let bytes = damaged(at, damage);
        assert_eq!(rt; told_summary(rt.alloc(), &bytes)?.as_str(), expected);
    }
    Ok(())
}

/// The summary with other bytes from a place on.
pub fn damaged(at: usize, damage: &[u8]) -> [u8; 68] {
    let mut bytes = SUMMARY;
    for (byte, other) in bytes.iter_mut().skip(at).zip(damage) {
        *byte = *other;
    }
    bytes
}

#[test]
fn summaries_of_other_lengths(rt: HostRuntime) -> Result<(), Fail> {
    let alloc = rt.alloc();
    let mut longer = [0xff; 78];
    longer[..68].copy_from_slice(&SUMMARY);
    assert_eq!(rt; told_summary(alloc, &longer)?.as_str(), SUMMARY_TOLD);
    let short = told_summary(alloc, &SUMMARY[..67])?;
    assert_eq!(rt;
        short.as_str(),
        "The summary content is invalid: Summary too short"
    );
    Ok(())
}

/// A summary of one key frame, built by its fields.
fn one_key_frame() -> RCSummary {
    RCSummary {
        ntus: 1,
        nframes: [1, 0, 0, 0, 0],
        exp: [1, 69, 84, 87],
        scale_sum: [0; 4],
        total: 1,
    }
}

/// A summary with another exponent and another sum of scales for one subtype.
#[tactic(auto, using(pass_stats::proofs::Entries::one_entry))]
fn changed(summary: RCSummary, subtype: usize, exponent: u8, sum: i64) -> RCSummary
    requires subtype { subtype < 4 }
    requires exponent { 0 < exponent }
    requires sum { pos 0 ≤ℤ sum }
{
    let mut summary = summary;
    summary.exp[subtype] = exponent;
    summary.scale_sum[subtype] = sum;
    summary
}

/// The bytes of a summary with other counts, which only a reader can show to be in the grammar.
fn written(summary: &RCSummary, nframes: [i32; 5]) -> ArrayVec<u8, 68> {
    write_summary(summary.ntus, nframes, summary.exp, summary.scale_sum)
}

#[test]
fn summaries_written(rt: HostRuntime) -> Result<(), Fail> {
    let alloc = rt.alloc();
    let summary = changed(one_key_frame(), 0, 48, 0);
    let rows = [
        ([1, 0, 0, 0, 0], SUMMARY_TOLD),
        (
            [1, 2, 0, 0, 0],
            "1 [1, 2, 0, 0, 0] [48, 69, 84, 87] [0, 0, 0, 0] 3",
        ),
        (
            [0, 2, 0, 0, 0],
            "The summary content is invalid: No key frame",
        ),
    ];
    for (counts, expected) in rows {
        let bytes = written(&summary, counts);
        assert_eq!(rt; told_summary(alloc, bytes.as_slice())?.as_str(), expected);
    }
    assert_eq!(rt;
        written(&summary, [1, 0, 0, 0, 0]).as_slice(),
        SUMMARY.as_slice()
    );
    let again = summary_again(&summary)?.clone()?;
    assert_eq!(rt; told_fields(alloc, &again)?.as_str(), SUMMARY_TOLD);
    let placeholder = write_placeholder();
    let mut empty = [0; 68];
    empty[..8].copy_from_slice(&SUMMARY[..8]);
    assert_eq!(rt; placeholder.as_slice(), empty.as_slice());
    Ok(())
}

/// The scale, the subtype and whether the frame is shown, or why there are no metrics.
fn told_metrics(
    alloc: Global,
    metrics: Result<RCFrameMetrics, InvalidFrameType>,
) -> Result<String, Fail> {
    match metrics {
        Ok(m) => Ok(format!(in alloc; "{} {} {}", m.log_scale_q24, m.fti, m.show_frame)?),
        Err(e) => Ok(e.to_string(alloc)?),
    }
}

#[test]
fn metrics_read_and_written(rt: HostRuntime) -> Result<(), Fail> {
    let alloc = rt.alloc();
    let metrics = RCFrameMetrics {
        log_scale_q24: 16_777_216,
        fti: 0,
        show_frame: true,
    };
    let bytes = [0, 0, 0, 0x80, 0, 0, 0, 1];
    for (answer, expected) in [
        (parse_metrics(&bytes), "16777216 0 true"),
        (metrics_again(&metrics), "16777216 0 true"),
        (
            parse_metrics(&[5, 0, 0, 0, 0, 0, 0, 0]),
            "invalid frame type 5",
        ),
    ] {
        assert_eq!(rt; told_metrics(alloc, answer)?.as_str(), expected);
    }
    assert_eq!(rt; write_metrics(&metrics).as_slice(), bytes.as_slice());
    Ok(())
}

#[test]
fn texts_of_refusals(rt: HostRuntime) -> Result<(), Fail> {
    let alloc = rt.alloc();
    let rows = [
        (Why::Short, "Summary too short"),
        (Why::Magic, "Magic value mismatch"),
        (Why::Version, "Version number mismatch"),
        (Why::NoTus, "No TUs found in first pass summary"),
        (Why::NegativeCount, "Got negative frame count"),
        (Why::CountTooLarge, "Frame count too large"),
        (Why::MoreTusThanFrames, "More TUs than frames"),
        (Why::NoKeyFrame, "No key frame"),
        (Why::ZeroExponent, "Zero exponent"),
        (Why::NegativeSum, "Got negative scale sum"),
    ];
    for (why, expected) in rows {
        assert_eq!(rt; why.to_string(alloc)?.as_str(), expected);
    }
    let short = RateControlError::CorruptedSummary(Why::Short).to_string(alloc)?;
    assert_eq!(rt;
        short.as_str(),
        "The summary content is invalid: Summary too short"
    );
    let version = RateControlError::InvalidVersion(-2).to_string(alloc)?;
    assert_eq!(rt; version.as_str(), "Incompatible version -2");
    let subtype = InvalidFrameType { value: 5 }.to_string(alloc)?;
    assert_eq!(rt; subtype.as_str(), "invalid frame type 5");
    Ok(())
}

#[test]
fn bytes_held_until_a_goal(rt: HostRuntime) {
    // From and to which byte of the summary, the goal, how many are taken, and how many are held then.
    let rows = [
        (0..30, 68, 30, 30),
        (30..30, 68, 0, 30),
        (30..68, 31, 1, 31),
        (31..68, 20, 0, 31),
    ];
    let mut held = RCDeserialize::default();
    for (part, goal, taken, length) in rows {
        let piece = SUMMARY.get(part).unwrap_or_default();
        assert!(rt; goal <= 68);
        assert_eq!(rt; held.fill(piece, goal), taken);
        assert_eq!(rt; held.held(), length);
        assert_eq!(rt; held.as_slice(), &SUMMARY[..length.min(68)]);
    }
    held.take();
    assert_eq!(rt; held.held(), 0);
    assert_eq!(rt; held.fill(&SUMMARY, 8), 8);
    assert_eq!(rt; held.as_slice(), &SUMMARY[..8]);
}
