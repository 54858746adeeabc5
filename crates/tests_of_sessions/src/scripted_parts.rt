//! The coder, the detector and the scales that a script sets.

use av1_frame::{ChromaSampling, Frame};
use av1_settings::{FrameType, SceneDetectionSpeed, T35List};
use pyramid::{Command, Refs};
use scripted::{ScriptedCoder, ScriptedDetector, ScriptedScales, scripted_tables};
use session_core::{CodeJob, Detector, FrameCoder, MeanScale, QuantizerParameters};
use std::alloc::Global;
use std::sync::Arc;
use std::test::Fail;

// Quantisers, which change nothing of what the coder gives.
const QUANT: QuantizerParameters = QuantizerParameters {
    log_base_q: 1,
    log_target_q: 2,
    dc_qi: [3, 4, 5],
    ac_qi: [6, 7, 8],
    searched_q: None,
    lambda_q57: 9,
    dist_scale_q16: [10, 11, 12],
};

fn picture(alloc: Global) -> Result<Arc<Frame<u8>>, Fail> {
    Ok(Arc::new(alloc, Frame::new(alloc, 16, 16, ChromaSampling::Cs420)?)?)
}

fn job(alloc: Global, frame: u64, kind: FrameType) -> Result<CodeJob<u8>, Fail> {
    Ok(CodeJob {
        command: Command::Code {
            frame,
            kind,
            refs: Refs::new(&[]).ok_or("no slots")?,
            refresh: 255,
            shown: true,
        },
        trial: false,
        quant: QUANT,
        picture: picture(alloc)?,
        t35: Arc::new(alloc, T35List::new(alloc))?,
    })
}

// A call of the coder.
#[derive(Clone, Copy)]
enum Asked {
    Code(u64, FrameType),
    Show(u8),
}

// The bytes as their count and their value where all are alike, or the coder's fault.
fn answered(alloc: Global, coder: &mut ScriptedCoder, asked: Asked) -> Result<String, Fail> {
    match asked {
        Asked::Code(frame, kind) => match coder.code(alloc, &job(alloc, frame, kind)?) {
            Ok(coded) => alike(alloc, coded.bytes.as_slice()),
            Err(error) => Ok(format!(in alloc; "{error}")?),
        },
        Asked::Show(slot) => match coder.show(alloc, slot, 2) {
            Ok(shown) => {
                let [first, second, third] = shown.bytes;
                Ok(format!(in alloc; "{first} {second} {third}")?)
            }
            Err(error) => Ok(format!(in alloc; "{error}")?),
        },
    }
}

fn alike(alloc: Global, bytes: &[u8]) -> Result<String, Fail> {
    let count = bytes.len();
    match bytes.first() {
        Some(value) if bytes.iter().all(|byte| byte == value) => {
            Ok(format!(in alloc; "{count} of {value}")?)
        }
        _ => Ok(format!(in alloc; "{count} bytes")?),
    }
}

// The number of the coder's first frame, counts of bytes, calls that fail; calls with their answers and the coder's
// faults behind each.
type CoderRow = (
    u64,
    &'static [(u64, u64)],
    &'static [u64],
    &'static [(Asked, &'static str, u64)],
);

use Asked::{Code, Show};

const INTER: FrameType = FrameType::INTER;

const CODERS: [CoderRow; 4] = [
    // Frames and shows have their bytes: 259 modulo 256.
    (
        0,
        &[],
        &[],
        &[
            (Code(259, FrameType::KEY), "100 of 3", 0),
            (Code(259, FrameType::INTER), "20 of 3", 0),
            (Code(259, FrameType::INTRA_ONLY), "20 of 3", 0),
            (Code(259, FrameType::SWITCH), "20 of 3", 0),
            (Show(4), "26 1 4", 0),
        ],
    ),
    // The last count for a frame is its own.
    (
        0,
        &[(0, 3), (1, 4096), (0, 2), (2, 1)],
        &[],
        &[
            (Code(0, INTER), "2 of 0", 0),
            (Code(1, INTER), "4096 of 1", 0),
            (Code(2, INTER), "1 of 2", 0),
            (Code(3, INTER), "20 of 3", 0),
        ],
    ),
    // The least fault comes first, and all calls behind it fail.
    (
        0,
        &[],
        &[5, 2, 7],
        &[
            (Code(0, INTER), "20 of 0", 0),
            (Show(0), "26 1 0", 0),
            (Code(1, INTER), "the coder failed", 1),
            (Show(0), "the coder failed", 2),
        ],
    ),
    // Rules may count from another frame.
    (
        254,
        &[(0, 7), (255, 2), (256, 3)],
        &[3],
        &[
            (Code(0, INTER), "20 of 254", 0),
            (Code(1, INTER), "2 of 255", 0),
            (Code(2, INTER), "3 of 0", 0),
            (Code(u64::MAX, INTER), "the coder failed", 1),
        ],
    ),
];

#[test]
fn coders_answer_by_their_rules(rt: HostRuntime) -> Result<(), Fail> {
    let alloc = rt.alloc();
    for (first, counts, faults, calls) in CODERS {
        let mut coder = ScriptedCoder::with_rules_from(alloc, first, counts, faults)?;
        for (asked, wanted, failed) in calls {
            let answer = answered(alloc, &mut coder, *asked)?;
            assert_eq!(rt; answer.as_str(), *wanted);
            assert_eq!(rt; coder.faults(), *failed);
        }
    }
    let mut plain = ScriptedCoder::new(alloc);
    assert_eq!(rt;
        answered(alloc, &mut plain, Code(259, FrameType::KEY))?.as_str(),
        "100 of 3"
    );
    let mut ruled = ScriptedCoder::with_rules(alloc, &[(0, 2)], &[0])?;
    assert_eq!(rt;
        answered(alloc, &mut ruled, Show(4))?.as_str(),
        "the coder failed"
    );
    Ok(())
}

// The number of the first frame, scales of frames; numbers with their scales.
type ScaleRow = (u64, &'static [(u64, i64)], &'static [(u64, i64)]);

const SCALES: [ScaleRow; 2] = [
    // The last scale for a frame is its own.
    (
        0,
        &[(4, 7), (1, i64::MIN), (4, -3)],
        &[(4, -3), (0, 0), (1, i64::MIN)],
    ),
    // Rules may count from another frame.
    (
        4,
        &[(0, 5), (4, 7), (5, -3)],
        &[(0, 7), (1, -3), (4, 0), (u64::MAX, 0)],
    ),
];

#[test]
fn scales_answer_by_their_rules(rt: HostRuntime) -> Result<(), Fail> {
    let alloc = rt.alloc();
    let picture = picture(alloc)?;
    for (first, rules, answers) in SCALES {
        let mut scales = match first {
            0 => ScriptedScales::new(alloc, rules)?,
            _ => ScriptedScales::new_from(alloc, first, rules)?,
        };
        for (number, wanted) in answers {
            let answer = scales.log_isqrt_mean_scale(alloc, *number, &picture)?;
            assert_eq!(rt; answer, *wanted);
        }
        for (measured, (number, wanted)) in scales.measured().iter().zip(answers) {
            assert_eq!(rt; (measured.number, measured.answer), (*number, *wanted));
        }
        assert_eq!(rt; scales.measured().len(), answers.len());
    }
    Ok(())
}

#[test]
fn scenes_begin_at_the_cuts(rt: HostRuntime) -> Result<(), Fail> {
    let alloc = rt.alloc();
    let mut detector = ScriptedDetector::new(alloc, &[3, 25, 3])?;
    let frame: Frame<u8> = Frame::new(alloc, 16, 16, ChromaSampling::Cs420)?;
    let picture = Arc::new(alloc, frame)?;
    let mut frames = Vec::new(alloc);
    frames.push(picture.clone()?)?;
    frames.push(picture)?;
    for (position, wanted) in [(1, false), (3, true), (24, false), (25, true), (26, false)] {
        let answer = detector.ask(
            alloc,
            SceneDetectionSpeed::Standard,
            &frames,
            position,
            position - 1,
        )?;
        assert_eq!(rt; answer, wanted);
    }
    let mut kept = Vec::new(alloc);
    for question in detector.questions() {
        let frames = question.frames.len();
        kept.push((
            question.position,
            question.last_key,
            frames,
            question.answer,
        ))?;
    }
    let wanted: [(u64, u64, usize, bool); 5] = [
        (1, 0, 2, false),
        (3, 2, 2, true),
        (24, 23, 2, false),
        (25, 24, 2, true),
        (26, 25, 2, false),
    ];
    assert_eq!(rt; kept.as_slice(), wanted.as_slice());
    Ok(())
}

#[test]
fn tables_step_by_eight(rt: HostRuntime) {
    let tables = scripted_tables();
    for (index, value) in [(0, 8), (1, 16), (100, 808), (255, 2048)] {
        assert_eq!(rt; (tables.ac(index), tables.dc(index)), (value, value));
    }
}
