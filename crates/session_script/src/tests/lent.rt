use super::{Streams, sink, source, words};
use crate::run::run_with;
use crate::{ScriptedCoder, ScriptedDetector, ScriptedScales};
use std::alloc::Global;
use std::str;
use std::test::Fail;

const SCRIPT: &str = "size 16 16\nbitrate 30000\nscale 0 -8\nscale 3 9\nscale 0 7\ncut 2\n\
    send\nsendkey\nsend 2\nflush\nreceive 2\n";

const TOLD: &str = "sent 0\nsent 1\nsent 2\nsent 3\nflushed\n\
    trial 0\ncode 0 key refs - refresh 255 shown\nFrame 0 - Key frame - 102 bytes\n\
    code 1 key refs - refresh 255 shown\nFrame 1 - Key frame - 102 bytes\n\
    status 0\nframe 2 after 1 true\nframe 3 after 2 false\nscale 0 7\nscale 1 0\ncoder 3\n";

// The report of the script on what is lent, and the status.
fn reported(
    alloc: Global,
    coder: &mut ScriptedCoder,
    detector: &mut ScriptedDetector,
    scales: &mut ScriptedScales,
) -> Result<String, Fail> {
    let words = words(alloc, &["run"])?;
    let mut source = source(alloc, SCRIPT, Streams::Whole)?;
    let mut sink = sink(alloc, Streams::Whole)?;
    let outcome = run_with(
        alloc,
        &words,
        &mut source,
        &mut sink,
        coder,
        detector,
        scales,
    );
    let mut told = String::from_str(alloc, str::from_utf8(sink.bytes())?)?;
    write!(told, "status {}\n", outcome.status())?;
    Ok(told)
}

fn tell_questions(told: &mut String, detector: &ScriptedDetector) -> Result<(), Fail> {
    for asked in detector.questions() {
        write!(
            told,
            "frame {} after {} {}\n",
            asked.position, asked.last_key, asked.answer
        )?;
    }
    Ok(())
}

fn tell_scales(told: &mut String, scales: &ScriptedScales) -> Result<(), Fail> {
    for one in scales.measured() {
        write!(told, "scale {} {}\n", one.number, one.answer)?;
    }
    Ok(())
}

// What was lent is made anew by the script's rules, and tells what the session asked.
#[test]
fn what_is_lent_keeps_its_questions(rt: HostRuntime) -> Result<(), Fail> {
    let alloc = rt.alloc();
    let mut coder = ScriptedCoder::with_rules(alloc, &[], &[0])?;
    let mut detector = ScriptedDetector::new(alloc, &[1, 3])?;
    let mut scales = ScriptedScales::new(alloc, &[(1, 5)])?;
    let mut told = reported(alloc, &mut coder, &mut detector, &mut scales)?;
    tell_questions(&mut told, &detector)?;
    tell_scales(&mut told, &scales)?;
    write!(told, "coder {}\n", coder.given().len())?;
    assert_eq!(rt; told.as_str(), TOLD);
    Ok(())
}
