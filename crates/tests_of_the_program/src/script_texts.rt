//! Scripts as texts.

use av1_frame::ChromaSampling;
use script_lines::{Action, Dialect, Print, Script, ScriptCall, ScriptError, Setting, parse};
use std::alloc::Global;
use std::test::Fail;

/// A word, and the numbers behind it.
type Words = (&'static str, [Option<i128>; 2]);

/// Reads a script.
pub fn read(alloc: Global, dialect: Dialect, text: &[u8]) -> Result<Script, ScriptError> {
    parse(alloc, dialect, text)
}

/// Why bytes are no script, or that they are one.
pub fn refusal(alloc: Global, dialect: Dialect, text: &[u8]) -> Result<String, Fail> {
    match read(alloc, dialect, text) {
        Ok(_) => Ok(String::from_str(alloc, "a script")?),
        Err(error) => Ok(error.to_string(alloc)?),
    }
}

/// The lines of a script by its fields, each call on a line of its own.
pub fn told(alloc: Global, script: &Script) -> Result<String, Fail> {
    let mut text = told_settings(alloc, script.settings.as_slice())?;
    if let Some(bytes) = &script.summary {
        let bytes = bytes.as_slice();
        write!(text, "summary {bytes:?}\n")?;
    }
    write_answers(&mut text, script)?;
    for print in script.prints.as_slice() {
        write_line(&mut text, words_of_print(print))?;
    }
    write_calls(&mut text, script.calls.as_slice())?;
    Ok(text)
}

/// A line for each setting.
pub fn told_settings(alloc: Global, settings: &[Setting]) -> Result<String, Fail> {
    let mut text = String::new(alloc);
    for setting in settings {
        write_line(&mut text, words_of_setting(setting))?;
    }
    Ok(text)
}

/// A line for each call.
pub fn told_calls(alloc: Global, calls: &[ScriptCall]) -> Result<String, Fail> {
    let mut text = String::new(alloc);
    write_calls(&mut text, calls)?;
    Ok(text)
}

fn write_answers(text: &mut String, script: &Script) -> Result<(), Fail> {
    let cuts = script.cuts.as_slice();
    let counts = script.byte_counts.as_slice();
    let faults = script.faults.as_slice();
    let scales = script.scales.as_slice();
    write!(
        text,
        "cuts {cuts:?} bytes {counts:?} faults {faults:?} scales {scales:?}\n"
    )?;
    Ok(())
}

fn write_calls(text: &mut String, calls: &[ScriptCall]) -> Result<(), Fail> {
    for call in calls {
        match call {
            ScriptCall::Act(action) => write_line(text, words_of_action(action))?,
            ScriptCall::Give(bytes) => {
                let bytes = bytes.as_slice();
                write!(text, "pass {bytes:?}\n")?;
            }
        }
    }
    Ok(())
}

fn write_line(text: &mut String, (word, numbers): Words) -> Result<(), Fail> {
    text.push_str(word)?;
    for number in numbers.iter().flatten() {
        write!(text, " {number}")?;
    }
    text.push_str("\n")?;
    Ok(())
}

fn alone(word: &'static str) -> Words {
    (word, [None, None])
}

fn with_one(word: &'static str, number: i128) -> Words {
    (word, [Some(number), None])
}

fn with_two(word: &'static str, first: i128, second: i128) -> Words {
    (word, [Some(first), Some(second)])
}

fn words_of_setting(setting: &Setting) -> Words {
    match *setting {
        Setting::Preset(speed) => with_one("preset", speed as i128),
        Setting::Lookahead(frames) => with_one("rdo", frames as i128),
        Setting::SeveralReferences(several) => with_one("multiref", several as i128),
        Setting::Size { width, height } => with_two("size", width as i128, height as i128),
        Setting::SampleAspect { num, den } => with_two("aspect", num as i128, den as i128),
        Setting::TimeBase { num, den } => with_two("timebase", num as i128, den as i128),
        Setting::BitDepth(bits) => with_one("depth", bits as i128),
        Setting::Chroma(sampling) => with_one("chroma", number_of_sampling(sampling)),
        Setting::KeyInterval { min, max } => with_two("keyint", min as i128, max as i128),
        Setting::SwitchInterval(frames) => with_one("switch", frames as i128),
        Setting::LowLatency => alone("lowlatency"),
        Setting::StillPicture => alone("still"),
        Setting::TimingInfo => alone("timing"),
        Setting::Level(index) => with_one("level", index as i128),
        Setting::Quantizer(index) => with_one("quantizer", index as i128),
        Setting::MinQuantizer(index) => with_one("minq", index as i128),
        Setting::Bitrate(bits) => with_one("bitrate", bits as i128),
        Setting::ReservoirDelay(frames) => with_one("reservoir", frames as i128),
    }
}

fn number_of_sampling(sampling: ChromaSampling) -> i128 {
    match sampling {
        ChromaSampling::Cs420 => 420,
        ChromaSampling::Cs422 => 422,
        ChromaSampling::Cs444 => 444,
        ChromaSampling::Cs400 => 400,
    }
}

fn words_of_print(print: &Print) -> Words {
    match print {
        Print::Bytes => alone("print bytes"),
        Print::QuantizerIndex => alone("print q"),
        Print::Reservoir => alone("print reservoir"),
    }
}

fn words_of_action(action: &Action) -> Words {
    match *action {
        Action::Send => alone("send"),
        Action::SendKey => alone("sendkey"),
        Action::SendOpaque(value) => with_one("sendopaque", value as i128),
        Action::SendSize { width, height } => {
            with_two("sendsize", width as i128, height as i128)
        }
        Action::Flush => alone("flush"),
        Action::Receive => alone("receive"),
    }
}
