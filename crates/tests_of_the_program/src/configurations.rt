//! The configurations that scripts give.

use crate::script_texts::read;
use av1_settings::{Config, EncoderConfig, RateControlConfig};
use script_lines::Dialect;
use std::alloc::Global;
use std::test::Fail;

/// What is told of a configuration.
#[derive(Clone, Copy)]
enum Part {
    Encoder,
    Speed,
    RateControl,
}

// Aspect, time base, distances of key frames, bitrate, level, frames of the reservoir.
fn write_encoder(text: &mut String, enc: &EncoderConfig) -> Result<(), Fail> {
    let (aspect, base) = (enc.sample_aspect_ratio, enc.time_base);
    let (min, max) = (enc.min_key_frame_interval, enc.max_key_frame_interval);
    let (level, delay) = (enc.level_idx, enc.reservoir_frame_delay);
    write!(
        text,
        "{}/{} {}/{} ",
        aspect.num, aspect.den, base.num, base.den
    )?;
    write!(text, "{min}-{max} {} {level:?} {delay:?}", enc.bitrate)?;
    Ok(())
}

// The lookahead, and whether there are several references.
fn write_speed(text: &mut String, enc: &EncoderConfig) -> Result<(), Fail> {
    let speed = &enc.speed_settings;
    write!(text, "{} {}", speed.rdo_lookahead_frames, speed.multiref)?;
    Ok(())
}

// Whether pass data is asked for, and units, frames and exponents of the summary.
fn write_rate_control(text: &mut String, control: &RateControlConfig) -> Result<(), Fail> {
    write!(text, "{}", control.emit_data)?;
    if let Some(summary) = &control.summary {
        let exponents = summary.exp.as_slice();
        write!(text, " {} {} {exponents:?}", summary.ntus, summary.total)?;
    }
    Ok(())
}

fn told_part(alloc: Global, config: &Config, part: Part) -> Result<String, Fail> {
    let mut text = String::new(alloc);
    match part {
        Part::Encoder => write_encoder(&mut text, &config.enc)?,
        Part::Speed => write_speed(&mut text, &config.enc)?,
        Part::RateControl => write_rate_control(&mut text, &config.rate_control)?,
    }
    Ok(text)
}

/// A part of a script's configuration, or why there is none.
fn told(alloc: Global, script: &str, part: Part) -> Result<String, Fail> {
    match read(alloc, Dialect::Run, script.as_bytes())?.config() {
        Ok(config) => told_part(alloc, &config, part),
        Err(error) => Ok(error.to_string(alloc)?),
    }
}

// A script, the part of its configuration, and what is told of it.
const SCRIPTS: [(&str, Part, &str); 12] = [
    (
        "aspect 4 3\ntimebase 1001 30000\nkeyint 3 0\nbitrate -5\nlevel 8\nreservoir 24\nflush\n",
        Part::Encoder,
        "4/3 1001/30000 3-715827882 -5 Some(8) Some(24)",
    ),
    // Preset 7 is the first without several references, preset 8 the first with a lookahead of 10. A preset stands
    // before all settings.
    ("", Part::Speed, "20 true"),
    ("preset 0\n", Part::Speed, "40 true"),
    ("preset 8\n", Part::Speed, "10 false"),
    ("preset 255\n", Part::Speed, "10 false"),
    ("rdo 5\npreset 7\nmultiref 1\n", Part::Speed, "5 true"),
    ("multiref 1\nrdo 5\npreset 10\n", Part::Speed, "5 true"),
    // One temporal unit, a key frame: counts 1, 0, 0, 0, 0; exponents 48, 69, 84, 87; sums 0.
    (
        "summary 5641325001000000010000000100000000000000000000000000000000000000\
        304554570000000000000000000000000000000000000000000000000000000000000000\nflush\n",
        Part::RateControl,
        "false 1 1 [48, 69, 84, 87]",
    ),
    ("flush\n", Part::RateControl, "false"),
    (
        "summary 56\n",
        Part::RateControl,
        "The summary content is invalid: Summary too short",
    ),
    (
        "size 0 0\nsummary 00\n",
        Part::RateControl,
        "The summary content is invalid: Summary too short",
    ),
    (
        "summary 5741325001000000010000000100000000000000000000000000000000000000\
        304554570000000000000000000000000000000000000000000000000000000000000000\nflush\n",
        Part::RateControl,
        "The summary content is invalid: Magic value mismatch",
    ),
];

#[test]
fn scripts_have_their_configurations(rt: HostRuntime) -> Result<(), Fail> {
    for (script, part, wanted) in SCRIPTS {
        let told = told(rt.alloc(), script, part)?;
        assert_eq!(rt; told.as_str(), wanted, "{script}");
    }
    Ok(())
}
