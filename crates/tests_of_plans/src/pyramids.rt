//! The pyramids that the tests of plans and schedules are run on, and the text of a command.

use av1_settings::{EncoderConfig, FrameType};
use pyramid::{Command, InterConfig, Refs};
use std::test::Fail;

/// How frames are ordered.
#[derive(Clone, Copy)]
pub enum Order {
    /// A pyramid of depth 2 with several references.
    Reordered,
    /// Depth 0 with several references, and a switch frame in every so many places.
    Straight(u64),
    /// Depth 0 with one reference, and a switch frame in every second place.
    Single,
}

/// The numbers of the pyramid that default settings give with this order.
pub fn pyramid_of(order: Order) -> InterConfig {
    let mut enc = EncoderConfig::default();
    match order {
        Order::Reordered => {}
        Order::Straight(interval) => {
            enc.low_latency = true;
            enc.speed_settings.multiref = true;
            enc.switch_frame_interval = interval;
        }
        Order::Single => {
            enc.low_latency = true;
            enc.speed_settings.multiref = false;
            enc.switch_frame_interval = 2;
        }
    }
    InterConfig::new(&enc)
}

/// Puts a command at the end: `KIND FRAME <SLOTS >REFRESH`, or `show SLOT`.
pub fn write_command(text: &mut String, command: &Command) -> Result<(), Fail> {
    match *command {
        Command::Code {
            frame,
            kind,
            refs,
            refresh,
            shown,
        } => {
            write!(text, "{} {frame} <", kind_word(kind))?;
            write_slots(text, &refs)?;
            write!(text, " >{refresh}{}", if shown { "" } else { " hidden" })?;
        }
        Command::Show { slot } => write!(text, "show {slot}")?,
    }
    Ok(())
}

fn kind_word(kind: FrameType) -> &'static str {
    match kind {
        FrameType::KEY => "key",
        FrameType::INTER => "inter",
        FrameType::INTRA_ONLY => "intra",
        FrameType::SWITCH => "switch",
    }
}

/// Puts the slots at the end, digit by digit.
pub fn write_slots(text: &mut String, refs: &Refs) -> Result<(), Fail> {
    for i in 0..refs.len() {
        write!(text, "{}", refs.get(i))?;
    }
    Ok(())
}
