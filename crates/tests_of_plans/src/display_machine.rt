//! Commands on eight slots: what is shown, and which slots are empty.

use crate::pyramids::{Order, pyramid_of};
use av1_settings::FrameType;
use pyramid::{Command, Refs, plan};
use slot_replay::{Display, ReplayError, replay};
use std::alloc::Global;
use std::test::Fail;

/// A command; a hidden frame names these slots, and goes into those of the bits.
#[derive(Clone, Copy)]
enum Step {
    Hidden(u64, &'static [u8], u8),
    Show(u8),
}

fn command_of(step: Step) -> Result<Command, Fail> {
    match step {
        Step::Hidden(frame, slots, refresh) => Ok(Command::Code {
            frame,
            kind: FrameType::INTER,
            refs: Refs::new(slots).ok_or("no slots")?,
            refresh,
            shown: false,
        }),
        Step::Show(slot) => Ok(Command::Show { slot }),
    }
}

/// What each step shows, or why it is refused.
fn shown(alloc: Global, steps: &[Step]) -> Result<String, Fail> {
    let mut display = Display::new();
    let mut text = String::new(alloc);
    for step in steps {
        match display.step(&command_of(*step)?) {
            Ok(Some(frame)) => write!(text, "{frame}, ")?,
            Ok(None) => text.push_str("nothing, ")?,
            Err(refused) => write!(text, "{refused}, ")?,
        }
    }
    Ok(text)
}

#[test]
fn frames_are_put_into_slots_and_shown(rt: HostRuntime) -> Result<(), Fail> {
    let steps = [
        Step::Show(2),
        Step::Hidden(7, &[], 0b0100_0001),
        Step::Hidden(8, &[6, 5, 3], 255),
        Step::Show(6),
        Step::Show(9),
        Step::Show(0),
    ];
    let text = shown(rt.alloc(), &steps)?;
    assert_eq!(rt;
        text.as_str(),
        "slot 2 is empty, nothing, slot 5 is empty, 7, slot 9 is empty, 7, "
    );
    Ok(())
}

/// The frames that are shown, or why commands are refused.
fn told(alloc: Global, answer: Result<Vec<u64>, ReplayError>) -> Result<String, Fail> {
    let mut text = String::new(alloc);
    match answer {
        Ok(frames) => {
            for frame in frames {
                write!(text, "{frame}, ")?;
            }
        }
        Err(refused) => write!(text, "{refused}")?,
    }
    Ok(text)
}

#[test]
fn commands_are_replayed(rt: HostRuntime) -> Result<(), Fail> {
    let alloc = rt.alloc();
    let planned = plan(alloc, &pyramid_of(Order::Reordered), 5, 5, &[0, 2])?;
    let mut refused = Vec::new(alloc);
    for step in [
        Step::Hidden(0, &[], 255),
        Step::Show(7),
        Step::Show(9),
        Step::Show(2),
    ] {
        refused.push(command_of(step)?)?;
    }
    for (commands, text) in [
        (planned.as_slice(), "0, 1, 2, 3, 4, "),
        (refused.as_slice(), "command 2: slot 9 is empty"),
    ] {
        let told = told(alloc, replay(alloc, commands))?;
        assert_eq!(rt; told.as_str(), text);
    }
    Ok(())
}

#[test]
fn refusals_have_their_texts(rt: HostRuntime) -> Result<(), Fail> {
    for (refused, text) in [
        (
            ReplayError::Empty { at: 3, slot: 9 },
            "command 3: slot 9 is empty",
        ),
        (ReplayError::OutOfMemory, "out of memory"),
    ] {
        let told = told(rt.alloc(), Err(refused))?;
        assert_eq!(rt; told.as_str(), text);
    }
    Ok(())
}
