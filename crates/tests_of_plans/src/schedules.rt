//! What is known of a plan while frames come, and what is guessed behind it.

use crate::pyramids::{Order, pyramid_of};
use pyramid::{Command, Place, Schedule};
use std::alloc::Global;
use std::test::Fail;

/// A call of a schedule; questions put their answers into the text.
#[derive(Clone, Copy)]
enum Call {
    Key(u64),
    // so many frames are accepted
    Frames(u64),
    // the same, one after the other, and then no more come
    Whole(u64),
    Close(u64),
    // so often
    Advance(u64),
    Places,
    Coded,
    Next,
    Guess(u64),
    GopStart,
    BuiltStart,
    StartAfter(u64),
}

/// A session: its name, order, interval of keys, calls and the answers.
type Row = (&'static str, Order, u64, &'static [Call], &'static str);

/// The answers of a session's calls.
fn play(alloc: Global, order: Order, interval: u64, calls: &[Call]) -> Result<String, Fail> {
    let mut schedule = Schedule::new(alloc, pyramid_of(order), interval.max(1));
    let mut text = String::new(alloc);
    for call in calls {
        change(&mut schedule, *call)?;
        answer(&mut text, &schedule, *call)?;
    }
    Ok(text)
}

fn change(schedule: &mut Schedule, call: Call) -> Result<(), Fail> {
    match call {
        Call::Key(position) => schedule.note_key(position)?,
        Call::Frames(frames) => accept(schedule, frames)?,
        Call::Whole(frames) => {
            for accepted in 0..frames {
                accept(schedule, accepted)?;
            }
            close(schedule, frames)?;
        }
        Call::Close(frames) => close(schedule, frames)?,
        Call::Advance(times) => {
            for _ in 0..times {
                schedule.advance();
            }
        }
        _ => {}
    }
    Ok(())
}

fn accept(schedule: &mut Schedule, frames: u64) -> Result<(), Fail> {
    schedule.extend(frames.min(100))?;
    Ok(())
}

fn close(schedule: &mut Schedule, frames: u64) -> Result<(), Fail> {
    schedule.close(frames.min(100))?;
    Ok(())
}

fn answer(text: &mut String, schedule: &Schedule, call: Call) -> Result<(), Fail> {
    match call {
        Call::Places => write_places(text, schedule)?,
        Call::Coded => write!(text, "coded {}, ", schedule.coded_ahead())?,
        Call::Next => write_next(text, schedule.next_command())?,
        Call::Guess(wanted) => write_guess(text, schedule, wanted)?,
        Call::GopStart => write!(text, "gop {}, ", schedule.gop_input_start())?,
        Call::BuiltStart => write!(text, "built {}, ", schedule.built_start())?,
        Call::StartAfter(start) => {
            write!(text, "after {}, ", schedule.start_after(start, 1000))?;
        }
        _ => {}
    }
    Ok(())
}

/// Puts what each place that is held has: the frame that it codes, `s` and the slot that it shows, or `-` where it is
/// cut.
fn write_places(text: &mut String, schedule: &Schedule) -> Result<(), Fail> {
    write!(text, "{}:", schedule.places_held())?;
    for k in 0..schedule.places_held() {
        match schedule.place_ahead(k) {
            Some(
                Place {
                    command: Some(Command::Code { frame, .. }),
                    ..
                },
            ) => write!(text, " {frame}")?,
            Some(
                Place {
                    command: Some(Command::Show { slot }),
                    ..
                },
            ) => write!(text, " s{slot}")?,
            _ => text.push_str(" -")?,
        }
    }
    text.push_str(", ")?;
    Ok(())
}

fn write_next(text: &mut String, next: Option<Command>) -> Result<(), Fail> {
    match next {
        Some(Command::Code { frame, .. }) => write!(text, "next {frame}, ")?,
        Some(Command::Show { slot }) => write!(text, "next s{slot}, ")?,
        None => text.push_str("next unknown, ")?,
    }
    Ok(())
}

/// Puts the guessed counts by subtype, then frames and temporal units.
fn write_guess(text: &mut String, schedule: &Schedule, wanted: u64) -> Result<(), Fail> {
    let guess = schedule.guess(wanted.min(100));
    for count in guess.nframes {
        write!(text, "{count} ")?;
    }
    write!(text, "= {} in {}, ", guess.frames, guess.tus)?;
    Ok(())
}

const PLACES: [Row; 6] = [
    (
        "two whole groups",
        Order::Reordered,
        5,
        &[Call::Key(0), Call::Whole(10), Call::Places, Call::Coded],
        "14: 0 4 2 1 s4 3 s1 5 9 7 6 s4 8 s1, coded 10, ",
    ),
    (
        "a group that is cut",
        Order::Reordered,
        5,
        &[Call::Key(0), Call::Whole(7), Call::Places, Call::Coded],
        "14: 0 4 2 1 s4 3 s1 5 - - 6 - - -, coded 7, ",
    ),
    (
        "a forced key at 2",
        Order::Reordered,
        5,
        &[Call::Key(0), Call::Key(2), Call::Whole(5), Call::Places],
        "14: 0 - - 1 - - - 2 - 4 3 s4 - -, ",
    ),
    (
        "a forced key at 1",
        Order::Reordered,
        5,
        &[Call::Key(0), Call::Key(1), Call::Whole(5), Call::Places],
        "8: 0 1 - 3 2 s4 4 -, ",
    ),
    (
        "without reordering",
        Order::Straight(2),
        5,
        &[Call::Key(0), Call::Whole(10), Call::Places],
        "10: 0 1 2 3 4 5 6 7 8 9, ",
    ),
    // a key at 2 that is decided once 9 frames are accepted
    (
        "frame by frame",
        Order::Reordered,
        100,
        &[
            Call::Key(0),
            Call::Frames(6),
            Call::Places,
            Call::Next,
            Call::Frames(7),
            Call::Places,
            Call::Next,
            Call::Frames(8),
            Call::Key(2),
            Call::Frames(10),
            Call::Places,
            Call::Frames(11),
            Call::Places,
            Call::Coded,
            Call::Advance(1),
            Call::Places,
            Call::Advance(1),
            Call::Places,
            Call::Coded,
            Call::Frames(15),
            Call::Places,
            // the next start, where no key above 2 is decided, and where 20 is
            Call::BuiltStart,
            Call::StartAfter(2),
            Call::Key(20),
            Call::StartAfter(2),
            Call::Close(15),
        ],
        "0:, next unknown, 1: 0, next 0, 1: 0, 7: 0 - - 1 - - -, coded 2, 4: 1 - - -, 0:, coded 0, 7: 2 6 4 3 s4 5 s1, built 2, after 102, after 20, ",
    ),
];

const GUESSES: [Row; 8] = [
    // a GOP of five inputs is a whole group, and the guessed key behind it stands at position 8
    (
        "whole groups",
        Order::Reordered,
        5,
        &[
            Call::GopStart,
            Call::Guess(0),
            Call::Guess(3),
            Call::Guess(8),
            Call::Guess(14),
        ],
        "gop 0, 0 0 0 0 0 = 0 in 0, 1 1 1 1 1 = 4 in 3, 1 1 1 2 2 = 5 in 5, 2 1 2 4 4 = 8 in 10, ",
    ),
    // a GOP of three inputs leaves out the group's positions 4 and 3
    (
        "a group that is cut",
        Order::Reordered,
        3,
        &[Call::Guess(6)],
        "1 0 1 1 1 = 3 in 3, ",
    ),
    // the last known GOP is guessed on behind its known places
    (
        "known places",
        Order::Reordered,
        100,
        &[
            Call::Key(0),
            Call::Whole(5),
            Call::Guess(5),
            Call::Guess(7),
            Call::Advance(3),
            Call::Guess(3),
        ],
        "1 1 1 2 2 = 5 in 5, 1 2 2 3 3 = 8 in 7, 0 0 0 2 1 = 2 in 3, ",
    ),
    // a key that is guessed in the last row of a cut group passes over the known key at 2
    (
        "past a known key",
        Order::Reordered,
        5,
        &[Call::Key(0), Call::Key(2), Call::Whole(5), Call::Guess(5)],
        "1 0 0 1 0 = 2 in 2, ",
    ),
    // the keys above it still count
    (
        "past two known keys",
        Order::Reordered,
        5,
        &[
            Call::Key(0),
            Call::Key(2),
            Call::Key(7),
            Call::Whole(10),
            Call::Guess(6),
            Call::Guess(7),
        ],
        "2 0 1 2 1 = 4 in 5, 3 0 1 2 1 = 4 in 6, ",
    ),
    (
        "without reordering",
        Order::Straight(0),
        3,
        &[Call::Guess(5)],
        "1 2 0 0 0 = 3 in 3, ",
    ),
    (
        "a known key at 5",
        Order::Straight(0),
        5,
        &[
            Call::Key(0),
            Call::Whole(10),
            Call::Advance(3),
            Call::Guess(4),
            Call::Advance(3),
            Call::GopStart,
        ],
        "0 2 0 0 0 = 2 in 2, gop 5, ",
    ),
    // a key at 4 that is decided, and isn't known
    (
        "a key that isn't known",
        Order::Straight(0),
        100,
        &[
            Call::Key(0),
            Call::Key(4),
            Call::Frames(6),
            Call::Places,
            Call::Guess(6),
        ],
        "3: 0 1 2, 1 3 0 0 0 = 4 in 4, ",
    ),
];

#[test]
fn schedules_answer(rt: HostRuntime) -> Result<(), Fail> {
    for (name, order, interval, calls, text) in PLACES.iter().chain(&GUESSES) {
        let answers = play(rt.alloc(), *order, *interval, calls)?;
        assert_eq!(rt; answers.as_str(), *text, "{name}");
    }
    Ok(())
}

/// Order, interval, a key behind that at 0, accepted frames, commands that are done, and the coded frames that are known.
const KNOWN: [(Order, u64, u64, u64, u64, &str); 22] = [
    // a group is known 6 frames behind its last position: four frames, then two shows
    (Order::Reordered, 100, 0, 0, 0, "coded 0, "),
    (Order::Reordered, 100, 0, 6, 0, "coded 0, "),
    (Order::Reordered, 100, 0, 7, 0, "coded 1, "),
    (Order::Reordered, 100, 0, 10, 0, "coded 1, "),
    (Order::Reordered, 100, 0, 11, 0, "coded 5, "),
    (Order::Reordered, 100, 0, 14, 0, "coded 5, "),
    (Order::Reordered, 100, 0, 15, 0, "coded 9, "),
    (Order::Reordered, 100, 0, 15, 1, "coded 8, "),
    (Order::Reordered, 100, 0, 15, 4, "coded 5, "),
    (Order::Reordered, 100, 0, 15, 5, "coded 5, "),
    (Order::Reordered, 100, 0, 15, 12, "coded 0, "),
    (Order::Reordered, 100, 0, 15, 20, "coded 0, "),
    // the key at 5 needs more than 14 frames, and the group behind it more than 15
    (Order::Reordered, 5, 0, 10, 0, "coded 1, "),
    (Order::Reordered, 5, 0, 14, 0, "coded 5, "),
    (Order::Reordered, 5, 0, 15, 0, "coded 6, "),
    (Order::Reordered, 5, 0, 16, 0, "coded 10, "),
    // the group of a key at 2 is cut to one frame, and known no sooner
    (Order::Reordered, 100, 2, 10, 0, "coded 1, "),
    (Order::Reordered, 100, 2, 11, 0, "coded 2, "),
    (Order::Reordered, 100, 2, 15, 0, "coded 7, "),
    // without reordering
    (Order::Straight(2), 5, 0, 4, 0, "coded 1, "),
    (Order::Straight(2), 5, 0, 8, 0, "coded 5, "),
    (Order::Straight(2), 5, 0, 9, 0, "coded 6, "),
];

#[test]
fn coded_frames_become_known(rt: HostRuntime) -> Result<(), Fail> {
    for (order, interval, key, frames, done, text) in KNOWN {
        let calls = [
            Call::Key(key),
            Call::Frames(frames),
            Call::Advance(done),
            Call::Coded,
        ];
        let answers = play(rt.alloc(), order, interval, &calls)?;
        assert_eq!(rt;
            answers.as_str(),
            text,
            "of {frames} at {key}, behind {done}"
        );
    }
    Ok(())
}
