//! Plans of whole sessions, command by command.

use crate::pyramids::{Order, pyramid_of, write_command, write_slots};
use pyramid::{Command, Refs, plan};
use std::alloc::Global;
use std::test::Fail;

struct Session {
    name: &'static str,
    order: Order,
    interval: u64,
    frames: u64,
    keys: &'static [u64],
    // each with its subtype before it
    commands: &'static [&'static str],
}

const SESSIONS: [Session; 7] = [
    Session {
        name: "two whole groups",
        order: Order::Reordered,
        interval: 5,
        frames: 10,
        keys: &[0],
        commands: &[
            "0 key 0 < >255",
            "1 inter 4 <03 >2 hidden",
            "2 inter 2 <014 >16 hidden",
            "3 inter 1 <045 >32",
            "4 show 4",
            "3 inter 3 <415 >32",
            "4 show 1",
            "0 key 5 < >255",
            "1 inter 9 <03 >2 hidden",
            "2 inter 7 <014 >16 hidden",
            "3 inter 6 <045 >32",
            "4 show 4",
            "3 inter 8 <415 >32",
            "4 show 1",
        ],
    },
    Session {
        name: "a group that is cut",
        order: Order::Reordered,
        interval: 5,
        frames: 7,
        keys: &[0],
        commands: &[
            "0 key 0 < >255",
            "1 inter 4 <03 >2 hidden",
            "2 inter 2 <014 >16 hidden",
            "3 inter 1 <045 >32",
            "4 show 4",
            "3 inter 3 <415 >32",
            "4 show 1",
            "0 key 5 < >255",
            "3 inter 6 <045 >32",
        ],
    },
    Session {
        name: "a forced key at 2",
        order: Order::Reordered,
        interval: 5,
        frames: 5,
        keys: &[0, 2],
        commands: &[
            "0 key 0 < >255",
            "3 inter 1 <045 >32",
            "0 key 2 < >255",
            "2 inter 4 <014 >16 hidden",
            "3 inter 3 <045 >32",
            "4 show 4",
        ],
    },
    Session {
        name: "a forced key at 1",
        order: Order::Reordered,
        interval: 5,
        frames: 5,
        keys: &[0, 1],
        commands: &[
            "0 key 0 < >255",
            "0 key 1 < >255",
            "2 inter 3 <014 >16 hidden",
            "3 inter 2 <045 >32",
            "4 show 4",
            "3 inter 4 <415 >32",
        ],
    },
    Session {
        name: "an interval of one",
        order: Order::Reordered,
        interval: 1,
        frames: 3,
        keys: &[0],
        commands: &["0 key 0 < >255", "0 key 1 < >255", "0 key 2 < >255"],
    },
    Session {
        name: "switch frames without reordering",
        order: Order::Straight(2),
        interval: 5,
        frames: 5,
        keys: &[0],
        commands: &[
            "0 key 0 < >255",
            "1 inter 1 <03 >2",
            "1 switch 2 <10 >255",
            "1 inter 3 <21 >8",
            "1 switch 4 <32 >255",
        ],
    },
    Session {
        name: "one reference",
        order: Order::Single,
        interval: 2,
        frames: 3,
        keys: &[0],
        commands: &["0 key 0 < >255", "1 inter 1 <0 >2", "0 key 2 < >255"],
    },
];

fn planned(alloc: Global, session: &Session) -> Result<Vec<Command>, Fail> {
    let cfg = pyramid_of(session.order);
    let interval = session.interval.max(1);
    let frames = session.frames.min(100);
    Ok(plan(alloc, &cfg, interval, frames, session.keys)?)
}

/// The commands, each with its subtype before it and a comma behind it.
fn told(alloc: Global, commands: &[Command]) -> Result<String, Fail> {
    let mut text = String::new(alloc);
    for command in commands {
        write!(text, "{} ", command.subtype())?;
        write_command(&mut text, command)?;
        text.push_str(", ")?;
    }
    Ok(text)
}

#[test]
fn sessions_have_their_plans(rt: HostRuntime) -> Result<(), Fail> {
    for session in &SESSIONS {
        let mut wanted = String::new(rt.alloc());
        for command in session.commands {
            wanted.push_str(command)?;
            wanted.push_str(", ")?;
        }
        let commands = planned(rt.alloc(), session)?;
        let told = told(rt.alloc(), commands.as_slice())?;
        assert_eq!(rt; told.as_str(), wanted.as_str(), "{}", session.name);
    }
    Ok(())
}

/// The slots, or that they are refused.
fn slots(alloc: Global, slots: &[u8]) -> Result<String, Fail> {
    let mut text = String::new(alloc);
    match Refs::new(slots) {
        Some(refs) => {
            write!(text, "{}: ", refs.len())?;
            write_slots(&mut text, &refs)?;
        }
        None => text.push_str("refused")?,
    }
    Ok(text)
}

#[test]
fn slots_are_checked(rt: HostRuntime) -> Result<(), Fail> {
    for (named, text) in [
        ([4, 1, 5].as_slice(), "3: 415"),
        ([].as_slice(), "0: "),
        ([0, 1, 2, 3].as_slice(), "refused"),
        ([8].as_slice(), "refused"),
        ([2, 5, 2].as_slice(), "refused"),
    ] {
        assert_eq!(rt; slots(rt.alloc(), named)?.as_str(), text);
    }
    Ok(())
}
