mod lent;
mod reports;

use crate::{MemSink, MemSource};
use coding_base::{OutOfMemory, Sequence};
use std::alloc::Global;

// How the streams of a run go.
#[derive(Clone, Copy)]
enum Streams {
    // Without a fault.
    Whole,
    // The read of this number, from 0, fails.
    Unread(u64),
    // The first write fails.
    Unwritten,
    // So many bytes can be written.
    Room(usize),
    // The same, and the first read fails.
    RoomUnread(usize),
}

fn source(alloc: Global, script: &str, streams: Streams) -> Result<MemSource, OutOfMemory> {
    let mut fails = Vec::new(alloc);
    match streams {
        Streams::Unread(call) => fails.push(call)?,
        Streams::RoomUnread(_) => fails.push(0)?,
        Streams::Whole | Streams::Unwritten | Streams::Room(_) => {}
    }
    let bytes = Sequence::from_slice(alloc, script.as_bytes())?;
    Ok(MemSource::new(bytes, fails))
}

fn sink(alloc: Global, streams: Streams) -> Result<MemSink, OutOfMemory> {
    let mut fails = Vec::new(alloc);
    let mut room = 1 << 16;
    match streams {
        Streams::Unwritten => fails.push(0)?,
        Streams::Room(bytes) | Streams::RoomUnread(bytes) => room = bytes,
        Streams::Whole | Streams::Unread(_) => {}
    }
    MemSink::new(alloc, room, fails)
}

fn words(alloc: Global, texts: &[&str]) -> Result<Vec<String>, OutOfMemory> {
    let mut words = Vec::new(alloc);
    for text in texts {
        words.push(String::from_str(alloc, text)?)?;
    }
    Ok(words)
}
