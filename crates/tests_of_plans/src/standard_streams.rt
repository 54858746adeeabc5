//! Sources and sinks over the readers and writers of std.

use byte_streams::{Failed, Reading, Sink, Source, Writing, read_all, write_all};
use std::alloc::Global;
use std::io;
use std::io::{Read, Write};
use std::test::Fail;

/// A reader and a writer whose every call fails.
#[derive(Drop)]
struct Broken;

impl Read for Broken {
    fn read(&mut self, _buf: &mut [u8]) -> io::Result<usize> {
        Err(io::Error::from(io::ErrorKind::BrokenPipe))
    }
}

impl Write for Broken {
    fn write(&mut self, _buf: &[u8]) -> io::Result<usize> {
        Err(io::Error::from(io::ErrorKind::BrokenPipe))
    }

    fn flush(&mut self) -> io::Result<()> {
        Ok(())
    }
}

/// How many bytes a call took, or that it failed.
fn write_answer(text: &mut String, answer: Result<usize, Failed>) -> Result<(), Fail> {
    match answer {
        Ok(count) => write!(text, "{count} ")?,
        Err(error) => write!(text, "{error} ")?,
    }
    Ok(())
}

/// The answers of so many reads of two bytes, each with what the buffer holds.
fn reads<R: Source>(alloc: Global, source: &mut R, times: u8) -> Result<String, Fail> {
    let mut text = String::new(alloc);
    let mut buf = [b'-'; 2];
    for _ in 0..times {
        write_answer(&mut text, source.read(&mut buf))?;
        for byte in buf {
            write!(text, "{}", char::from(byte))?;
        }
        text.push_str(", ")?;
    }
    Ok(text)
}

/// The answers of writing these pieces.
fn writes<W: Sink>(alloc: Global, sink: &mut W, pieces: &[&[u8]]) -> Result<String, Fail> {
    let mut text = String::new(alloc);
    for piece in pieces {
        write_answer(&mut text, sink.write(piece))?;
    }
    Ok(text)
}

#[test]
fn a_reader_is_read_to_its_end(rt: HostRuntime) -> Result<(), Fail> {
    let text = reads(rt.alloc(), &mut Reading::new(b"abc".as_slice()), 4)?;
    assert_eq!(rt; text.as_str(), "2 ab, 1 cb, 0 cb, 0 cb, ");
    let text = reads(rt.alloc(), &mut Reading::new(Broken), 2)?;
    assert_eq!(rt;
        text.as_str(),
        "the stream failed --, the stream failed --, "
    );
    let bytes = read_all(rt.alloc(), &mut Reading::new(b"abc".as_slice()), 3)?;
    assert_eq!(rt; bytes.as_slice(), b"abc".as_slice());
    Ok(())
}

#[test]
fn a_writer_holds_each_piece_once(rt: HostRuntime) -> Result<(), Fail> {
    let mut room = [0; 6];
    let mut sink = Writing::new(room.as_mut_slice());
    let pieces = [b"ab".as_slice(), b"".as_slice()];
    let text = writes(rt.alloc(), &mut sink, &pieces)?;
    assert_eq!(rt; text.as_str(), "2 0 ");
    assert_eq!(rt; write_all(&mut sink, b"cde").is_ok(), true);
    assert_eq!(rt; room, *b"abcde\0");
    Ok(())
}

#[test]
fn a_piece_without_room_fails(rt: HostRuntime) -> Result<(), Fail> {
    let mut room = [0; 2];
    let pieces = [b"abc".as_slice(), b"c".as_slice(), b"".as_slice()];
    let text = writes(rt.alloc(), &mut Writing::new(room.as_mut_slice()), &pieces)?;
    assert_eq!(rt; text.as_str(), "2 the stream failed 0 ");
    assert_eq!(rt; room, *b"ab");
    let pieces = [b"c".as_slice(), b"".as_slice()];
    let text = writes(rt.alloc(), &mut Writing::new(Broken), &pieces)?;
    assert_eq!(rt; text.as_str(), "the stream failed the stream failed ");
    Ok(())
}
