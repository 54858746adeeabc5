//! Sources and sinks in memory: reading to the end within a limit, and writing as far as there is room.

use byte_streams::{Failed, MemSink, MemSource, ReadError, Source, read_all, write_all};
use coding_base::{Bytes, Sequence};
use std::alloc::Global;
use std::test::Fail;

/// What is read of these bytes within a limit, where the first call fails or none, and then what one more read gives.
fn told(alloc: Global, bytes: &[u8], fails: &[u64], limit: usize) -> Result<String, Fail> {
    let bytes: Bytes = Sequence::from_slice(alloc, bytes)?;
    let mut source = MemSource::new(bytes, Vec::from_slice(alloc, fails)?);
    let mut text = String::new(alloc);
    match read_all(alloc, &mut source, limit) {
        Ok(all) => write_bytes(&mut text, all.as_slice())?,
        Err(error) => write!(text, "{error}")?,
    }
    let mut buf = [0; 4];
    match source.read(&mut buf) {
        Ok(count) => {
            write!(text, "; {count}: ")?;
            write_bytes(&mut text, buf.as_slice())?;
        }
        Err(error) => write!(text, "; {error}")?,
    }
    Ok(text)
}

fn write_bytes(text: &mut String, bytes: &[u8]) -> Result<(), Fail> {
    for byte in bytes {
        write!(text, "{byte:02x}")?;
    }
    Ok(())
}

#[test]
fn a_source_is_read_within_a_limit(rt: HostRuntime) -> Result<(), Fail> {
    let none: &[u64] = &[];
    for (bytes, fails, limit, text) in [
        (b"abc".as_slice(), none, 3, "616263; 0: 00000000"),
        (b"".as_slice(), none, 0, "; 0: 00000000"),
        (b"abc".as_slice(), none, usize::MAX, "616263; 0: 00000000"),
        (
            b"abcde".as_slice(),
            none,
            3,
            "the source has more bytes than the limit; 1: 65000000",
        ),
        (
            b"abc".as_slice(),
            [1].as_slice(),
            3,
            "the source failed; 0: 00000000",
        ),
    ] {
        let read = told(rt.alloc(), bytes, fails, limit)?;
        assert_eq!(rt; read.as_str(), text);
    }
    Ok(())
}

#[test]
fn a_text_is_written_as_far_as_it_fits(rt: HostRuntime) -> Result<(), Fail> {
    let mut sink = MemSink::new(rt.alloc(), 4, Vec::from_slice(rt.alloc(), &[1])?)?;
    for (text, whole, held) in [
        (b"ab".as_slice(), true, b"ab".as_slice()),
        (b"cd".as_slice(), false, b"ab".as_slice()),
        (b"cde".as_slice(), false, b"abcd".as_slice()),
        (b"".as_slice(), true, b"abcd".as_slice()),
    ] {
        assert_eq!(rt; write_all(&mut sink, text).is_ok(), whole);
        assert_eq!(rt; sink.bytes(), held);
    }
    Ok(())
}

#[test]
fn errors_have_their_texts(rt: HostRuntime) -> Result<(), Fail> {
    let failed = Failed.to_string(rt.alloc())?;
    assert_eq!(rt; failed.as_str(), "the stream failed");
    for (error, text) in [
        (ReadError::Failed, "the source failed"),
        (
            ReadError::TooLong,
            "the source has more bytes than the limit",
        ),
        (ReadError::OutOfMemory, "out of memory"),
    ] {
        let shown = error.to_string(rt.alloc())?;
        assert_eq!(rt; shown.as_str(), text);
    }
    Ok(())
}
