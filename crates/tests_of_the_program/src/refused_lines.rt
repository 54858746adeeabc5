//! Which lines no script of a dialect may have, and where.

use crate::script_texts::refusal;
use script_lines::{Dialect, ScriptError};
use std::test::Fail;

const RUN: Dialect = Dialect::Run;

const SECOND_PASS: Dialect = Dialect::SecondPass;

const GOPS: Dialect = Dialect::Gops;

const NONE: &str = "a script";

const FIRST: &str = "line 1 is no script line";

const SECOND: &str = "line 2 is no script line";

const THIRD: &str = "line 3 is no script line";

const FIFTH: &str = "line 5 is no script line";

// A dialect, what is told of its scripts, and the scripts of which it is told.
type Row = (Dialect, &'static str, &'static [&'static str]);

const LINES: [Row; 6] = [
    (
        RUN,
        FIRST,
        &[
            "send  2\n",
            "send\t2\n",
            "send\r\n",
            " send\n",
            "send \n",
            " \n",
            " # no comment\n",
            "x",
            "x\n",
            "size 64\n",
            "size 64 80 1\n",
            "sendkey 2\n",
            "gop 2\n",
            "send +2\n",
            "send -2\n",
            "send 0\n",
            "send 000000000000000000002\n",
            "keyint 0 18446744073709551616\n",
            "rdo 99999999999999999999\n",
            "send 100001\n",
            "send 18446744073709551615\n",
        ],
    ),
    (
        RUN,
        SECOND,
        &[
            "rdo 1\nrdo 1\n",
            "send\nrdo 1\n",
            "flush\nkeyint 1 2\n",
            "send 100000\nsendopaque 1\n",
        ],
    ),
    (
        RUN,
        THIRD,
        &[
            "send 100000\n# full\nflush\n",
            "send 99999\nflush\nflush\n",
            "size 64 80\n\nsize 64 80\n",
            "level 1\nrdo 1\nlevel 2\n",
            "still\n\nstill\n",
        ],
    ),
    (
        RUN,
        NONE,
        &[
            "",
            "send 00000000000000000002\n",
            "keyint 0 18446744073709551615\n",
            "send\nreceive\nflush\n",
            "flush\nreceive 2\nsend\n",
            "send 100000\n",
            "sendopaque 00000000000000000007",
            "sendsize 064 1\n",
            "scale 0 9223372036854775807\nscale 0 -9223372036854775808\nscale 1 -0\n",
            "print reservoir\nprint q\nprint bytes\n",
        ],
    ),
    // calls
    (
        RUN,
        FIRST,
        &[
            "sendsize",
            "sendsize 1",
            "sendsize 0 1",
            "sendsize 1 0",
            "sendsize 65 64",
            "sendsize 64 65",
            "sendsize 1 320",
            "sendsize 1 2 3",
            "sendopaque",
            "sendopaque ",
            "sendopaque -1",
            "sendopaque 1 2",
            "sendopaque 18446744073709551616",
            "sendopaque 000000000000000000007",
        ],
    ),
    // the words of other dialects
    (RUN, FIRST, &["pass 00\n", "pass 0000008000000001\nflush\n"]),
];

const ANSWERS: [Row; 2] = [
    (
        RUN,
        FIRST,
        &[
            "cut",
            "cut -1",
            "cut 1 2",
            "cut 18446744073709551616",
            "bytes 1",
            "bytes 1 0",
            "bytes 1 4097",
            "bytes 1 2 3",
            "fault",
            "scale 1",
            "scale -1 1",
            "scale 1 +1",
            "scale 1 -",
            "scale 1 --1",
            "scale 1 1-",
            "scale 1 1 1",
            "scale 1 9223372036854775808",
            "scale 1 -9223372036854775809",
            "scale 1 -000000000000000000001",
            "print",
            "print ",
            "print byte",
            "print Q",
            "print q 1",
            "print bytes 1",
        ],
    ),
    // they stand before the calls, and a print once
    (
        RUN,
        SECOND,
        &[
            "send\ncut 1",
            "flush\nbytes 1 1",
            "flush\nfault 1",
            "flush\nscale 1 1",
            "flush\nprint bytes",
            "print bytes\nprint bytes",
            "print q\nprint q",
            "print reservoir\nprint reservoir",
        ],
    ),
];

const SETTINGS: [Row; 2] = [
    (
        RUN,
        FIRST,
        &[
            "preset",
            "preset 256",
            "preset -1",
            "multiref 2",
            "multiref 01",
            "aspect 1",
            "chroma 4200",
            "still 1",
            "level 256",
            "minq 256",
            "bitrate",
            "bitrate -",
            "bitrate +1",
            "bitrate 2147483648",
            "bitrate -2147483649",
            "bitrate -000000000000000000007",
            "reservoir +12",
            "reservoir 2147483648",
            "summary",
            "summary ",
            "summary 5",
            "summary 5A",
            "summary 0x56",
            "summary 56 41",
        ],
    ),
    // each stands once, and before the calls
    (
        RUN,
        SECOND,
        &[
            "preset 1\npreset 1\n",
            "level 1\nlevel 2\n",
            "bitrate 1\nbitrate 1\n",
            "summary 56\nsummary 56\n",
            "flush\ntiming\n",
            "flush\nsummary 56\n",
        ],
    ),
];

const PASS_DATA: [Row; 4] = [
    (
        SECOND_PASS,
        FIRST,
        &[
            "pass",
            "pass ",
            "pass 0",
            "pass 5A",
            "pass 0g",
            "pass 0x56",
            "pass -0",
            "pass 56 41",
        ],
    ),
    (
        SECOND_PASS,
        SECOND,
        &[
            "pass 00\nbitrate 30000\n",
            "pass 00\ncut 1\n",
            "send 100000\npass 00\n",
        ],
    ),
    (SECOND_PASS, THIRD, &["pass 00\nsend 99999\nflush\n"]),
    (
        SECOND_PASS,
        NONE,
        &[
            "",
            "still\n",
            "receive\nflush\nsend\n",
            "pass 00\nsend 99999\n",
            "pass 000000",
            "pass 00\n",
            "pass 0000008000000001\nflush\n",
        ],
    ),
];

const JOBS: [Row; 7] = [
    (
        GOPS,
        FIRST,
        &[
            "still\nsend\nflush\n",
            "sendkey\nflush\n",
            "sendopaque 1\nflush\n",
            "sendsize 64 64\nflush\n",
            "receive\nflush\n",
            "receive 2\nflush\n",
            "pass 00\nflush\n",
            "send 0\nflush\n",
            "pass 00\n",
            "pass 0000008000000001\nflush\n",
        ],
    ),
    (
        GOPS,
        SECOND,
        &[
            "flush\nflush\n",
            "flush\nsend\n",
            "flush\ncut 1\n",
            "flush\nbitrate 1\n",
            "flush\nx\n",
            "send 100000\nflush\n",
            "send\nx\nsend\n",
        ],
    ),
    (
        GOPS,
        NONE,
        &[
            "flush",
            "flush\n\n# done\n",
            "lowlatency\nprint q\nscale 0 1\nsend\nflush\n",
            "send 99999\nflush\n",
            "summary 56\nflush\n",
        ],
    ),
    // a missing flush is the line behind the last
    (GOPS, FIRST, &[""]),
    (
        GOPS,
        SECOND,
        &["\n", "#", "send", "send\n", "send 100000\n"],
    ),
    (GOPS, THIRD, &["send\n\n", "bitrate 1\ncut 4\n"]),
    (GOPS, FIFTH, &["send\n\n\n# no flush"]),
];

#[test]
fn the_first_bad_line_is_named(rt: HostRuntime) -> Result<(), Fail> {
    let tables: [&[Row]; 5] = [&LINES, &ANSWERS, &SETTINGS, &PASS_DATA, &JOBS];
    for (dialect, told, texts) in tables.iter().flat_map(|rows| rows.iter()) {
        for text in *texts {
            let refusal = refusal(rt.alloc(), *dialect, text.as_bytes())?;
            assert_eq!(rt; refusal.as_str(), *told, "{text}");
        }
    }
    Ok(())
}

// So many bytes behind a word.
#[test]
fn bytes_have_so_many_digits_at_most(rt: HostRuntime) -> Result<(), Fail> {
    for (dialect, word, count, told) in [
        (RUN, "summary ", 200, NONE),
        (RUN, "summary ", 201, FIRST),
        (SECOND_PASS, "pass ", 68, NONE),
        (SECOND_PASS, "pass ", 69, FIRST),
    ] {
        let mut line = String::from_str(rt.alloc(), word)?;
        for _ in 0..count {
            line.push_str("7e")?;
        }
        let refusal = refusal(rt.alloc(), dialect, line.as_bytes())?;
        assert_eq!(rt; refusal.as_str(), told, "{word}");
    }
    Ok(())
}

#[test]
fn a_comment_alone_may_be_no_text(rt: HostRuntime) -> Result<(), Fail> {
    let comment: &[u8] = b"# a comment \xff\t\r\n\nsend\n";
    for (text, told) in [(comment, NONE), (b"\xff\n", FIRST)] {
        assert_eq!(rt; refusal(rt.alloc(), RUN, text)?.as_str(), told);
    }
    Ok(())
}

#[test]
fn want_of_memory_has_its_text(rt: HostRuntime) -> Result<(), Fail> {
    let text = ScriptError::OutOfMemory.to_string(rt.alloc())?;
    assert_eq!(rt; text.as_str(), "out of memory");
    Ok(())
}
