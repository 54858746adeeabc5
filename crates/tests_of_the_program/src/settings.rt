//! How settings are read.

use crate::script_texts::{read, told_settings};
use script_lines::{Dialect, number_up_to};
use std::test::Fail;

// A line, and the setting that it gives.
const LINES: [(&str, &str); 11] = [
    ("preset 255", "preset 255\n"),
    ("multiref 1", "multiref 1\n"),
    ("size 64 080", "size 64 80\n"),
    ("chroma 400", "chroma 400\n"),
    ("level 255", "level 255\n"),
    ("minq 00000000000000000255", "minq 255\n"),
    ("bitrate 2147483647", "bitrate 2147483647\n"),
    ("bitrate -2147483648", "bitrate -2147483648\n"),
    ("bitrate -00000000000000000007", "bitrate -7\n"),
    ("bitrate -0", "bitrate 0\n"),
    ("reservoir 2147483647", "reservoir 2147483647\n"),
];

#[test]
fn numbers_fit_their_settings(rt: HostRuntime) -> Result<(), Fail> {
    for (line, setting) in LINES {
        let script = read(rt.alloc(), Dialect::Run, line.as_bytes())?;
        let told = told_settings(rt.alloc(), script.settings.as_slice())?;
        assert_eq!(rt; told.as_str(), setting, "{line}");
    }
    Ok(())
}

#[test]
fn a_number_has_a_bound(rt: HostRuntime) {
    for (text, number) in [("0255", Some(255)), ("256", None), ("-1", None)] {
        assert_eq!(rt; number_up_to(text.as_bytes(), 255), number, "{text}");
    }
}
