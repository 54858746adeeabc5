//! What whole scripts say.

use crate::script_texts::{read, told};
use script_lines::Dialect;
use std::test::Fail;

// A dialect, a script and its fields as a text.
const SCRIPTS: [(Dialect, &str, &str); 4] = [
    (
        Dialect::Run,
        "rdo 10\n# few keys\nkeyint 3 0\nsummary 00ff0a\n\nsend 2\nsendkey\nflush\n\
        sendsize 1 64\nsendopaque 18446744073709551615\nreceive 2",
        "rdo 10\nkeyint 3 0\nsummary [0, 255, 10]\ncuts [] bytes [] faults [] scales []\n\
        send\nsend\nsendkey\nflush\nsendsize 1 64\nsendopaque 18446744073709551615\n\
        receive\nreceive\n",
    ),
    // answers may be repeated
    (
        Dialect::Run,
        "cut 3\nbytes 0 1\nfault 0\ncut 3\nscale 7 -12\nprint q\nbytes 0 4096\nprint bytes\n\
        scale 7 012\nfault 7\nsend\n",
        "cuts [3, 3] bytes [(0, 1), (0, 4096)] faults [0, 7] scales [(7, -12), (7, 12)]\n\
        print q\nprint bytes\nsend\n",
    ),
    // jobs are frames and a flush
    (
        Dialect::Gops,
        "cut 1\nsend\n# more\nsend 2\n\nflush\n\n# done",
        "cuts [1] bytes [] faults [] scales []\nsend\nsend\nsend\nflush\n",
    ),
    // a second pass is given pass data
    (
        Dialect::SecondPass,
        "bitrate 30000\nsend 2\npass 0000008000000001\nreceive\npass 00\n",
        "bitrate 30000\ncuts [] bytes [] faults [] scales []\nsend\nsend\n\
        pass [0, 0, 0, 128, 0, 0, 0, 1]\nreceive\npass [0]\n",
    ),
];

#[test]
fn scripts_have_settings_answers_and_calls(rt: HostRuntime) -> Result<(), Fail> {
    for (dialect, text, fields) in SCRIPTS {
        let script = read(rt.alloc(), dialect, text.as_bytes())?;
        let told = told(rt.alloc(), &script)?;
        assert_eq!(rt; told.as_str(), fields, "{text}");
    }
    Ok(())
}
