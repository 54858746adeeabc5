ghost use Rattle.std.specs.Prelude.{◌≡◌};
ghost use Rattle.script_lines.specs.AnswerLines.{answer_of_one, answer_of_two, print_of, scale_of};

use crate::number::{number, signed_up_to};
use crate::setting::is;

/// What the program's detector, its mean scales or its coder is to answer.
#[derive(Clone, Copy)]
pub enum Answer {
    /// The detector finds a scene cut at this frame.
    Cut(u64),
    /// The coder gives a frame so many bytes.
    ByteCount {
        /// The frame.
        frame: u64,
        /// How many bytes, 1 to 4096.
        count: u64,
    },
    /// The coder fails its call of this number, from 0.
    Fault(u64),
    /// The mean scale of a frame.
    Scale {
        /// The frame.
        frame: u64,
        /// Its mean scale.
        value: i64,
    },
}

/// What a report has beside the lines that each has.
#[derive(Clone, Copy)]
pub enum Print {
    /// The bytes of each packet.
    Bytes,
    /// The luma AC quantizer index of each coded frame.
    QuantizerIndex,
    /// The bit reservoir after each receive that coded.
    Reservoir,
}

// The most bytes of a frame.
const MOST_FRAME_BYTES: u64 = 4096;

impl Answer {
    /// The answer of a word and a number.
    pub fn of_one(word: &[u8], text: &[u8]) -> Option<Answer>
        ensures { result ≡ answer_of_one word.now text.now }
    {
        if is(word, "cut") {
            return Some(Answer::Cut(number(text)?));
        }
        if is(word, "fault") {
            return Some(Answer::Fault(number(text)?));
        }
        None
    }

    /// The answer of a word and two numbers.
    pub fn of_two(word: &[u8], first: u64, second: u64) -> Option<Answer>
        ensures { result ≡ answer_of_two word.now first second }
    {
        if is(word, "bytes") && 1 <= second && second <= MOST_FRAME_BYTES {
            return Some(Answer::ByteCount {
                frame: first,
                count: second,
            });
        }
        None
    }

    /// The answer of `scale` with a frame and a number that may be negative.
    pub fn of_scale(frame: &[u8], value: &[u8]) -> Option<Answer>
        ensures { result ≡ scale_of frame.now value.now }
    {
        let frame = number(frame)?;
        let value = signed_up_to(value, i64::MAX as u64)? as i64;
        Some(Answer::Scale { frame, value })
    }
}

impl Print {
    /// What the text behind `print` asks for.
    pub fn of_text(text: &[u8]) -> Option<Print>
        ensures { result ≡ print_of text.now }
    {
        if is(text, "bytes") {
            return Some(Print::Bytes);
        }
        if is(text, "q") {
            return Some(Print::QuantizerIndex);
        }
        if is(text, "reservoir") {
            return Some(Print::Reservoir);
        }
        None
    }
}
