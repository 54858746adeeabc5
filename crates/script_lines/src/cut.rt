ghost use Rattle.std.specs.Prelude.{◌≡◌, ◌∷◌, ◌==◌, ◌<◌, length, option_copied, position, None, IfSome};
ghost use Rattle.script_lines.specs.Lines.{parts, parts_left};

/// What stands before the first such byte, and what stands behind it, if it is there.
pub fn cut(text: &[u8], byte: u8) -> (&[u8], Option<&[u8]>)
    ensures parts { parts byte text.now ≡ result.0.now ∷ parts_left byte (option_copied result.1) }
    ensures whole { result.1 ≡ None → result.0.now ≡ text.now }
    ensures shorter { IfSome result.1 (λ rest. length rest.now < length text.now) }
{
    match place(text, byte) {
        Some(at) => (&text[..at], Some(&text[at + 1..])),
        None => (text, None),
    }
}

// The first place of a byte.
fn place(text: &[u8], byte: u8) -> Option<usize>
    ensures place { result ≡ position (λ b. b == byte) text.now }
    ensures within { IfSome result (λ at. at < length text.now) }
{
    text.iter().position(|b| *b == byte)
}
