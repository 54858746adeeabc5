ghost use Rattle.std.specs.Prelude.{◌≡◌, ◌≤◌, ◌*◌, length, IfOk, IfSome};
ghost use Rattle.std.specs.Option.{option_map};
ghost use Rattle.std.specs.List.{list_any};
ghost use Rattle.std.specs.Char.{is_ascii_uppercase};
ghost use Rattle.script_lines.specs.HexBytes.{bytes_of, pass_bytes_of, summary_bytes_of};

use arrayvec::ArrayVec;
use coding_base::{Bytes, OutOfMemory, Sequence};
use hex::{FromHexError, decode};
use std::alloc::Global;

// The most digits of a summary: 200 bytes.
const MOST_SUMMARY_DIGITS: usize = 400;

// The most digits of pass data: 68 bytes, as many as a summary of a pass has.
const MOST_PASS_DIGITS: usize = 136;

/// The bytes of a summary that 2 to 400 hexadecimal digits write, two for each, with no capital letters.
pub fn summary_bytes(alloc: Global, text: &[u8]) -> Result<Option<Bytes>, OutOfMemory>
    ensures { IfOk result (λ bytes. bytes ≡ summary_bytes_of text.now) }
{
    match hex_bytes(alloc, text, MOST_SUMMARY_DIGITS)? {
        Some(bytes) => Ok(Some(Sequence::from_vec(bytes))),
        None => Ok(None),
    }
}

/// The pass data that 2 to 136 such digits write.
pub fn pass_bytes(alloc: Global, text: &[u8]) -> Result<Option<ArrayVec<u8, 68>>, OutOfMemory>
    ensures { IfOk result (λ bytes. bytes ≡ pass_bytes_of text.now) }
{
    let Some(bytes) = hex_bytes(alloc, text, MOST_PASS_DIGITS)? else {
        return Ok(None);
    };
    let mut given = ArrayVec::new();
    given.try_extend_from_slice(&bytes).unwrap();
    Ok(Some(given))
}

// The bytes that 2 and so many such digits at most write.
#[tactic(auto, using(crate::proofs::HexDigits::two_each), unfolding(crate::specs::HexBytes::bytes_of))]
fn hex_bytes(alloc: Global, text: &[u8], most: usize) -> Result<Option<Vec<u8>>, OutOfMemory>
    ensures value { IfOk result (λ bytes. option_map (λ b. b.items) bytes ≡ bytes_of most text.now) }
    ensures short { IfOk result (λ bytes. IfSome bytes (λ b. length b.items * 2 ≤ most)) }
{
    if text.is_empty() || text.len() > most || has_capital(text) {
        return Ok(None);
    }
    match decode(alloc, text) {
        Ok(bytes) => Ok(Some(bytes)),
        Err(FromHexError::OutOfMemory) => Err(OutOfMemory),
        Err(_) => Ok(None),
    }
}

fn has_capital(text: &[u8]) -> bool
    ensures { result ≡ list_any is_ascii_uppercase text.now }
{
    text.iter().any(|byte| byte.is_ascii_uppercase())
}
