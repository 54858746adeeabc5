ghost use Rattle.std.specs.Prelude.{◌≡◌, ◌≤◌, ◌+◌, ◌*◌, ◌^◌, ◌&&◌, nat_lt, pos, negsuc, ◌≤ℤ◌, None, Some, IfSome, if◌then◌else◌};
ghost use Rattle.std.specs.Char.{digit_value, is_ascii_digit};
ghost use Rattle.script_lines.specs.DecimalNumbers.{digits_of, number_of, number_up_to, signed_of, signed_up_to};

// The most digits of a number.
const MOST_DIGITS: usize = 20;

/// The number that 1 to 20 decimal digits write, if it fits 64 bits.
#[tactic(auto, unfolding(crate::specs::DecimalNumbers::number_of))]
pub fn number(text: &[u8]) -> Option<u64>
    ensures { result ≡ number_of text.now }
{
    if text.is_empty() || text.len() > MOST_DIGITS {
        return None;
    }
    digits(text)
}

/// The same, if it is at most this.
pub fn number_up_to(text: &[u8], most: u64) -> Option<u64>
    ensures value { result ≡ number_up_to most text.now }
    ensures within { IfSome result (λ n. n ≤ most) }
{
    let n = number(text)?;
    if n <= most { Some(n) } else { None }
}

/// The number that such digits write behind a `-`, or alone, if it is from `-most - 1` to `most`.
pub fn signed_up_to(text: &[u8], most: u64) -> Option<i128>
    ensures value { result ≡ signed_up_to most text.now }
    ensures within { IfSome result (λ z. (negsuc most ≤ℤ z) × (z ≤ℤ pos most)) }
{
    let z = signed(text)?;
    let most = i128::from(most);
    if -most - 1 <= z && z <= most {
        Some(z)
    } else {
        None
    }
}

// The same without bounds.
#[tactic(auto, unfolding(crate::specs::DecimalNumbers::signed_of))]
fn signed(text: &[u8]) -> Option<i128>
    ensures { result ≡ signed_of text.now }
{
    match text {
        [] => None,
        [b'-', digits @ ..] => Some(-i128::from(number(digits)?)),
        _ => Some(i128::from(number(text)?)),
    }
}

// The number that digits write, if it fits 64 bits.
fn digits(text: &[u8]) -> Option<u64>
    ensures { result ≡ digits_of text.now }
{
    let mut value: u64 = 0;
    for byte in text {
        value = with_digit(value, *byte)?;
    }
    Some(value)
}

// The number with one more digit.
fn with_digit(value: u64, byte: u8) -> Option<u64>
    ensures { let next = value * 10 + digit_value byte in
        result ≡ (if is_ascii_digit byte && nat_lt next (2 ^ 64) then Some next else None) }
{
    if !byte.is_ascii_digit() {
        return None;
    }
    value.checked_mul(10)?.checked_add(u64::from(byte - b'0'))
}
