ghost use Rattle.std.specs.Prelude.{◌≡◌, ℕ, ◌^◌, ℤ, pos, ◌+ℤ◌, ◌-ℤ◌, ◌≤ℤ◌, ◌<ℤ◌, int_lt};
ghost use Rattle.std.specs.Int.{int_min};
ghost use Rattle.fixed_log.specs.Within.{IsWithin};
ghost use Rattle.pass_data.specs.FileEnd.{units_to_end as units_to_end_of, units_guessed as units_guessed_of};

use crate::given::Header;

/// The temporal units from the start of the GOP to the end of the file.
fn units_to_end(header: &Header, gop_start: u64) -> i128
    ensures value { result ≡ units_to_end_of header.now gop_start }
    ensures within { IsWithin (2 ^ 65) result }
{
    header.ntus as i128 - gop_start as i128
}

fn less_units(max_interval: i32, units: i128) -> i128
    requires { IsWithin (2 ^ 65) units }
    ensures { result ≡ max_interval -ℤ units }
{
    max_interval as i128 - units
}

fn units_missing(delay: i32, seen: i64) -> i128
    ensures { result ≡ delay -ℤ seen }
{
    delay as i128 - seen as i128
}

fn lesser(a: i128, b: i128) -> i128
    ensures value { result ≡ int_min a b }
    ensures low { pos 0 ≤ℤ a → pos 0 ≤ℤ b → pos 0 ≤ℤ result }
    ensures most { result ≤ℤ b }
{
    if a < b { a } else { b }
}

/// More units than are seen, as far as the delay.
fn more_units(seen: i64, left: i32, delay: i32, by: i128) -> i32
    requires low { pos 0 ≤ℤ by }
    requires most { by ≤ℤ (delay -ℤ seen) }
    requires left { left ≤ℤ seen }
    ensures { result ≡ seen +ℤ by }
{
    let _ = (left, delay);
    (seen as i128 + by) as i32
}

/// As many units as are seen, and the lesser of `more` and of what is missing to the delay.
fn units_with(seen: i64, left: i32, delay: i32, more: i128) -> i32
    requires more_low { pos 0 <ℤ more }
    requires all { left ≤ℤ seen }
    requires most { seen ≤ℤ delay }
    ensures { result ≡ seen +ℤ int_min more (delay -ℤ seen) }
{
    more_units(seen, left, delay, lesser(more, units_missing(delay, seen)))
}

/// Whether a GOP starts before the end of the file.
pub fn is_before_end(header: &Header, gop_start: u64) -> bool
    ensures { result ≡ int_lt (pos gop_start) header.now.ntus }
{
    (gop_start as i128) < header.ntus as i128
}

/// Whether the file ends before the key frame that would be due in a GOP.
pub fn ends_within(header: &Header, gop_start: u64, max_interval: i32) -> bool
    ensures { result ≡ int_lt (units_to_end_of header.now gop_start) max_interval }
{
    units_to_end(header, gop_start) < max_interval as i128
}

/// How many temporal units are to be guessed, where `seen` are, and they are all that is left: more, as far as the key frame that would be
/// due, and as the delay.
pub fn units_guessed(
    header: &Header,
    gop_start: u64,
    max_interval: i32,
    seen: i64,
    left: i32,
    delay: i32,
) -> i32
    requires end { units_to_end_of header.now gop_start <ℤ max_interval }
    requires all { left ≤ℤ seen }
    requires most { seen ≤ℤ delay }
    ensures { result ≡ units_guessed_of header.now gop_start max_interval seen delay }
{
    let more = less_units(max_interval, units_to_end(header, gop_start));
    units_with(seen, left, delay, more)
}
