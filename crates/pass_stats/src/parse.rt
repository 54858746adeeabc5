//! Reading a summary.

ghost use Rattle.std.specs.Prelude.{◌≡◌, ◌≢◌, ◌≤◌, ◌↔◌, ℤ, MatchResult, length, take};
ghost use Rattle.pass_stats.specs.Grammar.{any_negative, any_zero, frame_total};
ghost use Rattle.pass_stats.specs.Summary.{Summary, first_met, counts_at, exponents_at, sums_at};
ghost use Rattle.pass_stats.specs.declared.summary.RCSummary.{RCSummary};
ghost use Rattle.pass_stats.specs.declared.error.Why.{Why};

use crate::bytes::{chunk, read_i32, read_i64, read_u32};
use crate::summary::{MAGIC, SUMMARY_SIZE, VERSION};
use crate::{RCSummary, RateControlError, Why};

/// Reads a summary from the first 68 bytes; any further bytes are ignored.
///
/// # Errors
///
/// `CorruptedSummary` with the first reason, in the order of `Why`, for which the bytes are refused.
pub fn parse_summary(bytes: &[u8]) -> Result<RCSummary, RateControlError>
    ensures accepted { (s : RCSummary) → (result ≡ Ok s) ↔ Summary (take 68 bytes.now) s }
    ensures refused { (why : Why)
        → (result ≡ Err (RateControlError.CorruptedSummary why))
        ↔ (first_met bytes.now ≡ Some why) }
    ensures never_version { (v : ℤ) → result ≢ Err (RateControlError.InvalidVersion v) }
{
    match read_summary(bytes) {
        Ok(summary) => Ok(summary),
        Err(why) => Err(RateControlError::CorruptedSummary(why)),
    }
}

fn read_summary(bytes: &[u8]) -> Result<RCSummary, Why>
    ensures { MatchResult result
        (λ s. (first_met bytes.now ≡ None) × Summary (take 68 bytes.now) s)
        (λ why. first_met bytes.now ≡ Some why) }
{
    if bytes.len() < SUMMARY_SIZE {
        return Err(Why::Short);
    }
    if read_u32(bytes, 0) != MAGIC {
        return Err(Why::Magic);
    }
    if read_u32(bytes, 4) != VERSION {
        return Err(Why::Version);
    }
    let ntus = read_i32(bytes, 8);
    if ntus < 1 {
        return Err(Why::NoTus);
    }
    let nframes = read_counts(bytes);
    if has_negative_count(&nframes) {
        return Err(Why::NegativeCount);
    }
    let Ok(total) = i32::try_from(count_frames(&nframes)) else {
        return Err(Why::CountTooLarge);
    };
    if total < ntus {
        return Err(Why::MoreTusThanFrames);
    }
    if nframes[0] < 1 {
        return Err(Why::NoKeyFrame);
    }
    let exp = read_exponents(bytes);
    if has_zero(&exp) {
        return Err(Why::ZeroExponent);
    }
    let scale_sum = read_sums(bytes);
    if has_negative_sum(&scale_sum) {
        return Err(Why::NegativeSum);
    }
    Ok(RCSummary {
        ntus,
        nframes,
        exp,
        scale_sum,
        total,
    })
}

#[tactic(auto, unfolding(crate::specs::Summary::counts_at))]
fn read_counts(bytes: &[u8]) -> [i32; 5]
    requires { 68 ≤ length bytes.now }
    ensures { result ≡ counts_at bytes.now }
{
    [
        read_i32(bytes, 12),
        read_i32(bytes, 16),
        read_i32(bytes, 20),
        read_i32(bytes, 24),
        read_i32(bytes, 28),
    ]
}

#[tactic(auto, unfolding(crate::specs::Summary::exponents_at))]
fn read_exponents(bytes: &[u8]) -> [u8; 4]
    requires { 68 ≤ length bytes.now }
    ensures { result ≡ exponents_at bytes.now }
{
    chunk(bytes, 32)
}

#[tactic(auto, unfolding(crate::specs::Summary::sums_at))]
fn read_sums(bytes: &[u8]) -> [i64; 4]
    requires { 68 ≤ length bytes.now }
    ensures { result ≡ sums_at bytes.now }
{
    [
        read_i64(bytes, 36),
        read_i64(bytes, 44),
        read_i64(bytes, 52),
        read_i64(bytes, 60),
    ]
}

fn has_negative_count(counts: &[i32; 5]) -> bool
    ensures { result ≡ any_negative counts.now }
{
    counts.iter().any(|&count| count < 0)
}

fn has_negative_sum(sums: &[i64; 4]) -> bool
    ensures { result ≡ any_negative sums.now }
{
    sums.iter().any(|&sum| sum < 0)
}

fn has_zero(exponents: &[u8; 4]) -> bool
    ensures { result ≡ any_zero exponents.now }
{
    exponents.iter().any(|&exponent| exponent == 0)
}

fn count_frames(counts: &[i32; 5]) -> i64
    ensures { result ≡ frame_total counts.now }
{
    let mut total = 0;
    for count in counts {
        total += i64::from(*count);
    }
    total
}
