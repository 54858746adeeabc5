ghost use Rattle.std.specs.Prelude.{◌≡◌, ℕ, ◌+◌, ◌-◌, ◌*◌, ◌^◌, ◌<◌, ◌≤◌, not, ◌&&◌, int_lt, if◌then◌else◌, pos, negsuc, ◌+ℤ◌, ◌-ℤ◌, ◌≤ℤ◌, ◌<ℤ◌};
ghost use Rattle.fixed_log.specs.Within.{IsWithin};
ghost use Rattle.reservoir.specs.Moves.{next_count as next_count_of, not_far as not_far_of, reservoir_after as reservoir_after_of, coded_after};

/// How far from 0 the reservoir and the bias can get. No session reaches it.
const FAR: i128 = 1 << 96;

/// Where counts stop. No session reaches it.
const LAST_COUNT: i64 = 1 << 62;

fn not_far(z: i128) -> i128
    ensures value { result ≡ not_far_of z }
    ensures within { IsWithin (2 ^ 96) result }
{
    if z < -FAR {
        -FAR
    } else if z > FAR {
        FAR
    } else {
        z
    }
}

/// One more, up to the last count.
pub fn next_count(n: i64) -> i64
    requires { n ≤ℤ pos (2 ^ 62) }
    ensures value { result ≡ next_count_of n }
    ensures most { result ≤ℤ pos (2 ^ 62) }
    ensures least { n ≤ℤ result }
{
    if n < LAST_COUNT { n + 1 } else { n }
}

// The reservoir after a frame: it never holds more than it can.
fn reservoir_after(bits_per_tu: i64, most: i128, bits: i64, shown: bool, reservoir: i128) -> i128
    requires reservoir { IsWithin (2 ^ 96) reservoir }
    ensures value { result ≡ reservoir_after_of bits_per_tu most bits shown reservoir }
{
    let refill = if shown { bits_per_tu } else { 0 };
    refilled(reservoir, bits, refill).min(most)
}

fn refilled(reservoir: i128, bits: i64, refill: i64) -> i128
    requires reservoir { IsWithin (2 ^ 96) reservoir }
    ensures value { result ≡ reservoir -ℤ bits +ℤ refill }
{
    reservoir - bits as i128 + refill as i128
}

fn moved_bias(bias: i128, estimate: i64, bits: i64) -> i128
    requires bias { IsWithin (2 ^ 96) bias }
    ensures value { result ≡ bias +ℤ (estimate -ℤ bits) }
{
    bias + (estimate as i128 - bits as i128)
}

/// The reservoir after a frame, no further than `2^96` from 0.
pub fn next_reservoir(bits_per_tu: i64, most: i128, bits: i64, shown: bool, reservoir: i128) -> i128
    requires reservoir { IsWithin (2 ^ 96) reservoir }
    ensures value { result ≡ not_far_of (reservoir_after_of bits_per_tu most bits shown reservoir) }
    ensures within { IsWithin (2 ^ 96) result }
{
    not_far(reservoir_after(bits_per_tu, most, bits, shown, reservoir))
}

/// The bias after a frame, no further than `2^96` from 0.
pub fn next_bias(bias: i128, estimate: i64, bits: i64) -> i128
    requires bias { IsWithin (2 ^ 96) bias }
    ensures value { result ≡ not_far_of (bias +ℤ (estimate -ℤ bits)) }
    ensures within { IsWithin (2 ^ 96) result }
{
    not_far(moved_bias(bias, estimate, bits))
}

/// The count of coded frames after a frame: neither trials nor frames without bits count.
pub fn next_coded(coded: i64, bits: i64, trial: bool) -> i64
    requires low { pos 0 ≤ℤ coded }
    requires high { coded ≤ℤ pos (2 ^ 62) }
    ensures value { result ≡ coded_after bits trial coded }
    ensures low { pos 0 ≤ℤ result }
    ensures high { result ≤ℤ pos (2 ^ 62) }
{
    if !trial && bits > 0 {
        next_count(coded)
    } else {
        coded
    }
}
