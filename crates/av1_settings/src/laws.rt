//! What holds of settings and counts beyond a single call, each law as the contract of a function.

ghost use Rattle.std.specs.Prelude.{◌≡◌, length, replicate};
ghost use Rattle.av1_settings.specs.Stats.{DefaultAddsNothingTo, SumsAssociate, SumsCommute, counts_sum, saturated_sum};

use crate::EncoderStats;

/// Counts may be added in any order and in any groups, and the default adds nothing, also where a count stops.
pub fn sums_of_stats(a: EncoderStats)
    ensures commutative { SumsCommute }
    ensures associative { SumsAssociate }
    ensures unit { DefaultAddsNothingTo a }
{
    keeps_counts(&a.block_size_counts);
    keeps_count(a.skip_block_count);
    keeps_counts(&a.tx_type_counts);
    keeps_counts(&a.luma_pred_mode_counts);
    keeps_counts(&a.chroma_pred_mode_counts);
}

// A count with 0 added is the same.
fn keeps_count(count: usize)
    ensures { saturated_sum count 0 ≡ count }
{}

// So are counts, however many.
fn keeps_counts<const N: usize>(counts: &[usize; N])
    ensures { counts_sum counts.now (replicate N 0) ≡ counts.now }
{
    keeps_slice(counts)
}

fn keeps_slice(counts: &[usize])
    ensures { counts_sum counts.now (replicate (length counts.now) 0) ≡ counts.now }
{
    let _count = counts.len();
}
