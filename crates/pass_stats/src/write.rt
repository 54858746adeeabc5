//! Writing a summary.

ghost use Rattle.std.specs.Prelude.{◌≡◌, ℕ, ℤ, ◌+◌, ◌<◌, ◌≤◌, ◌↔◌, List, [], ◌∷◌, ◌++◌, replicate, slice_index_or, FitsSigned, pos};
ghost use Rattle.std.specs.List.{flat_map};
ghost use Rattle.std.specs.Int.{w32, w64};
ghost use Rattle.arrayvec.specs.ArrayVec.{array_vec_len};
ghost use Rattle.pass_stats.specs.Bytes.{AreBytes, i32_bytes, i64_bytes};
ghost use Rattle.pass_stats.specs.Grammar.{IsSummary, frame_total};
ghost use Rattle.pass_stats.specs.Summary.{Summary, Spells};
ghost use Rattle.pass_stats.specs.declared.summary.RCSummary.{RCSummary};

use crate::bytes::{append, append_i32, append_i64};
use crate::summary::{MAGIC, VERSION};
use arrayvec::ArrayVec;

/// Writes 68 bytes with these values: temporal units, frames of each subtype, exponents and sums of
/// scales. Any values are written; the bytes are a summary exactly where the values may be one.
pub fn write_summary(
    ntus: i32,
    nframes: [i32; 5],
    exp: [u8; 4],
    scale_sum: [i64; 4],
) -> ArrayVec<u8, 68>
    ensures spelled { Spells result.items ntus nframes exp scale_sum }
    ensures in_grammar { ((s : RCSummary) × Summary result.items s)
        ↔ IsSummary ntus nframes exp scale_sum (frame_total nframes) }

    // No other values have these bytes.
    ensures one_value { (n : ℤ) (counts : List ℤ) (exps : List ℕ) (sums : List ℤ)
        → Spells result.items n counts exps sums
        → (n ≡ ntus) × (counts ≡ nframes) × (exps ≡ exp) × (sums ≡ scale_sum) }

    // No other bytes spell them.
    ensures one_spelling { (bytes : List ℕ) → AreBytes bytes
        → Spells bytes ntus nframes exp scale_sum → bytes ≡ result.items }
{
    let mut bytes = ArrayVec::new();
    append(&mut bytes, &MAGIC.to_le_bytes());
    append(&mut bytes, &VERSION.to_le_bytes());
    append_i32(&mut bytes, ntus);
    append_counts(&mut bytes, &nframes);
    append(&mut bytes, &exp);
    append_sums(&mut bytes, &scale_sum);
    bytes
}

/// Writes the bytes that stand for a summary until there is one: magic, version and 60 zeros.
pub fn write_placeholder() -> ArrayVec<u8, 68>
    ensures { result.items ≡ 0x56 ∷ 0x41 ∷ 0x32 ∷ 0x50 ∷ 1 ∷ 0 ∷ 0 ∷ 0 ∷ replicate 60 0 }
{
    let mut bytes = ArrayVec::new();
    append(&mut bytes, &MAGIC.to_le_bytes());
    append(&mut bytes, &VERSION.to_le_bytes());
    append(&mut bytes, &[0; 60]);
    bytes
}

fn append_counts(bytes: &mut ArrayVec<u8, 68>, counts: &[i32; 5])
    requires { array_vec_len bytes.old + 20 ≤ 68 }
    ensures items { bytes.new.items ≡ bytes.old.items ++ flat_map i32_bytes counts.now }
    ensures len { array_vec_len bytes.new ≡ array_vec_len bytes.old + 20 }
    ensures fit { (k : ℕ) → k < 5 → FitsSigned w32 (slice_index_or counts.now k (pos 0)) }
{
    for count in counts {
        append_i32(bytes, *count);
    }
}

fn append_sums(bytes: &mut ArrayVec<u8, 68>, sums: &[i64; 4])
    requires { array_vec_len bytes.old + 32 ≤ 68 }
    ensures items { bytes.new.items ≡ bytes.old.items ++ flat_map i64_bytes sums.now }
    ensures len { array_vec_len bytes.new ≡ array_vec_len bytes.old + 32 }
    ensures fit { (k : ℕ) → k < 4 → FitsSigned w64 (slice_index_or sums.now k (pos 0)) }
{
    for sum in sums {
        append_i64(bytes, *sum);
    }
}
