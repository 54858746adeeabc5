ghost use Rattle.std.specs.Prelude.{◌≡◌};
ghost use Rattle.pass_stats.specs.Grammar.{IsSummary};

use std::alloc::AllocError;

/// The bytes of a summary.
pub(crate) const SUMMARY_SIZE: usize = 68;

/// The first four bytes of a summary, `56 41 32 50`, as a number.
pub(crate) const MAGIC: u32 = 0x5032_4156;

/// The only version of a summary.
pub(crate) const VERSION: u32 = 1;

/// What a first pass says of the whole stream. Every value is one that a summary may hold.
///
/// It can be built by its fields where they are known to be such values, as those of a literal: the
/// words of `grammar` are abbreviations, which the check computes. An exponent may be changed to one
/// above 0, and a sum of scales to one that is not negative, in a function with the attribute
/// `#[tactic(auto, using(pass_stats::proofs::Entries::one_entry))]`. Values that are not known to be in
/// the grammar are tried by `parse_summary(write_summary(..).as_slice())`.
#[derive(Debug, Drop)]
pub struct RCSummary {
    /// Temporal units, at least 1 and at most `total`.
    pub ntus: i32,
    /// Frames of each subtype: I, P, B0, B1 and show-existing. None is negative, and there is a key
    /// frame.
    pub nframes: [i32; 5],
    /// An exponent for each subtype but the last, none of them 0.
    pub exp: [u8; 4],
    /// Sums of scales in Q24 for the same subtypes, none of them negative.
    pub scale_sum: [i64; 4],
    /// Frames of all subtypes.
    pub total: i32,
    pub ghost grammar: { IsSummary ntus nframes exp scale_sum total },
}

impl Clone for RCSummary {
    ghost use Rattle.std.specs.Prelude.{◌≡◌, ⊤};

    ghost is_clone = { λ s t. t ≡ s };

    ghost is_infallible = { λ _. ⊤ };

    fn clone(&self) -> Result<Self, AllocError> {
        Ok(RCSummary {
            ntus: self.ntus,
            nframes: self.nframes,
            exp: self.exp,
            scale_sum: self.scale_sum,
            total: self.total,
        })
    }
}
