ghost use Rattle.std.specs.Prelude.{◌≡◌, ⊤, length};
ghost use Rattle.av1_settings.specs.Stats.{counts_sum, no_stats, stats_sum};

use std::ops::{Add, AddAssign};

/// What was chosen in a frame, as counts. They add up over frames, each stopping at the greatest `usize`.
#[derive(Clone, Copy, Debug, PartialEq, Eq)]
pub struct EncoderStats {
    /// Blocks of each size, by `BlockSize`.
    pub block_size_counts: [usize; 22],
    /// Blocks without a residual.
    pub skip_block_count: usize,
    /// Blocks of each transform type.
    pub tx_type_counts: [usize; 16],
    /// Luma blocks of each prediction mode.
    pub luma_pred_mode_counts: [usize; 34],
    /// Chroma blocks of each prediction mode.
    pub chroma_pred_mode_counts: [usize; 34],
}

impl Default for EncoderStats {
    ghost is_default = { λ stats. stats ≡ no_stats };

    /// Every count is 0.
    fn default() -> EncoderStats {
        EncoderStats {
            block_size_counts: [0; 22],
            skip_block_count: 0,
            tx_type_counts: [0; 16],
            luma_pred_mode_counts: [0; 34],
            chroma_pred_mode_counts: [0; 34],
        }
    }
}

impl AddAssign<&EncoderStats> for EncoderStats {
    ghost can_add_assign = { λ _ _. ⊤ };

    ghost add_assign_gives = { λ old more new. new ≡ stats_sum old more.now };

    fn add_assign(&mut self, rhs: &EncoderStats) {
        add_counts(&mut self.block_size_counts, &rhs.block_size_counts);
        self.skip_block_count = self.skip_block_count.saturating_add(rhs.skip_block_count);
        add_counts(&mut self.tx_type_counts, &rhs.tx_type_counts);
        add_counts(&mut self.luma_pred_mode_counts, &rhs.luma_pred_mode_counts);
        add_counts(
            &mut self.chroma_pred_mode_counts,
            &rhs.chroma_pred_mode_counts,
        );
    }
}

impl Add<&EncoderStats> for EncoderStats {
    type Output = EncoderStats;

    ghost can_add = { λ _ _. ⊤ };

    ghost add_gives = { λ stats more sum. sum ≡ stats_sum stats more.now };

    fn add(self, rhs: &EncoderStats) -> EncoderStats {
        let mut sum = self;
        sum += rhs;
        sum
    }
}

// Adds the counts one by one.
fn add_counts(counts: &mut [usize], more: &[usize])
    requires { length more.now ≡ length counts.old }
    ensures { counts.new ≡ counts_sum counts.old more.now }
{
    for i in 0..counts.len() {
        counts[i] = counts[i].saturating_add(more[i]);
    }
}
