ghost use Rattle.std.specs.Prelude.{◌≡◌, ℕ, ◌+◌, ◌*◌, ◌^◌, ◌<◌, ◌≤◌, [], ◌∷◌, map, slice_index, Option, IsFalse, int_div, pos, ◌+ℤ◌, ◌-ℤ◌, ◌*ℤ◌, ◌≤ℤ◌};
ghost use Rattle.std.specs.Option.{unwrap_or};
ghost use Rattle.fixed_log.specs.Within.{IsWithin};
ghost use Rattle.quantizers.specs.Tables.{Tables};
ghost use Rattle.rate_model.specs.Subtype.{SubtypeRate};
ghost use Rattle.pass_stats.specs.Grammar.{any_zero};
ghost use Rattle.ratecontrol.specs.Passes.{exponents_of};
ghost use Rattle.ratecontrol.specs.Ahead.{ahead_of_guess, bias_of, budget as budget_of, model_of, index_log as index_log_of, searched};

use crate::guess::Guess;
use crate::state::RCState;
use fixed_log::wide::product;
use quantizers::{QTables, log_of_value};
use rate_model::wide::quotient;
use rate_model::{RateModel, Search, search_base_q};

/// The frames ahead, as a selection reads them.
#[derive(Clone, Copy, Debug)]
pub(crate) struct Ahead {
    /// How many frames of each subtype, and how many shows of coded frames.
    pub nframes: [i32; 5],
    /// For how many frames the bias is made up.
    pub frames: i64,
    /// How many temporal units.
    pub tus: i64,
    /// The logarithm of a subtype's bits for each pixel at quantiser 1.
    pub log_scale: [i64; 4],
    /// The same of the frame that is being coded.
    pub current: i64,
}

/// The bias of a number of frames, where one frame has `mean`.
fn bias_of_frames(mean: i128, frames: i64) -> i128
    requires mean { IsWithin (2 ^ 90) mean }
    requires frames { IsWithin (2 ^ 34) frames }
    ensures value { result ≡ mean *ℤ frames }
    ensures within { IsWithin (2 ^ 124) result }
{
    product::<90, 34>(mean, frames as i128)
}

fn sum_of_budget(above_target: i128, bias: i128, tus: i128) -> i128
    requires above_target { IsWithin (2 ^ 97) above_target }
    requires bias { IsWithin (2 ^ 124) bias }
    requires tus { IsWithin (2 ^ 109) tus }
    ensures value { result ≡ above_target +ℤ bias +ℤ tus }
{
    above_target + bias + tus
}

/// The logarithm of the AC value of an index, without the table's scale.
fn index_log(tables: &QTables, bit_depth: u8, i: u8) -> i64
    requires least { 8 ≤ bit_depth }
    requires most { bit_depth ≤ 12 }
    ensures value { result ≡ index_log_of tables.now bit_depth i }
    ensures within { IsWithin (2 ^ 62) result }
{
    log_of_value(bit_depth, tables.ac(i))
}

impl RCState {
    /// What is ahead in one pass: the guess of it, and the scales so far.
    #[tactic(auto, unfolding(crate::specs::Ahead::ahead_of_guess))]
    pub(crate) fn ahead_of_guess(&self, guess: &Guess, fti: usize) -> Ahead
        requires { fti < 4 }
        ensures value { result ≡ ahead_of_guess self.now guess.now fti }
        ensures frames { IsWithin (2 ^ 34) result.frames }
    {
        Ahead {
            nframes: guess.nframes,
            frames: guess.frames as i64,
            tus: guess.tus as i64,
            log_scale: self.log_scales(),
            current: self.subtypes[fti].current(),
        }
    }

    /// The scales of the subtypes.
    fn log_scales(&self) -> [i64; 4]
        ensures { result ≡ map (λ (s : SubtypeRate). s.log_scale) self.now.subtypes }
    {
        [
            self.subtypes[0].log_scale(),
            self.subtypes[1].log_scale(),
            self.subtypes[2].log_scale(),
            self.subtypes[3].log_scale(),
        ]
    }

    /// The exponents of the subtypes.
    pub(crate) fn exponents(&self) -> [u8; 4]
        ensures value { result ≡ map (λ (s : SubtypeRate). s.exponent) self.now.subtypes }
        ensures four { result ≡ exponents_of self.now }
        ensures positive { IsFalse (any_zero result) }
    {
        [
            self.subtypes[0].exponent(),
            self.subtypes[1].exponent(),
            self.subtypes[2].exponent(),
            self.subtypes[3].exponent(),
        ]
    }

    /// The mean bias of the frames so far.
    fn mean_bias(&self) -> i128
        ensures value { result ≡ int_div self.now.bias (self.now.coded +ℤ pos 100) }
        ensures within { IsWithin (2 ^ 90) result }
    {
        quotient(self.bias, self.coded as i128 + 100)
    }

    /// How far the reservoir is above its target.
    fn above_target(&self) -> i128
        ensures value { result ≡ self.now.reservoir -ℤ self.now.target }
        ensures within { IsWithin (2 ^ 97) result }
    {
        self.reservoir - self.target
    }

    fn bits_of_tus(&self, tus: i64) -> i128
        ensures value { result ≡ tus *ℤ self.now.bits_per_tu }
        ensures within { IsWithin (2 ^ 109) result }
    {
        product::<63, 46>(tus as i128, self.bits_per_tu as i128)
    }

    /// What the frames ahead may take.
    #[tactic(auto, unfolding(crate::specs::Ahead::budget))]
    fn budget(&self, frames: i64, tus: i64) -> i128
        requires { IsWithin (2 ^ 34) frames }
        ensures { result ≡ budget_of self.now frames tus }
    {
        sum_of_budget(
            self.above_target(),
            bias_of_frames(self.mean_bias(), frames),
            self.bits_of_tus(tus),
        )
    }

    #[tactic(auto, unfolding(crate::specs::Ahead::model_of))]
    fn model(&self, ahead: &Ahead) -> RateModel
        ensures { result ≡ model_of self.now ahead.now }
    {
        RateModel {
            nframes: ahead.nframes,
            log_scale: ahead.log_scale,
            exp: self.exponents(),
            log_npixels: self.log_npixels,
        }
    }

    /// The base quantiser at which the frames ahead take what they may.
    #[tactic(auto, unfolding(crate::specs::Ahead::searched))]
    pub(crate) fn search(&self, tables: &QTables, bit_depth: u8, ahead: &Ahead) -> Search
        requires least { 8 ≤ bit_depth }
        requires most { bit_depth ≤ 12 }
        requires frames { IsWithin (2 ^ 34) ahead.now.frames }
        ensures { result ≡ searched self.now tables.now bit_depth ahead.now }
    {
        search_base_q(
            &self.model(ahead),
            self.budget(ahead.frames, ahead.tus),
            index_log(tables, bit_depth, self.least),
            index_log(tables, bit_depth, self.greatest.unwrap_or(255)),
        )
    }
}
