ghost use Rattle.std.specs.Prelude.{◌≡◌, ℕ, ◌+◌, ◌*◌, ◌^◌, ◌<◌, ◌≤◌, ◌==◌, Option, Some, None, int_lt, if◌then◌else◌, pos};
ghost use Rattle.quantizers.specs.Tables.{Tables};
ghost use Rattle.quantizers.specs.Flat.{flat};
ghost use Rattle.quantizers.specs.Parameters.{parameters as parameters_of};
ghost use Rattle.ratecontrol.specs.Select.{within_indices as within_indices_of, select_ahead as select_ahead_of, select_flat as select_flat_of, select_first as select_first_of, select};
ghost use Rattle.std.specs.Int.{saturate_signed, w64};
ghost use Rattle.fixed_log.specs.Within.{IsWithin};
ghost use Rattle.rate_model.specs.FrameSubtypes.{modulated as modulated_of};
ghost use Rattle.ratecontrol.specs.Ahead.{ahead_of_guess as ahead_of_guess_of};
ghost use Rattle.ratecontrol.specs.SecondPass.{ahead_of_metrics as ahead_of_metrics_of};

use crate::ahead::Ahead;
use crate::guess::SubtypeGuess;
use crate::state::RCState;
use fixed_log::wide::saturated;
use quantizers::{
    LogQuantizer, QSettings, QTables, QuantizerParameters, above_least, below_greatest,
    flat_quantizer,
};
use rate_model::{FRAME_SUBTYPE_I, modulated};
use reservoir::powers::near_previous;

/// The parameters where there is no bitrate: those of the index that is set.
#[tactic(auto, unfolding(crate::specs::Select::select_flat))]
fn select_flat(
    settings: &QSettings,
    tables: &QTables,
    fti: usize,
    mean_scale: i64,
) -> QuantizerParameters
    requires fti { fti < 4 }
    requires depth_least { 8 ≤ settings.now.bit_depth }
    requires depth_most { settings.now.bit_depth ≤ 12 }
    ensures { result ≡ select_flat_of settings.now tables.now fti mean_scale }
{
    let q = flat_quantizer(tables, settings.bit_depth, settings.quantizer, fti);
    QuantizerParameters::new_from_log_q(
        tables,
        settings,
        q,
        mean_scale,
        fti == FRAME_SUBTYPE_I,
        None,
    )
}

/// The parameters of a first pass by itself: those of its base.
fn base_of_first_pass(base: i64, fti: usize) -> LogQuantizer
    requires { fti < 4 }
    ensures { result
        ≡ record { base = base; target = saturate_signed w64 (modulated_of base fti) } }
{
    LogQuantizer {
        base,
        target: saturated(modulated(base, fti)),
    }
}

impl RCState {
    /// The quantiser, kept within the indices that are set.
    fn within_indices(
        &self,
        tables: &QTables,
        bit_depth: u8,
        fti: usize,
        q: LogQuantizer,
    ) -> LogQuantizer
        requires depth_least { 8 ≤ bit_depth }
        requires depth_most { bit_depth ≤ 12 }
        requires fti { fti < 4 }
        ensures { result ≡ within_indices_of self.now tables.now bit_depth fti q }
    {
        let below = below_greatest(self.greatest, tables, bit_depth, fti, q);
        above_least(self.least, tables, bit_depth, fti, below)
    }

    /// The parameters of a frame, from the frames ahead.
    #[tactic(auto, unfolding(crate::specs::Select::select_ahead))]
    fn select_ahead(
        &self,
        settings: &QSettings,
        tables: &QTables,
        ahead: &Ahead,
        fti: usize,
        prev: Option<i64>,
        mean_scale: i64,
    ) -> QuantizerParameters
        requires fti { fti < 4 }
        requires depth_least { 8 ≤ settings.now.bit_depth }
        requires depth_most { settings.now.bit_depth ≤ 12 }
        requires frames { IsWithin (2 ^ 34) ahead.now.frames }
        ensures { result
            ≡ select_ahead_of self.now settings.now tables.now ahead.now fti prev mean_scale }
    {
        let found = self.search(tables, settings.bit_depth, ahead);
        let base = near_previous(prev, found.value);
        let target = self.target(ahead, fti, base);
        let q = self.within_indices(
            tables,
            settings.bit_depth,
            fti,
            LogQuantizer { base, target },
        );
        QuantizerParameters::new_from_log_q(
            tables,
            settings,
            q,
            mean_scale,
            fti == FRAME_SUBTYPE_I,
            Some(found.value),
        )
    }

    #[tactic(auto, unfolding(crate::specs::Select::select_first))]
    fn select_first(
        &self,
        settings: &QSettings,
        tables: &QTables,
        fti: usize,
    ) -> QuantizerParameters
        requires fti { fti < 4 }
        requires depth_least { 8 ≤ settings.now.bit_depth }
        requires depth_most { settings.now.bit_depth ≤ 12 }
        ensures { result ≡ select_first_of self.now settings.now tables.now fti }
    {
        QuantizerParameters::new_from_log_q(
            tables,
            settings,
            base_of_first_pass(self.first_base, fti),
            0,
            fti == FRAME_SUBTYPE_I,
            None,
        )
    }

    /// The parameters in a second pass, by the metrics that it was given.
    fn select_by_metrics<G: SubtypeGuess>(
        &self,
        settings: &QSettings,
        tables: &QTables,
        guess: &G,
        fti: usize,
        prev: Option<i64>,
        mean_scale: i64,
    ) -> QuantizerParameters
        requires fti { fti < 4 }
        requires depth_least { 8 ≤ settings.now.bit_depth }
        requires depth_most { settings.now.bit_depth ≤ 12 }
        ensures { result ≡ select_ahead_of self.now settings.now tables.now
            (ahead_of_metrics_of self.now (G.guess guess.now) (G.gop_input_start guess.now)
            settings.now.max_key_frame_interval fti) fti prev mean_scale }
    {
        let ahead = self.ahead_of_metrics(guess, settings.max_key_frame_interval, fti);
        self.select_ahead(settings, tables, &ahead, fti, prev, mean_scale)
    }

    /// The parameters in one pass, by a guess of the frames ahead.
    fn select_by_guess<G: SubtypeGuess>(
        &self,
        settings: &QSettings,
        tables: &QTables,
        guess: &G,
        fti: usize,
        prev: Option<i64>,
        mean_scale: i64,
    ) -> QuantizerParameters
        requires fti { fti < 4 }
        requires depth_least { 8 ≤ settings.now.bit_depth }
        requires depth_most { settings.now.bit_depth ≤ 12 }
        ensures { result ≡ select_ahead_of self.now settings.now tables.now
            (ahead_of_guess_of self.now (G.guess guess.now self.now.reservoir_delay) fti)
            fti prev mean_scale }
    {
        let guess = guess.guess(self.reservoir_delay);
        let ahead = self.ahead_of_guess(&guess, fti);
        self.select_ahead(settings, tables, &ahead, fti, prev, mean_scale)
    }

    /// The quantiser parameters of the next frame, of subtype 0 to 3.
    ///
    /// `prev` is the base of the coded frame before, and `mean_scale` the logarithm of the frame's mean distortion
    /// scale in Q57, within 16 of 0. Without a bitrate the parameters are those of the index that is set. A first pass by itself
    /// codes by its base alone. A second pass goes by the metrics that it was given.
    pub fn select_qi<G: SubtypeGuess>(
        &self,
        settings: &QSettings,
        tables: &QTables,
        guess: &G,
        fti: usize,
        prev: Option<i64>,
        mean_scale: i64,
    ) -> QuantizerParameters
        requires fti { fti < 4 }
        requires depth_least { 8 ≤ settings.now.bit_depth }
        requires depth_most { settings.now.bit_depth ≤ 12 }
        ensures { result ≡ select self.now settings.now tables.now (G.guess guess.now)
            (G.gop_input_start guess.now) fti prev mean_scale }
    {
        if !self.is_controlled() {
            select_flat(settings, tables, fti, mean_scale)
        } else if self.second {
            self.select_by_metrics(settings, tables, guess, fti, prev, mean_scale)
        } else if self.first {
            self.select_first(settings, tables, fti)
        } else {
            self.select_by_guess(settings, tables, guess, fti, prev, mean_scale)
        }
    }
}
