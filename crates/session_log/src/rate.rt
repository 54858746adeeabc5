// The rate control of a session, which goes by the session's log.
ghost use Rattle.std.specs.Prelude.{◌≡◌, ◌++◌, ◌<◌, ◌≤◌, ◌^◌, [], ◌∷◌, List, length, true, ◌&&◌, if◌then◌else◌, Option, Some, None, int_lt, pos, ◌≤ℤ◌};
ghost use Rattle.std.specs.Option.{option_or};
ghost use Rattle.std.specs.Ordering.{int_eq};
ghost use Rattle.av1_settings.specs.declared.encoder.EncoderConfig.{EncoderConfig as Settings};
ghost use Rattle.av1_settings.specs.Checks.{IsValid};
ghost use Rattle.pyramid.specs.Known.{is_coding};
ghost use Rattle.quantizers.specs.Tables.{Tables};
ghost use Rattle.rate_model.specs.Subtype.{subtype_at};
ghost use Rattle.ratecontrol.specs.Select.{select};
ghost use Rattle.ratecontrol.specs.Update.{update};
ghost use Rattle.session_log.specs.declared.entry.LogEntry.{LogEntry as Entry};
ghost use Rattle.session_log.specs.Keeps.{IsLog, Keeps};
ghost use Rattle.session_log.specs.Passes.{Passes, no_passes, passes_after};
ghost use Rattle.session_log.specs.Readings.{base_of, greatest_index, measured, settings_of, start_of};
ghost use Rattle.session_log.specs.Selection.{is_trial_due, reservoir_after, selection};

use crate::LogEntry;
use av1_settings::EncoderConfig;
use pyramid::Command;
use quantizers::{QSettings, QTables, QuantizerParameters};
use ratecontrol::{RCState, SubtypeGuess};
use std::alloc::Global;
use std::marker::Model;

/// The rate control of a session. It is told each entry of the session's log, selects the quantisers of what is coded next,
/// and hands on the data of a first pass to a second. Contracts see it as a record (`RateKept`), and say by `Keeps` which log
/// it was told and what its passes hand on.
#[derive(Drop)]
pub struct SessionRate {
    pub(crate) state: RCState,
    settings: QSettings,
    tables: QTables,
    bitrate: i32,
    base: Option<i64>,
}

impl Model for SessionRate {
    ghost use Rattle.session_log.specs.Keeps.{HasDepth, RateKept};

    ghost Value = { RateKept };

    ghost view = { λ rate. record {
      state = rate.state;
      settings = rate.settings;
      tables = rate.tables;
      bitrate = rate.bitrate;
      base = rate.base;
    } };

    ghost invariant = { λ rate. HasDepth (record {
      state = rate.state;
      settings = rate.settings;
      tables = rate.tables;
      bitrate = rate.bitrate;
      base = rate.base;
    }) };
}

impl SessionRate {
    /// The rate control of a session that hasn't begun, in one pass, for valid settings. No memory is taken.
    pub fn new(alloc: Global, enc: &EncoderConfig, tables: &QTables) -> SessionRate
        requires { IsValid enc.now }
        ensures { Keeps enc.now tables.now no_passes [] result }
    {
        let state = start(alloc, enc);
        SessionRate::begin(state, settings(enc), tables, enc.bitrate)
    }

    fn begin(state: RCState, settings: QSettings, tables: &QTables, bitrate: i32) -> SessionRate
        requires least { 8 ≤ settings.bit_depth }
        requires most { settings.bit_depth ≤ 12 }
        ensures { result ≡ record {
          state = state;
          settings = settings;
          tables = tables.now;
          bitrate = bitrate;
          base = None;
        } }
    {
        SessionRate {
            state,
            settings,
            tables: *tables,
            bitrate,
            base: None,
        }
    }

    /// Whether a command is to be tried before it is coded: there is a bitrate, and nothing of the command's subtype was
    /// coded for good.
    pub fn is_trial_due(&self, command: &Command) -> bool
        ensures { (enc : Settings) (tables : Tables) (passes : Passes) (log : List Entry) →
            Keeps enc tables passes log self.now → result ≡ is_trial_due enc log command.now }
    {
        match command {
            Command::Code { .. } => self.needs_trial(command.subtype()),
            Command::Show { .. } => false,
        }
    }

    fn needs_trial(&self, subtype: usize) -> bool
        requires { subtype < 4 }
        ensures { let state = self.now.state in
            result ≡ (int_lt (pos 0) state.bitrate
            && int_eq (subtype_at state.subtypes subtype).frames (pos 0)) }
    {
        self.state.needs_trial_encode(subtype)
    }

    /// The quantisers of a command that codes, for a frame of this mean scale. `guess` guesses what comes next.
    pub fn select<G: SubtypeGuess>(
        &self,
        guess: &G,
        command: &Command,
        mean_scale: i64,
    ) -> QuantizerParameters
        requires { is_coding command.now ≡ true }
        ensures { (enc : Settings) (tables : Tables) (passes : Passes) (log : List Entry) →
            Keeps enc tables passes log self.now →
            result ≡ selection enc tables passes log (G.guess guess.now) (G.gop_input_start guess.now)
            command.now mean_scale }
    {
        self.select_subtype(guess, command.subtype(), mean_scale)
    }

    pub(crate) fn select_subtype<G: SubtypeGuess>(
        &self,
        guess: &G,
        subtype: usize,
        mean_scale: i64,
    ) -> QuantizerParameters
        requires { subtype < 4 }
        ensures { let kept = self.now in
            result ≡ select kept.state kept.settings kept.tables (G.guess guess.now)
            (G.gop_input_start guess.now) subtype kept.base mean_scale }
    {
        self.state.select_qi(
            &self.settings,
            &self.tables,
            guess,
            subtype,
            self.base,
            mean_scale,
        )
    }

    /// Takes the next entry of the log. Under a bitrate a first pass has its data to be taken then, and a second pass lets the
    /// metrics of what was coded for good go.
    pub fn note(&mut self, entry: &LogEntry)
        ensures tables { self.new.tables ≡ self.old.tables }
        ensures keeps { (enc : Settings) (tables : Tables) (passes : Passes) (log : List Entry) →
            Keeps enc tables passes log self.old → IsLog (log ++ entry.now ∷ []) →
            Keeps enc tables (passes_after enc passes log entry.now) (log ++ entry.now ∷ []) self.new }
    {
        self.take(entry);
        self.follow(entry);
    }

    // Has the controller take the entry's bits.
    fn take(&mut self, entry: &LogEntry)
        ensures others { self.new ≡ record self.old { state = self.new.state } }
        ensures state { length entry.now.bytes < 2 ^ 48 →
            self.new ≡ record self.old { state = update (measured entry.now) self.old.state } }
        ensures most_low { pos 1 ≤ℤ self.old.state.most }
        ensures most_high { self.old.state.most ≤ℤ pos (2 ^ 78) }
    {
        take_entry(&mut self.state, entry);
    }

    // Keeps the entry's base, if it was coded for good.
    fn follow(&mut self, entry: &LogEntry)
        ensures { self.new ≡ record self.old { base = option_or (base_of entry.now) self.old.base } }
    {
        self.base = entry.base().or(self.base);
    }

    /// The bits that the reservoir holds; none where there is no bitrate.
    pub fn reservoir(&self) -> Option<i128>
        ensures { (enc : Settings) (tables : Tables) (passes : Passes) (log : List Entry) →
            Keeps enc tables passes log self.now → result ≡ reservoir_after enc passes log }
    {
        self.held()
    }

    fn held(&self) -> Option<i128>
        ensures { result ≡ (if int_lt (pos 0) self.now.bitrate then Some self.now.state.reservoir
            else None) }
    {
        if self.bitrate > 0 {
            Some(self.state.reservoir())
        } else {
            None
        }
    }

    /// The state of the rate controller.
    pub fn state(&self) -> &RCState
        ensures { result.now ≡ self.now.state }
    {
        &self.state
    }
}

// The state before the first entry.
fn start(alloc: Global, enc: &EncoderConfig) -> RCState
    requires { IsValid enc.now }
    ensures { result ≡ start_of enc.now }
{
    RCState::new(
        alloc,
        enc.width as i32,
        enc.height as i32,
        enc.time_base.den as i64,
        enc.time_base.num as i64,
        enc.bitrate,
        greatest_index(enc),
        enc.min_quantizer,
        enc.key_frame_interval() as i32,
        enc.reservoir_frame_delay,
    )
}

// What a choice of quantisers reads of the settings.
fn settings(enc: &EncoderConfig) -> QSettings
    requires { IsValid enc.now }
    ensures value { result ≡ settings_of enc.now }
    ensures least { 8 ≤ result.bit_depth }
    ensures most { result.bit_depth ≤ 12 }
{
    QSettings {
        bit_depth: enc.bit_depth as u8,
        chroma: enc.chroma_sampling,
        quantizer: enc.quantizer as u8,
        max_key_frame_interval: enc.key_frame_interval() as i32,
    }
}

// The greatest index that a bitrate may lead to.
fn greatest_index(enc: &EncoderConfig) -> Option<u8>
    ensures { result ≡ greatest_index enc.now }
{
    if enc.quantizer < 255 {
        Some(enc.quantizer as u8)
    } else {
        None
    }
}

// The state after an entry.
fn take_entry(state: &mut RCState, entry: &LogEntry)
    ensures state { length entry.now.bytes < 2 ^ 48 →
        state.new ≡ update (measured entry.now) state.old }
    ensures most_low { pos 1 ≤ℤ state.old.most }
    ensures most_high { state.old.most ≤ℤ pos (2 ^ 78) }
{
    state.update_state(
        entry.bits(),
        entry.command.subtype(),
        entry.is_showing(),
        entry.target(),
        entry.trial,
        false,
    );
}
