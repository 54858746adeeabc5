ghost use Rattle.std.specs.Prelude.{◌≡◌, ◌≤◌, ◌≤ℤ◌, pos, false, IsTrue, OnOk};
ghost use Rattle.std.specs.Result.{result_err};
ghost use Rattle.av1_settings.specs.Checks.{IsValid, asks_passes, pixel_refusal, refusal_of, session_refusal};
ghost use Rattle.av1_settings.specs.Defaults.{default_config};

use crate::checks::{check_all, check_pass, check_pixel};
use crate::{EncoderConfig, InvalidConfig, LevelTables, RateControlConfig};
use std::alloc::AllocError;

/// The whole configuration of a session.
#[derive(Debug, Drop)]
pub struct Config {
    /// What to encode, and how.
    pub enc: EncoderConfig,
    /// What is asked of rate control beside a bitrate.
    pub rate_control: RateControlConfig,
    /// The threads to use, where 0 leaves it open. Changes no result.
    pub threads: usize,
    /// The GOPs that may be encoded at once. Changes no result.
    pub slots: usize,
}

impl Config {
    /// The default settings of the encoder, no pass data, 0 threads and 0 slots.
    pub fn new() -> Config
        ensures { result ≡ default_config }
    {
        Config {
            enc: EncoderConfig::default(),
            rate_control: RateControlConfig::new(),
            threads: 0,
            slots: 0,
        }
    }

    /// This configuration with these settings of the encoder.
    pub fn with_encoder_config(mut self, enc: EncoderConfig) -> Config
        ensures { result ≡ record self { enc = enc } }
    {
        self.enc = enc;
        self
    }

    /// This configuration with this number of threads.
    pub fn with_threads(mut self, threads: usize) -> Config
        ensures { result ≡ record self { threads = threads } }
    {
        self.threads = threads;
        self
    }

    /// This configuration with these wishes of rate control.
    pub fn with_rate_control(mut self, rate_control: RateControlConfig) -> Config
        ensures { result ≡ record self { rate_control = rate_control } }
    {
        self.rate_control = rate_control;
        self
    }

    /// This configuration with this number of GOPs that may be encoded at once.
    pub fn with_parallel_gops(mut self, slots: usize) -> Config
        ensures { result ≡ record self { slots = slots } }
    {
        self.slots = slots;
        self
    }

    /// Refuses a configuration that can't be encoded, for the first check that fails. They are, in this order: width and
    /// height, the aspect ratio and the size that it leads to, lookahead, greatest key frame interval, tiles, time base,
    /// reservoir delay, switch frame interval, timing information of a still picture, colours, the level and its limits, a
    /// bitrate where pass data is asked for or a summary given, quantizer, bit depth. The ranges stand at the settings
    /// themselves. No memory is taken.
    #[tactic(auto, using(crate::proofs::CheckLemmas::valid_on, crate::proofs::CheckLemmas::bitrate_on))]
    pub fn validate(&self, levels: &LevelTables) -> Result<(), InvalidConfig>
        ensures first { result_err result ≡ refusal_of levels.now self.now }

        // what a caller may rely on after Ok
        ensures valid { OnOk result (IsValid self.now.enc) }
        ensures bitrate { OnOk result
            (IsTrue (asks_passes self.now) → pos 1 ≤ℤ self.now.enc.bitrate) }
    {
        check_all(self, levels)
    }

    /// The same, and behind it the check of a session whose pixels have this many bits: the bit depth isn't above them.
    #[tactic(auto, using(crate::proofs::CheckLemmas::first_failing_append), unfolding(crate::specs::Checks::refusal_of, crate::specs::Checks::pixel_refusal))]
    pub fn validate_for_pixel(&self, levels: &LevelTables, bits: usize) -> Result<(), InvalidConfig>
        ensures first { result_err result ≡ pixel_refusal bits levels.now self.now }

        // what a caller may rely on after Ok
        ensures valid { OnOk result (IsValid self.now.enc) }
        ensures depth { OnOk result (self.now.enc.bit_depth ≤ bits) }
        ensures bitrate { OnOk result
            (IsTrue (asks_passes self.now) → pos 1 ≤ℤ self.now.enc.bitrate) }
    {
        self.validate(levels)?;
        check_pixel(&self.enc, bits)
    }

    /// The same, and before it the check of a session in one pass: no pass data is asked for, and no summary is given.
    #[tactic(auto, using(crate::proofs::CheckLemmas::first_failing_append), unfolding(crate::specs::Checks::session_refusal, crate::specs::Checks::session_rows, crate::specs::Checks::pixel_refusal))]
    pub fn validate_for_session(
        &self,
        levels: &LevelTables,
        bits: usize,
    ) -> Result<(), InvalidConfig>
        ensures first { result_err result ≡ session_refusal bits levels.now self.now }

        // what a caller may rely on after Ok
        ensures valid { OnOk result (IsValid self.now.enc) }
        ensures depth { OnOk result (self.now.enc.bit_depth ≤ bits) }
        ensures one_pass { OnOk result (asks_passes self.now ≡ false) }
    {
        check_pass(self)?;
        self.validate_for_pixel(levels, bits)
    }
}

impl Clone for Config {
    ghost use Rattle.std.specs.Prelude.{◌≡◌, ⊤};

    ghost is_clone = { λ s t. t ≡ s };

    ghost is_infallible = { λ _. ⊤ };

    /// No memory is taken.
    fn clone(&self) -> Result<Self, AllocError> {
        Ok(Config {
            enc: self.enc,
            rate_control: self.rate_control.clone()?,
            threads: self.threads,
            slots: self.slots,
        })
    }
}

impl Default for Config {
    ghost is_default = { λ config. config ≡ default_config };

    fn default() -> Config {
        Config::new()
    }
}
