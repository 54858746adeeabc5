ghost use Rattle.std.specs.Prelude.{◌≡◌, ◌≢◌, ◌↔◌, ℤ, take};
ghost use Rattle.pass_stats.specs.Summary.{Summary, first_met};
ghost use Rattle.pass_stats.specs.declared.error.Why.{Why};
ghost use Rattle.pass_stats.specs.declared.summary.RCSummary.{RCSummary};
ghost use Rattle.av1_settings.specs.Defaults.{default_rate_control, second_pass};

use pass_stats::{RCSummary, RateControlError, parse_summary};
use std::alloc::AllocError;

/// What a first pass says of the whole stream; another name of `RCSummary`.
pub type RateControlSummary = RCSummary;

/// What is asked of rate control beside a bitrate.
#[derive(Debug, Drop)]
pub struct RateControlConfig {
    /// Whether pass data is asked for.
    pub emit_data: bool,
    /// What a first pass said of the whole stream; makes a second pass of the session.
    pub summary: Option<RateControlSummary>,
}

impl RateControlConfig {
    /// No pass data and no summary.
    pub fn new() -> RateControlConfig
        ensures { result ≡ default_rate_control }
    {
        RateControlConfig {
            emit_data: false,
            summary: None,
        }
    }

    /// The second pass that the summary in these bytes makes. The first 68 bytes are read, and any further ones ignored. No
    /// memory is taken.
    ///
    /// # Errors
    ///
    /// `CorruptedSummary` with the first reason, in the order of `Why`, for which the bytes are refused.
    pub fn from_summary_slice(bytes: &[u8]) -> Result<RateControlConfig, RateControlError>
        ensures accepted { (s : RCSummary)
            → (result ≡ Ok (second_pass s)) ↔ Summary (take 68 bytes.now) s }
        ensures refused { (why : Why)
            → (result ≡ Err (RateControlError.CorruptedSummary why))
            ↔ (first_met bytes.now ≡ Some why) }
        ensures never_version { (v : ℤ) → result ≢ Err (RateControlError.InvalidVersion v) }
    {
        match parse_summary(bytes) {
            Ok(summary) => Ok(RateControlConfig::new().with_summary(summary)),
            Err(error) => Err(error),
        }
    }

    /// These settings with a first pass's summary.
    pub fn with_summary(mut self, s: RCSummary) -> RateControlConfig
        ensures { result ≡ record self { summary = Some s } }
    {
        self.summary = Some(s);
        self
    }

    /// These settings, asking for pass data or not.
    pub fn with_emit_data(mut self, emit_data: bool) -> RateControlConfig
        ensures { result ≡ record self { emit_data = emit_data } }
    {
        self.emit_data = emit_data;
        self
    }
}

impl Clone for RateControlConfig {
    ghost use Rattle.std.specs.Prelude.{◌≡◌, ⊤};

    ghost is_clone = { λ s t. t ≡ s };

    ghost is_infallible = { λ _. ⊤ };

    /// No memory is taken.
    fn clone(&self) -> Result<Self, AllocError> {
        let summary = match &self.summary {
            Some(summary) => Some(summary.clone()?),
            None => None,
        };
        Ok(RateControlConfig {
            emit_data: self.emit_data,
            summary,
        })
    }
}

impl Default for RateControlConfig {
    ghost is_default = { λ rate_control. rate_control ≡ default_rate_control };

    fn default() -> RateControlConfig {
        RateControlConfig::new()
    }
}
