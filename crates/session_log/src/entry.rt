ghost use Rattle.std.specs.Prelude.{◌≡◌, ◌*◌, ◌<◌, ◌^◌, length, pos};
ghost use Rattle.pyramid.specs.Display.{shows};
ghost use Rattle.session_log.specs.Readings.{base_of, target_of};

use coding_base::{Bytes, Sequence};
use pyramid::Command;
use quantizers::QuantizerParameters;

// A coded frame has fewer bytes than this.
const MOST_BYTES: usize = 1 << 48;

/// One call of the coder.
#[derive(Drop)]
pub struct LogEntry {
    /// What was coded.
    pub command: Command,
    /// Whether it was only tried.
    pub trial: bool,
    /// The coder's bytes.
    pub bytes: Bytes,
    /// The quantisers that it was coded with; none where a slot was shown.
    pub quant: Option<QuantizerParameters>,
    /// The logarithm of the frame's mean distortion scale, in Q57, within 16 of 0; 0 where a slot was shown.
    pub mean_scale: i64,
}

impl LogEntry {
    /// Whether a frame is shown by it.
    pub fn is_showing(&self) -> bool
        ensures { result ≡ shows self.now.command }
    {
        match self.command {
            Command::Code { shown, .. } => shown,
            Command::Show { .. } => true,
        }
    }

    // The bits of its bytes.
    pub(crate) fn bits(&self) -> i64
        ensures { length self.now.bytes < 2 ^ 48 → result ≡ pos (8 * length self.now.bytes) }
    {
        8 * self.bytes.len().min(MOST_BYTES) as i64
    }

    // The quantiser that it aimed at; 0 where it has none.
    pub(crate) fn target(&self) -> i64
        ensures { result ≡ target_of self.now }
    {
        self.quant.map_or(0, |quant| quant.log_target_q)
    }

    // The base that it was coded with, if it was coded for good.
    pub(crate) fn base(&self) -> Option<i64>
        ensures { result ≡ base_of self.now }
    {
        if self.trial {
            None
        } else {
            self.quant.map(|quant| quant.log_base_q)
        }
    }
}

/// Calls of the coder, in order.
pub type LogList = Sequence<LogEntry>;
