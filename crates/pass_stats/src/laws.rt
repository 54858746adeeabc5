//! What holds of writing and reading together, each law as the contract of a function that does both.

ghost use Rattle.std.specs.Prelude.{◌≡◌, ◌≤◌};

use crate::bytes::chunk;
use crate::{
    InvalidFrameType, RCFrameMetrics, RCSummary, RateControlError, parse_metrics, parse_summary,
    write_metrics, write_summary,
};

/// A summary, written and then read, is the same summary again. None is refused.
pub fn summary_again(s: &RCSummary) -> Result<RCSummary, RateControlError>
    ensures { result ≡ Ok s.now }
{
    parse_summary(write_summary(s.ntus, s.nframes, s.exp, s.scale_sum).as_slice())
}

/// The metrics of a frame, written and then read, are the same metrics again. None are refused.
pub fn metrics_again(m: &RCFrameMetrics) -> Result<RCFrameMetrics, InvalidFrameType>
    requires { m.now.fti ≤ 4 }
    ensures { result ≡ Ok m.now }
{
    let bytes = write_metrics(m);
    parse_metrics(&chunk(bytes.as_slice(), 0))
}
