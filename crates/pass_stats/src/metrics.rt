ghost use Rattle.std.specs.Prelude.{◌≡◌, ℕ, List, ◌<◌, ◌≤◌, ◌↔◌};
ghost use Rattle.pass_stats.specs.Bytes.{AreBytes};
ghost use Rattle.pass_stats.specs.Metric.{Metric, subtype_at};
ghost use Rattle.pass_stats.specs.declared.metrics.RCFrameMetrics.{RCFrameMetrics};

use crate::InvalidFrameType;
use crate::bytes::{append, append_i32, read_i32, read_u32};
use arrayvec::ArrayVec;

/// The bit of the first number that is set where the frame is shown. The subtype is in those below.
const SHOW_FLAG: u32 = 0x8000_0000;

/// The greatest frame subtype, that of a frame which shows an earlier one.
const MAX_SUBTYPE: u8 = 4;

/// What a first pass says of one frame.
#[derive(Clone, Copy, Debug, PartialEq, Eq)]
pub struct RCFrameMetrics {
    /// Logarithm of the frame's scale, in Q24.
    pub log_scale_q24: i32,
    /// Frame subtype: 0 to 4 for I, P, B0, B1 and show-existing.
    pub fti: u8,
    /// Whether the frame is shown.
    pub show_frame: bool,
}

/// Reads the metrics of one frame.
///
/// # Errors
///
/// The low 31 bits of the first number, where they are above 4.
pub fn parse_metrics(bytes: &[u8; 8]) -> Result<RCFrameMetrics, InvalidFrameType>
    ensures accepted { (m : RCFrameMetrics) → (result ≡ Ok m) ↔ Metric bytes.now m }
    ensures refused { (value : ℕ)
        → (result ≡ Err (record { value = value }))
        ↔ ((value ≡ subtype_at bytes.now) × (4 < value)) }
{
    let word = read_u32(bytes, 0);
    let value = word % SHOW_FLAG;
    if value > u32::from(MAX_SUBTYPE) {
        return Err(InvalidFrameType { value });
    }
    Ok(RCFrameMetrics {
        log_scale_q24: read_i32(bytes, 4),
        fti: value as u8,
        show_frame: word >= SHOW_FLAG,
    })
}

/// Writes the metrics of one frame, 8 bytes.
pub fn write_metrics(m: &RCFrameMetrics) -> ArrayVec<u8, 68>
    requires { m.now.fti ≤ 4 }
    ensures written { Metric result.items m.now }
    ensures one_value { (other : RCFrameMetrics) → Metric result.items other → other ≡ m.now }
    ensures one_spelling { (bytes : List ℕ) → AreBytes bytes → Metric bytes m.now
        → bytes ≡ result.items }
{
    let flag = if m.show_frame { SHOW_FLAG } else { 0 };
    let word = flag + u32::from(m.fti);
    let mut bytes = ArrayVec::new();
    append(&mut bytes, &word.to_le_bytes());
    append_i32(&mut bytes, m.log_scale_q24);
    bytes
}
