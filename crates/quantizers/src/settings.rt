ghost use Rattle.std.specs.Prelude.{◌≡◌, ℕ, ◌+◌, ◌≤◌, pos, ◌≤ℤ◌, ◌^◌, ◌*◌};
ghost use Rattle.quantizers.specs.Parameters.{table_scale as table_scale_of};

use av1_frame::ChromaSampling;
use fixed_log::q57;

/// The settings that a choice of quantisers reads.
#[derive(Clone, Copy, Debug, PartialEq, Eq)]
pub struct QSettings {
    /// 8, 10 or 12.
    pub bit_depth: u8,
    pub chroma: ChromaSampling,
    /// The AC index that stands where no bitrate asks for another.
    pub quantizer: u8,
    /// The greatest distance between key frames.
    pub max_key_frame_interval: i32,
}

/// The scale that table values have at a bit depth, as a logarithm in Q57: 3 at 8 bits, and 1 more with each bit.
pub fn table_scale(bit_depth: u8) -> i64
    requires least { 8 ≤ bit_depth }
    requires most { bit_depth ≤ 12 }
    ensures value { result ≡ table_scale_of bit_depth }
    ensures low { pos (3 * 2 ^ 57) ≤ℤ result }
    ensures high { result ≤ℤ pos (7 * 2 ^ 57) }
{
    q57(3 + (bit_depth as i32 - 8))
}
