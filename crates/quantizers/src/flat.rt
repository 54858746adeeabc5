ghost use Rattle.std.specs.Prelude.{◌≡◌, ℕ, ◌+◌, ◌*◌, ◌^◌, ◌<◌, ◌≤◌, pos, ◌+ℤ◌, ◌≤ℤ◌};
ghost use Rattle.std.specs.Int.{int_shr};
ghost use Rattle.fixed_log.specs.Within.{IsWithin};
ghost use Rattle.quantizers.specs.Flat.{log_of_value as log_of, flat_base as flat_base_of, flat};

use crate::parameters::LogQuantizer;
use crate::settings::table_scale;
use crate::tables::QTables;
use fixed_log::blog64;
use fixed_log::wide::saturated;
use rate_model::modulated;

/// The logarithm of a table value without the table's scale, in Q57.
#[tactic(auto, using(crate::proofs::Bits::highest_bit_short))]
pub fn log_of_value(bit_depth: u8, value: u16) -> i64
    requires least { 8 ≤ bit_depth }
    requires most { bit_depth ≤ 12 }
    requires positive { 1 ≤ value }
    ensures value { result ≡ log_of bit_depth value }
    ensures within { IsWithin (2 ^ 61) result }
{
    blog64(value as i64) - table_scale(bit_depth)
}

/// Half of a sum, rounded; halves go up.
fn half(sum: i64) -> i64
    requires { IsWithin (2 ^ 62) sum }
    ensures value { result ≡ int_shr (sum +ℤ pos 1) 1 }
    ensures within { IsWithin (2 ^ 62) result }
{
    (sum + 1) >> 1
}

/// The mean, rounded; halves go up.
fn mean(a: i64, b: i64) -> i64
    requires a { IsWithin (2 ^ 61) a }
    requires b { IsWithin (2 ^ 61) b }
    ensures value { result ≡ int_shr (a +ℤ b +ℤ pos 1) 1 }
    ensures within { IsWithin (2 ^ 62) result }
{
    half(a + b)
}

/// The base of a table index: the mean of the logarithms of its AC value and of the DC value that is nearest to that.
#[tactic(auto, unfolding(crate::specs::Flat::flat_base))]
fn flat_base(tables: &QTables, bit_depth: u8, i: u8) -> i64
    requires least { 8 ≤ bit_depth }
    requires most { bit_depth ≤ 12 }
    ensures value { result ≡ flat_base_of tables.now bit_depth i }
    ensures within { IsWithin (2 ^ 62) result }
{
    let ac = tables.ac(i);
    let dc = tables.dc(tables.nearest_dc(ac as i64));
    mean(log_of_value(bit_depth, ac), log_of_value(bit_depth, dc))
}

/// The quantiser of a table index for a frame subtype.
pub fn flat_quantizer(tables: &QTables, bit_depth: u8, i: u8, subtype: usize) -> LogQuantizer
    requires least { 8 ≤ bit_depth }
    requires most { bit_depth ≤ 12 }
    requires subtype { subtype < 4 }
    ensures { result ≡ flat tables.now bit_depth i subtype }
{
    let base = flat_base(tables, bit_depth, i);
    LogQuantizer {
        base,
        target: saturated(modulated(base, subtype)),
    }
}
