ghost use Rattle.std.specs.Prelude.{◌≡◌, ℕ, ◌<◌, ◌≤◌, Option, Some, None, if◌then◌else◌};
ghost use Rattle.quantizers.specs.Tables.{Tables};
ghost use Rattle.quantizers.specs.Flat.{flat};
ghost use Rattle.quantizers.specs.Bounds.{at_most as at_most_of, at_least as at_least_of, below_greatest as below_greatest_of, above_least as above_least_of};

use crate::flat::flat_quantizer;
use crate::parameters::LogQuantizer;
use crate::tables::QTables;

fn at_most(q: LogQuantizer, bound: LogQuantizer) -> LogQuantizer
    ensures { result ≡ at_most_of q bound }
{
    LogQuantizer {
        base: q.base.min(bound.base),
        target: q.target.min(bound.target),
    }
}

fn at_least(q: LogQuantizer, bound: LogQuantizer) -> LogQuantizer
    ensures { result ≡ at_least_of q bound }
{
    LogQuantizer {
        base: q.base.max(bound.base),
        target: q.target.max(bound.target),
    }
}

/// A quantiser that is at most that of the greatest index, if there is one.
pub fn below_greatest(
    greatest: Option<u8>,
    tables: &QTables,
    bit_depth: u8,
    subtype: usize,
    q: LogQuantizer,
) -> LogQuantizer
    requires depth_least { 8 ≤ bit_depth }
    requires depth_most { bit_depth ≤ 12 }
    requires subtype { subtype < 4 }
    ensures { result ≡ below_greatest_of greatest tables.now bit_depth subtype q }
{
    match greatest {
        Some(i) => at_most(q, flat_quantizer(tables, bit_depth, i, subtype)),
        None => q,
    }
}

/// A quantiser that is at least that of the least index, if that is above 0.
pub fn above_least(
    least: u8,
    tables: &QTables,
    bit_depth: u8,
    subtype: usize,
    q: LogQuantizer,
) -> LogQuantizer
    requires depth_least { 8 ≤ bit_depth }
    requires depth_most { bit_depth ≤ 12 }
    requires subtype { subtype < 4 }
    ensures { result ≡ above_least_of least tables.now bit_depth subtype q }
{
    if least > 0 {
        at_least(q, flat_quantizer(tables, bit_depth, least, subtype))
    } else {
        q
    }
}
