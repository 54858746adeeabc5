ghost use Rattle.std.specs.Prelude.{◌≡◌, ℕ, ◌+◌, ◌<◌, ◌^◌, pos, negsuc, ◌+ℤ◌, ◌*ℤ◌};
ghost use Rattle.std.specs.Int.{int_shr};
ghost use Rattle.fixed_log.specs.Within.{IsWithin};
ghost use Rattle.rate_model.specs.FrameSubtypes.{offset_of, modulated as modulated_of};

/// How many frame subtypes have a quantiser.
pub const FRAME_NSUBTYPES: usize = 4;

/// A key frame.
pub const FRAME_SUBTYPE_I: usize = 0;

/// An inter frame of pyramid level 0.
pub const FRAME_SUBTYPE_P: usize = 1;

/// An inter frame of pyramid level 1.
pub const FRAME_SUBTYPE_B0: usize = 2;

/// An inter frame of pyramid level 2.
pub const FRAME_SUBTYPE_B1: usize = 3;

/// A show of a frame that is coded already.
pub const FRAME_SUBTYPE_SEF: usize = 4;

/// By how much the logarithm of the subtype's quantiser lies above the base, in Q57: rav1e's `DQP_Q57`.
pub fn subtype_offset(subtype: usize) -> i64
    requires { subtype < 4 }
    ensures value { result ≡ offset_of subtype }
    ensures within { IsWithin (2 ^ 57) result }
{
    match subtype {
        FRAME_SUBTYPE_I => -56_629_159_325_661_976,
        FRAME_SUBTYPE_P => 0,
        FRAME_SUBTYPE_B0 => 56_629_159_325_661_976,
        _ => 113_258_318_651_323_952,
    }
}

/// A base, rounded to 45 bits behind the point.
fn rounded(base: i64) -> i128
    ensures value { result ≡ int_shr (base +ℤ pos 2048) 12 *ℤ pos 4096 }
    ensures within { IsWithin (2 ^ 63 + 2 ^ 12) result }
{
    ((base as i128 + 2048) >> 12) * 4096
}

/// The logarithm of a subtype's quantiser, from the base that all subtypes share. Both are in Q57.
pub fn modulated(base: i64, subtype: usize) -> i128
    requires { subtype < 4 }
    ensures value { result ≡ modulated_of base subtype }
    ensures within { IsWithin (2 ^ 64) result }
{
    rounded(base) + subtype_offset(subtype) as i128
}
