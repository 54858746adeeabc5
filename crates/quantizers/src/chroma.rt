ghost use Rattle.std.specs.Prelude.{◌≡◌, ℕ, ◌+◌, ◌<◌, ◌^◌, ◌*◌, pos, negsuc, ◌+ℤ◌, ◌-ℤ◌, ◌*ℤ◌, ◌≤ℤ◌};
ghost use Rattle.std.specs.Int.{int_shr, int_max};
ghost use Rattle.fixed_log.specs.Within.{IsWithin};
ghost use Rattle.quantizers.specs.Chroma.{luma_slope as luma_slope_of, luma_offset as luma_offset_of, adjusted_luma as adjusted_luma_of, luma_of, chroma_drop as chroma_drop_of, u_of, v_of};

use av1_frame::ChromaSampling;

fn times(a: i64, b: i64) -> i128
    requires a { IsWithin (2 ^ 31) a }
    requires b { IsWithin (2 ^ 28) b }
    ensures value { result ≡ a *ℤ b }
    ensures within { IsWithin (2 ^ 59) result }
{
    a as i128 * b as i128
}

/// How the luma quantiser of an inter frame of 8 bits grows faster than the target, of scale 2^32.
fn luma_slope(chroma: ChromaSampling) -> i64
    ensures value { result ≡ luma_slope_of chroma }
    ensures within { IsWithin (2 ^ 28) result }
{
    match chroma {
        ChromaSampling::Cs420 => 0x8A0_50DD,
        ChromaSampling::Cs422 => 0x887_7666,
        ChromaSampling::Cs444 => 0x8D4_A712,
        ChromaSampling::Cs400 => 0,
    }
}

fn luma_offset(chroma: ChromaSampling) -> i128
    ensures value { result ≡ luma_offset_of chroma }
    ensures within { IsWithin (2 ^ 59) result }
{
    match chroma {
        ChromaSampling::Cs420 => -0x24_4FE7_ECB3_DD90,
        ChromaSampling::Cs422 => -0x37_41DA_38AD_0924,
        ChromaSampling::Cs444 => -0x70_83BD_A626_311C,
        ChromaSampling::Cs400 => 0,
    }
}

/// The high half of `target` times the slope.
fn luma_rise(chroma: ChromaSampling, target: i64) -> i128
    ensures value { result ≡ int_shr target 32 *ℤ luma_slope_of chroma }
    ensures within { IsWithin (2 ^ 59) result }
{
    times(target >> 32, luma_slope(chroma))
}

fn sum(a: i64, b: i128, c: i128) -> i128
    requires b { IsWithin (2 ^ 59) b }
    requires c { IsWithin (2 ^ 59) c }
    ensures value { result ≡ a +ℤ b +ℤ c }
    ensures within { IsWithin (2 ^ 64) result }
{
    a as i128 + b + c
}

fn adjusted_luma(chroma: ChromaSampling, target: i64) -> i128
    ensures value { result ≡ adjusted_luma_of chroma target }
    ensures within { IsWithin (2 ^ 64) result }
{
    sum(target, luma_rise(chroma, target), luma_offset(chroma))
}

/// The luma quantiser's logarithm.
pub fn luma(chroma: ChromaSampling, bit_depth: u8, intra: bool, target: i64) -> i128
    ensures value { result ≡ luma_of chroma bit_depth intra target }
    ensures within { IsWithin (2 ^ 64) result }
{
    if bit_depth == 8 && !intra {
        adjusted_luma(chroma, target)
    } else {
        target as i128
    }
}

/// `x` over `2^k`, rounded down.
fn part(x: i128, k: u32) -> i128
    requires low { pos 0 ≤ℤ x }
    requires high { x ≤ℤ pos (2 ^ 66) }
    requires shift { k < 9 }
    ensures value { result ≡ int_shr x k }
    ensures low { pos 0 ≤ℤ result }
    ensures high { result ≤ℤ pos (2 ^ 66) }
{
    x >> k
}

fn chroma_drop(chroma: ChromaSampling, x: i128) -> i128
    requires low { pos 0 ≤ℤ x }
    requires high { x ≤ℤ pos (2 ^ 66) }
    ensures value { result ≡ chroma_drop_of chroma x }
    ensures within { IsWithin (2 ^ 68) result }
{
    match chroma {
        ChromaSampling::Cs420 => part(x, 2) + part(x, 6),
        ChromaSampling::Cs422 => part(x, 3) + part(x, 4) - part(x, 7),
        ChromaSampling::Cs444 => part(x, 4) + part(x, 5) + part(x, 8),
        ChromaSampling::Cs400 => 0,
    }
}

/// The luma with the mean scale, or 0 where that is negative.
fn scaled_luma(luma: i128, mean_scale: i64) -> i128
    requires { IsWithin (2 ^ 64) luma }
    ensures value { result ≡ int_max (pos 0) (luma +ℤ mean_scale) }
    ensures low { pos 0 ≤ℤ result }
    ensures high { result ≤ℤ pos (2 ^ 66) }
{
    let scaled = luma + mean_scale as i128;
    if scaled < 0 { 0 } else { scaled }
}

fn moved(luma: i128, offset: i64, drop: i128) -> i128
    requires luma { IsWithin (2 ^ 64) luma }
    requires drop { IsWithin (2 ^ 68) drop }
    ensures value { result ≡ luma +ℤ offset -ℤ drop }
    ensures within { IsWithin (2 ^ 69) result }
{
    luma + offset as i128 - drop
}

/// The quantisers' logarithms of the planes u and v.
pub fn chroma_planes(chroma: ChromaSampling, luma: i128, mean_scale: i64) -> (i128, i128)
    requires { IsWithin (2 ^ 64) luma }
    ensures u { result.0 ≡ u_of chroma luma mean_scale }
    ensures v { result.1 ≡ v_of chroma luma mean_scale }
    ensures u_within { IsWithin (2 ^ 69) result.0 }
    ensures v_within { IsWithin (2 ^ 69) result.1 }
{
    let drop = chroma_drop(chroma, scaled_luma(luma, mean_scale));
    (
        moved(luma, 0x19D_5D9F_D501_0B37, drop),
        moved(luma, 0xA4_D3C2_5E68_DC58, drop),
    )
}
