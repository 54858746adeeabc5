ghost use Rattle.std.specs.Prelude.{◌≡◌, [], ◌∷◌, ℕ, ◌+◌, ◌-◌, ◌*◌, ◌^◌, ◌≤◌, min, max, pos, ◌+ℤ◌, ◌-ℤ◌, ◌*ℤ◌, ◌≤ℤ◌};
ghost use Rattle.std.specs.Int.{saturate_signed, w64};
ghost use Rattle.fixed_log.specs.Conversion.{q57 as q57_of};
ghost use Rattle.fixed_log.specs.Within.{IsWithin};
ghost use Rattle.quantizers.specs.Nearest.{nearest as nearest_of};
ghost use Rattle.quantizers.specs.Parameters.{table_scale as table_scale_of, quantizer_of, index_near as index_near_of, chroma_index as chroma_index_of, dist_scale as dist_scale_of, lambda_of, luma_index as luma_index_of, parameters_from, parameters as parameters_of};

use crate::chroma::{chroma_planes, luma};
use crate::settings::{QSettings, table_scale};
use crate::tables::QTables;
use av1_frame::ChromaSampling;
use fixed_log::wide::saturated;
use fixed_log::{bexp64, q57};

/// A quantiser of a frame, as logarithms in Q57.
#[derive(Clone, Copy, Debug, PartialEq, Eq)]
pub struct LogQuantizer {
    /// What the quantisers of all subtypes start from.
    pub base: i64,
    /// What the frame aims at.
    pub target: i64,
}

/// The quantiser parameters of a frame, as rav1e's type of this name.
#[derive(Clone, Copy, Debug, PartialEq, Eq)]
pub struct QuantizerParameters {
    /// The logarithm of the base quantiser, in Q57.
    pub log_base_q: i64,
    /// The logarithm of the quantiser that is aimed at, in Q57.
    pub log_target_q: i64,
    /// The DC indices of the planes y, u and v.
    pub dc_qi: [u8; 3],
    /// The AC indices of the planes y, u and v.
    pub ac_qi: [u8; 3],
    /// The base that a search gave, in Q57, before it was bounded.
    pub searched_q: Option<i64>,
    /// The logarithm of the rate-distortion factor, in Q57.
    pub lambda_q57: i64,
    /// What the distortion of the planes y, u and v is scaled by, in Q16.
    pub dist_scale_q16: [i64; 3],
}

/// A quantiser's logarithm with the mean scale and the table's.
fn scaled_log(bit_depth: u8, mean_scale: i64, log: i128) -> i128
    requires least { 8 ≤ bit_depth }
    requires most { bit_depth ≤ 12 }
    requires within { IsWithin (2 ^ 69) log }
    ensures { result ≡ log +ℤ mean_scale +ℤ table_scale_of bit_depth }
{
    log + mean_scale as i128 + table_scale(bit_depth) as i128
}

/// The table value of a quantiser's logarithm.
fn quantizer(bit_depth: u8, mean_scale: i64, log: i128) -> i64
    requires least { 8 ≤ bit_depth }
    requires most { bit_depth ≤ 12 }
    requires within { IsWithin (2 ^ 69) log }
    ensures { result ≡ quantizer_of bit_depth mean_scale log }
{
    bexp64(saturated(scaled_log(bit_depth, mean_scale, log)))
}

/// The index that is nearest to `i` within 63 of the centre, from 1 to 255.
fn index_near(centre: u8, i: u8) -> u8
    requires { 1 ≤ centre }
    ensures { result ≡ index_near_of centre i }
{
    let least = centre.saturating_sub(63).max(1);
    let most = centre.saturating_add(63);
    i.max(least).min(most)
}

fn chroma_index(chroma: ChromaSampling, centre: u8, i: u8) -> u8
    requires { 1 ≤ centre }
    ensures { result ≡ chroma_index_of chroma centre i }
{
    match chroma {
        ChromaSampling::Cs400 => 0,
        ChromaSampling::Cs420 | ChromaSampling::Cs422 | ChromaSampling::Cs444 => {
            index_near(centre, i)
        }
    }
}

/// The logarithm of the squared ratio of the target to a plane's quantiser, plus 16.
fn dist_scale_log(target: i64, log: i128) -> i128
    requires { IsWithin (2 ^ 69) log }
    ensures { result ≡ pos 2 *ℤ (target -ℤ log) +ℤ q57_of (pos 16) }
{
    2 * (target as i128 - log) + q57(16) as i128
}

fn dist_scale(target: i64, log: i128) -> i64
    requires { IsWithin (2 ^ 69) log }
    ensures { result ≡ dist_scale_of target log }
{
    bexp64(saturated(dist_scale_log(target, log)))
}

fn twice_sum(a: i64, b: i64) -> i128
    ensures { result ≡ pos 2 *ℤ (a +ℤ b) }
{
    2 * (a as i128 + b as i128)
}

fn lambda(target: i64, mean_scale: i64) -> i64
    ensures { result ≡ lambda_of target mean_scale }
{
    saturated(twice_sum(target, mean_scale))
}

fn luma_index(tables: &QTables, q: i64) -> u8
    ensures value { result ≡ luma_index_of tables.now q }
    ensures positive { 1 ≤ result }
{
    tables.nearest_ac(q).max(1)
}

/// The AC indices of the planes y, u and v.
fn ac_indices(tables: &QTables, chroma: ChromaSampling, centre: u8, q_u: i64, q_v: i64) -> [u8; 3]
    requires { 1 ≤ centre }
    ensures { result ≡ centre ∷ chroma_index_of chroma centre (nearest_of tables.now.ac q_u)
        ∷ chroma_index_of chroma centre (nearest_of tables.now.ac q_v) ∷ [] }
{
    [
        centre,
        chroma_index(chroma, centre, tables.nearest_ac(q_u)),
        chroma_index(chroma, centre, tables.nearest_ac(q_v)),
    ]
}

/// The DC indices of the planes y, u and v.
fn dc_indices(
    tables: &QTables,
    chroma: ChromaSampling,
    centre: u8,
    q_y: i64,
    q_u: i64,
    q_v: i64,
) -> [u8; 3]
    requires { 1 ≤ centre }
    ensures { result ≡ index_near_of centre (nearest_of tables.now.dc q_y)
        ∷ chroma_index_of chroma centre (nearest_of tables.now.dc q_u)
        ∷ chroma_index_of chroma centre (nearest_of tables.now.dc q_v) ∷ [] }
{
    [
        index_near(centre, tables.nearest_dc(q_y)),
        chroma_index(chroma, centre, tables.nearest_dc(q_u)),
        chroma_index(chroma, centre, tables.nearest_dc(q_v)),
    ]
}

fn dist_scales(target: i64, y: i128, u: i128, v: i128) -> [i64; 3]
    requires y { IsWithin (2 ^ 69) y }
    requires u { IsWithin (2 ^ 69) u }
    requires v { IsWithin (2 ^ 69) v }
    ensures { result
        ≡ dist_scale_of target y ∷ dist_scale_of target u ∷ dist_scale_of target v ∷ [] }
{
    [
        dist_scale(target, y),
        dist_scale(target, u),
        dist_scale(target, v),
    ]
}

impl QuantizerParameters {
    /// The parameters of a frame with this quantiser, by rav1e's `new_from_log_q`.
    ///
    /// `mean_scale` is the logarithm of the frame's mean distortion scale, in Q57.
    #[tactic(auto, unfolding(crate::specs::Parameters::parameters))]
    pub fn new_from_log_q(
        tables: &QTables,
        settings: &QSettings,
        log_q: LogQuantizer,
        mean_scale: i64,
        is_intra: bool,
        searched_q: Option<i64>,
    ) -> QuantizerParameters
        requires depth_least { 8 ≤ settings.now.bit_depth }
        requires depth_most { settings.now.bit_depth ≤ 12 }
        ensures { result
            ≡ parameters_of tables.now settings.now log_q mean_scale is_intra searched_q }
    {
        let y = luma(settings.chroma, settings.bit_depth, is_intra, log_q.target);
        let (u, v) = chroma_planes(settings.chroma, y, mean_scale);
        from_planes(tables, settings, log_q, mean_scale, searched_q, y, u, v)
    }
}

/// The parameters of a frame, from the quantisers' logarithms of its planes.
fn from_planes(
    tables: &QTables,
    settings: &QSettings,
    log_q: LogQuantizer,
    mean_scale: i64,
    searched_q: Option<i64>,
    y: i128,
    u: i128,
    v: i128,
) -> QuantizerParameters
    requires depth_least { 8 ≤ settings.now.bit_depth }
    requires depth_most { settings.now.bit_depth ≤ 12 }
    requires y { IsWithin (2 ^ 69) y }
    requires u { IsWithin (2 ^ 69) u }
    requires v { IsWithin (2 ^ 69) v }
    ensures { result ≡ parameters_from tables.now settings.now log_q mean_scale searched_q y u v }
{
    let q_y = quantizer(settings.bit_depth, mean_scale, y);
    let q_u = quantizer(settings.bit_depth, mean_scale, u);
    let q_v = quantizer(settings.bit_depth, mean_scale, v);
    let centre = luma_index(tables, q_y);
    QuantizerParameters {
        log_base_q: log_q.base,
        log_target_q: log_q.target,
        dc_qi: dc_indices(tables, settings.chroma, centre, q_y, q_u, q_v),
        ac_qi: ac_indices(tables, settings.chroma, centre, q_u, q_v),
        searched_q,
        lambda_q57: lambda(log_q.target, mean_scale),
        dist_scale_q16: dist_scales(log_q.target, y, u, v),
    }
}
