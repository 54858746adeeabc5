ghost use Rattle.std.specs.Prelude.{◌≡◌, ℕ, ◌+◌, ◌-◌, ◌<◌, ◌≤◌, Option, Some, None, MatchResult, nat_lt, nat_le, ◌==◌, ◌&&◌, ◌||◌, not, slice_index, length};
ghost use Rattle.quantizers.specs.Tables.{Tables, is_bad, is_bad_place, first_bad};
ghost use Rattle.quantizers.specs.Nearest.{nearest as nearest_of};

use crate::nearest::nearest;
use std::marker::Model;
use thiserror::Error;

/// A table has a value that it may not have. Place `i` below 256 is AC value `i`, and place `256 + i` DC value `i`.
#[derive(Clone, Copy, Debug, PartialEq, Eq, Error)]
#[error("bad table value at place {place}")]
pub struct BadTable {
    /// The first such place.
    pub place: u16,
}

/// The quantisers of the AC and of the DC coefficients, by index 0 to 255 (the AV1 specification's Ac_Qlookup and
/// Dc_Qlookup at a bit depth).
///
/// AC values are at least 1 and strictly increase. DC values are at least 1 and never fall.
#[derive(Clone, Copy, Debug)]
pub struct QTables {
    ac: [u16; 256],
    dc: [u16; 256],
}

impl Model for QTables {
    ghost use Rattle.std.specs.Prelude.{◌≡◌, None};
    ghost use Rattle.quantizers.specs.Tables.{Tables, first_bad};

    ghost Value = { Tables };

    ghost view = { λ t. record { ac = t.ac; dc = t.dc } };

    ghost inverse = { λ tables. record { ac = tables.ac; dc = tables.dc } };

    ghost invariant = { λ t. first_bad t.ac t.dc ≡ None };
}

/// Whether AC value `i` is 0 or doesn't rise above the one before.
fn is_bad_ac(ac: &[u16; 256], i: usize) -> bool
    requires { i < 256 }
    ensures { result ≡ is_bad nat_lt ac.now i }
{
    ac[i] == 0 || (0 < i && !(ac[i - 1] < ac[i]))
}

/// Whether DC value `i` is 0 or falls below the one before.
fn is_bad_dc(dc: &[u16; 256], i: usize) -> bool
    requires { i < 256 }
    ensures { result ≡ is_bad nat_le dc.now i }
{
    dc[i] == 0 || (0 < i && !(dc[i - 1] <= dc[i]))
}

/// Whether the value at a place may not stand there.
fn is_bad_value(ac: &[u16; 256], dc: &[u16; 256], place: u16) -> bool
    requires { place < 512 }
    ensures { result ≡ is_bad_place ac.now dc.now place }
{
    if place < 256 {
        is_bad_ac(ac, place as usize)
    } else {
        is_bad_dc(dc, place as usize - 256)
    }
}

fn first_bad_value(ac: &[u16; 256], dc: &[u16; 256]) -> Option<u16>
    ensures { result ≡ first_bad ac.now dc.now }
{
    (0..512u16).find(|place| is_bad_value(ac, dc, *place))
}

impl QTables {
    /// The tables with these values, or the first place with a value that may not stand there: AC before DC.
    pub fn new(ac: [u16; 256], dc: [u16; 256]) -> Result<QTables, BadTable>
        ensures { MatchResult result
            (λ tables. (first_bad ac dc ≡ None) × (tables ≡ record { ac = ac; dc = dc }))
            (λ e. first_bad ac dc ≡ Some e.place) }
    {
        match first_bad_value(&ac, &dc) {
            Some(place) => Err(BadTable { place }),
            None => Ok(QTables { ac, dc }),
        }
    }

    /// The AC value of an index.
    pub fn ac(&self, i: u8) -> u16
        ensures value { result ≡ slice_index self.now.ac i }
        ensures positive { 1 ≤ result }
    {
        self.ac[i as usize]
    }

    /// The DC value of an index.
    pub fn dc(&self, i: u8) -> u16
        ensures value { result ≡ slice_index self.now.dc i }
        ensures positive { 1 ≤ result }
    {
        self.dc[i as usize]
    }

    /// The index of the AC value that is nearest to `q`, by ratio: 0 below the first value and 255 above the last.
    pub fn nearest_ac(&self, q: i64) -> u8
        ensures { result ≡ nearest_of self.now.ac q }
    {
        nearest(&self.ac, q)
    }

    /// The index of the DC value that is nearest to `q`, by ratio: 0 below the first value and 255 above the last. Of
    /// indices with the value `q` it is the least.
    pub fn nearest_dc(&self, q: i64) -> u8
        ensures { result ≡ nearest_of self.now.dc q }
    {
        nearest(&self.dc, q)
    }
}
