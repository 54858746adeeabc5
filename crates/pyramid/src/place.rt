ghost use Rattle.std.specs.Prelude.{◌≡◌, ◌+◌, ◌^◌, ◌≤◌, IsTrue, false, if◌then◌else◌};
ghost use Rattle.std.specs.Option.{option_map_or};
ghost use Rattle.pyramid.specs.Building.{is_near};
ghost use Rattle.pyramid.specs.Known.{is_coding};
ghost use Rattle.pyramid.specs.Places.{place_row, key_place, row_place};
ghost use Rattle.pyramid.specs.Positions.{index_of, position_of};
ghost use Rattle.pyramid.specs.Rows.{is_row};

use crate::row_command::{command_of, key_of};
use crate::rows::Row;
use crate::{Command, InterConfig};

/// A row of the place table: what stands at a place of a GOP behind its key.
#[derive(Clone, Copy, Debug, PartialEq, Eq)]
pub struct PlaceRow {
    /// The position in the GOP, in display order (the order hint).
    pub position: u64,
    /// The level in the pyramid, 0 to the depth.
    pub level: u64,
    /// Whether a frame is shown at this place (show_frame, or show_existing_frame).
    pub shown: bool,
    /// Whether the place only shows what a slot holds (show_existing_frame).
    pub show_existing: bool,
}

/// A place of a plan. A GOP has one for its key and one for each row of its groups, also where its length cuts the row.
#[derive(Clone, Copy, Debug, PartialEq, Eq, Drop)]
pub struct Place {
    /// The input of the GOP's key.
    pub start: u64,
    /// The place's number in the GOP: 0 for the key.
    pub number: u64,
    /// What the coder is told to do there; none where the row is cut.
    pub command: Option<Command>,
}

impl InterConfig {
    /// The row of the place table for place `output_frameno_in_gop` of a GOP; place 0 is the key, and has none.
    pub fn place(&self, output_frameno_in_gop: u64) -> PlaceRow
        requires place { 1 ≤ output_frameno_in_gop }
        requires position { position_of self.now output_frameno_in_gop
            (index_of self.now output_frameno_in_gop) ≤ 2 ^ 31 }
        ensures { result ≡ place_row self.now output_frameno_in_gop }
    {
        let index = self.get_idx_in_group_output(output_frameno_in_gop);
        let position = self.get_order_hint(output_frameno_in_gop, index);
        PlaceRow {
            position: u64::from(position),
            level: self.get_level(index),
            shown: self.get_show_frame(index),
            show_existing: self.get_show_existing_frame(index),
        }
    }
}

// The place of a key.
pub(crate) fn key_place(start: u64) -> Place
    requires start { start ≤ 2 ^ 31 }
    ensures value { result ≡ key_place start }
    ensures near { IsTrue (is_near result) }
{
    Place {
        start,
        number: 0,
        command: Some(key_of(start)),
    }
}

// The place of a row of group `number`, in the GOP of `length` inputs from input `start`.
pub(crate) fn row_place(cfg: &InterConfig, start: u64, length: u64, number: u64, row: &Row) -> Place
    requires row { IsTrue (is_row cfg.now.depth row.now) }
    requires number { number ≤ 2 ^ 32 }
    requires end { start + length ≤ 2 ^ 31 }
    ensures value { result ≡ row_place cfg.now start length number row.now }
    ensures near { IsTrue (is_near result) }
{
    Place {
        start,
        number: cfg.group_places() * number + row.index + 1,
        command: row_command(cfg, start, length, number, row),
    }
}

// The command of a row, unless the GOP's length cuts it.
fn row_command(
    cfg: &InterConfig,
    start: u64,
    length: u64,
    number: u64,
    row: &Row,
) -> Option<Command>
    requires row { IsTrue (is_row cfg.now.depth row.now) }
    requires number { number ≤ 2 ^ 32 }
    requires end { start + length ≤ 2 ^ 31 }
    ensures { result ≡ (row_place cfg.now start length number row.now).command }
{
    if cfg.row_position(number, row) < length {
        return Some(command_of(cfg, start, number, row));
    }
    None
}

// How many frames a place codes: one, or none where it is cut or only shows a slot.
pub(crate) fn coding(place: &Place) -> u64
    ensures value { result
        ≡ (if option_map_or is_coding place.now.command false then 1 else 0) }
    ensures few { result ≤ 1 }
{
    match place.command {
        Some(Command::Code { .. }) => 1,
        _ => 0,
    }
}
