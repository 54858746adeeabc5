//! The command of a row of a group.

ghost use Rattle.std.specs.Prelude.{◌≡◌, ◌+◌, ◌*◌, ◌^◌, ◌≤◌, ◌<◌, IsTrue};
ghost use Rattle.pyramid.specs.Positions.{row_position};
ghost use Rattle.pyramid.specs.RowCommand.{kind_of, refresh_of, command_of, code_of, key_of};
ghost use Rattle.pyramid.specs.Rows.{is_row};

use crate::rows::Row;
use crate::{Command, InterConfig, Refs};
use av1_settings::FrameType;

// The command of a key: it names no slot, refreshes every one, and is shown.
pub(crate) fn key_of(start: u64) -> Command
    ensures { result ≡ key_of start }
{
    Command::Code {
        frame: start,
        kind: FrameType::KEY,
        refs: Refs::none(),
        refresh: 255,
        shown: true,
    }
}

// The command of a row of group `number`, in the GOP whose key is input `start`.
pub(crate) fn command_of(cfg: &InterConfig, start: u64, number: u64, row: &Row) -> Command
    requires row { IsTrue (is_row cfg.now.depth row.now) }
    requires number { number ≤ 2 ^ 32 }
    requires position { start + row_position cfg.now number row.now ≤ 2 ^ 31 }
    ensures { result ≡ command_of cfg.now start number row.now }
{
    if row.existing {
        return Command::Show {
            slot: cfg.slot_of(cfg.row_position(number, row)),
        };
    }
    code_of(cfg, start, number, row)
}

// The command that codes the frame of a row.
fn code_of(cfg: &InterConfig, start: u64, number: u64, row: &Row) -> Command
    requires row { IsTrue (is_row cfg.now.depth row.now) }
    requires number { number ≤ 2 ^ 32 }
    requires position { start + row_position cfg.now number row.now ≤ 2 ^ 31 }
    ensures { result ≡ code_of cfg.now start number row.now }
{
    let position = cfg.row_position(number, row);
    let kind = kind_of(cfg, row.level, cfg.group_places() * number + row.index + 1);
    Command::Code {
        frame: start + position,
        kind,
        refs: cfg.refs_of(row.level, position),
        refresh: refresh_of(kind, cfg.slot(row.level, position)),
        shown: row.shown,
    }
}

// Whether a frame of this level at this place of a GOP is a switch frame.
fn kind_of(cfg: &InterConfig, level: u64, place: u64) -> FrameType
    ensures { result ≡ kind_of cfg.now level place }
{
    if cfg.switch_interval > 0 && level == 0 && place % cfg.switch_interval == 0 {
        return FrameType::SWITCH;
    }
    FrameType::INTER
}

// The slots that a frame of this type refreshes, where its own is `slot`.
fn refresh_of(kind: FrameType, slot: u8) -> u8
    requires { slot < 8 }
    ensures { result ≡ refresh_of kind slot }
{
    match kind {
        FrameType::SWITCH => 255,
        _ => 1 << slot,
    }
}
