ghost use Rattle.std.specs.Prelude.{◌≡◌};
ghost use Rattle.scripted.specs.NoLevels.{no_levels};

use av1_settings::{LevelRow, LevelTables};

/// Level tables that define no level.
pub fn no_levels() -> LevelTables
    ensures { result ≡ no_levels }
{
    let none = LevelRow {
        defined: false,
        max_pic_size: 0,
        max_h_size: 0,
        max_v_size: 0,
        max_display_rate: 0,
    };
    LevelTables::new([none; 31])
}
