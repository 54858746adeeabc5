ghost use Rattle.std.specs.Prelude.{◌≡◌, ◌+◌, ◌*◌, ◌<◌};
ghost use Rattle.scripted.specs.ScriptedTables.{scripted_tables, steps_of_eight};

use session_core::QTables;
use std::array;

/// Quantiser tables for programs and tests: of the AC and of the DC coefficients, 8 at index 0 and 8 more at each further one.
pub fn scripted_tables() -> QTables
    ensures { result ≡ scripted_tables }
{
    match QTables::new(steps_of_eight(), steps_of_eight()) {
        Ok(tables) => tables,
        Err(_) => unreachable!(),
    }
}

fn steps_of_eight() -> [u16; 256]
    ensures { result ≡ steps_of_eight }
{
    array::from_fn(step)
}

fn step(index: usize) -> u16
    requires { index < 256 }
    ensures { result ≡ 8 * (index + 1) }
{
    8 * (index as u16 + 1)
}
