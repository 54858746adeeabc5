ghost use Rattle.std.specs.Prelude.{◌≡◌};
ghost use Rattle.script_lines.specs.Dialects.{ends_with_flush, has_line, is_of_gops};

use crate::line::{Action, Line};
use crate::setting::Setting;

/// Which lines a script may have, by what is done with it. Comments, empty lines, settings, answers and prints stand in each, but
/// for the one setting named.
#[derive(Clone, Copy)]
pub enum Dialect {
    /// The calls of a session that is given no pass data.
    Run,
    /// The calls of a session in a second pass: pass data is given besides.
    SecondPass,
    /// Plain frames and one flush behind them, which may not be missing. No picture is still.
    Gops,
}

impl Dialect {
    /// Whether such a line may stand in a script.
    pub(crate) fn has(self, line: &Line) -> bool
        ensures { result ≡ has_line self line.now }
    {
        match self {
            Dialect::Run => !matches!(line, Line::Gives(_)),
            Dialect::SecondPass => true,
            Dialect::Gops => is_of_gops(line),
        }
    }

    /// Whether the calls of a script end with a flush, and have none before.
    pub(crate) fn ends_with_flush(self) -> bool
        ensures { result ≡ ends_with_flush self }
    {
        matches!(self, Dialect::Gops)
    }
}

fn is_of_gops(line: &Line) -> bool
    ensures { result ≡ is_of_gops line.now }
{
    match line {
        Line::Set(setting) => !matches!(setting, Setting::StillPicture),
        Line::Calls { action, count } => match action {
            Action::Send => true,
            Action::Flush => *count == 1,
            _ => false,
        },
        Line::Gives(_) => false,
        Line::Blank | Line::Answers(_) | Line::Prints(_) | Line::Summary(_) => true,
    }
}
