ghost use Rattle.std.specs.Prelude.{◌≡◌, ◌++◌, OnOk, string_bytes};
ghost use Rattle.session_text.specs.CommandLines.{command_line, code_line, kind_word, shown_word, slots_text};

use av1_settings::FrameType;
use coding_base::OutOfMemory;
use pyramid::{Command, Refs};

/// Puts the line of a command at the end of a text: `code F KIND refs R refresh N shown`, or `hidden`, or `show S`.
#[tactic(auto, unfolding(crate::specs::CommandLines::command_line))]
pub fn write_command(text: &mut String, command: &Command) -> Result<(), OutOfMemory>
    ensures { OnOk result
        (string_bytes text.new ≡ string_bytes text.old ++ command_line command.now) }
{
    match *command {
        Command::Code {
            frame,
            kind,
            refs,
            refresh,
            shown,
        } => write_code(
            text,
            frame,
            kind_word(kind),
            &refs,
            refresh,
            shown_word(shown),
        ),
        Command::Show { slot } => {
            writeln!(text, "show {slot}")?;
            Ok(())
        }
    }
}

fn write_code(
    text: &mut String,
    frame: u64,
    kind: &str,
    refs: &Refs,
    refresh: u8,
    shown: &str,
) -> Result<(), OutOfMemory>
    ensures { OnOk result (string_bytes text.new
        ≡ string_bytes text.old ++ code_line frame kind.now refs.now refresh shown.now) }
{
    write!(text, "code {frame} {kind} refs ")?;
    write_slots(text, refs)?;
    writeln!(text, " refresh {refresh} {shown}")?;
    Ok(())
}

fn kind_word(kind: FrameType) -> &'static str
    ensures { result.now ≡ kind_word kind }
{
    match kind {
        FrameType::KEY => "key",
        FrameType::INTER => "inter",
        FrameType::INTRA_ONLY => "intra",
        FrameType::SWITCH => "switch",
    }
}

fn shown_word(shown: bool) -> &'static str
    ensures { result.now ≡ shown_word shown }
{
    if shown { "shown" } else { "hidden" }
}

fn write_slots(text: &mut String, refs: &Refs) -> Result<(), OutOfMemory>
    ensures { OnOk result (string_bytes text.new ≡ string_bytes text.old ++ slots_text refs.now) }
{
    if refs.len() == 0 {
        text.push_str("-")?;
        return Ok(());
    }
    let first = refs.get(0);
    write!(text, "{first}")?;
    for i in 1..refs.len() {
        let slot = refs.get(i);
        write!(text, " {slot}")?;
    }
    Ok(())
}
