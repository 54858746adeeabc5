ghost use Rattle.std.specs.Prelude.{OnOk};
ghost use Rattle.std.specs.Io.KnownBytes.{Appends};
ghost use Rattle.coding_base.specs.Faults.{HasCause};
ghost use Rattle.byte_streams.specs.Streams.{GrowsByPart, failed};

use crate::sink::Sink;
use crate::source::Failed;

/// Puts a text into a sink, piece by piece as the sink takes it.
pub fn write_all<W: Sink>(sink: &mut W, text: &[u8]) -> Result<(), Failed>
    ensures whole { OnOk result (Appends (W.held sink.old) (W.held sink.new) text.now) }
    ensures part { GrowsByPart (W.held sink.old) (W.held sink.new) text.now }
    ensures cause { HasCause failed (W.faults sink.old) (W.faults sink.new) result }
{
    let mut written = 0;
    while written < text.len() {
        let Ok(count) = sink.write(&text[written..]) else {
            return Err(Failed);
        };
        written += count;
    }
    Ok(())
}
