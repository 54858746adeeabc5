ghost use Rattle.std.specs.Prelude.{◌≡◌, ◌++◌, IfOk, OnOk, string_bytes};
ghost use Rattle.session_text.specs.PacketLines.{packet_line, packet_lines};

use coding_base::OutOfMemory;
use session_core::Packet;
use std::alloc::Global;

/// Packets, each as a line: `Frame P - TYPE - N bytes`.
pub fn packets_text<T, O>(alloc: Global, packets: &[Packet<T, O>]) -> Result<String, OutOfMemory>
    ensures { IfOk result (λ text. string_bytes text ≡ packet_lines packets.now) }
{
    let mut text = String::new(alloc);
    for packet in packets {
        write_packet(&mut text, packet)?;
    }
    Ok(text)
}

#[tactic(auto, unfolding(crate::specs::PacketLines::packet_line))]
fn write_packet<T, O>(text: &mut String, packet: &Packet<T, O>) -> Result<(), OutOfMemory>
    ensures { OnOk result
        (string_bytes text.new ≡ string_bytes text.old ++ packet_line packet.now) }
{
    writeln!(text, "{packet}")?;
    Ok(())
}
