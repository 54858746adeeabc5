use av1_frame::Frame;
use av1_settings::{EncoderStats, FrameType};
use coding_base::Bytes;
use std::fmt;
use std::sync::Arc;

/// The bytes of one shown frame: a temporal delimiter, and what was coded since the packet before.
#[derive(Drop)]
pub struct Packet<T, O> {
    /// The bytes, for a muxer.
    pub bytes: Bytes,
    /// The frame as a decoder will show it, where the coder gave that with the packet's last command.
    pub rec: Option<Arc<Frame<T>>>,
    /// The frame as it was sent.
    pub source: Option<Arc<Frame<T>>>,
    /// The frame's input number, from 0.
    pub input_frameno: u64,
    /// The frame's type; of a frame that was coded before and is shown now, the type that it was coded with.
    pub frame_type: FrameType,
    /// The frame's AC index of the luma plane, 0 to 255; of a frame that was coded before, the one that it was coded with.
    pub qp: u8,
    /// What the coder chose in the packet's last command.
    pub enc_stats: EncoderStats,
    /// The value that was sent with the frame.
    pub opaque: Option<O>,
}

impl<T, O> fmt::Display for Packet<T, O> {
    ghost use Rattle.std.specs.Prelude.{Some};
    ghost use Rattle.session_core.specs.PacketText.{packet_text};

    ghost output = { λ packet. Some (packet_text packet) };

    fn fmt<W: fmt::Write>(&self, f: &mut fmt::Formatter<W>) -> fmt::Result {
        let number = self.input_frameno;
        let frame_type = self.frame_type;
        let len = self.bytes.len();
        write!(f, "Frame {number} - {frame_type} - {len} bytes")
    }
}

impl<T, O> PartialEq for Packet<T, O> {
    ghost use Rattle.std.specs.Prelude.{◌==◌};
    ghost use Rattle.std.proofs.Common.{rules};
    ghost use Rattle.av1_settings.specs.contracts.frame_type.FrameTypePartialEq.TheImpl.Laws.{laws-law};
    ghost use Rattle.std.specs.Cmp.Lexicographic.{pointwise};
    ghost use Rattle.std.specs.Cmp.Rules.{comparing};
    ghost use Rattle.std.specs.Ordering.{on, eq_of_both};

    // Equal bytes, numbers, types and indices; the frames and opaque values don't count.
    ghost eq = { eq_of_both (on (λ p. p.bytes) (pointwise ◌==◌))
        (eq_of_both (on (λ p. p.input_frameno) ◌==◌)
        (eq_of_both (on (λ p. p.frame_type) ⟦<FrameType as PartialEq>⟧.eq)
        (on (λ p. p.qp) ◌==◌))) };

    ghost laws = { Prim.search (comparing, rules, laws-law) depth 11 };

    fn eq(&self, other: &Packet<T, O>) -> bool {
        self.bytes.as_slice() == other.bytes.as_slice()
            && self.input_frameno == other.input_frameno
            && self.frame_type == other.frame_type
            && self.qp == other.qp
    }
}
