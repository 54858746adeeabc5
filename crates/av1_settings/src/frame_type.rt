ghost use Rattle.std.specs.Prelude.{◌≡◌};
ghost use Rattle.av1_settings.specs.FrameTypes.{has_inter, all_intra};

use std::fmt;

/// The type of a frame (the AV1 specification's frame_type).
#[derive(Clone, Copy, Debug, PartialEq, Eq)]
pub enum FrameType {
    /// Stands by itself, and begins a GOP.
    KEY,
    /// Predicted from other frames.
    INTER,
    /// Stands by itself, and keeps the reference slots.
    INTRA_ONLY,
    /// Predicted, and refreshes every slot.
    SWITCH,
}

impl FrameType {
    /// Whether blocks may be predicted from other frames: in an inter frame and in a switching frame.
    pub fn has_inter(self) -> bool
        ensures { result ≡ has_inter self }
    {
        matches!(self, FrameType::INTER | FrameType::SWITCH)
    }

    /// Whether every block is predicted from its own frame: in a key frame and in an intra only frame.
    pub fn all_intra(self) -> bool
        ensures { result ≡ all_intra self }
    {
        matches!(self, FrameType::KEY | FrameType::INTRA_ONLY)
    }
}

impl fmt::Display for FrameType {
    ghost use Rattle.std.specs.Prelude.{Some};
    ghost use Rattle.av1_settings.specs.Texts.{frame_type_text};

    ghost output = { λ frame_type. Some (frame_type_text frame_type) };

    fn fmt<W: fmt::Write>(&self, f: &mut fmt::Formatter<W>) -> fmt::Result {
        match self {
            FrameType::KEY => f.write_str("Key frame"),
            FrameType::INTER => f.write_str("Inter frame"),
            FrameType::INTRA_ONLY => f.write_str("Intra only frame"),
            FrameType::SWITCH => f.write_str("Switching frame"),
        }
    }
}
