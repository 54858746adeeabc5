ghost use Rattle.std.specs.Prelude.{◌≡◌};
ghost use Rattle.pyramid.specs.Subtypes.{subtype_of};

use crate::Refs;
use av1_settings::FrameType;

/// What a coder is told to do.
#[derive(Clone, Copy, Debug, PartialEq, Eq)]
pub enum Command {
    /// Code a frame (the AV1 specification's frame header with show_existing_frame 0).
    Code {
        /// The frame's input number, from 0.
        frame: u64,
        /// Its type.
        kind: FrameType,
        /// The slots that it is predicted from.
        refs: Refs,
        /// One bit for each slot that holds the frame afterwards (refresh_frame_flags).
        refresh: u8,
        /// Whether it is shown as it is coded (show_frame).
        shown: bool,
    },
    /// Show what a slot holds (show_existing_frame 1).
    Show {
        /// The slot, 0 to 7.
        slot: u8,
    },
}

impl Command {
    /// What rate control keeps apart (rav1e's frame subtypes): 0 for a key frame, for any other coded frame 1 more than its
    /// pyramid level, and 4 for the show of a slot. The level is that of the slot which the frame refreshes.
    pub fn subtype(&self) -> usize
        ensures { result ≡ subtype_of self.now }
    {
        match self {
            Command::Show { .. } => 4,
            Command::Code {
                kind: FrameType::KEY,
                ..
            } => 0,
            Command::Code { refresh: 16, .. } => 2,
            Command::Code { refresh: 32, .. } => 3,
            Command::Code { .. } => 1,
        }
    }
}
