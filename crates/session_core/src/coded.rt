// What the coder gave for a command.
ghost use Rattle.std.specs.Prelude.{◌≡◌, IsSome, Some};
ghost use Rattle.std.specs.Option.{option_map};
ghost use Rattle.session_core.specs.States.{coding_value, waiting_of};
ghost use Rattle.session_core.specs.Turns.{coding_of, luma_index, shown_coding};

use crate::waiting::{Coding, WaitingFrame};
use av1_frame::Frame;
use av1_settings::{EncoderStats, FrameType};
use pyramid::Command;
use session_log::{LogEntry, QuantizerParameters};
use std::sync::Arc;

/// What the coder gave for a command.
#[derive(Drop)]
pub(crate) struct Coded<T> {
    pub(crate) entry: LogEntry,
    /// The coder's own picture of the frame.
    pub(crate) rec: Option<Arc<Frame<T>>>,
    /// Its counts.
    pub(crate) stats: EncoderStats,
}

impl<T> Coded<T> {
    /// How the frame was coded that it shows, which waits.
    pub(crate) fn shown_coding<O>(&self, waiting: &WaitingFrame<T, O>) -> Coding
        ensures { IsSome (shown_coding self.now.entry (waiting_of waiting.now))
            → Some (coding_value result)
            ≡ shown_coding self.now.entry (waiting_of waiting.now) }
    {
        const UNCODED: Coding = Coding {
            kind: FrameType::KEY,
            qp: 0,
        };
        coding_of(&self.entry).or(waiting.coding).unwrap_or(UNCODED)
    }
}

/// How an entry codes its frame, if it does.
pub(crate) fn coding_of(entry: &LogEntry) -> Option<Coding>
    ensures { option_map coding_value result ≡ coding_of entry.now }
{
    match entry.command {
        Command::Code { kind, .. } => Some(Coding {
            kind,
            qp: luma_index(entry.quant),
        }),
        Command::Show { .. } => None,
    }
}

// The AC index of the luma plane; 0 where there are no quantisers.
fn luma_index(quant: Option<QuantizerParameters>) -> u8
    ensures { result ≡ luma_index quant }
{
    match quant {
        Some(quant) => quant.ac_qi[0],
        None => 0,
    }
}
