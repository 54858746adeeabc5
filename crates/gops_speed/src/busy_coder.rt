ghost use Rattle.std.specs.Prelude.{None, Some, pos};

use av1_settings::{EncoderStats, FrameType};
use coding_base::{Bytes, OutOfMemory};
use gop_board::MakeSession;
use pyramid::Command;
use session_core::{CodeJob, CodedFrame, CoderError, FrameCoder, NoScale, ShownFrame};
use std::alloc::Global;

/// Works so many rounds for each frame, and gives it bytes that follow from them.
#[derive(Clone, Copy, Drop)]
pub(crate) struct BusyCoder {
    rounds: u64,
}

/// Makes such coders.
#[derive(Clone, Copy)]
pub(crate) struct BusyMaker {
    /// The rounds for each frame.
    pub(crate) rounds: u64,
}

/// What so many rounds of mixing make of a number.
fn mixed(number: u64, rounds: u64) -> u64 {
    let mut state = number;
    for _ in 0..rounds {
        state = (state ^ (state >> 7)).wrapping_mul(0x9e37_79b9_7f4a_7c15);
        state = state.wrapping_add(1);
    }
    state
}

impl FrameCoder<u8> for BusyCoder {
    ghost told = { λ _. record { calls = None; gives = None; fails_after = None; faults = 0 } };

    fn code(&mut self, alloc: Global, job: &CodeJob<u8>) -> Result<CodedFrame<u8>, CoderError> {
        let (number, size) = match job.command {
            Command::Code {
                frame,
                kind: FrameType::KEY,
                ..
            } => (frame, 100),
            Command::Code { frame, .. } => (frame, 20),
            Command::Show { .. } => (0, 3),
        };
        let byte = (mixed(number, self.rounds) % 256) as u8;
        let bytes = vec![in alloc; byte; size]?;
        Ok(CodedFrame {
            bytes: Bytes::from_vec(bytes),
            rec: None,
            stats: EncoderStats::default(),
        })
    }

    fn show(
        &mut self,
        _alloc: Global,
        slot: u8,
        _frame: u64,
    ) -> Result<ShownFrame<u8>, CoderError> {
        Ok(ShownFrame {
            bytes: [0x1a, 0x01, slot],
            rec: None,
            stats: EncoderStats::default(),
        })
    }

    fn faults(&self) -> u64 {
        0
    }
}

impl MakeSession<u8> for BusyMaker {
    ghost told = { λ _ _ _. record { gives = None; fails_after = None; answers = Some (λ _. pos 0) } };

    type Scales = NoScale;

    type Coder = BusyCoder;

    fn make(
        &self,
        _alloc: Global,
        _job: u64,
        _first: u64,
    ) -> Result<(NoScale, BusyCoder), OutOfMemory> {
        let coder = BusyCoder {
            rounds: self.rounds,
        };
        Ok((NoScale, coder))
    }
}
