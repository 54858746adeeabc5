ghost use Rattle.std.specs.Prelude.{None};

use av1_settings::{EncoderStats, FrameType};
use coding_base::Bytes;
use pyramid::Command;
use session_core::{CodeJob, CodedFrame, CoderError, FrameCoder, ShownFrame};
use std::alloc::Global;

/// Gives as many bytes as the program's coder, and keeps nothing of it.
#[derive(Clone, Copy, Drop)]
pub(crate) struct PlainCoder;

impl FrameCoder<u8> for PlainCoder {
    ghost told = { λ _. record { calls = None; gives = None; fails_after = None; faults = 0 } };

    fn code(&mut self, alloc: Global, job: &CodeJob<u8>) -> Result<CodedFrame<u8>, CoderError> {
        let size = match job.command {
            Command::Code {
                kind: FrameType::KEY,
                ..
            } => 100,
            _ => 20,
        };
        let bytes = vec![in alloc; 7u8; size]?;
        Ok(CodedFrame {
            bytes: Bytes::from_vec(bytes),
            rec: None,
            stats: EncoderStats::default(),
        })
    }

    fn show(
        &mut self,
        _alloc: Global,
        slot: u8,
        _frame: u64,
    ) -> Result<ShownFrame<u8>, CoderError> {
        Ok(ShownFrame {
            bytes: [0x1a, 0x01, slot],
            rec: None,
            stats: EncoderStats::default(),
        })
    }

    fn faults(&self) -> u64 {
        0
    }
}
