//! A coder, a detector and scales over 16-bit frames, which note what they are asked.
ghost use Rattle.std.specs.Prelude.{None};
ghost use Rattle.coding_base.specs.Faults.{HasCause};
ghost use Rattle.session_core.specs.declared.coder.CoderError.TheVariants.{Failed};

use av1_frame::Frame;
use av1_settings::{EncoderStats, FrameType, SceneDetectionSpeed};
use coding_base::{Bytes, OutOfMemory};
use pyramid::Command;
use session_core::{
    CodeJob, CodedFrame, CoderError, Detector, FrameCoder, MeanScale, ShownFrame, T35List,
};
use std::alloc::Global;
use std::sync::Arc;

/// Codes key frames to 100 bytes and other frames to 20. Its call number `fails` and all behind it fail. It notes the
/// metadata of each frame that it codes.
#[derive(Drop)]
pub struct SizedCoder {
    pub calls: u64,
    pub fails: u64,
    pub faults: u64,
    pub notes: Vec<Arc<T35List>>,
}

impl SizedCoder {
    /// A coder that was asked for nothing yet.
    pub fn new(alloc: Global, fails: u64) -> SizedCoder {
        SizedCoder {
            calls: 0,
            fails,
            faults: 0,
            notes: Vec::new(alloc),
        }
    }

    fn counts(&mut self) -> Result<(), CoderError>
        ensures { HasCause Failed self.old.faults self.new.faults result }
    {
        if self.calls == self.fails {
            self.faults = self.faults.saturating_add(1);
            return Err(CoderError::Failed);
        }
        self.calls = self.calls.saturating_add(1);
        Ok(())
    }
}

impl FrameCoder<u16> for SizedCoder {
    ghost told = { λ coder. record {
      calls = None;
      gives = None;
      fails_after = None;
      faults = coder.faults;
    } };

    fn code(&mut self, alloc: Global, job: &CodeJob<u16>) -> Result<CodedFrame<u16>, CoderError> {
        self.counts()?;
        let list = Arc::try_clone(&job.t35)?;
        if self.notes.push(list).is_err() {
            return Err(CoderError::OutOfMemory);
        }
        let size = match job.command {
            Command::Code {
                kind: FrameType::KEY,
                ..
            } => 100,
            _ => 20,
        };
        let bytes = vec![in alloc; 7u8; size]?;
        Ok(CodedFrame {
            bytes: Bytes::from_vec(bytes),
            rec: None,
            stats: EncoderStats::default(),
        })
    }

    fn show(
        &mut self,
        _alloc: Global,
        slot: u8,
        _frame: u64,
    ) -> Result<ShownFrame<u16>, CoderError> {
        self.counts()?;
        Ok(ShownFrame {
            bytes: [0x1a, 0x01, slot],
            rec: None,
            stats: EncoderStats::default(),
        })
    }

    fn faults(&self) -> u64 {
        self.faults
    }
}

/// Finds scenes at two positions, finds no memory from its question number `fails` on, and notes of each answer in its
/// mode the position, the last key and the number of frames.
#[derive(Drop)]
pub struct NotingDetector {
    pub mode: SceneDetectionSpeed,
    pub cuts: [u64; 2],
    pub fails: usize,
    pub notes: Vec<(u64, u64, usize)>,
}

impl Detector<u16> for NotingDetector {
    ghost told = { λ _. record { questions = None; answers = None } };

    fn ask(
        &mut self,
        _alloc: Global,
        mode: SceneDetectionSpeed,
        frames: &[Arc<Frame<u16>>],
        position: u64,
        last_key: u64,
    ) -> Result<bool, OutOfMemory> {
        if self.notes.len() >= self.fails {
            return Err(OutOfMemory);
        }
        if mode == self.mode {
            self.notes.push((position, last_key, frames.len()))?;
        }
        Ok(position == self.cuts[0] || position == self.cuts[1])
    }
}

/// Gives a scale that is far too large, and notes the numbers of the frames.
#[derive(Drop)]
pub struct LargeScales {
    pub numbers: Vec<u64>,
}

impl MeanScale<u16> for LargeScales {
    ghost told = { λ _. record { frames = None; answers = None } };

    fn log_isqrt_mean_scale(
        &mut self,
        _alloc: Global,
        number: u64,
        _frame: &Arc<Frame<u16>>,
    ) -> Result<i64, OutOfMemory> {
        self.numbers.push(number)?;
        Ok(i64::MAX)
    }
}
