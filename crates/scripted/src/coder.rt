ghost use Rattle.std.specs.Prelude.{◌≡◌, ◌+◌, ◌%◌, ◌∷◌, [], ◌≤◌, IfOk, min};
ghost use Rattle.std.specs.List.{reduce};
ghost use Rattle.coding_base.specs.Faults.{Rose};
ghost use Rattle.scripted.specs.ScriptedBytes.{byte_count, counted_from, plain_count, scripted_bytes, set_count};

use crate::numbers::is_number_of;
use av1_frame::Frame;
use av1_settings::{EncoderStats, FrameType, T35List};
use coding_base::{Bytes, OutOfMemory, Sequence};
use pyramid::Command;
use session_core::{CodeJob, CodedFrame, CoderError, FrameCoder, QuantizerParameters, ShownFrame};
use std::alloc::Global;
use std::sync::Arc;

/// A call of the program's coder that gave bytes.
#[derive(Drop)]
pub enum Given {
    /// A frame was coded.
    Coded {
        /// What was coded.
        command: Command,
        /// Whether it was only tried.
        trial: bool,
        /// The quantisers that were handed over.
        quant: QuantizerParameters,
        /// The picture that was handed over.
        picture: Arc<Frame<u8>>,
        /// The metadata that was handed over.
        t35: Arc<T35List>,
        /// The bytes.
        bytes: Bytes,
    },
    /// A slot was shown.
    Shown {
        /// The slot.
        slot: u8,
        /// The number of the frame that it was said to hold.
        frame: u64,
        /// The bytes.
        bytes: Bytes,
    },
}

/// The program's coder: a frame codes to as many bytes as are set for it, else as its type asks for, each byte the frame's
/// number modulo 256. It keeps what it was asked for and gave, and fails from a given call on.
#[derive(Drop)]
pub struct ScriptedCoder {
    /// The number by which the rules speak of the coder's frame 0; its other frames follow.
    pub(crate) first: u64,
    /// Frames, and how many bytes each codes to; the last for a frame counts.
    pub(crate) byte_counts: Sequence<(u64, u64)>,
    /// The number of the first call that fails, from 0; all behind it fail too.
    pub(crate) first_fault: Option<u64>,
    pub(crate) faults: u64,
    pub(crate) log: Sequence<Given>,
}

// The bytes of a key frame, and of any other.
const KEY_BYTES: usize = 100;

const OTHER_BYTES: usize = 20;

// The most bytes of a frame.
const MOST_BYTES: u64 = 4096;

fn plain_count(kind: FrameType) -> usize
    ensures { result ≡ plain_count kind }
{
    match kind {
        FrameType::KEY => KEY_BYTES,
        _ => OTHER_BYTES,
    }
}

// The count that is set for a frame, if one is.
fn set_count(byte_counts: &[(u64, u64)], first: u64, frame: u64) -> Option<u64>
    ensures { result ≡ set_count byte_counts.now (first + frame) }
{
    let (_, count) = byte_counts
        .iter()
        .rev()
        .find(|count| is_number_of(count.0, first, frame))?;
    Some(*count)
}

fn byte_count(byte_counts: &[(u64, u64)], first: u64, frame: u64, kind: FrameType) -> usize
    ensures { result ≡ byte_count byte_counts.now (first + frame) kind }
{
    match set_count(byte_counts, first, frame) {
        Some(count) => count.min(MOST_BYTES).max(1) as usize,
        None => plain_count(kind),
    }
}

// The least of the numbers of calls that fail.
fn first_fault(faults: &[u64]) -> Option<u64>
    ensures { result ≡ reduce min faults.now }
{
    faults.iter().min().copied()
}

// A frame's number modulo 256.
fn byte_of(first: u64, frame: u64) -> u8
    ensures { result ≡ (first + frame) % 256 }
{
    ((first % 256 + frame % 256) % 256) as u8
}

// The bytes of a command: of a frame, its number in every byte; of a show, an open bitstream unit of one byte, the slot.
#[tactic(auto, unfolding(crate::specs::ScriptedBytes::scripted_bytes))]
fn scripted_bytes(
    alloc: Global,
    byte_counts: &[(u64, u64)],
    first: u64,
    command: &Command,
) -> Result<Bytes, OutOfMemory>
    ensures { IfOk result (λ bytes.
        bytes ≡ scripted_bytes byte_counts.now (counted_from first command.now)) }
{
    match *command {
        Command::Code { frame, kind, .. } => {
            let mut bytes = Vec::new(alloc);
            let count = byte_count(byte_counts, first, frame, kind);
            bytes.resize(count, byte_of(first, frame))?;
            Ok(Sequence::from_vec(bytes))
        }
        Command::Show { slot } => Ok(Sequence::from_slice(alloc, &shown_bytes(slot))?),
    }
}

fn shown_bytes(slot: u8) -> [u8; 3]
    ensures { result ≡ 26 ∷ 1 ∷ slot ∷ [] }
{
    [0x1a, 0x01, slot]
}

impl ScriptedCoder {
    ghost use Rattle.std.specs.Prelude.{◌++◌, ◌∷◌, [], IsTrue, None, Some, map, OnOk, OnErr};
    ghost use Rattle.av1_settings.specs.Stats.{no_stats};
    ghost use Rattle.session_core.specs.Told.{GrowsBy, told_code, told_show};
    ghost use Rattle.scripted.specs.CoderLog.{calls_of, coder_told, is_due, told_first, told_first_from, told_of};

    /// A coder that was asked for nothing yet, sets no counts of bytes and never fails.
    pub fn new(alloc: Global) -> ScriptedCoder
        ensures { coder_told result ≡ told_first [] [] }
    {
        ScriptedCoder {
            first: 0,
            byte_counts: Sequence::new(alloc),
            first_fault: None,
            faults: 0,
            log: Sequence::new(alloc),
        }
    }

    /// A coder that was asked for nothing yet. A pair sets how many bytes a frame codes to, of which it has at least 1 and at
    /// most 4096; the last pair for a frame counts. `faults` are numbers of calls that fail, from 0, trials and shows
    /// counted; behind the first of them each call fails.
    pub fn with_rules(
        alloc: Global,
        byte_counts: &[(u64, u64)],
        faults: &[u64],
    ) -> Result<ScriptedCoder, OutOfMemory>
        ensures { IfOk result (λ coder.
            coder_told coder ≡ told_first byte_counts.now faults.now) }
    {
        ScriptedCoder::with_rules_from(alloc, 0, byte_counts, faults)
    }

    /// The same, by rules that speak of the coder's frames by other numbers: of its frame 0 by `first`, and of those that follow
    /// by the numbers that follow. Their bytes are of these numbers too.
    pub fn with_rules_from(
        alloc: Global,
        first: u64,
        byte_counts: &[(u64, u64)],
        faults: &[u64],
    ) -> Result<ScriptedCoder, OutOfMemory>
        ensures { IfOk result (λ coder.
            coder_told coder ≡ told_first_from first byte_counts.now faults.now) }
    {
        Ok(ScriptedCoder {
            first,
            byte_counts: Sequence::from_slice(alloc, byte_counts)?,
            first_fault: first_fault(faults),
            faults: 0,
            log: Sequence::new(alloc),
        })
    }

    /// The calls that gave bytes so far, in order.
    pub fn given(&self) -> &[Given]
        ensures { (coder_told self.now).calls ≡ Some (map told_of result.now) }
    {
        self.log.as_slice()
    }

    // Counts a fault, where this call is to fail.
    fn fails(&mut self) -> bool
        ensures due { result ≡ is_due self.old }
        ensures later { self.old.faults ≤ self.new.faults }
        ensures rose { IsTrue result → Rose self.old.faults self.new.faults }
        ensures same { self.new ≡ record self.old { faults = self.new.faults } }
    {
        match self.first_fault {
            Some(first) if first <= self.log.len() as u64 => {
                self.faults = self.faults.saturating_add(1);
                true
            }
            _ => false,
        }
    }

    // Keeps a call that gave bytes.
    fn keep(&mut self, given: Given) -> Result<(), OutOfMemory>
        ensures ok { OnOk result
            (calls_of self.new ≡ Some (map told_of self.old.log ++ told_of given ∷ [])) }
        ensures err { OnErr result (calls_of self.new ≡ calls_of self.old) }
        ensures same { self.new ≡ record self.old { log = self.new.log } }
    {
        self.log.push(given)?;
        Ok(())
    }

    fn keep_code(&mut self, alloc: Global, job: &CodeJob<u8>) -> Result<CodedFrame<u8>, OutOfMemory>
        ensures told { GrowsBy (calls_of self.old) (calls_of self.new) result
            (told_code job.now) }
        ensures bytes { IfOk result (λ coded. coded.bytes
            ≡ scripted_bytes self.old.byte_counts (counted_from self.old.first job.now.command)) }
        ensures plain { IfOk result (λ coded.
            (coded.rec ≡ None) × (coded.stats ≡ no_stats)) }
        ensures same { self.new ≡ record self.old { log = self.new.log } }
    {
        let byte_counts = self.byte_counts.as_slice();
        let bytes = scripted_bytes(alloc, byte_counts, self.first, &job.command)?;
        let kept = scripted_bytes(alloc, byte_counts, self.first, &job.command)?;
        let picture = Arc::try_clone(&job.picture)?;
        let t35 = Arc::try_clone(&job.t35)?;
        self.keep(Given::Coded {
            command: job.command,
            trial: job.trial,
            quant: job.quant,
            picture,
            t35,
            bytes: kept,
        })?;
        Ok(CodedFrame {
            bytes,
            rec: None,
            stats: EncoderStats::default(),
        })
    }

    fn keep_show(
        &mut self,
        alloc: Global,
        slot: u8,
        frame: u64,
    ) -> Result<ShownFrame<u8>, OutOfMemory>
        ensures told { GrowsBy (calls_of self.old) (calls_of self.new) result
            (told_show slot frame) }
        ensures bytes { IfOk result (λ shown. shown.bytes ≡ 26 ∷ 1 ∷ slot ∷ []) }
        ensures plain { IfOk result (λ shown.
            (shown.rec ≡ None) × (shown.stats ≡ no_stats)) }
        ensures same { self.new ≡ record self.old { log = self.new.log } }
    {
        let kept = Sequence::from_slice(alloc, &shown_bytes(slot))?;
        self.keep(Given::Shown {
            slot,
            frame,
            bytes: kept,
        })?;
        Ok(ShownFrame {
            bytes: shown_bytes(slot),
            rec: None,
            stats: EncoderStats::default(),
        })
    }
}

impl FrameCoder<u8> for ScriptedCoder {
    ghost use Rattle.scripted.specs.CoderLog.{coder_told};

    ghost told = { coder_told };

    #[tactic(auto, unfolding(crate::specs::ScriptedBytes::scripted_bytes))]
    fn code(&mut self, alloc: Global, job: &CodeJob<u8>) -> Result<CodedFrame<u8>, CoderError> {
        if self.fails() {
            return Err(CoderError::Failed);
        }
        match self.keep_code(alloc, job) {
            Ok(coded) => Ok(coded),
            Err(_) => Err(CoderError::OutOfMemory),
        }
    }

    #[tactic(auto, unfolding(crate::specs::ScriptedBytes::scripted_bytes))]
    fn show(&mut self, alloc: Global, slot: u8, frame: u64) -> Result<ShownFrame<u8>, CoderError> {
        if self.fails() {
            return Err(CoderError::Failed);
        }
        match self.keep_show(alloc, slot, frame) {
            Ok(shown) => Ok(shown),
            Err(_) => Err(CoderError::OutOfMemory),
        }
    }

    fn faults(&self) -> u64 {
        self.faults
    }
}
