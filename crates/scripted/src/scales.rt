ghost use Rattle.std.specs.Prelude.{◌≡◌, ◌+◌, [], ◌∷◌, ◌++◌, map, IfOk, OnOk, OnErr, Some};
ghost use Rattle.scripted.specs.ScalesLog.{measured_by, scale_at, scaled_first, scaled_first_from, scales_told, set_scale, told_measured};

use crate::numbers::is_number_of;
use av1_frame::Frame;
use coding_base::{OutOfMemory, Sequence};
use session_core::MeanScale;
use std::alloc::Global;
use std::sync::Arc;

/// A frame whose mean scale the program's mean scales gave.
#[derive(Drop)]
pub struct Measured {
    /// The frame's input number.
    pub number: u64,
    /// The picture that was handed over.
    pub picture: Arc<Frame<u8>>,
    /// The mean scale that was given.
    pub answer: i64,
}

/// The program's mean scales: each frame has the value that is set for its number, else 0. They keep for which frames they
/// were asked.
#[derive(Drop)]
pub struct ScriptedScales {
    // The number by which the values speak of frame 0; the other frames follow.
    first: u64,
    scales: Sequence<(u64, i64)>,
    log: Sequence<Measured>,
}

// The mean scale that is set for a frame, if one is.
fn set_scale(scales: &[(u64, i64)], first: u64, frame: u64) -> Option<i64>
    ensures { result ≡ set_scale scales.now (first + frame) }
{
    let (_, scale) = scales
        .iter()
        .rev()
        .find(|scale| is_number_of(scale.0, first, frame))?;
    Some(*scale)
}

fn scale_at(scales: &[(u64, i64)], first: u64, frame: u64) -> i64
    ensures { result ≡ scale_at scales.now (first + frame) }
{
    set_scale(scales, first, frame).unwrap_or(0)
}

impl ScriptedScales {
    /// Mean scales that were asked for no frame yet. A pair sets the value of a frame, in Q57; the last pair for a frame counts.
    pub fn new(alloc: Global, scales: &[(u64, i64)]) -> Result<ScriptedScales, OutOfMemory>
        ensures { IfOk result (λ made. scales_told made ≡ scaled_first scales.now) }
    {
        ScriptedScales::new_from(alloc, 0, scales)
    }

    /// The same, with values that speak of the frames by other numbers: of frame 0 by `first`, and of those that follow by the
    /// numbers that follow.
    pub fn new_from(
        alloc: Global,
        first: u64,
        scales: &[(u64, i64)],
    ) -> Result<ScriptedScales, OutOfMemory>
        ensures { IfOk result (λ made. scales_told made ≡ scaled_first_from first scales.now) }
    {
        Ok(ScriptedScales {
            first,
            scales: Sequence::from_slice(alloc, scales)?,
            log: Sequence::new(alloc),
        })
    }

    /// Mean scales that were asked for no frame yet, and that are 0 for each.
    pub fn without_values(alloc: Global) -> ScriptedScales
        ensures { scales_told result ≡ scaled_first [] }
    {
        ScriptedScales {
            first: 0,
            scales: Sequence::new(alloc),
            log: Sequence::new(alloc),
        }
    }

    /// The frames whose mean scales were given so far, in order.
    pub fn measured(&self) -> &[Measured]
        ensures { (scales_told self.now).frames ≡ Some (map told_measured result.now) }
    {
        self.log.as_slice()
    }

    // Keeps a frame with its mean scale.
    fn keep(&mut self, measured: Measured) -> Result<i64, OutOfMemory>
        ensures ok { IfOk result (λ answer. answer ≡ measured.answer) }
        ensures told { OnOk result (measured_by self.new
            ≡ Some (map told_measured self.old.log ++ told_measured measured ∷ [])) }
        ensures err { OnErr result (measured_by self.new ≡ measured_by self.old) }
        ensures same { self.new ≡ record self.old { log = self.new.log } }
    {
        let answer = measured.answer;
        self.log.push(measured)?;
        Ok(answer)
    }
}

impl MeanScale<u8> for ScriptedScales {
    ghost use Rattle.scripted.specs.ScalesLog.{scales_told};

    ghost told = { scales_told };

    fn log_isqrt_mean_scale(
        &mut self,
        _alloc: Global,
        number: u64,
        frame: &Arc<Frame<u8>>,
    ) -> Result<i64, OutOfMemory> {
        let answer = scale_at(self.scales.as_slice(), self.first, number);
        let picture = Arc::try_clone(frame)?;
        self.keep(Measured {
            number,
            picture,
            answer,
        })
    }
}
