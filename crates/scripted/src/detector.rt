ghost use Rattle.std.specs.Prelude.{◌≡◌, [], ◌∷◌, ◌++◌, ◌-◌, map, IfOk, OnOk, OnErr, Some};
ghost use Rattle.session_core.specs.Told.{GrowsBy, told_ask};
ghost use Rattle.scripted.specs.DetectorLog.{asked_first, detector_told, questions_of, told_question};

use av1_frame::Frame;
use av1_settings::SceneDetectionSpeed;
use coding_base::{OutOfMemory, Sequence};
use session_core::Detector;
use std::alloc::Global;
use std::sync::Arc;

/// A question that the program's detector answered.
#[derive(Drop)]
pub struct Question {
    /// How closely it was to look.
    pub mode: SceneDetectionSpeed,
    /// The input number of the frame in question.
    pub position: u64,
    /// The input number of the last frame before it that was decided to be a key frame.
    pub last_key: u64,
    /// The frames that were handed over.
    pub frames: Sequence<Arc<Frame<u8>>>,
    /// Whether a scene begins there.
    pub answer: bool,
}

/// The program's detector: scenes begin at given positions and nowhere else. It keeps what it was asked.
#[derive(Drop)]
pub struct ScriptedDetector {
    cuts: Sequence<u64>,
    log: Sequence<Question>,
}

impl ScriptedDetector {
    /// A detector that was asked nothing yet. Scenes begin at the frames of these input numbers.
    pub fn new(alloc: Global, cuts: &[u64]) -> Result<ScriptedDetector, OutOfMemory>
        ensures { IfOk result (λ detector. detector_told detector ≡ asked_first cuts.now) }
    {
        Ok(ScriptedDetector {
            cuts: Sequence::from_slice(alloc, cuts)?,
            log: Sequence::new(alloc),
        })
    }

    /// A detector that was asked nothing yet, for which no scene begins anywhere.
    pub fn without_cuts(alloc: Global) -> ScriptedDetector
        ensures { detector_told result ≡ asked_first [] }
    {
        ScriptedDetector {
            cuts: Sequence::new(alloc),
            log: Sequence::new(alloc),
        }
    }

    /// The questions answered so far, in order.
    pub fn questions(&self) -> &[Question]
        ensures { (detector_told self.now).questions ≡ Some (map told_question result.now) }
    {
        self.log.as_slice()
    }

    // Keeps a question with its answer.
    fn keep(&mut self, question: Question) -> Result<bool, OutOfMemory>
        ensures ok { IfOk result (λ answer. answer ≡ question.answer) }
        ensures told { OnOk result (questions_of self.new
            ≡ Some (map told_question self.old.log ++ told_question question ∷ [])) }
        ensures err { OnErr result (questions_of self.new ≡ questions_of self.old) }
        ensures cuts { self.new.cuts ≡ self.old.cuts }
    {
        let answer = question.answer;
        self.log.push(question)?;
        Ok(answer)
    }
}

// The same frames once more.
fn shared(alloc: Global, frames: &[Arc<Frame<u8>>]) -> Result<Sequence<Arc<Frame<u8>>>, OutOfMemory>
    ensures { IfOk result (λ copy. map (λ frame. frame.value) copy
        ≡ map (λ frame. frame.value) frames.now) }
{
    let mut copy = Vec::new(alloc);
    for frame in frames {
        copy.push(Arc::try_clone(frame)?)?;
    }
    Ok(Sequence::from_vec(copy))
}

impl Detector<u8> for ScriptedDetector {
    ghost use Rattle.scripted.specs.DetectorLog.{detector_told};

    ghost told = { detector_told };

    fn ask(
        &mut self,
        alloc: Global,
        mode: SceneDetectionSpeed,
        frames: &[Arc<Frame<u8>>],
        position: u64,
        last_key: u64,
    ) -> Result<bool, OutOfMemory> {
        let answer = self.cuts.as_slice().contains(&position);
        let frames = shared(alloc, frames)?;
        self.keep(Question {
            mode,
            position,
            last_key,
            frames,
            answer,
        })
    }
}
