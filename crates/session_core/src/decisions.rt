// How the key frames are decided.
ghost use Rattle.std.specs.Prelude.{◌≡◌, ◌≤◌, ◌<◌, ◌-◌, ◌+◌, [], ◌∷◌, IfOk, IsTrue, OnOk, length, map};
ghost use Rattle.session_core.specs.Questions.{AreAnswered, frames_from, question};
ghost use Rattle.session_core.specs.States.{moment_of, AreInOrder, Decided, KeepsLastKey};
ghost use Rattle.session_core.specs.Told.{Grew, IsDetectorLater};
ghost use Rattle.session_core.specs.Turns.{forced_at, frame_limit};

use crate::state::SessionState;
use crate::{Decision, Detector};
use av1_frame::Frame;
use av1_settings::SceneDetectionSpeed;
use coding_base::OutOfMemory;
use std::alloc::Global;
use std::sync::Arc;

impl<T: Drop, O: Drop> SessionState<T, O> {
    /// Decides the positions up to `last` that aren't decided yet, in order.
    pub(crate) fn decide<D: Detector<T>>(
        &mut self,
        alloc: Global,
        mode: SceneDetectionSpeed,
        detector: &mut D,
        last: u64,
    ) -> Result<(), OutOfMemory>
        requires few { self.old.accepted ≤ frame_limit }
        requires waits { self.old.packets + length self.old.waiting.items ≡ self.old.accepted }
        requires late { length self.old.decisions.items < last
            → self.old.packets ≤ length self.old.decisions.items }
        requires more { length self.old.decisions.items ≤ last }
        requires within { last ≤ self.old.accepted - 1 }
        requires last_key { KeepsLastKey self.old }
        requires in_order { AreInOrder self.old.decisions.items }
        ensures decided { OnOk result (Decided mode self.old self.new
            (D.told detector.old).questions (D.told detector.new).questions
            (D.told detector.old).answers last) }
        ensures rate { self.new.rate ≡ self.old.rate }
        ensures later { IsDetectorLater (D.told detector.old) (D.told detector.new) }
    {
        for position in self.decisions.len() as u64 + 1..last + 1 {
            self.decide_at(alloc, mode, detector, position)?;
        }
        Ok(())
    }

    // Decides the next position.
    fn decide_at<D: Detector<T>>(
        &mut self,
        alloc: Global,
        mode: SceneDetectionSpeed,
        detector: &mut D,
        position: u64,
    ) -> Result<(), OutOfMemory>
        requires waits { self.old.packets + length self.old.waiting.items ≡ self.old.accepted }
        requires next { position ≡ length self.old.decisions.items + 1 }
        requires late { self.old.packets < position }
        requires within { position < self.old.accepted }
        requires last_key { KeepsLastKey self.old }
        requires in_order { AreInOrder self.old.decisions.items }
        ensures decided { OnOk result (Decided mode self.old self.new
            (D.told detector.old).questions (D.told detector.new).questions
            (D.told detector.old).answers position) }
        ensures rate { self.new.rate ≡ self.old.rate }
        ensures later { IsDetectorLater (D.told detector.old) (D.told detector.new) }
    {
        let forced = self.waiting[(position - self.packets) as usize].forced;
        let key = self.is_key(alloc, mode, detector, position, forced)?;
        self.decisions.push(Decision {
            position,
            forced,
            key,
        })?;
        if key {
            self.schedule.note_key(position)?;
            self.last_key = position;
        }
        Ok(())
    }

    // Whether the frame of the next position is a key: one that was sent as a key is; of any other the detector is asked.
    fn is_key<D: Detector<T>>(
        &self,
        alloc: Global,
        mode: SceneDetectionSpeed,
        detector: &mut D,
        position: u64,
        forced: bool,
    ) -> Result<bool, OutOfMemory>
        requires waits { self.now.packets + length self.now.waiting.items ≡ self.now.accepted }
        requires next { position ≡ length self.now.decisions.items + 1 }
        requires late { self.now.packets < position }
        requires within { position < self.now.accepted }
        requires last_key { KeepsLastKey self.now }
        requires in_order { AreInOrder self.now.decisions.items }
        ensures key { IfOk result (λ key. IsTrue forced → IsTrue key) }
        ensures asked { IfOk result (λ key.
            Grew (D.told detector.old).questions (D.told detector.new).questions
            (question mode (frames_from (moment_of self.now)) self.now.decisions.items
            (record { position = position; forced = forced; key = key }))) }
        ensures ahead { IfOk result (λ key. AreAnswered (D.told detector.old).answers
            (record { position = position; forced = forced; key = key } ∷ [])) }
        ensures later { IsDetectorLater (D.told detector.old) (D.told detector.new) }
    {
        if forced {
            return Ok(true);
        }
        let frames = self.frames_from(alloc, position)?;
        detector.ask(alloc, mode, &frames, position, self.last_key)
    }

    // The frames from the one before a position on.
    fn frames_from(&self, alloc: Global, position: u64) -> Result<Vec<Arc<Frame<T>>>, OutOfMemory>
        requires waits { self.now.packets + length self.now.waiting.items ≡ self.now.accepted }
        requires late { self.now.packets < position }
        requires within { position < self.now.accepted }
        ensures { IfOk result (λ frames. map (λ frame. frame.value) frames.items
            ≡ frames_from (moment_of self.now) position) }
    {
        let mut frames = Vec::new(alloc);
        for index in (position - 1 - self.packets) as usize..self.waiting.len() {
            frames.push(Arc::try_clone(&self.waiting[index].picture)?)?;
        }
        Ok(frames)
    }
}
