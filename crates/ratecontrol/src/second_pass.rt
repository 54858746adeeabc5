ghost use Rattle.std.specs.Prelude.{◌≡◌, ℕ, ◌+◌, ◌-◌, ◌*◌, ◌^◌, ◌<◌, ◌≤◌, ◌&&◌, [], ◌∷◌, Option, Some, None, ℤ, pos, ◌+ℤ◌, ◌-ℤ◌, ◌*ℤ◌, ◌≤ℤ◌, ◌<ℤ◌, int_lt, int_le, IsTrue, if◌then◌else◌};
ghost use Rattle.fixed_log.specs.Within.{IsWithin};
ghost use Rattle.rate_model.specs.Subtype.{subtype_at};
ghost use Rattle.pass_data.specs.FileEnd.{units_to_end as units_to_end_of, units_guessed as units_guessed_of};
ghost use Rattle.pass_data.specs.Scales.{current_by};
ghost use Rattle.ratecontrol.specs.SecondPass.{sees_the_end as sees_the_end_of, as_seen as as_seen_of, as_guessed as as_guessed_of, frames_by, frames_ahead as frames_ahead_of, scale_of_subtype as scale_of_subtype_of, ahead_of_frames as ahead_of_frames_of, ahead_of_look as ahead_of_look_of, ahead_of_metrics as ahead_of_metrics_of};

use crate::ahead::Ahead;
use crate::guess::{Guess, SubtypeGuess};
use crate::state::RCState;
use pass_data::file_end::{ends_within, is_before_end, units_guessed};
use pass_data::scales::{current_scale, scale_ahead};
use pass_data::{Header, LookAhead};

/// The frames ahead in a second pass.
#[derive(Clone, Copy, Debug)]
pub(crate) struct FramesAhead {
    /// How many frames of each subtype, and how many shows of coded frames.
    pub nframes: [i32; 5],
    /// How many coded frames.
    pub frames: i64,
    /// How many temporal units.
    pub tus: i64,
}

fn as_seen(look: &LookAhead) -> FramesAhead
    ensures { result ≡ as_seen_of look.now }
{
    FramesAhead {
        nframes: look.nframes,
        frames: look.frames,
        tus: look.tus,
    }
}

fn as_guessed(guess: &Guess) -> FramesAhead
    ensures value { result ≡ as_guessed_of guess.now }
    ensures frames { IsWithin (2 ^ 34) result.frames }
{
    FramesAhead {
        nframes: guess.nframes,
        frames: guess.frames as i64,
        tus: guess.tus as i64,
    }
}

impl RCState {
    fn sees_all(&self, look: &LookAhead) -> bool
        ensures { result ≡ int_le self.now.given.left.shown look.now.tus }
    {
        self.given.left().shown as i64 <= look.tus
    }

    /// Whether all that is left is seen, and the file ends within the GOP, before the next key frame would be due.
    fn sees_the_end(
        &self,
        header: &Header,
        gop_start: u64,
        max_interval: i32,
        look: &LookAhead,
    ) -> bool
        ensures { result ≡ sees_the_end_of self.now header.now gop_start max_interval look.now }
    {
        self.sees_all(look)
            && is_before_end(header, gop_start)
            && ends_within(header, gop_start, max_interval)
    }

    /// The guess of the frames ahead, as far as the key frame that would be due.
    fn guessed<G: SubtypeGuess>(
        &self,
        guess: &G,
        header: &Header,
        max_interval: i32,
        look: &LookAhead,
    ) -> FramesAhead
        requires all { self.now.given.left.shown ≤ℤ look.now.tus }
        requires end { units_to_end_of header.now (G.gop_input_start guess.now) <ℤ max_interval }
        requires most { look.now.tus ≤ℤ self.now.reservoir_delay }
        ensures frames { IsWithin (2 ^ 34) result.frames }
        ensures value { result ≡ as_guessed_of (G.guess guess.now
            (units_guessed_of header.now (G.gop_input_start guess.now) max_interval look.now.tus
            self.now.reservoir_delay)) }
    {
        let start = guess.gop_input_start();
        let left = self.given.left().shown;
        let delay = self.reservoir_delay;
        let units = units_guessed(header, start, max_interval, look.tus, left, delay);
        as_guessed(&guess.guess(units))
    }

    fn frames_by<G: SubtypeGuess>(
        &self,
        guess: &G,
        header: &Header,
        max_interval: i32,
        look: &LookAhead,
    ) -> FramesAhead
        requires tus { look.now.tus ≤ℤ self.now.reservoir_delay }
        requires frames { IsWithin (2 ^ 34) look.now.frames }
        ensures value { result ≡ frames_by (Some header.now) self.now (G.guess guess.now)
            (G.gop_input_start guess.now) max_interval look.now }
        ensures frames { IsWithin (2 ^ 34) result.frames }
    {
        if self.sees_the_end(header, guess.gop_input_start(), max_interval, look) {
            self.guessed(guess, header, max_interval, look)
        } else {
            as_seen(look)
        }
    }

    /// Which frames are ahead: those that are seen, or a guess of them where the file ends within the GOP.
    #[tactic(auto, unfolding(crate::specs::SecondPass::frames_ahead))]
    fn frames_ahead<G: SubtypeGuess>(
        &self,
        guess: &G,
        max_interval: i32,
        look: &LookAhead,
    ) -> FramesAhead
        requires tus { look.now.tus ≤ℤ self.now.reservoir_delay }
        requires frames { IsWithin (2 ^ 34) look.now.frames }
        ensures value { result ≡ frames_ahead_of self.now (G.guess guess.now)
            (G.gop_input_start guess.now) max_interval look.now }
        ensures frames { IsWithin (2 ^ 34) result.frames }
    {
        match self.given.header() {
            Some(header) => self.frames_by(guess, &header, max_interval, look),
            None => as_seen(look),
        }
    }

    fn scale_of_subtype(&self, frames: &FramesAhead, look: &LookAhead, j: usize) -> i64
        requires { j < 4 }
        ensures { result ≡ scale_of_subtype_of self.now frames.now look.now j }
    {
        scale_ahead(
            self.log_npixels,
            look.counted.sums[j],
            look.counted.counts[j],
            frames.nframes[j],
            self.subtypes[j].last_answer(),
        )
    }

    fn current_scale(&self, look: &LookAhead, fti: usize) -> i64
        requires { fti < 4 }
        ensures { result ≡ current_by look.now.current
            (subtype_at self.now.subtypes fti).filter.y0 }
    {
        current_scale(look.current, self.subtypes[fti].last_answer())
    }

    /// The frames ahead with their scales.
    #[tactic(auto, unfolding(crate::specs::SecondPass::ahead_of_frames))]
    fn ahead_of_frames(&self, frames: &FramesAhead, look: &LookAhead, fti: usize) -> Ahead
        requires { fti < 4 }
        ensures value { result ≡ ahead_of_frames_of self.now frames.now look.now fti }
        ensures frames { result.frames ≡ frames.now.frames }
    {
        Ahead {
            nframes: frames.nframes,
            frames: frames.frames,
            tus: frames.tus,
            log_scale: [
                self.scale_of_subtype(frames, look, 0),
                self.scale_of_subtype(frames, look, 1),
                self.scale_of_subtype(frames, look, 2),
                self.scale_of_subtype(frames, look, 3),
            ],
            current: self.current_scale(look, fti),
        }
    }

    /// What is ahead in a second pass, by the metrics that it was given.
    #[tactic(auto, unfolding(crate::specs::SecondPass::ahead_of_look))]
    pub(crate) fn ahead_of_metrics<G: SubtypeGuess>(
        &self,
        guess: &G,
        max_interval: i32,
        fti: usize,
    ) -> Ahead
        requires { fti < 4 }
        ensures value { result ≡ ahead_of_metrics_of self.now (G.guess guess.now)
            (G.gop_input_start guess.now) max_interval fti }
        ensures frames { IsWithin (2 ^ 34) result.frames }
    {
        let look = self.given.look_ahead(self.reservoir_delay, fti);
        let frames = self.frames_ahead(guess, max_interval, &look);
        self.ahead_of_frames(&frames, &look, fti)
    }
}
