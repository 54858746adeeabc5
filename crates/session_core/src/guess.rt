// What rate control is told of the frames that come next.
ghost use Rattle.std.specs.Prelude.{◌≡◌, ◌<◌, ◌^◌, pos};
ghost use Rattle.std.specs.Int.{int_min};
ghost use Rattle.rate_model.specs.Measure.{LAST_I32};
ghost use Rattle.session_core.specs.Quantisers.{clamped_guess, gop_start_at, guess_at, units_of};
ghost use Rattle.session_core.specs.Moments.{opening};
ghost use Rattle.session_core.specs.States.{moment_of, IsDue, IsScheduled};

use crate::state::SessionState;
use av1_settings::EncoderConfig;
use pyramid::{GuessedAhead, Schedule};
use session_log::{Guess, SubtypeGuess};

/// A session where it codes its next command. It guesses by the session's schedule.
#[derive(Drop)]
pub(crate) struct ScheduleGuess<'a, T, O> {
    pub(crate) enc: &'a EncoderConfig,
    pub(crate) state: &'a SessionState<T, O>,
    ghost due: { ∥ IsDue enc.now (moment_of state.now) state.now.schedule ∥₁ },
}

impl<'a, T, O> SubtypeGuess for ScheduleGuess<'a, T, O> {
    ghost guess = { λ at. guess_at at.enc.now (moment_of at.state.now) };

    ghost gop_input_start = { λ at. gop_start_at at.enc.now (moment_of at.state.now) };

    fn guess(&self, tus: i32) -> Guess {
        clamped(&self.state.schedule.guess(units_of(tus)))
    }

    fn gop_input_start(&self) -> u64 {
        self.state.schedule.gop_input_start()
    }
}

/// A session that hasn't begun. It guesses by its schedule, which knows of no frame.
#[derive(Drop)]
pub(crate) struct OpeningGuess<'a> {
    pub(crate) enc: &'a EncoderConfig,
    pub(crate) schedule: &'a Schedule,
    ghost opens: { ∥ IsScheduled {T = Unit {0}} {O = Unit {0}} enc.now opening schedule.now ∥₁ },
}

impl<'a> SubtypeGuess for OpeningGuess<'a> {
    ghost guess = { λ at. guess_at {T = Unit {0}} {O = Unit {0}} at.enc.now opening };

    ghost gop_input_start = { λ at. gop_start_at {T = Unit {0}} {O = Unit {0}} at.enc.now opening };

    fn guess(&self, tus: i32) -> Guess {
        clamped(&self.schedule.guess(units_of(tus)))
    }

    fn gop_input_start(&self) -> u64 {
        self.schedule.gop_input_start()
    }
}

// A number of temporal units; none below 0.
fn units_of(tus: i32) -> u64
    ensures units { result ≡ units_of tus }
    ensures few { result < 2 ^ 31 }
{
    tus.max(0) as u64
}

// The same in numbers of 32 bits.
fn clamped(ahead: &GuessedAhead) -> Guess
    ensures { result ≡ clamped_guess ahead.now }
{
    let [keys, inter, middle, least, shows] = ahead.nframes;
    Guess {
        nframes: [
            clamped_count(keys),
            clamped_count(inter),
            clamped_count(middle),
            clamped_count(least),
            clamped_count(shows),
        ],
        frames: clamped_count(ahead.frames),
        tus: clamped_count(ahead.tus),
    }
}

fn clamped_count(count: u64) -> i32
    ensures { result ≡ int_min (pos count) LAST_I32 }
{
    count.min(i32::MAX as u64) as i32
}
