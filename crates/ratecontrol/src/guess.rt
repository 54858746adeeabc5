ghost use Rattle.std.specs.Prelude.{◌≡◌, ℕ, ℤ};

/// What is expected of the frames ahead.
#[derive(Clone, Copy, Debug, PartialEq, Eq)]
pub struct Guess {
    /// How many frames of each subtype, and how many shows of coded frames.
    pub nframes: [i32; 5],
    /// How many coded frames.
    pub frames: i32,
    /// How many temporal units.
    pub tus: i32,
}

/// Guesses the frames ahead of the one that is being coded. What it answers is fixed by the value.
pub trait SubtypeGuess {
    ghost use Rattle.std.specs.Prelude.{ℕ, ℤ};
    ghost use Rattle.ratecontrol.specs.declared.guess.Guess.{Guess};

    ghost guess: { Self → ℤ → Guess };

    ghost gop_input_start: { Self → ℕ };

    /// The frames of at least so many temporal units, as far as the guess goes.
    fn guess(&self, tus: i32) -> Guess
        ensures { result ≡ guess self.now tus };

    /// The input with which the current GOP starts.
    fn gop_input_start(&self) -> u64
        ensures { result ≡ gop_input_start self.now };
}
