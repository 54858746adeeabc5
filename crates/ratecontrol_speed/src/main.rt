//! Selects quantisers for frames whose bits follow from them, and prints the sum of the luma AC indices: of 2,000 frames,
//! or of 200,000 where it is given a word.
#![tactic(auto)]

ghost use Rattle.std.specs.Prelude.{◌<◌};

use av1_frame::ChromaSampling;
use ratecontrol::{Guess, QSettings, QTables, QuantizerParameters, RCState, SubtypeGuess};
use std::{env, io};

/// Always guesses the same frames ahead.
struct FixedGuess;

impl SubtypeGuess for FixedGuess {
    ghost use Rattle.std.specs.Prelude.{pos, negsuc, [], ◌∷◌};
    ghost use Rattle.ratecontrol.specs.declared.guess.Guess.{Guess};

    ghost guess = { λ _ _. record {
      nframes = pos 4 ∷ pos 60 ∷ pos 60 ∷ pos 115 ∷ pos 120 ∷ [];
      frames = pos 239;
      tus = pos 240;
    } };

    ghost gop_input_start = { λ _. 0 };

    fn guess(&self, _tus: i32) -> Guess {
        Guess {
            nframes: [4, 60, 60, 115, 120],
            frames: 239,
            tus: 240,
        }
    }

    fn gop_input_start(&self) -> u64 {
        0
    }
}

const SETTINGS: QSettings = QSettings {
    bit_depth: 8,
    chroma: ChromaSampling::Cs420,
    quantizer: 100,
    max_key_frame_interval: 240,
};

/// The table with `8 * (i + 1)` at index `i`.
fn steps_of_eight() -> [u16; 256] {
    let mut values = [0; 256];
    for i in 0..256u16 {
        values[i as usize] = 8 * (i + 1);
    }
    values
}

fn subtype_of(i: u32) -> usize
    ensures { result < 4 }
{
    if i % 60 == 0 { 0 } else { 1 + (i % 3) as usize }
}

/// The bits of a frame: the fewer the higher its index is, and some that the seed gives.
fn bits_of(ac_index: u8, seed: u64) -> i64 {
    8 * (20 + 80000 / (ac_index as i64 + 1) + (seed / 64 % 200) as i64)
}

/// The next number of a linear generator, below 2^31.
fn next(seed: u64) -> u64 {
    seed.wrapping_mul(1_103_515_245).wrapping_add(12345) % (1 << 31)
}

fn select(
    state: &RCState,
    tables: &QTables,
    subtype: usize,
    previous: Option<i64>,
) -> QuantizerParameters
    requires { subtype < 4 }
{
    let settings = SETTINGS;
    state.select_qi(&settings, tables, &FixedGuess, subtype, previous, 0)
}

/// Codes a frame, and gives its parameters.
fn code(
    state: &mut RCState,
    tables: &QTables,
    subtype: usize,
    previous: Option<i64>,
    seed: u64,
) -> QuantizerParameters
    requires { subtype < 4 }
{
    if state.needs_trial_encode(subtype) {
        let trial = select(state, tables, subtype, previous);
        state.update_state(800, subtype, true, trial.log_target_q, true, false);
    }
    let parameters = select(state, tables, subtype, previous);
    let bits = bits_of(parameters.ac_qi[0], seed);
    state.update_state(bits, subtype, true, parameters.log_target_q, false, false);
    parameters
}

fn sum_of_indices(state: &mut RCState, tables: &QTables, frames: u32) -> u64 {
    let mut seed = 7;
    let mut previous = None;
    let mut sum = 0u64;
    for i in 0..frames {
        seed = next(seed);
        let parameters = code(state, tables, subtype_of(i), previous, seed);
        previous = Some(parameters.log_base_q);
        sum = sum.saturating_add(u64::from(parameters.ac_qi[0]));
    }
    sum
}

fn main(rt: HostRuntime) -> io::Result<()> {
    let frames = if env::args(&rt)?.count() > 1 {
        200_000
    } else {
        2_000
    };
    let mut state = RCState::new(rt.alloc(), 640, 480, 30, 1, 600_000, None, 0, 240, None);
    match QTables::new(steps_of_eight(), steps_of_eight()) {
        Ok(tables) => {
            let sum = sum_of_indices(&mut state, &tables, frames);
            println!(rt; "{sum}")
        }
        Err(e) => println!(rt; "{e}"),
    }
}
