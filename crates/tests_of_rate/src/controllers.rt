//! A rate controller with what its selections read, and a guess that is always the same.

use crate::quantiser_tables::tables;
use av1_frame::ChromaSampling;
use ratecontrol::{
    Guess, PassDataError, QSettings, QTables, QuantizerParameters, RCState, SubtypeGuess,
};
use std::alloc::Global;
use std::process::Abort;
use std::test::Fail;

/// Always guesses the same frames ahead, in so many temporal units, or in as many as are asked for.
#[derive(Clone, Copy)]
pub struct Always {
    pub nframes: [i32; 5],
    pub frames: i32,
    pub tus: Option<i32>,
}

impl SubtypeGuess for Always {
    ghost use Rattle.std.specs.Prelude.{unwrap_or};
    ghost use Rattle.ratecontrol.specs.declared.guess.Guess.{Guess};

    ghost guess = { λ always tus. record {
      nframes = always.nframes;
      frames = always.frames;
      tus = unwrap_or always.tus tus;
    } };

    ghost gop_input_start = { λ _. 0 };

    fn guess(&self, tus: i32) -> Guess {
        Guess {
            nframes: self.nframes,
            frames: self.frames,
            tus: self.tus.unwrap_or(tus),
        }
    }

    fn gop_input_start(&self) -> u64 {
        0
    }
}

/// Nothing comes.
pub const NOTHING: Always = Always {
    nframes: [0; 5],
    frames: 0,
    tus: Some(0),
};

/// Frames of several GOPs.
pub const FRAMES: Always = Always {
    nframes: [4, 60, 60, 115, 120],
    frames: 239,
    tus: Some(240),
};

/// A GOP of 240 inputs.
pub const GOP: Always = Always {
    nframes: [1, 59, 60, 120, 119],
    frames: 240,
    tus: Some(240),
};

/// One key frame, in as many temporal units as are asked for.
pub const KEY: Always = Always {
    nframes: [1, 0, 0, 0, 0],
    frames: 1,
    tus: None,
};

/// What a controller starts with.
#[derive(Clone, Copy)]
pub struct Start {
    pub size: [i32; 2],
    pub frames_per_second: i64,
    pub bitrate: i32,
    pub greatest: Option<u8>,
    pub least: u8,
    pub interval: i32,
    pub delay: Option<i32>,
    pub bit_depth: u8,
    pub chroma: ChromaSampling,
    pub guess: Always,
}

/// No bitrate, 8 bits at 4:2:0, 640 x 480 pixels and 30 frames a second.
pub const PLAIN: Start = Start {
    size: [640, 480],
    frames_per_second: 30,
    bitrate: 0,
    greatest: None,
    least: 0,
    interval: 240,
    delay: None,
    bit_depth: 8,
    chroma: ChromaSampling::Cs420,
    guess: FRAMES,
};

/// A rate controller, and what it selects by.
#[derive(Drop)]
pub struct Controller {
    pub state: RCState,
    tables: QTables,
    settings: QSettings,
    guess: Always,
}

pub fn started(rt: &impl Abort, alloc: Global, start: &Start) -> Result<Controller, Fail> {
    let [width, height] = start.size;
    assert!(rt; 1 <= width && 1 <= height && 1 <= start.frames_per_second && 1 <= start.interval);
    Ok(Controller {
        state: RCState::new(
            alloc,
            width,
            height,
            start.frames_per_second,
            1,
            start.bitrate,
            start.greatest,
            start.least,
            start.interval,
            start.delay.map(|delay| delay.clamp(12, 1 << 17)),
        ),
        tables: tables()?,
        settings: QSettings {
            bit_depth: start.bit_depth,
            chroma: start.chroma,
            quantizer: 100,
            max_key_frame_interval: 240,
        },
        guess: start.guess,
    })
}

impl Controller {
    pub fn is_trial_due(&self, rt: &impl Abort, fti: usize) -> bool {
        assert!(rt; fti < 4);
        self.state.needs_trial_encode(fti)
    }

    pub fn select(
        &self,
        rt: &impl Abort,
        fti: usize,
        previous: Option<i64>,
        mean_scale: i64,
    ) -> QuantizerParameters {
        let depth = self.settings.bit_depth;
        assert!(rt; fti < 4 && 8 <= depth && depth <= 12);
        self.state.select_qi(
            &self.settings,
            &self.tables,
            &self.guess,
            fti,
            previous,
            mean_scale,
        )
    }

    /// How many of these bytes are taken, or how many are wanted.
    pub fn give(&mut self, bytes: Option<&[u8]>) -> Result<usize, PassDataError> {
        self.state.twopass_in(bytes)
    }

    /// Whether a frame of so many bits, coded with this target, is dropped.
    pub fn update(&mut self, rt: &impl Abort, frame: Frame) -> bool {
        assert!(rt; frame.fti <= 4);
        let Frame {
            bits,
            fti,
            shown,
            target,
            trial,
            droppable,
        } = frame;
        self.state
            .update_state(bits, fti, shown, target, trial, droppable)
    }
}

/// A frame that was coded, or only tried.
#[derive(Clone, Copy)]
pub struct Frame {
    pub bits: i64,
    pub fti: usize,
    pub shown: bool,
    pub target: i64,
    pub trial: bool,
    pub droppable: bool,
}
