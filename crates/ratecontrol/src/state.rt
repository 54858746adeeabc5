ghost use Rattle.std.specs.Prelude.{◌≡◌, ℕ, ◌+◌, ◌-◌, ◌*◌, ◌^◌, ◌<◌, ◌≤◌, IsTrue, IfSome, Option, pos, negsuc, ◌+ℤ◌, ◌-ℤ◌, ◌*ℤ◌, ◌≤ℤ◌, ◌<ℤ◌, int_lt, ◌&&◌};
ghost use Rattle.std.specs.Ordering.{int_eq};
ghost use Rattle.fixed_log.specs.Within.{IsWithin};
ghost use Rattle.rate_model.specs.Subtype.{subtype_at};
ghost use Rattle.ratecontrol.specs.Rate.{Rate, IsRate};
ghost use Rattle.ratecontrol.specs.Start.{rate_from, start};

use fixed_log::blog64;
use pass_data::{EmittedData, GivenData};
use rate_model::{SubtypeState, start_subtypes};
use reservoir::levels::{
    bits_per_tu, half_delay, pixels, pixels_per_bit, reservoir_delay, reservoir_most,
    reservoir_target,
};
use std::alloc::Global;
use std::marker::Model;

/// The state of a rate controller: the reservoir of bits, and for each frame subtype what its frames took. Contracts
/// see it as a record (`Rate`).
#[derive(Drop)]
pub struct RCState {
    pub(crate) bitrate: i32,
    pub(crate) bits_per_tu: i64,
    pub(crate) reservoir_delay: i32,
    pub(crate) delay_target: i32,
    pub(crate) greatest: Option<u8>,
    pub(crate) least: u8,
    pub(crate) log_npixels: i64,
    pub(crate) most: i128,
    pub(crate) target: i128,
    pub(crate) reservoir: i128,
    pub(crate) bias: i128,
    pub(crate) coded: i64,
    pub(crate) shown_again: i64,
    pub(crate) shows: i32,
    pub(crate) subtypes: [SubtypeState; 4],
    pub(crate) alloc: Global,
    pub(crate) set_delay: Option<i32>,
    pub(crate) first: bool,
    pub(crate) second: bool,
    pub(crate) first_base: i64,
    pub(crate) given: GivenData,
    pub(crate) emitted: EmittedData,
}

impl Model for RCState {
    ghost use Rattle.ratecontrol.specs.Rate.{Rate, IsRate};

    ghost Value = { Rate };

    ghost view = { λ s. record {
      bitrate = s.bitrate;
      bits_per_tu = s.bits_per_tu;
      reservoir_delay = s.reservoir_delay;
      delay_target = s.delay_target;
      greatest = s.greatest;
      least = s.least;
      log_npixels = s.log_npixels;
      most = s.most;
      target = s.target;
      reservoir = s.reservoir;
      bias = s.bias;
      coded = s.coded;
      shown_again = s.shown_again;
      shows = s.shows;
      subtypes = s.subtypes;
      set_delay = s.set_delay;
      first = s.first;
      second = s.second;
      first_base = s.first_base;
      given = s.given;
      emitted = s.emitted;
    } };

    ghost invariant = { λ s. IsRate (record {
      bitrate = s.bitrate;
      bits_per_tu = s.bits_per_tu;
      reservoir_delay = s.reservoir_delay;
      delay_target = s.delay_target;
      greatest = s.greatest;
      least = s.least;
      log_npixels = s.log_npixels;
      most = s.most;
      target = s.target;
      reservoir = s.reservoir;
      bias = s.bias;
      coded = s.coded;
      shown_again = s.shown_again;
      shows = s.shows;
      subtypes = s.subtypes;
      set_delay = s.set_delay;
      first = s.first;
      second = s.second;
      first_base = s.first_base;
      given = s.given;
      emitted = s.emitted;
    }) };
}

impl RCState {
    /// The state at the start of a session with one pass. No memory is taken.
    ///
    /// The frame rate is `framerate_num / framerate_den` frames a second. The indices bound the quantisers; without
    /// `maybe_ac_qi_max` the reservoir bounds them. The bitrate is in bits a second; without a positive one nothing is
    /// controlled. The reservoir's delay is in temporal units.
    #[tactic(auto, unfolding(crate::specs::Start::start))]
    pub fn new(
        alloc: Global,
        frame_width: i32,
        frame_height: i32,
        framerate_num: i64,
        framerate_den: i64,
        target_bitrate: i32,
        maybe_ac_qi_max: Option<u8>,
        ac_qi_min: u8,
        max_key_frame_interval: i32,
        maybe_reservoir_frame_delay: Option<i32>,
    ) -> RCState
        requires width { pos 1 ≤ℤ frame_width }
        requires height { pos 1 ≤ℤ frame_height }
        requires framerate { pos 1 ≤ℤ framerate_num }
        requires interval { pos 1 ≤ℤ max_key_frame_interval }
        requires delay { IfSome maybe_reservoir_frame_delay
            (λ delay. (pos 12 ≤ℤ delay) × (delay ≤ℤ pos (2 ^ 17))) }
        ensures { result ≡ start frame_width frame_height framerate_num framerate_den target_bitrate
            maybe_ac_qi_max ac_qi_min max_key_frame_interval maybe_reservoir_frame_delay }
    {
        let bits = bits_per_tu(target_bitrate, framerate_num, framerate_den);
        let delay = reservoir_delay(maybe_reservoir_frame_delay, max_key_frame_interval);
        state_from(
            alloc,
            target_bitrate,
            pixels(frame_width, frame_height),
            bits,
            delay,
            maybe_ac_qi_max,
            ac_qi_min,
            maybe_reservoir_frame_delay,
        )
    }

    /// The bits that the reservoir holds.
    pub fn reservoir(&self) -> i128
        ensures { result ≡ self.now.reservoir }
    {
        self.reservoir
    }

    /// The bits that the reservoir can hold.
    pub fn reservoir_max(&self) -> i128
        ensures { result ≡ self.now.most }
    {
        self.most
    }

    /// Whether a frame of this subtype, which is not a show, is to be coded as a trial first: it is the subtype's first,
    /// and there is a bitrate.
    pub fn needs_trial_encode(&self, fti: usize) -> bool
        requires { fti < 4 }
        ensures { result ≡ (int_lt (pos 0) self.now.bitrate
            && int_eq (subtype_at self.now.subtypes fti).frames (pos 0)) }
    {
        self.bitrate > 0 && self.subtypes[fti].frames() == 0
    }
}

fn state_from(
    alloc: Global,
    bitrate: i32,
    npixels: i64,
    bits_per_tu: i64,
    delay: i32,
    greatest: Option<u8>,
    least: u8,
    set_delay: Option<i32>,
) -> RCState
    requires set { IfSome set_delay (λ delay. (pos 12 ≤ℤ delay) × (delay ≤ℤ pos (2 ^ 17))) }
    requires bits_low { pos 24 ≤ℤ bits_per_tu }
    requires bits_high { bits_per_tu ≤ℤ pos (2 ^ 46) }
    requires delay_low { pos 1 ≤ℤ delay }
    requires delay_high { delay ≤ℤ pos (2 ^ 17) }
    ensures { result ≡ rate_from bitrate npixels bits_per_tu delay greatest least set_delay }
{
    let most = reservoir_most(bits_per_tu, delay);
    let target = reservoir_target(most);
    RCState {
        bitrate,
        bits_per_tu,
        reservoir_delay: delay,
        delay_target: half_delay(delay),
        greatest,
        least,
        log_npixels: blog64(npixels),
        most,
        target,
        reservoir: target,
        bias: 0,
        coded: 0,
        shown_again: 0,
        shows: 0,
        subtypes: start_subtypes(pixels_per_bit(npixels, bits_per_tu)),
        alloc,
        set_delay,
        first: false,
        second: false,
        first_base: 0,
        given: GivenData::new(alloc),
        emitted: EmittedData::new(),
    }
}
