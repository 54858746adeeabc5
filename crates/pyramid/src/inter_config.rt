ghost use Rattle.std.specs.Prelude.{◌≡◌, ◌+◌, ◌-◌, ◌*◌, ◌^◌, ◌<◌, ◌≤◌, IsTrue, if◌then◌else◌, length};
ghost use Rattle.std.specs.List.{AllPass};
ghost use Rattle.pyramid.specs.Settings.{numbers_of};
ghost use Rattle.pyramid.specs.Numbers.{group_inputs, group_places, keyframe_distance, ahead};
ghost use Rattle.pyramid.specs.Levels.{level_of, slot_at, slot_of};
ghost use Rattle.pyramid.specs.Rows.{rows, row_at, is_row, HasTable};
ghost use Rattle.pyramid.specs.Positions.{row_position, index_of, position_of, input_of};
ghost use Rattle.pyramid.specs.RowCommand.{refs_of};

use crate::rows::{Row, rows};
use crate::{Refs, named};
use av1_settings::EncoderConfig;
use std::marker::Model;

/// The numbers of a pyramid, which its settings give. Contracts see them as a record (`Numbers`).
///
/// A GOP is a key frame and groups of 2^depth inputs. A group takes 2^depth + depth places in coding order: each input
/// has one, and each hidden frame one more, where it is shown.
#[derive(Clone, Copy, Debug)]
pub struct InterConfig {
    pub(crate) depth: u32,
    pub(crate) multiref: bool,
    pub(crate) switch_interval: u64,
}

impl Model for InterConfig {
    ghost use Rattle.std.specs.Prelude.{◌≡◌};
    ghost use Rattle.pyramid.specs.Numbers.{Numbers};
    ghost use Rattle.pyramid.specs.Rows.{HasTable};

    ghost Value = { Numbers };

    ghost view = { λ c. record {
      depth = c.depth;
      multiref = c.multiref;
      switch_interval = c.switch_interval;
    } };

    ghost invariant = { λ c. HasTable c.depth };

    ghost inverse = { λ n. record {
      depth = n.depth;
      multiref = n.multiref;
      switch_interval = n.switch_interval;
    } };
}

impl InterConfig {
    /// The numbers for these settings: a pyramid of depth 2, or with low latency no reordering (depth 0).
    pub fn new(enc: &EncoderConfig) -> InterConfig
        ensures { result ≡ numbers_of enc.now }
    {
        InterConfig {
            depth: depth(enc.low_latency),
            multiref: enc.multiref(),
            switch_interval: enc.switch_frame_interval,
        }
    }

    /// The index in its group of a place of a GOP; place 0 is the key, and has none.
    pub fn get_idx_in_group_output(&self, output_frameno_in_gop: u64) -> u64
        requires { 1 ≤ output_frameno_in_gop }
        ensures { result ≡ index_of self.now output_frameno_in_gop }
    {
        (output_frameno_in_gop - 1) % self.group_places()
    }

    /// The position in its GOP (the order hint) of an index in the group of this place.
    pub fn get_order_hint(&self, output_frameno_in_gop: u64, idx_in_group_output: u64) -> u32
        requires place { 1 ≤ output_frameno_in_gop }
        requires index { idx_in_group_output < group_places self.now }
        requires position { position_of self.now output_frameno_in_gop idx_in_group_output
            ≤ 2 ^ 31 }
        ensures { result ≡ position_of self.now output_frameno_in_gop idx_in_group_output }
    {
        let group = (output_frameno_in_gop - 1) / self.group_places();
        self.row_position(group, self.row(idx_in_group_output)) as u32
    }

    /// The level in the pyramid of an index in a group: 0 for the frames that end a group, and the depth for those that
    /// no other frame of the group names.
    pub fn get_level(&self, idx_in_group_output: u64) -> u64
        requires { idx_in_group_output < group_places self.now }
        ensures { result ≡ (row_at self.now.depth idx_in_group_output).level }
    {
        self.row(idx_in_group_output).level
    }

    /// Whether the frame of an index in a group is shown at its place (show_frame, or show_existing_frame).
    pub fn get_show_frame(&self, idx_in_group_output: u64) -> bool
        requires { idx_in_group_output < group_places self.now }
        ensures { result ≡ (row_at self.now.depth idx_in_group_output).shown }
    {
        self.row(idx_in_group_output).shown
    }

    /// Whether the place of an index in a group only shows what a slot holds (show_existing_frame).
    pub fn get_show_existing_frame(&self, idx_in_group_output: u64) -> bool
        requires { idx_in_group_output < group_places self.now }
        ensures { result ≡ (row_at self.now.depth idx_in_group_output).existing }
    {
        self.row(idx_in_group_output).existing
    }

    /// The slot of a frame of this level at this position: level 0 takes slots 0 to 3 in turn, and each other level has
    /// one slot of its own.
    pub fn get_slot_idx(&self, level: u64, order_hint: u32) -> u32
        requires { level ≤ self.now.depth }
        ensures { result ≡ slot_at self.now.depth level order_hint }
    {
        u32::from(self.slot(level, u64::from(order_hint)))
    }

    /// The input that stands at a place of the GOP whose key is input `gop_input_frameno_start`.
    pub fn get_input_frameno(&self, output_frameno_in_gop: u64, gop_input_frameno_start: u64) -> u64
        requires position { input_of self.now output_frameno_in_gop 0 ≤ 2 ^ 31 }
        requires start { gop_input_frameno_start ≤ 2 ^ 31 }
        ensures { result ≡ input_of self.now output_frameno_in_gop gop_input_frameno_start }
    {
        if output_frameno_in_gop == 0 {
            return gop_input_frameno_start;
        }
        let index = self.get_idx_in_group_output(output_frameno_in_gop);
        let position = self.get_order_hint(output_frameno_in_gop, index);
        gop_input_frameno_start + u64::from(position)
    }

    /// How many frames ahead of the first frame of a group the next key is to be known.
    pub fn keyframe_lookahead_distance(&self) -> u64
        ensures { result ≡ keyframe_distance self.now }
    {
        self.group_inputs() + 1
    }

    /// How many inputs after a position have come when it is decided whether it is a key.
    pub fn ahead(&self) -> u64
        ensures { result ≡ ahead self.now }
    {
        self.group_inputs() + 2
    }

    /// The slots that a frame of this level at this position names, in order.
    ///
    /// A frame of level 0 names the slot of the last frame of its level, and with several references also that of the
    /// one before. A frame of another level names the slots of the two frames that it stands between, and its own
    /// level's slot, each once.
    pub fn refs_of(&self, level: u64, position: u64) -> Refs
        requires level { level ≡ level_of self.now.depth position }
        requires position { position ≤ 2 ^ 31 }
        ensures { result ≡ refs_of self.now level position }
    {
        let slot = self.slot(level, position);
        if level == 0 {
            return named::level_zero(self.multiref, slot);
        }
        let half = self.half(level);
        named::between(
            self.slot_of(position - half),
            self.slot_of(position + half),
            slot,
        )
    }
}

impl InterConfig {
    // Inputs of a group.
    pub(crate) fn group_inputs(&self) -> u64
        ensures value { result ≡ group_inputs self.now }
        ensures some { 1 ≤ result }
        ensures few { result ≤ 16 }
        ensures shallow { self.now.depth ≤ 4 }
    {
        1 << self.depth
    }

    // Places of a group.
    pub(crate) fn group_places(&self) -> u64
        ensures value { result ≡ group_places self.now }
        ensures some { 1 ≤ result }
        ensures few { result ≤ 20 }
    {
        self.group_inputs() + u64::from(self.depth)
    }

    // The rows of a group.
    pub(crate) fn rows(&self) -> &'static [Row]
        ensures value { result.now ≡ rows self.now.depth }
        ensures count { length result.now ≡ group_places self.now }
        ensures few { length result.now ≤ 20 }
        ensures each { AllPass (is_row self.now.depth) result.now }
        ensures table { HasTable self.now.depth }
    {
        rows(self.depth)
    }

    // The row of an index.
    pub(crate) fn row(&self, index: u64) -> &'static Row
        requires { index < group_places self.now }
        ensures value { result.now ≡ row_at self.now.depth index }
        ensures right { IsTrue (is_row self.now.depth result.now) }
        ensures table { HasTable self.now.depth }
    {
        &self.rows()[index as usize]
    }

    // The position of a row of a group.
    pub(crate) fn row_position(&self, group: u64, row: &Row) -> u64
        requires group { group ≤ 2 ^ 52 }
        requires row { IsTrue (is_row self.now.depth row.now) }
        ensures { result ≡ row_position self.now group row.now }
    {
        self.group_inputs() * group + row.offset
    }

    // The level of a position.
    pub(crate) fn level(&self, position: u64) -> u64
        ensures value { result ≡ level_of self.now.depth position }
        ensures within { result ≤ self.now.depth }
    {
        u64::from(self.depth - position.trailing_zeros().min(self.depth))
    }

    // The slot of a frame of this level at this position.
    pub(crate) fn slot(&self, level: u64, position: u64) -> u8
        requires { level ≤ self.now.depth }
        ensures value { result ≡ slot_at self.now.depth level position }
        ensures small { result < 8 }
        ensures zero { level ≡ 0 → result < 4 }
    {
        let inputs = self.group_inputs();
        if level == 0 {
            return (position / inputs % 4) as u8;
        }
        3 + level as u8
    }

    // The slot of a position.
    pub(crate) fn slot_of(&self, position: u64) -> u8
        ensures value { result ≡ slot_of self.now.depth position }
        ensures small { result < 8 }
    {
        self.slot(self.level(position), position)
    }

    // How far a frame of a level above 0 is from those that it stands between.
    fn half(&self, level: u64) -> u64
        requires { level ≤ self.now.depth }
        ensures value { result ≡ 2 ^ (self.now.depth - level) }
        ensures few { result ≤ 16 }
    {
        1 << (u64::from(self.depth) - level)
    }
}

// The depth of a pyramid: none with low latency.
fn depth(low_latency: bool) -> u32
    ensures value { result ≡ (if low_latency then 0 else 2) }
    ensures table { HasTable result }
{
    if low_latency { 0 } else { 2 }
}
