//! What of a plan is known, place by place, from the next command on.

ghost use Rattle.std.specs.Prelude.{◌≡◌, ℕ, ◌+◌, ◌-◌, ◌*◌, ◌^◌, ◌≤◌, ◌<◌, Bool, true, false, List, [], ◌∷◌, ◌++◌, drop, length, map, IsTrue, OnOk};
ghost use Rattle.std.specs.List.{slice_get, list_all};
ghost use Rattle.pyramid.specs.Building.{group_left, unit_left, needs_at, unit_to, spot_to, due_to, next_of, AreKeysFrom, Builds, begins_with_command, coding_count, is_near, kept_from, passed_keys, steps_left};
ghost use Rattle.pyramid.specs.Places.{places_from, row_place};
ghost use Rattle.pyramid.specs.Plan.{key_above};
ghost use Rattle.pyramid.specs.Rows.{rows, HasTable};

use crate::place::{Place, coding, key_place, row_place};
use crate::plans::group_count;
use crate::spot::Spot;
use crate::{Command, InterConfig};
use coding_base::OutOfMemory;
use std::alloc::Global;
use std::collections::VecDeque;

/// The known places of a session, from that of the next command on.
///
/// Each place is built once, when its unit becomes known: the first key, a group of a GOP, or the key behind a GOP. A
/// schedule is told the keys as they are decided (`note_key`), then how many frames are accepted (`extend`), and at
/// the end that no more come (`close`). It keeps no list of all keys or commands. Contracts speak of it by
/// `IsSchedule`.
#[derive(Drop)]
pub struct Schedule {
    pub(crate) cfg: InterConfig,
    // The most inputs between two keys.
    pub(crate) interval: u64,
    // Where building goes on.
    pub(crate) spot: Spot,
    // The keys that are decided, from the first one above the start of the first place's GOP on.
    pub(crate) keys: VecDeque<u64>,
    // How many of them, from the first on, aren't above the start of the last key that was built.
    pub(crate) passed: usize,
    // The built places from that of the next command on.
    pub(crate) places: VecDeque<Place>,
    // How many of them code a frame.
    pub(crate) coded: u64,
    ghost table: { HasTable cfg.depth },
    ghost some: { 1 ≤ interval },
    ghost start: { spot.start ≤ 2 ^ 31 },
    ghost number: { spot.number ≤ 2 ^ 31 },
    ghost passing: { passed ≡ passed_keys spot.start keys.items },
    ghost near: { IsTrue (list_all is_near places.items) },
    ghost counted: { coded ≡ coding_count places.items },
    ghost ready: { IsTrue (begins_with_command places.items) },
}

impl Schedule {
    ghost use Rattle.pyramid.specs.Schedules.{IsSchedule, built_start};
    ghost use Rattle.pyramid.specs.Plan.{start_after};
    ghost use Rattle.pyramid.specs.Numbers.{Numbers, ahead};
    ghost use Rattle.pyramid.specs.Places.{settled_places, settled_commands};
    ghost use Rattle.std.specs.List.{count_by};
    ghost use Rattle.pyramid.specs.Known.{is_coding};

    /// The schedule of a session that has accepted no frame, where two keys are at most `max_interval` inputs apart.
    pub fn new(alloc: Global, cfg: InterConfig, max_interval: u64) -> Schedule
        requires interval { 1 ≤ max_interval }
        ensures { IsSchedule cfg max_interval 0 false [] 0 result }
    {
        Schedule {
            cfg,
            interval: max_interval,
            spot: Spot {
                begun: false,
                start: 0,
                number: 0,
            },
            keys: VecDeque::new(alloc),
            passed: 0,
            places: VecDeque::new(alloc),
            coded: 0,
        }
    }

    /// Takes in that this input was decided to be a key: a position that was undecided with the frames of the last
    /// `extend`. The one error is want of memory.
    pub fn note_key(&mut self, position: u64) -> Result<(), OutOfMemory>
        ensures noted { OnOk result (
            (numbers : Numbers) (interval frames : ℕ) (keys : List ℕ) (commands : ℕ) →
            frames ≤ position + ahead numbers →
            IsSchedule numbers interval frames false keys commands self.old →
            IsSchedule numbers interval frames false (keys ++ position ∷ []) commands self.new) }
    {
        if position > self.kept_from() {
            self.keys.push_back(position)?;
            self.passed = passed_keys(&self.keys, self.passed, self.spot.start);
        }
        Ok(())
    }

    /// Builds what becomes known where `frames` inputs are accepted. The one error is want of memory.
    pub fn extend(&mut self, frames: u64) -> Result<(), OutOfMemory>
        requires frames { frames ≤ 2 ^ 31 - 2 }
        ensures extended { OnOk result (
            (numbers : Numbers) (interval before : ℕ) (keys : List ℕ) (commands : ℕ) →
            before ≤ frames →
            IsSchedule numbers interval before false keys commands self.old →
            IsSchedule numbers interval frames false keys commands self.new) }
    {
        self.build(frames, false)?;
        Ok(())
    }

    /// Builds all that is left, where `frames` inputs were accepted and no more come. The one error is want of memory.
    pub fn close(&mut self, frames: u64) -> Result<(), OutOfMemory>
        requires frames { frames ≤ 2 ^ 31 - 2 }
        ensures closed { OnOk result (
            (numbers : Numbers) (interval before : ℕ) (keys : List ℕ) (commands : ℕ) →
            before ≤ frames →
            IsSchedule numbers interval before false keys commands self.old →
            IsSchedule numbers interval frames true keys commands self.new) }
        ensures again { OnOk result (
            (numbers : Numbers) (interval : ℕ) (keys : List ℕ) (commands : ℕ) →
            IsSchedule numbers interval frames true keys commands self.old →
            IsSchedule numbers interval frames true keys commands self.new) }
    {
        self.build(frames, true)?;
        Ok(())
    }

    /// The next command, if it is known.
    pub fn next_command(&self) -> Option<Command>
        ensures { (numbers : Numbers) (interval frames : ℕ) (flushed : Bool) (keys : List ℕ)
            (commands : ℕ) →
            IsSchedule numbers interval frames flushed keys commands self.now →
            result ≡ slice_get (settled_commands numbers interval frames flushed keys) commands }
    {
        match self.first() {
            Some(place) => place.command,
            None => None,
        }
    }

    /// Moves on to the command behind the next one; where none is known nothing changes.
    pub fn advance(&mut self)
        ensures known { (numbers : Numbers) (interval frames : ℕ) (flushed : Bool) (keys : List ℕ)
            (commands : ℕ) →
            commands < length (settled_commands numbers interval frames flushed keys) →
            IsSchedule numbers interval frames flushed keys commands self.old →
            IsSchedule numbers interval frames flushed keys (commands + 1) self.new }
        ensures none { (numbers : Numbers) (interval frames : ℕ) (flushed : Bool) (keys : List ℕ)
            (commands : ℕ) →
            length (settled_commands numbers interval frames flushed keys) ≤ commands →
            IsSchedule numbers interval frames flushed keys commands self.old →
            IsSchedule numbers interval frames flushed keys commands self.new }
    {
        let less = drop_first(&mut self.places);
        self.coded -= less;
        self.drop_keys();
    }

    /// How many of the known commands, from the next on, code a frame.
    pub fn coded_ahead(&self) -> u64
        ensures { (numbers : Numbers) (interval frames : ℕ) (flushed : Bool) (keys : List ℕ)
            (commands : ℕ) →
            IsSchedule numbers interval frames flushed keys commands self.now →
            result ≡ count_by is_coding
            (drop commands (settled_commands numbers interval frames flushed keys)) }
    {
        self.coded
    }

    /// How many places are held: the known ones from that of the next command on.
    pub fn places_held(&self) -> usize
        ensures { (numbers : Numbers) (interval frames : ℕ) (flushed : Bool) (keys : List ℕ)
            (commands : ℕ) →
            IsSchedule numbers interval frames flushed keys commands self.now →
            result ≡ length
            (places_from commands (settled_places numbers interval frames flushed keys)) }
    {
        self.places.len()
    }

    /// The place that is `behind` places behind that of the next command, where it is known.
    pub fn place_ahead(&self, behind: usize) -> Option<Place>
        ensures { (numbers : Numbers) (interval frames : ℕ) (flushed : Bool) (keys : List ℕ)
            (commands : ℕ) →
            IsSchedule numbers interval frames flushed keys commands self.now →
            result ≡ slice_get
            (places_from commands (settled_places numbers interval frames flushed keys))
            behind }
    {
        self.places.get(behind).copied()
    }

    /// The input of the last key that was built, and 0 before the first.
    pub fn built_start(&self) -> u64
        ensures { result ≡ built_start self.now }
    {
        self.spot.start
    }

    /// The start behind `start`, at most `limit`, where `start` isn't before the last key that was built: the first
    /// decided key above it, or an interval on if that is sooner.
    pub fn start_after(&self, start: u64, limit: u64) -> u64
        ensures { (numbers : Numbers) (interval frames : ℕ) (flushed : Bool) (keys : List ℕ)
            (commands : ℕ) →
            built_start self.now ≤ start →
            IsSchedule numbers interval frames flushed keys commands self.now →
            result ≡ start_after interval limit keys start }
    {
        let key = self.key_above(start, limit);
        key.min(start.saturating_add(self.interval).min(limit))
    }
}

impl Schedule {
    // The first place that is held.
    pub(crate) fn first(&self) -> Option<Place>
        ensures { result ≡ slice_get self.now.places.items 0 }
    {
        self.places.front().copied()
    }

    // The start of the first place's GOP, and of the last key that was built where no place is held: the keys above it
    // are kept.
    fn kept_from(&self) -> u64
        ensures { result ≡ kept_from self.now.places.items self.now.spot.start }
    {
        match self.first() {
            Some(place) => place.start,
            None => self.spot.start,
        }
    }

    // Drops the keys that aren't kept any more.
    fn drop_keys(&mut self)
        ensures cfg { self.new.cfg ≡ self.old.cfg }
        ensures interval { self.new.interval ≡ self.old.interval }
        ensures spot { self.new.spot ≡ self.old.spot }
        ensures places { self.new.places.items ≡ self.old.places.items }
        ensures keys { AreKeysFrom (kept_from self.old.places.items self.old.spot.start)
            self.new.keys.items self.old.keys.items }
    {
        let from = self.kept_from();
        while self.passed > 0 && self.keys[0] <= from {
            self.keys.pop_front();
            self.passed -= 1;
        }
    }

    // The first kept key above `start`, or `limit`.
    fn key_above(&self, start: u64, limit: u64) -> u64
        ensures { result ≡ key_above limit self.now.keys.items start }
    {
        for i in 0..self.keys.len() {
            if self.keys[i] > start {
                return self.keys[i];
            }
        }
        limit
    }

    // Builds the units that are known and aren't built.
    fn build(&mut self, frames: u64, flushed: bool) -> Result<(), OutOfMemory>
        requires frames { frames ≤ 2 ^ 31 }
        ensures cfg { self.new.cfg ≡ self.old.cfg }
        ensures interval { self.new.interval ≡ self.old.interval }
        ensures built { OnOk result ((keys : List ℕ) →
            AreKeysFrom self.old.spot.start self.old.keys.items keys →
            Builds self.old.cfg self.old.interval frames flushed keys self.old.spot self.new.spot
            self.old.places.items self.new.places.items) }
        ensures keys { OnOk result (self.new.keys.items ≡ self.old.keys.items) }
        ensures ended { OnOk result (
            due_to self.new.cfg frames flushed
            (next_of self.new.interval frames self.new.keys.items self.new.spot)
            self.new.spot ≡ false) }
    {
        while self.is_due(frames, flushed) {
            self.build_next(frames)?;
        }
        Ok(())
    }

    // Whether a unit is left to be built, and is known.
    fn is_due(&self, frames: u64, flushed: bool) -> bool
        requires frames { frames ≤ 2 ^ 31 }
        ensures { result ≡ due_to self.now.cfg frames flushed
            (next_of self.now.interval frames self.now.keys.items self.now.spot) self.now.spot }
    {
        self.has_unit(frames) && (flushed || self.needs() < frames)
    }

    // Whether a unit is left to be built.
    fn has_unit(&self, frames: u64) -> bool
        requires frames { frames ≤ 2 ^ 31 }
        ensures { result ≡ unit_left self.now.cfg frames
            (next_of self.now.interval frames self.now.keys.items self.now.spot) self.now.spot }
    {
        if !self.spot.begun {
            return frames > 0;
        }
        if self.spot.start >= frames {
            return false;
        }
        let next = self.next_start(frames);
        self.has_group(next) || next < frames
    }

    // Whether the GOP up to `next` has a group left.
    fn has_group(&self, next: u64) -> bool
        requires later { self.now.spot.start < next }
        ensures { result ≡ group_left self.now.cfg next self.now.spot }
    {
        self.spot.number < group_count(&self.cfg, next - self.spot.start)
    }

    // How many accepted frames the next unit needs to have more than.
    fn needs(&self) -> u64
        ensures { result ≡ needs_at self.now.cfg self.now.spot }
    {
        if !self.spot.begun {
            return self.cfg.ahead();
        }
        self.spot.start + self.cfg.group_inputs() * (self.spot.number + 1) + self.cfg.ahead()
    }

    // The start behind that of the GOP.
    fn next_start(&self, frames: u64) -> u64
        requires start { self.now.spot.start < frames }
        requires frames { frames ≤ 2 ^ 31 }
        ensures value { result
            ≡ next_of self.now.interval frames self.now.keys.items self.now.spot }
        ensures later { self.now.spot.start < result }
        ensures within { result ≤ frames }
    {
        let key = self.next_key(frames);
        key.min(self.spot.start.saturating_add(self.interval).min(frames))
    }

    // The first key above the start of the last key that was built, or `limit`.
    fn next_key(&self, limit: u64) -> u64
        ensures value { result ≡ key_above limit self.now.keys.items self.now.spot.start }
        ensures later { self.now.spot.start < limit → self.now.spot.start < result }
    {
        match self.kept_key(self.passed) {
            Some(key) => key,
            None => limit,
        }
    }

    // A kept key.
    fn kept_key(&self, index: usize) -> Option<u64>
        ensures { result ≡ slice_get self.now.keys.items index }
    {
        self.keys.get(index).copied()
    }

    // Builds the next unit.
    fn build_next(&mut self, frames: u64) -> Result<(), OutOfMemory>
        requires frames { frames ≤ 2 ^ 31 }
        requires left { IsTrue (unit_left self.old.cfg frames
            (next_of self.old.interval frames self.old.keys.items self.old.spot) self.old.spot) }
        ensures cfg { self.new.cfg ≡ self.old.cfg }
        ensures interval { self.new.interval ≡ self.old.interval }
        ensures places { OnOk result (self.new.places.items
            ≡ places_from 0 (self.old.places.items ++ (unit_to self.old.cfg
            (next_of self.old.interval frames self.old.keys.items self.old.spot)
            self.old.spot).places)) }
        ensures spot { OnOk result (self.new.spot ≡ spot_to self.old.cfg
            (next_of self.old.interval frames self.old.keys.items self.old.spot) self.old.spot) }
        ensures keys { OnOk result (self.new.keys.items ≡ self.old.keys.items) }
        ensures later { OnOk result (self.old.spot.start ≤ self.new.spot.start) }
        ensures nearer { OnOk result
            (steps_left frames self.new.spot < steps_left frames self.old.spot) }
    {
        if !self.spot.begun {
            self.push_place(key_place(0))?;
            self.spot.begun = true;
            return Ok(());
        }
        let next = self.next_start(frames);
        if self.has_group(next) {
            self.push_group(next)?;
            self.spot.number += 1;
            return Ok(());
        }
        self.push_place(key_place(next))?;
        self.passed = passed_keys(&self.keys, self.passed, next);
        self.spot.start = next;
        self.spot.number = 0;
        Ok(())
    }

    // Puts the places of the GOP's next group at the end, where the next GOP starts at `next`.
    fn push_group(&mut self, next: u64) -> Result<(), OutOfMemory>
        requires later { self.old.spot.start < next }
        requires end { next ≤ 2 ^ 31 }
        ensures cfg { self.new.cfg ≡ self.old.cfg }
        ensures interval { self.new.interval ≡ self.old.interval }
        ensures spot { self.new.spot ≡ self.old.spot }
        ensures keys { self.new.keys.items ≡ self.old.keys.items }
        ensures places { OnOk result (self.new.places.items
            ≡ places_from 0 (self.old.places.items
            ++ map (row_place self.old.cfg self.old.spot.start (next - self.old.spot.start)
            self.old.spot.number) (rows self.old.cfg.depth))) }
    {
        let cfg = self.cfg;
        let start = self.spot.start;
        let number = self.spot.number;
        for row in cfg.rows() {
            self.push_place(row_place(&cfg, start, next - start, number, row))?;
        }
        Ok(())
    }

    // Puts a place at the end, unless it is cut and would be the first.
    fn push_place(&mut self, place: Place) -> Result<(), OutOfMemory>
        requires near { IsTrue (is_near place) }
        ensures cfg { self.new.cfg ≡ self.old.cfg }
        ensures interval { self.new.interval ≡ self.old.interval }
        ensures spot { self.new.spot ≡ self.old.spot }
        ensures keys { self.new.keys.items ≡ self.old.keys.items }
        ensures places { OnOk result (self.new.places.items
            ≡ places_from 0 (self.old.places.items ++ place ∷ [])) }
    {
        if place.command.is_none() && self.places.is_empty() {
            return Ok(());
        }
        let more = coding(&place);
        self.places.push_back(place)?;
        self.coded += more;
        Ok(())
    }
}

// How many keys, from the first on, aren't above `start`, where at least `passed` are so.
fn passed_keys(keys: &VecDeque<u64>, passed: usize, start: u64) -> usize
    requires { passed ≤ passed_keys start keys.now.items }
    ensures { result ≡ passed_keys start keys.now.items }
{
    for i in passed..keys.len() {
        if keys[i] > start {
            return i;
        }
    }
    keys.len()
}

// Drops the first place, and those behind it that are cut; how many of them code a frame.
fn drop_first(places: &mut VecDeque<Place>) -> u64
    ensures items { places.new.items ≡ places_from 0 (drop 1 places.old.items) }
    ensures count { result + coding_count places.new.items ≡ coding_count places.old.items }
{
    let Some(place) = places.pop_front() else {
        return 0;
    };
    drop_cut(places);
    coding(&place)
}

// Drops the places that are cut, as far as they stand first.
fn drop_cut(places: &mut VecDeque<Place>)
    ensures { places.new.items ≡ places_from 0 places.old.items }
{
    while let Some(place) = places.front().copied() {
        if place.command.is_some() {
            return;
        }
        places.pop_front();
    }
}
