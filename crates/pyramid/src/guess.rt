//! A guess of what the next temporal units code: a walk over the known places, and over guessed ones behind them.

ghost use Rattle.std.specs.Prelude.{◌≡◌, ℕ, ◌+◌, ◌^◌, ◌<◌, ◌≤◌, Bool, List, length, if◌then◌else◌};
ghost use Rattle.pyramid.specs.Numbers.{Numbers};
ghost use Rattle.pyramid.specs.Places.{settled_commands, place_row};
ghost use Rattle.pyramid.specs.Schedules.{IsSchedule};
ghost use Rattle.pyramid.specs.Guess.{guess, gop_input_start, known_at, endless_start_after, first_place, walk_from, moved, at_key, past_key, past_guessed_key, past_show, past_frame, key_at, has_whole_gop, past_row, past_place, whole_walk, answer_of, count_at, sum_of_counts};
ghost use Rattle.pyramid.specs.WalkBounds.{IsBelow};

use crate::place::PlaceRow;
use crate::{Command, InterConfig, Schedule};
use av1_settings::FrameType;

/// What the next temporal units are guessed to have.
#[derive(Clone, Copy, Debug, PartialEq, Eq)]
pub struct GuessedAhead {
    /// Key frames, other frames of levels 0, 1 and 2, and shows of coded frames.
    pub nframes: [u64; 5],
    /// Coded frames, without the keys that were guessed.
    pub frames: u64,
    /// Temporal units.
    pub tus: u64,
}

// A walk over the places from the one that is being coded on.
#[derive(Clone, Copy, Drop)]
pub(crate) struct GuessWalk {
    // How many places behind the one that is being coded it stands.
    pub(crate) behind: u64,
    // The input of the last key.
    pub(crate) key_input: u64,
    // How many places behind that of the last key it stands.
    pub(crate) since_key: u64,
    // What was met since the last key, that key too, by subtype.
    pub(crate) since: [u64; 5],
    // What was met before, by subtype.
    pub(crate) before: [u64; 5],
    // Coded frames, and temporal units.
    pub(crate) frames: u64,
    pub(crate) tus: u64,
    // Both as they were at the last key.
    pub(crate) frames_at_key: u64,
    pub(crate) tus_at_key: u64,
}

impl Schedule {
    /// What the next `wanted` temporal units are guessed to have, from the next place on, which is being coded. The call
    /// takes no memory.
    ///
    /// Known places tell where keys stand. All else follows the place table, with a key at each decided start and at
    /// most an interval behind the last, as if inputs never ended. Where a key is met behind the next place, only what
    /// was met before the last one counts. The next place is to be known, or no command coded yet: where commands were
    /// coded and none is known, nothing is said of the answer, since the keys that it would need are let go.
    pub fn guess(&self, wanted: u64) -> GuessedAhead
        requires { wanted < 2 ^ 31 }
        ensures known { (numbers : Numbers) (interval frames : ℕ) (flushed : Bool) (keys : List ℕ)
            (commands : ℕ) →
            commands < length (settled_commands numbers interval frames flushed keys) →
            IsSchedule numbers interval frames flushed keys commands self.now →
            result ≡ guess numbers interval frames flushed keys commands wanted }
        ensures opening { (numbers : Numbers) (interval frames : ℕ) (flushed : Bool)
            (keys : List ℕ) →
            IsSchedule numbers interval frames flushed keys 0 self.now →
            result ≡ guess numbers interval frames flushed keys 0 wanted }
    {
        self.whole_walk(wanted).answer()
    }

    /// The input with which the GOP of the next place starts, and 0 where no place is known.
    pub fn gop_input_start(&self) -> u64
        ensures { (numbers : Numbers) (interval frames : ℕ) (flushed : Bool) (keys : List ℕ)
            (commands : ℕ) →
            IsSchedule numbers interval frames flushed keys commands self.now →
            result ≡ gop_input_start numbers interval frames flushed keys commands }
    {
        self.walk_from().key_input
    }
}

impl Schedule {
    // The walk as it begins.
    fn walk_from(&self) -> GuessWalk
        ensures { result ≡ walk_from (first_place self.now.places.items) }
    {
        let (start, number) = match self.first() {
            Some(place) => (place.start, place.number),
            None => (0, 0),
        };
        GuessWalk {
            behind: 0,
            key_input: start,
            since_key: number,
            since: [0; 5],
            before: [0; 5],
            frames: 0,
            tus: 0,
            frames_at_key: 0,
            tus_at_key: 0,
        }
    }

    // The walk on to `wanted` temporal units.
    fn whole_walk(&self, wanted: u64) -> GuessWalk
        requires { wanted < 2 ^ 31 }
        ensures value { result ≡ whole_walk self.now.cfg self.now.interval self.now.keys.items
            self.now.places.items wanted }
        ensures below { IsBelow (2 ^ 50) result }
    {
        let mut walk = self.walk_from();
        for _ in 0..self.cfg.group_places() * wanted {
            if walk.tus >= wanted {
                return walk;
            }
            self.pass_place(&mut walk);
        }
        walk
    }

    // Past one place.
    fn pass_place(&self, walk: &mut GuessWalk)
        requires { IsBelow (2 ^ 50) walk.old }
        ensures { walk.new ≡ past_place self.now.cfg self.now.interval self.now.keys.items
            self.now.places.items walk.old }
    {
        match key_at(self.known_at(walk.behind), walk) {
            Some(input) => walk.pass_key(input),
            None => self.pass_row(walk),
        }
    }

    // The command that is known at a place; none for the one that is being coded.
    fn known_at(&self, behind: u64) -> Option<Command>
        ensures { result ≡ known_at self.now.places.items behind }
    {
        if behind == 0 {
            return None;
        }
        match self.places.get(behind as usize) {
            Some(place) => place.command,
            None => None,
        }
    }

    // Past a place that has no key.
    fn pass_row(&self, walk: &mut GuessWalk)
        requires { IsBelow (2 ^ 50) walk.old }
        ensures { walk.new ≡ past_row self.now.cfg self.now.interval self.now.keys.items walk.old }
    {
        let next = self.endless_start_after(walk.key_input);
        let row = row_of(&self.cfg, walk.since_key);
        let input = walk.key_input + row.position;
        if next > u128::from(input) {
            walk.pass_row(&row);
        } else if has_whole_gop(&self.cfg, next, walk) {
            walk.pass_guessed_key(input);
        } else {
            walk.move_on(1);
        }
    }

    // The start behind `start`, as if inputs never ended.
    fn endless_start_after(&self, start: u64) -> u128
        ensures { result ≡ endless_start_after self.now.interval self.now.keys.items start }
    {
        let limit = u128::from(start) + u128::from(self.interval);
        for i in 0..self.keys.len() {
            if self.keys[i] > start {
                return u128::from(self.keys[i]).min(limit);
            }
        }
        limit
    }
}

impl GuessWalk {
    // Goes on by so many places.
    fn move_on(&mut self, places: u64)
        requires below { IsBelow (2 ^ 50) self.old }
        requires few { places ≤ 2 }
        ensures { self.new ≡ moved places self.old }
    {
        self.behind += places;
        self.since_key += places;
    }

    // Takes its place as that of a key.
    fn reach_key(&mut self, input: u64)
        requires { IsBelow (2 ^ 50) self.old }
        ensures { self.new ≡ at_key input self.old }
    {
        self.key_input = input;
        self.since_key = 0;
        self.before = sum_of_counts(&self.before, &self.since);
        self.since = [1, 0, 0, 0, 0];
        self.frames_at_key = self.frames;
        self.tus_at_key = self.tus;
    }

    // Past a key.
    fn pass_key(&mut self, input: u64)
        requires { IsBelow (2 ^ 50) self.old }
        ensures { self.new ≡ past_key input self.old }
    {
        self.reach_key(input);
        self.frames += 1;
        self.tus += 1;
        self.behind += 1;
        self.since_key += 1;
    }

    // Past a key that is guessed, and the place behind it.
    fn pass_guessed_key(&mut self, input: u64)
        requires { IsBelow (2 ^ 50) self.old }
        ensures { self.new ≡ past_guessed_key input self.old }
    {
        self.reach_key(input);
        self.tus += 1;
        self.behind += 2;
        self.since_key += 2;
    }

    // Past a row that isn't cut.
    fn pass_row(&mut self, row: &PlaceRow)
        requires below { IsBelow (2 ^ 50) self.old }
        requires level { row.now.level ≤ 2 }
        ensures { self.new ≡ (if row.now.show_existing then past_show self.old
            else past_frame row.now.level row.now.shown self.old) }
    {
        if row.show_existing {
            self.pass_show();
        } else {
            self.pass_frame(row.level, row.shown);
        }
    }

    // Past a show of a coded frame.
    fn pass_show(&mut self)
        requires { IsBelow (2 ^ 50) self.old }
        ensures { self.new ≡ past_show self.old }
    {
        self.since[4] += 1;
        self.tus += 1;
        self.behind += 1;
        self.since_key += 1;
    }

    // Past a frame of a level.
    fn pass_frame(&mut self, level: u64, shown: bool)
        requires below { IsBelow (2 ^ 50) self.old }
        requires level { level ≤ 2 }
        ensures { self.new ≡ past_frame level shown self.old }
    {
        self.since[1 + level as usize] += 1;
        self.frames += 1;
        self.tus += u64::from(shown);
        self.behind += 1;
        self.since_key += 1;
    }

    // What was met, up to the last key unless that is the first place's own.
    fn answer(&self) -> GuessedAhead
        requires { IsBelow (2 ^ 50) self.now }
        ensures { result ≡ answer_of self.now }
    {
        if self.behind <= self.since_key {
            return GuessedAhead {
                nframes: sum_of_counts(&self.before, &self.since),
                frames: self.frames,
                tus: self.tus,
            };
        }
        GuessedAhead {
            nframes: self.before,
            frames: self.frames_at_key,
            tus: self.tus_at_key,
        }
    }
}

// The sum of two counts by subtype.
fn sum_of_counts(xs: &[u64; 5], ys: &[u64; 5]) -> [u64; 5]
    requires { (i : ℕ) → count_at xs.now i + count_at ys.now i ≤ 2 ^ 50 }
    ensures { result ≡ sum_of_counts xs.now ys.now }
{
    [
        xs[0] + ys[0],
        xs[1] + ys[1],
        xs[2] + ys[2],
        xs[3] + ys[3],
        xs[4] + ys[4],
    ]
}

// The input of the key at the walk's place, if there is one: a known key, or where no command is known the walk's own.
fn key_at(known: Option<Command>, walk: &GuessWalk) -> Option<u64>
    ensures { result ≡ key_at known walk.now }
{
    match known {
        Some(
            Command::Code {
                frame,
                kind: FrameType::KEY,
                ..
            },
        ) => Some(frame),
        Some(_) => None,
        None if walk.since_key == 0 => Some(walk.key_input),
        None => None,
    }
}

// Whether the whole groups so far reach the start `next`.
fn has_whole_gop(cfg: &InterConfig, next: u128, walk: &GuessWalk) -> bool
    requires { IsBelow (2 ^ 50) walk.now }
    ensures { result ≡ has_whole_gop cfg.now next walk.now }
{
    let inputs = walk.since_key / cfg.group_places() * cfg.group_inputs();
    next.saturating_sub(u128::from(walk.key_input)) <= u128::from(1 + inputs)
}

// The row of the place table for a place of a GOP, however long that is.
fn row_of(cfg: &InterConfig, place: u64) -> PlaceRow
    requires { place ≤ 2 ^ 50 }
    ensures value { result ≡ place_row cfg.now place }
    ensures level { result.level ≤ 2 }
    ensures position { result.position ≤ place + 16 }
{
    let behind_key = place.saturating_sub(1);
    let row = cfg.row(behind_key % cfg.group_places());
    PlaceRow {
        position: cfg.row_position(behind_key / cfg.group_places(), row),
        level: row.level,
        shown: row.shown,
        show_existing: row.existing,
    }
}
