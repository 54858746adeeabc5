ghost use Rattle.std.specs.Prelude.{◌≡◌, ℕ, ◌+◌, ◌-◌, ◌<◌, ◌≤◌, ◌^◌, List, [], ◌∷◌, ◌++◌, IfOk, IfSome, IsTrue, length, take, drop, pos, ◌≤ℤ◌, nat_le, Option, nat_lt};
ghost use Rattle.std.specs.List.{slice_get, slice_index_or};
ghost use Rattle.std.specs.VecDeque.{deque_len, deque_capacity};
ghost use Rattle.pass_stats.specs.declared.metrics.RCFrameMetrics.{RCFrameMetrics};
ghost use Rattle.metrics_window.specs.Tallies.{tally_of, shown_of, more, less};
ghost use Rattle.metrics_window.specs.Cut.{before_last_key as before_last_key_of, from_last_key, any_key};
ghost use Rattle.metrics_window.specs.Window.{Window, IsWindow, AllKnown, with_taken, without_first};

use crate::tally::Tally;
use coding_base::OutOfMemory;
use pass_stats::RCFrameMetrics;
use std::alloc::Global;
use std::collections::VecDeque;
use std::marker::Model;

/// The subtype of a key frame.
const KEY: u8 = 0;

/// The metrics of frames ahead, the oldest first, in a ring of a fixed capacity. Contracts see the list of them, and the
/// capacity (`Window`).
#[derive(Debug, Drop)]
pub struct MetricsWindow {
    held: VecDeque<RCFrameMetrics>,
    capacity: usize,
    tally: Tally,
}

impl Model for MetricsWindow {
    ghost use Rattle.std.specs.VecDeque.{deque_capacity};
    ghost use Rattle.metrics_window.specs.Window.{Window, IsWindow};

    ghost Value = { Window };

    ghost view = { λ w. record { held = w.held.items; capacity = w.capacity } };

    ghost invariant = { λ w. IsWindow w.held.items w.capacity (deque_capacity w.held) w.tally };
}

impl MetricsWindow {
    /// A window without room.
    pub fn new(alloc: Global) -> MetricsWindow
        ensures { result ≡ record { held = []; capacity = 0 } }
    {
        MetricsWindow {
            held: VecDeque::new(alloc),
            capacity: 0,
            tally: Tally::new(),
        }
    }

    /// An empty window with room for the metrics of so many frames.
    pub fn with_room(alloc: Global, capacity: usize) -> Result<MetricsWindow, OutOfMemory>
        requires { capacity ≤ 2 ^ 19 }
        ensures { IfOk result (λ w. w ≡ record { held = []; capacity = capacity }) }
    {
        let held = VecDeque::with_capacity(alloc, capacity)?;
        Ok(MetricsWindow {
            held,
            capacity,
            tally: Tally::new(),
        })
    }

    /// How many metrics are held.
    pub fn len(&self) -> usize
        ensures value { result ≡ length self.now.held }
        ensures most { result ≤ 2 ^ 19 }
    {
        let _ = &self.tally;
        self.held.len()
    }

    pub fn is_full(&self) -> bool
        ensures { result ≡ nat_le self.now.capacity (length self.now.held) }
    {
        self.capacity <= self.held.len()
    }

    /// The oldest metrics.
    pub fn first(&self) -> Option<RCFrameMetrics>
        ensures value { result ≡ slice_get self.now.held 0 }
        ensures known { IfSome result (λ m. m.fti ≤ 4) }
    {
        let _ = &self.tally;
        self.held.front().copied()
    }

    /// What is counted over the metrics held.
    pub fn tally(&self) -> Tally
        ensures { result ≡ tally_of self.now.held }
    {
        self.tally
    }

    /// How many shown frames are among those held.
    pub fn shown(&self) -> i32
        ensures value { result ≡ shown_of self.now.held }
        ensures low { pos 0 ≤ℤ result }
        ensures high { result ≤ℤ pos (2 ^ 19) }
    {
        self.tally.shown
    }

    /// Takes the metrics of one frame more. No memory is taken.
    pub fn push(&mut self, m: RCFrameMetrics)
        requires known { m.fti ≤ 4 }
        requires room { length self.old.held < self.old.capacity }
        ensures { self.new ≡ with_taken m self.old }
    {
        self.held.push_back(m).unwrap();
        self.tally.add(&m);
    }

    /// Lets go of the oldest metrics, if there are any.
    pub fn pop(&mut self)
        ensures { self.new ≡ without_first self.old }
    {
        if let Some(m) = self.held.pop_front() {
            self.tally.take_off(&m);
        }
    }

    /// The place of the last key frame past the first metrics, or the number of metrics.
    fn last_key(&self) -> usize
        ensures cut { before_last_key_of self.now.held ≡ take result self.now.held }
        ensures within { result ≤ length self.now.held }
    {
        let mut i = self.held.len();
        while i > 1 {
            i -= 1;
            if self.held[i].fti == KEY {
                return i;
            }
        }
        self.held.len()
    }

    /// What is counted over the metrics before the last key frame past the first metrics; over all, where there is none.
    pub fn before_last_key(&self) -> Tally
        ensures { result ≡ tally_of (before_last_key_of self.now.held) }
    {
        let mut tally = self.tally;
        for i in self.last_key()..self.held.len() {
            tally.take_off(&self.held[i]);
        }
        tally
    }

    /// How many shown frames are among those from that key frame on.
    pub fn shown_from_last_key(&self) -> i32
        ensures value { result ≡ shown_of (from_last_key self.now.held) }
        ensures low { pos 0 ≤ℤ result }
        ensures high { result ≤ℤ pos (2 ^ 19) }
    {
        self.shown() - self.before_last_key().shown
    }
}
