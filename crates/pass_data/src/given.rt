ghost use Rattle.std.specs.Prelude.{◌≡◌, ℕ, ◌+◌, ◌-◌, ◌*◌, ◌^◌, ◌<◌, ◌≤◌, ◌==◌, not, nat_lt, nat_le, ◌&&◌, List, [], ◌∷◌, length, take, IfOk, IfSome, MatchResult, Option, Some, None, is_some, true, false, IsTrue, IsFalse, slice_get, ℤ, pos, ◌+ℤ◌, ◌-ℤ◌, ◌≤ℤ◌, int_le, int_lt, if◌then◌else◌};
ghost use Rattle.std.specs.Int.{int_min, int_max};
ghost use Rattle.fixed_log.specs.Within.{IsWithin};
ghost use Rattle.pass_stats.specs.Metric.{subtype_at};
ghost use Rattle.pass_stats.specs.Grammar.{any_zero};
ghost use Rattle.pass_stats.specs.declared.summary.RCSummary.{RCSummary};
ghost use Rattle.pass_stats.specs.declared.metrics.RCFrameMetrics.{RCFrameMetrics};
ghost use Rattle.metrics_window.specs.Tallies.{tally_of, all_frames, shown_of, less};
ghost use Rattle.metrics_window.specs.Window.{Window};
ghost use Rattle.pass_data.specs.Given.{Given, IsHeader, goal_by, goal as goal_of, current as current_of, without_metrics as without_metrics_of, coded as coded_of, needed_in_window as needed_in_window_of, needed_by_header, needed as needed_of, has_next as has_next_of, into_window, with_metrics as with_metrics_of, with_values, sent, verdict, metrics_at, bad_packet};

use crate::error::PassDataError;
use coding_base::OutOfMemory;
use metrics_window::{MetricsWindow, Tally};
use pass_stats::{RCDeserialize, RCFrameMetrics, RCSummary, parse_metrics};
use std::alloc::Global;
use std::marker::Model;

/// What stays of a summary.
#[derive(Clone, Copy, Debug, PartialEq, Eq)]
pub struct Header {
    /// Temporal units, at least 1.
    pub ntus: i32,
    /// Frames of all subtypes.
    pub total: i32,
    /// An exponent for each subtype, none of them 0.
    pub exp: [u8; 4],
}

/// What a second pass was given. Contracts see it as a record (`Given`).
#[derive(Drop)]
pub struct GivenData {
    pub(crate) bytes: RCDeserialize,
    pub(crate) header: Option<Header>,
    pub(crate) left: Tally,
    pub(crate) is_finite: bool,
    pub(crate) window: MetricsWindow,
    pub(crate) next: Option<RCFrameMetrics>,
}

impl Model for GivenData {
    ghost use Rattle.pass_data.specs.Given.{Given, IsGiven};

    ghost Value = { Given };

    ghost view = { λ g. record {
      bytes = g.bytes;
      header = g.header;
      left = g.left;
      is_finite = g.is_finite;
      window = g.window;
      next = g.next;
    } };

    ghost invariant = { λ g. IsGiven g.bytes g.header g.next };
}

impl GivenData {
    /// Nothing is given, for a buffer of the whole file.
    pub fn new(alloc: Global) -> GivenData
        ensures { result ≡ record {
          bytes = [];
          header = None;
          left = tally_of [];
          is_finite = false;
          window = record { held = []; capacity = 0 };
          next = None;
        } }
    {
        GivenData {
            bytes: RCDeserialize::default(),
            header: None,
            left: Tally::new(),
            is_finite: false,
            window: MetricsWindow::new(alloc),
            next: None,
        }
    }

    /// Takes a window with room for the metrics of so many frames: the buffer is finite from now on. Where memory is wanting nothing changes.
    pub fn take_window(&mut self, alloc: Global, capacity: usize) -> Result<(), OutOfMemory>
        requires { capacity ≤ 2 ^ 19 }
        ensures { MatchResult result
            (λ _. self.new ≡ record self.old {
              is_finite = true;
              window = record { held = []; capacity = capacity };
            })
            (λ _. self.new ≡ self.old) }
    {
        let window = MetricsWindow::with_room(alloc, capacity)?;
        self.window = window;
        self.is_finite = true;
        Ok(())
    }
}

impl GivenData {
    /// The summary's header, once there is one.
    pub fn header(&self) -> Option<Header>
        ensures value { result ≡ self.now.header }
        ensures in_grammar { IfSome result IsHeader }
    {
        let _ = &self.bytes;
        self.header
    }

    /// How many bytes are held of a summary, or of a frame's metrics, that isn't whole yet.
    pub fn held_bytes(&self) -> usize
        ensures value { result ≡ length self.now.bytes }
        ensures fits { result ≤ 68 }
    {
        self.bytes.held()
    }

    /// What the summary counts, less the frames that were coded.
    pub fn left(&self) -> Tally
        ensures { result ≡ self.now.left }
    {
        self.left
    }

    /// Whether the buffer is a window of frames ahead.
    pub fn is_finite(&self) -> bool
        ensures { result ≡ self.now.is_finite }
    {
        self.is_finite
    }

    /// The metrics of the next frame.
    pub(crate) fn current(&self) -> Option<RCFrameMetrics>
        ensures value { result ≡ current_of self.now }
        ensures known { IfSome result (λ m. m.fti ≤ 4) }
    {
        let _ = &self.bytes;
        if self.is_finite {
            self.window.first()
        } else {
            self.next
        }
    }

    fn let_go(&mut self, m: &RCFrameMetrics)
        requires { m.now.fti ≤ 4 }
        ensures { self.new ≡ without_metrics_of m.now self.old }
    {
        self.left.take_off(m);
        self.window.pop();
        self.next = None;
    }

    /// The next frame is coded: its metrics are taken off what is left, and leave.
    #[tactic(auto, unfolding(crate::specs::Given::coded))]
    pub fn code(&mut self)
        ensures { self.new ≡ coded_of self.old }
    {
        if let Some(m) = self.current() {
            self.let_go(&m);
        }
    }

    fn needed_in_window(&self, delay: i32, header: &Header) -> i32
        ensures { result ≡ needed_in_window_of delay header.now self.now }
    {
        let frames = self.left.all_frames();
        window_needs(
            delay,
            header.ntus,
            self.window.shown(),
            frames,
            self.window.len(),
        )
    }

    fn needed_by_header(&self, delay: i32, commands: i128, header: &Header) -> i32
        ensures { result ≡ needed_by_header delay commands header.now self.now }
    {
        if commands >= header.total as i128 {
            0
        } else if self.is_finite {
            self.needed_in_window(delay, header)
        } else if self.next.is_some() {
            0
        } else {
            1
        }
    }

    /// Of how many frames metrics are needed in a second pass, where the reservoir is evened out over `delay` temporal units
    /// and so many commands were coded. Without a summary, or once as many were coded as it counts, none.
    #[tactic(auto, unfolding(crate::specs::Given::needed))]
    pub fn needed(&self, delay: i32, commands: i128) -> i32
        ensures { result ≡ needed_of delay commands self.now }
    {
        match &self.header {
            Some(header) => self.needed_by_header(delay, commands, header),
            None => 0,
        }
    }

    /// Whether the next frame's metrics are there, where those of so many frames are needed.
    pub fn has_next(&self, needed: i32) -> bool
        ensures { result ≡ has_next_of needed self.now }
    {
        if self.is_finite {
            needed <= 0 && self.window.len() > 0
        } else {
            self.next.is_some()
        }
    }
}

impl GivenData {
    /// Takes the metrics of a frame, if there is room for them.
    pub(crate) fn take_metrics(&mut self, m: RCFrameMetrics) -> Result<(), PassDataError>
        requires { m.fti ≤ 4 }
        ensures { let o = with_metrics_of m self.old in
            (self.new ≡ o.given) × (result ≡ verdict o.refused) }
    {
        if self.is_finite {
            self.take_into_window(m)
        } else {
            self.next = Some(m);
            Ok(())
        }
    }

    fn take_into_window(&mut self, m: RCFrameMetrics) -> Result<(), PassDataError>
        requires { m.fti ≤ 4 }
        ensures { let o = into_window m self.old in
            (self.new ≡ o.given) × (result ≡ verdict o.refused) }
    {
        if self.window.is_full() {
            return Err(PassDataError::TooManyFrames);
        }
        self.window.push(m);
        Ok(())
    }

    /// Takes the summary. What was held of another one is let go.
    pub fn set_up(&mut self, s: &RCSummary)
        ensures { self.new ≡ with_values s.now.ntus s.now.nframes s.now.exp s.now.scale_sum
            s.now.total self.old }
    {
        self.bytes.take();
        self.header = Some(Header {
            ntus: s.ntus,
            total: s.total,
            exp: s.exp,
        });
        self.left = Tally {
            counts: s.nframes,
            sums: widened(&s.scale_sum),
            shown: s.ntus,
        };
    }

    /// Takes a frame's metrics, 8 bytes, where they are needed. Where they are refused nothing changes.
    ///
    /// # Errors
    ///
    /// The first of `WrongSize`, `BadPacket`, `NotNeeded` and `TooManyFrames` that holds.
    #[tactic(auto, unfolding(crate::specs::Given::sent))]
    pub fn send(&mut self, is_needed: bool, bytes: &[u8]) -> Result<(), PassDataError>
        ensures { let o = sent is_needed bytes.now self.old in
            (self.new ≡ o.given) × (result ≡ verdict o.refused) }
    {
        if bytes.len() != 8 {
            return Err(PassDataError::WrongSize(bytes.len()));
        }
        let m = match read_packet(&eight(bytes)) {
            Ok(m) => m,
            Err(e) => return Err(e),
        };
        if is_needed {
            self.take_metrics(m)
        } else {
            Err(PassDataError::NotNeeded)
        }
    }
}

/// The temporal units that are looked at, less those that are held.
fn units_ahead(delay: i32, ntus: i32, shown: i32) -> i64
    requires { pos 0 ≤ℤ shown }
    ensures value { result ≡ int_min delay ntus -ℤ shown }
    ensures most { result ≤ℤ pos (2 ^ 31 - 1) }
{
    delay.min(ntus) as i64 - shown as i64
}

/// The lesser of both, but not less than 0.
fn frames_wanted(units: i64, frames: i64) -> i32
    requires { units ≤ℤ pos (2 ^ 31 - 1) }
    ensures { result ≡ int_max (int_min units frames) (pos 0) }
{
    if units <= 0 || frames <= 0 {
        0
    } else if units < frames {
        units as i32
    } else {
        frames as i32
    }
}

fn frames_not_held(frames: i64, held: usize) -> i64
    requires frames { IsWithin (2 ^ 34) frames }
    requires held { held ≤ 2 ^ 19 }
    ensures { result ≡ frames -ℤ pos held }
{
    frames - held as i64
}

/// Of how many frames metrics are missing in a window.
fn window_needs(delay: i32, ntus: i32, shown: i32, frames: i64, held: usize) -> i32
    requires shown { pos 0 ≤ℤ shown }
    requires frames { IsWithin (2 ^ 34) frames }
    requires held { held ≤ 2 ^ 19 }
    ensures { result ≡ int_max
        (int_min (int_min delay ntus -ℤ shown) (frames -ℤ pos held)) (pos 0) }
{
    frames_wanted(
        units_ahead(delay, ntus, shown),
        frames_not_held(frames, held),
    )
}

fn widened(sums: &[i64; 4]) -> [i128; 4]
    ensures { result ≡ sums.now }
{
    [
        sums[0] as i128,
        sums[1] as i128,
        sums[2] as i128,
        sums[3] as i128,
    ]
}

/// All of eight bytes.
pub(crate) fn eight(bytes: &[u8]) -> [u8; 8]
    requires { length bytes.now ≡ 8 }
    ensures { result ≡ bytes.now }
{
    *bytes.first_chunk().unwrap()
}

/// Reads a frame's metrics.
pub(crate) fn read_packet(bytes: &[u8; 8]) -> Result<RCFrameMetrics, PassDataError>
    ensures { MatchResult result
        (λ m. (nat_lt 4 (subtype_at bytes.now) ≡ false) × (m ≡ metrics_at bytes.now) × (m.fti ≤ 4))
        (λ e. (nat_lt 4 (subtype_at bytes.now) ≡ true) × (e ≡ bad_packet bytes.now)) }
{
    match parse_metrics(bytes) {
        Ok(m) => Ok(m),
        Err(e) => Err(PassDataError::BadPacket(e)),
    }
}
