ghost use Rattle.std.specs.Prelude.{◌≡◌, ◌≢◌, ℕ, ◌+◌, ◌-◌, ◌<◌, ◌≤◌, min, not, nat_lt, ◌||◌, Bool, true, false, List, [], ◌∷◌, ◌++◌, length, take, drop, Option, Some, None, is_some, MatchResult, IsTrue, int_lt, pos, if◌then◌else◌};
ghost use Rattle.pass_stats.specs.Grammar.{frame_total};
ghost use Rattle.pass_stats.specs.Summary.{Spells, first_met};
ghost use Rattle.pass_stats.specs.declared.summary.RCSummary.{RCSummary};
ghost use Rattle.pass_data.specs.Given.{Given, refusal_by, goal as goal_of};
ghost use Rattle.pass_data.specs.declared.error.PassDataError.{PassDataError};
ghost use Rattle.pass_data.specs.Pieces.{wants as wants_of, part as part_of, given_bytes, answer};

use crate::error::PassDataError;
use crate::given::{GivenData, eight, read_packet};
use pass_stats::{RCSummary, RateControlError, parse_summary};

/// Reads a summary.
fn read_summary(bytes: &[u8]) -> Result<RCSummary, PassDataError>
    ensures { MatchResult result
        (λ s. (first_met bytes.now ≡ None)
        × (Spells (take 68 bytes.now) s.ntus s.nframes s.exp s.scale_sum)
        × (s.total ≡ frame_total s.nframes))
        (λ e. refusal_by (first_met bytes.now) ≡ Some e) }
{
    match parse_summary(bytes) {
        Ok(s) => Ok(s),
        Err(RateControlError::CorruptedSummary(why)) => Err(PassDataError::Corrupted(why)),
        Err(RateControlError::InvalidVersion(_)) => unreachable!(),
    }
}

fn bytes_from(bytes: &[u8], from: usize) -> &[u8]
    requires { from ≤ length bytes.now }
    ensures { result.now ≡ drop from bytes.now }
{
    &bytes[from..]
}

impl GivenData {
    /// Whether bytes are wanted.
    pub fn wants(&self, delay: i32, commands: i128) -> bool
        ensures { result ≡ wants_of delay commands self.now }
    {
        self.header.is_none() || self.needed(delay, commands) > 0
    }

    /// Takes bytes of a summary, up to its end.
    fn give_to_summary(&mut self, bytes: &[u8]) -> Result<usize, PassDataError>
        requires { is_some self.old.header ≡ false }
        ensures { let p = part_of bytes.now self.old in
            (self.new ≡ p.given) × (result ≡ answer p) }
    {
        let taken = self.bytes.fill(bytes, 68);
        if self.bytes.held() < 68 {
            return Ok(taken);
        }
        let read = read_summary(self.bytes.as_slice());
        self.bytes.take();
        match read {
            Ok(s) => {
                self.set_up(&s);
                Ok(taken)
            }
            Err(e) => Err(e),
        }
    }

    /// Takes bytes of a frame's metrics, up to their end.
    fn give_to_packet(&mut self, bytes: &[u8]) -> Result<usize, PassDataError>
        requires { is_some self.old.header ≡ true }
        ensures { let p = part_of bytes.now self.old in
            (self.new ≡ p.given) × (result ≡ answer p) }
    {
        let taken = self.bytes.fill(bytes, 8);
        if self.bytes.held() < 8 {
            return Ok(taken);
        }
        let read = read_packet(&eight(self.bytes.as_slice()));
        self.bytes.take();
        let m = match read {
            Ok(m) => m,
            Err(e) => return Err(e),
        };
        match self.take_metrics(m) {
            Ok(()) => Ok(taken),
            Err(e) => Err(e),
        }
    }

    fn give_part(&mut self, bytes: &[u8]) -> Result<usize, PassDataError>
        ensures part { let p = part_of bytes.now self.old in
            (self.new ≡ p.given) × (result ≡ answer p) }
        ensures unfinished { length self.old.bytes < goal_of self.old }
    {
        if self.header.is_some() {
            self.give_to_packet(bytes)
        } else {
            self.give_to_summary(bytes)
        }
    }

    fn give_all(&mut self, delay: i32, commands: i128, bytes: &[u8]) -> Result<usize, PassDataError>
        ensures { let p = given_bytes delay commands bytes.now self.old in
            (self.new ≡ p.given) × (result ≡ answer p) }
    {
        let mut taken = 0;
        while taken < bytes.len() && self.wants(delay, commands) {
            match self.give_part(bytes_from(bytes, taken)) {
                Ok(n) => taken += n,
                Err(e) => return Err(e),
            }
        }
        Ok(taken)
    }

    /// Takes bytes of a summary, and then of frames' metrics, as long as some are wanted in a second pass whose reservoir is evened out
    /// over `delay` temporal units, where so many commands were coded. Gives how many it took. Bytes may come in any pieces; what it
    /// did not take is to be offered again.
    ///
    /// # Errors
    ///
    /// What refuses the first summary, or the first frame's metrics, that isn't taken. Its bytes are let go, and what was taken before it stays.
    #[tactic(auto, using(crate::proofs::MemoryLaws::never_memory))]
    pub fn give(&mut self, delay: i32, commands: i128, bytes: &[u8]) -> Result<usize, PassDataError>
        ensures taken { let p = given_bytes delay commands bytes.now self.old in
            (self.new ≡ p.given) × (result ≡ answer p) }
        ensures never_memory { result ≢ Err PassDataError.OutOfMemory }
    {
        self.give_all(delay, commands, bytes)
    }
}
