ghost use Rattle.std.specs.Prelude.{◌≡◌, ℕ, List, ◌-◌, ◌≤◌, [], ◌++◌, length, min, take};
ghost use Rattle.pass_stats.specs.Collected.{filled};

use arrayvec::ArrayVec;
use std::marker::Model;

/// Collects the bytes of pass data, which may come in pieces, up to a goal.
#[derive(Drop)]
pub struct RCDeserialize {
    buffer: ArrayVec<u8, 68>,
}

impl Model for RCDeserialize {
    ghost use Rattle.std.specs.Prelude.{ℕ, List, ◌≤◌, length};

    ghost Value = { List ℕ };

    ghost view = { λ d. d.buffer.items };

    ghost invariant = { λ d. length d.buffer.items ≤ 68 };
}

impl Default for RCDeserialize {
    ghost is_default = { λ d. d ≡ [] };

    fn default() -> Self {
        RCDeserialize {
            buffer: ArrayVec::new(),
        }
    }
}

impl RCDeserialize {
    /// Takes from the front of `bytes` what is missing to `goal`, or all of them where they are
    /// fewer, and gives their number. Nothing is taken once `goal` bytes are held.
    pub fn fill(&mut self, bytes: &[u8], goal: usize) -> usize
        requires { goal ≤ 68 }
        ensures number { result ≡ min (length bytes.now) (goal - length self.old) }
        ensures joined { self.new ≡ self.old ++ take result bytes.now }

        // Bytes that come in two pieces are held as though they had come in one.
        ensures pieces { (more : List ℕ)
            → filled self.new more goal ≡ filled self.old (bytes.now ++ more) goal }
    {
        let missing = goal.saturating_sub(self.buffer.len());
        let taken = missing.min(bytes.len());
        self.buffer.try_extend_from_slice(&bytes[..taken]).unwrap();
        taken
    }

    /// The number of bytes held, at most 68.
    pub fn held(&self) -> usize
        ensures number { result ≡ length self.now }
        ensures fits { result ≤ 68 }
    {
        self.buffer.len()
    }

    /// The bytes held, in the order in which they came.
    pub fn as_slice(&self) -> &[u8]
        ensures { result.now ≡ self.now }
    {
        self.buffer.as_slice()
    }

    /// Lets go of all bytes.
    pub fn take(&mut self)
        ensures { self.new ≡ [] }
    {
        self.buffer.clear();
    }
}
