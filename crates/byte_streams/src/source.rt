ghost use Rattle.std.specs.Prelude.{◌≡◌, ◌≤◌, [], ℕ, List, Option, Some, length, take, drop, min, ◌+◌, ◌-◌, ◌^◌, OnOk};
ghost use Rattle.std.specs.Io.{ReadsAtMost};
ghost use Rattle.std.specs.Io.KnownBytes.{ReadConsumes};
ghost use Rattle.coding_base.specs.Faults.{HasCause};
ghost use Rattle.byte_streams.specs.Streams.{failed};

use coding_base::Bytes;
use thiserror::Error;

/// A source or a sink failed, and its count of faults rose.
#[derive(Clone, Copy, Debug, PartialEq, Eq, Error)]
#[error("the stream failed")]
pub struct Failed;

/// Where bytes come from.
pub trait Source {
    /// The bytes that are left, where the source tells them.
    ghost left: { Self → Option (List ℕ) };

    /// How often the source failed.
    ghost faults: { Self → ℕ };

    /// Puts at most as many bytes as the buffer has into its front, and says how many; 0 for a buffer that isn't empty is
    /// the end. A call that fails takes nothing.
    fn read(&mut self, buf: &mut [u8]) -> Result<usize, Failed>
        ensures bound { ReadsAtMost result buf.new }
        ensures bytes { ReadConsumes (left self.old) (left self.new) result buf.new }
        ensures cause { HasCause failed (faults self.old) (faults self.new) result };
}

/// A source in memory, some of whose calls fail.
#[derive(Drop)]
pub struct MemSource {
    bytes: Bytes,
    taken: usize,
    fails: Vec<u64>,
    calls: u64,
    faults: u64,
    ghost within: { taken ≤ length bytes },
}

impl MemSource {
    ghost use Rattle.byte_streams.specs.Memory.{source_left, source_fails, source_calls, source_faults};

    /// A source with these bytes. `fails` numbers the calls that are to fail, from 0. No memory is taken.
    pub fn new(bytes: Bytes, fails: Vec<u64>) -> MemSource
        ensures left { source_left result ≡ bytes }
        ensures fails { source_fails result ≡ fails.items }
        ensures calls { source_calls result ≡ 0 }
        ensures faults { source_faults result ≡ 0 }
    {
        MemSource {
            bytes,
            taken: 0,
            fails,
            calls: 0,
            faults: 0,
        }
    }
}

impl Source for MemSource {
    ghost use Rattle.byte_streams.specs.Memory.{source_left, source_faults, source_fails, source_calls, source_answer};

    ghost left = { λ s. Some (drop s.taken s.bytes) };

    ghost faults = { λ s. s.faults };

    /// Gives as many bytes as there are and fit, or fails where its call's number is among those that are to fail.
    fn read(&mut self, buf: &mut [u8]) -> Result<usize, Failed>
        ensures bound { ReadsAtMost result buf.new }
        ensures bytes { ReadConsumes (Some (source_left self.old)) (Some (source_left self.new))
            result buf.new }
        ensures cause { HasCause failed (source_faults self.old) (source_faults self.new) result }
        ensures exact { result ≡ source_answer self.old (length buf.old) }
        ensures steady { OnOk result (source_faults self.new ≡ source_faults self.old) }
        ensures fails { source_fails self.new ≡ source_fails self.old }
        ensures calls { source_calls self.new ≡ min (source_calls self.old + 1) (2 ^ 64 - 1) }
    {
        let call = self.calls;
        self.calls = call.saturating_add(1);
        if self.fails.contains(&call) {
            self.faults = self.faults.saturating_add(1);
            return Err(Failed);
        }
        let (_, rest) = self.bytes.as_slice().split_at(self.taken);
        let count = copy_front(buf, rest);
        self.taken += count;
        Ok(count)
    }
}

// Copies as many bytes as there are and fit, and says how many.
fn copy_front(buf: &mut [u8], rest: &[u8]) -> usize
    ensures count { result ≡ min (length rest.now) (length buf.old) }
    ensures bytes { take result buf.new ≡ take result rest.now }
{
    let count = rest.len().min(buf.len());
    buf[..count].copy_from_slice(&rest[..count]);
    count
}
