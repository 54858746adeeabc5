ghost use Rattle.std.specs.Prelude.{◌≡◌, ◌≤◌, ◌<◌, [], ℕ, List, Option, Some, length, min, ◌+◌, ◌-◌, ◌^◌, IfOk, OnOk, vec_len, vec_capacity};
ghost use Rattle.std.specs.Io.{WritesAtMost};
ghost use Rattle.std.specs.Io.KnownBytes.{WriteAppends};
ghost use Rattle.coding_base.specs.Faults.{HasCause};
ghost use Rattle.byte_streams.specs.Streams.{failed};

use crate::source::Failed;
use coding_base::OutOfMemory;
use std::alloc::Global;

/// Where bytes go.
pub trait Sink {
    /// The bytes that the sink holds, where it tells them.
    ghost held: { Self → Option (List ℕ) };

    /// How often the sink failed.
    ghost faults: { Self → ℕ };

    /// Takes bytes from the front of the piece, at least one of a piece that isn't empty, and says how many. A call that
    /// fails takes nothing.
    fn write(&mut self, piece: &[u8]) -> Result<usize, Failed>
        ensures bound { WritesAtMost result piece.now }
        ensures some { IfOk result (λ count. 0 < length piece.now → 0 < count) }
        ensures bytes { WriteAppends (held self.old) (held self.new) result piece.now }
        ensures cause { HasCause failed (faults self.old) (faults self.new) result };
}

/// A sink in memory with so much room and no more, some of whose calls fail.
#[derive(Drop)]
pub struct MemSink {
    held: Vec<u8>,
    room: usize,
    fails: Vec<u64>,
    calls: u64,
    faults: u64,
    ghost within: { vec_len held ≤ room },
    ghost reserved: { room ≤ vec_capacity held },
}

impl MemSink {
    ghost use Rattle.byte_streams.specs.Memory.{sink_held, sink_room, sink_fails, sink_calls, sink_faults};

    /// An empty sink, whose room is taken now. `fails` numbers the calls that are to fail, from 0.
    pub fn new(alloc: Global, room: usize, fails: Vec<u64>) -> Result<MemSink, OutOfMemory>
        ensures held { IfOk result (λ sink. sink_held sink ≡ []) }
        ensures room { IfOk result (λ sink. sink_room sink ≡ room) }
        ensures fails { IfOk result (λ sink. sink_fails sink ≡ fails.items) }
        ensures calls { IfOk result (λ sink. sink_calls sink ≡ 0) }
        ensures faults { IfOk result (λ sink. sink_faults sink ≡ 0) }
    {
        let held = Vec::with_capacity(alloc, room)?;
        Ok(MemSink {
            held,
            room,
            fails,
            calls: 0,
            faults: 0,
        })
    }

    /// What was written. No memory is taken.
    pub fn bytes(&self) -> &[u8]
        ensures { result.now ≡ sink_held self.now }
    {
        self.held.as_slice()
    }
}

impl Sink for MemSink {
    ghost use Rattle.byte_streams.specs.Memory.{sink_held, sink_faults, sink_room, sink_fails, sink_calls, sink_answer};

    ghost held = { λ s. Some s.held.items };

    ghost faults = { λ s. s.faults };

    /// Takes what fits, or fails where nothing of a piece fits, or where its call's number is among those that are to fail.
    fn write(&mut self, piece: &[u8]) -> Result<usize, Failed>
        ensures bound { WritesAtMost result piece.now }
        ensures some { IfOk result (λ count. 0 < length piece.now → 0 < count) }
        ensures bytes { WriteAppends (Some (sink_held self.old)) (Some (sink_held self.new))
            result piece.now }
        ensures cause { HasCause failed (sink_faults self.old) (sink_faults self.new) result }
        ensures exact { result ≡ sink_answer self.old piece.now }
        ensures steady { OnOk result (sink_faults self.new ≡ sink_faults self.old) }
        ensures room { sink_room self.new ≡ sink_room self.old }
        ensures fails { sink_fails self.new ≡ sink_fails self.old }
        ensures calls { sink_calls self.new ≡ min (sink_calls self.old + 1) (2 ^ 64 - 1) }
    {
        let call = self.calls;
        self.calls = call.saturating_add(1);
        let count = piece.len().min(self.room - self.held.len());
        if self.fails.contains(&call) || (count == 0 && !piece.is_empty()) {
            self.faults = self.faults.saturating_add(1);
            return Err(Failed);
        }
        match self.held.extend_from_slice(&piece[..count]) {
            Ok(()) => Ok(count),
            Err(_) => unreachable!(),
        }
    }
}
