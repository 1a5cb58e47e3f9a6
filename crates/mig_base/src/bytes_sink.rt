ghost use Rattle.std.specs.Prelude.{◌≡◌, ◌+◌, ◌<◌, ◌≤◌, ◌⊎◌, ◌++◌, ◌↔◌, Some, [], Contains, IfOk, IsErr, OnErr, length, take, vec_capacity, vec_len};
ghost use Rattle.mig_base.specs.Count.{HasCause};
ghost use Rattle.mig_base.specs.Memory.{next_number};
ghost use Rattle.mig_base.specs.Stream.{with_more};

use crate::listed::is_listed;
use crate::{Failed, OutOfMemory, Sink};
use std::alloc::Global;
use std::marker::Model;

/// A sink in memory, which takes whole pieces while it has room, and fails at the calls that it was told.
#[derive(Drop)]
pub struct BytesSink {
    taken: Vec<u8>,
    room: usize,
    fails: Vec<u64>,
    calls: u64,
    faults: u64,
}

impl Model for BytesSink {
    ghost use Rattle.std.specs.Prelude.{◌≤◌, vec_capacity, vec_len};
    ghost use Rattle.mig_base.specs.Memory.{Writing};

    ghost Value = { Writing };

    ghost view = { λ s. record { bytes = s.taken.items; room = s.room; fails = s.fails.items; calls = s.calls; faults = s.faults } };

    ghost invariant = { λ s. (vec_len s.taken ≤ s.room) × (s.room ≤ vec_capacity s.taken) };
}

impl BytesSink {
    /// A sink that takes `room` bytes in all. The calls whose numbers, from 1, stand in `fails` fail, and so does a
    /// piece that passes the room. No write takes memory.
    ///
    /// # Errors
    ///
    /// `OutOfMemory` where there is no memory for the room.
    pub fn make(alloc: Global, room: usize, fails: Vec<u64>) -> Result<BytesSink, OutOfMemory>
        ensures bytes { IfOk result (λ sink. sink.bytes ≡ []) }
        ensures room { IfOk result (λ sink. sink.room ≡ room) }
        ensures fails { IfOk result (λ sink. sink.fails ≡ fails.items) }
        ensures calls { IfOk result (λ sink. sink.calls ≡ 0) }
        ensures faults { IfOk result (λ sink. sink.faults ≡ 0) }
    {
        let taken = Vec::with_capacity(alloc, room)?;
        Ok(BytesSink {
            taken,
            room,
            fails,
            calls: 0,
            faults: 0,
        })
    }

    /// What was taken.
    pub fn bytes(&self) -> &[u8]
        ensures { result.now ≡ self.now.bytes }
    {
        &self.taken
    }
}

impl Sink for BytesSink {
    ghost bytes = { λ s. Some s.bytes };

    ghost faults = { λ s. s.faults };

    fn write(&mut self, piece: &[u8]) -> Result<usize, Failed>
        ensures within { IfOk result (λ n. n ≤ length piece.now) }
        ensures some { IfOk result (λ n. 0 < length piece.now → 0 < n) }
        ensures taken { IfOk result (λ n. Some self.new.bytes ≡ with_more (take n piece.now) (Some self.old.bytes)) }
        ensures kept { OnErr result (self.new.bytes ≡ self.old.bytes) }
        ensures cause { HasCause self.old.faults self.new.faults result }

        // The piece is taken whole, but at the listed calls and past the room.
        ensures whole { IfOk result (λ n. n ≡ length piece.now) }
        ensures failed { IsErr result ↔ (Contains self.old.fails (next_number self.old.calls)
            ⊎ (self.old.room < length self.old.bytes + length piece.now)) }
        ensures rest { self.new ≡ record self.old {
          bytes = self.new.bytes;
          calls = next_number self.old.calls;
          faults = self.new.faults;
        } }
    {
        self.calls = self.calls.saturating_add(1);
        if is_listed(&self.fails, self.calls) || piece.len() > self.room - self.taken.len() {
            self.faults = self.faults.saturating_add(1);
            return Err(Failed);
        }
        append(&mut self.taken, piece);
        Ok(piece.len())
    }
}

/// Appends the piece to the bytes, which have room for it.
fn append(taken: &mut Vec<u8>, piece: &[u8])
    requires { vec_len taken.old + length piece.now ≤ vec_capacity taken.old }
    ensures items { taken.new.items ≡ taken.old.items ++ piece.now }
    ensures capacity { vec_capacity taken.old ≤ vec_capacity taken.new }
{
    if taken.extend_from_slice(piece).is_err() {
        unreachable!()
    }
}
