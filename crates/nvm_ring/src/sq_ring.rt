ghost use Rattle.std.specs.Prelude.{◌≡◌, ◌≢◌, ◌+◌, ◌<◌, ◌≤◌, ◌↔◌, IsTrue, IfSome, IfOk, IfErr, MatchOption, MatchResult};
ghost use Rattle.nvm_values.specs.Sqe.{sqe_of};
ghost use Rattle.nvm_model.specs.Ring.{cell};
ghost use Rattle.nvm_ring.specs.Places.{IsRing};
ghost use Rattle.nvm_ring.specs.Moves.{after_fetch};
ghost use Rattle.nvm_ring.specs.Stands.{FetchesOldest};

use crate::place::{entry_at, place_after};
use crate::{BadDoorbell, RingState};
use nvm_values::Sqe;
use std::marker::Model;

/// The controller's end of a submission ring, of from 2 to 64 places. Contracts see its places.
#[derive(Drop)]
pub struct SqRing {
    ring: RingState,
}

impl Model for SqRing {
    ghost use Rattle.nvm_model.specs.declared.ring.RingState.{RingState};

    ghost Value = { RingState };

    ghost use Rattle.nvm_ring.specs.Places.{IsRing};

    ghost view = { λ sq. sq.ring };

    ghost invariant = { λ sq. IsRing 64 sq.ring };

    ghost inverse = { λ ring. record { ring = ring } };
}

impl SqRing {
    /// An end at these places: from 2 to 64 of them, and head and tail among them.
    pub fn new(ring: RingState) -> SqRing
        requires { IsRing 64 ring }
        ensures { result ≡ ring }
    {
        SqRing { ring }
    }

    /// The ring's places.
    pub fn state(&self) -> RingState
        ensures value { result ≡ self.now }
        ensures sound { IsRing 64 result }
    {
        self.ring
    }

    /// Whether there is no entry to fetch: head is tail.
    pub fn is_empty(&self) -> bool
        ensures { IsTrue result ↔ self.now.head ≡ self.now.tail }
    {
        self.ring.head == self.ring.tail
    }

    /// The guest rings the tail doorbell (Base 2.1, submission queue tail doorbell).
    ///
    /// # Errors
    ///
    /// `BadDoorbell` exactly where the value is the ring's size or more; the ring stays as it was.
    pub fn set_tail(&mut self, value: u16) -> Result<(), BadDoorbell>
        ensures exact { MatchResult result
            (λ _. value < self.old.size)
            (λ e. self.old.size ≤ value) }
        ensures moved { IfOk result (λ _. self.new ≡ record self.old { tail = value }) }
        ensures same { IfErr result (λ _. self.new ≡ self.old) }
        ensures told { IfErr result (λ e. e ≡ record { value = value }) }
    {
        if value >= self.ring.size {
            return Err(BadDoorbell { value });
        }
        self.ring.tail = value;
        Ok(())
    }

    /// Takes the oldest entry from the ring's page; `None` exactly where head is tail.
    pub fn fetch(&mut self, page: &[u8; 4096]) -> Option<Sqe>
        ensures exact { MatchOption result
            (self.old.head ≡ self.old.tail)
            (λ _. self.old.head ≢ self.old.tail) }
        ensures entry { IfSome result (λ e. e ≡ sqe_of (cell 64 self.old.head page.now)) }
        ensures moved { MatchOption result
            (self.new ≡ self.old)
            (λ _. self.new ≡ after_fetch self.old) }
        ensures oldest { FetchesOldest self.old self.new page.now result }
    {
        if self.ring.head == self.ring.tail {
            return None;
        }
        let entry = Sqe::from_bytes(&entry_at(page, self.ring.head));
        self.ring.head = place_after(self.ring.size, self.ring.head);
        Some(entry)
    }
}
