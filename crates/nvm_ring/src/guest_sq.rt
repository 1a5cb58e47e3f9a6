ghost use Rattle.std.specs.Prelude.{◌≡◌, ◌≢◌, ◌+◌, ◌*◌, ◌<◌, ◌≤◌, ◌↔◌, [], IsTrue, IfOk, IfErr, MatchResult};
ghost use Rattle.nvm_values.specs.Sqe.{sqe_bytes, sqe_of};
ghost use Rattle.nvm_model.specs.Memory.{written, zero_page};
ghost use Rattle.nvm_model.specs.Ring.{next_place, IsSqRing};
ghost use Rattle.nvm_ring.specs.Places.{IsRing};
ghost use Rattle.nvm_ring.specs.Moves.{after_learn, after_submit};
ghost use Rattle.nvm_ring.specs.Stands.{SubmitsNewest};

use crate::place::{place_after, write_cell};
use crate::{BadDoorbell, Full, RingState};
use nvm_values::Sqe;
use std::marker::Model;

/// The guest's end of a submission ring, of from 2 to 64 places. Contracts see its places, where the head is the one
/// that was learnt last.
#[derive(Drop)]
pub struct GuestSq {
    ring: RingState,
}

impl Model for GuestSq {
    ghost use Rattle.nvm_model.specs.declared.ring.RingState.{RingState};

    ghost Value = { RingState };

    ghost use Rattle.nvm_ring.specs.Places.{IsRing};

    ghost view = { λ sq. sq.ring };

    ghost invariant = { λ sq. IsRing 64 sq.ring };

    ghost inverse = { λ ring. record { ring = ring } };
}

impl GuestSq {
    /// An end of an empty ring of from 2 to 64 places, over a zeroed page.
    pub fn new(size: u16) -> GuestSq
        requires least { 2 ≤ size }
        requires most { size ≤ 64 }
        ensures value { result ≡ record { size = size; head = 0; tail = 0 } }
        ensures start { IsSqRing result zero_page [] }
    {
        GuestSq {
            ring: RingState {
                size,
                head: 0,
                tail: 0,
            },
        }
    }

    /// An end at these places: from 2 to 64 of them, and tail and the head that was learnt last among them.
    pub fn at(ring: RingState) -> GuestSq
        requires { IsRing 64 ring }
        ensures { result ≡ ring }
    {
        GuestSq { ring }
    }

    /// The ring's places, with the head that was learnt last.
    pub fn state(&self) -> RingState
        ensures value { result ≡ self.now }
        ensures sound { IsRing 64 result }
    {
        self.ring
    }

    /// Whether there is no free place, by the head that was learnt last.
    pub fn is_full(&self) -> bool
        ensures { IsTrue result ↔ next_place self.now.size self.now.tail ≡ self.now.head }
    {
        place_after(self.ring.size, self.ring.tail) == self.ring.head
    }

    /// Writes an entry into the ring's page, after the others, and answers the new tail, which the doorbell is rung with.
    ///
    /// # Errors
    ///
    /// `Full` exactly where the place after the tail is the head that was learnt last; ring and page stay as they were.
    pub fn submit(&mut self, page: &mut [u8; 4096], e: &Sqe) -> Result<u16, Full>
        ensures exact { MatchResult result
            (λ _. next_place self.old.size self.old.tail ≢ self.old.head)
            (λ _. next_place self.old.size self.old.tail ≡ self.old.head) }
        ensures tail { IfOk result (λ tail. tail ≡ self.new.tail) }
        ensures moved { MatchResult result
            (λ _. self.new ≡ after_submit self.old)
            (λ _. self.new ≡ self.old) }
        ensures page { MatchResult result
            (λ _. page.new ≡ written page.old (64 * self.old.tail) (sqe_bytes e.now))
            (λ _. page.new ≡ page.old) }
        ensures back { IfOk result (λ _. sqe_of (sqe_bytes e.now) ≡ e.now) }
        ensures newest { SubmitsNewest self.old page.old page.new e.now result }
    {
        let next = place_after(self.ring.size, self.ring.tail);
        if next == self.ring.head {
            return Err(Full);
        }
        let bytes = e.to_bytes();
        write_cell(page, 64 * usize::from(self.ring.tail), &bytes);
        self.ring.tail = next;
        Ok(next)
    }

    /// Learns the controller's head, as a completion tells it (Base 2.1, SQ Head Pointer).
    ///
    /// # Errors
    ///
    /// `BadDoorbell` exactly where the head is the ring's size or more; the ring stays as it was.
    pub fn learn(&mut self, head: u16) -> Result<(), BadDoorbell>
        ensures exact { MatchResult result
            (λ _. head < self.old.size)
            (λ _. self.old.size ≤ head) }
        ensures learnt { self.new ≡ after_learn head self.old }
        ensures told { IfErr result (λ e. e ≡ record { value = head }) }
    {
        if head >= self.ring.size {
            return Err(BadDoorbell { value: head });
        }
        self.ring.head = head;
        Ok(())
    }
}
