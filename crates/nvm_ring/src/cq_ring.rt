ghost use Rattle.std.specs.Prelude.{◌≡◌, ◌≢◌, ◌+◌, ◌-◌, ◌*◌, ◌<◌, ◌≤◌, [], IsTrue, IfOk, IfErr, MatchResult};
ghost use Rattle.nvm_values.specs.Cqe.{cqe_bytes};
ghost use Rattle.nvm_model.specs.Memory.{written, zero_page};
ghost use Rattle.nvm_model.specs.Ring.{next_place, places_between, IsCqRing};
ghost use Rattle.nvm_ring.specs.Places.{IsRing};
ghost use Rattle.nvm_ring.specs.Moves.{IsReadBack, after_post, with_phase};
ghost use Rattle.nvm_ring.specs.Stands.{CountsFree, PostsNewest, TakesReaped};

use crate::place::{distance, place_after, turned, write_cell};
use crate::{BadDoorbell, Full, RingState};
use nvm_values::Cqe;
use std::marker::Model;

/// The controller's end of a completion ring, of from 2 to 256 places: its places, and the phase tag of the next entry.
#[derive(Drop)]
pub struct CqRing {
    ring: RingState,
    phase: bool,
}

impl Model for CqRing {
    ghost use Rattle.nvm_model.specs.Ring.{CqState};

    ghost Value = { CqState };

    ghost use Rattle.nvm_ring.specs.Places.{IsRing};

    ghost view = { λ cq. record { ring = cq.ring; phase = cq.phase } };

    ghost invariant = { λ cq. IsRing 256 cq.ring };

    ghost inverse = { λ cq. record { ring = cq.ring; phase = cq.phase } };
}

impl CqRing {
    /// An end at these places, from 2 to 256 of them, and head and tail among them, whose next entry has that phase tag.
    pub fn new(ring: RingState, phase: bool) -> CqRing
        requires { IsRing 256 ring }
        ensures value { result ≡ record { ring = ring; phase = phase } }
        ensures start { ring.head ≡ 0 → ring.tail ≡ 0 → IsTrue phase → IsCqRing result zero_page [] 0 }
    {
        CqRing { ring, phase }
    }

    /// The ring's places.
    pub fn state(&self) -> RingState
        ensures value { result ≡ self.now.ring }
        ensures sound { IsRing 256 result }
    {
        self.ring
    }

    /// The phase tag of the next entry.
    pub fn phase(&self) -> bool
        ensures { result ≡ self.now.phase }
    {
        self.phase
    }

    /// How many entries may be posted before the guest rings the head doorbell: at most one fewer than the places.
    pub fn free(&self) -> u16
        ensures value { result
            ≡ self.now.ring.size - 1 - places_between self.now.ring.size self.now.ring.head self.now.ring.tail }
        ensures counted { CountsFree self.now result }
    {
        self.ring.size - 1 - distance(self.ring.size, self.ring.head, self.ring.tail)
    }

    /// Writes a completion into the ring's page, after the others, with the ring's phase tag in place of its own
    /// (Base 2.1, Phase Tag). The ring's phase turns over where the tail comes back to place 0.
    ///
    /// # Errors
    ///
    /// `Full` exactly where the place after the tail is the head; ring and page stay as they were.
    pub fn post(&mut self, page: &mut [u8; 4096], c: &Cqe) -> Result<(), Full>
        ensures exact { MatchResult result
            (λ _. next_place self.old.ring.size self.old.ring.tail ≢ self.old.ring.head)
            (λ _. next_place self.old.ring.size self.old.ring.tail ≡ self.old.ring.head) }
        ensures moved { MatchResult result
            (λ _. self.new ≡ after_post self.old)
            (λ _. self.new ≡ self.old) }
        ensures page { MatchResult result
            (λ _. page.new
            ≡ written page.old (16 * self.old.ring.tail) (cqe_bytes (with_phase self.old.phase c.now)))
            (λ _. page.new ≡ page.old) }
        ensures back { IfOk result (λ _. IsReadBack (with_phase self.old.phase c.now)) }
        ensures newest { PostsNewest self.old self.new page.old page.new c.now result }
    {
        let next = place_after(self.ring.size, self.ring.tail);
        if next == self.ring.head {
            return Err(Full);
        }
        let mut entry = *c;
        entry.phase = self.phase;
        let bytes = entry.to_bytes();
        write_cell(page, 16 * usize::from(self.ring.tail), &bytes);
        self.ring.tail = next;
        self.phase = turned(next, self.phase);
        Ok(())
    }

    /// The guest rings the head doorbell (Base 2.1, completion queue head doorbell).
    ///
    /// # Errors
    ///
    /// `BadDoorbell` exactly where the value isn't one of the places from head to tail in ring order; the ring stays as
    /// it was.
    pub fn set_head(&mut self, value: u16) -> Result<(), BadDoorbell>
        ensures accepted { IfOk result (λ _. (value < self.old.ring.size)
            × (places_between self.old.ring.size self.old.ring.head value
            ≤ places_between self.old.ring.size self.old.ring.head self.old.ring.tail)) }
        ensures refused { IfErr result (λ _. value < self.old.ring.size
            → places_between self.old.ring.size self.old.ring.head self.old.ring.tail
            < places_between self.old.ring.size self.old.ring.head value) }
        ensures moved { IfOk result
            (λ _. self.new ≡ record { ring = record self.old.ring { head = value }; phase = self.old.phase }) }
        ensures same { IfErr result (λ _. self.new ≡ self.old) }
        ensures told { IfErr result (λ e. e ≡ record { value = value }) }
        ensures frees { places_between self.new.ring.size self.new.ring.head self.new.ring.tail
            ≤ places_between self.old.ring.size self.old.ring.head self.old.ring.tail }
        ensures rung { TakesReaped self.old self.new value result }
    {
        let ring = self.ring;
        if value >= ring.size {
            return Err(BadDoorbell { value });
        }
        if distance(ring.size, ring.head, value) > distance(ring.size, ring.head, ring.tail) {
            return Err(BadDoorbell { value });
        }
        self.ring.head = value;
        Ok(())
    }
}
