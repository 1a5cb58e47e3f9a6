ghost use Rattle.std.specs.Prelude.{◌≡◌, ◌≢◌, ◌<◌, ◌≤◌, [], true, IfSome, MatchOption};
ghost use Rattle.nvm_values.specs.Cqe.{cqe_of};
ghost use Rattle.nvm_model.specs.Memory.{zero_page};
ghost use Rattle.nvm_model.specs.Ring.{cell, IsGuestCq};
ghost use Rattle.nvm_ring.specs.Moves.{after_reap};
ghost use Rattle.nvm_ring.specs.Places.{IsGuestRing};
ghost use Rattle.nvm_ring.specs.Stands.{ReapsOldest};

use crate::place::{completion_at, place_after, turned};
use nvm_values::Cqe;
use std::marker::Model;

/// The guest's end of a completion ring, of from 2 to 256 places: its place, and the phase tag of the next entry.
#[derive(Drop)]
pub struct GuestCq {
    size: u16,
    head: u16,
    phase: bool,
}

impl Model for GuestCq {
    ghost use Rattle.nvm_model.specs.Ring.{GuestCqState};

    ghost Value = { GuestCqState };

    ghost use Rattle.nvm_ring.specs.Places.{IsGuestRing};

    ghost view = { λ cq. record { size = cq.size; head = cq.head; phase = cq.phase } };

    ghost invariant = { λ cq. IsGuestRing 256 (record { size = cq.size; head = cq.head; phase = cq.phase }) };

    ghost inverse = { λ cq. record { size = cq.size; head = cq.head; phase = cq.phase } };
}

impl GuestCq {
    /// An end of a ring of from 2 to 256 places, over a zeroed page, of which nothing is posted.
    pub fn new(size: u16) -> GuestCq
        requires least { 2 ≤ size }
        requires most { size ≤ 256 }
        ensures value { result ≡ record { size = size; head = 0; phase = true } }
        ensures start { IsGuestCq result zero_page [] 0 }
    {
        GuestCq {
            size,
            head: 0,
            phase: true,
        }
    }

    /// An end of a ring of from 2 to 256 places, at one of them, whose next entry has that phase tag.
    pub fn at(size: u16, head: u16, phase: bool) -> GuestCq
        requires { IsGuestRing 256 (record { size = size; head = head; phase = phase }) }
        ensures { result ≡ record { size = size; head = head; phase = phase } }
    {
        GuestCq { size, head, phase }
    }

    /// The phase tag of the next entry.
    pub fn phase(&self) -> bool
        ensures { result ≡ self.now.phase }
    {
        self.phase
    }

    /// The place of the next entry, which the doorbell is rung with.
    pub fn head(&self) -> u16
        ensures value { result ≡ self.now.head }
        ensures there { result < self.now.size }
    {
        self.head
    }

    /// Takes the oldest completion that wasn't taken from the ring's page; `None` exactly where the cell at the guest's
    /// place has the phase tag of the pass before (Base 2.1, Phase Tag).
    pub fn reap(&mut self, page: &[u8; 4096]) -> Option<Cqe>
        ensures exact { MatchOption result
            ((cqe_of (cell 16 self.old.head page.now)).phase ≢ self.old.phase)
            (λ _. (cqe_of (cell 16 self.old.head page.now)).phase ≡ self.old.phase) }
        ensures entry { IfSome result (λ c. c ≡ cqe_of (cell 16 self.old.head page.now)) }
        ensures moved { MatchOption result
            (self.new ≡ self.old)
            (λ _. self.new ≡ after_reap self.old) }
        ensures oldest { ReapsOldest self.old self.new page.now result }
    {
        let entry = Cqe::from_bytes(&completion_at(page, self.head));
        if entry.phase != self.phase {
            return None;
        }
        self.head = place_after(self.size, self.head);
        self.phase = turned(self.head, self.phase);
        Some(entry)
    }
}
