// The two ends of a completion queue. C keeps an end's places, and each call tests them.
ghost use Rattle.std.specs.Prelude.{◌≡◌, ◌≢◌, ◌+◌, ◌-◌, ◌*◌, ◌<◌, ◌≤◌, ◌==◌, [], MatchOption, true};
ghost use Rattle.nvm_values.specs.Cqe.{cqe_bytes, cqe_of};
ghost use Rattle.nvm_model.specs.Memory.{written, zero_page};
ghost use Rattle.nvm_model.specs.Ring.{IsCqRing, IsGuestCq, cell, next_place, places_between};
ghost use Rattle.nvm_ring.specs.Moves.{after_post, after_reap, with_phase};
ghost use Rattle.nvm_ring.specs.Stands.{CountsFree, PostsNewest, ReapsOldest, TakesReaped};
ghost use Rattle.nvmigrate_c.specs.Entries.{IsCqEntry, cqe_in};
ghost use Rattle.nvmigrate_c.specs.Rings.{IsCq, IsGuest, cq_in, cqe_told, guest_cq_in, told};

use crate::code::{BAD_DOORBELL, BAD_FIELD, BAD_RING, FULL, NONE, OK};
use crate::entry::{CqEntry, flag};
use crate::ring::is_ring;
use nvm_ring::{CqRing, RingState};

/// The controller's end of a completion queue, of from 2 to 256 places: how many, that of the oldest entry, that of
/// the next one, and the phase tag of the next.
#[repr(C)]
#[derive(Clone, Copy)]
pub struct Cq {
    pub size: u16,
    pub head: u16,
    pub tail: u16,
    pub phase: u8,
}

/// The guest's end of a completion queue, of from 2 to 256 places: its place, and the phase tag of the next entry.
#[repr(C)]
#[derive(Clone, Copy)]
pub struct GuestCq {
    pub size: u16,
    pub head: u16,
    pub phase: u8,
}

impl Cq {
    /// The end for C.
    fn of(ring: &CqRing) -> Cq
        ensures value { cq_in result ≡ ring.now }
        ensures sound { IsCq result }
    {
        Cq::at(ring.state(), ring.phase())
    }

    /// The end at these places, whose next entry has that phase tag, for C.
    pub(crate) fn at(places: RingState, phase: bool) -> Cq
        ensures value { cq_in result ≡ record { ring = places; phase = phase } }
        ensures flag { result.phase ≤ 1 }
    {
        Cq {
            size: places.size,
            head: places.head,
            tail: places.tail,
            phase: flag(phase),
        }
    }

    /// The controller's end at these places; `None` exactly where they are none.
    pub(crate) fn controller(self) -> Option<CqRing>
        ensures { MatchOption result (IsCq self → ⊥) (λ r. IsCq self × (r ≡ cq_in self)) }
    {
        let ring = RingState {
            size: self.size,
            head: self.head,
            tail: self.tail,
        };
        if self.phase > 1 || !is_ring(ring, 256) {
            return None;
        }
        Some(CqRing::new(ring, self.phase == 1))
    }
}

impl GuestCq {
    /// The end for C.
    fn of(size: u16, ring: &nvm_ring::GuestCq) -> GuestCq
        requires size { size ≡ ring.now.size }
        requires range { (2 ≤ size) × (size ≤ 256) }
        ensures value { guest_cq_in result ≡ ring.now }
        ensures sound { IsGuest result }
    {
        GuestCq {
            size,
            head: ring.head(),
            phase: flag(ring.phase()),
        }
    }

    /// The guest's end at this place; `None` exactly where it is none.
    fn guest(self) -> Option<nvm_ring::GuestCq>
        ensures { MatchOption result (IsGuest self → ⊥) (λ r. IsGuest self × (r ≡ guest_cq_in self)) }
    {
        if self.phase > 1 || self.size < 2 || self.size > 256 || self.head >= self.size {
            return None;
        }
        Some(nvm_ring::GuestCq::at(self.size, self.head, self.phase == 1))
    }
}

/// The controller's end of an empty completion queue of from 2 to 256 places, over a zeroed page.
///
/// # Errors
///
/// `BAD_RING` exactly where there are fewer or more; `out` stays as it was.
#[unsafe(no_mangle)]
pub extern "C" fn nvmigrate_cq_new(size: u16, out: &mut Cq) -> u32
    ensures done { 2 ≤ size → size ≤ 256 → result ≡ OK }
    ensures few { size < 2 → result ≡ BAD_RING }
    ensures many { 256 < size → result ≡ BAD_RING }
    ensures value { result ≡ OK
        → cq_in out.new ≡ record { ring = record { size = size; head = 0; tail = 0 }; phase = true } }
    ensures start { result ≡ OK → IsCqRing (cq_in out.new) zero_page [] 0 }
    ensures sound { result ≡ OK → IsCq out.new }
    ensures same { result ≢ OK → out.new ≡ out.old }
{
    if size < 2 || size > 256 {
        return BAD_RING;
    }
    let empty = RingState {
        size,
        head: 0,
        tail: 0,
    };
    *out = Cq::of(&CqRing::new(empty, true));
    OK
}

/// How many completions may be posted before the guest rings the head doorbell, at most one fewer than the places.
///
/// # Errors
///
/// `BAD_RING` exactly where the struct is no ring; `out` stays as it was.
#[unsafe(no_mangle)]
pub extern "C" fn nvmigrate_cq_free(cq: &Cq, out: &mut u16) -> u32
    ensures bad { (IsCq cq.now → ⊥) → result ≡ BAD_RING }
    ensures done { IsCq cq.now → result ≡ OK }
    ensures value { result ≡ OK
        → out.new ≡ cq.now.size - 1 - places_between cq.now.size cq.now.head cq.now.tail }
    ensures counted { result ≡ OK → CountsFree (cq_in cq.now) out.new }
    ensures same { result ≢ OK → out.new ≡ out.old }
{
    let Some(ring) = cq.controller() else {
        return BAD_RING;
    };
    *out = ring.free();
    OK
}

/// The controller writes a completion into the queue's page, after the others, with the queue's phase tag in place of
/// its own (Base 2.1, Phase Tag).
///
/// # Errors
///
/// `BAD_RING` exactly where the struct is no ring, `BAD_FIELD` exactly where it is one and a number of the completion
/// is out of its range, `FULL` exactly where neither is so and the place after the tail is the head; then `cq` and
/// the page stay as they were.
#[unsafe(no_mangle)]
pub extern "C" fn nvmigrate_cq_post(cq: &mut Cq, page: &mut [u8; 4096], entry: &CqEntry) -> u32
    ensures bad { (IsCq cq.old → ⊥) → result ≡ BAD_RING }
    ensures field { IsCq cq.old → (IsCqEntry entry.now → ⊥) → result ≡ BAD_FIELD }
    ensures done { IsCq cq.old → IsCqEntry entry.now → next_place cq.old.size cq.old.tail ≢ cq.old.head
        → result ≡ OK }
    ensures full { IsCq cq.old → IsCqEntry entry.now → next_place cq.old.size cq.old.tail ≡ cq.old.head
        → result ≡ FULL }
    ensures moved { result ≡ OK → cq_in cq.new ≡ after_post (cq_in cq.old) }
    ensures page { result ≡ OK → page.new
        ≡ written page.old (16 * cq.old.tail) (cqe_bytes (with_phase (cq.old.phase == 1) (cqe_in entry.now))) }
    ensures sound { IsCq cq.old → IsCq cq.new }
    ensures same { result ≢ OK → (cq.new ≡ cq.old) × (page.new ≡ page.old) }
    ensures newest { IsCq cq.old → IsCqEntry entry.now
        → PostsNewest (cq_in cq.old) (cq_in cq.new) page.old page.new (cqe_in entry.now) (told result) }
{
    let Some(mut ring) = cq.controller() else {
        return BAD_RING;
    };
    let Some(cqe) = entry.cqe() else {
        return BAD_FIELD;
    };
    let Ok(()) = ring.post(page, &cqe) else {
        return FULL;
    };
    *cq = Cq::of(&ring);
    OK
}

/// The guest rings the head doorbell (Base 2.1, completion queue head doorbell).
///
/// # Errors
///
/// `BAD_RING` exactly where the struct is no ring, `BAD_DOORBELL` exactly where it is one and the value isn't one of
/// its places from head to tail in ring order; then it stays as it was.
#[unsafe(no_mangle)]
pub extern "C" fn nvmigrate_cq_set_head(cq: &mut Cq, value: u16) -> u32
    ensures bad { (IsCq cq.old → ⊥) → result ≡ BAD_RING }
    ensures accepted { IsCq cq.old → value < cq.old.size
        → places_between cq.old.size cq.old.head value ≤ places_between cq.old.size cq.old.head cq.old.tail
        → result ≡ OK }
    ensures past { IsCq cq.old
        → places_between cq.old.size cq.old.head cq.old.tail < places_between cq.old.size cq.old.head value
        → result ≡ BAD_DOORBELL }
    ensures high { IsCq cq.old → cq.old.size ≤ value → result ≡ BAD_DOORBELL }
    ensures moved { result ≡ OK → cq_in cq.new
        ≡ record { ring = record { size = cq.old.size; head = value; tail = cq.old.tail }; phase = cq.old.phase == 1 } }
    ensures sound { IsCq cq.old → IsCq cq.new }
    ensures same { result ≢ OK → cq.new ≡ cq.old }
    ensures rung { IsCq cq.old → TakesReaped (cq_in cq.old) (cq_in cq.new) value (told result) }
{
    let Some(mut ring) = cq.controller() else {
        return BAD_RING;
    };
    let Ok(()) = ring.set_head(value) else {
        return BAD_DOORBELL;
    };
    *cq = Cq::of(&ring);
    OK
}

/// The guest's end of a completion queue of from 2 to 256 places, over a zeroed page, of which nothing is posted.
///
/// # Errors
///
/// `BAD_RING` exactly where there are fewer or more; `out` stays as it was.
#[unsafe(no_mangle)]
pub extern "C" fn nvmigrate_guest_cq_new(size: u16, out: &mut GuestCq) -> u32
    ensures done { 2 ≤ size → size ≤ 256 → result ≡ OK }
    ensures few { size < 2 → result ≡ BAD_RING }
    ensures many { 256 < size → result ≡ BAD_RING }
    ensures value { result ≡ OK → guest_cq_in out.new ≡ record { size = size; head = 0; phase = true } }
    ensures start { result ≡ OK → IsGuestCq (guest_cq_in out.new) zero_page [] 0 }
    ensures sound { result ≡ OK → IsGuest out.new }
    ensures same { result ≢ OK → out.new ≡ out.old }
{
    if size < 2 || size > 256 {
        return BAD_RING;
    }
    *out = GuestCq::of(size, &nvm_ring::GuestCq::new(size));
    OK
}

/// The guest takes the oldest completion that it didn't take from the queue's page.
///
/// # Errors
///
/// `BAD_RING` exactly where the struct is no ring, `NONE` exactly where it is one and the cell at the guest's place
/// has the phase tag of the pass before (Base 2.1, Phase Tag); then `cq` and `out` stay as they were.
#[unsafe(no_mangle)]
pub extern "C" fn nvmigrate_guest_cq_reap(
    cq: &mut GuestCq,
    page: &[u8; 4096],
    out: &mut CqEntry,
) -> u32
    ensures bad { (IsGuest cq.old → ⊥) → result ≡ BAD_RING }
    ensures none { IsGuest cq.old → (cqe_of (cell 16 cq.old.head page.now)).phase ≢ (cq.old.phase == 1)
        → result ≡ NONE }
    ensures some { IsGuest cq.old → (cqe_of (cell 16 cq.old.head page.now)).phase ≡ (cq.old.phase == 1)
        → result ≡ OK }
    ensures entry { result ≡ OK → cqe_in out.new ≡ cqe_of (cell 16 cq.old.head page.now) }
    ensures fits { result ≡ OK → IsCqEntry out.new }
    ensures moved { result ≡ OK → guest_cq_in cq.new ≡ after_reap (guest_cq_in cq.old) }
    ensures sound { IsGuest cq.old → IsGuest cq.new }
    ensures same { result ≢ OK → (cq.new ≡ cq.old) × (out.new ≡ out.old) }
    ensures oldest { IsGuest cq.old
        → ReapsOldest (guest_cq_in cq.old) (guest_cq_in cq.new) page.now (cqe_told result out.new) }
{
    let Some(mut ring) = cq.guest() else {
        return BAD_RING;
    };
    let Some(cqe) = ring.reap(page) else {
        return NONE;
    };
    *out = CqEntry::of(cqe);
    *cq = GuestCq::of(cq.size, &ring);
    OK
}
