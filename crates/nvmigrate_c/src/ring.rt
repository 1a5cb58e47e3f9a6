// The two ends of a submission queue. C keeps an end's places, and each call tests them.
ghost use Rattle.std.specs.Prelude.{◌≡◌, ◌≢◌, ◌*◌, ◌<◌, ◌≤◌, ◌↔◌, [], IsTrue, MatchOption};
ghost use Rattle.nvm_values.specs.Sqe.{sqe_bytes, sqe_of};
ghost use Rattle.nvm_model.specs.Memory.{written, zero_page};
ghost use Rattle.nvm_model.specs.Ring.{IsSqRing, cell, next_place};
ghost use Rattle.nvm_ring.specs.Places.{IsRing};
ghost use Rattle.nvm_ring.specs.Moves.{after_fetch, after_learn, after_submit};
ghost use Rattle.nvm_ring.specs.Stands.{FetchesOldest, SubmitsNewest};
ghost use Rattle.nvmigrate_c.specs.Entries.{sqe_in};
ghost use Rattle.nvmigrate_c.specs.Rings.{IsGuestSq, IsSq, guest_sq_in, sq_in, sqe_told, told};

use crate::code::{BAD_DOORBELL, BAD_RING, FULL, NONE, OK};
use crate::entry::SqEntry;
use nvm_ring::{RingState, SqRing};

/// The controller's end of a submission queue, of from 2 to 64 places: how many, that of the oldest entry, and that of
/// the next one, as the doorbell was rung last.
#[repr(C)]
#[derive(Clone, Copy)]
pub struct Sq {
    pub size: u16,
    pub head: u16,
    pub tail: u16,
}

/// The guest's end of a submission queue, of from 2 to 64 places: how many, the controller's head as it was learnt
/// last, and the place of the next entry.
#[repr(C)]
#[derive(Clone, Copy)]
pub struct GuestSq {
    pub size: u16,
    pub head: u16,
    pub tail: u16,
}

impl Sq {
    /// The places for C.
    pub(crate) fn of(ring: RingState) -> Sq
        ensures { sq_in result ≡ ring }
    {
        Sq {
            size: ring.size,
            head: ring.head,
            tail: ring.tail,
        }
    }

    fn state(self) -> RingState
        ensures { result ≡ sq_in self }
    {
        RingState {
            size: self.size,
            head: self.head,
            tail: self.tail,
        }
    }

    /// The controller's end at these places; `None` exactly where they are none.
    pub(crate) fn controller(self) -> Option<SqRing>
        ensures { MatchOption result (IsSq self → ⊥) (λ r. IsSq self × (r ≡ sq_in self)) }
    {
        let ring = self.state();
        if !is_ring(ring, 64) {
            return None;
        }
        Some(SqRing::new(ring))
    }
}

impl GuestSq {
    /// The places for C.
    fn of(ring: RingState) -> GuestSq
        ensures { guest_sq_in result ≡ ring }
    {
        GuestSq {
            size: ring.size,
            head: ring.head,
            tail: ring.tail,
        }
    }

    /// The guest's end at these places; `None` exactly where they are none.
    fn guest(self) -> Option<nvm_ring::GuestSq>
        ensures { MatchOption result (IsGuestSq self → ⊥) (λ r. IsGuestSq self × (r ≡ guest_sq_in self)) }
    {
        let ring = RingState {
            size: self.size,
            head: self.head,
            tail: self.tail,
        };
        if !is_ring(ring, 64) {
            return None;
        }
        Some(nvm_ring::GuestSq::at(ring))
    }
}

/// Whether a ring has from 2 to so many places, and head and tail are two of them.
pub(crate) fn is_ring(ring: RingState, most: u16) -> bool
    ensures { IsTrue result ↔ IsRing most ring }
{
    ring.size >= 2 && ring.size <= most && ring.head < ring.size && ring.tail < ring.size
}

/// The controller's end of an empty submission queue of from 2 to 64 places, over a zeroed page.
///
/// # Errors
///
/// `BAD_RING` exactly where there are fewer or more; `out` stays as it was.
#[unsafe(no_mangle)]
pub extern "C" fn nvmigrate_sq_new(size: u16, out: &mut Sq) -> u32
    ensures done { 2 ≤ size → size ≤ 64 → result ≡ OK }
    ensures few { size < 2 → result ≡ BAD_RING }
    ensures many { 64 < size → result ≡ BAD_RING }
    ensures value { result ≡ OK → sq_in out.new ≡ record { size = size; head = 0; tail = 0 } }
    ensures start { result ≡ OK → IsSqRing (sq_in out.new) zero_page [] }
    ensures same { result ≢ OK → out.new ≡ out.old }
{
    if size < 2 || size > 64 {
        return BAD_RING;
    }
    *out = Sq::of(nvm_ring::GuestSq::new(size).state());
    OK
}

/// The guest rings the tail doorbell (Base 2.1, submission queue tail doorbell).
///
/// # Errors
///
/// `BAD_RING` exactly where the struct is no ring, `BAD_DOORBELL` exactly where it is one and the value is its size
/// or more; then it stays as it was.
#[unsafe(no_mangle)]
pub extern "C" fn nvmigrate_sq_set_tail(sq: &mut Sq, value: u16) -> u32
    ensures bad { (IsSq sq.old → ⊥) → result ≡ BAD_RING }
    ensures taken { IsSq sq.old → value < sq.old.size → result ≡ OK }
    ensures refused { IsSq sq.old → sq.old.size ≤ value → result ≡ BAD_DOORBELL }
    ensures moved { result ≡ OK → sq_in sq.new ≡ record (sq_in sq.old) { tail = value } }
    ensures same { result ≢ OK → sq.new ≡ sq.old }
{
    let Some(mut ring) = sq.controller() else {
        return BAD_RING;
    };
    let Ok(()) = ring.set_tail(value) else {
        return BAD_DOORBELL;
    };
    *sq = Sq::of(ring.state());
    OK
}

/// The controller takes the oldest entry from the queue's page.
///
/// # Errors
///
/// `BAD_RING` exactly where the struct is no ring, `NONE` exactly where it is one and its head is its tail; then `sq`
/// and `out` stay as they were.
#[unsafe(no_mangle)]
pub extern "C" fn nvmigrate_sq_fetch(sq: &mut Sq, page: &[u8; 4096], out: &mut SqEntry) -> u32
    ensures bad { (IsSq sq.old → ⊥) → result ≡ BAD_RING }
    ensures none { IsSq sq.old → sq.old.head ≡ sq.old.tail → result ≡ NONE }
    ensures some { IsSq sq.old → sq.old.head ≢ sq.old.tail → result ≡ OK }
    ensures entry { result ≡ OK → sqe_in out.new ≡ sqe_of (cell 64 sq.old.head page.now) }
    ensures moved { result ≡ OK → sq_in sq.new ≡ after_fetch (sq_in sq.old) }
    ensures same { result ≢ OK → (sq.new ≡ sq.old) × (out.new ≡ out.old) }
    ensures oldest { IsSq sq.old → FetchesOldest (sq_in sq.old) (sq_in sq.new) page.now (sqe_told result out.new) }
{
    let Some(mut ring) = sq.controller() else {
        return BAD_RING;
    };
    let Some(entry) = ring.fetch(page) else {
        return NONE;
    };
    *out = SqEntry::of(&entry);
    *sq = Sq::of(ring.state());
    OK
}

/// The guest's end of an empty submission queue of from 2 to 64 places, over a zeroed page.
///
/// # Errors
///
/// `BAD_RING` exactly where there are fewer or more; `out` stays as it was.
#[unsafe(no_mangle)]
pub extern "C" fn nvmigrate_guest_sq_new(size: u16, out: &mut GuestSq) -> u32
    ensures done { 2 ≤ size → size ≤ 64 → result ≡ OK }
    ensures few { size < 2 → result ≡ BAD_RING }
    ensures many { 64 < size → result ≡ BAD_RING }
    ensures value { result ≡ OK → guest_sq_in out.new ≡ record { size = size; head = 0; tail = 0 } }
    ensures start { result ≡ OK → IsSqRing (guest_sq_in out.new) zero_page [] }
    ensures same { result ≢ OK → out.new ≡ out.old }
{
    if size < 2 || size > 64 {
        return BAD_RING;
    }
    *out = GuestSq::of(nvm_ring::GuestSq::new(size).state());
    OK
}

/// The guest writes an entry into the queue's page, after the others. The new tail, which the doorbell is rung with,
/// is `sq.tail`.
///
/// # Errors
///
/// `BAD_RING` exactly where the struct is no ring, `FULL` exactly where it is one and the place after its tail is the
/// head that was learnt last; then `sq` and the page stay as they were.
#[unsafe(no_mangle)]
pub extern "C" fn nvmigrate_guest_sq_submit(
    sq: &mut GuestSq,
    page: &mut [u8; 4096],
    entry: &SqEntry,
) -> u32
    ensures bad { (IsGuestSq sq.old → ⊥) → result ≡ BAD_RING }
    ensures done { IsGuestSq sq.old → next_place sq.old.size sq.old.tail ≢ sq.old.head → result ≡ OK }
    ensures full { IsGuestSq sq.old → next_place sq.old.size sq.old.tail ≡ sq.old.head → result ≡ FULL }
    ensures moved { result ≡ OK → guest_sq_in sq.new ≡ after_submit (guest_sq_in sq.old) }
    ensures page { result ≡ OK → page.new ≡ written page.old (64 * sq.old.tail) (sqe_bytes (sqe_in entry.now)) }
    ensures same { result ≢ OK → (sq.new ≡ sq.old) × (page.new ≡ page.old) }
    ensures newest { IsGuestSq sq.old → SubmitsNewest (guest_sq_in sq.old) page.old page.new (sqe_in entry.now) (told result) }
{
    let Some(mut ring) = sq.guest() else {
        return BAD_RING;
    };
    let Ok(_) = ring.submit(page, &entry.sqe()) else {
        return FULL;
    };
    *sq = GuestSq::of(ring.state());
    OK
}

/// The guest learns the controller's head, as a completion tells it (Base 2.1, SQ Head Pointer).
///
/// # Errors
///
/// `BAD_RING` exactly where the struct is no ring, `BAD_DOORBELL` exactly where it is one and the head is its size or
/// more; then it stays as it was.
#[unsafe(no_mangle)]
pub extern "C" fn nvmigrate_guest_sq_learn(sq: &mut GuestSq, head: u16) -> u32
    ensures bad { (IsGuestSq sq.old → ⊥) → result ≡ BAD_RING }
    ensures taken { IsGuestSq sq.old → head < sq.old.size → result ≡ OK }
    ensures refused { IsGuestSq sq.old → sq.old.size ≤ head → result ≡ BAD_DOORBELL }
    ensures learnt { result ≡ OK → guest_sq_in sq.new ≡ after_learn head (guest_sq_in sq.old) }
    ensures same { result ≢ OK → sq.new ≡ sq.old }
{
    let Some(mut ring) = sq.guest() else {
        return BAD_RING;
    };
    let Ok(()) = ring.learn(head) else {
        return BAD_DOORBELL;
    };
    *sq = GuestSq::of(ring.state());
    OK
}
