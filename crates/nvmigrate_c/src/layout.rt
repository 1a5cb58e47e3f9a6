// How the structs lie in memory, for a test that compares it with what the C compiler sees: each call reads every
// field.
ghost use Rattle.std.specs.Prelude.{◌≡◌, [], ◌∷◌, slice_index};
ghost use Rattle.nvmigrate_c.specs.Layout.{size_in};

use crate::admin::Command;
use crate::completion::{Cq, GuestCq};
use crate::entry::{CqEntry, SqEntry};
use crate::judging::WrongLine;
use crate::parts::{Pair, Parts};
use crate::queue::{Entry, Queue};
use crate::ring::{GuestSq, Sq};

const SIZES: [usize; 12] = [
    size_of::<SqEntry>(),
    size_of::<CqEntry>(),
    size_of::<Sq>(),
    size_of::<Cq>(),
    size_of::<GuestSq>(),
    size_of::<GuestCq>(),
    size_of::<Command>(),
    size_of::<Pair>(),
    size_of::<Parts>(),
    size_of::<WrongLine>(),
    size_of::<Entry>(),
    size_of::<Queue>(),
];

/// The size in bytes of a struct, by its place among those of the header; 0 for another number.
#[unsafe(no_mangle)]
pub extern "C" fn nvmigrate_layout_size(place: u32) -> usize
    ensures { result ≡ size_in place }
{
    if place >= 12 {
        return 0;
    }
    SIZES[place as usize]
}

/// The fields of a submission entry, in order.
#[unsafe(no_mangle)]
pub extern "C" fn nvmigrate_layout_sqe(e: &SqEntry, out: &mut [u64; 15])
    ensures { out.new ≡ e.now.opcode ∷ e.now.flags ∷ e.now.cid ∷ e.now.nsid ∷ e.now.cdw2 ∷ e.now.cdw3 ∷ e.now.mptr
        ∷ e.now.prp1 ∷ e.now.prp2 ∷ e.now.cdw10 ∷ e.now.cdw11 ∷ e.now.cdw12 ∷ e.now.cdw13 ∷ e.now.cdw14
        ∷ e.now.cdw15 ∷ [] }
{
    *out = [
        u64::from(e.opcode),
        u64::from(e.flags),
        u64::from(e.cid),
        u64::from(e.nsid),
        u64::from(e.cdw2),
        u64::from(e.cdw3),
        e.mptr,
        e.prp1,
        e.prp2,
        u64::from(e.cdw10),
        u64::from(e.cdw11),
        u64::from(e.cdw12),
        u64::from(e.cdw13),
        u64::from(e.cdw14),
        u64::from(e.cdw15),
    ];
}

/// The fields of a completion, in order.
#[unsafe(no_mangle)]
pub extern "C" fn nvmigrate_layout_cqe(e: &CqEntry, out: &mut [u64; 11])
    ensures { out.new ≡ e.now.dw0 ∷ e.now.dw1 ∷ e.now.sqhd ∷ e.now.sqid ∷ e.now.cid ∷ e.now.phase ∷ e.now.sc
        ∷ e.now.sct ∷ e.now.crd ∷ e.now.more ∷ e.now.dnr ∷ [] }
{
    *out = [
        u64::from(e.dw0),
        u64::from(e.dw1),
        u64::from(e.sqhd),
        u64::from(e.sqid),
        u64::from(e.cid),
        u64::from(e.phase),
        u64::from(e.sc),
        u64::from(e.sct),
        u64::from(e.crd),
        u64::from(e.more),
        u64::from(e.dnr),
    ];
}

/// The fields of a pair, in order: those of the submission queue's end, then those of the completion queue's.
#[unsafe(no_mangle)]
pub extern "C" fn nvmigrate_layout_pair(p: &Pair, out: &mut [u64; 7])
    ensures { out.new ≡ p.now.sq.size ∷ p.now.sq.head ∷ p.now.sq.tail ∷ p.now.cq.size ∷ p.now.cq.head ∷ p.now.cq.tail
        ∷ p.now.cq.phase ∷ [] }
{
    *out = [
        u64::from(p.sq.size),
        u64::from(p.sq.head),
        u64::from(p.sq.tail),
        u64::from(p.cq.size),
        u64::from(p.cq.head),
        u64::from(p.cq.tail),
        u64::from(p.cq.phase),
    ];
}

/// The fields of the guest's end of a submission queue, in order.
#[unsafe(no_mangle)]
pub extern "C" fn nvmigrate_layout_guest_sq(sq: &GuestSq, out: &mut [u64; 3])
    ensures { out.new ≡ sq.now.size ∷ sq.now.head ∷ sq.now.tail ∷ [] }
{
    *out = [u64::from(sq.size), u64::from(sq.head), u64::from(sq.tail)];
}

/// The fields of the guest's end of a completion queue, in order.
#[unsafe(no_mangle)]
pub extern "C" fn nvmigrate_layout_guest_cq(cq: &GuestCq, out: &mut [u64; 3])
    ensures { out.new ≡ cq.now.size ∷ cq.now.head ∷ cq.now.phase ∷ [] }
{
    *out = [u64::from(cq.size), u64::from(cq.head), u64::from(cq.phase)];
}

/// The fields of an admin command, in order.
#[unsafe(no_mangle)]
pub extern "C" fn nvmigrate_layout_admin(c: &Command, out: &mut [u64; 8])
    ensures { out.new ≡ c.now.cid ∷ c.now.what ∷ c.now.start ∷ c.now.queue ∷ c.now.max ∷ c.now.offset ∷ c.now.length
        ∷ c.now.cells ∷ [] }
{
    *out = [
        u64::from(c.cid),
        u64::from(c.what),
        u64::from(c.start),
        u64::from(c.queue),
        u64::from(c.max),
        u64::from(c.offset),
        u64::from(c.length),
        u64::from(c.cells),
    ];
}

/// The fields of parts, in order, of the bytes the first and the last.
#[unsafe(no_mangle)]
pub extern "C" fn nvmigrate_layout_parts(p: &Parts, out: &mut [u64; 4])
    ensures { out.new ≡ p.now.fed ∷ p.now.lanes ∷ slice_index p.now.bytes 0 ∷ slice_index p.now.bytes 263 ∷ [] }
{
    *out = [
        u64::from(p.fed),
        u64::from(p.lanes),
        u64::from(p.bytes[0]),
        u64::from(p.bytes[263]),
    ];
}

/// The fields of a wrong line, in order.
#[unsafe(no_mangle)]
pub extern "C" fn nvmigrate_layout_wrong_line(w: &WrongLine, out: &mut [u64; 2])
    ensures { out.new ≡ w.now.line ∷ w.now.why ∷ [] }
{
    *out = [u64::from(w.line), u64::from(w.why)];
}

/// The fields of a change, in order.
#[unsafe(no_mangle)]
pub extern "C" fn nvmigrate_layout_change(e: &Entry, out: &mut [u64; 2])
    ensures { out.new ≡ e.now.first ∷ e.now.count ∷ [] }
{
    *out = [u64::from(e.first), u64::from(e.count)];
}

/// The fields of a change queue, in order.
#[unsafe(no_mangle)]
pub extern "C" fn nvmigrate_layout_queue(q: &Queue, out: &mut [u64; 6])
    ensures { out.new ≡ q.now.head ∷ q.now.next ∷ q.now.waiting ∷ q.now.phase ∷ q.now.marked ∷ q.now.live ∷ [] }
{
    *out = [
        u64::from(q.head),
        u64::from(q.next),
        u64::from(q.waiting),
        u64::from(q.phase),
        u64::from(q.marked),
        u64::from(q.live),
    ];
}
