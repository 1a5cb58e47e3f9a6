//! What is left of a log once no seat is out.
ghost use Rattle.std.specs.Prelude.{◌≡◌, ◌≢◌, ◌⊎◌, ◌+◌, ◌-◌, ◌%◌, ◌<◌, ◌≤◌, ◌==◌, ℕ, [], length, max, slice_index, slice_index_or};
ghost use Rattle.std.specs.Mem.Slots.{IsFull, slots_items, slots_len};
ghost use Rattle.nvm_model.specs.Event.{phase_of};
ghost use Rattle.data_queue.specs.Change.{change_bytes};
ghost use Rattle.log_rule.specs.Places.{tag};
ghost use Rattle.log_ring.specs.Words.{change_in};
ghost use Rattle.log_ring.specs.Ends.{IsLast, WritesBack, ended_places};

use crate::words::{is_tagged, phase_at, to_change};
use atomic_table::Closed;
use data_queue::Places;
use std::alloc::Global;

/// The first position from the head on, below the tail, with no entry in its cell, or the tail.
pub(crate) fn last_of(closed: &Closed<u8, Global>, cells: u64, head: u64, tail: u64) -> u64
    requires full { IsFull closed.now.words }
    requires cells { (0 < cells) × (cells ≤ 65536) × (slots_len closed.now.words ≡ cells + 3) }
    requires order { (head ≤ tail) × (tail < 11529215046068469760) }
    ensures { IsLast (slots_items closed.now.words) cells head tail result }
{
    let end = tail.min(head + cells);
    for at in head..end {
        if is_tagged(closed.word((at % cells) as usize + 3)) != phase_at(cells, at) {
            return at;
        }
    }
    end
}

/// Writes the entries of so many positions into their cells, the last ones only where a cell would be written twice.
pub(crate) fn write_back(
    closed: &Closed<u8, Global>,
    cells: &mut Vec<[u8; 32]>,
    from: u64,
    last: u64,
)
    requires full { IsFull closed.now.words }
    requires cells { (0 < length cells.old.items) × (slots_len closed.now.words ≡ length cells.old.items + 3) }
    ensures size { length cells.new.items ≡ length cells.old.items }
    ensures cells { WritesBack (slots_items closed.now.words) from last cells.old.items cells.new.items }
{
    let size = cells.len() as u64;
    let first = from.max(last.saturating_sub(size));
    for at in first..last {
        let i = (at % size) as usize;
        cells[i] = to_change(closed.word(i + 3)).to_bytes(phase_at(size, at));
    }
}

/// The places of a queue of so many cells whose oldest entry has the position `head`, and whose next one would have `last`.
pub(crate) fn ended(cells: u64, head: u64, last: u64, mark: u64) -> Places
    requires cells { (0 < cells) × (cells ≤ 65536) }
    requires order { (head ≤ last) × (last ≤ head + cells) }
    ensures { result ≡ ended_places cells head last mark }
{
    Places {
        head: (head % cells) as u32,
        next: (last % cells) as u32,
        waiting: (last - head) as u32,
        phase: phase_at(cells, last),
        marked: mark == 1,
        live: true,
    }
}
