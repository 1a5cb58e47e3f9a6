//! The words of a log's cells, and the places of its positions.
ghost use Rattle.std.specs.Prelude.{◌≡◌, ◌+◌, ◌*◌, ◌<◌, ◌≤◌, Bool, cond, replicate};
ghost use Rattle.nvm_model.specs.Event.{phase_of};
ghost use Rattle.data_queue.specs.declared.change.Change.{Change as TheChange};
ghost use Rattle.data_queue.specs.Change.{IsChange, change_bytes};
ghost use Rattle.log_rule.specs.Places.{tag};
ghost use Rattle.log_ring.specs.Words.{change_in, entry_word};

use data_queue::{Change, Places};
use mig_base::Span;

/// The word of an entry.
pub(crate) fn to_word(c: Change, phase: bool) -> u64
    requires { IsChange c }
    ensures word { result ≡ entry_word c phase }
    ensures back { change_in result ≡ c }
    ensures tag { tag result ≡ phase }
{
    let body = u64::from(c.span.first) + 4_294_967_296 * u64::from(c.span.count);
    let high = if phase { 9_223_372_036_854_775_808 } else { 0 };
    body + high
}

/// The change in a word.
pub(crate) fn to_change(word: u64) -> Change
    ensures { result ≡ change_in word }
{
    Change {
        span: Span {
            first: (word % 4_294_967_296) as u32,
            count: (word / 4_294_967_296 % 256) as u32,
        },
    }
}

/// The word of a cell's bytes, 0 where they are no entry.
pub(crate) fn word_of(cell: &[u8; 32]) -> u64
    ensures entry { (c : TheChange) (phase : Bool) → IsChange c → change_bytes c phase ≡ cell.now → result ≡ entry_word c phase }
    ensures zeroes { cell.now ≡ replicate 32 0 → result ≡ 0 }
{
    match Change::parse(cell) {
        Some((c, phase)) => to_word(c, phase),
        None => 0,
    }
}

/// The phase tag of a word.
pub(crate) fn is_tagged(word: u64) -> bool
    ensures { result ≡ tag word }
{
    word >= 9_223_372_036_854_775_808
}

/// The phase tag of a position.
pub(crate) fn phase_at(cells: u64, position: u64) -> bool
    requires { 0 < cells }
    ensures { result ≡ phase_of cells position }
{
    position / cells % 2 == 0
}

/// The position of the next entry of a queue with these places.
pub(crate) fn tail_of(places: Places, cells: u64) -> u64
    requires cells { cells ≤ 65536 }
    requires next { places.next < cells }
    ensures { result ≡ places.next + cells * cond places.phase 2 3 }
{
    let passes = if places.phase { 2 } else { 3 };
    u64::from(places.next) + cells * passes
}
