ghost use Rattle.std.specs.Prelude.{◌≡◌, ◌+◌, ◌-◌, ◌<◌, ◌≤◌, ◌^◌, ℕ};
ghost use Rattle.mig_base.specs.declared.span.Span.{Span};
ghost use Rattle.nvm_model.specs.Piece.{piece_count, piece_at};
ghost use Rattle.nvm_cmd.specs.Cut.{IsPartOf, HasBlocksOf, piece_of};

use crate::Job;
use mig_base::{LaneNo, Span};
use nvm_model::Piece;

/// How many pieces a command has, where a shelf has `shelf` blocks: how many shelves its range touches.
pub fn piece_count(job: &Job, shelf: u32) -> u32
    requires shelf { 1 ≤ shelf }
    requires numbered { job.now.span.first + job.now.span.count ≤ 2 ^ 32 }
    ensures { result ≡ piece_count shelf job.now.span }
{
    let shelf = u64::from(shelf);
    let first = u64::from(job.span.first);
    let end = first + u64::from(job.span.count);
    let before_last = (end.saturating_sub(1) / shelf).saturating_sub(first / shelf);
    (before_last + 1) as u32
}

/// Piece `i` of a lane's command, from 0, where a shelf has `shelf` blocks: the part of its range that lies in the i-th of
/// the shelves that it touches.
pub fn piece(job: &Job, lane: LaneNo, shelf: u32, i: u32) -> Piece
    requires shelf { 1 ≤ shelf }
    requires numbered { job.now.span.first + job.now.span.count ≤ 2 ^ 32 }
    requires there { i < piece_count shelf job.now.span }
    ensures value { result ≡ piece_of lane shelf i job.now }
    ensures part { 1 ≤ job.now.span.count → IsPartOf shelf job.now.span result.span }
{
    let span = part(&job.span, shelf, i);
    Piece {
        lane,
        cid: job.cid,
        op: job.op,
        span,
        at: span.first - job.span.first,
        pages: job.pages,
    }
}

/// The part of a range that lies in the i-th of the shelves that it touches.
fn part(span: &Span, shelf: u32, i: u32) -> Span
    requires shelf { 1 ≤ shelf }
    requires numbered { span.now.first + span.now.count ≤ 2 ^ 32 }
    requires there { i < piece_count shelf span.now }
    ensures value { result ≡ piece_at shelf span.now i }
    ensures starts { span.now.first ≤ result.first }
{
    let shelf = u64::from(shelf);
    let start = u64::from(span.first);
    let at = (start / shelf + u64::from(i)) * shelf;
    let first = start.max(at);
    let end = (start + u64::from(span.count)).min(at + shelf);
    Span {
        first: first as u32,
        count: (end - first) as u32,
    }
}

/// The pieces of a range, one after another, hold its blocks, each once and ascending. It does nothing: it is the law for
/// whoever rests on it.
pub fn pieces_cover()
    ensures { (shelf : ℕ) → (span : Span) → 1 ≤ shelf → HasBlocksOf span (piece_count shelf span) (piece_at shelf span) }
{}
