// The pieces of a turn on one thread.
ghost use Rattle.std.specs.Prelude.{◌≡◌, ◌+◌, ◌*◌, ◌/◌, ◌<◌, ◌≤◌, [], All};
ghost use Rattle.std.specs.Prelude.{length, slice_index_or, vec_len, vec_capacity};
ghost use Rattle.nvm_model.specs.declared.line.Line.TheVariants as line;
ghost use Rattle.nvm_model.specs.declared.piece.Piece.{Piece as ThePiece};
ghost use Rattle.nvm_model.specs.ScriptText.{IsHead};
ghost use Rattle.nvm_blocks.specs.Namespace.{HasRoom, block_count, entries_at};
ghost use Rattle.hall.specs.Plan.{pieces_of};
ghost use Rattle.controller.specs.Told.{digest_told};
ghost use Rattle.nvm_model.specs.Run.{Here, MayBeNext};
ghost use Rattle.turns.specs.Parts.{Leads};
ghost use Rattle.session.specs.declared.lane_run.LaneRun.{LaneRun};
ghost use Rattle.session.specs.LaneParts.{HasMore};
ghost use Rattle.session.specs.Phases.{AreDone, DoesPieces, FitPlan, HasPieceLeft, HasPlan};
ghost use Rattle.session.specs.Phases.{StandsNext, StandsOver};
ghost use Rattle.nvm_model.specs.Told.{serial};
ghost use Rattle.session.specs.Place.{AreRunsOf, AreUndone, StandsOn, machine};
ghost use Rattle.session.specs.Work.{AreLeft, HasDone, HasResultAt, due_piece};
ghost use Rattle.session.specs.Seats.{DropsEntries};
ghost use Rattle.session.specs.Served.{Served};

use crate::{LaneRun, Order, Place};
use hall::Plan;
use mig_base::LaneNo;
use mig_medium::Medium;
use nvm_model::{Line, Piece, PieceResult, Script};
use nvm_values::Op;

/// Drops the entries of the shelves on which the pieces of a plan lie. A shelf keeps a turn's entries until then.
pub(crate) fn clear_shelves<M: Medium>(script: &Script, plan: &Plan, place: &mut Place<M>)
    requires head { IsHead script.now.head }
    requires fits { FitPlan script.now plan.now }
    requires within { All (All (λ p. p.span.first < block_count place.old.namespace)) plan.now.lanes }
    ensures kept { DropsEntries place.old place.new }
    ensures cleared { All (All (λ p. entries_at place.new.namespace p.span.first ≡ [])) plan.now.lanes }
{
    for at in 0..script.head.lanes {
        place.clear_shelves(plan.pieces(LaneNo::new(at + 1).unwrap()));
    }
}

/// Does the pieces of all lanes, each lane's in its order: lane after lane, or mixed by the script's stream of words. They
/// draw rising tickets, from 0 on.
pub(crate) fn do_pieces<M: Medium>(
    script: &Script,
    runs: &mut Vec<LaneRun>,
    order: &mut Order,
    plan: &Plan,
    events: &mut Vec<Line>,
    place: &mut Place<M>,
)
    requires has { HasPlan script.now runs.old.items plan.now place.old × AreUndone runs.old.items }
    requires clear { All (All (λ p. entries_at place.old.namespace p.span.first ≡ [])) plan.now.lanes }
    requires mix { order.old.mix ≡ script.now.head.mix }
    requires room { vec_len events.old + 4096 * script.now.head.lanes ≤ vec_capacity events.old }
    ensures works { (h : Here M)
        → StandsOn script.now (machine runs.old.items order.old place.old) h
        → Leads (DoesPieces M.state M.moves script.now)
        (StandsOn script.now (machine runs.new.items order.new place.new))
        h events.old.items events.new.items }
    ensures has { HasPlan script.now runs.new.items plan.now place.new × AreDone script.now runs.new.items plan.now }
    ensures served { Served M.state M.moves place.old place.new }
    ensures mix { order.new.mix ≡ script.now.head.mix }
    ensures more { HasMore (4096 * script.now.head.lanes) events.old events.new }
{
    let mut counts = [0; 8];
    let left = &mut counts[..usize::from(script.head.lanes)];
    count_left(script, runs, plan, left);
    let mut ticket = 0;
    'pieces: while let Some(at) = order.pick(left) {
        do_piece(script, runs, Due { at, ticket }, plan, events, place);
        left[at] -= 1;
        ticket += 1;
    }
}

/// Counts the pieces of each lane, none of which is done.
fn count_left(script: &Script, runs: &Vec<LaneRun>, plan: &Plan, left: &mut [usize])
    requires fits { AreRunsOf script.now runs.now.items × FitPlan script.now plan.now }
    requires none { AreUndone runs.now.items }
    requires count { length left.old ≡ script.now.head.lanes }
    ensures { AreLeft script.now runs.now.items plan.now left.new }
{
    for (at, run) in runs.iter().enumerate() {
        left[at] = plan.pieces(run.script.lane).len();
    }
}

/// Whose piece is done next, by the place of its lane, and the ticket that it draws.
#[derive(Clone, Copy)]
struct Due {
    at: usize,
    ticket: u64,
}

/// Does the next piece of the lane that is due, which has one left, and has room on its shelf.
fn do_piece<M: Medium>(
    script: &Script,
    runs: &mut Vec<LaneRun>,
    due: Due,
    plan: &Plan,
    events: &mut Vec<Line>,
    place: &mut Place<M>,
)
    requires has { HasPlan script.now runs.old.items plan.now place.old }
    requires left { HasPieceLeft script.now due.at runs.old.items plan.now }
    requires entry { (d : LaneRun) (none : ThePiece) → HasRoom place.old.namespace
        ((due_piece runs.old.items plan.now due.at d none).span.first / place.old.namespace.shelf) }
    requires room { vec_len events.old < vec_capacity events.old }
    ensures works { (h : Here M)
        → StandsOver script.now runs.old.items place.old h
        → MayBeNext (serial script.now) h (due.at + 1)
        → Leads (DoesPieces M.state M.moves script.now) (StandsNext script.now runs.new.items place.new h.drawn)
        h events.old.items events.new.items }
    ensures done { HasDone due plan.now runs.old.items runs.new.items
        place.old.namespace place.new.namespace }
    ensures has { HasPlan script.now runs.new.items plan.now place.new }
    ensures served { Served M.state M.moves place.old place.new }
    ensures more { (vec_len events.new ≡ vec_len events.old + 1)
        × (vec_capacity events.new ≡ vec_capacity events.old) }
{
    let (piece, index) = next_piece(script, runs, due.at, plan);
    let done = place.piece(&piece, index, due.ticket);
    events.push_reserved(piece_line(&piece, &done));
    push_result(runs, due.at, done);
}

/// The next piece of the lane at a place, which has one left, and its number among the lane's.
fn next_piece(script: &Script, runs: &Vec<LaneRun>, at: usize, plan: &Plan) -> (Piece, u32)
    requires fits { AreRunsOf script.now runs.now.items × FitPlan script.now plan.now }
    requires few { length (pieces_of plan.now (at + 1)) ≤ 4096 }
    requires left { HasPieceLeft script.now at runs.now.items plan.now }
    ensures piece { (d : LaneRun) (none : ThePiece) → result.0 ≡ due_piece runs.now.items plan.now at d none }
    ensures index { (d : LaneRun) → result.1 ≡ length (slice_index_or runs.now.items at d).results.items }
{
    let run = &runs[at];
    let index = run.results.len();
    let pieces = plan.pieces(run.script.lane);
    (pieces[index], index as u32)
}

/// The line of a piece that was done. A Read's has its digest.
fn piece_line(part: &Piece, done: &PieceResult) -> Line
    ensures { result
        ≡ line.Piece part.now.lane part.now.cid part.now.span.first part.now.span.count done.now.outcome
        (digest_told part.now.op done.now.digest) }
{
    let digest = match part.op {
        Op::Read => Some(done.digest),
        Op::Flush | Op::Write | Op::Compare | Op::WriteZeroes | Op::Verify => None,
    };
    Line::Piece {
        lane: part.lane,
        cid: part.cid,
        first: part.span.first,
        count: part.span.count,
        outcome: done.outcome,
        digest,
    }
}

/// Puts a result behind those of the lane at a place, which has room for it.
fn push_result(runs: &mut Vec<LaneRun>, at: usize, done: PieceResult)
    requires there { at < length runs.old.items }
    requires room { (d : LaneRun)
        → vec_len (slice_index_or runs.old.items at d).results
        < vec_capacity (slice_index_or runs.old.items at d).results }
    ensures { HasResultAt at done runs.old.items runs.new.items }
{
    runs[at].results.push_reserved(done);
}
