// A whole run on one thread.
ghost use Rattle.std.specs.Prelude.{◌≡◌, is_err, IfOk, IfSome, true};
ghost use Rattle.nvm_model.specs.declared.run.RunPhase.TheVariants.{Over};
ghost use Rattle.session.specs.Moves.{both};
ghost use Rattle.session.specs.Place.{IsReady, IsWaiting, PlaceState};
ghost use Rattle.session.specs.Served.{HasLeft, Served};
ghost use Rattle.session.specs.Sides.{Goes, HasEnded, IsNewSession, IsRunning, MovesAtOnce, by_side, machine_of, sides, sink};

use crate::{Ending, Place, Session};
use mig_base::{Failed, Sink};
use mig_medium::Medium;

/// Runs a script from its first line to its last: over the source, and after a migration over the destination.
///
/// # Errors
///
/// `Failed` only where the sink's count of faults rose.
pub fn run<M: Medium, K: Sink>(
    session: &mut Session,
    from: &mut Place<M>,
    to: &mut Place<M>,
    out: &mut K,
) -> Result<Ending, Failed>
    requires new { IsNewSession session.old.script session.old }
    requires ready { IsReady session.old.script (machine_of session.old from.old) }
    requires waits { IsWaiting session.old.script to.old }
    requires at_once { IfSome session.old.script.head.migrate (λ _. MovesAtOnce session.old.script.head) }
    ensures went { Goes M.state M.moves
        (sides session.old from.old to.old (sink (K.bytes out.old) (K.faults out.old))) (is_err result)
        (by_side session.new from.new to.new (sink (K.bytes out.new) (K.faults out.new))) }
    ensures ended { IfOk result (λ ending. HasEnded ending session.new) }
    ensures left { HasLeft session.new.side (both from.old to.old) (both from.new to.new) }
{
    session.begin(from, out)?;
    if !session.turns(from, out)? {
        return session.end(from, Ending::Done, out);
    }
    match session.move_to(from, to, out)? {
        Ending::Done => finish(session, to, Ending::Done, out),
        Ending::GaveUp => finish(session, from, Ending::GaveUp, out),
    }
}

/// Runs to the end after a migration, or after one that was given up.
fn finish<M: Medium, K: Sink>(
    session: &mut Session,
    at: &mut Place<M>,
    ending: Ending,
    out: &mut K,
) -> Result<Ending, Failed>
    requires running { IsRunning session.old at.old }
    requires tried { session.old.tried ≡ true }
    ensures went { (other : PlaceState M) → Goes M.state M.moves
        (sides session.old at.old other (sink (K.bytes out.old) (K.faults out.old))) (is_err result)
        (sides session.new at.new other (sink (K.bytes out.new) (K.faults out.new))) }
    ensures ended { IfOk result (λ e. (e ≡ ending) × (session.new.phase ≡ Over)) }
    ensures kept { (session.new.script ≡ session.old.script) × (session.new.side ≡ session.old.side)
        × Served M.state M.moves at.old at.new }
{
    session.turns(at, out)?;
    session.end(at, ending, out)
}
