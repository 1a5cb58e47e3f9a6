// A whole cutover, or one that is given up.
ghost use Rattle.std.specs.Prelude.{◌≡◌, ◌^◌, ◌<◌, ◌≤◌, ℕ};
ghost use Rattle.manager.specs.Move.{Fits, MayCutOver};
ghost use Rattle.manager.specs.declared.manager.MovePhase.TheVariants.{Begun};
ghost use Rattle.session.specs.Moves.{Brings};
ghost use Rattle.session.specs.Port.{moves_port, port_of};

use crate::dest::Dest;
use crate::place::Place;
use crate::port::Move;
use manager::{Manager, MediumFault, Pause, Port};
use mig_medium::Medium;

/// Brings blocks, memory and state from a place to another side after turn `t`, or gives the move up where a call of a
/// medium fails.
///
/// # Errors
///
/// `MediumFault` only where that side's count of faults rose. The place then goes on.
pub(crate) fn cut_over<M: Medium, D: Dest>(
    t: u64,
    manager: &mut Manager,
    at: &mut Place<M>,
    to: &mut D,
) -> Result<Pause, MediumFault>
    requires turn { t < 2 ^ 62 }
    requires begun { manager.old.phase ≡ Begun }
    requires fits { (names : ℕ × ℕ) → Fits manager.old (port_of M.state names at.old (D.state to.old))
        × MayCutOver (port_of M.state names at.old (D.state to.old)) }
    requires left { 2 ^ 19 ≤ (D.state to.old).left }
    ensures { (names : ℕ × ℕ) × Brings (moves_port M.state M.moves D.moves) t manager.old result
        (port_of M.state names at.old (D.state to.old)) (port_of M.state names at.new (D.state to.new)) }
{
    let mut port = Move::between(at, to);
    bring(t, manager, &mut port)
}

/// The same over a port.
fn bring<P: Port>(t: u64, manager: &mut Manager, port: &mut P) -> Result<Pause, MediumFault>
    requires turn { t < 2 ^ 62 }
    requires begun { manager.old.phase ≡ Begun }
    requires fits { Fits manager.old (P.state port.old) × MayCutOver (P.state port.old) }
    requires left { 2 ^ 19 ≤ (P.state port.old).left }
    ensures { Brings P.moves t manager.old result (P.state port.old) (P.state port.new) }
{
    match manager.cut_over(t, port) {
        Ok(pause) => Ok(pause),
        Err(fault) => {
            manager.give_up(t, port);
            Err(fault)
        }
    }
}
