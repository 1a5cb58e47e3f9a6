ghost use Rattle.std.specs.Prelude.{◌≡◌, refl};

use crate::dest::Dest;
use crate::place::Place;
use manager::{AdminCmd, AdminCpl, Change, CopyAnswer, Port, Side, WorkPort};
use mig_base::Failed;
use mig_medium::Medium;

/// The port between a place and the other side, for as long as a move takes.
#[derive(Drop)]
pub struct Move<'a, M: Medium, D: Dest> {
    at: &'a mut Place<M>,
    to: &'a mut D,
}

impl<'a, M: Medium, D: Dest> Move<'a, M, D> {
    /// A port from a place to another side.
    pub fn between(at: &'a mut Place<M>, to: &'a mut D) -> Move<'a, M, D>
        ensures at { result.at ≡ at.entry }
        ensures to { result.to ≡ to.entry }
    {
        Move { at, to }
    }
}

impl<'a, M: Medium, D: Dest> WorkPort for Move<'a, M, D> {
    ghost use Rattle.manager.specs.Port.{PortState, work_of, works_port};
    ghost use Rattle.session.specs.Port.{Ends, moves_port, port_of};

    ghost Inside = { PortState (Ends M D.Inside) };

    ghost work = { λ p. work_of (port_of M.state (p.at.ghost_name, p.to.ghost_name) p.at.now (D.state p.to.now)) };

    ghost works = { works_port (moves_port M.state M.moves D.moves) };

    ghost seated = { λ p. Unit {0} };

    fn copy(&mut self, b: u32) -> CopyAnswer {
        let mut block = [0u8; 512];
        if let Err(Failed) = self.at.read(b, &mut block) {
            return CopyAnswer::Fault { side: Side::From };
        }
        match self.to.put(b, &block) {
            Ok(()) => CopyAnswer::Copied,
            Err(Failed) => CopyAnswer::Fault { side: Side::To },
        }
    }

    fn take(&mut self) -> Option<Change> {
        self.at.take_change()
    }
}

impl<'a, M: Medium, D: Dest> Port for Move<'a, M, D> {
    ghost use Rattle.session.specs.Port.{Ends, moves_port, port_of};

    ghost Meaning = { Ends M D.Inside };

    ghost state = { λ p. port_of M.state (p.at.ghost_name, p.to.ghost_name) p.at.now (D.state p.to.now) };

    ghost moves = { moves_port M.state M.moves D.moves };

    fn admin(&mut self, side: Side, cmd: &AdminCmd, bytes: &mut [u8]) -> AdminCpl {
        match side {
            Side::From => self.at.admin(cmd, bytes),
            Side::To => self.to.admin(cmd, bytes),
        }
    }

    fn copy_page(&mut self, page: u32) {
        self.to.page(page, self.at.window_page(page));
    }

    fn mark(&mut self, n: u64) {
        self.at.mark(n);
        self.to.mark(n);
    }

    ghost both = { record { told = λ p. p; count = λ p. refl; left = λ p. refl; sides = λ p. refl; calls = λ old c new call. call; always = λ p. tt } };
}
