// The stages of a run. Each does its effect, and then its lines go out.
ghost use Rattle.std.specs.Prelude.{◌≡◌, ◌<◌, [], ◌∷◌, is_err, IfOk, true};
ghost use Rattle.mig_base.specs.Stream.{Writes};
ghost use Rattle.nvm_model.specs.declared.line.Line.TheVariants as line;
ghost use Rattle.session.specs.declared.session.Next.TheVariants.{Turn, End};
ghost use Rattle.nvm_model.specs.declared.run.RunPhase.TheVariants.{New, Running, Moving, Suspended, Over};
ghost use Rattle.nvm_model.specs.Run.{opposite};
ghost use Rattle.nvm_model.specs.Text.{text_of};
ghost use Rattle.session.specs.declared.ending.Ending.TheVariants.{Done, GaveUp};
ghost use Rattle.session.specs.Moves.{Tries, both, owed_by, owing_all};
ghost use Rattle.session.specs.Place.{IsReady, IsWaiting, PlaceState, total_work};
ghost use Rattle.session.specs.Served.{Leaves};
ghost use Rattle.session.specs.Sides.{Goes, HasBegun, IsMoveDue, IsMoved, IsNewManager, IsNext, IsOnward, IsRunning};
ghost use Rattle.session.specs.Sides.{IsStop, MayMove, MaySuspend, move_set};
ghost use Rattle.manager.specs.Move.{with_all};
ghost use Rattle.manager.specs.declared.manager.MovePhase.TheVariants.{Begun};
ghost use Rattle.session.specs.Sides.{by_side, machine_of, sides, sink};

use super::{Next, Session};
use crate::Ending;
use crate::cutover::cut_over;
use crate::place::Place;
use crate::turn::do_turn;
use manager::{MediumFault, Pause};
use mig_base::{Failed, Sink};
use mig_medium::Medium;
use nvm_model::{Line, RunPhase, Side};
use transcript::write_lines;

impl Session {
    /// Begins: writes the first two lines.
    ///
    /// # Errors
    ///
    /// `Failed` only where the sink's count of faults rose, here and below. The stage was done, and its text was cut.
    pub fn begin<M: Medium, K: Sink>(&mut self, at: &Place<M>, out: &mut K) -> Result<(), Failed>
        requires { self.old.phase ≡ New }
        ensures went { (other : PlaceState M) → Goes M.state M.moves
            (sides self.old at.now other (sink (K.bytes out.old) (K.faults out.old))) (is_err result)
            (sides self.new at.now other (sink (K.bytes out.new) (K.faults out.new))) }
        ensures session { self.new ≡ record self.old { phase = Running } }
    {
        self.phase = RunPhase::Running;
        write_lines(&[Line::Title, Line::Ready], out)
    }

    /// Does a turn and writes its lines.
    pub fn turn<M: Medium, K: Sink>(&mut self, at: &mut Place<M>, out: &mut K) -> Result<(), Failed>
        requires running { IsRunning self.old at.old }
        requires due { IsNext self.old Turn }
        ensures went { (other : PlaceState M) → Goes M.state M.moves
            (sides self.old at.old other (sink (K.bytes out.old) (K.faults out.old))) (is_err result)
            (sides self.new at.new other (sink (K.bytes out.new) (K.faults out.new))) }
        ensures onward { IsOnward M.state M.moves self.old at.old self.new at.new }
        ensures less { total_work 1 self.new.runs at.new.controller < total_work 1 self.old.runs at.old.controller }
    {
        do_turn(
            &self.script,
            &mut self.runs,
            &mut self.order,
            &mut self.plan,
            &mut self.events,
            at,
        );
        self.turns += 1;
        write_lines(&self.events, out)
    }

    /// Does turns until the migration is due, or until the end, and says whether the migration is due.
    pub fn turns<M: Medium, K: Sink>(
        &mut self,
        at: &mut Place<M>,
        out: &mut K,
    ) -> Result<bool, Failed>
        requires { IsRunning self.old at.old }
        ensures went { (other : PlaceState M) → Goes M.state M.moves
            (sides self.old at.old other (sink (K.bytes out.old) (K.faults out.old))) (is_err result)
            (sides self.new at.new other (sink (K.bytes out.new) (K.faults out.new))) }
        ensures onward { IsOnward M.state M.moves self.old at.old self.new at.new }
        ensures stops { IfOk result (λ due. IsStop due self.new) }
    {
        'turns: loop {
            match self.next() {
                Next::Turn => self.turn(at, out)?,
                Next::Move => return Ok(true),
                Next::End => return Ok(false),
            }
        }
    }

    /// Begins the migration: all is owed.
    fn start<M: Medium, K: Sink>(&mut self, at: &Place<M>, out: &mut K) -> Result<(), Failed>
        requires running { IsRunning self.old at.now }
        requires due { IsMoveDue self.old }
        requires manager { IsNewManager self.old.script self.old.manager }
        ensures went { (other : PlaceState M) → Goes M.state M.moves
            (sides self.old at.now other (sink (K.bytes out.old) (K.faults out.old))) (is_err result)
            (sides self.new at.now other (sink (K.bytes out.new) (K.faults out.new))) }
        ensures session { self.new
            ≡ record self.old { phase = Moving; tried = true; manager = owing_all self.old.manager } }
    {
        self.phase = RunPhase::Moving;
        self.tried = true;
        let _due = self.manager.begin();
        write_lines(&[Line::Migrate], out)
    }

    /// Suspends the guests.
    fn suspend<M: Medium, K: Sink>(&mut self, at: &Place<M>, out: &mut K) -> Result<(), Failed>
        requires { MaySuspend self.old }
        ensures went { (other : PlaceState M) → Goes M.state M.moves
            (sides self.old at.now other (sink (K.bytes out.old) (K.faults out.old))) (is_err result)
            (sides self.new at.now other (sink (K.bytes out.new) (K.faults out.new))) }
        ensures session { self.new ≡ record self.old { phase = Suspended } }
    {
        self.phase = RunPhase::Suspended;
        write_lines(&[Line::Suspend], out)
    }

    /// Moves the guests to the other side, or gives up where a call of a medium fails.
    pub fn move_to<M: Medium, K: Sink>(
        &mut self,
        at: &mut Place<M>,
        to: &mut Place<M>,
        out: &mut K,
    ) -> Result<Ending, Failed>
        requires { MayMove self.old at.old to.old }
        ensures went { Goes M.state M.moves
            (sides self.old at.old to.old (sink (K.bytes out.old) (K.faults out.old))) (is_err result)
            (by_side self.new at.new to.new (sink (K.bytes out.new) (K.faults out.new))) }
        ensures moved { IfOk result (λ ending. IsMoved ending (both at.old to.old) self.new (both at.new to.new)) }
        ensures left { Leaves self.new.side (both at.old to.old) (both at.new to.new) }
        ensures begun { HasBegun self.old self.new }
    {
        self.start(at, out)?;
        self.suspend(at, out)?;
        match self.cut_over(at, to) {
            Ok(pause) => self.resume(&pause, out),
            Err(_) => self.stay(out),
        }
    }

    /// Brings blocks, memory and state to a side that waits for them, or gives the move up where a call of a medium fails.
    fn cut_over<M: Medium>(
        &mut self,
        at: &mut Place<M>,
        to: &mut Place<M>,
    ) -> Result<Pause, MediumFault>
        requires ready { IsReady self.old.script (machine_of self.old at.old) }
        requires waits { IsWaiting self.old.script to.old }
        requires begun { self.old.manager ≡ with_all true Begun (move_set self.old.script.head) }
        ensures tried { Tries M.state M.moves self.old.script self.old.turns (owed_by self.old.manager) result
            (both at.old to.old) (both at.new to.new) }
        ensures session { self.new ≡ record self.old { manager = self.new.manager } }
    {
        cut_over(u64::from(self.turns), &mut self.manager, at, to)
    }

    /// Goes on at the other side.
    fn resume<K: Sink>(&mut self, pause: &Pause, out: &mut K) -> Result<Ending, Failed>
        ensures written { Writes (text_of (line.Pause pause.now.blocks pause.now.pages ∷ line.ResumeTo ∷ []))
            (K.bytes out.old) (K.bytes out.new) (K.faults out.old) (K.faults out.new) result }
        ensures session { self.new ≡ record self.old { phase = Running; side = opposite self.old.side } }
        ensures done { IfOk result (λ ending. ending ≡ Done) }
    {
        self.phase = RunPhase::Running;
        self.side = other_side(self.side);
        let lines = [
            Line::Pause {
                blocks: pause.blocks,
                pages: pause.pages,
            },
            Line::ResumeTo,
        ];
        write_lines(&lines, out)?;
        Ok(Ending::Done)
    }

    /// Goes on where it was.
    fn stay<K: Sink>(&mut self, out: &mut K) -> Result<Ending, Failed>
        ensures written { Writes (text_of (line.GiveUp ∷ []))
            (K.bytes out.old) (K.bytes out.new) (K.faults out.old) (K.faults out.new) result }
        ensures session { self.new ≡ record self.old { phase = Running } }
        ensures gave_up { IfOk result (λ ending. ending ≡ GaveUp) }
    {
        self.phase = RunPhase::Running;
        write_lines(&[Line::GiveUp], out)?;
        Ok(Ending::GaveUp)
    }

    /// Ends: writes the last line.
    pub fn end<M: Medium, K: Sink>(
        &mut self,
        at: &Place<M>,
        ending: Ending,
        out: &mut K,
    ) -> Result<Ending, Failed>
        requires running { IsRunning self.old at.now }
        requires complete { IsNext self.old End }
        ensures went { (other : PlaceState M) → Goes M.state M.moves
            (sides self.old at.now other (sink (K.bytes out.old) (K.faults out.old))) (is_err result)
            (sides self.new at.now other (sink (K.bytes out.new) (K.faults out.new))) }
        ensures session { self.new ≡ record self.old { phase = Over } }
        ensures ended { IfOk result (λ e. e ≡ ending) }
    {
        self.phase = RunPhase::Over;
        write_lines(&[Line::End], out)?;
        Ok(ending)
    }
}

/// The other side.
fn other_side(side: Side) -> Side
    ensures { result ≡ opposite side }
{
    match side {
        Side::Source => Side::Destination,
        Side::Destination => Side::Source,
    }
}
