ghost use Rattle.std.specs.Prelude.{◌≡◌, ◌^◌, ◌<◌, ◌≤◌, ◌↔◌, [], ◌++◌, IfOk, IsTrue, None, false, length, true};
ghost use Rattle.manager.specs.Asks.{Asked, end_log_asks};
ghost use Rattle.manager.specs.Move.{Covers, Fits, HasCut, IsCutOver, IsDue, IsGivenUp, IsMoveSet, IsOn, IsSource, MayCutOver, SidesAfter, Spends, give_up_asks, with_all, with_work, work_in};
ghost use Rattle.manager.specs.Round.{BeginsSo, CreatesLog, GoesOn, HasTurned, IsGivenUpOver, IsLogged, IsUnlogged};
ghost use Rattle.manager.specs.Work.{DoesAll, DoesOne, HasWork, Tried, again, at_work};
ghost use Rattle.manager.specs.declared.manager.MovePhase.TheVariants.{New, Begun, GivenUp};

use crate::owed::Owed;
use crate::port::{Port, WorkPort};
use crate::round::{create_log, end_log};
use crate::side::Side;
use crate::steps::{copy_pages, hand_over, resume, suspend};
use crate::work::Work;
use mig_base::OutOfMemory;
use std::alloc::Global;
use std::marker::Model;

/// What a move is asked to do.
#[derive(Clone, Copy)]
pub struct MoveSet {
    /// The blocks of either side, from 1 to 131,072.
    pub blocks: u32,
    /// The window pages of either side, from 1 to 2,064.
    pub ram_pages: u32,
    /// How many blocks are copied in a turn at most.
    pub slice: u32,
    /// The cutover is due where at most so many blocks are owed,
    pub small: u32,
    /// and at most so many pages,
    pub pages: u32,
    /// or after so many turns.
    pub patience: u32,
    /// The cells of the change queue, from 2 to 65,536.
    pub cells: u32,
}

/// Where a move is.
#[derive(Clone, Copy)]
pub enum MovePhase {
    New,
    /// The source runs, and is owed for.
    Begun,
    /// The source is suspended, and a copy failed.
    Stopped,
    /// The destination runs.
    Moved,
    /// The source goes on.
    GivenUp,
}

/// How many blocks and pages were copied while no side ran.
#[derive(Clone, Copy, PartialEq, Eq)]
pub struct Pause {
    pub blocks: u32,
    pub pages: u32,
}

/// What becomes of a move after a turn: whether all blocks are owed again, since changes were lost, and how many blocks and
/// pages are owed.
#[derive(Clone, Copy, PartialEq, Eq)]
pub enum After {
    /// The next turn may come.
    Go {
        restarted: bool,
        owed: u32,
        pages: u32,
    },
    /// The cutover is due.
    CutOver {
        restarted: bool,
        owed: u32,
        pages: u32,
    },
    /// A copy failed, and the move is to be given up.
    Fault {
        side: Side,
    },
}

/// A call of a medium of that side failed.
#[derive(Clone, Copy, PartialEq, Eq)]
pub struct MediumFault {
    pub side: Side,
}

/// A move from one side to the other, and what it owes.
#[derive(Drop)]
pub struct Manager {
    set: MoveSet,
    phase: MovePhase,
    work: Work,
    pages: Owed,
    rounds: u32,
}

impl Model for Manager {
    ghost use Rattle.std.specs.Prelude.{◌≡◌, length};
    ghost use Rattle.manager.specs.Move.{IsMoveSet, ManagerState};

    ghost Value = { ManagerState };

    ghost view = { λ m. record { set = m.set; phase = m.phase; blocks = m.work.owed; pages = m.pages; due = m.work.due; busy = m.work.busy; failed = m.work.failed; rounds = m.rounds } };

    ghost invariant = { λ m. IsMoveSet m.set × (length m.work.owed ≡ m.set.blocks) × (length m.pages ≡ m.set.ram_pages) × (m.work.slice ≡ m.set.slice) × (m.work.cells ≡ m.set.cells) };
}

impl Manager {
    /// A manager of a move that hasn't begun. It takes all memory of the move.
    ///
    /// # Errors
    ///
    /// `OutOfMemory` where there is no memory for it.
    pub fn make(alloc: Global, set: MoveSet) -> Result<Manager, OutOfMemory>
        requires { IsMoveSet set }
        ensures { IfOk result (λ m. m ≡ with_all false New set) }
    {
        Ok(Manager {
            set,
            phase: MovePhase::New,
            work: Work::make(alloc, set.blocks, set.slice, set.cells)?,
            pages: Owed::make(alloc, set.ram_pages)?,
            rounds: 0,
        })
    }

    /// Begins: all blocks and all pages are owed. Answers whether the cutover is due.
    pub fn begin(&mut self) -> bool
        requires { self.old.phase ≡ New }
        ensures began { self.new ≡ with_all true Begun self.old.set }
        ensures covers { Covers self.new }
        ensures due { IsTrue result ↔ IsDue self.new }
    {
        self.phase = MovePhase::Begun;
        self.work.owe_all();
        self.pages.owe_all();
        self.rounds = 0;
        self.is_due()
    }

    /// Begins over a port, to move in rounds: the source's queue of changes is made and logged into. All blocks and all pages are
    /// owed, and the first turn's blocks are drawn, unless the cutover is due. Answers whether it is. It needs what `cut_over`
    /// needs of the port's size and of the calls that are left, and a source that was made for as many cells and has no live
    /// queue.
    pub fn begin_over<P: Port>(&mut self, port: &mut P) -> bool
        requires phase { self.old.phase ≡ New }
        requires fits { Fits self.old (P.state port.old) }
        requires source { IsUnlogged self.old.set.cells (P.state port.old).from }
        ensures created { CreatesLog P.moves self.old.set.cells (P.state port.old) (P.state port.new) }
        ensures began { BeginsSo result (with_all true Begun self.old.set) self.new }
    {
        create_log(self.set.cells, port);
        let due = self.begin();
        if !due {
            self.work.draw();
        }
        due
    }

    fn is_due(&self) -> bool
        ensures { IsTrue result ↔ IsDue self.now }
    {
        self.work.count() <= self.set.small && self.pages.count() <= self.set.pages
    }

    /// Whether a copy of this turn wasn't tried yet and none failed.
    pub fn work_left(&self) -> bool
        ensures { HasWork result (work_in self.now) }
    {
        self.work.left()
    }

    /// Copies the next block of this turn, and takes changes until there is none, at most as many as the queue has cells:
    /// their blocks are owed then. It needs a port of this move's number of blocks, and takes one at most of its calls.
    pub fn work_one<W: WorkPort>(&mut self, port: &mut W)
        requires work { HasWork true (work_in self.old) }
        requires port { (1 ≤ (W.work port.old).left) × (self.old.set.blocks ≡ (W.work port.old).count) × W.seated (W.work port.old).inside }
        ensures does { (t : Tried) × DoesOne W.works (at_work (work_in self.old) (W.work port.old)) t (at_work (work_in self.new) (W.work port.new)) }
        ensures rest { (self.new ≡ with_work (work_in self.new) self.old) × W.seated (W.work port.new).inside }
    {
        self.work.one(port);
    }

    /// Copies all blocks of this turn that weren't tried yet, each with its takes, until one fails. It takes a call of the port
    /// for each at most.
    pub fn turn_work<W: WorkPort>(&mut self, port: &mut W)
        requires { (length self.old.due ≤ (W.work port.old).left) × (self.old.set.blocks ≡ (W.work port.old).count) × W.seated (W.work port.old).inside }
        ensures does { DoesAll W.works (at_work (work_in self.old) (W.work port.old)) (at_work (work_in self.new) (W.work port.new)) }
        ensures rest { (self.new ≡ with_work (work_in self.new) self.old) × W.seated (W.work port.new).inside }
    {
        self.work.all(port);
    }

    /// Copies the blocks of this turn whose shelf was busy, each with its takes, until one fails; all others were tried. It takes a
    /// call of the port for each at most.
    pub fn turn_rest<P: Port>(&mut self, port: &mut P)
        requires tried { HasWork false (work_in self.old) }
        requires port { (length self.old.busy ≤ (P.work port.old).left) × (self.old.set.blocks ≡ (P.work port.old).count) }
        ensures does { DoesAll P.works (at_work (again (work_in self.old)) (P.work port.old)) (at_work (work_in self.new) (P.work port.new)) }
        ensures none { self.new.busy ≡ [] }
        ensures rest { self.new ≡ with_work (work_in self.new) self.old }
    {
        self.work.rest(port);
    }

    /// Ends a round, after a turn. Where a copy failed, nothing is done. Else all changes that aren't taken are, and logging is
    /// started again: where the queue lost one, it is made anew and all blocks are owed. Then all pages are copied, and the
    /// blocks of the next turn are drawn, unless the cutover is due. It needs what `cut_over` needs of the port's size and of the
    /// calls that are left, a source whose queue of changes is live, and that no copy of the turn is left.
    pub fn after_turn<P: Port>(&mut self, port: &mut P) -> After
        requires phase { (self.old.phase ≡ Begun) × (self.old.rounds < self.old.set.patience) }
        requires fits { Fits self.old (P.state port.old) }
        requires logged { IsLogged self.old.set.cells (P.state port.old).from }
        requires tried { self.old.failed ≡ None → (self.old.due ≡ []) × (self.old.busy ≡ []) }
        ensures turned { HasTurned P.moves result self.old (P.state port.old) self.new (P.state port.new) }
        ensures left { Spends (P.state port.old) (P.state port.new) }
    {
        if let Some(side) = self.work.failed() {
            return After::Fault { side };
        }
        let restarted = self.work.settle(port);
        self.pages.owe_all();
        copy_pages(&self.pages, port);
        self.pages.owe_none();
        self.rounds += 1;
        self.go_on(restarted)
    }

    /// Draws the next turn's blocks, unless the cutover is due.
    fn go_on(&mut self, restarted: bool) -> After
        ensures { GoesOn restarted result self.old self.new }
    {
        let owed = self.work.count();
        let pages = self.pages.count();
        if self.is_due() || self.rounds >= self.set.patience {
            return After::CutOver {
                restarted,
                owed,
                pages,
            };
        }
        self.work.draw();
        After::Go {
            restarted,
            owed,
            pages,
        }
    }

    /// Suspends the source, copies what is owed, hands the state over and resumes the destination, after turn `t`. Answers
    /// how much was copied. The port has two sides of this move's size, with no command under way at either, and 2^18 calls
    /// left, of which at most so many are taken; the source runs, and the destination waits for a state of as many queue
    /// pairs. Nothing takes memory.
    ///
    /// # Errors
    ///
    /// `MediumFault` only where that side's count of faults rose. The source is suspended then, and the move can only be
    /// given up.
    pub fn cut_over<P: Port>(&mut self, t: u64, port: &mut P) -> Result<Pause, MediumFault>
        requires turn { t < 2 ^ 62 }
        requires phase { self.old.phase ≡ Begun }
        requires fits { Fits self.old (P.state port.old) }
        requires sides { MayCutOver (P.state port.old) }
        ensures asked { IsCutOver P.moves t self.old result (P.state port.old) (P.state port.new) }
        ensures sides { SidesAfter self.old result (P.state port.old) (P.state port.new) }
        ensures manager { HasCut result self.old self.new }
        ensures left { Spends (P.state port.old) (P.state port.new) }
    {
        self.phase = MovePhase::Stopped;
        suspend(t, port);
        self.work.copy_owed(port)?;
        copy_pages(&self.pages, port);
        hand_over(port);
        resume(Side::To, t, port);
        self.phase = MovePhase::Moved;
        Ok(Pause {
            blocks: self.work.count(),
            pages: self.pages.count(),
        })
    }

    /// Gives the move up, after turn `t`: the source goes on. It needs what `cut_over` needs of the port's size and of the
    /// calls that are left, and a source that runs, or is suspended where a cutover failed.
    pub fn give_up<P: Port>(&mut self, t: u64, port: &mut P)
        requires turn { t < 2 ^ 62 }
        requires phase { IsOn self.old.phase }
        requires fits { Fits self.old (P.state port.old) }
        requires source { IsSource self.old.phase (P.state port.old).from }
        ensures asked { Asked P.moves (give_up_asks self.old.phase t) (P.state port.old) (P.state port.new) }
        ensures sides { IsGivenUp (P.state port.old) (P.state port.new) }
        ensures manager { self.new ≡ record self.old { phase = GivenUp } }
        ensures left { Spends (P.state port.old) (P.state port.new) }
    {
        match self.phase {
            MovePhase::Stopped => resume(Side::From, t, port),
            _ => port.mark(3 * t + 2),
        }
        self.phase = MovePhase::GivenUp;
    }
    /// Gives up a move that began over a port, after turn `t`: logging ends, the source's queue is deleted, and the source goes on.
    /// It needs what `give_up` needs, and a live queue at the source.
    pub fn give_up_over<P: Port>(&mut self, t: u64, port: &mut P)
        requires turn { (t < 2 ^ 62) × IsOn self.old.phase }
        requires fits { Fits self.old (P.state port.old) }
        requires source { IsSource self.old.phase (P.state port.old).from }
        requires logged { IsLogged self.old.set.cells (P.state port.old).from }
        ensures asked { Asked P.moves (end_log_asks ++ give_up_asks self.old.phase t) (P.state port.old) (P.state port.new) }
        ensures sides { IsGivenUpOver (P.state port.old) (P.state port.new) }
        ensures manager { self.new ≡ record self.old { phase = GivenUp } }
        ensures left { Spends (P.state port.old) (P.state port.new) }
    {
        end_log(port);
        match self.phase {
            MovePhase::Stopped => resume(Side::From, t, port),
            _ => port.mark(3 * t + 2),
        }
        self.phase = MovePhase::GivenUp;
    }
}
