// The work of a turn: blocks are copied, and changes are taken.
ghost use Rattle.std.specs.Prelude.{◌≡◌, ◌<◌, ◌≤◌, ◌∷◌, [], All, IfOk, None, drop, false, length, replicate, take, true, vec_capacity, vec_len};
ghost use Rattle.manager.specs.Owed.{places_of};
ghost use Rattle.manager.specs.Move.{IsQuiet};
ghost use Rattle.manager.specs.Parts.{DoesCopies};
ghost use Rattle.manager.specs.Round.{IsLogged, Settles};
ghost use Rattle.manager.specs.Work.{DoesAll, DoesOne, Draws, HasWork, Takes, Tried, again, at_work};

use crate::manager::MediumFault;
use crate::owed::Owed;
use crate::port::{Port, WorkPort};
use crate::round::{start_log, take_all};
use crate::side::{CopyAnswer, Side};
use crate::steps::copy_blocks;
use mig_base::OutOfMemory;
use std::alloc::Global;
use std::marker::Model;
use std::mem;

/// The work of a turn: what is owed, and blocks of it that are to be copied in this turn, each once.
#[derive(Drop)]
pub(crate) struct Work {
    slice: u32,
    cells: u32,
    owed: Owed,
    due: Vec<u32>,
    // How many of these were tried.
    tried: usize,
    busy: Vec<u32>,
    failed: Option<Side>,
}

impl Model for Work {
    ghost use Rattle.std.specs.Prelude.{◌<◌, ◌≤◌, All, drop, length, vec_capacity, vec_len};
    ghost use Rattle.manager.specs.Work.{TurnWork};

    ghost Value = { TurnWork };

    ghost view = { λ w. record { slice = w.slice; cells = w.cells; owed = w.owed; due = drop w.tried w.due.items; busy = w.busy.items; failed = w.failed } };

    // Both lists have room for a slice.
    ghost invariant = { λ w. (w.tried ≤ length w.due.items) × (vec_len w.due ≤ w.slice) × (w.slice ≤ vec_capacity w.due) × (w.slice ≤ vec_capacity w.busy) × (vec_len w.busy ≤ w.tried)
        × All (λ b. b < length w.owed) w.due.items × All (λ b. b < length w.owed) w.busy.items };
}

impl Work {
    /// Work over so many blocks, of which none is owed and none is to be copied.
    pub(crate) fn make(
        alloc: Global,
        blocks: u32,
        slice: u32,
        cells: u32,
    ) -> Result<Work, OutOfMemory>
        ensures { IfOk result (λ w. w ≡ record { slice = slice; cells = cells; owed = replicate blocks false; due = []; busy = []; failed = None }) }
    {
        Ok(Work {
            slice,
            cells,
            owed: Owed::make(alloc, blocks)?,
            due: Vec::with_capacity(alloc, slice as usize)?,
            tried: 0,
            busy: Vec::with_capacity(alloc, slice as usize)?,
            failed: None,
        })
    }

    /// All is owed, and none of it is to be copied.
    pub(crate) fn owe_all(&mut self)
        requires { length self.old.owed ≤ 131072 }
        ensures { self.new ≡ record self.old { owed = replicate (length self.old.owed) true; due = []; busy = []; failed = None } }
    {
        self.owed.owe_all();
        self.due.clear();
        self.tried = 0;
        self.busy.clear();
        self.failed = None;
    }

    /// How many blocks are owed.
    pub(crate) fn count(&self) -> u32
        ensures { result ≡ length (places_of self.now.owed) }
    {
        self.owed.count()
    }

    /// Copies all that is owed, ascending, until a copy fails.
    pub(crate) fn copy_owed<P: Port>(&self, port: &mut P) -> Result<(), MediumFault>
        requires size { (length self.now.owed ≡ (P.state port.old).count) × (length self.now.owed ≤ 131072) }
        requires left { length self.now.owed ≤ (P.state port.old).left }
        ensures { DoesCopies P.moves (places_of self.now.owed) result (P.state port.old) (P.state port.new) }
    {
        copy_blocks(&self.owed, port)
    }

    /// The lowest blocks that are owed are to be copied, as many as a slice.
    pub(crate) fn draw(&mut self)
        ensures { Draws self.old self.new }
    {
        self.due.clear();
        self.tried = 0;
        self.busy.clear();
        draw_lowest(self.slice, &mut self.owed, &mut self.due);
    }

    /// The side whose medium failed, if a copy did.
    pub(crate) fn failed(&self) -> Option<Side>
        ensures { result ≡ self.now.failed }
    {
        self.failed
    }

    /// Takes all changes that aren't taken, and starts logging at the source. Answers whether a change was lost before: then all
    /// blocks are owed.
    pub(crate) fn settle<P: Port>(&mut self, port: &mut P) -> bool
        requires cells { (2 ≤ self.old.cells) × (self.old.cells ≤ 65536) × (length self.old.owed ≤ 131072) }
        requires left { 4 ≤ (P.state port.old).left }
        requires from { IsQuiet (P.state port.old).from × IsLogged self.old.cells (P.state port.old).from }
        ensures settled { Settles P.moves self.old.cells result self.old.owed (P.state port.old) self.new.owed (P.state port.new) }
        ensures rest { (self.new ≡ record self.old { owed = self.new.owed }) × (length self.new.owed ≡ length self.old.owed) }
    {
        take_all(&mut self.owed, port);
        let restarted = start_log(self.cells, port);
        if restarted {
            self.owed.owe_all();
        }
        restarted
    }

    /// Whether a copy of this turn wasn't tried yet and none failed.
    pub(crate) fn left(&self) -> bool
        ensures { HasWork result self.now }
    {
        self.failed.is_none() && self.tried < self.due.len()
    }

    /// Copies the next block, and takes changes until there is none, at most as many as the queue has cells.
    pub(crate) fn one<W: WorkPort>(&mut self, port: &mut W)
        requires work { HasWork true self.old }
        requires left { 1 ≤ (W.work port.old).left }
        requires fits { (length self.old.owed ≡ (W.work port.old).count) × (length self.old.owed ≤ 131072) }
        requires seated { W.seated (W.work port.old).inside }
        ensures does { (t : Tried) × DoesOne W.works (at_work self.old (W.work port.old)) t (at_work self.new (W.work port.new)) }
        ensures seated { W.seated (W.work port.new).inside }
    {
        let block = self.due[self.tried];
        self.tried += 1;
        match port.copy(block) {
            CopyAnswer::Copied => {}
            CopyAnswer::Busy { .. } => self.busy.push_reserved(block),
            CopyAnswer::Fault { side } => self.failed = Some(side),
        }
        take_some(self.cells, &mut self.owed, port);
    }

    /// Copies all that are left to try, each with its takes, unless one fails.
    pub(crate) fn all<W: WorkPort>(&mut self, port: &mut W)
        requires left { length self.old.due ≤ (W.work port.old).left }
        requires fits { (length self.old.owed ≡ (W.work port.old).count) × (length self.old.owed ≤ 131072) }
        requires seated { W.seated (W.work port.old).inside }
        ensures does { DoesAll W.works (at_work self.old (W.work port.old)) (at_work self.new (W.work port.new)) }
        ensures seated { W.seated (W.work port.new).inside }
    {
        'copies: while self.left() {
            self.one(port);
        }
    }

    /// Copies those whose shelf was busy, each with its takes, unless one fails.
    pub(crate) fn rest<P: Port>(&mut self, port: &mut P)
        requires left { length self.old.busy ≤ (P.work port.old).left }
        requires fits { (length self.old.owed ≡ (P.work port.old).count) × (length self.old.owed ≤ 131072) }
        ensures does { DoesAll P.works (at_work (again self.old) (P.work port.old)) (at_work self.new (P.work port.new)) }
        ensures none { self.new.busy ≡ [] }
    {
        self.again();
        self.all(port);
    }

    fn again(&mut self)
        ensures { self.new ≡ again self.old }
    {
        mem::swap(&mut self.due, &mut self.busy);
        self.tried = 0;
        self.busy.clear();
    }
}

/// Takes the lowest places that are owed, so many at most, into an empty list with room for them.
fn draw_lowest(most: u32, owed: &mut Owed, due: &mut Vec<u32>)
    requires room { (due.old.items ≡ []) × (most ≤ vec_capacity due.old) }
    ensures drawn { (due.new.items ≡ take most (places_of owed.old)) × (places_of owed.new ≡ drop most (places_of owed.old)) }
    ensures long { length owed.new ≡ length owed.old }
    ensures there { All (λ b. b < length owed.new) due.new.items }
    ensures room { (vec_len due.new ≤ most) × (vec_capacity due.old ≤ vec_capacity due.new) }
{
    for _ in 0..most {
        match owed.take_lowest() {
            Some(place) => due.push_reserved(place),
            None => return,
        }
    }
}

/// Takes changes until there is none, at most so many.
fn take_some<W: WorkPort>(most: u32, owed: &mut Owed, port: &mut W)
    requires size { length owed.old ≤ 131072 }
    requires seated { W.seated (W.work port.old).inside }
    ensures takes { Takes W.works most owed.old (W.work port.old) owed.new (W.work port.new) }
    ensures long { length owed.new ≡ length owed.old }
    ensures seated { W.seated (W.work port.new).inside }
{
    for _ in 0..most {
        match port.take() {
            Some(change) => owed.owe_span(change),
            None => return,
        }
    }
}
