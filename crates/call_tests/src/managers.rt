//! A move of a manager over a port of its own, with two real controllers.
ghost use Rattle.std.specs.Prelude.{◌≡◌, All, [], IfOk, Some, length, true, refl};
ghost use Rattle.adm_values.specs.Command.{IsCommand, command_bytes};
ghost use Rattle.ctl_state.specs.Admin.{Answers, FitsBuffer};
ghost use Rattle.manager.specs.Move.{Fits, MayCutOver, with_all};
ghost use Rattle.manager.specs.declared.manager.MovePhase.TheVariants.{Begun};

use controller::{Controller, PairSet, Phase};
use guest_ram::Ram;
use manager::{
    AdminCmd, AdminCpl, Change, CopyAnswer, Manager, MediumFault, MoveSet, Pause, Port, Side,
    WorkPort,
};
use mig_base::OutOfMemory;
use std::alloc::Global;

/// A side of four blocks and three window pages, of two bytes each.
#[derive(Drop)]
struct FakeSide {
    blocks: [[u8; 2]; 4],
    pages: [[u8; 2]; 3],
    faults: u64,
    controller: Controller,
    ram: Ram,
}

/// A port between two of them, whose copy of one block may fail at the destination.
#[derive(Drop)]
struct FakePort {
    from: FakeSide,
    to: FakeSide,
    left: u32,
    broken: Option<u32>,
}

impl WorkPort for FakePort {
    ghost use Rattle.manager.specs.Port.{PortState, work_of, works_port};

    ghost Inside = { PortState (Unit {0}) };

    ghost work = { λ p. work_of (record {
      from = record { blocks = Some p.from.blocks; faults = p.from.faults; pages = p.from.pages; controller = p.from.controller };
      to = record { blocks = Some p.to.blocks; faults = p.to.faults; pages = p.to.pages; controller = p.to.controller };
      count = 4;
      left = p.left;
      inside = tt;
    }) };

    ghost works = { works_port (λ old call new. Unit {0}) };

    ghost seated = { λ p. Unit {0} };

    fn copy(&mut self, b: u32) -> CopyAnswer {
        self.left -= 1;
        if self.broken == Some(b) {
            self.to.faults = self.to.faults.saturating_add(1);
            return CopyAnswer::Fault { side: Side::To };
        }
        self.to.blocks[b as usize] = self.from.blocks[b as usize];
        CopyAnswer::Copied
    }

    fn take(&mut self) -> Option<Change> {
        self.from.controller.take_change()
    }
}

impl Port for FakePort {
    ghost Meaning = { Unit {0} };

    ghost state = { λ p. record {
      from = record { blocks = Some p.from.blocks; faults = p.from.faults; pages = p.from.pages; controller = p.from.controller };
      to = record { blocks = Some p.to.blocks; faults = p.to.faults; pages = p.to.pages; controller = p.to.controller };
      count = 4;
      left = p.left;
      inside = tt;
    } };

    ghost moves = { λ old call new. Unit {0} };

    fn admin(&mut self, side: Side, cmd: &AdminCmd, bytes: &mut [u8]) -> AdminCpl {
        self.left -= 1;
        match side {
            Side::From => send(cmd, &mut self.from, bytes),
            Side::To => send(cmd, &mut self.to, bytes),
        }
    }

    fn copy_page(&mut self, page: u32) {
        self.left -= 1;
        self.to.pages[page as usize] = self.from.pages[page as usize];
    }

    fn mark(&mut self, _n: u64) {
        self.left -= 1;
    }

    ghost both = { record { told = λ p. p; count = λ p. refl; left = λ p. refl; sides = λ p. refl; calls = λ old c new call. call; always = λ p. tt } };
}

fn send(cmd: &AdminCmd, side: &mut FakeSide, bytes: &mut [u8]) -> AdminCpl
    requires command { IsCommand cmd.now }
    requires quiet { All (λ p. p.commands ≡ []) side.old.controller.pairs }
    requires buffer { FitsBuffer (command_bytes cmd.now) (length bytes.old) }
    ensures answers { Answers (command_bytes cmd.now) side.old.controller bytes.old result side.new.controller bytes.new }
    ensures others { side.new ≡ record side.old { controller = side.new.controller; ram = side.new.ram } }
{
    side.controller.admin(&cmd.to_bytes(), &mut side.ram, bytes)
}

/// What a move of four blocks and three pages is asked to do.
const SET: MoveSet = MoveSet {
    blocks: 4,
    ram_pages: 3,
    slice: 1,
    small: 4,
    pages: 4,
    patience: 1,
    cells: 2,
};

/// A controller of one pair, whose guest submitted one entry, and one that waits for its state.
fn start(alloc: Global, broken: Option<u32>) -> Result<FakePort, OutOfMemory>
    ensures sides { IfOk result (λ p. MayCutOver (⟦<FakePort as Port>⟧.state p)) }
    ensures fits { IfOk result (λ p. Fits (with_all true Begun SET) (⟦<FakePort as Port>⟧.state p)) }
    ensures left { IfOk result (λ p. p.left ≡ 524288) }
{
    let pairs = [PairSet {
        sq: 2,
        cq: 2,
        pages: 1,
    }];
    Ok(FakePort {
        from: FakeSide {
            blocks: [[1, 2], [3, 4], [5, 6], [7, 8]],
            pages: [[9, 10], [11, 12], [13, 14]],
            faults: 0,
            controller: Controller::make(alloc, &pairs, 2, 1)?,
            ram: Ram::empty(),
        },
        to: FakeSide {
            blocks: [[0; 2]; 4],
            pages: [[0; 2]; 3],
            faults: 0,
            controller: Controller::blank(alloc, &pairs, 2, 1)?,
            ram: Ram::empty(),
        },
        left: 524_288,
        broken,
    })
}

#[test]
fn a_move(rt: HostRuntime) -> Result<(), &'static str> {
    let Ok(mut port) = start(rt.alloc(), None) else {
        return Err("port");
    };
    let Ok(mut manager) = Manager::make(rt.alloc(), SET) else {
        return Err("manager");
    };
    assert!(rt; manager.begin());
    let pause = manager.cut_over(0, &mut port);
    assert!(rt;
        pause
            == Ok(Pause {
                blocks: 4,
                pages: 3
            })
    );
    assert!(rt; port.to.blocks == port.from.blocks);
    assert!(rt; port.to.pages == port.from.pages);
    assert!(rt; port.to.controller.phase() == Phase::Running);
    assert!(rt; port.from.controller.phase() == Phase::Suspended);
    Ok(())
}

/// The third copy fails: the destination's state stays, and the source goes on.
#[test]
fn a_move_that_is_given_up(rt: HostRuntime) -> Result<(), &'static str> {
    let Ok(mut port) = start(rt.alloc(), Some(2)) else {
        return Err("port");
    };
    let Ok(mut manager) = Manager::make(rt.alloc(), SET) else {
        return Err("manager");
    };
    assert!(rt; manager.begin());
    let Err(fault) = manager.cut_over(0, &mut port) else {
        return Err("moved");
    };
    assert!(rt; fault == MediumFault { side: Side::To });
    assert!(rt; port.from.controller.phase() == Phase::Suspended);
    assert!(rt; port.to.controller.phase() == Phase::Loading);
    assert!(rt; port.to.blocks == [[1, 2], [3, 4], [0, 0], [0, 0]]);
    manager.give_up(0, &mut port);
    assert!(rt; port.from.controller.phase() == Phase::Running);
    assert!(rt; port.to.controller.phase() == Phase::Loading);
    Ok(())
}
