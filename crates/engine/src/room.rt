// What a place has beside its media, made for a script.
ghost use Rattle.std.specs.Prelude.{◌≡◌, IfOk, take};
ghost use Rattle.nvm_model.specs.ScriptText.{IsHead};
ghost use Rattle.controller.specs.Pair.{IsMade};
ghost use Rattle.session.specs.Opened.{memory_made};
ghost use Rattle.engine.specs.Opened.{phase_at};

use controller::Controller;
use guest_ram::Ram;
use mig_base::OutOfMemory;
use nvm_model::Side;
use script::Head;
use std::alloc::Global;

/// The memory of the lanes' guests, zeroed.
pub(crate) fn make_ram(alloc: Global, head: &Head) -> Result<Ram, OutOfMemory>
    requires { IsHead head.now }
    ensures { IfOk result (λ ram. ram ≡ memory_made head.now) }
{
    let sets = &head.sets[..usize::from(head.lanes)];
    let counts: Vec<u16> = sets.iter().map(|set| set.pages).collect(alloc)?;
    Ram::make(alloc, &counts)
}

/// A side's controller with the queue pairs of the lanes: the source's runs, the destination's waits for its state.
pub(crate) fn make_controller(
    alloc: Global,
    head: &Head,
    side: Side,
) -> Result<Controller, OutOfMemory>
    requires { IsHead head.now }
    ensures { IfOk result (IsMade (phase_at side) (take head.now.lanes head.now.sets)
        head.now.change head.now.burst) }
{
    let sets = &head.sets[..usize::from(head.lanes)];
    match side {
        Side::Source => Controller::make(alloc, sets, head.change, head.burst),
        Side::Destination => Controller::blank(alloc, sets, head.change, head.burst),
    }
}
