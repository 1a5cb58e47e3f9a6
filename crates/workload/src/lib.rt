//! Scripts that are made from a number, the same on every machine. For the layer above: `make` answers the script that
//! the definitions give a number, which is in the grammar, or there was no memory for it.
#![tactic(auto)]

ghost use Rattle.std.specs.Prelude.{◌≡◌, IfOk};
ghost use Rattle.nvm_model.specs.ScriptText.{IsScript};
ghost use Rattle.workload.specs.Made.{made};

mod acts;
mod command;
mod head;
mod law;
#[cfg(test)]
mod tests;

use acts::take_acts;
use head::head_of;
pub use law::{each_has_750_commands, lanes_are_apart};
use mig_base::OutOfMemory;
use nvm_model::{Acts, Script};
use std::alloc::Global;

/// The script of a number: four lanes with 750 commands each, on blocks of their own that lie on shelves which all of
/// them share, and a move in rounds. Memory is taken once, for its at most 6,004 acts.
///
/// # Errors
///
/// `OutOfMemory` where there is no memory for the acts.
pub fn make(alloc: Global, n: u64) -> Result<Script, OutOfMemory>
    ensures script { IfOk result (λ s. s ≡ made n) }
    ensures range { IfOk result IsScript }
{
    let acts = take_acts(alloc, n)?;
    Ok(Script {
        head: head_of(n),
        acts: Acts::new(acts),
    })
}
