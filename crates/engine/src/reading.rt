// The script, out of the input.
ghost use Rattle.std.specs.Prelude.{◌≡◌, ◌≤◌, true, false, length, IfOk, IfErr, IfSome, IfNone};
ghost use Rattle.nvm_model.specs.declared.script.Script.{Script};
ghost use Rattle.nvm_model.specs.World.{window_pages};
ghost use Rattle.nvm_model.specs.ScriptText.{IsScript, script_text};
ghost use Rattle.engine.specs.Built.{IsBuilt, IsUnbuilt, Spells, SpellsOnly};
ghost use Rattle.engine.specs.Claims.{HasReadCause, IsReadRefusal, IsNoScript};

use crate::Status;
use mig_base::{CollectRefusal, Source, collect};
use script::{BadLine, Head, ParseRefusal, Script, parse};
use session::window_pages;
use std::alloc::Global;

/// The longest input that is read, in bytes.
const MOST_BYTES: usize = 4_194_304;

/// Reads the input to its end, and answers the script that it spells.
///
/// # Errors
///
/// The status that the program ends with: a fault of the input, an input that is too long, no script, or no memory.
pub(crate) fn read_script<S: Source>(alloc: Global, input: &mut S) -> Result<Script, Status>
    ensures script { IfOk result IsScript }
    ensures spells { IfOk result (Spells (S.left input.old)) }
    ensures only { IfOk result (SpellsOnly (S.left input.old)) }
    ensures refusal { IfErr result (IsReadRefusal (S.left input.old)) }
    ensures cause { HasReadCause (S.faults input.old) (S.faults input.new) result }
{
    match collect(alloc, input, MOST_BYTES) {
        Ok(text) => take_script(alloc, text.as_slice()),
        Err(CollectRefusal::Fault) => Err(Status::ReadFault),
        Err(CollectRefusal::TooLong) => Err(Status::TooLong),
        Err(CollectRefusal::OutOfMemory) => Err(Status::OutOfMemory),
    }
}

/// The script that a text spells.
fn take_script(alloc: Global, text: &[u8]) -> Result<Script, Status>
    requires { length text.now ≤ 4194304 }
    ensures script { IfOk result IsScript }
    ensures spells { IfOk result (λ s. text.now ≡ script_text s) }
    ensures only { IfOk result (λ s. (other : Script) → IsScript other → text.now ≡ script_text other → s ≡ other) }
    ensures refusal { IfErr result (IsNoScript text.now) }
{
    match parse(alloc, text) {
        Ok(script) => Ok(script),
        Err(ParseRefusal::Bad(BadLine { line, why })) => Err(Status::BadScript { line, why }),
        Err(ParseRefusal::OutOfMemory) => Err(Status::OutOfMemory),
    }
}

/// The line of the head that asks for what isn't built yet: that of `migrate`, behind the lanes' lines.
pub(crate) fn unbuilt_line(head: &Head) -> Option<u32>
    requires { head.now.lanes ≤ 8 }
    ensures built { IfNone result (IsBuilt head.now) }
    ensures unbuilt { IfSome result (IsUnbuilt head.now) }
{
    if moves_suspended(head) {
        None
    } else {
        Some(u32::from(head.lanes) + 12)
    }
}

/// Whether a migration, where the head asks for one, copies everything while the guests are suspended.
fn moves_suspended(head: &Head) -> bool
    requires { head.now.lanes ≤ 8 }
    ensures yes { result ≡ true → IfSome head.now.migrate
        (λ _. (head.now.small ≡ head.now.blocks) × (window_pages head.now ≤ head.now.pages)) }
    ensures no { result ≡ false → IfSome head.now.migrate
        (λ _. (head.now.small ≡ head.now.blocks) × (window_pages head.now ≤ head.now.pages)) → ⊥ }
{
    match head.migrate {
        None => true,
        Some(_) => head.small == head.blocks && window_pages(head) <= head.pages,
    }
}
