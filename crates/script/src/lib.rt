//! Scripts: `parse` gives a script only of a text that it spells, each byte of it and in range, and it gives the script
//! of each text that one spells, unless memory runs out. Of any other text it tells the first line that isn't right,
//! with its cause. `parse_front` does so with the front of a text, whatever stands behind it.
#![tactic(auto)]

ghost use Rattle.std.specs.Prelude.{◌≡◌, ◌≤◌, ◌⊎◌, ℕ, List, ◌++◌, length, take, IfOk, IfErr, Ok, Err};
ghost use Rattle.nvm_model.specs.ScriptText.{IsScript, script_text};
ghost use Rattle.nvm_model.specs.declared.script.Script.{Script};
ghost use Rattle.script.specs.BadLine.{IsBadLine, IsRefusedAt, IsFrontRefused};
ghost use Rattle.script.specs.declared.refusal.BadLine.{BadLine};

mod act;
mod form;
mod head;
mod key;
mod law;
mod line;
mod reader;
mod refusal;
mod value;
mod write;

pub use law::{one_bad_line, one_script};
pub use nvm_model::{Act, Acts, Head, LaneSet, Script};
use reader::read_front;
pub use refusal::{BadLine, ParseRefusal, Why};
use std::alloc::Global;
pub use write::write_script;

/// Reads a script.
pub fn parse(alloc: Global, text: &[u8]) -> Result<Script, ParseRefusal>
    // What is read is spelled so, each byte of it, and in range.
    ensures found { IfOk result (λ s. IsScript s × (text.now ≡ script_text s)) }
    // What is spelled so is read, unless memory runs out.
    ensures only { (s : Script) → IsScript s → text.now ≡ script_text s → (result ≡ Ok s) ⊎ (result ≡ Err ParseRefusal.OutOfMemory) }
    // The line that is told is the first that isn't right, with its cause.
    ensures bad { IfErr result (λ refusal. IsRefusedAt text.now refusal) }
    // There is at most one such line, and it is told, unless memory runs out.
    ensures told { (bad : BadLine) → IsBadLine text.now bad → (result ≡ Err (ParseRefusal.Bad bad)) ⊎ (result ≡ Err ParseRefusal.OutOfMemory) }
{
    match read_front(alloc, text) {
        Ok((reader, rest, line)) => {
            if !rest.is_empty() {
                let why = Why::More;
                return Err(ParseRefusal::Bad(BadLine { line, why }));
            }
            Ok(reader.script())
        }
        Err(refusal) => Err(refusal),
    }
}

/// Reads a script at the front of a text, and answers where the bytes behind its line `end` begin.
pub fn parse_front(alloc: Global, text: &[u8]) -> Result<(Script, usize), ParseRefusal>
    // What is read is spelled by the front of the text, each byte of it, and in range.
    ensures found { IfOk result (λ x. IsScript x.0 × (x.1 ≤ length text.now) × (take x.1 text.now ≡ script_text x.0)) }
    // A script that the front of the text spells is read, unless memory runs out.
    ensures only { (s : Script) → (rest : List ℕ) → IsScript s → text.now ≡ script_text s ++ rest → (result ≡ Ok (s, length (script_text s))) ⊎ (result ≡ Err ParseRefusal.OutOfMemory) }
    // The line that is told is the first that isn't right, with its cause. Bytes behind the script are no cause.
    ensures bad { IfErr result (λ refusal. IsFrontRefused text.now refusal) }
{
    match read_front(alloc, text) {
        Ok((reader, rest, _)) => {
            let end = text.len().saturating_sub(rest.len());
            Ok((reader.script(), end))
        }
        Err(refusal) => Err(refusal),
    }
}
