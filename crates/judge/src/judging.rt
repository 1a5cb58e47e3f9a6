// A text is judged line by line.
ghost use Rattle.std.specs.Prelude.{◌≡◌, ◌≤◌, ◌↔◌, [], ◌∷◌, IfOk, IsTrue, Ok, OnOk, length};
ghost use Rattle.nvm_model.specs.declared.script.Script.{Script as TheScript};
ghost use Rattle.nvm_model.specs.History.{Steps, events_of, is_event};
ghost use Rattle.nvm_model.specs.ScriptText.{IsScript};
ghost use Rattle.nvm_model.specs.World.{start_world};
ghost use Rattle.judge.specs.declared.verdict.Verdict.{Verdict as TheVerdict};
ghost use Rattle.judge.specs.declared.stage.Stage.TheVariants.{Over};
ghost use Rattle.judge.specs.Decides.{Decides};
ghost use Rattle.judge.specs.Judging.{FaultIn};
ghost use Rattle.judge.specs.Verdict.{IsVerdict, zeroed};
ghost use Rattle.judge.specs.World.{IsWorldOf, world_of};

use crate::next_line::next_line;
use crate::stage::Stage;
use crate::world::JudgedWorld;
use crate::{Fault, Verdict};
use mig_base::OutOfMemory;
use nvm_model::{Line, Script};
use std::alloc::Global;

/// Judges a text: whether it is a whole transcript for the script, whose events are legal from a zeroed namespace and
/// zeroed memory, and after which every lane is complete. Else it tells the first line that makes it wrong, and why; on
/// one line `Form` goes before the others. The numbers of `round` and `pause` aren't judged, nor how events stand in
/// turns.
///
/// All memory is taken before the first line is judged.
///
/// # Errors
///
/// `OutOfMemory` where there is no memory for the world.
pub fn check(alloc: Global, s: &Script, text: &[u8]) -> Result<Verdict, OutOfMemory>
    requires script { IsScript s.now }
    requires few { length text.now ≤ 67108864 }
    // What is said is true of the text.
    ensures said { IfOk result (IsVerdict s.now text.now) }
    // One verdict at most is true of a text, and it is said, unless memory runs out.
    ensures only { (v : TheVerdict) → IsVerdict s.now text.now v → OnOk result (result ≡ Ok v) }
{
    let mut world = JudgedWorld::make(alloc, s)?;
    Ok(judge(s, text, &mut world))
}

fn judge(s: &Script, text: &[u8], world: &mut JudgedWorld) -> Verdict
    requires few { length text.now ≤ 67108864 }
    requires of { IsWorldOf s.now world.old }
    requires start { world_of world.old ≡ start_world s.now.head (zeroed s.now.head) }
    ensures { IsVerdict s.now text.now result }
{
    let mut stage = Stage::Title;
    let mut rest = text;
    let mut line = 1u32;
    'lines: loop {
        if is_read(stage, rest) {
            return Verdict::Yes;
        }
        let Some((due, after)) = next_line(rest) else {
            let why = Fault::Form;
            return Verdict::No { line, why };
        };
        let Some(next) = stage.after_line(s.head.migrate, &due) else {
            let why = Fault::Form;
            return Verdict::No { line, why };
        };
        if let Some(why) = fault_of(&due, next, world) {
            return Verdict::No { line, why };
        }
        stage = next;
        rest = after;
        line += 1;
    }
}

/// What is wrong with a line that leads to a stage, if anything is. An event that is legal is done.
fn fault_of(line: &Line, next: Stage, world: &mut JudgedWorld) -> Option<Fault>
    requires of { (s : TheScript) × IsWorldOf s world.old }
    ensures fault { (s : TheScript) → IsWorldOf s world.old → FaultIn s (world_of world.old) line.now next result (world_of world.new) }
    ensures of { (s : TheScript) → IsWorldOf s world.old → IsWorldOf s world.new }
{
    if !take_line(line, world) {
        return Some(Fault::Legal);
    }
    if !next.is_over() {
        return None;
    }
    if world.is_complete() {
        None
    } else {
        Some(Fault::Complete)
    }
}

/// Does the event that a line is, if it is one: whether it is legal.
fn take_line(line: &Line, world: &mut JudgedWorld) -> bool
    requires of { (s : TheScript) × IsWorldOf s world.old }
    ensures step { (s : TheScript) → IsWorldOf s world.old → Decides result (Steps s (world_of world.old) (events_of (line.now ∷ []))) (world_of world.new) }
    ensures of { (s : TheScript) → IsWorldOf s world.old → IsWorldOf s world.new }
{
    if !is_event(line) {
        return true;
    }
    world.step(line)
}

/// Whether a whole transcript was read, and nothing is left.
fn is_read(stage: Stage, rest: &[u8]) -> bool
    ensures { IsTrue result ↔ (stage ≡ Over) × (rest.now ≡ []) }
{
    stage.is_over() && rest.is_empty()
}

fn is_event(line: &Line) -> bool
    ensures { result ≡ is_event line.now }
{
    matches!(
        line,
        Line::Act { .. }
            | Line::Reap { .. }
            | Line::Fetch { .. }
            | Line::Piece { .. }
            | Line::Post { .. }
    )
}
