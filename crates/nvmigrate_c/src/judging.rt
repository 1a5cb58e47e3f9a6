// Transcripts are judged.
ghost use Rattle.std.specs.Prelude.{◌≡◌, ◌≢◌, ◌<◌, ◌≤◌, ◌⊎◌, ◌++◌, ℕ, List, Err, IfErr, IfOk, MatchOption, Ok, Some, length};
ghost use Rattle.nvm_model.specs.declared.script.Script.{Script as TheScript};
ghost use Rattle.nvm_model.specs.ScriptText.{IsScript, script_text};
ghost use Rattle.script.specs.BadLine.{IsFrontRefused};
ghost use Rattle.script.specs.declared.refusal.ParseRefusal.TheVariants.{Bad};
ghost use Rattle.script.specs.declared.refusal.Why.{Why as TheWhy};
ghost use Rattle.judge.specs.declared.verdict.Verdict.{Verdict as TheVerdict};
ghost use Rattle.judge.specs.Verdict.{IsVerdict};
ghost use Rattle.nvmigrate_c.specs.Judged.{HasVerdict, verdict_told, why_number};

use crate::code::{
    BAD_SCRIPT, OK, OUT_OF_MEMORY, TOO_LONG, WRONG_COMPLETE, WRONG_FORM, WRONG_LEGAL,
};
use judge::{Fault, Verdict};
use mig_base::OutOfMemory;
use script::{BadLine, ParseRefusal, Why};
use std::alloc::Global;

/// The longest text that is judged, in bytes: a script and a transcript behind it.
const MOST_JUDGED: usize = 67_108_864;

/// Where a text is wrong: the line, counted from 1, and of a script's line what is wrong with it: 0 its form, 1 a
/// number that is out of its range, 2 that it has no line feed or isn't there. Of a transcript's line the latter is 0.
#[repr(C)]
#[derive(Clone, Copy)]
pub struct WrongLine {
    pub line: u32,
    pub why: u32,
}

/// Judges a script and a transcript directly behind it: whether it is a whole transcript for the script, whose events
/// are legal from a zeroed namespace and zeroed memory, and after which every lane is complete.
///
/// # Errors
///
/// `TOO_LONG` exactly where the text has more than 67,108,864 bytes. `BAD_SCRIPT` where it has no script in front,
/// with the first line that isn't right. `WRONG_FORM`, `WRONG_LEGAL` and `WRONG_COMPLETE` with the first line of the
/// transcript that is wrong. `OUT_OF_MEMORY` where there is no memory. After the other codes `wrong` stays as it was.
#[unsafe(no_mangle)]
pub extern "C" fn nvmigrate_judge(alloc: Global, text: &[u8], wrong: &mut WrongLine) -> u32
    ensures long { 67108864 < length text.now → result ≡ TOO_LONG }
    ensures short { length text.now ≤ 67108864 → result ≢ TOO_LONG }
    ensures told { result ≢ TOO_LONG → result ≢ OUT_OF_MEMORY → result ≢ BAD_SCRIPT
        → MatchOption (verdict_told result wrong.new.line) ⊥ (λ v. HasVerdict text.now v) }
    ensures refused { result ≡ BAD_SCRIPT → (why : TheWhy) × (wrong.new.why ≡ why_number why)
        × IsFrontRefused text.now (Bad (record { line = wrong.new.line; why = why })) }
    ensures why { result ≢ OK → result ≢ TOO_LONG → result ≢ OUT_OF_MEMORY → result ≢ BAD_SCRIPT
        → wrong.new.why ≡ 0 }
    ensures yes { result ≡ OK → wrong.new ≡ wrong.old }
    ensures unread { result ≡ TOO_LONG → wrong.new ≡ wrong.old }
    ensures unjudged { result ≡ OUT_OF_MEMORY → wrong.new ≡ wrong.old }
    // One verdict at most is true of a text with a script in front, and it is said, unless memory runs out.
    ensures only { (s : TheScript) → (transcript : List ℕ) → (v : TheVerdict) → IsScript s
        → text.now ≡ script_text s ++ transcript → IsVerdict s transcript v → length text.now ≤ 67108864
        → (result ≡ OUT_OF_MEMORY) ⊎ (verdict_told result wrong.new.line ≡ Some v) }
{
    if text.len() > MOST_JUDGED {
        return TOO_LONG;
    }
    match judge_text(alloc, text) {
        Ok(Verdict::Yes) => OK,
        Ok(Verdict::No { line, why }) => {
            *wrong = WrongLine { line, why: 0 };
            fault_code(why)
        }
        Err(ParseRefusal::Bad(BadLine { line, why })) => {
            *wrong = WrongLine {
                line,
                why: number_of(why),
            };
            BAD_SCRIPT
        }
        Err(ParseRefusal::OutOfMemory) => OUT_OF_MEMORY,
    }
}

/// What the judge says of a script and a transcript behind it.
fn judge_text(alloc: Global, text: &[u8]) -> Result<Verdict, ParseRefusal>
    requires { length text.now ≤ 67108864 }
    ensures judged { IfOk result (HasVerdict text.now) }
    ensures refusal { IfErr result (IsFrontRefused text.now) }
    ensures only { (s : TheScript) → (transcript : List ℕ) → (v : TheVerdict) → IsScript s
        → text.now ≡ script_text s ++ transcript → IsVerdict s transcript v
        → (result ≡ Ok v) ⊎ (result ≡ Err ParseRefusal.OutOfMemory) }
{
    let (script, at) = match script::parse_front(alloc, text) {
        Ok(front) => front,
        Err(refusal) => return Err(refusal),
    };
    match judge::check(alloc, &script, &text[at..]) {
        Ok(verdict) => Ok(verdict),
        Err(OutOfMemory) => Err(ParseRefusal::OutOfMemory),
    }
}

fn fault_code(why: Fault) -> u32
    ensures told { (line : ℕ) → verdict_told result line ≡ Some (TheVerdict.No line why) }
    ensures done { result ≢ OK }
    ensures short { result ≢ TOO_LONG }
    ensures memory { result ≢ OUT_OF_MEMORY }
    ensures script { result ≢ BAD_SCRIPT }
{
    match why {
        Fault::Form => WRONG_FORM,
        Fault::Legal => WRONG_LEGAL,
        Fault::Complete => WRONG_COMPLETE,
    }
}

fn number_of(why: Why) -> u32
    ensures { result ≡ why_number why }
{
    match why {
        Why::Form => 0,
        Why::Range => 1,
        Why::Cut => 2,
        Why::More => 3,
    }
}
