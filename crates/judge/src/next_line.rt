// The lines of a text.
ghost use Rattle.std.specs.Prelude.{◌≡◌, ◌++◌, IfNone, IfSome, None};
ghost use Rattle.nvm_model.specs.Text.{IsLine, line_text};
ghost use Rattle.script.specs.Words.{cut_at};
ghost use Rattle.judge.specs.NextLine.{BeginsWith};
ghost use Rattle.judge.specs.Verdict.{ComesNext};

use memchr::memchr;
use transcript::{Line, parse_line};

/// The line with which a text begins, and what comes after it, if one does.
pub(crate) fn next_line(text: &[u8]) -> Option<(Line, &[u8])>
    ensures line { IfSome result (λ x. IsLine x.0) }
    ensures rest { IfSome result (λ x. text.now ≡ line_text x.0 ++ x.1.now) }
    ensures none { IfNone result (ComesNext text.now (λ l. Unit {0}) → ⊥) }
{
    let (line, after) = cut_line(text)?;
    match parse_line(line) {
        Ok(line) => Some((line, after)),
        Err(_) => None,
    }
}

/// What stands up to the first line feed and with it, and what stands after it.
fn cut_line(text: &[u8]) -> Option<(&[u8], &[u8])>
    ensures line { IfSome result (λ x. BeginsWith text.now x.0.now x.1.now) }
    ensures none { IfNone result (cut_at 10 text.now ≡ None) }
{
    match memchr(b'\n', text) {
        None => None,
        Some(at) => Some(text.split_at(at + 1)),
    }
}
