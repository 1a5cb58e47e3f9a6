ghost use Rattle.std.specs.Prelude.{◌≡◌, ◌↔◌, true, Ok, MatchResult};
ghost use Rattle.nvm_model.specs.Text.{line_text, IsLine, HasForm};
ghost use Rattle.nvm_model.specs.declared.line.Line.{Line as TheLine};

use crate::guess::guess;
use crate::{Line, LineBuf, Outcome, print_line};

/// The bytes are no line of a transcript.
#[derive(Clone, Copy, Debug, PartialEq, Eq)]
pub struct NotALine;

/// Whether no digest stands beside `Differs`.
fn has_form(line: &Line) -> bool
    ensures { (result ≡ true) ↔ HasForm line.now }
{
    match line {
        Line::Piece {
            outcome: Outcome::Differs { .. },
            digest: Some(_),
            ..
        } => false,
        _ => true,
    }
}

/// Whether the text is the line's.
fn has_text(line: &Line, text: &[u8]) -> bool
    ensures exact { (result ≡ true) ↔ (text.now ≡ line_text line.now) }
    ensures form { HasForm line.now → IsLine line.now }
{
    let mut out = LineBuf::new();
    print_line(line, &mut out);
    out.bytes() == text
}

/// Whether the line is in range and the text is its text.
#[tactic(auto, using(crate::proofs::Lines::form_of))]
fn is_line(line: &Line, text: &[u8]) -> bool
    ensures { (result ≡ true) ↔ (IsLine line.now × (text.now ≡ line_text line.now)) }
{
    has_form(line) && has_text(line, text)
}

/// Reads one line, with its line feed. The line that is guessed is printed and compared with the text.
pub fn parse_line(text: &[u8]) -> Result<Line, NotALine>
    // What is read is in range, and the text is its text, each byte of it. If nothing is read, no line has the text.
    ensures exact { MatchResult result (λ l. IsLine l × (text.now ≡ line_text l)) (λ e. (l : TheLine) → IsLine l → text.now ≡ line_text l → ⊥) }
    // A line in range is read from its text.
    ensures only { (l : TheLine) → IsLine l → text.now ≡ line_text l → result ≡ Ok l }
{
    let Ok(line) = guess(text) else {
        return Err(NotALine);
    };
    if is_line(&line, text) {
        Ok(line)
    } else {
        Err(NotALine)
    }
}
