//! The forms of words, by which a line that isn't right is told as one of the wrong form or one out of range.

ghost use Rattle.std.specs.Prelude.{◌≡◌};
ghost use Rattle.script.specs.Words.{are_digits, is_numeral, are_lower_digits, is_hex, has_form, is_row};

use crate::line::Words;
use crate::value::op;

/// The form of a word.
#[derive(Clone, Copy)]
pub enum Piece {
    /// A decimal number of any size.
    Numeral,
    /// A number, or `-`.
    Page,
    /// A command's word.
    Command,
    /// Two digits for each byte, at least and at most so many bytes.
    Hex { low: usize, high: usize },
    /// A number that may be missing.
    Maybe,
}

#[tactic(auto, unfolding(crate::specs::Words::are_digits))]
fn are_digits(word: &[u8]) -> bool
    ensures { result ≡ are_digits word.now }
{
    let mut rest = word;
    while let [digit, after @ ..] = rest {
        if !matches!(digit, b'0'..=b'9') {
            return false;
        }
        rest = after;
    }
    true
}

/// Whether the word is a decimal number.
pub fn is_numeral(word: &[u8]) -> bool
    ensures { result ≡ is_numeral word.now }
{
    match word {
        [] | [b'0', _, ..] => false,
        _ => are_digits(word),
    }
}

#[tactic(auto, unfolding(crate::specs::Words::are_lower_digits))]
fn are_lower_digits(word: &[u8]) -> bool
    ensures { result ≡ are_lower_digits word.now }
{
    let mut rest = word;
    while let [digit, after @ ..] = rest {
        if !matches!(digit, b'0'..=b'9' | b'a'..=b'f') {
            return false;
        }
        rest = after;
    }
    true
}

/// Whether the word has two digits in lower case for each byte, from `low` to `high` bytes.
fn is_hex(word: &[u8], low: usize, high: usize) -> bool
    ensures { result ≡ is_hex low high word.now }
{
    let count = word.len() / 2;
    word.len() % 2 == 0 && low <= count && count <= high && are_lower_digits(word)
}

fn has_form(piece: Piece, word: &[u8]) -> bool
    ensures { result ≡ has_form piece word.now }
{
    match piece {
        Piece::Numeral | Piece::Maybe => is_numeral(word),
        Piece::Page => word == b"-".as_slice() || is_numeral(word),
        Piece::Command => op(word).is_some(),
        Piece::Hex { low, high } => is_hex(word, low, high),
    }
}

/// Whether the words have these forms, one for each.
#[tactic(auto, unfolding(crate::specs::Words::is_row))]
pub fn is_row(row: &[Piece], words: &Words) -> bool
    ensures { result ≡ is_row row.now words.now }
{
    let [piece, others @ ..] = row else {
        return words.next().is_none();
    };
    match words.next() {
        Some((word, rest)) => has_form(*piece, word) && is_row(others, &rest),
        None => matches!(*piece, Piece::Maybe) && is_row(others, words),
    }
}
