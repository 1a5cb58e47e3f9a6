//! The lines of a script's head, by their words.

ghost use Rattle.std.specs.Prelude.{◌≡◌, ◌≤◌, IfSome};
ghost use Rattle.script.specs.Words.{Reads};
ghost use Rattle.script.specs.Keys.{highest};
ghost use Rattle.script.specs.Lines.{lead, keyed, lane_words, set_in, is_number, is_body, is_due, number_in};

use crate::act::is_act_form;
use crate::form::is_numeral;
use crate::key::{Due, Key};
use crate::line::Words;
use crate::value::ranged;
use nvm_model::{Head, LaneSet};

/// The words of a lane's numbers: its queues' sizes, and its data pages.
type LaneWords<'a> = (&'a [u8], &'a [u8], &'a [u8]);

/// The words behind a first one.
fn lead<'a>(words: &Words<'a>, word: &[u8]) -> Option<Words<'a>>
    ensures { result ≡ lead word.now words.now }
{
    let (first, rest) = words.next()?;
    if first == word { Some(rest) } else { None }
}

/// The one word behind a first one.
pub fn keyed<'a>(words: &Words<'a>, word: &[u8]) -> Option<&'a [u8]>
    ensures { Reads (λ w. w.now) result (keyed word.now words.now) }
{
    let rest = lead(words, word)?;
    rest.last()
}

/// What stands in the line of lane `k`.
#[tactic(auto, unfolding(crate::specs::Lines::lane_words))]
fn lane_words<'a>(words: &Words<'a>, k: u8) -> Option<LaneWords<'a>>
    requires { k ≤ 9 }
    ensures { Reads (λ x. record { sq = x.0.now; cq = x.1.now; pages = x.2.now }) result (lane_words k words.now) }
{
    let rest = lead(words, b"lane")?;
    let rest = lead(&rest, &[b'0' + k])?;
    let rest = lead(&rest, b"sq")?;
    let (sq, rest) = rest.next()?;
    let rest = lead(&rest, b"cq")?;
    let (cq, rest) = rest.next()?;
    let pages = keyed(&rest, b"pages")?;
    Some((sq, cq, pages))
}

/// What lane `k` has.
#[tactic(auto, unfolding(crate::specs::Lines::set_of))]
pub fn lane_set(words: &Words, k: u8) -> Option<LaneSet>
    requires { k ≤ 9 }
    ensures { result ≡ set_in k words.now }
{
    let (sq, cq, pages) = lane_words(words, k)?;
    let sq = ranged(sq, 2, 64)? as u16;
    let cq = ranged(cq, 2, 256)? as u16;
    let pages = ranged(pages, 1, 256)? as u16;
    Some(LaneSet { sq, cq, pages })
}

/// The number of a line.
pub fn number_in(key: Key, head: &Head, line: &[u8]) -> Option<u32>
    ensures value { result ≡ number_in key head.now line.now }
    ensures high { IfSome result (λ n. n ≤ highest key head.now) }
{
    let word = keyed(&Words::new(line), key.word())?;
    let (low, high) = key.range(head);
    let n = ranged(word, u64::from(low), u64::from(high))? as u32;
    if key.are_shelves(n, head) {
        Some(n)
    } else {
        None
    }
}

/// Whether the line has the form of an act's, or is the last.
fn is_body(line: &[u8]) -> bool
    ensures { result ≡ is_body line.now }
{
    line == b"end".as_slice() || is_act_form(&Words::new(line))
}

/// Whether the words are a given one and a number.
fn is_number(words: &Words, word: &[u8]) -> bool
    ensures { result ≡ is_number (keyed word.now words.now) }
{
    match keyed(words, word) {
        Some(number) => is_numeral(number),
        None => false,
    }
}

/// Whether the line has the form of the one that is due.
pub fn is_due(due: Due, line: &[u8]) -> bool
    ensures { result ≡ is_due due line.now }
{
    let words = Words::new(line);
    match due {
        Due::Title => line == b"nvmigrate script 1".as_slice(),
        Due::Number(key) => is_number(&words, key.word()),
        Due::Lane(k) => {
            if k >= 8 {
                return false;
            }
            match lane_words(&words, k + 1) {
                Some((sq, cq, pages)) => is_numeral(sq) && is_numeral(cq) && is_numeral(pages),
                None => false,
            }
        }
        Due::Behind => is_number(&words, b"migrate") || is_body(line),
        Due::Body => is_body(line),
        Due::Done => false,
    }
}
