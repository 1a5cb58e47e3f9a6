//! The acts of a script, by the words of their lines.

ghost use Rattle.std.specs.Prelude.{◌≡◌, ℕ, ◌≤◌, ◌<◌, replicate, length};
ghost use Rattle.script.specs.ActWords.{fill_in, poke_in, pages_on, list_in, submit_in, raw_in, act_in, line_in, act_form, is_act_form};

use crate::form::{Piece, is_numeral, is_row};
use crate::line::Words;
use crate::value::{bytes, number, op, option_in, page_in, ranged};
use nvm_model::{Act, Head};

/// What stands behind `fill`.
#[tactic(auto, unfolding(crate::specs::ActWords::fill_in))]
fn fill(words: &Words, pages: u16) -> Option<Act>
    ensures { result ≡ fill_in pages words.now }
{
    let (page, rest) = words.next()?;
    let digits = rest.last()?;
    let page = page_in(page, pages)?;
    let mut byte = [0];
    bytes(digits, &mut byte)?;
    Some(Act::Fill {
        page,
        byte: byte[0],
    })
}

/// What stands behind `poke`.
#[tactic(auto, unfolding(crate::specs::ActWords::poke_in))]
fn poke(words: &Words, pages: u16) -> Option<Act>
    ensures { result ≡ poke_in pages words.now }
{
    let (page, rest) = words.next()?;
    let (at, rest) = rest.next()?;
    let digits = rest.last()?;
    let used = digits.len() / 2;
    if used < 1 || used > 32 {
        return None;
    }
    let page = page_in(page, pages)?;
    let at = ranged(at, 0, 4096 - used as u64)? as u16;
    let mut written = [0; 32];
    bytes(digits, &mut written[..used])?;
    Some(Act::Poke {
        page,
        at,
        bytes: written,
        used: used as u8,
    })
}

/// Data pages of a lane that has so many, at most 8, and how many they are.
#[tactic(auto, unfolding(crate::specs::ActWords::pages_on))]
fn pages_named(words: &Words, pages: u16) -> Option<([u16; 8], u8)>
    ensures { result ≡ pages_on pages (replicate 8 0) 0 words.now }
{
    let mut found = [0; 8];
    let mut used = 0;
    let mut left = words.next();
    while let Some((word, rest)) = left {
        if used >= 8 {
            return None;
        }
        found[used as usize] = page_in(word, pages)?;
        used += 1;
        left = rest.next();
    }
    Some((found, used))
}

/// What stands behind `list`.
#[tactic(auto, unfolding(crate::specs::ActWords::list_in))]
fn list(words: &Words, pages: u16) -> Option<Act>
    ensures { result ≡ list_in pages words.now }
{
    let (page, rest) = words.next()?;
    let page = page_in(page, pages)?;
    let (named, used) = pages_named(&rest, pages)?;
    if used == 0 {
        return None;
    }
    Some(Act::List {
        page,
        pages: named,
        used,
    })
}

/// What stands behind `submit`.
#[tactic(auto, unfolding(crate::specs::ActWords::submit_in))]
fn submit(words: &Words, pages: u16) -> Option<Act>
    ensures { result ≡ submit_in pages words.now }
{
    let (cid, rest) = words.next()?;
    let (kind, rest) = rest.next()?;
    let (slba, rest) = rest.next()?;
    let (count, rest) = rest.next()?;
    let (p1, rest) = rest.next()?;
    let p2 = rest.last()?;
    let cid = ranged(cid, 0, 65535)? as u16;
    let op = op(kind)?;
    let slba = number(slba)?;
    let count = ranged(count, 1, 65536)? as u32;
    let p1 = option_in(p1, pages)?;
    let p2 = option_in(p2, pages)?;
    Some(Act::Submit {
        cid,
        op,
        slba,
        count,
        p1,
        p2,
    })
}

/// What stands behind `raw`.
#[tactic(auto, unfolding(crate::specs::ActWords::raw_in))]
fn raw(words: &Words) -> Option<Act>
    ensures { result ≡ raw_in words.now }
{
    let digits = words.last()?;
    let mut entry = [0; 64];
    bytes(digits, &mut entry)?;
    Some(Act::Raw { entry })
}

/// An act by its word and those behind it.
#[tactic(auto, unfolding(crate::specs::ActWords::act_in))]
fn act(kind: &[u8], words: &Words, pages: u16) -> Option<Act>
    ensures { result ≡ act_in pages kind.now words.now }
{
    if kind == b"fill".as_slice() {
        return fill(words, pages);
    }
    if kind == b"poke".as_slice() {
        return poke(words, pages);
    }
    if kind == b"list".as_slice() {
        return list(words, pages);
    }
    if kind == b"submit".as_slice() {
        return submit(words, pages);
    }
    if kind == b"raw".as_slice() {
        return raw(words);
    }
    if words.next().is_some() {
        return None;
    }
    if kind == b"wait".as_slice() {
        Some(Act::Wait)
    } else if kind == b"idle".as_slice() {
        Some(Act::Idle)
    } else {
        None
    }
}

/// A lane's number and its act.
#[tactic(auto, unfolding(crate::specs::ActWords::line_in))]
pub fn lane_act(head: &Head, words: &Words) -> Option<(u8, Act)>
    ensures { result ≡ line_in head.now words.now }
{
    let (lane, rest) = words.next()?;
    let (kind, rest) = rest.next()?;
    let lane = ranged(lane, 1, u64::from(head.lanes))? as u8;
    let pages = match head.sets.get(usize::from(lane) - 1) {
        Some(set) => set.pages,
        None => 0,
    };
    let act = act(kind, &rest, pages)?;
    Some((lane, act))
}

/// Whether the words behind an act's word have the forms that it asks for.
fn act_form(kind: &[u8], words: &Words) -> bool
    ensures { result ≡ act_form kind.now words.now }
{
    use Piece::{Command, Hex, Maybe, Numeral, Page};
    if kind == b"fill".as_slice() {
        return is_row(&[Numeral, Hex { low: 1, high: 1 }], words);
    }
    if kind == b"poke".as_slice() {
        return is_row(&[Numeral, Numeral, Hex { low: 1, high: 32 }], words);
    }
    if kind == b"list".as_slice() {
        let row = [
            Numeral, Numeral, Maybe, Maybe, Maybe, Maybe, Maybe, Maybe, Maybe,
        ];
        return is_row(&row, words);
    }
    if kind == b"submit".as_slice() {
        return is_row(&[Numeral, Command, Numeral, Numeral, Page, Page], words);
    }
    if kind == b"raw".as_slice() {
        return is_row(&[Hex { low: 64, high: 64 }], words);
    }
    (kind == b"wait".as_slice() || kind == b"idle".as_slice()) && is_row(&[], words)
}

/// Whether the words have the form of an act's line.
pub fn is_act_form(words: &Words) -> bool
    ensures { result ≡ is_act_form words.now }
{
    let Some((lane, rest)) = words.next() else {
        return false;
    };
    if !is_numeral(lane) {
        return false;
    }
    match rest.next() {
        Some((kind, rest)) => act_form(kind, &rest),
        None => false,
    }
}
