//! The parts of a line. Each reader finds its part in a text that begins with it. Of other texts it may make anything:
//! `parse_line` compares the text of the line that it makes with the whole.

ghost use Rattle.std.specs.Prelude.{◌≡◌, ℕ, ◌+◌, ◌-◌, ◌*◌, ◌<◌, ◌≤◌, IfOk, length};
ghost use Rattle.transcript.specs.Reading.{Reads, word_at, with_digit, digits_from, field_at, bytes_at, lane_of, event_at, status_at, outcome_at, digest_at};

use crate::{NotALine, Outcome};
use mig_base::LaneNo;
use nvm_values::Status;

/// What comes after a word.
pub fn word<'a>(text: &'a [u8], word: &[u8]) -> Result<&'a [u8], NotALine>
    ensures { Reads (λ rest. rest.now) result (word_at word.now text.now) }
{
    match text.strip_prefix(word) {
        Some(rest) => Ok(rest),
        None => Err(NotALine),
    }
}

/// A number with one more digit, or the largest that has 32 bits.
fn with_digit(n: u32, digit: u8) -> u32
    requires low { 48 ≤ digit }
    requires high { digit ≤ 57 }
    ensures { result ≡ with_digit n digit }
{
    let more = u64::from(n) * 10 + u64::from(digit - b'0');
    if more < 4_294_967_296 {
        more as u32
    } else {
        u32::MAX
    }
}

/// The number whose digits begin the text, and what comes after them.
#[tactic(auto, unfolding(crate::specs::Reading::digits_from))]
fn digits(text: &[u8]) -> (u32, &[u8])
    ensures { (result.0, result.1.now) ≡ digits_from 0 text.now }
{
    let mut n = 0;
    let mut rest = text;
    while let [digit @ b'0'..=b'9', after @ ..] = rest {
        n = with_digit(n, *digit);
        rest = after;
    }
    (n, rest)
}

/// A number, and what comes after the byte that ends it.
#[tactic(auto, unfolding(crate::specs::Reading::field_at))]
pub fn field(text: &[u8]) -> (u32, &[u8])
    ensures { (result.0, result.1.now) ≡ field_at text.now }
{
    let (n, rest) = digits(text);
    match rest {
        [_, after @ ..] => (n, after),
        [] => (n, rest),
    }
}

/// Fills `out`, at most 32 bytes, from hexadecimal digits in either case, and gives what comes after them.
#[tactic(auto, unfolding(crate::specs::Reading::bytes_at))]
fn bytes<'a>(text: &'a [u8], out: &mut [u8]) -> Result<&'a [u8], NotALine>
    requires { length out.old ≤ 32 }
    ensures { Reads (λ rest. (out.new, rest.now)) result (bytes_at (length out.old) text.now) }
{
    let used = 2 * out.len();
    if text.len() < used {
        return Err(NotALine);
    }
    match hex::decode_to_slice(&text[..used], out) {
        Ok(()) => Ok(&text[used..]),
        Err(_) => Err(NotALine),
    }
}

/// The lane of that number, if there is one.
pub fn lane(n: u32) -> Result<LaneNo, NotALine>
    ensures { Reads (λ k. k) result (lane_of n) }
{
    if n > 8 {
        return Err(NotALine);
    }
    match LaneNo::new(n as u8) {
        Some(lane) => Ok(lane),
        None => Err(NotALine),
    }
}

/// A lane and a command's identifier.
#[tactic(auto, unfolding(crate::specs::Reading::event_at))]
pub fn event(text: &[u8]) -> Result<((LaneNo, u16), &[u8]), NotALine>
    ensures { Reads (λ x. (x.0, x.1.now)) result (event_at text.now) }
{
    let (k, rest) = field(text);
    let (cid, rest) = field(rest);
    let lane = lane(k)?;
    if cid > 65535 {
        return Err(NotALine);
    }
    Ok(((lane, cid as u16), rest))
}

/// A status, and what comes after the byte that ends it.
#[tactic(auto, unfolding(crate::specs::Reading::status_at))]
pub fn status(text: &[u8]) -> Result<(Status, &[u8]), NotALine>
    ensures { Reads (λ x. (x.0, x.1.now)) result (status_at text.now) }
{
    let (sct, rest) = field(text);
    let mut sc = [0];
    let rest = bytes(rest, &mut sc)?;
    if sct > 7 {
        return Err(NotALine);
    }
    let status = Status::new(sct as u8, sc[0]);
    match rest {
        [_, after @ ..] => Ok((status, after)),
        [] => Ok((status, rest)),
    }
}

/// How a piece ended, and what comes after it.
#[tactic(auto, unfolding(crate::specs::Reading::outcome_at))]
pub fn outcome(text: &[u8]) -> Result<(Outcome, &[u8]), NotALine>
    ensures { Reads (λ x. (x.0, x.1.now)) result (outcome_at text.now) }
{
    if let Ok(rest) = word(text, b"ok") {
        return Ok((Outcome::Done, rest));
    }
    if let Ok(rest) = word(text, b"fault ") {
        let (at, rest) = digits(rest);
        return Ok((Outcome::Faulted { at }, rest));
    }
    let rest = word(text, b"differs ")?;
    let (at, rest) = digits(rest);
    Ok((Outcome::Differs { at }, rest))
}

/// What stands behind an outcome: a space and a digest, or none.
#[tactic(auto, unfolding(crate::specs::Reading::digest_at))]
pub fn digest(text: &[u8]) -> Result<Option<[u8; 32]>, NotALine>
    ensures { Reads (λ d. d) result (digest_at text.now) }
{
    match word(text, b" ") {
        Err(_) => Ok(None),
        Ok(rest) => {
            let mut digest = [0; 32];
            bytes(rest, &mut digest)?;
            Ok(Some(digest))
        }
    }
}
