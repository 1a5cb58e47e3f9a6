//! The one line that may have a text. If any line has it, the guess is that line.

ghost use Rattle.std.specs.Prelude.{◌≡◌};
ghost use Rattle.transcript.specs.Reading.{Reads};
ghost use Rattle.transcript.specs.Guess.{act_at, reap_at, fetch_at, piece_at, post_at, round_at, pause_at, numbered_at, worded_at, guess_at};

use crate::read::{digest, event, field, lane, outcome, status, word};
use crate::{Line, NotALine};

#[tactic(auto, unfolding(crate::specs::Guess::act_at))]
fn act(text: &[u8]) -> Result<Line, NotALine>
    ensures { Reads (λ l. l) result (act_at text.now) }
{
    let (k, rest) = field(text);
    let (n, _) = field(rest);
    let lane = lane(k)?;
    Ok(Line::Act { lane, n })
}

#[tactic(auto, unfolding(crate::specs::Guess::reap_at))]
fn reap(text: &[u8]) -> Result<Line, NotALine>
    ensures { Reads (λ l. l) result (reap_at text.now) }
{
    let Ok(((lane, cid), rest)) = event(text) else {
        return Err(NotALine);
    };
    let Ok((status, rest)) = status(rest) else {
        return Err(NotALine);
    };
    let (head, rest) = field(rest);
    let (phase, _) = field(rest);
    Ok(Line::Reap {
        lane,
        cid,
        status,
        head,
        phase: phase == 1,
    })
}

#[tactic(auto, unfolding(crate::specs::Guess::fetch_at))]
fn fetch(text: &[u8]) -> Result<Line, NotALine>
    ensures { Reads (λ l. l) result (fetch_at text.now) }
{
    let Ok(((lane, cid), rest)) = event(text) else {
        return Err(NotALine);
    };
    let Ok((status, rest)) = status(rest) else {
        return Err(NotALine);
    };
    let (pieces, _) = field(rest);
    Ok(Line::Fetch {
        lane,
        cid,
        status,
        pieces,
    })
}

#[tactic(auto, unfolding(crate::specs::Guess::piece_at))]
fn piece(text: &[u8]) -> Result<Line, NotALine>
    ensures { Reads (λ l. l) result (piece_at text.now) }
{
    let Ok(((lane, cid), rest)) = event(text) else {
        return Err(NotALine);
    };
    let (first, rest) = field(rest);
    let (count, rest) = field(rest);
    let (outcome, rest) = outcome(rest)?;
    let digest = digest(rest)?;
    Ok(Line::Piece {
        lane,
        cid,
        first,
        count,
        outcome,
        digest,
    })
}

#[tactic(auto, unfolding(crate::specs::Guess::post_at))]
fn post(text: &[u8]) -> Result<Line, NotALine>
    ensures { Reads (λ l. l) result (post_at text.now) }
{
    let Ok(((lane, cid), rest)) = event(text) else {
        return Err(NotALine);
    };
    let Ok((status, _)) = status(rest) else {
        return Err(NotALine);
    };
    Ok(Line::Post { lane, cid, status })
}

fn round(text: &[u8]) -> Line
    ensures { result ≡ round_at text.now }
{
    let (owed, rest) = field(text);
    let (pages, _) = field(rest);
    Line::Round { owed, pages }
}

fn pause(text: &[u8]) -> Line
    ensures { result ≡ pause_at text.now }
{
    let (blocks, rest) = field(text);
    let (pages, _) = field(rest);
    Line::Pause { blocks, pages }
}

/// A line that begins with a word and goes on with numbers.
#[tactic(auto, unfolding(crate::specs::Guess::numbered_at))]
fn numbered(text: &[u8]) -> Result<Line, NotALine>
    ensures { Reads (λ l. l) result (numbered_at text.now) }
{
    if let Ok(rest) = word(text, b"act ") {
        return act(rest);
    }
    if let Ok(rest) = word(text, b"reap ") {
        return reap(rest);
    }
    if let Ok(rest) = word(text, b"fetch ") {
        return fetch(rest);
    }
    if let Ok(rest) = word(text, b"piece ") {
        return piece(rest);
    }
    if let Ok(rest) = word(text, b"post ") {
        return post(rest);
    }
    if let Ok(rest) = word(text, b"round ") {
        return Ok(round(rest));
    }
    let rest = word(text, b"pause ")?;
    Ok(pause(rest))
}

/// A line of words alone.
#[tactic(auto, unfolding(crate::specs::Guess::worded_at))]
fn worded(text: &[u8]) -> Result<Line, NotALine>
    ensures { Reads (λ l. l) result (worded_at text.now) }
{
    if word(text, b"nvmigrate ").is_ok() {
        return Ok(Line::Title);
    }
    if word(text, b"ready\n").is_ok() {
        return Ok(Line::Ready);
    }
    if word(text, b"migrate\n").is_ok() {
        return Ok(Line::Migrate);
    }
    if word(text, b"restart\n").is_ok() {
        return Ok(Line::Restart);
    }
    if word(text, b"suspend\n").is_ok() {
        return Ok(Line::Suspend);
    }
    if word(text, b"resume ").is_ok() {
        return Ok(Line::ResumeTo);
    }
    if word(text, b"give ").is_ok() {
        return Ok(Line::GiveUp);
    }
    word(text, b"end\n")?;
    Ok(Line::End)
}

/// The line of this text, if it is a line's, and else any or none.
#[tactic(auto, unfolding(crate::specs::Guess::guess_at))]
pub fn guess(text: &[u8]) -> Result<Line, NotALine>
    ensures { Reads (λ l. l) result (guess_at text.now) }
{
    match numbered(text) {
        Ok(line) => Ok(line),
        Err(_) => worded(text),
    }
}
