//! A script is read line by line: which line is due, and what was read so far.

ghost use Rattle.std.specs.Prelude.{◌≡◌, ◌↔◌, true, MatchResult};
ghost use Rattle.script.specs.declared.key.Due.TheVariants.{Done};
ghost use Rattle.script.specs.Lines.{start, step, step_at, body_step, script_of};
ghost use Rattle.script.specs.Reads.{Stepped, Steps, why_of, IsRead, IsRefused};

use crate::act::lane_act;
use crate::head::{is_due, keyed, lane_set, number_in};
use crate::key::{Due, Key, no_head};
use crate::line::{Words, cut};
use crate::refusal::{BadLine, ParseRefusal, Why};
use crate::value::ranged;
use nvm_model::{Act, Acts, Head, Script};
use std::alloc::{AllocError, Global};
use std::marker::Model;

/// How many acts a script has at most.
const MOST_ACTS: usize = 65536;

/// What was read of a script. Contracts see the line that is due, the head as far as it was read, and the acts.
#[derive(Drop)]
pub struct Reader {
    due: Due,
    head: Head,
    acts: Vec<(u8, Act)>,
}

impl Model for Reader {
    ghost use Rattle.script.specs.Lines.{State};

    ghost Value = { State };

    ghost view = { λ r. record { due = r.due; head = r.head; acts = r.acts.items } };
}

impl Reader {
    /// Nothing was read.
    fn new(alloc: Global) -> Reader
        ensures { result ≡ start }
    {
        Reader {
            due: Due::Title,
            head: no_head(),
            acts: Vec::new(alloc),
        }
    }

    /// Whether the last line was read.
    fn is_done(&self) -> bool
        ensures { (result ≡ true) ↔ (self.now.due ≡ Done) }
    {
        matches!(self.due, Due::Done)
    }

    /// Why the line isn't right: it hasn't the form of the one that is due, or it is out of range.
    fn why(&self, line: &[u8]) -> Why
        ensures { result ≡ why_of self.now line.now }
    {
        if is_due(self.due, line) {
            Why::Range
        } else {
            Why::Form
        }
    }

    /// Reads the line that is due, if it is right: whether it is.
    #[tactic(auto, unfolding(crate::specs::Lines::step))]
    fn read(&mut self, line: &[u8]) -> Result<bool, AllocError>
        ensures { Steps self.old (step self.old line.now) result self.new }
    {
        match self.due {
            Due::Title => Ok(self.title(line)),
            Due::Number(key) => Ok(self.number(key, line)),
            Due::Lane(k) => Ok(self.lane(k, line)),
            Due::Behind => self.behind(line),
            Due::Body => self.body(line),
            Due::Done => Ok(false),
        }
    }

    fn title(&mut self, line: &[u8]) -> bool
        ensures { Stepped self.old (step_at Due.Title self.old line.now) result self.new }
    {
        if line != b"nvmigrate script 1".as_slice() {
            return false;
        }
        self.due = Due::Number(Key::Blocks);
        true
    }

    fn number(&mut self, key: Key, line: &[u8]) -> bool
        ensures { Stepped self.old (step_at (Due.Number key) self.old line.now) result self.new }
    {
        let Some(n) = number_in(key, &self.head, line) else {
            return false;
        };
        key.put(n, &mut self.head);
        self.due = key.after();
        true
    }

    /// The line of a lane, behind those of `k`.
    fn lane(&mut self, k: u8, line: &[u8]) -> bool
        ensures { Stepped self.old (step_at (Due.Lane k) self.old line.now) result self.new }
    {
        if k >= 8 {
            return false;
        }
        let Some(set) = lane_set(&Words::new(line), k + 1) else {
            return false;
        };
        self.head.sets[usize::from(k)] = set;
        self.due = if k + 1 == self.head.lanes {
            Due::Number(Key::Burst)
        } else {
            Due::Lane(k + 1)
        };
        true
    }

    /// The line of a move, or of the body.
    fn behind(&mut self, line: &[u8]) -> Result<bool, AllocError>
        ensures { Steps self.old (step_at Due.Behind self.old line.now) result self.new }
    {
        let Some(word) = keyed(&Words::new(line), b"migrate") else {
            return self.body(line);
        };
        let Some(turn) = ranged(word, 1, 65535) else {
            return Ok(false);
        };
        self.head.migrate = Some(turn as u32);
        self.due = Due::Body;
        Ok(true)
    }

    /// An act's line, or the last.
    fn body(&mut self, line: &[u8]) -> Result<bool, AllocError>
        ensures { Steps self.old (body_step self.old line.now) result self.new }
    {
        if line == b"end".as_slice() {
            self.due = Due::Done;
            return Ok(true);
        }
        let Some(act) = lane_act(&self.head, &Words::new(line)) else {
            return Ok(false);
        };
        if self.acts.len() >= MOST_ACTS {
            return Ok(false);
        }
        self.acts.push(act)?;
        self.due = Due::Body;
        Ok(true)
    }

    /// The script that was read.
    pub fn script(self) -> Script
        ensures { result ≡ script_of self }
    {
        Script {
            head: self.head,
            acts: Acts::new(self.acts),
        }
    }
}

/// Reads the script at the front of a text. Gives it with what comes after it, and the number of the line there.
pub fn read_front(alloc: Global, text: &[u8]) -> Result<(Reader, &[u8], u32), ParseRefusal>
    ensures { MatchResult result (λ x. (x.0.due ≡ Done) × IsRead text.now x.0 x.1.now x.2) (λ e. IsRefused text.now e) }
{
    let mut reader = Reader::new(alloc);
    let mut rest = text;
    let mut line = 1u32;
    'lines: loop {
        if reader.is_done() {
            return Ok((reader, rest, line));
        }
        let Some((due, after)) = cut(rest, b'\n') else {
            let why = Why::Cut;
            return Err(ParseRefusal::Bad(BadLine { line, why }));
        };
        if !reader.read(due)? {
            let why = reader.why(due);
            return Err(ParseRefusal::Bad(BadLine { line, why }));
        }
        rest = after;
        line = line.saturating_add(1);
    }
}
