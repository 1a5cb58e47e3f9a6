//! A text is cut into lines, and a line into words.

ghost use Rattle.std.specs.Prelude.{◌≡◌, ℕ};
ghost use Rattle.script.specs.Words.{Reads, cut_at, words_of, next, last};

use memchr::memchr;
use std::marker::Model;

/// What stands before the first byte `end`, and what stands after it.
pub fn cut(text: &[u8], end: u8) -> Option<(&[u8], &[u8])>
    ensures { Reads (λ x. (x.0.now, x.1.now)) result (cut_at end text.now) }
{
    match memchr(end, text) {
        None => None,
        Some(at) => {
            let (front, rest) = text.split_at(at);
            Some((front, &rest[1..]))
        }
    }
}

/// The same at the first space. Words are short, so their bytes are looked at one by one.
#[inline(always)]
fn cut_word(text: &[u8]) -> Option<(&[u8], &[u8])>
    ensures { Reads (λ x. (x.0.now, x.1.now)) result (cut_at 32 text.now) }
{
    for (at, byte) in text.iter().enumerate() {
        if *byte == b' ' {
            let (word, rest) = text.split_at(at);
            return Some((word, &rest[1..]));
        }
    }
    None
}

/// The words of a line that are left. A space ends a word. Contracts see their list.
#[derive(Drop)]
pub struct Words<'a> {
    text: &'a [u8],
    some: bool,
}

impl<'a> Model for Words<'a> {
    ghost use Rattle.std.specs.Prelude.{List, ℕ};
    ghost use Rattle.script.specs.Words.{words_left};

    ghost Value = { List (List ℕ) };

    ghost view = { λ w. words_left w.some w.text.now };
}

impl<'a> Words<'a> {
    pub fn new(line: &'a [u8]) -> Words<'a>
        ensures { result ≡ words_of line.now }
    {
        Words {
            text: line,
            some: true,
        }
    }

    /// The first word, and those behind it.
    #[inline(always)]
    pub fn next(&self) -> Option<(&'a [u8], Words<'a>)>
        ensures { Reads (λ x. (x.0.now, x.1)) result (next self.now) }
    {
        if !self.some {
            return None;
        }
        match cut_word(self.text) {
            Some((word, rest)) => Some((word, Words::new(rest))),
            None => Some((
                self.text,
                Words {
                    text: self.text,
                    some: false,
                },
            )),
        }
    }

    /// The word, if one is left and no more.
    #[inline(always)]
    pub fn last(&self) -> Option<&'a [u8]>
        ensures { Reads (λ w. w.now) result (last self.now) }
    {
        if !self.some {
            return None;
        }
        match cut(self.text, b' ') {
            None => Some(self.text),
            Some(_) => None,
        }
    }
}
