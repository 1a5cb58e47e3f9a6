//! Why a text isn't a script.

ghost use Rattle.std.specs.Prelude.{◌≡◌};

use std::alloc::AllocError;

/// What is wrong with a line.
#[derive(Clone, Copy, Debug, PartialEq, Eq)]
pub enum Why {
    /// It hasn't a form that is allowed at its place.
    Form,
    /// It has the form, and a number, page or lane isn't there, or it is one act too many.
    Range,
    /// It has no line feed, or the text ends where it is due.
    Cut,
    /// Bytes stand after the last line.
    More,
}

/// The first line that isn't right, counted from 1, and what is wrong with it.
#[derive(Clone, Copy, Debug, PartialEq, Eq)]
pub struct BadLine {
    pub line: u32,
    pub why: Why,
}

/// Why no script was read.
#[derive(Clone, Copy, Debug, PartialEq, Eq)]
pub enum ParseRefusal {
    Bad(BadLine),
    OutOfMemory,
}

impl From<AllocError> for ParseRefusal {
    ghost use Rattle.script.specs.declared.refusal.ParseRefusal.TheVariants.{OutOfMemory};

    ghost from_gives = { λ _ e. e ≡ OutOfMemory };

    fn from(_e: AllocError) -> ParseRefusal {
        ParseRefusal::OutOfMemory
    }
}
