ghost use Rattle.std.specs.Prelude.{◌≡◌, ◌<◌, ◌++◌, ◌∷◌, [], IfOk, drop, length, slice_index_or};

use mig_base::{OutOfMemory, Span};
use std::alloc::Global;
use std::marker::Model;

/// The spans that a lane wrote and that aren't in the log yet, oldest first: at most 4,096. Contracts see the list.
#[derive(Drop)]
pub(crate) struct LaneSpans {
    spans: Vec<Span>,
}

impl Model for LaneSpans {
    ghost use Rattle.std.specs.Prelude.{◌≤◌, List, vec_capacity};
    ghost use Rattle.mig_base.specs.declared.span.Span.{Span};

    ghost Value = { List Span };

    ghost view = { λ s. s.spans.items };

    ghost invariant = { λ s. 4096 ≤ vec_capacity s.spans };
}

impl LaneSpans {
    pub(crate) const MOST: usize = 4096;

    pub(crate) fn make(alloc: Global) -> Result<LaneSpans, OutOfMemory>
        ensures { IfOk result (λ s. s ≡ []) }
    {
        Ok(LaneSpans {
            spans: Vec::with_capacity(alloc, LaneSpans::MOST)?,
        })
    }

    pub(crate) fn len(&self) -> usize
        ensures { result ≡ length self.now }
    {
        self.spans.len()
    }

    pub(crate) fn push(&mut self, span: Span)
        requires { length self.old < 4096 }
        ensures { self.new ≡ self.old ++ span ∷ [] }
    {
        self.spans.push_reserved(span);
    }

    /// The oldest span leaves.
    pub(crate) fn take_first(&mut self) -> Span
        requires { 0 < length self.old }
        ensures first { result ≡ slice_index_or self.old 0 result }
        ensures others { self.new ≡ drop 1 self.old }
    {
        self.spans.remove(0)
    }

    pub(crate) fn clear(&mut self)
        ensures { self.new ≡ [] }
    {
        self.spans.clear();
    }
}
