use crate::Bytes;
use mig_base::Span;

/// What happens to a core.
#[derive(Drop)]
pub enum CoreEvent {
    /// A lane, from 1 to 8, writes blocks: 512 bytes for each of the span, which has 1 to 64 of them.
    Piece { lane: u8, span: Span, bytes: Bytes },
    /// The oldest span that a lane wrote goes into the log. Where that is full or its mark is up, the span is lost, and
    /// the mark is up.
    Post { lane: u8 },
    /// An owed block is copied from the source to the destination.
    Copy { block: u32 },
    /// The oldest span of the log is taken: its blocks are owed.
    Take,
    /// The mark is up: all blocks are owed, and everything else is dropped.
    Restart,
    /// The guest is suspended at the source.
    Suspend,
    /// The guest goes on at the destination.
    Resume,
    /// The guest goes on at the source.
    GiveUp,
}

/// The rules have no such step now.
#[derive(Clone, Copy, Debug, PartialEq, Eq)]
pub struct NotNow;
