use std::collections::LinkedList;

/// A step of a medium, as its trace tells it: a read or a write of a block, or a mark.
#[derive(Clone, Copy, Debug, PartialEq, Eq)]
pub enum Step {
    Get(u32),
    Put(u32),
    Mark(u64),
}

/// A call of a medium as contracts see it: its step, the bytes that came or went, and whether it failed. No code makes one.
pub struct Call {
    pub step: Step,
    pub bytes: LinkedList<u8>,
    pub failed: bool,
}
