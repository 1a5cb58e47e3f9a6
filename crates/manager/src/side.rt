/// One of the two sides of a move.
#[derive(Clone, Copy, PartialEq, Eq)]
pub enum Side {
    /// The one that is left.
    From,
    /// The one to which the guests go.
    To,
}

/// How the copy of a block ended.
#[derive(Clone, Copy)]
pub enum CopyAnswer {
    /// The destination has the block.
    Copied,
    /// Its shelf is in the hands of this holder now, and no block changed.
    Busy { holder: u8 },
    /// A call of that side's medium failed, and no block changed.
    Fault { side: Side },
}
