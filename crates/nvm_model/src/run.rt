/// A side of a run: its host, or the one to which its guests are moved.
#[derive(Clone, Copy, Debug, PartialEq, Eq)]
pub enum Side {
    Source,
    Destination,
}

/// Where a run is, between two of its stages.
#[derive(Clone, Copy, Debug, PartialEq, Eq)]
pub enum RunPhase {
    /// Nothing was written yet.
    New,
    /// Turns are done.
    Running,
    /// Turns are done, in which blocks are copied.
    Moving,
    /// The guests were suspended, and are being moved.
    Suspended,
    /// A copy failed, and the guests are to go on where they are.
    Stopped,
    /// All was written.
    Over,
}
