/// Where a migration stands.
#[derive(Clone, Copy, Debug, PartialEq, Eq)]
pub enum CorePhase {
    /// The guest writes to the source, and blocks are copied.
    Moving,
    /// The guest is suspended, and what is owed is copied.
    Suspended,
    /// The guest goes on at the destination.
    Resumed,
    /// The migration was given up, and the guest goes on at the source.
    GaveUp,
}
