/// How a run came to its end.
#[derive(Clone, Copy, Debug, PartialEq, Eq)]
pub enum Ending {
    /// All was done that the script asks for: where it asks for a migration, the guest was moved.
    Done,
    /// The migration was given up where a medium failed, and the source went on.
    GaveUp,
}
