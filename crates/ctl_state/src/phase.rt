/// What a controller does.
#[derive(Clone, Copy, Debug, PartialEq, Eq)]
pub enum Phase {
    /// It fetches and posts.
    Running,
    /// It was suspended: it fetches nothing.
    Suspended,
    /// It takes the state that another controller left.
    Loading,
}
