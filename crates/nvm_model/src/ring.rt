/// A ring of queue entries: how many places it has, the place of its oldest entry, and the place of the next one.
#[derive(Clone, Copy, Debug, PartialEq, Eq)]
pub struct RingState {
    pub size: u16,
    pub head: u16,
    pub tail: u16,
}
