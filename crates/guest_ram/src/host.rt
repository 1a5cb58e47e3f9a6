use crate::Ram;

/// One of the two hosts of a migration: the media of the namespace's shelves in order, and guest memory.
#[derive(Drop)]
pub struct Host<M> {
    pub shelves: Vec<M>,
    pub ram: Ram,
}
