// The shelves as a list, while they are made and taken apart.
ghost use Rattle.std.specs.Prelude.{◌≡◌, ◌+◌, ◌-◌, ◌*◌, ◌<◌, ◌≤◌, [], ◌++◌, All, OnOk, length, map, reverse, vec_capacity};
ghost use Rattle.nvm_blocks.specs.Namespace.{IsNamespace};
ghost use Rattle.nvm_blocks.specs.Shelves.{AreMarked, AreNew, cleared};

use crate::Shelf;
use mig_base::OutOfMemory;
use mig_medium::Medium;
use std::alloc::Global;

/// Makes a shelf over each medium, from the last on. No medium is left then.
///
/// # Errors
///
/// `OutOfMemory` where there is no memory for the entries of a shelf. Its medium and those before it are left.
pub(super) fn make_shelves<M: Medium>(
    alloc: Global,
    media: &mut Vec<M>,
    shelves: &mut Vec<Shelf<M>>,
    shelf: u32,
    room: usize,
) -> Result<(), OutOfMemory>
    requires large { 1 ≤ shelf }
    requires few { length media.old.items * shelf ≤ 131072 }
    requires sizes { All (λ m. (M.state m).size ≡ shelf) media.old.items }
    requires none { shelves.old.items ≡ [] }
    requires capacity { length media.old.items ≤ vec_capacity shelves.old }
    ensures media { media.new.items ++ map (λ s. s.medium) (reverse shelves.new.items) ≡ media.old.items }
    ensures all { OnOk result (media.new.items ≡ []) }
    ensures shelves { AreNew M.state shelf room (length media.old.items) shelves.new.items }
    ensures capacity { vec_capacity media.new ≡ vec_capacity media.old }
{
    while let Some(medium) = media.pop() {
        let size = medium.len();
        prove!(size == shelf);
        let first = media.len() as u32 * shelf;
        match Shelf::make(alloc, medium, first, room) {
            Ok(made) => shelves.push_reserved(made),
            Err(medium) => {
                media.push_reserved(medium);
                return Err(OutOfMemory);
            }
        }
    }
    Ok(())
}

/// Moves the media of the shelves, from the last shelf on, to the end of `media`, which has room for them.
pub(super) fn take_media<M: Medium>(shelves: Vec<Shelf<M>>, media: Vec<M>) -> Vec<M>
    requires { length media.items + length shelves.items ≤ vec_capacity media }
    ensures { result.items ≡ media.items ++ map (λ s. s.medium) (reverse shelves.items) }
{
    let mut shelves = shelves;
    let mut media = media;
    while let Some(shelf) = shelves.pop() {
        media.push_reserved(shelf.into_medium());
    }
    shelves.destroy_empty();
    media
}

/// Puts a mark into the trace of every medium, in their order.
pub(super) fn mark_all<M: Medium>(shelves: &mut Vec<Shelf<M>>, shelf: u32, n: u64)
    requires { IsNamespace M.state shelf shelves.old.items }
    ensures marked { AreMarked M.state M.moves shelf n (length shelves.old.items) shelves.old.items shelves.new.items }
    ensures capacity { vec_capacity shelves.new ≡ vec_capacity shelves.old }
{
    for place in 0..shelves.len() {
        shelves[place].mark(n);
    }
}

/// Drops the entries of all shelves.
pub(super) fn clear_all<M: Medium>(shelves: &mut Vec<Shelf<M>>)
    ensures items { shelves.new.items ≡ map cleared shelves.old.items }
    ensures capacity { vec_capacity shelves.new ≡ vec_capacity shelves.old }
{
    for shelf in shelves.iter_mut() {
        shelf.clear();
    }
}
