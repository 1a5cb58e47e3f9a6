ghost use Rattle.std.specs.Prelude.{◌≡◌, ◌*◌, ◌/◌, ◌%◌, ◌<◌, ◌≤◌, ◌≢◌, ◌-◌, [], ◌∷◌, IfErr, IfOk, IfSome, All, is_err, length, map, replicate, slice_index_or};
ghost use Rattle.nvm_values.specs.declared.op.Op.TheVariants.{Read};
ghost use Rattle.nvm_model.specs.Medium.{HaveSize, got, marks_at, sent};
ghost use Rattle.guest_ram.specs.Window.{data_pages};
ghost use Rattle.nvm_blocks.specs.Namespace.{HasAppliedIn, HasCalled, HasRoom, IsClearedAt, block_call, IsForNamespace, block_count, entries_at, entries_of, media_of, rooms_of, told_of, with_entry};
ghost use Rattle.nvm_blocks.specs.Shelves.{cleared};
ghost use Rattle.nvm_blocks.specs.Work.{IsSameButData};

mod shelves;

use crate::Shelf;
use guest_ram::Window;
use mig_base::{Failed, OutOfMemory};
use mig_medium::Medium;
use nvm_model::{Piece, PieceResult, ShelfEntry};
use shelves::{clear_all, make_shelves, mark_all, take_media};
use std::alloc::Global;
use std::marker::Model;

/// The shelves of a namespace in order, each of the same number of blocks: one array of blocks.
#[derive(Drop)]
pub struct Namespace<M: Medium> {
    shelves: Vec<Shelf<M>>,
    shelf: u32,

    // Empty, with room for the media.
    spare: Vec<M>,
}

impl<M: Medium> Model for Namespace<M> {
    ghost use Rattle.std.specs.Prelude.{◌≡◌, ◌≤◌, [], length, vec_capacity};
    ghost use Rattle.nvm_blocks.specs.Namespace.{NamespaceState, IsNamespace};

    ghost Value = { NamespaceState M };

    ghost view = { λ n. record { shelves = n.shelves.items; shelf = n.shelf } };

    ghost invariant = { λ n. IsNamespace M.state n.shelf n.shelves.items
        × (n.spare.items ≡ []) × (length n.shelves.items ≤ vec_capacity n.spare) };
}

impl<M: Medium> Namespace<M> {
    /// A shelf of `shelf` blocks over each medium, in their order, with room for so many entries. There is at least one
    /// medium, each has that many blocks, and there are at most 131,072 blocks.
    ///
    /// # Errors
    ///
    /// The media in their order, where there is no memory for the shelves.
    pub fn make(
        alloc: Global,
        media: Vec<M>,
        shelf: u32,
        room: usize,
    ) -> Result<Namespace<M>, Vec<M>>
        requires large { 1 ≤ shelf }
        requires some { 1 ≤ length media.items }
        requires few { length media.items * shelf ≤ 131072 }
        requires sizes { All (λ m. (M.state m).size ≡ shelf) media.items }
        ensures media { IfOk result (λ n. media_of n ≡ media.items) }
        ensures shelf { IfOk result (λ n. n.shelf ≡ shelf) }
        ensures entries { IfOk result (λ n. entries_of n ≡ replicate (length media.items) []) }
        ensures rooms { IfOk result (λ n. rooms_of n ≡ replicate (length media.items) room) }
        ensures back { IfErr result (λ back. back.items ≡ media.items) }
    {
        let mut media = media;
        let Ok(mut shelves) = Vec::with_capacity(alloc, media.len()) else {
            return Err(media);
        };
        match make_shelves(alloc, &mut media, &mut shelves, shelf, room) {
            Ok(()) => {
                shelves.reverse();
                Ok(Namespace {
                    shelves,
                    shelf,
                    spare: media,
                })
            }
            Err(OutOfMemory) => Err(take_media(shelves, media)),
        }
    }

    /// The number of blocks.
    pub fn len(&self) -> u32
        ensures value { result ≡ block_count self.now }
        ensures told { IfSome (told_of M.state self.now) (λ blocks. length blocks ≡ result) }
    {
        self.shelves.len() as u32 * self.shelf
    }

    /// A law: each medium has as many blocks as a shelf, and tells as many where it tells them.
    pub fn has_sizes(&self)
        ensures { HaveSize M.state self.now.shelf (media_of self.now) }
    {
        let _shelf = self.shelf;
    }

    /// Does a piece, which has from 1 to 64 blocks, all in one shelf, and isn't a Flush. `w` is its lane's window, and
    /// has the pages that its blocks need. The piece stops at the first call of the medium that fails and, for a
    /// Compare, at the first block that differs. Its entry, for which its shelf has room, says how it ended.
    pub fn apply(&mut self, p: &Piece, index: u32, ticket: u64, w: &mut Window) -> PieceResult
        requires piece { IsForNamespace self.old (length (data_pages w.old)) p.now }
        requires room { HasRoom self.old (p.now.span.first / self.old.shelf) }
        ensures applied { HasAppliedIn M.state M.moves p.now result
            self.old (data_pages w.old) self.new (data_pages w.new) }
        ensures entry { entries_of self.new ≡ with_entry (p.now.span.first / self.old.shelf)
            (record { lane = p.now.lane; index = index; ticket = ticket; result = result }) (entries_of self.old) }
        ensures window { IsSameButData w.old w.new }
        ensures kept { (p.now.op ≡ Read → ⊥) → w.new ≡ w.old }
    {
        let shelf = &mut self.shelves[(p.span.first / self.shelf) as usize];
        let result = shelf.apply(p, index, ticket, w);
        result
    }

    /// Reads block `b` into `out`.
    ///
    /// # Errors
    ///
    /// `Failed` only where a count of faults rose. What `out` holds then isn't known.
    pub fn copy_out(&mut self, b: u32, out: &mut [u8; 512]) -> Result<(), Failed>
        requires { b < block_count self.old }
        ensures called { HasCalled M.state M.moves self.old
            (block_call self.old b (λ place. got place out.new result) ∷ []) self.new }
        ensures entries { entries_of self.new ≡ entries_of self.old }
    {
        let shelf = &mut self.shelves[(b / self.shelf) as usize];
        shelf.copy_out(b, out)
    }

    /// Writes block `b`, and no other.
    ///
    /// # Errors
    ///
    /// `Failed` only where a count of faults rose. Every block is then as before.
    pub fn put(&mut self, b: u32, from: &[u8; 512]) -> Result<(), Failed>
        requires { b < block_count self.old }
        ensures called { HasCalled M.state M.moves self.old
            (block_call self.old b (λ place. sent place from.now (is_err result)) ∷ []) self.new }
        ensures entries { entries_of self.new ≡ entries_of self.old }
    {
        let shelf = &mut self.shelves[(b / self.shelf) as usize];
        shelf.put(b, from)
    }

    /// Puts a mark into the trace of every medium, in their order, and does nothing else.
    pub fn mark(&mut self, n: u64)
        ensures called { HasCalled M.state M.moves self.old (marks_at (length self.old.shelves) n) self.new }
        ensures entries { entries_of self.new ≡ entries_of self.old }
    {
        mark_all(&mut self.shelves, self.shelf, n);
    }

    /// Drops the entries of all shelves.
    pub fn clear(&mut self)
        ensures { self.new ≡ record self.old { shelves = map cleared self.old.shelves } }
    {
        clear_all(&mut self.shelves);
    }

    /// Drops the entries of the shelf that has block `b`.
    pub fn clear_at(&mut self, b: u32)
        requires { b < block_count self.old }
        ensures { IsClearedAt b self.old self.new }
    {
        let shelf = &mut self.shelves[(b / self.shelf) as usize];
        shelf.clear();
    }

    /// The entry of the piece that was done last on the shelf that has block `b`, where one was done.
    pub fn last_entry_at(&self, b: u32) -> ShelfEntry
        requires there { b < block_count self.now }
        requires some { entries_at self.now b ≢ [] }
        ensures { result ≡ slice_index_or (entries_at self.now b) (length (entries_at self.now b) - 1) result }
    {
        let entries = self.shelves[(b / self.shelf) as usize].entries();
        entries[entries.len() - 1]
    }

    /// The media in order, without the shelves.
    pub fn into_media(self) -> Vec<M>
        ensures { result.items ≡ media_of self }
    {
        let Namespace {
            mut shelves,
            spare,
            ..
        } = self;
        shelves.reverse();
        take_media(shelves, spare)
    }
}
