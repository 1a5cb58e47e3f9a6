ghost use Rattle.std.specs.Prelude.{◌≡◌, ◌+◌, ◌-◌, ◌<◌, ◌≤◌, [], ◌++◌, ◌∷◌, OnErr, OnOk, is_err, length};
ghost use Rattle.std.specs.Borrow.{Lends, sem};
ghost use Rattle.nvm_model.specs.Medium.{IsMade, got, marked, sent};
ghost use Rattle.nvm_values.specs.declared.op.Op.TheVariants.{Read};
ghost use Rattle.guest_ram.specs.Window.{data_pages};
ghost use Rattle.nvm_blocks.specs.Work.{HasApplied, IsForShelf, IsSameButData};

use crate::work::do_piece;
use guest_ram::Window;
use mig_base::Failed;
use mig_medium::Medium;
use nvm_model::{Piece, PieceResult, ShelfEntry};
use std::alloc::Global;
use std::marker::Model;

/// The part of the namespace that one medium keeps, with an entry for each piece that was done on it since it was
/// cleared.
#[derive(Drop)]
pub struct Shelf<M> {
    medium: M,
    first: u32,
    entries: Vec<ShelfEntry>,
    room: usize,
}

impl<M> Model for Shelf<M> {
    ghost use Rattle.std.specs.Prelude.{◌≤◌, vec_capacity};
    ghost use Rattle.nvm_blocks.specs.ShelfState.{ShelfState};

    ghost Value = { ShelfState M };

    ghost view = { λ s. record { medium = s.medium; first = s.first; entries = s.entries.items; room = s.room } };

    ghost invariant = { λ s. s.room ≤ vec_capacity s.entries };
}

impl<M: Medium> Shelf<M> {
    ghost use Rattle.nvm_blocks.specs.contracts.shelf.Shelf.{the_row};

    /// A shelf over a medium, whose first block is block `first` of the namespace, with room for so many entries.
    ///
    /// # Errors
    ///
    /// The medium, where there is no memory for the entries.
    pub fn make(alloc: Global, medium: M, first: u32, room: usize) -> Result<Shelf<M>, M>
        ensures made { OnOk result (result ≡ Ok (record { medium = medium; first = first; entries = []; room = room })) }
        ensures back { OnErr result (result ≡ Err medium) }
    {
        match Vec::with_capacity(alloc, room) {
            Ok(entries) => Ok(Shelf {
                medium,
                first,
                entries,
                room,
            }),
            Err(_) => Err(medium),
        }
    }

    /// Does a piece, which has from 1 to 64 blocks, all in the shelf, and isn't a Flush. `w` is its lane's window, and
    /// has the pages that its blocks need. The piece stops at the first call of the medium that fails and, for a
    /// Compare, at the first block that differs. Its entry, for which there is room, says how it ended.
    pub fn apply(&mut self, p: &Piece, index: u32, ticket: u64, w: &mut Window) -> PieceResult
        requires piece { IsForShelf self.old.first (M.state self.old.medium).size (length (data_pages w.old)) p.now }
        requires room { length self.old.entries < self.old.room }
        ensures applied { HasApplied M.state M.moves p.now (p.now.span.first - self.old.first) result
            self.old.medium (data_pages w.old) self.new.medium (data_pages w.new) }
        ensures rest { self.new ≡ record self.old {
          medium = self.new.medium;
          entries = self.old.entries
              ++ record { lane = p.now.lane; index = index; ticket = ticket; result = result } ∷ [];
        } }
        ensures window { IsSameButData w.old w.new }
        ensures kept { (p.now.op ≡ Read → ⊥) → w.new ≡ w.old }
    {
        let size = self.medium.len();
        prove!(p.span.count <= size);
        let result = do_piece(p, p.span.first - self.first, w, &mut self.medium);
        self.entries.push_reserved(ShelfEntry {
            lane: p.lane,
            index,
            ticket,
            result,
        });
        result
    }

    /// Reads block `b` of the namespace, which lies in the shelf, into `out`.
    ///
    /// # Errors
    ///
    /// `Failed` only where the medium's count of faults rose. What `out` holds then isn't known.
    pub fn copy_out(&mut self, b: u32, out: &mut [u8; 512]) -> Result<(), Failed>
        requires from { self.old.first ≤ b }
        requires within { b < self.old.first + (M.state self.old.medium).size }
        ensures call { IsMade M.state M.moves self.old.medium
            (got (b - self.old.first) out.new result) self.new.medium }
        ensures rest { self.new ≡ record self.old { medium = self.new.medium } }
    {
        self.medium.get(b - self.first, out)
    }

    /// Writes block `b` of the namespace, which lies in the shelf, and no other.
    ///
    /// # Errors
    ///
    /// `Failed` only where the medium's count of faults rose. Every block is then as before.
    pub fn put(&mut self, b: u32, from: &[u8; 512]) -> Result<(), Failed>
        requires from { self.old.first ≤ b }
        requires within { b < self.old.first + (M.state self.old.medium).size }
        ensures call { IsMade M.state M.moves self.old.medium
            (sent (b - self.old.first) from.now (is_err result)) self.new.medium }
        ensures rest { self.new ≡ record self.old { medium = self.new.medium } }
    {
        self.medium.put(b - self.first, from)
    }

    /// Puts a mark into the medium's trace, and does nothing else.
    pub fn mark(&mut self, n: u64)
        ensures call { IsMade M.state M.moves self.old.medium (marked n) self.new.medium }
        ensures rest { self.new ≡ record self.old { medium = self.new.medium } }
    {
        self.medium.mark(n);
    }

    /// The entries, in the order in which their pieces were done.
    pub fn entries(&self) -> &[ShelfEntry]
        ensures { result.now ≡ self.now.entries }
    {
        self.entries.as_slice()
    }

    /// Drops the entries.
    pub fn clear(&mut self)
        ensures { self.new ≡ record self.old { entries = [] } }
    {
        self.entries.clear();
    }

    /// The medium, for calls of its own.
    pub fn medium(&mut self) -> &mut M
        ensures* lends { sem 𝓛 (Lends (the_row M.row) M.row self.entry result (λ m. record self.old { medium = m })) }
        ensures value { result.now ≡ self.old.medium }
    {
        &mut self.medium
    }

    /// The medium, without the shelf.
    pub fn into_medium(self) -> M
        ensures { result ≡ self.medium }
    {
        let Shelf { medium, .. } = self;
        medium
    }
}
