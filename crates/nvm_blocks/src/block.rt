// One block between a medium and the guest's data pages.
ghost use Rattle.std.specs.Prelude.{◌≡◌, ◌+◌, ◌/◌, ◌<◌, ℕ, List, length, ◌++◌};
ghost use Rattle.nvm_model.specs.Memory.{zero_block, with_bytes};
ghost use Rattle.nvm_model.specs.Piece.{data_block, page_of, place_of};
ghost use Rattle.guest_ram.specs.Window.{data_pages};
ghost use Rattle.sha2.specs.Hashers.{Holds256};
ghost use Rattle.nvm_blocks.specs.Work.{HasPage, IsSameButData};

use guest_ram::Window;
use nvm_model::Piece;
use sha2::{Digest, Sha256};

/// The window page that has block `i` of the piece's data.
fn page_number(piece: &Piece, window: &Window, i: u32) -> u16
    requires { HasPage piece.now.pages (length (data_pages window.now)) (piece.now.at + i) }
    ensures { result ≡ page_of piece.now.pages (piece.now.at + i) + 2 }
{
    let page = piece.pages.list[((piece.at + i) / 8) as usize];
    let count = window.data_pages();
    prove!(page < count);
    page + 2
}

/// The byte of that page at which the block begins.
fn place_in_page(piece: &Piece, i: u32) -> u16
    requires { (piece.now.at + i) / 8 < 8 }
    ensures { result ≡ place_of (piece.now.at + i) }
{
    512 * ((piece.at + i) % 8) as u16
}

/// Block `i` of the piece's data, in the guest's pages.
#[tactic(auto, unfolding(nvm_model::specs::Piece::data_block))]
pub(crate) fn data_block<'a>(piece: &Piece, window: &'a Window, i: u32) -> &'a [u8]
    requires { HasPage piece.now.pages (length (data_pages window.now)) (piece.now.at + i) }
    ensures value { result.now ≡ data_block (data_pages window.now) piece.now.pages (piece.now.at + i) }
    ensures len { length result.now ≡ 512 }
{
    let page = window.page(page_number(piece, window, i));
    let place = usize::from(place_in_page(piece, i));
    &page[place..place + 512]
}

/// Writes a block that was read to its place in the guest's pages.
pub(crate) fn keep_block(piece: &Piece, window: &mut Window, i: u32, block: &[u8; 512])
    requires { HasPage piece.now.pages (length (data_pages window.old)) (piece.now.at + i) }
    ensures memory { let j = piece.now.at + i in data_pages window.new
        ≡ with_bytes (data_pages window.old) (page_of piece.now.pages j) (place_of j) block.now }
    ensures window { IsSameButData window.old window.new }
{
    let page = page_number(piece, window, i);
    window.write_ctrl(page, place_in_page(piece, i), block);
}

#[tactic(auto, unfolding(nvm_model::specs::Memory::zero_block))]
pub(crate) fn zero_block() -> [u8; 512]
    ensures { result ≡ zero_block }
{
    [0; 512]
}

pub(crate) fn digest_more(hasher: &mut Sha256, block: &[u8; 512])
    ensures { (m : List ℕ) → Holds256 hasher.old m → Holds256 hasher.new (m ++ block.now) }
{
    hasher.update(block.as_slice());
}
