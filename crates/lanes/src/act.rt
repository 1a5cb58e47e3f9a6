// The parts of an act: what it writes into the data pages, and the entry that it submits.
ghost use Rattle.std.specs.Prelude.{◌≡◌, ◌≢◌, ℕ, ◌+◌, ◌-◌, ◌*◌, ◌/◌, ◌%◌, ◌^◌, ◌<◌, ◌≤◌, length, take};
ghost use Rattle.std.specs.List.{flat_map};
ghost use Rattle.std.specs.Int.{w64, to_le_bytes};
ghost use Rattle.std.specs.Option.{option_to_list};
ghost use Rattle.nvm_values.specs.Op.{opcode_of};
ghost use Rattle.nvm_values.specs.Sqe.{sqe_bytes, sqe_of};
ghost use Rattle.nvm_model.specs.Memory.{page_address, filled_page, with_bytes};
ghost use Rattle.nvm_model.specs.Ring.{cell, next_place};
ghost use Rattle.nvm_model.specs.ScriptText.{IsAct};
ghost use Rattle.nvm_model.specs.Event.{pages_after_act, submitted_by, address_of};
ghost use Rattle.nvm_ring.specs.Moves.{after_submit};
ghost use Rattle.guest_ram.specs.Window.{data_pages};
ghost use Rattle.lanes.specs.Parts.{IsSameButData};

use crate::Act;
use arrayvec::ArrayVec;
use guest_ram::Window;
use mig_base::LaneNo;
use nvm_ring::GuestSq;
use nvm_values::{Op, Sqe};

/// Writes what an act writes into the guest's data pages.
pub fn write_act(lane: LaneNo, act: &Act, window: &mut Window)
    requires window { (2 ≤ length window.old.pages) × (length window.old.pages ≤ 258) }
    requires act { IsAct (length window.old.pages - 2) act.now }
    ensures pages { data_pages window.new ≡ pages_after_act lane act.now (data_pages window.old) }
    ensures window { IsSameButData window.old window.new }
{
    match *act {
        Act::Fill { page, byte } => window.write_guest(page + 2, 0, &filled(byte)),
        Act::Poke {
            page,
            at,
            bytes,
            used,
        } => write_poke(page, at, &bytes, used, window),
        Act::List { page, pages, used } => write_list(lane, page, &pages, used, window),
        Act::Submit { .. } | Act::Raw { .. } | Act::Wait | Act::Idle => {}
    }
}

fn write_poke(page: u16, at: u16, bytes: &[u8; 32], used: u8, window: &mut Window)
    requires there { (page + 2 < length window.old.pages) × (length window.old.pages ≤ 258) }
    requires within { (at + used ≤ 4096) × (used ≤ 32) }
    ensures pages { data_pages window.new ≡ with_bytes (data_pages window.old) page at (take used bytes.now) }
    ensures window { IsSameButData window.old window.new }
{
    let used = usize::from(used);
    window.write_guest(page + 2, at, &bytes[..used]);
}

fn write_list(lane: LaneNo, page: u16, pages: &[u16; 8], used: u8, window: &mut Window)
    requires there { (page + 2 < length window.old.pages) × (length window.old.pages ≤ 258) }
    requires within { used ≤ 8 }
    ensures pages { data_pages window.new
        ≡ with_bytes (data_pages window.old) page 0
        (flat_map (λ p. to_le_bytes w64 (page_address lane p)) (take used pages.now)) }
    ensures window { IsSameButData window.old window.new }
{
    let used = usize::from(used);
    let list = prp_list(lane, &pages[..used]);
    window.write_guest(page + 2, 0, list.as_slice());
}

#[tactic(auto, unfolding(nvm_model::specs::Memory::filled_page))]
fn filled(byte: u8) -> [u8; 4096]
    ensures { result ≡ filled_page byte }
{
    [byte; 4096]
}

/// The addresses of data pages, as entries of a PRP list.
fn prp_list(lane: LaneNo, pages: &[u16]) -> ArrayVec<u8, 64>
    requires { length pages.now ≤ 8 }
    ensures entries { result.items ≡ flat_map (λ p. to_le_bytes w64 (page_address lane p)) pages.now }
    ensures bytes { length result.items ≡ 8 * length pages.now }
{
    let mut list = ArrayVec::new();
    for page in pages {
        let entry = page_address(lane, *page).to_le_bytes();
        list.try_extend_from_slice(&entry).unwrap();
    }
    list
}

/// The guest address of a data page.
fn page_address(lane: LaneNo, page: u16) -> u64
    ensures { result ≡ page_address lane page }
{
    u64::from(lane.get()) * 16_777_216 + (u64::from(page) + 2) * 4096
}

fn address_of(lane: LaneNo, page: Option<u16>) -> u64
    ensures { result ≡ address_of lane page }
{
    match page {
        Some(page) => page_address(lane, page),
        None => 0,
    }
}

/// The entry that an act submits, if it submits one.
pub fn entry_of(lane: LaneNo, act: &Act) -> Option<Sqe>
    requires { (pages : ℕ) × IsAct pages act.now }
    ensures { option_to_list result ≡ submitted_by lane act.now }
{
    match *act {
        Act::Submit {
            cid,
            op,
            slba,
            count,
            p1,
            p2,
        } => {
            let prp1 = address_of(lane, p1);
            let prp2 = address_of(lane, p2);
            Some(submit_entry(cid, op, slba, count, prp1, prp2))
        }
        Act::Raw { entry } => Some(Sqe::from_bytes(&entry)),
        Act::Fill { .. } | Act::Poke { .. } | Act::List { .. } | Act::Wait | Act::Idle => None,
    }
}

fn submit_entry(cid: u16, op: Op, slba: u64, count: u32, prp1: u64, prp2: u64) -> Sqe
    requires { 1 ≤ count }
    ensures { result ≡ record {
      opcode = opcode_of op;
      flags = 0;
      cid = cid;
      nsid = 1;
      cdw2 = 0;
      cdw3 = 0;
      mptr = 0;
      prp1 = prp1;
      prp2 = prp2;
      cdw10 = slba % 2 ^ 32;
      cdw11 = slba / 2 ^ 32;
      cdw12 = count - 1;
      cdw13 = 0;
      cdw14 = 0;
      cdw15 = 0;
    } }
{
    Sqe {
        opcode: op.opcode(),
        flags: 0,
        cid,
        nsid: 1,
        cdw2: 0,
        cdw3: 0,
        mptr: 0,
        prp1,
        prp2,
        cdw10: (slba % 4_294_967_296) as u32,
        cdw11: (slba / 4_294_967_296) as u32,
        cdw12: count - 1,
        cdw13: 0,
        cdw14: 0,
        cdw15: 0,
    }
}

/// Puts an entry into its place of the submission queue's page, and answers the new tail. There is a free place.
pub(crate) fn submit(entry: &Sqe, sq: &mut GuestSq, window: &mut Window) -> u16
    requires pages { 2 ≤ length window.old.pages }
    requires room { next_place sq.old.size sq.old.tail ≢ sq.old.head }
    ensures moved { sq.new ≡ after_submit sq.old }
    ensures tail { result ≡ sq.new.tail }
    ensures pages { window.new.pages ≡ with_bytes window.old.pages 0 (64 * sq.old.tail) (sqe_bytes entry.now) }
    ensures back { sqe_of (sqe_bytes entry.now) ≡ entry.now }
    ensures lane { window.new.lane ≡ window.old.lane }
{
    let place = sq.state().tail;
    let mut page = *window.page(0);
    let tail = sq.submit(&mut page, entry).unwrap();
    keep_entry(place, &page, window);
    tail
}

/// Writes an entry's bytes of a copy of the submission queue's page back into the window.
fn keep_entry(place: u16, page: &[u8; 4096], window: &mut Window)
    requires pages { 2 ≤ length window.old.pages }
    requires there { place < 64 }
    ensures pages { window.new.pages ≡ with_bytes window.old.pages 0 (64 * place) (cell 64 place page.now) }
    ensures lane { window.new.lane ≡ window.old.lane }
{
    let at = 64 * place;
    let from = usize::from(at);
    window.write_guest(0, at, &page[from..from + 64]);
}
