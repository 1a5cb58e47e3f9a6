ghost use Rattle.std.specs.Prelude.{◌≡◌, ◌+◌, ◌-◌, ◌<◌, ◌≤◌, List, IfOk, length, replicate, slice_set};
ghost use Rattle.nvm_model.specs.Memory.{page_at, with_bytes, zero_page};
ghost use Rattle.guest_ram.specs.Window.{ctrl_written, data_pages};

mod span;

use mig_base::{LaneNo, OutOfMemory};
pub use span::BadPrp;
use std::alloc::Global;
use std::marker::Model;

/// A lane's part of guest memory: page 0 is the submission queue, page 1 the completion queue, and the data pages come
/// after them, at most 256.
#[derive(Drop)]
pub struct Window {
    lane: LaneNo,
    pages: Vec<[u8; 4096]>,
}

impl Model for Window {
    ghost use Rattle.std.specs.Prelude.{◌≤◌, length};
    ghost use Rattle.guest_ram.specs.Window.{WindowState};

    ghost Value = { WindowState };

    ghost view = { λ w. record { lane = w.lane; pages = w.pages.items } };

    ghost invariant = { λ w. (2 ≤ length w.pages.items) × (length w.pages.items ≤ 258) };
}

fn zeroes() -> [u8; 4096]
    ensures { result ≡ zero_page }
{
    [0; 4096]
}

impl Window {
    /// A zeroed window with at most 256 data pages.
    ///
    /// # Errors
    ///
    /// `OutOfMemory` where there is no memory for its pages.
    pub fn make(alloc: Global, lane: LaneNo, data_pages: u16) -> Result<Window, OutOfMemory>
        requires { data_pages ≤ 256 }
        ensures made { IfOk result
            (λ w. w ≡ record { lane = lane; pages = replicate (data_pages + 2) zero_page }) }
    {
        let count = data_pages + 2;
        let mut pages = Vec::with_capacity(alloc, usize::from(count))?;
        for _ in 0..count {
            pages.push(zeroes()).map_err(|_| OutOfMemory)?;
        }
        Ok(Window { lane, pages })
    }

    // The number of window pages.
    pub(crate) fn page_count(&self) -> u32
        ensures value { result ≡ length self.now.pages }
        ensures few { result ≤ 258 }
    {
        self.pages.len() as u32
    }

    /// The number of data pages, at most 256.
    pub fn data_pages(&self) -> u16
        ensures value { result ≡ length (data_pages self.now) }
        ensures few { result ≤ 256 }
    {
        self.pages.len() as u16 - 2
    }

    /// The bytes of window page `j`, from 0, which is there.
    pub fn page(&self, j: u16) -> &[u8; 4096]
        requires { j < length self.now.pages }
        ensures value { result.now ≡ page_at self.now.pages j }
        ensures data { 2 ≤ j → result.now ≡ page_at (data_pages self.now) (j - 2) }
    {
        &self.pages[usize::from(j)]
    }

    // Window page `j`, which is there, becomes these bytes.
    pub(crate) fn put_page(&mut self, j: u16, bytes: &[u8; 4096])
        requires { j < length self.old.pages }
        ensures pages { self.new.pages ≡ slice_set self.old.pages j bytes.now }
        ensures lane { self.new.lane ≡ self.old.lane }
    {
        let page = &mut self.pages[usize::from(j)];
        page.copy_from_slice(bytes);
    }

    /// The guest writes `bytes` into window page `j`, from byte `at` of it on. They lie in the page.
    pub fn write_guest(&mut self, j: u16, at: u16, bytes: &[u8])
        requires there { j < length self.old.pages }
        requires within { at + length bytes.now ≤ 4096 }
        ensures pages { self.new.pages ≡ with_bytes self.old.pages j at bytes.now }
        ensures data { 2 ≤ j → data_pages self.new ≡ with_bytes (data_pages self.old) (j - 2) at bytes.now }
        ensures lane { self.new.lane ≡ self.old.lane }
        ensures count { length self.new.pages ≡ length self.old.pages }
    {
        self.write(j, at, bytes);
    }

    /// The controller writes `bytes` into window page `j`, from byte `at` of it on. They lie in the page.
    pub fn write_ctrl(&mut self, j: u16, at: u16, bytes: &[u8])
        requires there { j < length self.old.pages }
        requires within { at + length bytes.now ≤ 4096 }
        ensures written { self.new ≡ ctrl_written self.old j at bytes.now }
        ensures pages { self.new.pages ≡ with_bytes self.old.pages j at bytes.now }
        ensures data { 2 ≤ j → data_pages self.new ≡ with_bytes (data_pages self.old) (j - 2) at bytes.now }
        ensures lane { self.new.lane ≡ self.old.lane }
        ensures count { length self.new.pages ≡ length self.old.pages }
    {
        self.write(j, at, bytes);
    }

    fn write(&mut self, j: u16, at: u16, bytes: &[u8])
        requires there { j < length self.old.pages }
        requires within { at + length bytes.now ≤ 4096 }
        ensures pages { self.new.pages ≡ with_bytes self.old.pages j at bytes.now }
        ensures lane { self.new.lane ≡ self.old.lane }
    {
        let at = usize::from(at);
        let page = &mut self.pages[usize::from(j)];
        page[at..at + bytes.len()].copy_from_slice(bytes);
    }
}
