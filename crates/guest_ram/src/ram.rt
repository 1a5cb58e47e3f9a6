ghost use Rattle.std.specs.Prelude.{◌≡◌, ◌-◌, ◌<◌, ◌≤◌, List, [], IfOk, length, slice_index_or, slice_set};
ghost use Rattle.std.specs.List.{All};
ghost use Rattle.std.specs.Borrow.{sem};
ghost use Rattle.nvm_model.specs.Memory.{page_at};
ghost use Rattle.guest_ram.specs.Ram.{windows_made, all_pages, shape};

mod place;

use crate::Window;
use mig_base::{LaneNo, OutOfMemory};
use place::place_of;
use std::alloc::Global;
use std::marker::Model;

/// The memory of all guests of a host: a window for each lane, lane 1's first, or none at all.
#[derive(Drop)]
pub struct Ram {
    windows: Option<Vec<Window>>,
}

impl Model for Ram {
    ghost use Rattle.std.specs.Prelude.{List, ◌≤◌, length};
    ghost use Rattle.guest_ram.specs.Window.{WindowState};
    ghost use Rattle.guest_ram.specs.Held.{held};

    ghost Value = { List WindowState };

    ghost view = { λ r. held r.windows };

    ghost invariant = { λ r. length (held r.windows) ≤ 8 };
}

impl Ram {
    ghost use Rattle.guest_ram.specs.Lending.{LendsWindow, LendsWindows};

    /// No window.
    pub fn empty() -> Ram
        ensures { result ≡ [] }
    {
        Ram { windows: None }
    }

    /// A zeroed window for each of from 1 to 8 numbers, which says how many data pages it has: from 1 to 256.
    ///
    /// # Errors
    ///
    /// `OutOfMemory` where there is no memory for the windows.
    pub fn make(alloc: Global, data_pages: &[u16]) -> Result<Ram, OutOfMemory>
        requires some { 1 ≤ length data_pages.now }
        requires lanes { length data_pages.now ≤ 8 }
        requires sizes { All (λ n. (1 ≤ n) × (n ≤ 256)) data_pages.now }
        ensures made { IfOk result (λ r. r ≡ windows_made 1 data_pages.now) }
    {
        let mut windows = Vec::with_capacity(alloc, data_pages.len())?;
        for (i, count) in data_pages.iter().enumerate() {
            let lane = LaneNo::new(i as u8 + 1).unwrap();
            let window = Window::make(alloc, lane, *count)?;
            windows.push(window).map_err(|_| OutOfMemory)?;
        }
        Ok(Ram {
            windows: Some(windows),
        })
    }

    /// The windows, lane 1's first, for writing. There is at least one.
    pub fn windows(&mut self) -> &mut [Window]
        requires { 1 ≤ length self.old }
        ensures* lends { sem 𝓛 (LendsWindows self.entry result) }
        ensures value { result.now ≡ self.old }
    {
        self.windows.as_mut().unwrap().as_mut_slice()
    }

    /// The window of a lane, which is there.
    pub fn window(&self, lane: LaneNo) -> &Window
        requires { lane ≤ length self.now }
        ensures { result.now ≡ slice_index_or self.now (lane - 1) result.now }
    {
        match &self.windows {
            Some(windows) => &windows[usize::from(lane.get()) - 1],
            None => unreachable!(),
        }
    }

    /// The window of a lane, which is there, for writing.
    pub fn window_mut(&mut self, lane: LaneNo) -> &mut Window
        requires { lane ≤ length self.old }
        ensures* lends { sem 𝓛 (LendsWindow lane self.entry result) }
        ensures value { result.now ≡ slice_index_or self.old (lane - 1) result.now }
    {
        &mut self.windows.as_mut().unwrap()[usize::from(lane.get()) - 1]
    }

    /// The number of window pages of all lanes.
    pub fn page_count(&self) -> u32
        ensures { result ≡ length (all_pages self.now) }
    {
        let windows = self.as_slice();
        let mut count = 0;
        for window in windows {
            count += window.page_count();
        }
        count
    }

    /// The bytes of a window page, which is there. Numbers count over all lanes: the window pages of lane 1, then those
    /// of lane 2, and so on, from 0.
    pub fn page(&self, page: u32) -> &[u8; 4096]
        requires { page < length (all_pages self.now) }
        ensures { result.now ≡ page_at (all_pages self.now) page }
    {
        let windows = self.as_slice();
        let place = place_of(windows, page);
        windows[place.window].page(place.page)
    }

    /// A window page, which is there, becomes these bytes. Numbers count as in `page`.
    pub fn put_page(&mut self, page: u32, bytes: &[u8; 4096])
        requires { page < length (all_pages self.old) }
        ensures pages { all_pages self.new ≡ slice_set (all_pages self.old) page bytes.now }
        ensures shape { shape self.new ≡ shape self.old }
    {
        let place = place_of(self.as_slice(), page);
        let window = &mut self.windows()[place.window];
        window.put_page(place.page, bytes);
    }

    /// A window page, which both have, becomes in the other memory what it is here. Numbers count as in `page`.
    pub fn copy_page(&self, page: u32, to: &mut Ram)
        requires here { page < length (all_pages self.now) }
        requires there { page < length (all_pages to.old) }
        ensures pages { all_pages to.new ≡ slice_set (all_pages to.old) page (page_at (all_pages self.now) page) }
        ensures shape { shape to.new ≡ shape to.old }
    {
        to.put_page(page, self.page(page));
    }

    // The windows, lane 1's first.
    fn as_slice(&self) -> &[Window]
        ensures value { result.now ≡ self.now }
        ensures few { length self.now ≤ 8 }
    {
        match &self.windows {
            Some(windows) => windows.as_slice(),
            None => &[],
        }
    }
}
