ghost use Rattle.std.specs.Prelude.{◌<◌, length};
ghost use Rattle.guest_ram.specs.Ram.{all_pages};
ghost use Rattle.guest_ram.specs.Place.{IsPlace};

use crate::Window;

// Where a page stands: in which window, from 0, and which of its window pages it is.
#[derive(Clone, Copy)]
pub(super) struct Place {
    pub(super) window: usize,
    pub(super) page: u16,
}

// The place of a page by its number over all windows. The page is there.
pub(super) fn place_of(windows: &[Window], page: u32) -> Place
    requires { page < length (all_pages windows.now) }
    ensures { IsPlace windows.now page result.window result.page }
{
    let mut rest = page;
    for (i, window) in windows.iter().enumerate() {
        let count = window.page_count();
        if rest < count {
            return Place {
                window: i,
                page: rest as u16,
            };
        }
        rest -= count;
    }
    unreachable!()
}
