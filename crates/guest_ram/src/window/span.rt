ghost use Rattle.std.specs.Prelude.{◌≡◌, ◌+◌, ◌<◌, ◌≤◌, IfOk, IfSome, is_err, length};
ghost use Rattle.nvm_model.specs.Check.{page_named, pages_needed, as_pages, list_entry, list_entries};
ghost use Rattle.guest_ram.specs.Window.{data_pages};
ghost use Rattle.guest_ram.specs.Span.{IsNamed, IsWithin, named_in, with_named, with_list, gathered};

use crate::{Pages, Window};

/// A pointer of a command names no data page of the lane: that of the command's page `which`, from 0 to 7, or the one
/// that names the list page, where `which` is 8.
#[derive(Clone, Copy, Debug, PartialEq, Eq)]
pub struct BadPrp {
    pub which: u8,
}

const PAGE_SIZE: u64 = 4096;

const WINDOW_SIZE: u64 = 16_777_216;

const BAD_LIST_PAGE: u8 = 8;

// The i-th pointer of a list page.
fn entry(list: &[u8; 4096], i: u8) -> u64
    ensures { result ≡ list_entry list.now i }
{
    let at = 8 * usize::from(i);
    let mut bytes = [0; 8];
    bytes.copy_from_slice(&list[at..at + 8]);
    u64::from_le_bytes(bytes)
}

impl Window {
    /// The data pages that a command of `count` blocks, from 1 to 64 and eight to a page, names: the first by `prp1`, of
    /// two the second by `prp2`, and of more the others by the entries of the list page that `prp2` names.
    ///
    /// # Errors
    ///
    /// `BadPrp` for the first pointer that names none, where the list page comes after page 0 and before the entries.
    pub fn span_of(&self, prp1: u64, prp2: u64, count: u32) -> Result<Pages, BadPrp>
        requires some { 1 ≤ count }
        requires few { count ≤ 64 }
        ensures exact { IsNamed (named_in self.now prp1 prp2 count) result }
        ensures bad { is_err result ≡ is_err (named_in self.now prp1 prp2 count) }
        ensures pages { IfOk result (λ p. p ≡ as_pages (named_in self.now prp1 prp2 count)) }
        ensures in_window { IfOk result (λ p. IsWithin self.now (pages_needed count) p) }
        ensures size { length (data_pages self.now) ≤ 256 }
    {
        self.pages_of(prp1, prp2, count.div_ceil(8) as u8)
    }

    fn pages_of(&self, prp1: u64, prp2: u64, needed: u8) -> Result<Pages, BadPrp>
        requires some { 1 ≤ needed }
        requires few { needed ≤ 8 }
        ensures value { result ≡ gathered self.now.lane (data_pages self.now) prp1 prp2 needed }
        ensures size { length (data_pages self.now) ≤ 256 }
    {
        let nothing = Pages {
            list: [0; 8],
            used: 0,
        };
        let first = self.with_pointer(nothing, prp1)?;
        match needed {
            1 => Ok(first),
            2 => self.with_pointer(first, prp2),
            _ => self.with_listed(first, prp2, needed - 1),
        }
    }

    // The data page whose address a pointer is.
    fn data_page(&self, pointer: u64) -> Option<u16>
        ensures value { result ≡ page_named self.now.lane (length (data_pages self.now)) pointer }
        ensures there { IfSome result (λ page. page < length (data_pages self.now)) }
        ensures size { length (data_pages self.now) ≤ 256 }
    {
        let start = u64::from(self.lane.get()) * WINDOW_SIZE;
        let count = self.pages.len() as u64 - 2;
        let is_page = start + 2 * PAGE_SIZE <= pointer
            && pointer % PAGE_SIZE == 0
            && pointer - start < (count + 2) * PAGE_SIZE;
        if is_page {
            Some(((pointer - start) / PAGE_SIZE - 2) as u16)
        } else {
            None
        }
    }

    // The pages with the one that a pointer names.
    fn with_pointer(&self, pages: Pages, pointer: u64) -> Result<Pages, BadPrp>
        requires { pages.used < 8 }
        ensures value { result
            ≡ with_named pages (page_named self.now.lane (length (data_pages self.now)) pointer) }
        ensures size { length (data_pages self.now) ≤ 256 }
    {
        let Some(page) = self.data_page(pointer) else {
            return Err(BadPrp { which: pages.used });
        };
        let mut pages = pages;
        pages.list[usize::from(pages.used)] = page;
        pages.used += 1;
        Ok(pages)
    }

    // The pages with those that the first `n` entries of the list page name.
    fn with_listed(&self, pages: Pages, pointer: u64, n: u8) -> Result<Pages, BadPrp>
        requires { pages.used + n ≤ 8 }
        ensures { result
            ≡ with_list self.now.lane (data_pages self.now) n pages
            (page_named self.now.lane (length (data_pages self.now)) pointer) }
    {
        let Some(list_page) = self.data_page(pointer) else {
            return Err(BadPrp {
                which: BAD_LIST_PAGE,
            });
        };
        let list = self.page(list_page + 2);
        let mut pages = pages;
        for i in 0..n {
            pages = self.with_pointer(pages, entry(list, i))?;
        }
        Ok(pages)
    }
}
