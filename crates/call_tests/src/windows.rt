//! Windows of guest memory: what a write changes, what a copied page is, and which data pages pointers name.

ghost use Rattle.std.specs.Prelude.{◌≡◌, ◌+◌, ◌<◌, ◌≤◌, ◌∷◌, [], length, slice_index_or, slice_set};
ghost use Rattle.nvm_model.specs.Memory.{with_bytes};
ghost use Rattle.guest_ram.specs.Window.{no_window};

use guest_ram::{BadPrp, Host, Pages, Ram, Window};
use mig_base::LaneNo;
use std::process::Abort;
use std::test::Fail;

// What a caller that passes a window on gets: the windows with that one replaced by what it ended as.
fn write_first(window: &mut Window)
    requires { 2 < length window.old.pages }
    ensures pages { window.new.pages ≡ with_bytes window.old.pages 2 0 (7 ∷ []) }
    ensures lane { window.new.lane ≡ window.old.lane }
{
    window.write_guest(2, 0, &[7]);
}

fn write_in_host<M>(host: &mut Host<M>, i: usize)
    requires there { i < length host.old.ram }
    requires data { 2 < length (slice_index_or host.old.ram i no_window).pages }
    ensures ram { let w = slice_index_or host.old.ram i no_window in
        host.new.ram
        ≡ slice_set host.old.ram i
        (record { lane = w.lane; pages = with_bytes w.pages 2 0 (7 ∷ []) }) }
    ensures shelves { host.new.shelves ≡ host.old.shelves }
{
    let windows = host.ram.windows();
    write_first(&mut windows[i]);
}

// The first byte of a data page, if it is there.
fn first_byte(window: &Window, page: u16) -> Option<u8> {
    if page < window.data_pages() {
        Some(window.page(page + 2)[0])
    } else {
        None
    }
}

// Entry i of the list page in data page 3 names data page p of lane 2, whose data begins at 33,562,624.
fn write_entry(window: &mut Window, i: u16, p: u64)
    requires there { 5 < length window.old.pages }
    requires within { i < 512 }
    requires page { p < 256 }
    ensures { length window.new.pages ≡ length window.old.pages }
{
    window.write_guest(5, 8 * i, &(33_562_624 + 4096 * p).to_le_bytes());
}

// The list page names data pages 11 down to 5.
fn write_list(window: &mut Window)
    requires { 5 < length window.old.pages }
    ensures { 5 < length window.new.pages }
{
    for i in 0..7u16 {
        write_entry(window, i, 11 - u64::from(i));
    }
}

#[test]
fn makes_and_writes(rt: HostRuntime) -> Result<(), Fail> {
    let ram = Ram::make(rt.alloc(), &[1, 12]).ok().ok_or("memory")?;
    let mut host = Host {
        shelves: Vec::<u8>::new(rt.alloc()),
        ram,
    };
    write_in_host(&mut host, 0);
    let ram = &host.ram;
    let one = LaneNo::new(1).ok_or("lane 1")?;
    let two = LaneNo::new(2).ok_or("lane 2")?;
    assert!(rt; ram.window(one).page(2)[0] == 7);
    assert!(rt; ram.window(one).page(2)[1] == 0);
    assert!(rt; ram.window(two).page(13) == &[0; 4096]);
    Ok(())
}

#[test]
fn copies_a_page(rt: HostRuntime) -> Result<(), Fail> {
    let ram = Ram::make(rt.alloc(), &[1, 2]).ok().ok_or("memory")?;
    let mut from = Host {
        shelves: Vec::<u8>::new(rt.alloc()),
        ram,
    };
    let mut to = Ram::make(rt.alloc(), &[1, 2]).ok().ok_or("memory")?;
    write_in_host(&mut from, 1);
    assert!(rt; from.ram.page_count() == 7);
    assert!(rt; to.page_count() == 7);
    to.put_page(4, from.ram.page(4));
    let two = LaneNo::new(2).ok_or("lane 2")?;
    assert!(rt; first_byte(to.window(two), 0) == Some(0));
    from.ram.copy_page(5, &mut to);
    assert!(rt; first_byte(to.window(two), 0) == Some(7));
    assert!(rt; first_byte(to.window(two), 1) == Some(0));
    Ok(())
}

/// Two pointers, a number of blocks, and the data pages that they name.
type Found = (u64, u64, u32, [u16; 8], u8);

/// The list page names data pages 11 down to 5.
const FOUND: [Found; 4] = [
    (33_566_720, 0, 8, [1, 0, 0, 0, 0, 0, 0, 0], 1),
    (33_607_680, 33_562_624, 9, [11, 0, 0, 0, 0, 0, 0, 0], 2),
    (33_562_624, 33_574_912, 17, [0, 11, 10, 0, 0, 0, 0, 0], 3),
    (33_562_624, 33_574_912, 64, [0, 11, 10, 9, 8, 7, 6, 5], 8),
];

/// And the place of the first pointer that isn't right.
type Bad = (u64, u64, u32, u8);

const BAD: [Bad; 5] = [
    (33_562_625, 33_574_913, 64, 0),
    (33_558_528, 0, 1, 0),
    (16_785_408, 0, 1, 0),
    (33_562_624, 33_611_776, 16, 1),
    (33_562_624, 33_574_920, 64, 8),
];

/// The same where the fourth entry of the list page names no data page.
const FOUND_BEFORE: [Found; 1] = [(33_562_624, 33_574_912, 32, [0, 11, 10, 9, 0, 0, 0, 0], 4)];

const BAD_BEHIND: [Bad; 2] = [
    (33_562_624, 33_574_912, 33, 4),
    (33_562_624, 33_611_776, 33, 8),
];

fn finds(rt: &impl Abort, window: &Window, rows: &[Found]) {
    for (prp1, prp2, count, list, used) in rows {
        assert!(rt; 1 <= *count && *count <= 64);
        let (list, used) = (*list, *used);
        assert!(rt; window.span_of(*prp1, *prp2, *count) == Ok(Pages { list, used }));
    }
}

fn refuses(rt: &impl Abort, window: &Window, rows: &[Bad]) {
    for (prp1, prp2, count, which) in rows {
        assert!(rt; 1 <= *count && *count <= 64);
        let which = *which;
        assert!(rt; window.span_of(*prp1, *prp2, *count) == Err(BadPrp { which }));
    }
}

#[test]
fn finds_pages(rt: HostRuntime) -> Result<(), Fail> {
    let mut ram = Ram::make(rt.alloc(), &[1, 12]).ok().ok_or("memory")?;
    let windows = ram.windows();
    let window = &mut windows[1];
    write_list(window);
    finds(&rt, window, &FOUND);
    refuses(&rt, window, &BAD);
    write_entry(window, 3, 12);
    finds(&rt, window, &FOUND_BEFORE);
    refuses(&rt, window, &BAD_BEHIND);
    Ok(())
}
