ghost use Rattle.std.specs.Prelude.{◌≡◌, ◌+◌, ◌*◌, ◌<◌, ◌≤◌, length};
ghost use Rattle.nvm_model.specs.Memory.{written};
ghost use Rattle.nvm_model.specs.Ring.{cell, next_place, places_between};
ghost use Rattle.nvm_ring.specs.Moves.{phase_at};

/// The ring has no free place: the place after its tail is its head (Base 2.1, full queue).
#[derive(Clone, Copy, Debug, PartialEq, Eq)]
pub struct Full;

/// A doorbell was rung with a value that it doesn't take (Base 2.1, invalid doorbell write value).
#[derive(Clone, Copy, Debug, PartialEq, Eq)]
pub struct BadDoorbell {
    pub value: u16,
}

/// The place after a place of a ring.
pub(crate) fn place_after(size: u16, place: u16) -> u16
    requires few { size ≤ 256 }
    requires there { place < size }
    ensures value { result ≡ next_place size place }
    ensures there { result < size }
{
    (place + 1) % size
}

/// The phase tag at a place, by that at the place before.
pub(crate) fn turned(place: u16, phase: bool) -> bool
    ensures { result ≡ phase_at place phase }
{
    if place == 0 { !phase } else { phase }
}

/// How many entries lie from one place of a ring up to another.
pub(crate) fn distance(size: u16, from: u16, to: u16) -> u16
    requires few { size ≤ 256 }
    requires from { from < size }
    requires to { to < size }
    ensures value { result ≡ places_between size from to }
    ensures below { result < size }
{
    (to + size - from) % size
}

/// The bytes of a submission ring's cell.
pub(crate) fn entry_at(page: &[u8; 4096], place: u16) -> [u8; 64]
    requires { place < 64 }
    ensures { result ≡ cell 64 place page.now }
{
    let at = 64 * usize::from(place);
    let mut bytes = [0; 64];
    bytes.copy_from_slice(&page[at..at + 64]);
    bytes
}

/// The bytes of a completion ring's cell.
pub(crate) fn completion_at(page: &[u8; 4096], place: u16) -> [u8; 16]
    requires { place < 256 }
    ensures { result ≡ cell 16 place page.now }
{
    let at = 16 * usize::from(place);
    let mut bytes = [0; 16];
    bytes.copy_from_slice(&page[at..at + 16]);
    bytes
}

/// Writes a cell's bytes, from byte `at` of the page on. The others stay.
pub(crate) fn write_cell(page: &mut [u8; 4096], at: usize, bytes: &[u8])
    requires { at + length bytes.now ≤ 4096 }
    ensures { page.new ≡ written page.old at bytes.now }
{
    page[at..at + bytes.len()].copy_from_slice(bytes);
}
