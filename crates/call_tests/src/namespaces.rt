//! Namespaces of three shelves: one array of blocks, and media that come back.

ghost use Rattle.std.specs.Prelude.{◌≡◌, All, IfOk, length};

use mig_base::Failed;
use mig_medium::{Medium, MemMedium, Step};
use nvm_blocks::Namespace;
use std::alloc::Global;
use std::test::Fail;

/// A medium of four blocks, whose get or put with that number, from 1, fails. Its trace begins with the mark.
fn make_medium(alloc: Global, fails: u64, mark: u64) -> Result<MemMedium, Fail>
    ensures { IfOk result (λ m. length m.blocks ≡ 4) }
{
    let gets = vec![in alloc; fails]?;
    let puts = vec![in alloc; fails]?;
    let mut medium = MemMedium::make(alloc, 4, 32, gets, puts)
        .ok()
        .ok_or("medium")?;
    medium.mark(mark);
    Ok(medium)
}

/// Three media of four blocks, with marks 1, 2 and 3. The second fails at the gets and puts with that number.
fn make_media(alloc: Global, fails: u64) -> Result<Vec<MemMedium>, Fail>
    ensures count { IfOk result (λ media. length media.items ≡ 3) }
    ensures sizes { IfOk result (λ media. All (λ m. length m.blocks ≡ 4) media.items) }
{
    let first = make_medium(alloc, 0, 1)?;
    let second = make_medium(alloc, fails, 2)?;
    let third = make_medium(alloc, 0, 3)?;
    Ok(Vec::from_array(alloc, [first, second, third])?)
}

/// Fills block `b` with a byte, where it is there.
fn put(n: &mut Namespace<MemMedium>, b: u32, byte: u8) -> Option<Result<(), Failed>> {
    if b < n.len() {
        return Some(n.put(b, &[byte; 512]));
    }
    None
}

/// The first byte of block `b`, where it is there and can be read.
fn first_byte(n: &mut Namespace<MemMedium>, b: u32) -> Option<u8> {
    let mut out = [0; 512];
    if b < n.len() {
        n.copy_out(b, &mut out).ok()?;
        return Some(out[0]);
    }
    None
}

/// The steps of the second of three media.
fn second_steps(media: &[MemMedium]) -> Option<&[Step]> {
    match media {
        [_, second, _] => second.trace(),
        _ => None,
    }
}

/// The fourth put and the fourth get of the second medium fail, and the next ones don't.
#[test]
fn one_array_of_blocks(rt: HostRuntime) -> Result<(), Fail> {
    let media = make_media(rt.alloc(), 4)?;
    let mut n = Namespace::make(rt.alloc(), media, 4, 1)
        .ok()
        .ok_or("namespace")?;
    assert!(rt; n.len() == 12);
    for b in 0..12u8 {
        let expected = if b == 7 { Err(Failed) } else { Ok(()) };
        assert!(rt; put(&mut n, u32::from(b), b + 1) == Some(expected));
    }
    assert!(rt; put(&mut n, 7, 8) == Some(Ok(())));
    for b in 0..12u8 {
        let expected = if b == 7 { None } else { Some(b + 1) };
        assert!(rt; first_byte(&mut n, u32::from(b)) == expected);
    }
    assert!(rt; first_byte(&mut n, 7) == Some(8));
    let media = n.into_media();
    let told = [
        Step::Mark(2),
        Step::Put(0),
        Step::Put(1),
        Step::Put(2),
        Step::Put(3),
        Step::Put(3),
        Step::Get(0),
        Step::Get(1),
        Step::Get(2),
        Step::Get(3),
        Step::Get(3),
    ];
    assert!(rt; second_steps(&media) == Some(told.as_slice()));
    Ok(())
}

#[test]
fn media_come_back_without_memory(rt: HostRuntime) -> Result<(), Fail> {
    let media = make_media(rt.alloc(), 0)?;
    let made = Namespace::make(rt.alloc(), media, 4, usize::MAX);
    let back = made.err().ok_or("made")?;
    assert!(rt; back.len() == 3);
    assert!(rt; second_steps(&back) == Some([Step::Mark(2)].as_slice()));
    Ok(())
}
