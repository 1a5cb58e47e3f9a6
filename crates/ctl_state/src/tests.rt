ghost use Rattle.ctl_state.specs.Image.{IsImage};

use super::*;

/// The image of a controller of one queue pair: rings of 8 places at the first two pages of lane 1's window; 7 entries were
/// fetched of 7; of 15 completions, the last in the second pass of the ring, 10 are reaped.
const IMAGE: [u8; 40] = [
    1, 0, 1, 0, 40, 0, 0, 0, //
    0, 0, 0, 1, 0, 0, 0, 0, 0, 16, 0, 1, 0, 0, 0, 0, //
    7, 0, 7, 0, 7, 0, 7, 0, 2, 0, 7, 0, 0, 0, 0, 0,
];

/// Its state.
fn state() -> Image
    ensures { IsImage result.used result }
{
    let mut pairs = [PairState::NONE; 8];
    pairs[0] = PairState {
        sq: RingState {
            size: 8,
            head: 7,
            tail: 7,
        },
        cq: RingState {
            size: 8,
            head: 2,
            tail: 7,
        },
        phase: false,
    };
    Image { pairs, used: 1 }
}

/// Fed in parts of one byte it is whole at the last; so it is in one part.
#[test]
fn an_image_in_parts(rt: HostRuntime) {
    let mut parts = Parts::new(1);
    for place in 0..40u32 {
        let at = place as usize;
        assert!(rt; parts.whole() == None);
        assert!(rt; parts.feed(place, &IMAGE[at..at + 1]) == Ok(()));
    }
    assert!(rt; parts.whole() == Some(state()));
    assert!(rt; parts.feed(0, &IMAGE) == Ok(()));
    assert!(rt; parts.fed() == 40 && parts.whole() == Some(state()));
}

/// The parts that are refused, and what is left of those fed.
#[test]
fn parts_that_are_refused(rt: HostRuntime) {
    let mut parts = Parts::new(1);
    assert!(rt; parts.feed(5, &IMAGE[5..6]) == Err(PartRefusal::BadSequence));
    assert!(rt; parts.feed(0, &[1; 41]) == Err(PartRefusal::TooLong));
    assert!(rt; parts.feed(0, &IMAGE[..39]) == Ok(()));
    assert!(rt; parts.feed(39, &[1]) == Err(PartRefusal::BadImage { place: 39 }));
    assert!(rt; parts.fed() == 39);
    assert!(rt; parts.feed(39, &[0]) == Ok(()));
    assert!(rt; parts.whole() == Some(state()));
    assert!(rt; parts.feed(0, &[1, 0, 2]) == Err(PartRefusal::BadImage { place: 2 }));
    assert!(rt; parts.fed() == 0);
}

#[test]
fn a_state_is_encoded(rt: HostRuntime) {
    let mut want = [0xff; 264];
    want[..40].copy_from_slice(&IMAGE);
    let mut out = [0xff; 264];
    assert!(rt; state().encode(&mut out) == 40 && out == want);
}
