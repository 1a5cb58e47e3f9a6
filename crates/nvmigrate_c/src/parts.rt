// The image of a controller's state, in parts and whole.
ghost use Rattle.std.specs.Prelude.{◌≡◌, ◌≢◌, ◌+◌, ◌-◌, ◌*◌, ◌<◌, ◌≤◌, ◌++◌, [], All, MatchOption, drop, length, map, take};
ghost use Rattle.ctl_state.specs.declared.image.Image.{Image as TheImage};
ghost use Rattle.ctl_state.specs.Image.{image_bytes};
ghost use Rattle.ctl_state.specs.Parts.{Feeds, IsWhole};
ghost use Rattle.nvmigrate_c.specs.Parts.{HasFlag, HasRings, IsParts, feed_told, image_in, pair_in, parts_in, state_of};

use crate::code::{BAD_FIELD, BAD_IMAGE, BAD_PARTS, BAD_RING, BAD_SEQUENCE, NONE, OK, TOO_LONG};
use crate::completion::Cq;
use crate::ring::Sq;
use ctl_state::{Image, PairState, PartRefusal};

/// A controller's part of a queue pair: its two ends.
#[repr(C)]
#[derive(Clone, Copy)]
pub struct Pair {
    pub sq: Sq,
    pub cq: Cq,
}

/// An image that comes in parts, of from 1 to 8 queue pairs: how many bytes of it were fed, and which.
#[repr(C)]
#[derive(Clone, Copy)]
pub struct Parts {
    pub fed: u32,
    pub lanes: u8,
    pub bytes: [u8; 264],
}

impl Pair {
    /// A pair of the library for C.
    fn of(pair: PairState) -> Pair
        ensures value { pair_in result ≡ pair }
        ensures flag { HasFlag result }
    {
        Pair {
            sq: Sq::of(pair.sq),
            cq: Cq::at(pair.cq, pair.phase),
        }
    }

    /// C's pair for the library; `None` exactly where an end is no ring.
    fn state(&self) -> Option<PairState>
        ensures { MatchOption result (HasRings self.now → ⊥) (λ p. HasRings self.now × (p ≡ pair_in self.now)) }
    {
        let sq = self.sq.controller()?;
        let cq = self.cq.controller()?;
        Some(PairState {
            sq: sq.state(),
            cq: cq.state(),
            phase: cq.phase(),
        })
    }
}

impl Parts {
    /// No byte is fed of an image of so many pairs.
    fn empty(lanes: u8) -> Parts
        requires { (1 ≤ lanes) × (lanes ≤ 8) }
        ensures value { parts_in result ≡ record { lanes = lanes; bytes = [] } }
        ensures sound { IsParts result }
    {
        Parts {
            fed: 0,
            lanes,
            bytes: [0; 264],
        }
    }

    /// The parts for the library; `None` exactly where no image of so many pairs begins with the bytes.
    fn library(&self) -> Option<ctl_state::Parts>
        ensures { MatchOption result (IsParts self.now → ⊥) (λ p. IsParts self.now × (p ≡ parts_in self.now)) }
    {
        if self.lanes == 0 || self.lanes > 8 || self.fed > 264 {
            return None;
        }
        let mut parts = ctl_state::Parts::new(self.lanes);
        let Ok(()) = parts.feed(0, &self.bytes[..self.fed as usize]) else {
            return None;
        };
        Some(parts)
    }
}

/// No byte is fed of an image of so many pairs, from 1 to 8.
///
/// # Errors
///
/// `BAD_PARTS` exactly where there are fewer or more; `out` stays as it was.
#[unsafe(no_mangle)]
pub extern "C" fn nvmigrate_parts_new(lanes: u8, out: &mut Parts) -> u32
    ensures done { 1 ≤ lanes → lanes ≤ 8 → result ≡ OK }
    ensures few { lanes ≡ 0 → result ≡ BAD_PARTS }
    ensures many { 8 < lanes → result ≡ BAD_PARTS }
    ensures value { result ≡ OK → parts_in out.new ≡ record { lanes = lanes; bytes = [] } }
    ensures sound { result ≡ OK → IsParts out.new }
    ensures same { result ≢ OK → out.new ≡ out.old }
{
    if lanes == 0 || lanes > 8 {
        return BAD_PARTS;
    }
    *out = Parts::empty(lanes);
    OK
}

/// Takes the part of the image that begins at byte `offset`: where the bytes fed end, or at byte 0, where a part
/// begins anew.
///
/// # Errors
///
/// `BAD_PARTS` exactly where the struct is none of parts that were fed; it stays as it was. Else, in this order:
/// `BAD_SEQUENCE` exactly where the part begins elsewhere; then nothing changes. `TOO_LONG` exactly where it passes
/// the image's end, `BAD_IMAGE` exactly where no image goes on with it, with the first such place; then the bytes fed
/// before stay, but none where the part began anew.
#[unsafe(no_mangle)]
pub extern "C" fn nvmigrate_parts_feed(
    parts: &mut Parts,
    offset: u32,
    part: &[u8],
    place: &mut u32,
) -> u32
    ensures bad { (IsParts parts.old → ⊥) → (result ≡ BAD_PARTS) × (parts.new ≡ parts.old) }
    ensures fed { IsParts parts.old → MatchOption (feed_told result place.new) ⊥
        (λ r. Feeds offset part.now r (parts_in parts.old) (parts_in parts.new)) }
    ensures sound { IsParts parts.old → IsParts parts.new }
    ensures bytes { result ≡ OK → parts.new.bytes
        ≡ take offset parts.old.bytes ++ part.now ++ drop (offset + length part.now) parts.old.bytes }
    ensures same { result ≢ OK → 0 < offset → parts.new ≡ parts.old }
    ensures anew { result ≢ OK → IsParts parts.old → offset ≡ 0 → parts.new ≡ record parts.old { fed = 0 } }
    ensures place { result ≢ BAD_IMAGE → place.new ≡ place.old }
{
    let Some(mut fed) = parts.library() else {
        return BAD_PARTS;
    };
    match feed(&mut fed, offset, part) {
        Ok(()) => {
            put(&mut parts.bytes, offset as usize, part);
            parts.fed = fed.fed();
            OK
        }
        Err(PartRefusal::BadSequence) => BAD_SEQUENCE,
        Err(PartRefusal::TooLong) => {
            parts.fed = fed.fed();
            TOO_LONG
        }
        Err(PartRefusal::BadImage { place: at }) => {
            parts.fed = fed.fed();
            *place = at;
            BAD_IMAGE
        }
    }
}

/// Feeds a part of any length.
fn feed(parts: &mut ctl_state::Parts, offset: u32, part: &[u8]) -> Result<(), PartRefusal>
    requires { parts.old.lanes ≤ 8 }
    ensures { Feeds offset part.now result parts.old parts.new }
{
    if part.len() > 265 {
        // It is refused as its first bytes are, which are too many, and its length is added to nothing.
        return parts.feed(offset, &part[..265]);
    }
    parts.feed(offset, part)
}

/// Writes a part from that byte on. The other bytes stay.
fn put(bytes: &mut [u8; 264], from: usize, part: &[u8])
    requires { from + length part.now ≤ 264 }
    ensures { bytes.new ≡ take from bytes.old ++ part.now ++ drop (from + length part.now) bytes.old }
{
    bytes[from..from + part.len()].copy_from_slice(part);
}

/// The state whose image was fed: a pair for each lane, and pairs of zeroes behind them.
///
/// # Errors
///
/// `BAD_PARTS` exactly where the struct is none of parts that were fed, `NONE` exactly where it is, and the image
/// isn't whole; then `out` stays as it was.
#[unsafe(no_mangle)]
pub extern "C" fn nvmigrate_parts_whole(parts: &Parts, out: &mut [Pair; 8]) -> u32
    ensures bad { (IsParts parts.now → ⊥) → result ≡ BAD_PARTS }
    ensures found { result ≡ OK
        → IsWhole parts.now.lanes (parts_in parts.now).bytes (state_of parts.now.lanes out.new) }
    ensures sound { result ≡ OK → All HasRings (take parts.now.lanes out.new) }
    ensures exact { IsParts parts.now → (image : TheImage) → IsWhole parts.now.lanes (parts_in parts.now).bytes image
        → (result ≡ OK) × (state_of parts.now.lanes out.new ≡ image) }
    ensures none { IsParts parts.now
        → ((image : TheImage) → IsWhole parts.now.lanes (parts_in parts.now).bytes image → ⊥) → result ≡ NONE }
    ensures same { result ≢ OK → out.new ≡ out.old }
{
    let Some(fed) = parts.library() else {
        return BAD_PARTS;
    };
    let Some(image) = fed.whole() else {
        return NONE;
    };
    put_pairs(out, &image.pairs);
    OK
}

/// Writes the image of the state of these pairs, of lanes 1 and up, into the first bytes of `out`, and how many they
/// are: 8, and 32 for each pair. The others stay.
///
/// # Errors
///
/// `BAD_FIELD` exactly where there is no pair, `TOO_LONG` exactly where there are more than 8, `BAD_RING` exactly where
/// neither is so and an end of one is no ring; then `out` and `count` stay as they were.
#[unsafe(no_mangle)]
pub extern "C" fn nvmigrate_image_encode(
    pairs: &[Pair],
    out: &mut [u8; 264],
    count: &mut u32,
) -> u32
    ensures none { length pairs.now ≡ 0 → result ≡ BAD_FIELD }
    ensures many { 8 < length pairs.now → result ≡ TOO_LONG }
    ensures bad { 1 ≤ length pairs.now → length pairs.now ≤ 8 → (All HasRings pairs.now → ⊥) → result ≡ BAD_RING }
    ensures done { 1 ≤ length pairs.now → length pairs.now ≤ 8 → All HasRings pairs.now → result ≡ OK }
    ensures count { result ≡ OK → count.new ≡ 8 + 32 * length pairs.now }
    ensures bytes { result ≡ OK
        → out.new ≡ image_bytes (image_in pairs.now) ++ drop (8 + 32 * length pairs.now) out.old }
    ensures same { result ≢ OK → (out.new ≡ out.old) × (count.new ≡ count.old) }
{
    if pairs.is_empty() {
        return BAD_FIELD;
    }
    if pairs.len() > 8 {
        return TOO_LONG;
    }
    let Some(states) = states_of(pairs) else {
        return BAD_RING;
    };
    let image = Image {
        pairs: states,
        used: pairs.len() as u8,
    };
    *count = image.encode(out);
    OK
}

/// The pairs for the library, and behind them pairs of zeroes; `None` exactly where an end of one is no ring.
fn states_of(pairs: &[Pair]) -> Option<[PairState; 8]>
    requires { length pairs.now ≤ 8 }
    ensures { MatchOption result (All HasRings pairs.now → ⊥)
        (λ s. All HasRings pairs.now × (s ≡ (image_in pairs.now).pairs)) }
{
    let mut states = [PairState::NONE; 8];
    'pairs: for place in 0..pairs.len() {
        let Some(state) = pairs[place].state() else {
            return None;
        };
        states[place] = state;
    }
    Some(states)
}

/// Pairs of the library for C.
fn put_pairs(out: &mut [Pair; 8], pairs: &[PairState; 8])
    ensures value { map pair_in out.new ≡ pairs.now }
    ensures flags { All HasFlag out.new }
{
    'pairs: for place in 0..8usize {
        out[place] = Pair::of(pairs[place]);
    }
}
