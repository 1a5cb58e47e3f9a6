ghost use Rattle.std.specs.Prelude.{◌≡◌, ◌+◌, ◌-◌, ◌≤◌, ◌++◌, [], IfSome, Some, drop, length, replicate, take};
ghost use Rattle.ctl_state.specs.declared.image.Image.{Image};
ghost use Rattle.ctl_state.specs.Bounds.{pairs_in};
ghost use Rattle.ctl_state.specs.Image.{none};
ghost use Rattle.ctl_state.specs.Parts.{Feeds, ImageIsTaken, IsWhole, image_size};

use crate::bounds::first_bad;
use crate::image::{Image, PairState};
use std::marker::Model;

/// Why a part of an image wasn't taken.
#[derive(Clone, Copy, Debug, PartialEq, Eq)]
pub enum PartRefusal {
    /// It begins neither at byte 0 nor where the bytes fed end.
    BadSequence,
    /// It passes the image's end.
    TooLong,
    /// At this place of the image, and none before it, no image goes on with the byte.
    BadImage { place: u32 },
}

/// An image that comes in parts, for a controller of from 1 to 8 queue pairs. Contracts see the number of pairs and the
/// bytes fed, with which an image begins.
#[derive(Drop)]
pub struct Parts {
    lanes: u8,
    bytes: [u8; 264],
    fed: u32,
}

impl Model for Parts {
    ghost use Rattle.std.specs.Prelude.{◌≤◌, take};
    ghost use Rattle.ctl_state.specs.Parts.{Begins, PartsState, image_size};

    ghost Value = { PartsState };

    ghost view = { λ p. record { lanes = p.lanes; bytes = take p.fed p.bytes } };

    ghost invariant = { λ p. (1 ≤ p.lanes) × (p.lanes ≤ 8) × (p.fed ≤ image_size p.lanes)
        × Begins p.lanes (take p.fed p.bytes) };
}

impl Parts {
    /// No byte is fed of an image of so many pairs, from 1 to 8.
    pub fn new(lanes: u8) -> Parts
        requires { (1 ≤ lanes) × (lanes ≤ 8) }
        ensures { result ≡ record { lanes = lanes; bytes = [] } }
    {
        Parts {
            lanes,
            bytes: [0; 264],
            fed: 0,
        }
    }

    /// How many bytes are fed.
    pub fn fed(&self) -> u32
        ensures { result ≡ length self.now.bytes }
    {
        self.fed
    }

    /// Takes the part of the image that begins at byte `offset`: where the bytes fed end, or at byte 0, where a part begins
    /// anew.
    ///
    /// # Errors
    ///
    /// In this order: `BadSequence` exactly where it begins elsewhere; then nothing changes. `TooLong` exactly where it
    /// passes the image's end, `BadImage` exactly where no image goes on with it, with the first such place; then the bytes
    /// fed before stay, but none where the part began anew.
    pub fn feed(&mut self, offset: u32, part: &[u8]) -> Result<(), PartRefusal>
        ensures { Feeds offset part.now result self.old self.new }
    {
        if offset != 0 && offset != self.fed {
            return Err(PartRefusal::BadSequence);
        }
        self.fed = offset;
        let from = offset as usize;
        let end = from + part.len();
        if end > 8 + 32 * usize::from(self.lanes) {
            return Err(PartRefusal::TooLong);
        }
        put(&mut self.bytes, from, part);
        if let Some(place) = first_bad(self.lanes, &self.bytes[..end], from) {
            return Err(PartRefusal::BadImage {
                place: place as u32,
            });
        }
        self.fed = end as u32;
        Ok(())
    }

    /// The state whose image was fed; `None` exactly where it isn't whole.
    pub fn whole(&self) -> Option<Image>
        ensures found { IfSome result (λ image. IsWhole self.now.lanes self.now.bytes image) }
        ensures exact { (image : Image) → IsWhole self.now.lanes self.now.bytes image → result ≡ Some image }
    {
        if self.fed < 8 + 32 * u32::from(self.lanes) {
            return None;
        }
        Some(Image {
            pairs: pairs_in(self.lanes, &self.bytes[..self.fed as usize]),
            used: self.lanes,
        })
    }
}

/// A law: a part of a state's image that follows on the parts of it that were fed, or begins anew, is taken. So however an
/// image is cut, it is fed to its end, and is whole.
pub fn image_is_taken()
    ensures { ImageIsTaken }
{}

/// Writes a part from that byte on. The other bytes stay.
fn put(bytes: &mut [u8; 264], from: usize, part: &[u8])
    requires { from + length part.now ≤ 264 }
    ensures { bytes.new ≡ take from bytes.old ++ part.now ++ drop (from + length part.now) bytes.old }
{
    bytes[from..from + part.len()].copy_from_slice(part);
}

/// The pairs of a whole image, and behind them pairs of zeroes.
fn pairs_in(lanes: u8, bytes: &[u8]) -> [PairState; 8]
    requires { (lanes ≤ 8) × (length bytes.now ≡ image_size lanes) }
    ensures { result ≡ pairs_in lanes (drop 8 bytes.now) ++ replicate (8 - lanes) none }
{
    let mut pairs = [PairState::NONE; 8];
    'pairs: for place in 0..usize::from(lanes) {
        let at = 8 + 32 * place;
        pairs[place] = PairState::from_bytes(&bytes[at..at + 32]);
    }
    pairs
}
