ghost use Rattle.std.specs.Prelude.{◌≡◌, ◌↔◌, Bool, IfSome, IsTrue, Some};
ghost use Rattle.data_queue.specs.declared.change.Change.{Change as TheChange};
ghost use Rattle.data_queue.specs.Change.{IsChange, change_bytes, change_of};

use byteorder::{ByteOrder, LittleEndian};
use mig_base::Span;

/// Blocks that were written: 1 to 64 of them, the first below 131,072.
#[derive(Clone, Copy, Debug, PartialEq, Eq)]
pub struct Change {
    pub span: Span,
}

impl Change {
    /// Whether the numbers are in their ranges.
    pub fn is_in_range(self) -> bool
        ensures { IsTrue result ↔ IsChange self }
    {
        self.span.first < 131_072 && self.span.count >= 1 && self.span.count <= 64
    }

    /// The entry of 32 bytes with this phase tag.
    pub fn to_bytes(self, phase: bool) -> [u8; 32]
        ensures bytes { result ≡ change_bytes self phase }
        ensures back { change_of result ≡ self }
    {
        let mut out = [0; 32];
        out[0] = 1;
        LittleEndian::write_u64(&mut out[8..16], u64::from(self.span.first));
        LittleEndian::write_u32(&mut out[16..20], self.span.count);
        out[20] = 1;
        out[31] = u8::from(phase);
        out
    }

    /// The change in range and the phase tag of which these are the entry; `None` exactly where they are no entry.
    pub fn parse(b: &[u8; 32]) -> Option<(Change, bool)>
        ensures read { IfSome result (λ r. IsChange r.0 × (b.now ≡ change_bytes r.0 r.1)) }
        ensures back { (c : TheChange) (phase : Bool) → IsChange c → change_bytes c phase ≡ b.now
            → result ≡ Some (c, phase) }
    {
        let change = Change::of_bytes(b);
        let phase = b[31] == 1;
        if !change.is_in_range() {
            return None;
        }
        let entry = change.to_bytes(phase);
        if entry.as_slice() != b.as_slice() {
            return None;
        }
        Some((change, phase))
    }

    /// The change in the bytes of an entry.
    pub(crate) fn of_bytes(b: &[u8; 32]) -> Change
        ensures { result ≡ change_of b.now }
    {
        Change {
            span: Span {
                first: LittleEndian::read_u32(&b[8..12]),
                count: LittleEndian::read_u32(&b[16..20]),
            },
        }
    }
}
