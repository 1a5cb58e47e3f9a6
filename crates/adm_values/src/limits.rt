// What a dword may hold, and the first of its bytes behind which it can't go on so.
ghost use Rattle.std.specs.Prelude.{◌≡◌, ◌<◌, ◌≤◌};
ghost use Rattle.adm_values.specs.Kinds.{FirstBadByte, IsLimits, may_begin};

use std::marker::Model;

/// The least number that a dword may hold, at most 255, and the greatest. Contracts see the pair.
#[derive(Clone, Copy)]
pub(crate) struct Limits {
    low: u32,
    high: u32,
}

impl Model for Limits {
    ghost use Rattle.std.specs.Prelude.{◌≤◌, ℕ};

    ghost Value = { ℕ × ℕ };

    ghost view = { λ l. (l.low, l.high) };

    ghost invariant = { λ l. (l.low ≤ 255) × (l.low ≤ l.high) };

    ghost inverse = { λ pair. record { low = pair.0; high = pair.1 } };
}

impl Limits {
    /// From one number to another.
    pub(crate) fn between(low: u8, high: u32) -> Limits
        requires { low ≤ high }
        ensures { result ≡ (low, high) }
    {
        Limits {
            low: u32::from(low),
            high,
        }
    }

    /// One number alone.
    pub(crate) fn only(number: u8) -> Limits
        ensures { result ≡ (number, number) }
    {
        let number = u32::from(number);
        Limits {
            low: number,
            high: number,
        }
    }

    /// The first byte of a little-endian number such that no number within the limits has the same bytes up to it; `None`
    /// exactly where the number is within them.
    pub(crate) fn first_bad(self, number: u32) -> Option<u8>
        ensures { FirstBadByte self number result }
    {
        let number = u64::from(number);
        if !self.may_begin(number % 256, 256) {
            return Some(0);
        }
        if !self.may_begin(number % 65_536, 65_536) {
            return Some(1);
        }
        if !self.may_begin(number % 16_777_216, 16_777_216) {
            return Some(2);
        }
        if !self.may_begin(number, 4_294_967_296) {
            return Some(3);
        }
        None
    }

    /// Whether a number within the limits has these low bytes, of which there are `size` many.
    fn may_begin(self, low_bytes: u64, size: u64) -> bool
        requires { (low_bytes < size) × (size ≤ 4294967296) }
        ensures value { result ≡ may_begin self low_bytes size }
        ensures sound { IsLimits self }
    {
        let least = if low_bytes < u64::from(self.low) {
            low_bytes + size
        } else {
            low_bytes
        };
        least <= u64::from(self.high)
    }
}
