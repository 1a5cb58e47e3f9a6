ghost use Rattle.std.specs.Prelude.{◌≡◌, ◌≤◌, ℕ};

use std::marker::Model;

/// The status of a completion (Base 2.1, section 4.2.3): its type, from 0 to 7, and its code. Contracts see the pair.
#[derive(Clone, Copy, Debug, PartialEq, Eq)]
pub struct Status {
    pub sct: u8,
    pub sc: u8,
}

impl Model for Status {
    ghost Value = { ℕ × ℕ };

    ghost view = { λ status. (status.sct, status.sc) };

    ghost invariant = { λ status. status.sct ≤ 7 };

    ghost inverse = { λ pair. record { sct = pair.0; sc = pair.1 } };
}

impl Status {
    pub const SUCCESS: Status = Status { sct: 0, sc: 0x00 };

    pub const INVALID_OPCODE: Status = Status { sct: 0, sc: 0x01 };

    pub const INVALID_FIELD: Status = Status { sct: 0, sc: 0x02 };

    pub const ID_CONFLICT: Status = Status { sct: 0, sc: 0x03 };

    pub const INVALID_NAMESPACE: Status = Status { sct: 0, sc: 0x0b };

    pub const OUT_OF_RANGE: Status = Status { sct: 0, sc: 0x80 };

    pub const WRITE_FAULT: Status = Status { sct: 2, sc: 0x80 };

    pub const READ_ERROR: Status = Status { sct: 2, sc: 0x81 };

    pub const COMPARE_FAILURE: Status = Status { sct: 2, sc: 0x85 };

    /// A status of that type, at most 7, and code.
    pub fn new(sct: u8, sc: u8) -> Status
        requires { sct ≤ 7 }
        ensures { result ≡ (sct, sc) }
    {
        Status { sct, sc }
    }
}
