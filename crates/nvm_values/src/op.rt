ghost use Rattle.std.specs.Prelude.{◌≡◌};
ghost use Rattle.nvm_values.specs.Op.{op_of, opcode_of, moves_data};

/// The commands of the I/O command set that are served (NVM Command Set, section 3.2; Flush is Base 2.1, 7.2).
#[derive(Clone, Copy, Debug, PartialEq, Eq)]
pub enum Op {
    Flush,
    Write,
    Read,
    Compare,
    WriteZeroes,
    Verify,
}

impl Op {
    /// The command of an opcode; `None` for every other opcode.
    pub fn of(opcode: u8) -> Option<Op>
        ensures { result ≡ op_of opcode }
    {
        match opcode {
            0x00 => Some(Op::Flush),
            0x01 => Some(Op::Write),
            0x02 => Some(Op::Read),
            0x05 => Some(Op::Compare),
            0x08 => Some(Op::WriteZeroes),
            0x0c => Some(Op::Verify),
            _ => None,
        }
    }

    /// The command's opcode.
    pub fn opcode(self) -> u8
        ensures { result ≡ opcode_of self }
    {
        match self {
            Op::Flush => 0x00,
            Op::Write => 0x01,
            Op::Read => 0x02,
            Op::Compare => 0x05,
            Op::WriteZeroes => 0x08,
            Op::Verify => 0x0c,
        }
    }

    /// Whether the command moves data between the namespace and the guest's pages.
    pub fn moves_data(self) -> bool
        ensures { result ≡ moves_data self }
    {
        matches!(self, Op::Write | Op::Read | Op::Compare)
    }
}
