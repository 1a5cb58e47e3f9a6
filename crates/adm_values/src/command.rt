ghost use Rattle.std.specs.Prelude.{◌≡◌, ◌<◌, Ok, slice_index};
ghost use Rattle.adm_values.specs.Command.{IsCommand, Reads, command_bytes, dword_11, dword_12, entry_of, opcode_of, select_of};
ghost use Rattle.adm_values.specs.Kinds.{IsFirstBadOf, dword_at, kind_at};

use crate::AdminRefusal;
use crate::kind::Kind;
use byteorder::{ByteOrder, LittleEndian};
use nvm_values::{Sqe, Status};

/// An admin command of host managed live migration (Base 2.1, Track Send, Track Receive, Migration Send, Migration
/// Receive and Controller Data Queue commands): its identifier, and what it asks for.
#[derive(Clone, Copy, Debug, PartialEq, Eq)]
pub struct AdminCmd {
    pub cid: u16,
    pub what: What,
}

/// What an admin command asks for.
#[derive(Clone, Copy, Debug, PartialEq, Eq)]
pub enum What {
    /// Track Send, Log User Data Changes: changes of user data are logged into that queue from now on, or no more.
    LogUserData { start: bool, queue: u16 },
    /// Track Send, Track Memory Changes: the controller's changes of guest memory are tracked from now on, or no more.
    TrackMemory { start: bool },
    /// Track Receive, Tracked Memory Changes: at most so many pages that changed, from 1 to 2,064.
    MemoryChanges { max: u32 },
    /// Migration Send, Suspend.
    Suspend,
    /// Migration Send, Resume.
    Resume,
    /// Migration Send, Set Controller State: a part of the state image, of from 1 to 4,096 bytes, from a byte of it on.
    SetState { offset: u32, length: u32 },
    /// Migration Receive, Get Controller State: the same of the image that is read.
    GetState { offset: u32, length: u32 },
    /// Controller Data Queue, Create: a user data migration queue of from 2 to 65,536 cells.
    CreateQueue { cells: u32 },
    /// Controller Data Queue, Delete: that queue is taken away.
    DeleteQueue { queue: u16 },
}

/// What a controller answers to an admin command: the status, and dword 0 of the completion.
#[derive(Clone, Copy, Debug, PartialEq, Eq)]
pub struct AdminCpl {
    pub status: Status,
    pub dw0: u32,
}

impl AdminCmd {
    /// The 64 bytes of this command, whose numbers are in their ranges.
    pub fn to_bytes(&self) -> [u8; 64]
        requires { IsCommand self.now }
        ensures { result ≡ command_bytes self.now }
    {
        self.entry().to_bytes()
    }

    /// The command of these 64 bytes.
    ///
    /// # Errors
    ///
    /// `BadOpcode` exactly where byte 0 is the opcode of no command, `BadSelect` exactly where it is one's and byte 40 is
    /// the selector of no command of that opcode. `BadField` exactly where both are and the bytes aren't a command, with
    /// the first place such that no command with this opcode and this selector has the same bytes at every place up to it.
    pub fn from_bytes(b: &[u8; 64]) -> Result<AdminCmd, AdminRefusal>
        ensures read { Reads b.now result }
        ensures back { (c : AdminCmd) → IsCommand c → command_bytes c ≡ b.now → result ≡ Ok c }
    {
        let kind = Kind::of(b[0], b[40])?;
        if let Some(place) = first_bad(b, kind) {
            return Err(AdminRefusal::BadField { place });
        }
        Ok(AdminCmd {
            cid: LittleEndian::read_u16(&b[2..4]),
            what: kind.command(dword_at(b, 11), dword_at(b, 12)),
        })
    }

    /// The submission entry of this command.
    fn entry(&self) -> Sqe
        ensures { result ≡ entry_of self.now }
    {
        let (cdw11, cdw12) = self.what.dwords();
        Sqe {
            opcode: self.what.opcode(),
            flags: 0,
            cid: self.cid,
            nsid: 0,
            cdw2: 0,
            cdw3: 0,
            mptr: 0,
            prp1: 0,
            prp2: 0,
            cdw10: u32::from(self.what.select()),
            cdw11,
            cdw12,
            cdw13: 0,
            cdw14: 0,
            cdw15: 0,
        }
    }
}

impl What {
    /// The opcode of such a command.
    fn opcode(self) -> u8
        ensures { result ≡ opcode_of self }
    {
        match self {
            What::LogUserData { .. } | What::TrackMemory { .. } => 0x3d,
            What::MemoryChanges { .. } => 0x3e,
            What::Suspend | What::Resume | What::SetState { .. } => 0x41,
            What::GetState { .. } => 0x42,
            What::CreateQueue { .. } | What::DeleteQueue { .. } => 0x45,
        }
    }

    /// Its selector, which tells apart the commands of an opcode.
    fn select(self) -> u8
        ensures { result ≡ select_of self }
    {
        match self {
            What::LogUserData { .. }
            | What::MemoryChanges { .. }
            | What::Suspend
            | What::GetState { .. }
            | What::CreateQueue { .. } => 0,
            What::TrackMemory { .. } | What::Resume | What::DeleteQueue { .. } => 1,
            What::SetState { .. } => 2,
        }
    }

    /// Its dwords 11 and 12.
    fn dwords(self) -> (u32, u32)
        ensures { result ≡ (dword_11 self, dword_12 self) }
    {
        match self {
            What::LogUserData { start, queue } => (u32::from(start), u32::from(queue)),
            What::TrackMemory { start } => (u32::from(start), 0),
            What::MemoryChanges { max } => (max, 0),
            What::Suspend | What::Resume => (0, 0),
            What::SetState { offset, length } | What::GetState { offset, length } => {
                (offset, length)
            }
            What::CreateQueue { cells } => (cells, 0),
            What::DeleteQueue { queue } => (u32::from(queue), 0),
        }
    }
}

/// The first byte behind which no command of that kind goes on; `None` exactly where there is none.
fn first_bad(b: &[u8; 64], kind: Kind) -> Option<u8>
    requires { kind_at (slice_index b.now 0) (slice_index b.now 40) ≡ Ok kind }
    ensures { IsFirstBadOf kind b.now result }
{
    if b[1] != 0 {
        return Some(1);
    }
    for dword in 1..16u8 {
        let limits = kind.limits(dword);
        if let Some(byte) = limits.first_bad(dword_at(b, dword)) {
            return Some(4 * dword + byte);
        }
    }
    None
}

/// A dword of the bytes, from 0 to 15.
fn dword_at(b: &[u8; 64], dword: u8) -> u32
    requires { dword < 16 }
    ensures { result ≡ dword_at b.now dword }
{
    let at = 4 * usize::from(dword);
    LittleEndian::read_u32(&b[at..at + 4])
}
