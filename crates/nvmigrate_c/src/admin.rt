// Admin commands of host managed live migration, and their bytes.
ghost use Rattle.std.specs.Prelude.{◌≡◌, ◌≢◌, ◌↔◌, IfSome, IsTrue, MatchOption, Ok, Some};
ghost use Rattle.adm_values.specs.declared.command.AdminCmd.{AdminCmd as TheCommand};
ghost use Rattle.adm_values.specs.Command.{IsCommand, IsInRange, Reads, command_bytes};
ghost use Rattle.nvmigrate_c.specs.Admin.{command_in, command_of, read_told, what_in};

use crate::code::{BAD_FIELD, BAD_OPCODE, BAD_SELECT, OK};
use crate::entry::flag;
use adm_values::{AdminCmd, AdminRefusal, What};

/// An admin command of host managed live migration (Base 2.1, Track Send, Track Receive, Migration Send, Migration
/// Receive and Controller Data Queue commands): its identifier, what it asks for, from 0 to 8, and its numbers, of
/// which it has some, by that number:
///
/// 0. Log User Data Changes: `start`, 0 or 1, and `queue`.
/// 1. Track Memory Changes: `start`.
/// 2. Tracked Memory Changes: `max`, from 1 to 2,064.
/// 3. Suspend.
/// 4. Resume.
/// 5. Set Controller State: `offset`, and `length`, from 1 to 4,096.
/// 6. Get Controller State: the same.
/// 7. Create a user data migration queue: `cells`, from 2 to 65,536.
/// 8. Delete one: `queue`.
#[repr(C)]
#[derive(Clone, Copy)]
pub struct Command {
    pub cid: u16,
    pub what: u8,
    pub start: u8,
    pub queue: u16,
    pub max: u32,
    pub offset: u32,
    pub length: u32,
    pub cells: u32,
}

/// A command of that number, whose own numbers are zeroes.
fn of_kind(cid: u16, what: u8) -> Command
    ensures { result
        ≡ record { cid = cid; what = what; start = 0; queue = 0; max = 0; offset = 0; length = 0; cells = 0 } }
{
    Command {
        cid,
        what,
        start: 0,
        queue: 0,
        max: 0,
        offset: 0,
        length: 0,
        cells: 0,
    }
}

impl Command {
    /// A command of the library for C. The numbers that it hasn't are zeroes.
    fn of(command: AdminCmd) -> Command
        ensures value { result ≡ command_of command }
        ensures back { command_in result ≡ Some command }
    {
        let cid = command.cid;
        match command.what {
            What::LogUserData { start, queue } => Command {
                start: flag(start),
                queue,
                ..of_kind(cid, 0)
            },
            What::TrackMemory { start } => Command {
                start: flag(start),
                ..of_kind(cid, 1)
            },
            What::MemoryChanges { max } => Command {
                max,
                ..of_kind(cid, 2)
            },
            What::Suspend => of_kind(cid, 3),
            What::Resume => of_kind(cid, 4),
            What::SetState { offset, length } => Command {
                offset,
                length,
                ..of_kind(cid, 5)
            },
            What::GetState { offset, length } => Command {
                offset,
                length,
                ..of_kind(cid, 6)
            },
            What::CreateQueue { cells } => Command {
                cells,
                ..of_kind(cid, 7)
            },
            What::DeleteQueue { queue } => Command {
                queue,
                ..of_kind(cid, 8)
            },
        }
    }

    /// What C's command asks for, in range or not; `None` where that is no number of a command, or a flag is none.
    fn asked(self) -> Option<What>
        ensures { result ≡ what_in self }
    {
        let Command {
            max,
            offset,
            length,
            cells,
            queue,
            ..
        } = self;
        match self.what {
            0 if self.start <= 1 => Some(What::LogUserData {
                start: self.start == 1,
                queue,
            }),
            1 if self.start <= 1 => Some(What::TrackMemory {
                start: self.start == 1,
            }),
            2 => Some(What::MemoryChanges { max }),
            3 => Some(What::Suspend),
            4 => Some(What::Resume),
            5 => Some(What::SetState { offset, length }),
            6 => Some(What::GetState { offset, length }),
            7 => Some(What::CreateQueue { cells }),
            8 => Some(What::DeleteQueue { queue }),
            _ => None,
        }
    }

    /// C's command for the library, in range or not.
    fn command(self) -> Option<AdminCmd>
        ensures { result ≡ command_in self }
    {
        let what = self.asked()?;
        Some(AdminCmd {
            cid: self.cid,
            what,
        })
    }
}

/// Whether the numbers of a command are in their ranges.
fn is_in_range(what: What) -> bool
    ensures { IsTrue result ↔ IsInRange what }
{
    match what {
        What::MemoryChanges { max } => max >= 1 && max <= 2_064,
        What::SetState { length, .. } | What::GetState { length, .. } => {
            length >= 1 && length <= 4_096
        }
        What::CreateQueue { cells } => cells >= 2 && cells <= 65_536,
        _ => true,
    }
}

/// The 64 bytes of an admin command.
///
/// # Errors
///
/// `BAD_FIELD` exactly where the struct says no command, or a number of it is out of its range; `out` stays as it
/// was.
#[unsafe(no_mangle)]
pub extern "C" fn nvmigrate_admin_to_bytes(command: &Command, out: &mut [u8; 64]) -> u32
    ensures done { IfSome (command_in command.now) (λ c. IsCommand c → (result ≡ OK) × (out.new ≡ command_bytes c)) }
    ensures bad { MatchOption (command_in command.now) (result ≡ BAD_FIELD)
        (λ c. (IsCommand c → ⊥) → result ≡ BAD_FIELD) }
    ensures same { result ≢ OK → out.new ≡ out.old }
{
    let Some(admin) = command.command() else {
        return BAD_FIELD;
    };
    if !is_in_range(admin.what) {
        return BAD_FIELD;
    }
    *out = admin.to_bytes();
    OK
}

/// The admin command of 64 bytes.
///
/// # Errors
///
/// `BAD_OPCODE` exactly where byte 0 is the opcode of no command, `BAD_SELECT` exactly where it is one's and byte 40
/// is the selector of no command of that opcode. `BAD_FIELD` exactly where both are and the bytes aren't a command,
/// with the first place, from 1 to 63, such that no command with this opcode and this selector has the same bytes at
/// every place up to it. Then `out` stays as it was, and `place` too, but for `BAD_FIELD`.
#[unsafe(no_mangle)]
pub extern "C" fn nvmigrate_admin_from_bytes(b: &[u8; 64], out: &mut Command, place: &mut u8) -> u32
    ensures read { MatchOption (read_told result (command_in out.new) place.new) ⊥ (λ r. Reads b.now r) }
    ensures back { (c : TheCommand) → IsCommand c → command_bytes c ≡ b.now
        → read_told result (command_in out.new) place.new ≡ Some (Ok c) }
    // The numbers that a command hasn't are zeroes.
    ensures plain { result ≡ OK → IfSome (command_in out.new) (λ c. out.new ≡ command_of c) }
    ensures same { result ≢ OK → out.new ≡ out.old }
    ensures place { result ≢ BAD_FIELD → place.new ≡ place.old }
{
    match AdminCmd::from_bytes(b) {
        Ok(command) => {
            *out = Command::of(command);
            OK
        }
        Err(AdminRefusal::BadOpcode) => BAD_OPCODE,
        Err(AdminRefusal::BadSelect) => BAD_SELECT,
        Err(AdminRefusal::BadField { place: at }) => {
            *place = at;
            BAD_FIELD
        }
    }
}
