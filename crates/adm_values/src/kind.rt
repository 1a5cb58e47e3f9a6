// The commands by their opcode and selector.
ghost use Rattle.std.specs.Prelude.{◌≡◌};
ghost use Rattle.adm_values.specs.Kinds.{IsWithin, kind_at, limits_11, limits_12, limits_of, selector, what_of};

use crate::What;
use crate::limits::Limits;

/// Why 64 bytes are no command.
#[derive(Clone, Copy, Debug, PartialEq, Eq)]
pub enum AdminRefusal {
    /// Byte 0 is the opcode of none.
    BadOpcode,
    /// Byte 40 is the selector of none with this opcode.
    BadSelect,
    /// At this place, from 1 to 63, and none before it, no command with this opcode and this selector goes on so.
    BadField { place: u8 },
}

/// A command without its numbers.
#[derive(Clone, Copy)]
pub(crate) enum Kind {
    LogUserData,
    TrackMemory,
    MemoryChanges,
    Suspend,
    Resume,
    SetState,
    GetState,
    CreateQueue,
    DeleteQueue,
}

impl Kind {
    /// That of an opcode and a selector.
    ///
    /// # Errors
    ///
    /// `BadOpcode` where no command has the opcode, `BadSelect` where one has, and none with this selector.
    pub(crate) fn of(opcode: u8, select: u8) -> Result<Kind, AdminRefusal>
        ensures { result ≡ kind_at opcode select }
    {
        match opcode {
            0x3d => match select {
                0 => Ok(Kind::LogUserData),
                1 => Ok(Kind::TrackMemory),
                _ => Err(AdminRefusal::BadSelect),
            },
            0x3e => match select {
                0 => Ok(Kind::MemoryChanges),
                _ => Err(AdminRefusal::BadSelect),
            },
            0x41 => match select {
                0 => Ok(Kind::Suspend),
                1 => Ok(Kind::Resume),
                2 => Ok(Kind::SetState),
                _ => Err(AdminRefusal::BadSelect),
            },
            0x42 => match select {
                0 => Ok(Kind::GetState),
                _ => Err(AdminRefusal::BadSelect),
            },
            0x45 => match select {
                0 => Ok(Kind::CreateQueue),
                1 => Ok(Kind::DeleteQueue),
                _ => Err(AdminRefusal::BadSelect),
            },
            _ => Err(AdminRefusal::BadOpcode),
        }
    }

    /// What a dword of it, from 1 to 15, may hold: dword 10 the selector, dwords 11 and 12 its numbers, the others 0.
    pub(crate) fn limits(self, dword: u8) -> Limits
        ensures { result ≡ limits_of self dword }
    {
        match dword {
            10 => Limits::only(self.select()),
            11 => self.first(),
            12 => self.second(),
            _ => Limits::only(0),
        }
    }

    /// Its selector.
    fn select(self) -> u8
        ensures { result ≡ selector self }
    {
        match self {
            Kind::LogUserData
            | Kind::MemoryChanges
            | Kind::Suspend
            | Kind::GetState
            | Kind::CreateQueue => 0,
            Kind::TrackMemory | Kind::Resume | Kind::DeleteQueue => 1,
            Kind::SetState => 2,
        }
    }

    /// What dword 11 may hold.
    fn first(self) -> Limits
        ensures { result ≡ limits_11 self }
    {
        match self {
            Kind::LogUserData | Kind::TrackMemory => Limits::between(0, 1),
            Kind::MemoryChanges => Limits::between(1, 2_064),
            Kind::Suspend | Kind::Resume => Limits::only(0),
            Kind::SetState | Kind::GetState => Limits::between(0, u32::MAX),
            Kind::CreateQueue => Limits::between(2, 65_536),
            Kind::DeleteQueue => Limits::between(0, 65_535),
        }
    }

    /// What dword 12 may hold.
    fn second(self) -> Limits
        ensures { result ≡ limits_12 self }
    {
        match self {
            Kind::LogUserData => Limits::between(0, 65_535),
            Kind::SetState | Kind::GetState => Limits::between(1, 4_096),
            _ => Limits::only(0),
        }
    }

    /// The command with these two numbers, which are dwords 11 and 12.
    pub(crate) fn command(self, first: u32, second: u32) -> What
        requires first { IsWithin (limits_11 self) first }
        requires second { IsWithin (limits_12 self) second }
        ensures { result ≡ what_of self first second }
    {
        match self {
            Kind::LogUserData => What::LogUserData {
                start: first == 1,
                queue: second as u16,
            },
            Kind::TrackMemory => What::TrackMemory { start: first == 1 },
            Kind::MemoryChanges => What::MemoryChanges { max: first },
            Kind::Suspend => What::Suspend,
            Kind::Resume => What::Resume,
            Kind::SetState => What::SetState {
                offset: first,
                length: second,
            },
            Kind::GetState => What::GetState {
                offset: first,
                length: second,
            },
            Kind::CreateQueue => What::CreateQueue { cells: first },
            Kind::DeleteQueue => What::DeleteQueue {
                queue: first as u16,
            },
        }
    }
}
