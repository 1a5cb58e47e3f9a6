// Why an admin command was refused.
ghost use Rattle.std.specs.Prelude.{◌≡◌, ◌≤◌, Err};
ghost use Rattle.ctl_state.specs.Admin.{completion_of, refusal_of, unread};

use crate::parts::PartRefusal;
use adm_values::{AdminCpl, AdminRefusal};
use nvm_values::Status;

/// The cause of a refusal, each with its status: of type 1, Command Specific, but for the last two.
#[derive(Clone, Copy)]
pub enum Refusal {
    /// c0: the controller is suspended, or takes a state.
    IsSuspended,
    /// c1: it isn't suspended.
    NotSuspended,
    /// c2: no queue has this number, or one can't be created so.
    BadDataQueue,
    /// c3: a change found no free cell of the queue.
    DataQueueFull,
    /// c4: no image goes on with the byte at this place, which is told in dword 0.
    BadImage { place: u32 },
    /// c5: the part doesn't follow on those before it, or the image isn't whole.
    BadSequence,
    /// 0 02, Invalid Field in Command.
    InvalidField,
    /// 0 01, Invalid Command Opcode.
    InvalidOpcode,
}

impl Refusal {
    /// Why a part of an image was refused.
    pub fn of_part(refusal: PartRefusal) -> Refusal
        ensures { result ≡ refusal_of refusal }
    {
        match refusal {
            PartRefusal::BadSequence => Refusal::BadSequence,
            PartRefusal::TooLong => Refusal::InvalidField,
            PartRefusal::BadImage { place } => Refusal::BadImage { place },
        }
    }

    /// Why bytes that are no command were.
    pub fn of_bytes(refusal: AdminRefusal) -> Refusal
        ensures { result ≡ unread refusal }
    {
        match refusal {
            AdminRefusal::BadOpcode => Refusal::InvalidOpcode,
            AdminRefusal::BadSelect | AdminRefusal::BadField { .. } => Refusal::InvalidField,
        }
    }

    /// The completion that tells it.
    pub fn completion(self) -> AdminCpl
        ensures { result ≡ completion_of (Err self) }
    {
        match self {
            Refusal::IsSuspended => told(1, 0xc0, 0),
            Refusal::NotSuspended => told(1, 0xc1, 0),
            Refusal::BadDataQueue => told(1, 0xc2, 0),
            Refusal::DataQueueFull => told(1, 0xc3, 0),
            Refusal::BadImage { place } => told(1, 0xc4, place),
            Refusal::BadSequence => told(1, 0xc5, 0),
            Refusal::InvalidField => told(0, 0x02, 0),
            Refusal::InvalidOpcode => told(0, 0x01, 0),
        }
    }
}

/// A completion with this status and this dword 0.
fn told(sct: u8, sc: u8, dw0: u32) -> AdminCpl
    requires { sct ≤ 7 }
    ensures { result ≡ record { status = (sct, sc); dw0 = dw0 } }
{
    AdminCpl {
        status: Status::new(sct, sc),
        dw0,
    }
}
