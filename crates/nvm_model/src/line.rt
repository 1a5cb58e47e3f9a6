use crate::Outcome;
use mig_base::LaneNo;
use nvm_values::Status;

/// A line of a transcript.
#[derive(Clone, Copy, Debug, PartialEq, Eq)]
pub enum Line {
    Title,
    Ready,
    /// The lane's guest did its n-th act.
    Act {
        lane: LaneNo,
        n: u32,
    },
    /// The lane's guest took a completion out of its queue.
    Reap {
        lane: LaneNo,
        cid: u16,
        status: Status,
        head: u32,
        phase: bool,
    },
    /// The controller fetched a command, checked it, and cut it into so many pieces.
    Fetch {
        lane: LaneNo,
        cid: u16,
        status: Status,
        pieces: u32,
    },
    /// A piece of a command was done. The digest is that of the bytes that a Read's done blocks gave.
    Piece {
        lane: LaneNo,
        cid: u16,
        first: u32,
        count: u32,
        outcome: Outcome,
        digest: Option<[u8; 32]>,
    },
    /// The controller posted a completion.
    Post {
        lane: LaneNo,
        cid: u16,
        status: Status,
    },
    Migrate,
    Restart,
    Round {
        owed: u32,
        pages: u32,
    },
    Suspend,
    Pause {
        blocks: u32,
        pages: u32,
    },
    ResumeTo,
    GiveUp,
    End,
}
