ghost use Rattle.std.specs.Prelude.{◌≡◌};

use nvm_values::Op;
use std::marker::Model;

/// What a lane has: entries of its submission queue and of its completion queue, and data pages.
#[derive(Clone, Copy, Debug, PartialEq, Eq)]
pub struct LaneSet {
    pub sq: u16,
    pub cq: u16,
    pub pages: u16,
}

/// The head of a script. The sets past the first `lanes` are 0.
#[derive(Clone, Copy, Debug, PartialEq, Eq)]
pub struct Head {
    pub blocks: u32,
    pub shelf: u32,
    pub lanes: u8,
    pub sets: [LaneSet; 8],
    pub burst: u32,
    pub mix: u32,
    pub change: u32,
    pub slice: u32,
    pub small: u32,
    pub pages: u32,
    pub patience: u32,
    pub migrate: Option<u32>,
}

/// What a guest does. Places of `bytes` and `pages` from `used` on are 0.
#[derive(Clone, Copy, Debug, PartialEq, Eq)]
pub enum Act {
    /// Every byte of a data page becomes `byte`.
    Fill {
        page: u16,
        byte: u8,
    },
    /// Bytes are written into a data page at a place.
    Poke {
        page: u16,
        at: u16,
        bytes: [u8; 32],
        used: u8,
    },
    /// The addresses of data pages are written at the start of a data page, as a PRP list.
    List {
        page: u16,
        pages: [u16; 8],
        used: u8,
    },
    /// An entry is submitted; `p1` and `p2` are data pages, or none for address 0.
    Submit {
        cid: u16,
        op: Op,
        slba: u64,
        count: u32,
        p1: Option<u16>,
        p2: Option<u16>,
    },
    /// The entry of these 64 bytes is submitted.
    Raw {
        entry: [u8; 64],
    },
    /// Waits until nothing of the lane is submitted, fetched or unreaped.
    Wait,
    /// Ends the lane's acts of this turn.
    Idle,
}

/// The acts of a script with their lanes' numbers, in the script's order. Contracts see the list.
#[derive(Drop)]
pub struct Acts {
    acts: Vec<(u8, Act)>,
}

impl Model for Acts {
    ghost use Rattle.std.specs.Prelude.{List, ℕ};
    ghost use Rattle.nvm_model.specs.declared.script.Act.{Act};

    ghost Value = { List (ℕ × Act) };

    ghost view = { λ a. a.acts.items };
}

impl Acts {
    pub fn new(acts: Vec<(u8, Act)>) -> Acts
        ensures { result ≡ acts.items }
    {
        Acts { acts }
    }

    pub fn list(&self) -> &[(u8, Act)]
        ensures { result.now ≡ self.now }
    {
        self.acts.as_slice()
    }
}

/// A script: its head, and the acts of its guests.
#[derive(Drop)]
pub struct Script {
    pub head: Head,
    pub acts: Acts,
}
