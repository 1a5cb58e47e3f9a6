//! The numbers of a head, and which line of a script is due.

ghost use Rattle.std.specs.Prelude.{◌≡◌, ◌≤◌, length};
ghost use Rattle.script.specs.Keys.{key_word, number, with_number, lowest, highest, are_shelves, after, no_head};

use nvm_model::{Head, LaneSet};

/// A number of a script's head, which has a line of its own.
#[derive(Clone, Copy)]
pub enum Key {
    Blocks,
    Shelf,
    Lanes,
    Burst,
    Mix,
    Change,
    Slice,
    Small,
    Pages,
    Patience,
}

/// The line of a script that is due.
#[derive(Clone, Copy)]
pub enum Due {
    Title,
    Number(Key),
    /// The line of a lane, behind those of so many.
    Lane(u8),
    /// The line of a move, or of the body where there is none.
    Behind,
    /// An act's, or the last.
    Body,
    /// None: the last was read.
    Done,
}

impl Key {
    /// The word before the number.
    pub fn word(self) -> &'static [u8]
        ensures text { result.now ≡ key_word self }
        ensures short { length result.now ≤ 8 }
    {
        match self {
            Key::Blocks => b"blocks",
            Key::Shelf => b"shelf",
            Key::Lanes => b"lanes",
            Key::Burst => b"burst",
            Key::Mix => b"mix",
            Key::Change => b"change",
            Key::Slice => b"slice",
            Key::Small => b"small",
            Key::Pages => b"pages",
            Key::Patience => b"patience",
        }
    }

    /// The number, where the head has it.
    pub fn number(self, head: &Head) -> u32
        ensures { result ≡ number self head.now }
    {
        match self {
            Key::Blocks => head.blocks,
            Key::Shelf => head.shelf,
            Key::Lanes => u32::from(head.lanes),
            Key::Burst => head.burst,
            Key::Mix => head.mix,
            Key::Change => head.change,
            Key::Slice => head.slice,
            Key::Small => head.small,
            Key::Pages => head.pages,
            Key::Patience => head.patience,
        }
    }

    /// Puts the number into the head.
    pub fn put(self, n: u32, head: &mut Head)
        requires { n ≤ highest self head.old }
        ensures { head.new ≡ with_number self n head.old }
    {
        match self {
            Key::Blocks => head.blocks = n,
            Key::Shelf => head.shelf = n,
            Key::Lanes => head.lanes = n as u8,
            Key::Burst => head.burst = n,
            Key::Mix => head.mix = n,
            Key::Change => head.change = n,
            Key::Slice => head.slice = n,
            Key::Small => head.small = n,
            Key::Pages => head.pages = n,
            Key::Patience => head.patience = n,
        }
    }

    /// The lowest and the highest that the number may be, by those before it.
    pub fn range(self, head: &Head) -> (u32, u32)
        ensures { result ≡ (lowest self head.now, highest self head.now) }
    {
        match self {
            Key::Blocks => (1, 131072),
            Key::Shelf => (1, 65536),
            Key::Lanes => (1, 8),
            Key::Burst => (1, 64),
            Key::Mix => (0, u32::MAX),
            Key::Change => (2, 65536),
            Key::Slice => (1, head.blocks),
            Key::Small => (head.slice, head.blocks),
            Key::Pages => (1, 2064),
            Key::Patience => (1, 65535),
        }
    }

    /// Whether the shelves, at most 64, are equally long, where this is their length.
    pub fn are_shelves(self, n: u32, head: &Head) -> bool
        requires { lowest self head.now ≤ n }
        ensures { result ≡ are_shelves self n head.now }
    {
        match self {
            Key::Shelf => head.blocks % n == 0 && head.blocks / n <= 64,
            _ => true,
        }
    }

    /// The line behind this number's.
    pub fn after(self) -> Due
        ensures { result ≡ after self }
    {
        match self {
            Key::Blocks => Due::Number(Key::Shelf),
            Key::Shelf => Due::Number(Key::Lanes),
            Key::Lanes => Due::Lane(0),
            Key::Burst => Due::Number(Key::Mix),
            Key::Mix => Due::Number(Key::Change),
            Key::Change => Due::Number(Key::Slice),
            Key::Slice => Due::Number(Key::Small),
            Key::Small => Due::Number(Key::Pages),
            Key::Pages => Due::Number(Key::Patience),
            Key::Patience => Due::Behind,
        }
    }
}

/// The keys whose lines come before those of the lanes.
pub const FIRST_KEYS: [Key; 3] = [Key::Blocks, Key::Shelf, Key::Lanes];

/// The keys whose lines come behind those of the lanes.
pub const LATER_KEYS: [Key; 7] = [
    Key::Burst,
    Key::Mix,
    Key::Change,
    Key::Slice,
    Key::Small,
    Key::Pages,
    Key::Patience,
];

/// A head of which nothing was read.
pub fn no_head() -> Head
    ensures { result ≡ no_head }
{
    let none = LaneSet {
        sq: 0,
        cq: 0,
        pages: 0,
    };
    Head {
        blocks: 0,
        shelf: 0,
        lanes: 0,
        sets: [none; 8],
        burst: 0,
        mix: 0,
        change: 0,
        slice: 0,
        small: 0,
        pages: 0,
        patience: 0,
        migrate: None,
    }
}
