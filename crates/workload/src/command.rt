// The command that a word asks for, part by part.
ghost use Rattle.std.specs.Prelude.{◌≡◌, ◌+◌, ◌<◌, ◌≤◌};
ghost use Rattle.workload.specs.Made.{asked_byte, asked_command, asked_count, asked_first, asked_op, asked_page, first_page, second_page};

use nvm_model::Act;
use nvm_values::Op;

/// What the command does.
pub fn op_of(word: u64) -> Op
    ensures { result ≡ asked_op word }
{
    match word % 8 {
        0..=3 => Op::Write,
        4 | 5 => Op::Read,
        6 => Op::WriteZeroes,
        _ => Op::Compare,
    }
}

/// How many blocks it is on, from 1 to 16.
fn count_of(word: u64) -> u32
    ensures { result ≡ asked_count word }
{
    1 + ((word >> 8) % 16) as u32
}

/// Its first block, in a lane from 1 to 4.
fn first_of(lane: u8, word: u64) -> u64
    requires { (1 ≤ lane) × (lane ≤ 4) }
    ensures { result ≡ asked_first lane word }
{
    16 * (4 * ((word >> 16) % 1024) + u64::from(lane - 1))
}

/// The byte that a write writes.
pub fn byte_of(word: u64) -> u8
    ensures { result ≡ asked_byte word }
{
    ((word >> 40) % 256) as u8
}

/// The first of its data pages.
pub fn page_of(word: u64) -> u16
    ensures page { result ≡ asked_page word }
    ensures few { result < 64 }
{
    2 * ((word >> 48) % 32) as u16
}

/// The first page of a command that moves data.
fn first_page_of(op: Op, word: u64) -> Option<u16>
    ensures { result ≡ first_page op word }
{
    match op {
        Op::WriteZeroes => None,
        _ => Some(page_of(word)),
    }
}

/// The second page of one that moves more data than a page holds.
fn second_page_of(op: Op, word: u64) -> Option<u16>
    ensures { result ≡ second_page op word }
{
    match op {
        Op::WriteZeroes => None,
        _ => page_behind(word),
    }
}

/// The page behind the first one, where eight blocks aren't enough.
fn page_behind(word: u64) -> Option<u16>
    ensures { result ≡ second_page Op.Write word }
{
    if count_of(word) > 8 {
        Some(page_of(word) + 1)
    } else {
        None
    }
}

/// The act that submits the command, in a lane from 1 to 4.
pub fn command_of(lane: u8, cid: u16, word: u64) -> Act
    requires { (1 ≤ lane) × (lane ≤ 4) }
    ensures { result ≡ asked_command lane cid word }
{
    let op = op_of(word);
    Act::Submit {
        cid,
        op,
        slba: first_of(lane, word),
        count: count_of(word),
        p1: first_page_of(op, word),
        p2: second_page_of(op, word),
    }
}
