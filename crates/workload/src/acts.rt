// The acts of a made script.
ghost use Rattle.std.specs.Prelude.{◌≡◌, ◌+◌, ◌/◌, ◌%◌, ◌<◌, ◌≤◌, ◌++◌, IfOk, map, vec_capacity, vec_len};
ghost use Rattle.nvm_model.specs.declared.script.Act.{Act};
ghost use Rattle.workload.specs.Made.{asked_op, command_acts, commands, fills, waits};

use crate::command::{byte_of, command_of, op_of, page_of};
use mig_base::OutOfMemory;
use nvm_model::Act;
use nvm_values::Op;
use rand_core::SeedableRng;
use rand_core::utils::NextWord;
use rand_xoshiro::SplitMix64;
use std::alloc::Global;

/// The lanes.
const LANES: u8 = 4;

/// The commands of all lanes.
const COMMANDS: u32 = 3000;

/// At most two acts a command, and a wait a lane.
const MOST: usize = 6004;

/// Takes the memory of all acts, and makes them.
pub fn take_acts(alloc: Global, seed: u64) -> Result<Vec<(u8, Act)>, OutOfMemory>
    ensures { IfOk result (λ acts. acts.items ≡ commands seed 3000 ++ waits 4) }
{
    let mut acts = Vec::with_capacity(alloc, MOST)?;
    push_commands(seed, &mut acts);
    push_waits(&mut acts);
    Ok(acts)
}

/// Makes the acts of all commands, each by the next word.
fn push_commands(seed: u64, acts: &mut Vec<(u8, Act)>)
    requires { vec_len acts.old + 6000 ≤ vec_capacity acts.old }
    ensures items { acts.new.items ≡ acts.old.items ++ commands seed 3000 }
    ensures len { vec_len acts.new ≤ vec_len acts.old + 6000 }
    ensures capacity { vec_capacity acts.new ≡ vec_capacity acts.old }
{
    let mut words = SplitMix64::seed_from_u64(seed);
    for n in 0..COMMANDS {
        push_command(n, words.next_word(), acts);
    }
}

/// Makes the acts of command n, from 0, of all lanes.
fn push_command(n: u32, word: u64, acts: &mut Vec<(u8, Act)>)
    requires few { n < 3000 }
    requires room { vec_len acts.old + 2 ≤ vec_capacity acts.old }
    ensures items { acts.new.items ≡ acts.old.items ++ command_acts (n % 4 + 1) (n / 4 + 1) word }
    ensures len { vec_len acts.new ≤ vec_len acts.old + 2 }
    ensures capacity { vec_capacity acts.new ≡ vec_capacity acts.old }
{
    let lane = (n % 4) as u8 + 1;
    let cid = (n / 4) as u16 + 1;
    push_fill(lane, word, acts);
    acts.push_reserved((lane, command_of(lane, cid, word)));
}

/// Makes the act that fills a write's page, where the word asks for a write.
fn push_fill(lane: u8, word: u64, acts: &mut Vec<(u8, Act)>)
    requires { vec_len acts.old + 1 ≤ vec_capacity acts.old }
    ensures items { acts.new.items ≡ acts.old.items ++ map (λ (act : Act). (lane, act)) (fills (asked_op word) word) }
    ensures len { vec_len acts.new ≤ vec_len acts.old + 1 }
    ensures capacity { vec_capacity acts.new ≡ vec_capacity acts.old }
{
    if let Op::Write = op_of(word) {
        let page = page_of(word);
        let byte = byte_of(word);
        acts.push_reserved((lane, Act::Fill { page, byte }));
    }
}

/// Makes the wait of each lane.
fn push_waits(acts: &mut Vec<(u8, Act)>)
    requires { vec_len acts.old + 4 ≤ vec_capacity acts.old }
    ensures { acts.new.items ≡ acts.old.items ++ waits 4 }
{
    for others in 0..LANES {
        acts.push_reserved((others + 1, Act::Wait));
    }
}
