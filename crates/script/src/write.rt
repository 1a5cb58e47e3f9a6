//! A script's text, written line by line.

ghost use Rattle.std.specs.Prelude.{◌≡◌, ℕ, ◌+◌, ◌<◌, ◌≤◌, ◌^◌, ◌∷◌, ◌++◌, [], All, OnErr, OnOk, codes, decimal, length, take};
ghost use Rattle.std.specs.List.{flat_map};
ghost use Rattle.hex.specs.Hex.{encode_lower};
ghost use Rattle.mig_base.specs.Count.{HasCause};
ghost use Rattle.mig_base.specs.Stream.{IsCut, Writes, with_more};
ghost use Rattle.nvm_model.specs.ScriptText.{IsAct, IsHead, IsScript, act_line, act_text, head_text, lane_line, lane_lines, migrate_line, op_word, page_word, script_text};
ghost use Rattle.nvm_model.specs.Text.{field, last_field};
ghost use Rattle.script.specs.Writing.{key_text};

use crate::key::{FIRST_KEYS, Key, LATER_KEYS};
use line_buf::{LineBuf, write_line};
use mig_base::{Failed, Sink};
use nvm_model::{Act, Head, LaneSet, Script};
use nvm_values::Op;

/// Writes the one text of a script, a line per `send`.
///
/// # Errors
///
/// `Failed` only where the sink's count of faults rose. A front of the text was written then.
pub fn write_script<K: Sink>(s: &Script, sink: &mut K) -> Result<(), Failed>
    requires { IsScript s.now }
    ensures written { OnOk result (K.bytes sink.new ≡ with_more (script_text s.now) (K.bytes sink.old)) }
    ensures cut { OnErr result (IsCut (script_text s.now) (K.bytes sink.old) (K.bytes sink.new)) }
    ensures cause { HasCause (K.faults sink.old) (K.faults sink.new) result }
{
    write_parts(s, sink)
}

/// The head, the acts, and the last line.
fn write_parts<K: Sink>(s: &Script, sink: &mut K) -> Result<(), Failed>
    requires { IsScript s.now }
    ensures { Writes (script_text s.now) (K.bytes sink.old) (K.bytes sink.new) (K.faults sink.old) (K.faults sink.new) result }
{
    write_head(&s.head, sink)?;
    write_acts(s, sink)?;
    write_line(b"end\n", sink)
}

/// Writes the lines of these numbers.
fn write_keys<K: Sink>(keys: &[Key], head: &Head, sink: &mut K) -> Result<(), Failed>
    ensures { Writes (flat_map (key_text head.now) keys.now) (K.bytes sink.old) (K.bytes sink.new) (K.faults sink.old) (K.faults sink.new) result }
{
    for key in keys {
        write_key(*key, head, sink)?;
    }
    Ok(())
}

fn write_key<K: Sink>(key: Key, head: &Head, sink: &mut K) -> Result<(), Failed>
    ensures { Writes (key_text head.now key) (K.bytes sink.old) (K.bytes sink.new) (K.faults sink.old) (K.faults sink.new) result }
{
    let mut line = LineBuf::new();
    line.push(key.word());
    line.push(b" ");
    line.push_last_field(key.number(head));
    write_line(line.bytes(), sink)
}

fn write_head<K: Sink>(head: &Head, sink: &mut K) -> Result<(), Failed>
    requires { IsHead head.now }
    ensures { Writes (head_text head.now) (K.bytes sink.old) (K.bytes sink.new) (K.faults sink.old) (K.faults sink.new) result }
{
    write_line(b"nvmigrate script 1\n", sink)?;
    write_keys(&FIRST_KEYS, head, sink)?;
    write_lanes(head, sink)?;
    write_keys(&LATER_KEYS, head, sink)?;
    write_migrate(head.migrate, sink)
}

fn write_lanes<K: Sink>(head: &Head, sink: &mut K) -> Result<(), Failed>
    requires { IsHead head.now }
    ensures { Writes (lane_lines 1 (take head.now.lanes head.now.sets)) (K.bytes sink.old) (K.bytes sink.new) (K.faults sink.old) (K.faults sink.new) result }
{
    write_sets(&head.sets[..usize::from(head.lanes)], sink)
}

/// The lines of lanes of these sizes, from lane 1 on.
fn write_sets<K: Sink>(sets: &[LaneSet], sink: &mut K) -> Result<(), Failed>
    requires { length sets.now ≤ 8 }
    ensures { Writes (lane_lines 1 sets.now) (K.bytes sink.old) (K.bytes sink.new) (K.faults sink.old) (K.faults sink.new) result }
{
    for (i, set) in sets.iter().enumerate() {
        write_lane(i as u32 + 1, *set, sink)?;
    }
    Ok(())
}

fn write_lane<K: Sink>(k: u32, set: LaneSet, sink: &mut K) -> Result<(), Failed>
    ensures { Writes (lane_line k set) (K.bytes sink.old) (K.bytes sink.new) (K.faults sink.old) (K.faults sink.new) result }
{
    let mut line = LineBuf::new();
    line.push(b"lane ");
    line.push_field(k);
    line.push(b"sq ");
    line.push_field(u32::from(set.sq));
    line.push(b"cq ");
    line.push_field(u32::from(set.cq));
    line.push(b"pages ");
    line.push_last_field(u32::from(set.pages));
    write_line(line.bytes(), sink)
}

fn write_migrate<K: Sink>(turn: Option<u32>, sink: &mut K) -> Result<(), Failed>
    ensures { Writes (migrate_line turn) (K.bytes sink.old) (K.bytes sink.new) (K.faults sink.old) (K.faults sink.new) result }
{
    match turn {
        None => Ok(()),
        Some(turn) => {
            let mut line = LineBuf::new();
            line.push(b"migrate ");
            line.push_last_field(turn);
            write_line(line.bytes(), sink)
        }
    }
}

fn write_acts<K: Sink>(s: &Script, sink: &mut K) -> Result<(), Failed>
    requires { IsScript s.now }
    ensures { Writes (flat_map act_line s.now.acts) (K.bytes sink.old) (K.bytes sink.new) (K.faults sink.old) (K.faults sink.new) result }
{
    for (lane, act) in s.acts.list() {
        write_act(*lane, act, sink)?;
    }
    Ok(())
}

fn write_act<K: Sink>(lane: u8, act: &Act, sink: &mut K) -> Result<(), Failed>
    requires { (pages : ℕ) × IsAct pages act.now }
    ensures { Writes (act_line (lane, act.now)) (K.bytes sink.old) (K.bytes sink.new) (K.faults sink.old) (K.faults sink.new) result }
{
    let mut line = LineBuf::new();
    line.push_field(u32::from(lane));
    push_act(act, &mut line);
    write_line(line.bytes(), sink)
}

/// What stands behind the lane's number.
fn push_act(act: &Act, line: &mut LineBuf)
    requires act { (pages : ℕ) × IsAct pages act.now }
    requires room { length line.old ≤ 11 }
    ensures { line.new ≡ line.old ++ act_text act.now }
{
    match *act {
        Act::Fill { page, byte } => push_fill(page, byte, line),
        Act::Poke {
            page,
            at,
            bytes,
            used,
        } => push_poke(page, at, &bytes[..usize::from(used)], line),
        Act::List { page, pages, used } => push_list(page, &pages[..usize::from(used)], line),
        Act::Submit {
            cid,
            op,
            slba,
            count,
            p1,
            p2,
        } => {
            push_command(cid, op, slba, count, line);
            push_pages(p1, p2, line)
        }
        Act::Raw { entry } => push_raw(&entry, line),
        Act::Wait => line.push(b"wait\n"),
        Act::Idle => line.push(b"idle\n"),
    }
}

fn push_fill(page: u16, byte: u8, line: &mut LineBuf)
    requires { length line.old ≤ 11 }
    ensures { line.new ≡ line.old ++ (codes "fill " ++ field page ++ encode_lower (byte ∷ []) ++ codes "\n") }
{
    line.push(b"fill ");
    line.push_field(u32::from(page));
    line.push_hex(&[byte]);
    line.push(b"\n");
}

fn push_poke(page: u16, at: u16, bytes: &[u8], line: &mut LineBuf)
    requires few { length bytes.now ≤ 32 }
    requires room { length line.old ≤ 11 }
    ensures { line.new ≡ line.old ++ (codes "poke " ++ field page ++ field at ++ encode_lower bytes.now ++ codes "\n") }
{
    line.push(b"poke ");
    line.push_field(u32::from(page));
    line.push_field(u32::from(at));
    line.push_hex(bytes);
    line.push(b"\n");
}

fn push_list(page: u16, named: &[u16], line: &mut LineBuf)
    requires few { length named.now ≤ 8 }
    requires room { length line.old ≤ 11 }
    ensures { line.new ≡ line.old ++ (codes "list " ++ decimal page ++ flat_map (λ p. 32 ∷ decimal p) named.now ++ codes "\n") }
{
    line.push(b"list ");
    line.push_number(u32::from(page));
    for page in named {
        line.push(b" ");
        line.push_number(u32::from(*page));
    }
    line.push(b"\n");
}

/// A command up to the space behind its number of blocks.
fn push_command(cid: u16, op: Op, slba: u64, count: u32, line: &mut LineBuf)
    requires { length line.old ≤ 11 }
    ensures text { line.new ≡ line.old ++ (codes "submit " ++ field cid ++ op_word op ++ field slba ++ field count) }
    ensures short { length line.new ≤ length line.old + 58 }
{
    line.push(b"submit ");
    line.push_field(u32::from(cid));
    line.push(word_of(op));
    line.push_number64(slba);
    line.push(b" ");
    line.push_field(count);
}

fn word_of(op: Op) -> &'static [u8]
    ensures text { result.now ≡ op_word op }
    ensures short { length result.now ≤ 8 }
{
    match op {
        Op::Flush => b"flush ",
        Op::Write => b"write ",
        Op::Read => b"read ",
        Op::Compare => b"compare ",
        Op::WriteZeroes => b"zeroes ",
        Op::Verify => b"verify ",
    }
}

/// The two pages of a command, and the line feed.
fn push_pages(p1: Option<u16>, p2: Option<u16>, line: &mut LineBuf)
    requires { length line.old ≤ 80 }
    ensures { line.new ≡ line.old ++ (page_word p1 ++ codes " " ++ page_word p2 ++ codes "\n") }
{
    push_page(p1, line);
    line.push(b" ");
    push_page(p2, line);
    line.push(b"\n");
}

/// A data page, or none.
fn push_page(page: Option<u16>, line: &mut LineBuf)
    requires { length line.old ≤ 100 }
    ensures text { line.new ≡ line.old ++ page_word page }
    ensures short { length line.new ≤ length line.old + 10 }
{
    match page {
        None => line.push(b"-"),
        Some(page) => line.push_number(u32::from(page)),
    }
}

fn push_raw(entry: &[u8], line: &mut LineBuf)
    requires few { length entry.now ≤ 64 }
    requires room { length line.old ≤ 11 }
    ensures { line.new ≡ line.old ++ (codes "raw " ++ encode_lower entry.now ++ codes "\n") }
{
    line.push(b"raw ");
    line.push_hex(entry);
    line.push(b"\n");
}
