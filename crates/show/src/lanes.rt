//! The lanes, a line for each.

ghost use Rattle.std.specs.Prelude.{◌≡◌, ℕ, ◌+◌, ◌<◌, ◌≤◌, ◌++◌, length, slice_index, take};
ghost use Rattle.mig_base.specs.Stream.{Writes};
ghost use Rattle.nvm_model.specs.Memory.{window_address};
ghost use Rattle.nvm_model.specs.ScriptText.{IsScript};
ghost use Rattle.nvm_model.specs.World.{acts_of};
ghost use Rattle.show.specs.ShowText.{address_text, lane_line, lane_lines};

use line_buf::{LineBuf, write_line};
use mig_base::{Failed, Sink};
use nvm_model::{LaneSet, Script};

/// The bytes from a lane's window to the next lane's.
const WINDOW_STEP: u32 = 16_777_216;

pub(crate) fn write_lanes<K: Sink>(s: &Script, sink: &mut K) -> Result<(), Failed>
    requires { IsScript s.now }
    ensures { Writes (lane_lines s.now.acts 1 (take s.now.head.lanes s.now.head.sets)) (K.bytes sink.old) (K.bytes sink.new) (K.faults sink.old) (K.faults sink.new) result }
{
    let counts = count_acts(s);
    let sets = &s.head.sets[..usize::from(s.head.lanes)];
    for (i, set) in sets.iter().enumerate() {
        write_lane(i as u32 + 1, *set, counts[i], sink)?;
    }
    Ok(())
}

/// How many acts each lane has.
fn count_acts(s: &Script) -> [u32; 8]
    requires { IsScript s.now }
    ensures { (i : ℕ) → i < 8 → slice_index result i ≡ length (acts_of (i + 1) s.now.acts) }
{
    let mut counts = [0; 8];
    for (lane, _) in s.acts.list() {
        counts[usize::from(*lane - 1)] += 1;
    }
    counts
}

fn write_lane<K: Sink>(k: u32, set: LaneSet, acts: u32, sink: &mut K) -> Result<(), Failed>
    requires { k ≤ 8 }
    ensures { Writes (lane_line k set acts) (K.bytes sink.old) (K.bytes sink.new) (K.faults sink.old) (K.faults sink.new) result }
{
    let mut line = LineBuf::new();
    line.push(b"lane ");
    line.push_field(k);
    line.push(b"sq ");
    line.push_field(u32::from(set.sq));
    line.push(b"cq ");
    line.push_field(u32::from(set.cq));
    line.push(b"pages ");
    line.push_field(u32::from(set.pages));
    line.push(b"window ");
    line.push_hex(&(k * WINDOW_STEP).to_be_bytes());
    line.push(b" acts ");
    line.push_last_field(acts);
    write_line(line.bytes(), sink)
}
