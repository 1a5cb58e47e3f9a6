//! What a script asks for, and the Identify data that its guest sees, as text. For the layer above: `show` writes
//! exactly the text that a script has, or a front of it and the sink's count of faults rose.
#![tactic(auto)]

ghost use Rattle.mig_base.specs.Stream.{Writes};
ghost use Rattle.nvm_model.specs.ScriptText.{IsHead, IsScript};
ghost use Rattle.show.specs.ShowText.{controller_text, namespace_line, namespace_text, shelves_line, show_text};

mod digests;
mod lanes;

use digests::write_digests;
use lanes::write_lanes;
use line_buf::{LineBuf, write_line};
use mig_base::{Failed, Sink};
use nvm_model::{Head, Script};

/// Writes what a script asks for, a line per `send`, and flushes the sink.
///
/// # Errors
///
/// `Failed` only where the sink's count of faults rose. A front of the text was written then.
pub fn show<K: Sink>(s: &Script, sink: &mut K) -> Result<(), Failed>
    requires { IsScript s.now }
    ensures { Writes (show_text s.now) (K.bytes sink.old) (K.bytes sink.new) (K.faults sink.old) (K.faults sink.new) result }
{
    write_parts(s, sink)?;
    sink.flush()
}

/// The controller, the namespace, the lanes, and the digests.
fn write_parts<K: Sink>(s: &Script, sink: &mut K) -> Result<(), Failed>
    requires { IsScript s.now }
    ensures { Writes (show_text s.now) (K.bytes sink.old) (K.bytes sink.new) (K.faults sink.old) (K.faults sink.new) result }
{
    write_controller(sink)?;
    write_namespace(&s.head, sink)?;
    write_lanes(s, sink)?;
    write_digests(s.head.blocks, sink)
}

fn write_controller<K: Sink>(sink: &mut K) -> Result<(), Failed>
    ensures { Writes controller_text (K.bytes sink.old) (K.bytes sink.new) (K.faults sink.old) (K.faults sink.new) result }
{
    write_line(b"controller nvmigrate virtual controller\n", sink)?;
    write_line(b"mdts 3\n", sink)
}

fn write_namespace<K: Sink>(head: &Head, sink: &mut K) -> Result<(), Failed>
    requires { IsHead head.now }
    ensures { Writes (namespace_text head.now) (K.bytes sink.old) (K.bytes sink.new) (K.faults sink.old) (K.faults sink.new) result }
{
    write_blocks(head.blocks, sink)?;
    write_shelves(head, sink)
}

fn write_blocks<K: Sink>(blocks: u32, sink: &mut K) -> Result<(), Failed>
    ensures { Writes (namespace_line blocks) (K.bytes sink.old) (K.bytes sink.new) (K.faults sink.old) (K.faults sink.new) result }
{
    let mut line = LineBuf::new();
    line.push(b"namespace 1 blocks ");
    line.push_field(blocks);
    line.push(b"bytes 512\n");
    write_line(line.bytes(), sink)
}

fn write_shelves<K: Sink>(head: &Head, sink: &mut K) -> Result<(), Failed>
    requires { IsHead head.now }
    ensures { Writes (shelves_line head.now) (K.bytes sink.old) (K.bytes sink.new) (K.faults sink.old) (K.faults sink.new) result }
{
    let mut line = LineBuf::new();
    line.push(b"shelves ");
    line.push_field(head.blocks / head.shelf);
    line.push(b"of ");
    line.push_last_field(head.shelf);
    write_line(line.bytes(), sink)
}
