//! Lines on their way out.

ghost use Rattle.std.specs.Prelude.{◌≡◌};
ghost use Rattle.mig_base.specs.Stream.{Writes};
ghost use Rattle.nvm_model.specs.Text.{line_text, text_of};

use crate::{Line, LineBuf, print_line};
use line_buf::write_line;
use mig_base::{Failed, Sink};

/// Writes lines, one `send` each, and flushes the sink.
///
/// # Errors
///
/// `Failed` only where the sink's count of faults rose. A front of the lines' text was written then: all of it, where
/// it was the flush that failed.
pub fn write_lines<K: Sink>(lines: &[Line], sink: &mut K) -> Result<(), Failed>
    ensures { Writes (text_of lines.now) (K.bytes sink.old) (K.bytes sink.new)
        (K.faults sink.old) (K.faults sink.new) result }
{
    send_lines(lines, sink)?;
    sink.flush()
}

fn send_lines<K: Sink>(lines: &[Line], sink: &mut K) -> Result<(), Failed>
    ensures { Writes (text_of lines.now) (K.bytes sink.old) (K.bytes sink.new)
        (K.faults sink.old) (K.faults sink.new) result }
{
    let mut text = LineBuf::new();
    for line in lines {
        send_line(line, &mut text, sink)?;
    }
    Ok(())
}

/// Writes one line, in that room.
fn send_line<K: Sink>(line: &Line, text: &mut LineBuf, sink: &mut K) -> Result<(), Failed>
    ensures { Writes (line_text line.now) (K.bytes sink.old) (K.bytes sink.new)
        (K.faults sink.old) (K.faults sink.new) result }
{
    print_line(line, text);
    write_line(text.bytes(), sink)
}
