//! Room for one line of text, made piece by piece without memory of its own. For the layer above: each push adds
//! exactly the text that its definition gives the value, and requires that it fits; and a line is written whole, or a
//! front of it and the sink's count of faults rose.
#![tactic(auto)]

ghost use Rattle.std.specs.Prelude.{◌≡◌, ◌+◌, ◌*◌, ◌^◌, ◌<◌, ◌≤◌, All, [], ◌++◌, List, ℕ, length, decimal};
ghost use Rattle.hex.specs.Hex.{encode_lower};
ghost use Rattle.mig_base.specs.Stream.{Writes};
ghost use Rattle.nvm_model.specs.Text.{field, last_field};

use arrayvec::ArrayVec;
use itoa::Buffer;
use mig_base::{Failed, Sink, send};
use std::marker::Model;

/// Room for one line of a text, 192 bytes: the longest has fewer. Contracts see the bytes.
#[derive(Drop)]
pub struct LineBuf {
    bytes: ArrayVec<u8, 192>,
}

impl Model for LineBuf {
    ghost Value = { List ℕ };

    ghost view = { λ line. line.bytes.items };
}

impl LineBuf {
    /// An empty line.
    pub fn new() -> LineBuf
        ensures { result ≡ [] }
    {
        LineBuf {
            bytes: ArrayVec::new(),
        }
    }

    /// The bytes of the line.
    pub fn bytes(&self) -> &[u8]
        ensures value { result.now ≡ self.now }
        ensures short { length result.now ≤ 192 }
    {
        self.bytes.as_slice()
    }

    /// The line becomes empty.
    pub fn clear(&mut self)
        ensures { self.new ≡ [] }
    {
        self.bytes.clear();
    }

    /// Bytes as they are.
    pub fn push(&mut self, piece: &[u8])
        requires { length self.old + length piece.now ≤ 192 }
        ensures { self.new ≡ self.old ++ piece.now }
    {
        self.bytes.try_extend_from_slice(piece).unwrap();
    }

    /// A number in decimal.
    pub fn push_number(&mut self, n: u32)
        requires { length self.old + 10 ≤ 192 }
        ensures text { self.new ≡ self.old ++ decimal n }
        ensures short { length self.new ≤ length self.old + 10 }
    {
        self.push(Buffer::new().format(n).as_bytes());
    }

    /// A number of 64 bits in decimal.
    pub fn push_number64(&mut self, n: u64)
        requires { length self.old + 20 ≤ 192 }
        ensures text { self.new ≡ self.old ++ decimal n }
        ensures short { length self.new ≤ length self.old + 20 }
    {
        self.push(Buffer::new().format(n).as_bytes());
    }

    /// A number, and the space between it and what comes next.
    pub fn push_field(&mut self, n: u32)
        requires { length self.old + 11 ≤ 192 }
        ensures text { self.new ≡ self.old ++ field n }
        ensures short { length self.new ≤ length self.old + 11 }
    {
        self.push_number(n);
        self.push(b" ");
    }

    /// A number, and the line feed.
    pub fn push_last_field(&mut self, n: u32)
        requires { length self.old + 11 ≤ 192 }
        ensures text { self.new ≡ self.old ++ last_field n }
        ensures short { length self.new ≤ length self.old + 11 }
    {
        self.push_number(n);
        self.push(b"\n");
    }

    /// Bytes in lower-case hexadecimal digits, at most 64 of them.
    pub fn push_hex(&mut self, bytes: &[u8])
        requires few { length bytes.now ≤ 64 }
        requires room { length self.old + 2 * length bytes.now ≤ 192 }
        ensures text { self.new ≡ self.old ++ encode_lower bytes.now }
        ensures long { length self.new ≡ length self.old + 2 * length bytes.now }
        ensures form { All (λ byte. byte < 2 ^ 8) bytes.now }
    {
        let mut digits = [0u8; 128];
        let text = &mut digits[..2 * bytes.len()];
        hex::encode_to_slice(bytes, text).unwrap();
        self.push(text);
    }
}

/// Writes a line.
///
/// # Errors
///
/// `Failed` only where the sink's count of faults rose. A front of the line was written then.
pub fn write_line<K: Sink>(line: &[u8], sink: &mut K) -> Result<(), Failed>
    ensures { Writes line.now (K.bytes sink.old) (K.bytes sink.new) (K.faults sink.old) (K.faults sink.new) result }
{
    send(sink, line)
}

/// Writes the last line of a text, and flushes the sink.
///
/// # Errors
///
/// As those of `write_line`; the whole line may have been written then, too.
pub fn write_last_line<K: Sink>(line: &[u8], sink: &mut K) -> Result<(), Failed>
    ensures { Writes line.now (K.bytes sink.old) (K.bytes sink.new) (K.faults sink.old) (K.faults sink.new) result }
{
    write_line(line, sink)?;
    sink.flush()
}

#[cfg(test)]
mod tests;
