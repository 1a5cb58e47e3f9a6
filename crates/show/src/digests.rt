//! The digests of the product's own Identify data.

ghost use Rattle.std.specs.Prelude.{◌≡◌, ◌≤◌, ◌++◌, codes, length};
ghost use Rattle.mig_base.specs.Stream.{Writes};
ghost use Rattle.nvm_identify.specs.Controller.{controller_bytes, own};
ghost use Rattle.nvm_identify.specs.Namespace.{namespace_bytes, own_of};
ghost use Rattle.show.specs.ShowText.{digest_line, digests_text};

use line_buf::{LineBuf, write_line};
use mig_base::{Failed, Sink};
use nvm_identify::{own_controller, own_namespace};
use sha2::{Digest, Sha256};

pub(crate) fn write_digests<K: Sink>(blocks: u32, sink: &mut K) -> Result<(), Failed>
    ensures { Writes (digests_text blocks) (K.bytes sink.old) (K.bytes sink.new) (K.faults sink.old) (K.faults sink.new) result }
{
    write_controller(sink)?;
    write_namespace(blocks, sink)
}

fn write_controller<K: Sink>(sink: &mut K) -> Result<(), Failed>
    ensures { Writes (digest_line (codes "controller") (controller_bytes own)) (K.bytes sink.old) (K.bytes sink.new) (K.faults sink.old) (K.faults sink.new) result }
{
    let mut bytes = [0; 4096];
    own_controller().to_bytes(&mut bytes);
    write_digest(b"controller", &bytes, sink)
}

fn write_namespace<K: Sink>(blocks: u32, sink: &mut K) -> Result<(), Failed>
    ensures { Writes (digest_line (codes "namespace") (namespace_bytes (own_of blocks))) (K.bytes sink.old) (K.bytes sink.new) (K.faults sink.old) (K.faults sink.new) result }
{
    let mut bytes = [0; 4096];
    own_namespace(blocks).to_bytes(&mut bytes);
    write_digest(b"namespace", &bytes, sink)
}

/// The line of the digest of Identify data of that name.
fn write_digest<K: Sink>(name: &[u8], bytes: &[u8], sink: &mut K) -> Result<(), Failed>
    requires { length name.now ≤ 16 }
    ensures { Writes (digest_line name.now bytes.now) (K.bytes sink.old) (K.bytes sink.new) (K.faults sink.old) (K.faults sink.new) result }
{
    let mut line = LineBuf::new();
    line.push(b"identify ");
    line.push(name);
    line.push(b" ");
    line.push_hex(&Sha256::digest(bytes));
    line.push(b"\n");
    write_line(line.bytes(), sink)
}
