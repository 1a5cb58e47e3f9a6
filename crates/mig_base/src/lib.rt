//! Lanes, spans, and the two streams of the outside: a source of bytes and a sink for them, which tell what they
//! hold where it is in memory, and whose faults are counted, so that a caller is told a fault only where a count rose.
//! Both come in memory, where they fail at the calls that they were told, and over std's readers and writers.
#![tactic(auto)]

mod bytes_sink;
mod bytes_source;
mod fault;
mod gate;
mod lane;
mod listed;
mod read_source;
mod sink;
mod source;
mod span;
mod streams;
mod write_sink;

pub use bytes_sink::BytesSink;
pub use bytes_source::BytesSource;
pub use fault::{Failed, OutOfMemory};
pub use gate::Gate;
pub use lane::LaneNo;
pub use read_source::ReadSource;
pub use sink::Sink;
pub use source::Source;
pub use span::Span;
pub use streams::{CollectRefusal, collect, send};
pub use write_sink::WriteSink;
