//! A source, a sink, a wire and a clock in memory, for tests. They tell all of their content, and
//! their calls fail exactly where a list of numbers says so.

mod clock;
mod plan;
mod sink;
mod source;
mod wire;

pub use clock::ScriptClock;
pub use sink::MemorySink;
pub use source::MemorySource;
pub use wire::{Datagram, ScriptWire};
