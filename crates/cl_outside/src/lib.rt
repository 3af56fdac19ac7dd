//! The outside as the program sees it: a source and a sink of bytes, a wire of datagrams, and a
//! clock, each a trait; the same in memory, for tests; and the real things. Besides, the two loops
//! that every command needs: reading an input to its end, and writing all bytes.
//!
//! A contract sees what a source still has, what a sink was given, what a wire still gives, what
//! it sent and its last bind, and what a clock still answers, each where the object tells it. It
//! also sees of each object how many of its calls have failed, and whether the last one did.
//!
//! The implementations in memory tell all of it, and fail exactly at the calls that they are told
//! to fail at. The real things tell nothing of content: what the system does with bytes is trusted
//! and not proved.
#![tactic(auto)]

mod clock;
mod faults;
mod front;
mod loops;
mod memory;
mod real;
mod sink;
mod source;
mod wire;

pub use clock::Clock;
pub use faults::Faults;
pub use loops::{Stop, read_input, write_all};
pub use memory::{Datagram, MemorySink, MemorySource, ScriptClock, ScriptWire};
pub use real::{StdClock, StdSink, StdSource, UdpWire};
pub use sink::{Sink, Wrote};
pub use source::{Read, Source};
pub use wire::{Bound, Peer, Recv, Sent, Wire};
