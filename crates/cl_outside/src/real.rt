//! The real things: what the system reads, writes, sends, receives and measures. They tell nothing
//! of content, so their contracts speak of counts alone. A count stays at 2^64 - 1.

mod clock;
mod standard;
mod udp;

pub use clock::StdClock;
pub use standard::{StdSink, StdSource};
pub use udp::UdpWire;
