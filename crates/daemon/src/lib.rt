//! A node that is served over a wire until it is stopped: each turn receives once, drops a datagram of a peer
//! that isn't allowed, and serves any other as `wire_loop` does. What came of the turns is counted and told.
//!
//! A contract sees the turns one by one, over what the wire and the clock gave, and the counts of these turns.
//! It sees no text: what is told of a turn has no part in how the node is served.
#![tactic(auto)]

mod counts;
mod networks;
mod reports;
mod service;
mod turns;
mod words;

pub use counts::{BadCounts, Counts};
pub use networks::{Network, is_allowed};
pub use reports::Reports;
pub use service::serve_until_stopped;
pub use turns::Turn;
