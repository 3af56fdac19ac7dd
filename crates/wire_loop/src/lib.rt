//! The loop that serves a node over a wire, the loop that drives a client over one, and what a wire
//! and a clock give to both. The loops decide nothing: they move bytes, take moments, count turns,
//! and the second writes a line for each call.
//!
//! A contract sees a run as the turns of the definitions in `Serving` or in `Driving`, over what the
//! wire and the clock gave. That a node with a bounded reply cache serves as one with an unbounded
//! one, while each frame of a cached reply comes in time, is a law, in `laws`.
#![tactic(auto)]

mod driving;
pub mod laws;
mod serving;

pub use driving::{DriveEnd, drive};
pub use serving::{ServeEnd, TurnEnd, serve, serve_datagram};
