//! How a client's call is cut into parts, and how what comes of the parts makes the call's answer.
//!
//! `parts` and `part` tell the parts of a call; a contract says them by `cut`. A `Gather` takes
//! what comes of each part of one call: a reply, or that the part was given up. A contract sees a
//! `Gather` as the list of these outcomes. The bytes of a reply go straight into the call's buffer,
//! so an outcome has only their number, and `came` reads the list together with the call. No call
//! takes memory.
//!
//! A call is good where it has none of the faults that `call_faults` lists. That a `Gather` is
//! given no other call than its own is its caller's to keep: that is the condition `gathered`, and
//! `take` and `give_up` ensure it again.
#![tactic(auto)]

mod buffer;
mod gather;
mod outcome;
mod pieces;

pub use gather::Gather;
pub use outcome::PartOutcome;
pub use pieces::{part, parts};
