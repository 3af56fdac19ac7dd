//! The command that drives a client through a script, below the top call: it makes the client,
//! binds any free port, drives, and writes a last line where the client stalled or the wire failed.
//!
//! A contract says, by how the command ended, what was bound, received, sent and written, and which
//! object's last call failed. The turns are those of `wire_loop`.
#![tactic(auto)]

mod command;
mod ends;
mod lines;

pub use command::drive_client;
pub use ends::ClientEnd;
