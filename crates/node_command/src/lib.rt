//! The command `node`: it opens a node, binds a port, serves, and writes a line for each of these.
//!
//! A contract sees the port that was asked for and bound, what came and was sent, what the clock
//! answered, and the text. `specs/Lines.antt` has the lines, and `specs/Ends.antt` says how the
//! command ends.
#![tactic(auto)]

mod command;
mod lines;
mod node_end;

pub use command::serve_node;
pub use lines::refusal_text;
pub use node_end::NodeEnd;
