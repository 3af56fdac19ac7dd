//! The command `storm`: it replays a generated schedule without its lines, checks its history, and
//! writes what it came to.
//!
//! A contract sees what was written, which writes failed, and the world that is left. The history is a
//! run by law; yet it is judged by `history_check`, which uses no part of the node, before anything is
//! written.
#![tactic(auto)]

mod command;

pub use command::serve_storm;
