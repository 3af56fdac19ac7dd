//! The command `check`: it reads a transcript back, and writes the verdict on its history.
//!
//! A contract sees of source and sink what is left and what was written, and which calls failed. It
//! cites `command_text`, whose `specs/TextEnds.antt` says how the command ends, and whose
//! `specs/Headline.antt` what success means. The history is judged by `history_check`, which uses no
//! part of the node.
#![tactic(auto)]

mod command;
mod judge;

pub use command::serve_check;
