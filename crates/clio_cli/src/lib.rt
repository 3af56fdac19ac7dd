//! The commands of the program behind one call: it reads the words, serves the command that they ask
//! for, and answers the number of a status.
//!
//! A contract sees words as the list of their bytes; of source and sink what is left and what was
//! written; of wire and clock what is to come, what was sent, the last bind, and what the clock is to
//! answer; and which calls failed. `specs/Run.antt` says how a command ends, and `specs/Succeeds.antt`
//! what is left of one that succeeded; `specs/Runs.antt` has all that is promised of `run`.
//!
//! `replay`, `check` and `storm` are crates of their own, and so are `node` and `client` but for what
//! `script` and `loops` add: the reading of a client's script, and the statuses. What the commands that
//! write a text have in common is in `command_text`.
#![tactic(auto)]

mod loops;
mod script;
mod top;
mod words;

pub use command_text::Left;
pub use top::run;
pub use words::Words;
