//! The command `replay`: it reads a schedule, makes its events happen in a world, and writes its
//! transcript.
//!
//! A contract sees of source and sink what is left and what was written, and which calls failed. It
//! cites `command_text`, whose `specs/TextEnds.antt` says how the command ends, and whose
//! `specs/Headline.antt` what it leaves.
//!
//! A transcript is written as it is made, a line behind an event, over `world::World`. Lines are
//! held until there are 65,536 bytes of them; no clause says how many are held, or how much memory
//! that takes. Where memory runs out, all finished lines are written before the run ends.
#![tactic(auto)]

mod command;
mod gather;
mod judge;
mod replay;

pub use command::serve_replay;
