//! What the commands that read or write a text have in common: the statuses, the outputs that say why an
//! input is refused, the reading of an input, and what a command leaves.
//!
//! `specs/Outputs.antt` says what is to be written for the bytes of an input, and with which status;
//! `specs/TextEnds.antt` how a command ends that writes a text; and `specs/Headline.antt` what every
//! history that is printed keeps, and what such a command leaves that succeeds. The laws say that every
//! schedule that was read has what these promises and a world rest on.
#![tactic(auto)]

mod faults;
mod input;
mod laws;
mod left;
mod opening;
mod output;
mod status;
mod writing;

pub use input::{Halt, Input, take_input};
pub use laws::{headline, schedules_suit_worlds};
pub use left::Left;
pub use opening::open;
pub use output::{Output, bad_node, output_of, refuse, too_many};
pub use status::Status;
pub use writing::say;
