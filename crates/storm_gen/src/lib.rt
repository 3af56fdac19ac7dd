//! Generated schedules: a seed and a number of calls give one schedule, draw by draw.
//!
//! A contract sees a generator as the state of `rand_pcg`'s Pcg32, and each function of the order of
//! draws as the events and the generator that its definition in `Generated.antt` gives. `Lines` are
//! the events so far, which number themselves. That the schedule suits a world is a law, in `laws`.
#![tactic(auto)]

mod call;
mod choice;
mod draws;
pub mod laws;
mod limits;
mod lines;
mod node;
mod round;
mod schedule;
mod settling;

pub use choice::Choice;
pub use cl_types::items::NoMemory;
pub use limits::{MOST_CALLS, MOST_EVENTS};
pub use schedule::storm;
