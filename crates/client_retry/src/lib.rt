//! The parts of a client's calls that are in flight: sent, and neither answered nor given up.
//!
//! A contract sees a `Flight` as these parts, in order of call and part, each with the id of its
//! first sending and the moments of its first and its last, and as the latest moment at which a
//! part was sent or sent again. `due` tells what the rules of time ask for: a part is given up at
//! age `SPAN`, and sent again `TIMEOUT` ticks after its last sending while its age is at most
//! `LAST_RESEND`. Only `create` takes memory.
//!
//! How the parts are kept shows in no clause: each stands at one of 64 places, in a slab, and the
//! places stand in a list in order of call and part, and in a chain by the id of the first sending,
//! so that a reply walks along one chain to its part. The frames, the ids and what a reply says are
//! left to others.
#![tactic(auto)]

mod due;
mod flight;
mod flown;
mod slots;
mod walk;

pub use due::Due;
pub use flight::Flight;
pub use flown::Flown;
