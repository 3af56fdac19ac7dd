//! A simulated world: a node, clients, and a link that loses, repeats and reorders frames.
//!
//! A contract sees a `World` as the machine over its node, clients and link (`Worlds.antt`), what its
//! events came to, the line of the latest, and whether it is spent: `Running`. Each event is one step
//! of that machine, and the laws say that the machine follows the account of a schedule. Reading a
//! schedule and printing lines is left to others.
//!
//! Inside, `Whole` holds the parts. What node and clients say on the way is a value of its own
//! (`Said`, `Listened`, `Turned`), and `Saying.antt` has the step that each stands for.
#![tactic(auto)]

mod ask;
mod copies;
mod create;
mod garbage;
mod happen;
mod history;
mod issue;
pub mod laws;
mod listen;
mod note;
mod show;
mod steps;
mod summary;
mod turn;
mod whole;
mod world;

pub use cl_types::items::NoMemory;
pub use cl_types::open_fault::OpenFault;
pub use note::Note;
pub use world::World;
