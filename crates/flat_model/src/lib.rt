//! The flat machine, and every definition that node, client, link, texts and laws cite: docs/DEFINITIONS.md lists them
//! in reading order.
//!
//! The machine is flat, zero-filled, permission-checked address spaces, one for each process, and the objects of the
//! offloads. A contract sees a `Flat` as its `FlatState`. `create` opens one, and `check_step` tells whether one step
//! of a history is a step of the machine. How a node keeps its pages, and how a client keeps its calls, is left to their
//! crates.
#![tactic(auto)]

mod buckets;
pub mod check;
pub mod flat;
mod need;
pub mod opening;
mod page;
mod pairs;
mod ranges;
mod replies;
mod room;
mod rows;
pub mod run_laws;
pub mod start_laws;
mod store;
