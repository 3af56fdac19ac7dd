//! The objects that run at a node, by the numbers of their offloads.
//!
//! A contract sees a `Host` as the list of its offloads. An object lies in the space of its offload: `init` makes the
//! space hold the object as it is at the opening, and `call` takes one step of the object that the space holds, and
//! leaves the space holding the object after it. The step, its answer and its refusals are those of `object_step`, so that
//! a call is the flat machine's Offload, as `laws` says. What stands in `out` behind an answer isn't told.
//!
//! That an offload has a space of its own is left to the caller, who lends it to each call. Only `Host::create` takes
//! memory.
#![tactic(auto)]

mod host;
pub mod laws;
mod operation;
mod store;

pub use host::Host;
