//! Which of a client's calls that have not ended may go, and which wait for an earlier one.
//!
//! A call waits for an earlier one where they have a page in common and aren't both Reads, where
//! they use the same offload and an operation is odd, or where one of the two is a Fence: a Fence
//! waits for all calls before it, and all later ones wait for the Fence until it has ended. A
//! contract sees an `Order` as its calls in order of issue, each by its number and its footprint:
//! what its order rests on. Only `create` takes memory.
//!
//! Each call stands in lists: of the groups of 64 pages that its pages meet, of its offload, of the
//! Fences, and of its number. `ready` walks along those of its own call and along that of the
//! Fences, and no further than the calls before its own; `first_ready` asks this of each call in
//! order. How the lists lie shows in no clause, and how far a walk goes can be seen in the code.
//!
//! What the calls do, and when they end, is left to others.
#![tactic(auto)]

mod order;
mod row;
mod wait_lists;
mod walk;

pub use order::Order;
