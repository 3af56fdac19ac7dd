//! The replies that a node keeps, so that a changing request is executed once however often it is sent.
//!
//! A contract sees a `Retry` as its capacity and its records, oldest first. A record is a reply, the name of its
//! request and the moment at which it was noted; a name is a client, a kind and the id of the first sending. Each call
//! that changes the records says what they are afterwards, and that they are valid again: they are no more than the
//! capacity, their moments never fall, and no two have one name. How the records lie and are found shows in no clause.
//!
//! Which replies are noted, and that a kept reply is given again, is left to the node. Only `Retry::create` takes
//! memory. That `look` walks one chain of names, and that `room`, `note` and `retained` take no longer the more records
//! there are, can be seen in the code, and no clause says it.
//!
//! A known limit: the chain of a name comes of a hash that anyone can compute. Of 65,536 records of one kind the
//! longest chain has 2 where one client's ids are 1, 2, 3 and so on, 5 where those of 64 clients are, and all 65,536
//! where a client chooses its ids for that, so that each `look` walks through all of them. Tests count all three.
#![tactic(auto)]

mod chain;
mod noted;
mod retry;

pub use noted::Noted;
pub use retry::{Retry, Young};
