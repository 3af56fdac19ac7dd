//! Doubly linked lists of node numbers, in memory that is taken once.
//!
//! Nodes have the numbers from 0, and so have the lists. A node is in one list at most, and there
//! once. Only `Lists::create` takes memory.
//!
//! A contract sees a `Lists` as its number of nodes and its lists, each the list of its nodes'
//! numbers, first to last. How the links are kept shows in no clause. Each call that changes the
//! lists says what they are afterwards, and that they are valid again: all numbers are those of
//! nodes, and no two are equal.
//!
//! What belongs to a node is its caller's to keep, beside the lists, by the node's number. That
//! each call but `create` takes a fixed number of steps can be seen in the code, and no clause says
//! it.
#![tactic(auto)]

mod links;
mod lists;

pub use lists::{Lists, NoMemory};
