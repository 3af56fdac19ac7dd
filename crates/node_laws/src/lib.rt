//! Laws of a node and of the flat machine alone, whoever sends to it, each the contract of a function that does nothing.
#![tactic(auto)]

pub mod laws;
