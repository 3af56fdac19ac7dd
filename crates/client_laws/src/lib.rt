//! Laws of the clients of an account and of the client's machine, each the contract of a function that does nothing.
#![tactic(auto)]

pub mod laws;
