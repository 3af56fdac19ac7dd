//! Laws of the histories and summaries of accounts, each the contract of a function that does nothing.
#![tactic(auto)]

pub mod laws;
