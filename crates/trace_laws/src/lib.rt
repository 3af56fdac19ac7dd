//! Laws of the account of every schedule that a world cites, each the contract of a function that does nothing.
#![tactic(auto)]

pub mod frame_laws;
pub mod laws;
