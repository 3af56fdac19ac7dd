//! Checks a history: whether its entries, one after another, are a run of the flat machine.
//!
//! `check` opens the flat machine of a configuration and gives it each entry. It uses no part of the node, so that a
//! history which the node made is judged by the machine alone; both take the hash of a page and the checks of a
//! configuration from `cl_types`.
#![tactic(auto)]

mod history;
pub mod verdict_laws;

pub use history::{CheckFault, Verdict, check};
