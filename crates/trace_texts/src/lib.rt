//! The text of a trace, which is what a transcript is, and the law of the schedules that are read from bytes.
#![tactic(auto)]

pub mod laws;
