//! The account of a schedule: its event lines, frames and history, the clients in it, what each event brings, and what a
//! history is to be.
#![tactic(auto)]

pub mod history_laws;
