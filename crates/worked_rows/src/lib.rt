//! Worked schedules, frames, commands, histories, loops and operations, from bytes to bytes, proved by evaluation alone.
//! Nothing stands on this crate.
#![tactic(auto)]
