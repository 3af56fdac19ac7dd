//! A call as it is written in a schedule or a script, made into a call of its own and issued.
//!
//! A contract sees the call of a line as `call_of` of `cl_types` has it. A buffer above the limit is
//! refused before it is made. Reading a line is left to others.
#![tactic(auto)]

mod copies;
mod issuing;

pub use copies::{call_of, copied, expand, zeros};
pub use issuing::issue;
