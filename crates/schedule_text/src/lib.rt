//! Reads schedules and scripts from bytes.
//!
//! A contract sees bytes as a list, and what a call tells as what the grammar in `flat_model` gives
//! for them: the schedule or the calls of a script, or the first bad line and what is wrong with it.
//! Where the bytes or their lines are too many, that alone is told, and want of memory may come in
//! place of the rest.
//!
//! `read` reads a schedule, and `read_script` a script. A reader of other texts with the same header or the same words, as
//! of a transcript, takes `Reading` for the header's lines, `call_in_line` for a call, and the modules `numbers`, `parts`
//! and `written` for words.
//!
//! Whether a node opens with the numbers of a schedule is judged by others. That a call goes once
//! over its bytes, and before that once to count the lines, can be seen in the code, and no clause
//! says it.
#![tactic(auto)]

mod arguments;
mod calls;
mod fault;
mod garbage;
mod lines;
pub mod numbers;
pub mod parts;
mod reading;
mod said;
mod schedule;
mod script;
pub mod written;

pub use calls::call_in_line;
pub use fault::{LineFault, ScheduleFault};
pub use lines::{is_passed_over, next_line, too_long};
pub use reading::Reading;
pub use schedule::read;
pub use script::read_script;
