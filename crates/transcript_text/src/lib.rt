//! Prints the lines of a transcript, one for an event and one for an entry of the history, and the
//! lines of a driven client, one for a call that was not issued and one for a call that ended. Reads
//! the header and the history of a transcript back.
//!
//! A contract sees the printed bytes as a list, and a line's text as the definitions of `texts`
//! have it. After an allocation failure a prefix of the text follows the old bytes.
//!
//! `read_history` reads the header and the history of a transcript back. Its grammar is `specs/HistoryGrammar.antt`. That
//! it goes once over the bytes, and before that once to count the lines, can be seen in the code, and no clause says it.
#![tactic(auto)]

mod called;
mod did;
mod entry;
mod entry_words;
mod history;
mod line;
mod names;
mod numbers;
mod reply_words;
mod request_words;
mod word;

pub use called::{print_answered, print_not_issued};
pub use entry::print_entry;
pub use history::read_history;
pub use line::print_line;
