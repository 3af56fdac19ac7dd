//! Data frames in the bytes of a space: rows of 1 to 8 numbers of 8 bytes each, and at most so many rows. Rows are added at
//! the end, and their places are counted from 0.
//!
//! A contract says which rows the bytes of the space hold, and that each call does to them and answers what the operation
//! of that name does (`specs/Rows.antt`). How they lie in the pages shows in no public clause. Each access reads or writes
//! one piece within one page, and no call takes memory. The laws of `laws.rt` say what selects that go on one after the
//! other give together.
//!
//! No node offers a data frame yet: the configuration has no such offload, and `offload_host` doesn't call this crate.
//!
//! The first page has the number of rows in its first 4 bytes. Each later page has as many whole rows as fit it:
//!
//! ```text
//! 3 columns, 170 rows a page
//! page 0: number of rows: 4
//! page 1: row 0: 24 | row 1: 24 | .. | row 169: 24
//! page 2: row 170: 24 | row 171: 24 | ..
//! ```
//!
//! An append writes its rows before their number, behind all rows that are there. The other calls go through the rows in order,
//! a select from its cursor on, and read the tested number of each; of a hit they read the number that is asked for too, or
//! copy the row. That shows in the code, and no clause says it.
#![tactic(auto)]

mod df;
mod laws;
mod layout;
mod pick;
mod row_test;

pub use df::Df;
pub use laws::{answers_are_the_hits, selects_are_the_hits, selects_go_forward};
pub use row_test::{RowTest, Selected};
