//! A page table: which pages are mapped, and what is said of each.
//!
//! A contract sees a `Table` as its number of buckets and the list of its entries in the order of
//! the pages, so as a finite map. The bucket of a page is its home, `cl_types::page::home`, and
//! at most four pages of the table have one home. A page is sought in the bucket of its home and in
//! no other. `find` counts this one bucket read; `peek` looks in the same way and counts nothing.
//! Each call that changes the table leaves it valid: the entries in order, four pages a home at
//! most. Only `Table::create` takes memory.
//!
//! That a look-up reads no second bucket can be seen in the code: `Buckets::bucket` hands out one.
//! No clause counts the reads of a call that isn't lent a counter. What the frames of the entries
//! hold, and which pages make up a range, is kept by others.
#![tactic(auto)]

mod buckets;
mod table;

pub use table::Table;
