//! Ranges of pages in a page table: mapping one at the least start that fits, unmapping it, and
//! giving its pages another permission. And `RangeLists`: the ranges of each space, in lists.
//!
//! A range is one or more neighbouring pages of a space. The entry of its first page has the number
//! of its pages as its span, and the entries of its other pages have the span 0. The calls on a
//! table need that each mapped page lies in exactly one range and each page of a range is mapped,
//! and keep it. `unmap_range` gives the frames of the pages back to the pool, so it also needs that
//! each frame that the table names was taken from the pool and is named once, and keeps this too.
//! The caller forgets the pages in its cache, and refills the pool.
//!
//! A range fits at a start where its pages are pages of the space, none is mapped, and no bucket
//! would come to hold more than four pages, the range's own among them. The search looks first for
//! the least start whose pages can each join the table by themselves. It looks at the first page of
//! a range and then at the last ones: no range that reaches a page which can't join fits, so the
//! search goes on behind that page, or behind the range that begins there, and looks at each free
//! page once. From the start that it finds it maps page after page, so that the table counts them.
//! Where the next page can't join, two pages of the range have one bucket, and the first page leaves.
//! In a table of many buckets this is rare, so a search that fails maps nothing.
//! No clause says how long a search takes.
//!
//! A contract sees a `RangeLists` as the list of the ranges of each space, in the order in which
//! they were added, each by its start and its number of pages; and as how many there are, and how
//! many there is room for. Whether they are the ranges of a table is the caller's to keep. That
//! `drop_range` walks the list of its space, and `add` and `first` walk none, can be seen in the
//! code, and no clause says it. Only `RangeLists::create` takes memory.
#![tactic(auto)]

mod lists;
mod map;
mod protect;
mod unmap;

pub use lists::RangeLists;
pub use map::map_range;
pub use protect::protect_range;
pub use unmap::{span, unmap_range};
