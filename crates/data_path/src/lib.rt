//! The pages of a node with their bytes, and the steps of the flat machine on them.
//!
//! A contract sees a `PageStore` through `memory_of`, a flat state over all pages: those that processes mapped, and
//! those of the offloads in spaces of their own. So the flat machine's `read`, `write`, `alloc` and `free` say what a
//! call answers and what it leaves, and so do `protect` and `exit`, which stand in this crate until requests can ask for
//! them. `flat_of` is the flat state of a node with such a memory.
//!
//! A store is whole where its parts fit, as `IsWhole` lists, and ready where its pool is. Each call needs a whole and
//! ready store and leaves one. It keeps the ranges of each process in a list, which names them exactly, so that an Exit
//! finds them without a walk through the table. A call on a page's bytes reads at most one bucket, and none where the
//! cache has the page's entry, and takes at most one page. What is counted is `Table::find`; that an access does not
//! look by `Table::peek`, which counts nothing, can be seen in the code. Only `PageStore::create` answers want of
//! memory: a new entry of the cache takes some, and where there is none the cache stays as it was.
#![tactic(auto)]

mod create;
mod need;
mod part;
mod range;
mod space;
mod store;

pub use create::CACHED_ENTRIES;
pub use need::Need;
pub use space::SpaceOf;
pub use store::{PageStore, offset_of, page_of};
