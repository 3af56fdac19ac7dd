//! A cache of the page table's entries, so that a page in use is found with no bucket read.
//!
//! A contract sees a `Cache` as the list of its entries, the latest used first, and the number
//! that it may hold. Each call says what that list is afterwards, and what is then found at each
//! page. Each leaves the cache valid: no page has two entries, and they are no more than there may
//! be.
//! `get`, `note` and `forget` can't fail. A new page that finds no memory isn't noted, and the
//! cache is as it was.
//!
//! `None` says that the cache has no entry, and nothing of the page. That the entries are those of
//! the page table is its caller's to keep. The entries lie in a hashed table and a linked list, of
//! the crate `lru`, so that no call takes longer the more there are, but for pages chosen against
//! its hash. No clause says so, nor that a new page is noted where there is memory.
#![tactic(auto)]

mod cache;

pub use cache::Cache;
