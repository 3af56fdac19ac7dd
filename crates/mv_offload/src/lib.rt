//! Multi-version objects in the bytes of a space: at most so many objects, and at most so many versions over all of them,
//! each of at most 256 bytes. Objects, and the versions of an object, are numbered from 1, and a version stays for ever.
//!
//! A contract says which versions the bytes of the space hold, object by object, and that each call does to them what the
//! operation of that name does (`specs/Versions.antt`). How they lie in the pages shows in no public clause. Each access
//! reads or writes one piece within one page, and no call takes memory. The laws of `laws.rt` say what a list of
//! operations leaves.
//!
//! No node offers these objects yet: the configuration has no such offload, and `offload_host` doesn't call this crate.
//!
//! The first page has two counts and a head for each object, and each later page up to 15 records:
//!
//! ```text
//! objects: 2 | versions over all: 2 | heads of the objects, 4 bytes each
//! head:    last record: 2 | number of versions: 2
//! record:  record before: 2 | length: 2 | bytes: up to 256, and 13 bytes that are never used
//!
//! object 1 -> record 4 -> record 2 -> record 1 -> (end)
//! object 2 -> record 3 -> (end)
//! object 3 -> (end)
//! ```
//!
//! Records are numbered from 1 in the order in which they were appended, and 0 is no record. So a record leads only to
//! those of lower numbers, and an append writes the next one and leaves those before it. That a read of an old version
//! walks back along the links can be seen in the code, and no clause says it.
#![tactic(auto)]

mod laws;
mod layout;
mod mv;

pub use laws::{reads_give_what_was_appended, versions_stay};
pub use layout::VERSION_BYTES;
pub use mv::Mv;
