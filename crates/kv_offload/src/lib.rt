//! A key-value store in the bytes of a space: at most so many keys of 1 to 32 bytes, with values of at most 256.
//!
//! A contract says which pairs the bytes of the space hold, in the order of the keys, and that each call does to them
//! what the object's operation of that name does. How they lie in the pages shows in no clause. Each access reads or
//! writes one piece within one page, and no call takes memory.
//!
//! The first page has the count and the heads of the chains, and each later page up to 13 slots:
//!
//! ```text
//! links of heads 0 to 1024, two bytes each | count: 2
//! slot:  link: 2 | length of the key: 1 | length of the value: 2 | key: up to 32 | value: up to 256
//!
//! chains   0 (free)       -> slot 2 -> slot 5 -> (end)
//!          1 + hash % ..  -> slot 4 -> slot 1 -> (end)     one chain for each hash of a key
//! ```
//!
//! That a call walks one chain only can be seen in the code, and no clause says it.
#![tactic(auto)]

mod kv;
mod layout;

pub use kv::Kv;
