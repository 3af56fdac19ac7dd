//! The memory node: a machine of moments and bytes, with no I/O.
//!
//! A contract sees a `Node` as the keeping node of `flat_model`, which is a flat state and its latest records, and as
//! the latest moment that it was given and its translation cache. `Node::step` is one step of the keeping node, and so
//! is `Node::handle`, which counts nothing: it reads a frame where it lies, gives a recorded reply again, tells that
//! its records are full, or executes the request, and spells the reply at the start of the buffer. A read's bytes go
//! from their page straight to their place in the reply, and a write's from the frame straight into the page. After
//! `create` no call answers want of memory, and the pool is ready after each; a new entry of the translation cache
//! takes memory where there is some.
//!
//! `Keeper` is that protocol over any `Machine`, and `Memory` is the machine of a node: a page store and the host of its
//! objects, seen as the flat state that they mean together. Each object is read off the bytes of its offload's space. A
//! request of an object is a call on that space, and its answer goes straight to its place in the reply; a request of a
//! process leaves the offloads' pages, and so the objects. A contract sees the translation cache too, whose latest entry
//! is that of the page that was accessed, or the page has none there.
//!
//! That nothing is copied on its way can be seen in the code, and no clause says it.
#![tactic(auto)]

mod keeper;
mod machine;
mod memory;
mod node;
mod offloads;
mod outcome;
mod pages;
mod placed;

pub use node::Node;
pub use outcome::Outcome;
