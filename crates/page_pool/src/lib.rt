//! The free pages of a node: which they are, and which of them are ready to be given out.
//!
//! A contract sees a `Pool` as the list of the pages in its ring, that of the clean ones and that
//! of the dirty ones; a page in none of them is taken. The pages are always a partition into these
//! four. The bytes lie in a `PageArena` of the caller's. Those of the pages in the ring and in the
//! clean list are zeros: `refill` needs that and keeps it, and callers write taken pages alone. So
//! the bytes of a page that `take` gives are zeros.
//!
//! A pool is ready where its ring holds a page or no page is free. `take` looks in the ring and
//! nowhere else, so it needs a ready pool, and `refill` leaves one. Only `Pool::create` takes
//! memory. That no other call takes longer the more pages there are can be seen in the code, and
//! no clause says it.
#![tactic(auto)]

mod pool;

pub use pool::Pool;
