//! A client for programs in C, and for those in any language that calls C.
//!
//! `clients/c/clio.h` declares the exports. C holds a client by its address, and each export is safe
//! code over the `Client` of `client_core`. No export has a condition of its own: what a call of
//! `Client` requires is judged, and answered by a number of `clio.h`.
//!
//! A contract sees the client at an address as its `ClientState`, and says what C is told by it. Three
//! things are trusted and not proved: that C hands in an address that `clio_create` gave and
//! `clio_free` did not take, to one call at a time; that its pointers reach as far as it says; and that
//! the client that an export puts back, which `Box::leak` leaves, is found at its address by the next.
#![tactic(auto)]

mod asked;
mod codes;
mod creating;
mod exports;
mod handle;
mod issuing;
mod loose;
mod turns;
