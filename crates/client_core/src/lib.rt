//! A client: it takes calls, sends their parts, hears the replies, and hands each call back with
//! its answer.
//!
//! A contract sees a `Client` as its `ClientState`, the machine that the account of a schedule has
//! for each client, and each call as a step of that machine: `issue` judges a call and takes it,
//! `poll` does the one thing that is due at a moment, `hear` takes a reply, and `done` hands out a
//! call that has ended. `IsValid` says what holds of the state at every moment. Only `create` and
//! `create_from` take memory. Times are in ticks.
//!
//! A poll writes the frame that it sends straight into the caller's buffer, and the bytes of a
//! reply go straight into the buffer of the call. Where frames go, and when the calls of a client
//! are made, is left to others.
#![tactic(auto)]

mod answers;
mod calls;
mod client;
mod ended;
mod faults;
mod frames;
mod ids;
mod row;
mod rows;

pub use answers::{Heard, Poll};
pub use cl_types::frame::IssueFault;
pub use client::Client;
pub use ids::LAST_FIRST_ID;
