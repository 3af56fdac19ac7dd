//! The types that every crate shares, and the few functions and definitions that stand on them alone: numbers with
//! a meaning, calls, requests, replies, frame heads, configurations, schedules, printed lines, and the trait of a
//! space of bytes.
//!
//! A contract sees a struct as the record of its fields and an enum as its variants. A list type, `Bytes` among them,
//! is seen as a list, a `Pid` as its number, a `Steps` as the number of steps taken, and a `MemorySpace` as its bytes.
//! Which frames, answers and lines are right is left to the crates that make them; the rules stand in `flat_model`.
#![tactic(auto)]

pub mod call;
pub mod config;
pub mod frame;
pub mod items;
pub mod limits;
pub mod line;
pub mod numbers;
pub mod open_fault;
pub mod page;
pub mod reply;
pub mod request;
pub mod schedule;
pub mod small_reply;
pub mod space;
pub mod steps;
