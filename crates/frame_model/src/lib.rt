//! The bytes of frames: the one spelling of each value, the first fault of bytes that spell none, and the laws of both.
#![tactic(auto)]

pub mod frame_laws;
