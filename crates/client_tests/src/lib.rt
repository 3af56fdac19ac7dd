//! Tests of the client and its parts: that calls succeed where memory is ample, and worked rows of calls. How a call is cut
//! and put together shows in what a client sends and hands out.
#![tactic(auto)]

#[cfg(test)]
mod client;
#[cfg(test)]
mod flight;
#[cfg(test)]
mod order;
