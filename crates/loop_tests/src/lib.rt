//! Tests of `wire_loop`: how driving a client ends, what it writes and how many frames it sends, over a wire, a clock and a
//! sink in memory.
#![tactic(auto)]

#[cfg(test)]
mod drive;
