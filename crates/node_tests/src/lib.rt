//! Tests of the node: that calls succeed where memory is ample, worked steps over frames, and what no clause says.
#![tactic(auto)]

#[cfg(test)]
mod node;
