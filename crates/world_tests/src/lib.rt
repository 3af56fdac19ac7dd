//! A test of a simulated world: it opens, and its events come to their ends, where memory is ample.
#![tactic(auto)]

#[cfg(test)]
mod simulated;
