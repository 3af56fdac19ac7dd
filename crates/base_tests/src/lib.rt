//! Tests of the base and of the link: values from outside, that calls succeed where memory is ample, and what the real
//! source, sink, wire and clock do.
#![tactic(auto)]

#[cfg(test)]
mod link;
#[cfg(test)]
mod machine;
#[cfg(test)]
mod outside;
#[cfg(test)]
mod types;
