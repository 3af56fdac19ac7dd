//! Tests of the parts of the node: that calls succeed where memory is ample, worked steps, and what no clause says.
#![tactic(auto)]

#[cfg(test)]
mod arena;
#[cfg(test)]
mod atomics;
#[cfg(test)]
mod buckets;
#[cfg(test)]
mod cache;
#[cfg(test)]
mod exit;
#[cfg(test)]
mod host;
#[cfg(test)]
mod kv;
#[cfg(test)]
mod lists;
#[cfg(test)]
mod pool;
#[cfg(test)]
mod protect;
#[cfg(test)]
mod ranges;
#[cfg(test)]
mod retry;
#[cfg(test)]
mod rows;
#[cfg(test)]
mod store;
#[cfg(test)]
mod versions;
