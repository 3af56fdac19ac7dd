//! Tests of the program's commands: what each writes and leaves with success, and each other end with its text and status.
#![tactic(auto)]

#[cfg(test)]
mod check;
#[cfg(test)]
mod ends;
#[cfg(test)]
mod failures;
#[cfg(test)]
mod network;
#[cfg(test)]
mod replay;
#[cfg(test)]
mod runs;
#[cfg(test)]
mod storm;
