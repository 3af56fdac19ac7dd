//! Tests of frames and texts: vectors, lines, entries, histories and bad lines from outside.
#![tactic(auto)]

#[cfg(test)]
mod frames;
#[cfg(test)]
mod histories;
#[cfg(test)]
mod schedules;
#[cfg(test)]
mod transcripts;
