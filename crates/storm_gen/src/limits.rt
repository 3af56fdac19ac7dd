//! The sizes of a generated schedule.

/// The greatest number of calls that are drawn.
pub const MOST_CALLS: u32 = 100_000;

/// The greatest number of events: four for each of four clients, eight for each call, and 13 for each of 64 closing
/// rounds.
pub const MOST_EVENTS: u32 = 4 * 4 + 8 * MOST_CALLS + 64 * 13;
