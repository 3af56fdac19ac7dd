//! The ids of sendings.

/// The greatest id that a client's first sending may have: 2^63. A client makes at most 260 sendings for each of 2^32 calls, so
/// that none of its ids is above 2^64 - 1.
pub const LAST_FIRST_ID: u64 = 1 << 63;
