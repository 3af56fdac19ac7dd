//! A part in flight.

use cl_types::reply::Part;

/// A part in flight.
#[derive(Clone, Copy, Debug, PartialEq, Eq)]
pub struct Flown {
    pub part: Part,
    /// The id of its first sending.
    pub orig: u64,
    /// When it was first sent, in ticks.
    pub first: u64,
    /// When it was last sent, in ticks.
    pub last: u64,
}
