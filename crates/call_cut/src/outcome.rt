//! What came of a part, its bytes aside.

use cl_types::numbers::Addr;
use cl_types::reply::Refusal;

/// What came of a part. The bytes of a reply stand in the call's buffer.
#[derive(Clone, Copy, Debug, PartialEq, Eq)]
pub enum PartOutcome {
    /// Nothing yet.
    Waiting,
    /// It was refused.
    Refused(Refusal),
    /// A Free or a Write was done.
    Nothing,
    /// An Alloc was done: the first address of the range.
    At(Addr),
    /// An Atomic was done: the old word.
    Word(u64),
    /// A Read or an Offload was done: how many bytes it put into the call's buffer.
    Got(u32),
    /// It was given up, at the moment `now`; both moments are in ticks.
    GivenUp { first_sent: u64, now: u64 },
}
