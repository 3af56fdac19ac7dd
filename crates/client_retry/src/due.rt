//! What the rules of time ask for.

use cl_types::reply::Part;

/// What is due at a moment.
#[derive(Clone, Copy, Debug, PartialEq, Eq)]
pub enum Due {
    /// The part's age is `SPAN` or more; it is the first such part. `first_sent` is in ticks.
    GiveUp {
        part: Part,
        orig: u64,
        first_sent: u64,
    },
    /// No part is to be given up. The part was last sent `TIMEOUT` ticks ago or earlier, and its
    /// age is at most `LAST_RESEND`; it is the first such part.
    Resend {
        part: Part,
        orig: u64,
    },
    /// Neither.
    Nothing,
}
