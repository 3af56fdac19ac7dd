//! `Counts`: what came of the turns, in numbers.

ghost use Rattle.std.specs.Prelude.{◌≡◌};
ghost use Rattle.cl_outside.specs.Counts.{one_more};
ghost use Rattle.daemon.specs.Counts.{counted, no_counts, with_failure, with_fault, with_how, with_outcome, with_served};

use crate::turns::Turn;
use cl_types::frame::{BadFrame, How};
use node_core::Outcome;
use wire_loop::TurnEnd;

/// How many datagrams spelled no request, by their fault. A count stays at 2^64 - 1.
#[derive(Clone, Copy, Debug, PartialEq, Eq)]
pub struct BadCounts {
    pub short: u64,
    pub magic: u64,
    pub version: u64,
    pub kind: u64,
    pub long: u64,
    pub field: u64,
}

/// How many turns there were of each end. A count stays at 2^64 - 1.
#[derive(Clone, Copy, Debug, PartialEq, Eq)]
pub struct Counts {
    /// Datagrams that the node was given.
    pub frames: u64,
    /// Replies to a changing request that was executed.
    pub executed: u64,
    /// Replies that were given again.
    pub repeated: u64,
    /// Replies to a reading request.
    pub looked: u64,
    /// Replies of these three that tell a refusal.
    pub refused: u64,
    /// Changing requests that were not answered, since all records were young.
    pub busy: u64,
    pub bad: BadCounts,
    /// Replies whose send failed.
    pub unsent: u64,
    /// Datagrams of peers that aren't allowed.
    pub dropped: u64,
    /// Receives that failed.
    pub failed: u64,
    /// Receives that failed since the last one that did not.
    pub failed_in_a_row: u64,
}

// One more.
fn more(count: u64) -> u64
    ensures { result ≡ one_more count }
{
    count.saturating_add(1)
}

impl BadCounts {
    // With one more of this fault.
    fn with(self, fault: BadFrame) -> BadCounts
        ensures { result ≡ with_fault fault self }
    {
        let mut counts = self;
        match fault {
            BadFrame::Short { have: _, need: _ } => counts.short = more(self.short),
            BadFrame::Magic => counts.magic = more(self.magic),
            BadFrame::Version(_number) => counts.version = more(self.version),
            BadFrame::Kind(_number) => counts.kind = more(self.kind),
            BadFrame::Long { have: _, need: _ } => counts.long = more(self.long),
            BadFrame::Field(_name) => counts.field = more(self.field),
        }
        counts
    }
}

impl Counts {
    /// The counts of no turn.
    pub fn none() -> Counts
        ensures { result ≡ no_counts }
    {
        Counts {
            frames: 0,
            executed: 0,
            repeated: 0,
            looked: 0,
            refused: 0,
            busy: 0,
            bad: BadCounts {
                short: 0,
                magic: 0,
                version: 0,
                kind: 0,
                long: 0,
                field: 0,
            },
            unsent: 0,
            dropped: 0,
            failed: 0,
            failed_in_a_row: 0,
        }
    }

    // With one more reply that came so.
    fn with_how(self, how: How) -> Counts
        ensures { result ≡ with_how how self }
    {
        let mut counts = self;
        match how {
            How::Executed => counts.executed = more(self.executed),
            How::Repeated => counts.repeated = more(self.repeated),
            How::Looked => counts.looked = more(self.looked),
        }
        counts
    }

    // With one more datagram that the node was given, of which this came.
    fn with_outcome(self, outcome: Outcome) -> Counts
        ensures { result ≡ with_outcome outcome self }
    {
        let mut counts = self;
        counts.frames = more(self.frames);
        match outcome {
            Outcome::Replied {
                len: _,
                how,
                status,
            } => {
                if status != 0 {
                    counts.refused = more(self.refused);
                }
                counts.with_how(how)
            }
            Outcome::Busy { oldest: _, now: _ } => {
                counts.busy = more(self.busy);
                counts
            }
            Outcome::Bad(fault) => {
                counts.bad = self.bad.with(fault);
                counts
            }
        }
    }

    // With one more receive that failed.
    fn with_failure(self) -> Counts
        ensures { result ≡ with_failure self }
    {
        let mut counts = self;
        counts.failed = more(self.failed);
        counts.failed_in_a_row = more(self.failed_in_a_row);
        counts
    }

    // With one more datagram that was served so.
    fn with_served(self, end: TurnEnd) -> Counts
        ensures { result ≡ with_served end self }
    {
        let mut counts = self;
        counts.failed_in_a_row = 0;
        match end {
            TurnEnd::Served(outcome) => counts.with_outcome(outcome),
            TurnEnd::Unsent(outcome) => {
                counts.unsent = more(self.unsent);
                counts.with_outcome(outcome)
            }
            TurnEnd::Idle => counts,
            TurnEnd::Failed => self.with_failure(),
        }
    }

    /// These counts with one more turn.
    pub fn with(self, turn: Turn) -> Counts
        ensures { result ≡ counted turn self }
    {
        let mut counts = self;
        counts.failed_in_a_row = 0;
        match turn {
            Turn::Dropped(_) => {
                counts.dropped = more(self.dropped);
                counts
            }
            Turn::Served(_, end) => self.with_served(end),
            Turn::Idle => counts,
            Turn::Failed => self.with_failure(),
        }
    }
}
