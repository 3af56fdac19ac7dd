//! What a replay prints: a line for each event, and the entries of the history.

use crate::frame::{BadFrame, How, IssueFault};
use crate::items::{Bytes, Items};
use crate::numbers::{CallNo, ClientNo, Pid};
use crate::reply::{Answer, Part, Reply};
use crate::request::Request;

/// What an event did. Frames are told by their numbers, from 1 in the order in which they were sent.
#[derive(Drop)]
pub enum Did {
    /// The client took the call.
    Issued {
        client: ClientNo,
        call: CallNo,
    },
    /// The client didn't take the call.
    NotIssued {
        fault: IssueFault,
    },
    /// A part was sent for the first time.
    Sent {
        frame: u32,
        client: ClientNo,
        part: Part,
        id: u64,
    },
    /// A part was sent again, under a new id.
    Again {
        frame: u32,
        client: ClientNo,
        part: Part,
        id: u64,
        orig: u64,
    },
    /// A part in flight was given up.
    GaveUp {
        client: ClientNo,
        part: Part,
    },
    /// A Fence ended.
    FenceEnded,
    /// The poll had nothing to do.
    Idle,
    /// The node answered a frame by the frame `reply`.
    Handled {
        frame: u32,
        client: ClientNo,
        part: Part,
        how: How,
        status: u8,
        reply: u32,
    },
    /// The node has as many records as it may keep, and the oldest, of moment `oldest`, is young.
    Busy {
        frame: u32,
        client: ClientNo,
        part: Part,
        oldest: u64,
        now: u64,
    },
    /// The client took the reply for a part in flight.
    Took {
        frame: u32,
        client: ClientNo,
        part: Part,
    },
    /// No part in flight has this orig.
    Late {
        frame: u32,
        orig: u64,
    },
    /// The delivered frame was sent too long ago.
    Expired {
        frame: u32,
        sent: u64,
    },
    /// No frame has the delivered number.
    Absent {
        frame: u32,
    },
    /// Every frame was handed out already.
    NoFrame,
    /// The frame was handed to nobody.
    Dropped {
        frame: u32,
    },
    /// Time went on to this moment.
    Now {
        moment: u64,
    },
    /// The bytes of the node's memory.
    Peeked {
        bytes: Bytes,
    },
    /// The page isn't mapped for the process.
    PeekNoMapping,
    /// The bytes of a frame.
    Shown {
        frame: u32,
        bytes: Bytes,
    },
    /// No frame has the shown number.
    ShownAbsent {
        frame: u32,
    },
    /// How many physical pages are taken, and how many replies are kept.
    Stat {
        used: u32,
        retained: u32,
    },
    /// The bytes spell no frame for their end.
    Bad {
        fault: BadFrame,
    },
}

/// A call that ended.
#[derive(Drop)]
pub struct EndedCall {
    pub client: ClientNo,
    pub call: CallNo,
    pub answer: Answer,
    /// The bytes that the answer's `Len` counts, and none for another answer.
    pub bytes: Bytes,
}

/// The line of an event.
#[derive(Drop)]
pub struct EventLine {
    pub did: Did,
    /// The call that ended by the event.
    pub ended: Option<EndedCall>,
}

/// An entry of the history: a part, and the reply that the flat machine gave to it.
#[derive(Drop)]
pub struct Entry {
    /// The line of the delivery at which it stands.
    pub line: u32,
    /// The position of the part in the delivered frame, from 0.
    pub position: u8,
    pub client: ClientNo,
    pub pid: Pid,
    pub part: Part,
    pub request: Request,
    pub reply: Reply,
}

/// Entries, in the order of line and position.
pub type EntryList = Items<Entry>;

/// What a replay counts.
#[derive(Clone, Copy, Debug, PartialEq, Eq)]
pub struct Summary {
    /// The calls that were issued.
    pub issued: u32,
    /// Of these, those whose answer was Done.
    pub done: u32,
    /// Of these, those whose answer was Refused.
    pub refused: u32,
    /// Of these, those whose answer was TimedOut.
    pub timed_out: u32,
    /// Of these, those that haven't ended.
    pub unended: u32,
    /// The entries of the history.
    pub entries: u32,
}
