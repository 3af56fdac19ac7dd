//! Schedules and scripts, as they are read from text.

use crate::call::{AtomicOp, Perm};
use crate::config::Config;
use crate::items::{Bytes, Items};
use crate::numbers::{Addr, ClientNo, Pid};

/// Bytes, `times` times over: at most 70,000 in all.
#[derive(Drop)]
pub struct Written {
    pub bytes: Bytes,
    pub times: u32,
}

/// A call, as its line has it. Its numbers may be out of the ranges of a call, which are judged when it is issued.
#[derive(Drop)]
pub enum CallText {
    Alloc {
        pages: u32,
        perm: Perm,
    },
    Free {
        addr: Addr,
        pages: u32,
    },
    /// A read of `len` bytes.
    Read {
        addr: Addr,
        len: u32,
    },
    Write {
        addr: Addr,
        bytes: Written,
    },
    Atomic {
        addr: Addr,
        op: AtomicOp,
    },
    /// An offload call with a buffer of `out` bytes.
    Offload {
        no: u8,
        op: u8,
        out: u32,
        bytes: Written,
    },
    Fence,
}

/// An event of a schedule.
#[derive(Drop)]
pub enum Event {
    /// The client issues a call.
    Call { client: ClientNo, call: CallText },
    /// One poll of the client.
    Poll { client: ClientNo },
    /// The frame of this number is handed to its end.
    Deliver { frame: u32 },
    /// The next frame that wasn't handed out is handed to its end.
    DeliverNext,
    /// The next frame that wasn't handed out is handed to nobody.
    Drop,
    /// Time goes on by 1 to 1,000,000,000 ticks.
    Tick { by: u64 },
    /// The node's memory is shown: `len` bytes, 1 to 1,024, within one page.
    Peek { pid: Pid, addr: Addr, len: u16 },
    /// The bytes of a frame are shown.
    Show { frame: u32 },
    /// The node's numbers are shown.
    Stat,
    /// Bytes that spell no request are handed to the node.
    GarbageNode { bytes: Written },
    /// Bytes that spell no reply are handed to the client.
    GarbageClient { client: ClientNo, bytes: Written },
}

/// Events in the order of their lines, each with the number of its line, from 1.
pub type EventList = Items<(u32, Event)>;

/// A schedule.
#[derive(Drop)]
pub struct Schedule {
    /// The header lines that weren't skipped, as they stand, each with a line feed.
    pub header: Bytes,
    pub config: Config,
    pub events: EventList,
}

/// The calls of a script in the order of their lines, each with the number of its line, from 1.
pub type ScriptList = Items<(u32, CallText)>;

/// What a driven client is to call.
#[derive(Drop)]
pub struct Script {
    pub calls: ScriptList,
}

/// What is wrong with a line. The first that holds is told.
#[derive(Clone, Copy, Debug, PartialEq, Eq)]
pub enum What {
    /// A byte outside 0x20 to 0x7e.
    BadByte,
    /// A space at an end of the line, or two together.
    BadSpacing,
    /// There is no node line yet, and this is none.
    NodeExpected,
    /// There is no client line yet, and this is neither an offload line nor a client line.
    ClientExpected,
    /// A second node line, an offload line behind a client line, or a client line behind an event.
    OutOfPlace,
    /// The line's first word, an offload's kind or a call's word is in none of the tables.
    UnknownWord,
    /// The line has too few words.
    MissingWord,
    /// The line has too many words.
    ExtraWord,
    /// An argument is no number of its range.
    BadNumber,
    /// An argument is no address.
    BadAddress,
    /// An argument is no permission.
    BadPermission,
    /// An argument spells no bytes.
    BadBytes,
    /// The client wasn't given.
    UnknownClient,
    /// The client was given before.
    ClientRepeated,
    /// This is the 65th client.
    TooManyClients,
    /// The peek leaves its page, or lies at 2^28 or above.
    BadLength,
    /// The garbage spells a frame for its end.
    AFrame,
    /// The input ends without an end line, or a line follows the end line.
    EndExpected,
    /// The end line has not its form, or another number than that of the entries.
    BadCount,
    /// The entry's line has not its form, the lines and positions of the entries don't rise, or the request or reply
    /// is out of its range.
    BadEntry,
}
