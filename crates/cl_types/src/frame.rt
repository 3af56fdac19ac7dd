//! The heads and the faults of frames, and what node and client say of them.

use crate::numbers::{Addr, ClientNo, Pid};

/// The head of a frame, which its reply copies.
#[derive(Clone, Copy, Debug, PartialEq, Eq)]
pub struct Head {
    /// Who sent the request.
    pub client: ClientNo,
    /// The process that it works for.
    pub pid: Pid,
    /// The number of this sending, from 1.
    pub id: u64,
    /// The id of the part's first sending, at most `id`. It names the part at the node.
    pub orig: u64,
}

/// The fields of a frame that a reader checks.
#[derive(Clone, Copy, Debug, PartialEq, Eq)]
pub enum FieldName {
    Pid,
    Id,
    Orig,
    /// The number of bytes of the body.
    Body,
    Pages,
    Perm,
    Addr,
    Len,
    Op,
    Status,
}

/// Why bytes spell no frame; the first fault that holds is told.
#[derive(Clone, Copy, Debug, PartialEq, Eq)]
pub enum BadFrame {
    /// There are `have` bytes, fewer than the `need` of the head or of the whole frame.
    Short { have: usize, need: usize },
    /// The first two bytes aren't those of a frame.
    Magic,
    /// This is no version of the format.
    Version(u8),
    /// This is no kind of the frames that the reader takes.
    Kind(u8),
    /// There are `have` bytes, more than the `need` of the frame.
    Long { have: usize, need: usize },
    /// This field is out of its range.
    Field(FieldName),
}

/// How the node came to a reply.
#[derive(Clone, Copy, Debug, PartialEq, Eq)]
pub enum How {
    /// A changing request was executed, and its reply recorded.
    Executed,
    /// A changing request was recorded before: its reply was given again.
    Repeated,
    /// A reading request was executed.
    Looked,
}

/// Why a call is not taken. The first that holds is told, the call is handed back, and the client is as it was.
#[derive(Clone, Copy, Debug, PartialEq, Eq)]
pub enum IssueFault {
    /// The client holds 256 calls.
    QueueFull,
    /// A Read or a Write has no bytes, or an Alloc or a Free no pages.
    Empty,
    /// A Read or a Write has more than 65,536 bytes, an Alloc or a Free more than 1,024 pages, or an Offload more
    /// than 1,024 bytes either way. `len` is the number that is too large, or 2^32 - 1 where it is greater still; the
    /// sent bytes of an Offload come before its buffer.
    TooLong { len: u32 },
    /// The address plus `len` bytes (8 of an Atomic, 4,096 for each page of a Free) is above 2^28.
    BadAddress { addr: Addr, len: u32 },
    /// The address of an Atomic is no multiple of 8, or that of a Free none of 4,096.
    Misaligned { addr: Addr },
}

/// Where a frame goes.
#[derive(Clone, Copy, Debug, PartialEq, Eq)]
pub enum End {
    Node,
    Client(ClientNo),
}
