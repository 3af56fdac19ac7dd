//! What a poll did, and what was heard.

use cl_types::frame::BadFrame;
use cl_types::numbers::{CallNo, ClientNo};
use cl_types::reply::Part;

/// What a poll did.
#[derive(Clone, Copy, Debug, PartialEq, Eq)]
pub enum Poll {
    /// The first `len` bytes of the buffer are to be sent to the node: the frame of the part,
    /// under this id, and under
    /// the id of the part's first sending. `again` tells that it was sent before.
    Sent {
        len: usize,
        part: Part,
        id: u64,
        orig: u64,
        again: bool,
    },
    /// The part is not waited for any longer. Its call may have ended by it.
    GaveUp(Part),
    /// The Fence ended.
    Ended(CallNo),
    /// Nothing is due at this moment.
    Idle,
}

/// What a client made of bytes that it heard. But for the first two, the client is as it was.
#[derive(Clone, Copy, Debug, PartialEq, Eq)]
pub enum Heard {
    /// The reply to this part was taken, and its call goes on.
    Took(Part),
    /// The reply to this part was taken, and its call has ended by it.
    Ended(Part),
    /// No part in flight was first sent under this id.
    Late { orig: u64 },
    /// The part in flight that was first sent under this id has another kind, the frame another
    /// process, or the value is not as long as the part asks.
    Unfit { orig: u64 },
    /// The reply is another client's.
    Other { client: ClientNo },
    /// The bytes spell no reply.
    Bad(BadFrame),
}
