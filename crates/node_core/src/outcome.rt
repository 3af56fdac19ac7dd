//! `Outcome`: what a node says of a frame.

use cl_types::frame::{BadFrame, How};

/// What came of a frame.
#[derive(Clone, Copy, Debug, PartialEq, Eq)]
pub enum Outcome {
    /// A reply of `len` bytes stands at the start of the buffer. `status` is 0, or its refusal's number.
    Replied { len: usize, how: How, status: u8 },
    /// The request is a changing one, the records are full, and the oldest of them, of moment
    /// `oldest`, is young at the moment `now`. Nothing is to be sent.
    Busy { oldest: u64, now: u64 },
    /// The bytes spell no request, for this fault.
    Bad(BadFrame),
}
