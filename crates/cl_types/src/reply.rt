//! What the node answers to a request, and a client to a call.

use crate::items::Bytes;
use crate::numbers::{Addr, CallNo};

/// Why a request is refused. Their numbers in a frame are 1 to 8 in this order, and 0 is no refusal.
#[derive(Clone, Copy, Debug, PartialEq, Eq)]
pub enum Refusal {
    /// The page isn't mapped for the process, or no range of this start and this number of pages stands.
    NoMapping,
    /// The page's permission lacks what is needed.
    NoPermission,
    /// The page is fresh, and no physical page is free.
    NoPage,
    /// No start fits.
    NoRange,
    /// The node has no such offload.
    NoOffload,
    /// The object holds as many keys as it may.
    ObjectFull,
    /// The object has no such key.
    NoKey,
    /// The object has no such operation, or the bytes don't have its form.
    BadOp,
}

/// A reply that owns its bytes.
#[derive(Drop)]
pub enum Reply {
    /// The request was refused, and nothing was changed.
    Refused(Refusal),
    /// A Free or a Write was done.
    Nothing,
    /// An Alloc was done: the first address of the range.
    At(Addr),
    /// An Atomic was done: the old word.
    Word(u64),
    /// A Read or an Offload was done: its bytes.
    Got(Bytes),
}

/// A reply that borrows its bytes. The variants are those of `Reply`.
#[derive(Clone, Copy)]
pub enum ReplyRef<'a> {
    Refused(Refusal),
    Nothing,
    At(Addr),
    Word(u64),
    Got(&'a [u8]),
}

/// The value of a call that was done.
#[derive(Clone, Copy, Debug, PartialEq, Eq)]
pub enum Value {
    /// Of a Free, a Write and a Fence.
    Nothing,
    /// Of an Alloc: the first address of the range.
    At(Addr),
    /// Of an Atomic: the old word.
    Word(u64),
    /// Of a Read and an Offload: how many bytes stand in the call's buffer.
    Len(u32),
}

/// What came of a call.
#[derive(Clone, Copy, Debug, PartialEq, Eq)]
pub enum Answer {
    /// Each part was done.
    Done(Value),
    /// No part was given up, and this is the refusal of the least part that was refused.
    Refused(Refusal),
    /// Some part was given up: when the least one was first sent, and when it was given up, in ticks. It may have
    /// been done all the same, once.
    TimedOut { first_sent: u64, now: u64 },
}

/// The name of a part: its call, and its number in the call, from 0.
#[derive(Clone, Copy, Debug, PartialEq, Eq)]
pub struct Part {
    pub call: CallNo,
    pub part: u16,
}
