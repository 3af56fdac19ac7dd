//! What a client's caller asks for.

ghost use Rattle.std.specs.Prelude.{◌≡◌};
ghost use Rattle.cl_types.specs.Kinds.{kind_number};

use crate::items::Bytes;
use crate::numbers::Addr;

/// What may be done with a page.
#[derive(Clone, Copy, Debug, PartialEq, Eq)]
pub enum Perm {
    /// It may be read.
    ReadOnly,
    /// It may be written.
    WriteOnly,
    /// Both; an atomic needs both.
    ReadWrite,
}

/// What an atomic does to the word of 8 bytes, little-endian, at its address. Each answers the old word.
#[derive(Clone, Copy, Debug, PartialEq, Eq)]
pub enum AtomicOp {
    /// Makes a 0 a 1, and leaves any other word.
    Lock,
    /// Makes the word 0.
    Unlock,
    /// Adds `n` modulo 2^64.
    Add { n: u64 },
    /// Puts `put` where the word equals `expect`.
    Cas { expect: u64, put: u64 },
}

/// The kinds of requests.
#[derive(Clone, Copy, Debug, PartialEq, Eq)]
pub enum Kind {
    Alloc,
    Free,
    Read,
    Write,
    Atomic,
    Offload,
}

impl Kind {
    /// The number in a request's frame.
    pub fn number(self) -> u8
        ensures { result ≡ kind_number self }
    {
        match self {
            Kind::Alloc => 1,
            Kind::Free => 2,
            Kind::Read => 3,
            Kind::Write => 4,
            Kind::Atomic => 5,
            Kind::Offload => 6,
        }
    }
}

/// A call of a client. A good one is cut into parts, and each part is a `Request`.
#[derive(Drop)]
pub enum Call {
    /// Maps a range of 1 to 1,024 pages at the least start at which it fits.
    Alloc {
        pages: u32,
        perm: Perm,
    },
    /// Takes out the range of exactly this start and this number of pages.
    Free {
        addr: Addr,
        pages: u32,
    },
    /// Fills the buffer, 1 to 65,536 bytes, with the bytes from the address on.
    Read {
        addr: Addr,
        buf: Bytes,
    },
    /// Puts 1 to 65,536 bytes at the address.
    Write {
        addr: Addr,
        bytes: Bytes,
    },
    /// Changes the word at an address that is a multiple of 8.
    Atomic {
        addr: Addr,
        op: AtomicOp,
    },
    /// Hands at most 1,024 bytes to an offload, and fills the buffer, at most 1,024 bytes, with its answer and
    /// then zeros. An odd operation changes the object.
    Offload {
        no: u8,
        op: u8,
        bytes: Bytes,
        buf: Bytes,
    },
    /// Ends when every earlier call has ended, and holds every later one back until then.
    Fence,
}
