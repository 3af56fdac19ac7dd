//! What one part of a call asks of the node.

ghost use Rattle.std.specs.Prelude.{◌≡◌};
ghost use Rattle.cl_types.specs.Requests.{request_of, is_changing};

use crate::call::{AtomicOp, Perm};
use crate::items::Bytes;
use crate::numbers::Addr;

/// A request that owns its bytes.
#[derive(Drop)]
pub enum Request {
    /// 1 to 1,024 pages.
    Alloc {
        pages: u16,
        perm: Perm,
    },
    /// A range by its first address, a multiple of 4,096, and its 1 to 1,024 pages.
    Free {
        addr: Addr,
        pages: u16,
    },
    /// 1 to 1,024 bytes within one page.
    Read {
        addr: Addr,
        len: u16,
    },
    /// 1 to 1,024 bytes within one page.
    Write {
        addr: Addr,
        bytes: Bytes,
    },
    /// The word at an address that is a multiple of 8.
    Atomic {
        addr: Addr,
        op: AtomicOp,
    },
    /// At most 1,024 bytes for an offload, and at most `out`, 0 to 1,024, bytes of its answer.
    Offload {
        no: u8,
        op: u8,
        out: u16,
        bytes: Bytes,
    },
}

/// A request that borrows its bytes, from a frame or from a call. The ranges are those of `Request`.
#[derive(Clone, Copy)]
pub enum RequestRef<'a> {
    Alloc {
        pages: u16,
        perm: Perm,
    },
    Free {
        addr: Addr,
        pages: u16,
    },
    Read {
        addr: Addr,
        len: u16,
    },
    Write {
        addr: Addr,
        bytes: &'a [u8],
    },
    Atomic {
        addr: Addr,
        op: AtomicOp,
    },
    Offload {
        no: u8,
        op: u8,
        out: u16,
        bytes: &'a [u8],
    },
}

/// Whether the request is a changing one: an Alloc, a Free, a Write, an Atomic, or an Offload with an odd operation.
/// The node records the reply of a changing request, and executes it at most once; the others are reading ones.
pub fn changes(request: &RequestRef) -> bool
    ensures { result ≡ is_changing (request_of request.now) }
{
    match *request {
        RequestRef::Alloc { .. }
        | RequestRef::Free { .. }
        | RequestRef::Write { .. }
        | RequestRef::Atomic { .. } => true,
        RequestRef::Read { .. } => false,
        RequestRef::Offload { op, .. } => op % 2 == 1,
    }
}
