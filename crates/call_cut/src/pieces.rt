//! The parts of a call. A Read or a Write is cut into pieces, at the ends of pages and, within a
//! page, every 1,024 bytes.

ghost use Rattle.std.specs.Prelude.{◌≡◌, ◌+◌, ◌<◌, ◌≤◌, length, Some, None, slice_get};
ghost use Rattle.client_model.specs.Cut.{cut, pieces, piece_len as piece_len_of};
ghost use Rattle.frame_model.specs.Faults.{first_fault};
ghost use Rattle.client_model.specs.Issue.{call_faults};
ghost use Rattle.cl_types.specs.Requests.{request_of};
ghost use Rattle.cl_types.specs.declared.limits.TheConstants.{MOST_PARTS};

use cl_types::call::Call;
use cl_types::limits::{ADDRESS_END, CALL_BYTES, MOST_PARTS, PAGE_BYTES, PART_BYTES};
use cl_types::numbers::Addr;
use cl_types::request::RequestRef;

/// A piece of the bytes of a call: `len` bytes at the offset `from`.
#[derive(Clone, Copy)]
pub struct Piece {
    pub from: u32,
    pub len: u32,
}

/// How many bytes from an address on one piece has, where `left` bytes are left.
fn piece_len(at: u32, left: u32) -> u32
    ensures { result ≡ piece_len_of at left }
{
    PART_BYTES.min((PAGE_BYTES - at % PAGE_BYTES).min(left))
}

/// How many pieces `bytes` bytes at an address have.
fn piece_count(addr: Addr, bytes: u32) -> u32
    requires few { bytes ≤ CALL_BYTES }
    requires fits { addr.0 + bytes ≤ ADDRESS_END }
    ensures count { result ≡ length (pieces addr.0 bytes) }
    ensures few { result ≤ MOST_PARTS }
{
    let mut count = 0;
    let mut from = 0;
    while from < bytes {
        from += piece_len(addr.0 + from, bytes - from);
        count += 1;
    }
    count
}

/// Piece `i` of `bytes` bytes at an address.
pub fn piece_at(addr: Addr, bytes: u32, i: u32) -> Piece
    requires fits { addr.0 + bytes ≤ ADDRESS_END }
    requires there { i < length (pieces addr.0 bytes) }
    ensures piece { slice_get (pieces addr.0 bytes) i ≡ Some (addr.0 + result.from, result.len) }
    ensures within { result.from + result.len ≤ bytes }
    ensures short { result.len ≤ PART_BYTES }
{
    let mut from = 0;
    for _k in 0..i {
        from += piece_len(addr.0 + from, bytes - from);
    }
    Piece {
        from,
        len: piece_len(addr.0 + from, bytes - from),
    }
}

/// The number of parts of a good call, at most 65.
pub fn parts(call: &Call) -> u32
    requires { first_fault (call_faults call.now) ≡ None }
    ensures parts { result ≡ length (cut call.now) }
    ensures few { result ≤ MOST_PARTS }
{
    match call {
        Call::Read { addr, buf } => piece_count(*addr, buf.as_slice().len() as u32),
        Call::Write { addr, bytes } => piece_count(*addr, bytes.as_slice().len() as u32),
        Call::Fence => 0,
        Call::Alloc { .. } | Call::Free { .. } | Call::Atomic { .. } | Call::Offload { .. } => 1,
    }
}

/// Part `i` of a good call, from 0. It borrows the bytes of the call.
pub fn part(call: &Call, i: u32) -> RequestRef<'_>
    requires good { first_fault (call_faults call.now) ≡ None }
    requires there { i < length (cut call.now) }
    ensures { slice_get (cut call.now) i ≡ Some (request_of result) }
{
    match call {
        Call::Alloc { pages, perm } => RequestRef::Alloc {
            pages: *pages as u16,
            perm: *perm,
        },
        Call::Free { addr, pages } => RequestRef::Free {
            addr: *addr,
            pages: *pages as u16,
        },
        Call::Read { addr, buf } => {
            let piece = piece_at(*addr, buf.as_slice().len() as u32, i);
            RequestRef::Read {
                addr: Addr(addr.0 + piece.from),
                len: piece.len as u16,
            }
        }
        Call::Write { addr, bytes } => {
            let bytes = bytes.as_slice();
            let piece = piece_at(*addr, bytes.len() as u32, i);
            let end = piece.from + piece.len;
            RequestRef::Write {
                addr: Addr(addr.0 + piece.from),
                bytes: &bytes[piece.from as usize..end as usize],
            }
        }
        Call::Atomic { addr, op } => RequestRef::Atomic {
            addr: *addr,
            op: *op,
        },
        Call::Offload { no, op, bytes, buf } => RequestRef::Offload {
            no: *no,
            op: *op,
            out: buf.as_slice().len() as u16,
            bytes: bytes.as_slice(),
        },
        Call::Fence => unreachable!(),
    }
}
