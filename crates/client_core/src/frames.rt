//! The frame of a part, written straight into a buffer.

ghost use Rattle.std.specs.Prelude.{◌≡◌, ◌≤◌, ◌&&◌, nat_lt, true, Some, is_some, length};
ghost use Rattle.std.specs.List.{AllByRecursion as Each};
ghost use Rattle.cl_types.specs.Bytes.{with_bytes};
ghost use Rattle.cl_types.specs.Requests.{request_of};
ghost use Rattle.cl_types.specs.declared.request.Request.{Request};
ghost use Rattle.frame_model.specs.Frames.{IsHead};
ghost use Rattle.cl_types.specs.Ranges.{are_bytes, has_words};
ghost use Rattle.client_core.specs.Answers.{frame_bytes};
ghost use Rattle.client_core.specs.Fields.{IsFit};
ghost use Rattle.client_core.specs.Held.{request_at};
ghost use Rattle.client_core.specs.Typed.{is_typed_request};
ghost use Rattle.cl_types.specs.declared.limits.TheConstants.{FRAME_ROOM};

use crate::calls::Calls;
use cl_types::call::AtomicOp;
use cl_types::frame::Head;
use cl_types::reply::Part;
use cl_types::request::RequestRef;
use frame_codec::write_request;

/// Writes the frame of a part at the start of `out`, and tells how many bytes it has.
pub fn write_part(calls: &Calls, part: Part, head: &Head, out: &mut [u8]) -> usize
    requires there { is_some (request_at calls.now.held part) ≡ true }
    requires fits { Each IsFit calls.now.held }
    requires head { IsHead head.now }
    requires room { FRAME_ROOM ≤ length out.old }
    ensures len { (q : Request) → request_at calls.now.held part ≡ Some q
        → result ≡ length (frame_bytes head.now q) }
    ensures bytes { (q : Request) → request_at calls.now.held part ≡ Some q
        → out.new ≡ with_bytes 0 (frame_bytes head.now q) out.old }
{
    let asked = calls.request(part);
    has_its_types(&asked);
    write_request(head, &asked, out)
}

/// The numbers of a request are those of their types. Nothing is done: only the clause is wanted.
fn has_its_types(request: &RequestRef)
    ensures { is_typed_request (request_of request.now) ≡ true }
{
    match *request {
        RequestRef::Write { bytes, .. } => are_of_bytes(bytes),
        RequestRef::Atomic { op, .. } => is_of_words(op),
        RequestRef::Offload { no, op, bytes, .. } => are_of_an_offload(no, op, bytes),
        RequestRef::Alloc { .. } | RequestRef::Free { .. } | RequestRef::Read { .. } => {}
    }
}

/// The items of a slice of bytes are bytes.
fn are_of_bytes(bytes: &[u8])
    ensures { are_bytes bytes.now ≡ true }
{}

/// The words of an operation are words.
fn is_of_words(op: AtomicOp)
    ensures { has_words op ≡ true }
{
    match op {
        AtomicOp::Lock | AtomicOp::Unlock | AtomicOp::Add { .. } | AtomicOp::Cas { .. } => {}
    }
}

/// The numbers of an Offload are those of their types.
fn are_of_an_offload(no: u8, op: u8, bytes: &[u8])
    ensures { (nat_lt no 256 && nat_lt op 256 && are_bytes bytes.now) ≡ true }
{
    are_of_bytes(bytes);
}
