//! Copies of what frames and lines lend.

ghost use Rattle.std.specs.Prelude.{◌≡◌, IfOk};
ghost use Rattle.cl_types.specs.Requests.{reply_of as reply_lent, request_of as request_lent};

use call_text::copied;
use cl_types::items::NoMemory;
use cl_types::reply::{Reply, ReplyRef};
use cl_types::request::{Request, RequestRef};
use std::alloc::Global;

/// A request of its own, with the bytes that are lent.
pub fn own_request(alloc: Global, lent: &RequestRef) -> Result<Request, NoMemory>
    ensures { IfOk result (λ request. request ≡ request_lent lent.now) }
{
    match *lent {
        RequestRef::Alloc { pages, perm } => Ok(Request::Alloc { pages, perm }),
        RequestRef::Free { addr, pages } => Ok(Request::Free { addr, pages }),
        RequestRef::Read { addr, len } => Ok(Request::Read { addr, len }),
        RequestRef::Write { addr, bytes } => {
            let bytes = copied(alloc, bytes)?;
            Ok(Request::Write { addr, bytes })
        }
        RequestRef::Atomic { addr, op } => Ok(Request::Atomic { addr, op }),
        RequestRef::Offload { no, op, out, bytes } => {
            let bytes = copied(alloc, bytes)?;
            Ok(Request::Offload { no, op, out, bytes })
        }
    }
}

/// The same request.
pub fn copy_of(alloc: Global, request: &Request) -> Result<Request, NoMemory>
    ensures { IfOk result (λ copy. copy ≡ request.now) }
{
    match request {
        Request::Alloc { pages, perm } => Ok(Request::Alloc {
            pages: *pages,
            perm: *perm,
        }),
        Request::Free { addr, pages } => Ok(Request::Free {
            addr: *addr,
            pages: *pages,
        }),
        Request::Read { addr, len } => Ok(Request::Read {
            addr: *addr,
            len: *len,
        }),
        Request::Write { addr, bytes } => {
            let bytes = copied(alloc, bytes.as_slice())?;
            Ok(Request::Write { addr: *addr, bytes })
        }
        Request::Atomic { addr, op } => Ok(Request::Atomic {
            addr: *addr,
            op: *op,
        }),
        Request::Offload { no, op, out, bytes } => {
            let bytes = copied(alloc, bytes.as_slice())?;
            Ok(Request::Offload {
                no: *no,
                op: *op,
                out: *out,
                bytes,
            })
        }
    }
}

/// A reply of its own, with the bytes that are lent.
pub fn own_reply(alloc: Global, lent: &ReplyRef) -> Result<Reply, NoMemory>
    ensures { IfOk result (λ reply. reply ≡ reply_lent lent.now) }
{
    match *lent {
        ReplyRef::Refused(refusal) => Ok(Reply::Refused(refusal)),
        ReplyRef::Nothing => Ok(Reply::Nothing),
        ReplyRef::At(addr) => Ok(Reply::At(addr)),
        ReplyRef::Word(word) => Ok(Reply::Word(word)),
        ReplyRef::Got(bytes) => {
            let bytes = copied(alloc, bytes)?;
            Ok(Reply::Got(bytes))
        }
    }
}
