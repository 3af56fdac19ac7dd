//! The calls that C asks for, made of its arguments and issued.

ghost use Rattle.std.specs.Prelude.{◌≡◌, IfOk, IfErr};
ghost use Rattle.cl_types.specs.Written.{call_of};
ghost use Rattle.clio_c.specs.Asking.{Asked, AskedFor, alloc_call, atomic_call, offload_call, read_call, write_call};

use crate::codes::{op_of, perm_of};
use crate::issuing::{NotIssued, issue_call, issue_text};
use call_text::copied;
use cl_types::call::Call;
use cl_types::numbers::{Addr, CallNo};
use cl_types::schedule::{CallText, Written};
use client_core::Client;
use std::alloc::Global;

/// Asks for a range of pages under the permission of this number.
pub fn ask_alloc(client: &mut Client, pages: u32, perm: u8) -> Result<CallNo, NotIssued>
    ensures { AskedFor (alloc_call pages perm) client.old client.new result }
{
    let Some(perm) = perm_of(perm) else {
        return Err(NotIssued::BadArgument);
    };
    issue_call(client, Call::Alloc { pages, perm })
}

/// Asks for `len` bytes from this address on.
pub fn ask_read(
    alloc: Global,
    client: &mut Client,
    addr: u32,
    len: u32,
) -> Result<CallNo, NotIssued>
    ensures { Asked (read_call addr len) client.old client.new result }
{
    let addr = Addr(addr);
    issue_text(alloc, client, &CallText::Read { addr, len })
}

/// Asks that a copy of these bytes be written from this address on.
pub fn ask_write(
    alloc: Global,
    client: &mut Client,
    addr: u32,
    bytes: &[u8],
) -> Result<CallNo, NotIssued>
    ensures { Asked (write_call addr bytes.now) client.old client.new result }
{
    let bytes = copied(alloc, bytes)?;
    let addr = Addr(addr);
    issue_call(client, Call::Write { addr, bytes })
}

/// Asks for the operation of this number on the word at this address.
pub fn ask_atomic(
    client: &mut Client,
    addr: u32,
    op: u8,
    a: u64,
    b: u64,
) -> Result<CallNo, NotIssued>
    ensures { AskedFor (atomic_call addr op a b) client.old client.new result }
{
    let Some(op) = op_of(op, a, b) else {
        return Err(NotIssued::BadArgument);
    };
    let addr = Addr(addr);
    issue_call(client, Call::Atomic { addr, op })
}

/// The offload call that sends a copy of these bytes.
fn offload_text(
    alloc: Global,
    object: u8,
    op: u8,
    bytes: &[u8],
    room: u32,
) -> Result<CallText, NotIssued>
    ensures call { IfOk result (λ text. call_of text ≡ offload_call object op bytes.now room) }
    ensures cause { IfErr result (λ cause. cause ≡ NotIssued.NoMemory) }
{
    let bytes = copied(alloc, bytes)?;
    Ok(CallText::Offload {
        no: object,
        op,
        out: room,
        bytes: Written { bytes, times: 1 },
    })
}

/// Asks for an operation of an object on a copy of these bytes, with room for `room` bytes of answer.
pub fn ask_offload(
    alloc: Global,
    client: &mut Client,
    object: u8,
    op: u8,
    bytes: &[u8],
    room: u32,
) -> Result<CallNo, NotIssued>
    ensures { Asked (offload_call object op bytes.now room) client.old client.new result }
{
    let text = offload_text(alloc, object, op, bytes, room)?;
    issue_text(alloc, client, &text)
}
