//! Bytes and calls of their own, made from what a line of a schedule or of a script holds.

ghost use Rattle.std.specs.Prelude.{◌≡◌, IfOk};
ghost use Rattle.cl_types.specs.Bytes.{zeros as zeros_of};
ghost use Rattle.cl_types.specs.Written.{call_of as call_written, expanded};

use cl_types::call::Call;
use cl_types::items::{Bytes, NoMemory};
use cl_types::schedule::{CallText, Written};
use std::alloc::Global;

/// A copy of these bytes.
pub fn copied(alloc: Global, bytes: &[u8]) -> Result<Bytes, NoMemory>
    ensures { IfOk result (λ copy. copy ≡ bytes.now) }
{
    let mut copy = Bytes::create(alloc);
    copy.append(bytes)?;
    Ok(copy)
}

/// `count` bytes that are 0.
pub fn zeros(alloc: Global, count: u32) -> Result<Bytes, NoMemory>
    ensures { IfOk result (λ bytes. bytes ≡ zeros_of count) }
{
    let mut bytes = Bytes::create(alloc);
    for _ in 0..count {
        bytes.push(0)?;
    }
    Ok(bytes)
}

/// The bytes of a line: its `bytes`, `times` times.
pub fn expand(alloc: Global, written: &Written) -> Result<Bytes, NoMemory>
    ensures { IfOk result (λ bytes. bytes ≡ expanded written.now) }
{
    let mut bytes = Bytes::create(alloc);
    for _ in 0..written.times {
        bytes.append(written.bytes.as_slice())?;
    }
    Ok(bytes)
}

/// The call of a line, with a buffer of zeros where it has one.
pub fn call_of(alloc: Global, text: &CallText) -> Result<Call, NoMemory>
    ensures { IfOk result (λ call. call ≡ call_written text.now) }
{
    match text {
        CallText::Alloc { pages, perm } => Ok(Call::Alloc {
            pages: *pages,
            perm: *perm,
        }),
        CallText::Free { addr, pages } => Ok(Call::Free {
            addr: *addr,
            pages: *pages,
        }),
        CallText::Read { addr, len } => {
            let buf = zeros(alloc, *len)?;
            Ok(Call::Read { addr: *addr, buf })
        }
        CallText::Write { addr, bytes } => {
            let bytes = expand(alloc, bytes)?;
            Ok(Call::Write { addr: *addr, bytes })
        }
        CallText::Atomic { addr, op } => Ok(Call::Atomic {
            addr: *addr,
            op: *op,
        }),
        CallText::Offload { no, op, out, bytes } => {
            let bytes = expand(alloc, bytes)?;
            let buf = zeros(alloc, *out)?;
            Ok(Call::Offload {
                no: *no,
                op: *op,
                bytes,
                buf,
            })
        }
        CallText::Fence => Ok(Call::Fence),
    }
}
