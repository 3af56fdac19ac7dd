//! The call of a line, issued to a client.

ghost use Rattle.std.specs.Prelude.{◌≡◌, ◌<◌, Some, None, IfOk, IfSome, OnOk, OnErr, length, min, ◌^◌, ◌-◌};
ghost use Rattle.client_model.specs.Client.{ClientState};
ghost use Rattle.cl_types.specs.Written.{call_of as call_written, expanded};
ghost use Rattle.frame_model.specs.Faults.{first_fault};
ghost use Rattle.client_model.specs.Issue.{call_faults, issue_fault};
ghost use Rattle.client_core.specs.Answers.{issue_state};

use crate::copies::call_of;
use cl_types::frame::IssueFault;
use cl_types::items::NoMemory;
use cl_types::limits::{CALL_BYTES, PART_BYTES};
use cl_types::numbers::Addr;
use cl_types::schedule::{CallText, Written};
use client_core::Client;
use std::alloc::Global;

/// Issues the call of a line to a client, or returns the fault for which it is not issued. After an
/// allocation failure the client is as it was.
pub fn issue(
    alloc: Global,
    client: &mut Client,
    text: &CallText,
) -> Result<Option<IssueFault>, NoMemory>
    requires { client.old.issued < 4294967295 }
    ensures fault { IfOk result (λ fault. fault ≡ issue_fault client.old (call_written text.now)) }
    ensures state { let fault = issue_fault client.old (call_written text.now) in
        OnOk result (client.new ≡ issue_state client.old (call_written text.now) fault) }
    ensures unchanged { OnErr result (client.new ≡ client.old) }
{
    if let Some(fault) = fault_of_buffer(client, text) {
        return Ok(Some(fault));
    }
    let call = call_of(alloc, text)?;
    match client.issue(call) {
        Ok(_number) => Ok(None),
        Err((fault, _call)) => Ok(Some(fault)),
    }
}

/// The fault of a call whose buffer is too long, so that no such buffer is made.
fn fault_of_buffer(client: &Client, text: &CallText) -> Option<IssueFault>
    ensures { IfSome result (λ fault. issue_fault client.now (call_written text.now) ≡ Some fault) }
{
    let Some(fault) = too_long(text) else {
        return None;
    };
    if client.is_full() {
        return Some(IssueFault::QueueFull);
    }
    Some(fault)
}

/// The fault of a call whose buffer is too long, whatever the client holds.
fn too_long(text: &CallText) -> Option<IssueFault>
    ensures { IfSome result
        (λ fault. first_fault (call_faults (call_written text.now)) ≡ Some fault) }
{
    match text {
        CallText::Read { addr, len } => read_too_long(*addr, *len),
        CallText::Offload { no, op, out, bytes } => answer_too_long(*no, *op, *out, bytes),
        CallText::Alloc { .. }
        | CallText::Free { .. }
        | CallText::Write { .. }
        | CallText::Atomic { .. }
        | CallText::Fence => None,
    }
}

/// The fault of a read of more bytes than a call may have.
#[tactic(auto, using(crate::proofs::IssueLemmas::long_read))]
fn read_too_long(addr: Addr, len: u32) -> Option<IssueFault>
    ensures { let call = call_written (CallText.Read addr len) in
        IfSome result (λ fault. first_fault (call_faults call) ≡ Some fault) }
{
    if len > CALL_BYTES {
        return Some(IssueFault::TooLong { len });
    }
    None
}

/// The fault of an offload call with a buffer of more bytes than it may have: its sent bytes are
/// judged before.
#[tactic(auto, using(crate::proofs::IssueLemmas::long_bytes, crate::proofs::IssueLemmas::long_answer))]
fn answer_too_long(no: u8, op: u8, out: u32, bytes: &Written) -> Option<IssueFault>
    ensures { let call = call_written (CallText.Offload no op out bytes.now) in
        IfSome result (λ fault. first_fault (call_faults call) ≡ Some fault) }
{
    if out <= PART_BYTES {
        return None;
    }
    let len = written_len(bytes);
    if len > PART_BYTES {
        return Some(IssueFault::TooLong { len });
    }
    Some(IssueFault::TooLong { len: out })
}

/// How many bytes a line has, at most the greatest number of 32 bits.
#[tactic(auto, using(crate::proofs::CopyLemmas::length_written))]
fn written_len(written: &Written) -> u32
    ensures { result ≡ min (length (expanded written.now)) (2 ^ 32 - 1) }
{
    let len = written.bytes.as_slice().len();
    let all = (len as u64).saturating_mul(u64::from(written.times));
    all.min(u64::from(u32::MAX)) as u32
}
