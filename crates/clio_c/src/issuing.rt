//! A call that C asks for, issued, or why it is not.

ghost use Rattle.std.specs.Prelude.{◌≡◌, OnErr, IfOk, ◌-◌, ◌^◌, ◌<◌};
ghost use Rattle.cl_types.specs.Written.{call_of};
ghost use Rattle.clio_c.specs.Asking.{Asked};
ghost use Rattle.clio_c.specs.Numbers.{cause_number, number_told, status_number};

use crate::codes::{BAD_ARGUMENT, NO_MEMORY, OK, USED_UP, fault_number};
use call_text::issue;
use cl_types::call::Call;
use cl_types::frame::IssueFault;
use cl_types::items::NoMemory;
use cl_types::numbers::CallNo;
use cl_types::schedule::CallText;
use client_core::Client;
use std::alloc::Global;

/// Why a call is not issued. The client is as it was.
#[derive(Clone, Copy, Debug, PartialEq, Eq)]
pub enum NotIssued {
    /// A permission or an operation has a number that stands for none.
    BadArgument,
    /// The client has issued 2^32 - 1 calls.
    UsedUp,
    /// The client doesn't take it.
    Fault(IssueFault),
    /// Its bytes or its buffer were refused memory.
    NoMemory,
}

impl From<NoMemory> for NotIssued {
    ghost use Rattle.std.specs.Prelude.{◌≡◌};
    ghost use Rattle.clio_c.specs.declared.issuing.NotIssued.TheVariants.{NoMemory};

    ghost from_gives = { λ _ cause. cause ≡ NoMemory };

    fn from(_error: NoMemory) -> Self {
        NotIssued::NoMemory
    }
}

/// Issues a call that has all that it needs.
pub fn issue_call(client: &mut Client, call: Call) -> Result<CallNo, NotIssued>
    ensures { Asked call client.old client.new result }
{
    if client.issued() == u32::MAX {
        return Err(NotIssued::UsedUp);
    }
    match client.issue(call) {
        Ok(no) => Ok(no),
        Err((fault, _call)) => Err(NotIssued::Fault(fault)),
    }
}

/// Makes the buffer that a call needs, and issues it. A buffer that is too long is refused before it
/// is made.
pub fn issue_text(alloc: Global, client: &mut Client, text: &CallText) -> Result<CallNo, NotIssued>
    ensures { Asked (call_of text.now) client.old client.new result }
{
    if client.issued() == u32::MAX {
        return Err(NotIssued::UsedUp);
    }
    match issue(alloc, client, text)? {
        None => Ok(CallNo(client.issued())),
        Some(fault) => Err(NotIssued::Fault(fault)),
    }
}

/// The status of a call that was not issued.
fn status_of(cause: NotIssued) -> u32
    ensures { result ≡ cause_number cause }
{
    match cause {
        NotIssued::BadArgument => BAD_ARGUMENT,
        NotIssued::UsedUp => USED_UP,
        NotIssued::Fault(fault) => fault_number(fault),
        NotIssued::NoMemory => NO_MEMORY,
    }
}

/// Tells C what came of a call: its number where it was issued, and the status.
pub fn tell(issued: Result<CallNo, NotIssued>, call: &mut u32) -> u32
    ensures status { result ≡ status_number issued }
    ensures number { call.new ≡ number_told call.old issued }
{
    match issued {
        Ok(no) => {
            *call = no.0;
            OK
        }
        Err(cause) => status_of(cause),
    }
}
