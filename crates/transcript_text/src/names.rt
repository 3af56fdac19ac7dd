//! The fixed words of what is told by its name.

ghost use Rattle.std.specs.Prelude.{◌≡◌, ◌≤◌};
ghost use Rattle.texts.specs.Texts.{fault_text, field_text, how_text, perm_text, refusal_text, status_text};

use cl_types::call::Perm;
use cl_types::frame::{FieldName, How, IssueFault};
use cl_types::reply::Refusal;

/// A permission.
pub(crate) fn perm_name(perm: Perm) -> &'static str
    ensures { result.now ≡ perm_text perm }
{
    match perm {
        Perm::ReadOnly => "r",
        Perm::WriteOnly => "w",
        Perm::ReadWrite => "rw",
    }
}

/// Why a request was refused.
pub(crate) fn refusal_name(refusal: Refusal) -> &'static str
    ensures { result.now ≡ refusal_text refusal }
{
    match refusal {
        Refusal::NoMapping => "no mapping",
        Refusal::NoPermission => "no permission",
        Refusal::NoPage => "no page",
        Refusal::NoRange => "no range",
        Refusal::NoOffload => "no offload",
        Refusal::ObjectFull => "object full",
        Refusal::NoKey => "no key",
        Refusal::BadOp => "bad op",
    }
}

/// The status of a reply frame.
pub(crate) fn status_name(status: u8) -> &'static str
    requires { status ≤ 8 }
    ensures { result.now ≡ status_text status }
{
    match status {
        0 => "ok",
        1 => "no mapping",
        2 => "no permission",
        3 => "no page",
        4 => "no range",
        5 => "no offload",
        6 => "object full",
        7 => "no key",
        _ => "bad op",
    }
}

/// How a node came to a reply.
pub(crate) fn how_name(how: How) -> &'static str
    ensures { result.now ≡ how_text how }
{
    match how {
        How::Executed => "executed",
        How::Repeated => "repeated",
        How::Looked => "looked",
    }
}

/// Why a call was not taken.
pub(crate) fn fault_name(fault: IssueFault) -> &'static str
    ensures { result.now ≡ fault_text fault }
{
    match fault {
        IssueFault::QueueFull => "queue full",
        IssueFault::Empty => "empty",
        IssueFault::TooLong { .. } => "too long",
        IssueFault::BadAddress { .. } => "bad address",
        IssueFault::Misaligned { .. } => "misaligned",
    }
}

/// A field of a frame.
pub(crate) fn field_name(field: FieldName) -> &'static str
    ensures { result.now ≡ field_text field }
{
    match field {
        FieldName::Pid => "pid",
        FieldName::Id => "id",
        FieldName::Orig => "orig",
        FieldName::Body => "body",
        FieldName::Pages => "pages",
        FieldName::Perm => "perm",
        FieldName::Addr => "addr",
        FieldName::Len => "len",
        FieldName::Op => "op",
        FieldName::Status => "status",
    }
}
