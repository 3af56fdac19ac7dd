//! The words of a refusal and of a bad frame.

use cl_types::frame::{BadFrame, FieldName};

/// The word of the status of a reply.
pub fn refusal_word(status: u8) -> &'static str {
    match status {
        0 => "ok",
        1 => "no mapping",
        2 => "no permission",
        3 => "no page",
        4 => "no range",
        5 => "no offload",
        6 => "object full",
        7 => "no key",
        _ => "bad op",
    }
}

/// Why bytes spell no request.
pub fn fault_word(fault: BadFrame) -> &'static str {
    match fault {
        BadFrame::Short { have: _, need: _ } => "too short",
        BadFrame::Magic => "no frame of clio",
        BadFrame::Version(_) => "another version",
        BadFrame::Kind(_) => "no request",
        BadFrame::Long { have: _, need: _ } => "too long",
        BadFrame::Field(name) => field_word(name),
    }
}

// The word of a field that is out of its range.
fn field_word(name: FieldName) -> &'static str {
    match name {
        FieldName::Pid => "bad pid",
        FieldName::Id => "bad id",
        FieldName::Orig => "bad orig",
        FieldName::Body => "bad body",
        FieldName::Pages => "bad pages",
        FieldName::Perm => "bad perm",
        FieldName::Addr => "bad addr",
        FieldName::Len => "bad len",
        FieldName::Op => "bad op",
        FieldName::Status => "bad status",
    }
}
