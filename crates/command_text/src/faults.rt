//! The line that says why an input was refused.

ghost use Rattle.std.specs.Prelude.{◌≡◌, IfOk};
ghost use Rattle.std.specs.String.{string_bytes};
ghost use Rattle.texts.specs.Texts.{fault_line, what_text};

use cl_types::items::NoMemory;
use cl_types::schedule::What;
use std::alloc::Global;

/// The words for what is wrong with a line.
fn what_name(what: What) -> &'static str
    ensures { result.now ≡ what_text what }
{
    match what {
        What::BadByte => "bad byte",
        What::BadSpacing => "bad spacing",
        What::NodeExpected => "node expected",
        What::ClientExpected => "client expected",
        What::OutOfPlace => "out of place",
        What::UnknownWord => "unknown word",
        What::MissingWord => "missing word",
        What::ExtraWord => "extra word",
        What::BadNumber => "bad number",
        What::BadAddress => "bad address",
        What::BadPermission => "bad permission",
        What::BadBytes => "bad bytes",
        What::UnknownClient => "unknown client",
        What::ClientRepeated => "client repeated",
        What::TooManyClients => "too many clients",
        What::BadLength => "bad length",
        What::AFrame => "a frame",
        What::EndExpected => "end expected",
        What::BadCount => "bad count",
        What::BadEntry => "bad entry",
    }
}

/// The line that tells a bad line of the input.
pub fn line_fault(alloc: Global, number: u32, what: What) -> Result<String, NoMemory>
    ensures { IfOk result (λ text. string_bytes text ≡ fault_line (number, what)) }
{
    let what = what_name(what);
    Ok(format!(in alloc; "line {number}: {what}\n")?)
}
