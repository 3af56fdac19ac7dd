//! An output, and why an input is refused.

ghost use Rattle.std.specs.Prelude.{◌≡◌, ◌+◌, true, IfOk};
ghost use Rattle.cl_types.specs.declared.limits.TheConstants.{INPUT_BYTES};
ghost use Rattle.command_text.specs.Outputs.{bad_line_output, bad_node_output, too_long_output};
ghost use Rattle.command_text.specs.Serving.{IsRefusalOf};

use crate::faults::line_fault;
use crate::status::Status;
use cl_types::items::{Bytes, NoMemory};
use cl_types::limits::INPUT_BYTES;
use cl_types::open_fault::OpenFault;
use cl_types::schedule::What;
use node_command::refusal_text;
use schedule_text::ScheduleFault;
use std::alloc::Global;

/// A text that is to be written, and the status with which the program then ends.
#[derive(Drop)]
pub struct Output {
    pub text: Bytes,
    pub status: Status,
}

/// An output of these bytes.
pub fn output_of(alloc: Global, text: &[u8], status: Status) -> Result<Output, NoMemory>
    ensures { IfOk result (λ output. output ≡ record { text = text.now; status = status }) }
{
    let mut copy = Bytes::create(alloc);
    copy.append(text)?;
    Ok(Output { text: copy, status })
}

/// The output on a bad line.
fn bad_line(alloc: Global, number: u32, what: What) -> Result<Output, NoMemory>
    ensures { IfOk result (λ output. output ≡ bad_line_output (number, what)) }
{
    let text = line_fault(alloc, number, what)?;
    output_of(alloc, text.as_bytes(), Status::BadInput)
}

/// The output on an input that has too many bytes, or too many lines.
fn too_long(alloc: Global, of_bytes: bool, number: u32) -> Result<Output, NoMemory>
    ensures { IfOk result (λ output. output ≡ too_long_output (ScheduleFault.TooLong of_bytes number)) }
{
    if of_bytes {
        return output_of(alloc, b"too long: bytes 16777217\n", Status::TooLong);
    }
    output_of(alloc, b"too long: lines 200001\n", Status::TooLong)
}

/// The output on an input of which more bytes were taken than an input may have.
pub fn too_many(alloc: Global) -> Result<Output, NoMemory>
    ensures { IfOk result (λ output. output ≡ too_long_output (ScheduleFault.TooLong true (INPUT_BYTES + 1))) }
{
    too_long(alloc, true, INPUT_BYTES as u32 + 1)
}

/// The output on an input that could not be read.
pub fn refuse(alloc: Global, fault: ScheduleFault) -> Result<Output, NoMemory>
    ensures { IfOk result (IsRefusalOf fault) }
{
    match fault {
        ScheduleFault::Line { number, what } => bad_line(alloc, number, what),
        ScheduleFault::TooLong { bytes, number } => too_long(alloc, bytes, number),
        ScheduleFault::NoMemory => Err(NoMemory),
    }
}

/// The output on a node that doesn't open.
pub fn bad_node(alloc: Global, fault: OpenFault) -> Result<Output, NoMemory>
    ensures { IfOk result (λ output. output ≡ bad_node_output fault) }
{
    let text = refusal_text(alloc, fault)?;
    output_of(alloc, text.as_bytes(), Status::BadNode)
}
