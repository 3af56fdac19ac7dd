//! Outputs on their way to a sink.

ghost use Rattle.command_text.specs.Serving.{Says};

use crate::output::Output;
use crate::status::Status;
use cl_outside::{Sink, write_all};

/// Writes an output, whole, and answers its status, or that a write failed.
pub fn say<K: Sink>(sink: &mut K, output: &Output) -> Status
    ensures { Says output.now (K.written sink.old) (K.written sink.new)
        (K.faults sink.old) (K.faults sink.new) result }
{
    match write_all(sink, output.text.as_slice()) {
        Ok(()) => output.status,
        Err(_) => Status::WriteFault,
    }
}
