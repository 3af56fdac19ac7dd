//! The last line of a client that stalled, or whose wire failed.

ghost use Rattle.std.specs.Prelude.{◌≡◌, IfOk};
ghost use Rattle.std.specs.String.{string_bytes};
ghost use Rattle.client_command.specs.Lines.{EndsStalled, EndsWireFault, stalled_line};

use crate::ends::ClientEnd;
use cl_outside::{Sink, write_all};
use cl_types::items::NoMemory;
use std::alloc::Global;

/// Ends with the line of a wire that failed.
pub fn end_wire_fault<K: Sink>(sink: &mut K) -> ClientEnd
    ensures { EndsWireFault (K.written sink.old) (K.written sink.new)
        (K.faults sink.old) (K.faults sink.new) result }
{
    match write_all(sink, b"wire fault\n") {
        Ok(()) => ClientEnd::WireFault,
        Err(_) => ClientEnd::WriteFault,
    }
}

// The line of a client that stalled.
fn stalled_text(alloc: Global, moment: u64, turns: u32) -> Result<String, NoMemory>
    ensures { IfOk result (λ text. string_bytes text ≡ stalled_line moment turns) }
{
    Ok(format!(in alloc; "stalled: moment {moment} turns {turns}\n")?)
}

/// Ends with the line of a client that stalled at this moment, in ticks, after so many turns in a
/// row that were fruitless.
pub fn end_stalled<K: Sink>(alloc: Global, moment: u64, turns: u32, sink: &mut K) -> ClientEnd
    ensures { EndsStalled (stalled_line moment turns) (K.written sink.old) (K.written sink.new)
        (K.faults sink.old) (K.faults sink.new) result }
{
    let Ok(text) = stalled_text(alloc, moment, turns) else {
        return ClientEnd::NoMemory;
    };
    match write_all(sink, text.as_bytes()) {
        Ok(()) => ClientEnd::Stalled,
        Err(_) => ClientEnd::WriteFault,
    }
}
