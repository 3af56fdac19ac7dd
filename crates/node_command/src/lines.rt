//! The lines of the command.

ghost use Rattle.std.specs.Prelude.{◌≡◌, IfOk};
ghost use Rattle.std.specs.String.{string_bytes};
ghost use Rattle.texts.specs.Texts.{number_text, open_fault_line};
ghost use Rattle.wire_loop.specs.Wired.{wire_fault_line};
ghost use Rattle.node_command.specs.Lines.{end_line, port_line};
ghost use Rattle.node_command.specs.Writing.{WritesLine};

use crate::node_end::Cut;
use cl_outside::{Sink, write_all};
use cl_types::config::Field;
use cl_types::items::NoMemory;
use cl_types::open_fault::OpenFault;
use std::alloc::Global;
use wire_loop::ServeEnd;

/// Writes a line, whole, unless a write fails.
fn write_line<K: Sink>(line: &str, sink: &mut K) -> Result<(), Cut>
    ensures { WritesLine line.now (K.written sink.old) (K.written sink.new)
        (K.faults sink.old) (K.faults sink.new) result }
{
    match write_all(sink, line.as_bytes()) {
        Ok(()) => Ok(()),
        Err(_) => Err(Cut::WriteFault),
    }
}

/// The line of the port that was bound.
fn port_text(alloc: Global, port: u16) -> Result<String, NoMemory>
    ensures { IfOk result (λ text. string_bytes text ≡ port_line port) }
{
    Ok(format!(in alloc; "port {port}\n")?)
}

/// The line of the end of serving, where `frames` datagrams were asked for.
fn end_text(alloc: Global, frames: u32, end: ServeEnd) -> Result<String, NoMemory>
    ensures { IfOk result (λ text. string_bytes text ≡ end_line frames end) }
{
    match end {
        ServeEnd::Frames => Ok(format!(in alloc; "served {frames}\n")?),
        ServeEnd::Idles { frames: served } => Ok(format!(in alloc; "idle {served}\n")?),
        ServeEnd::WireFault { frames: _ } => Ok(format!(in alloc; "wire fault\n")?),
    }
}

/// The word of a number of a node's configuration.
fn number_name(field: Field) -> &'static str
    ensures { result.now ≡ number_text field }
{
    match field {
        Field::Pages => "pages",
        Field::Buckets => "buckets",
        Field::Ring => "ring",
        Field::Retry => "retry",
        Field::Offloads => "offloads",
        Field::Records => "records",
    }
}

/// The line that says why a node does not open, `bad node: ..`; out of memory has none, and gives an
/// empty text.
pub fn refusal_text(alloc: Global, fault: OpenFault) -> Result<String, NoMemory>
    ensures { IfOk result (λ text. string_bytes text ≡ open_fault_line fault) }
{
    match fault {
        OpenFault::BadConfig { field, value } => {
            let name = number_name(field);
            Ok(format!(in alloc; "bad node: {name} {value}\n")?)
        }
        OpenFault::NoRoom { offload, pages } => {
            Ok(format!(in alloc; "bad node: offload {offload} pages {pages}\n")?)
        }
        OpenFault::NoMemory => Ok(String::new(alloc)),
    }
}

/// Writes the line of the port that was bound.
pub fn write_port<K: Sink>(alloc: Global, port: u16, sink: &mut K) -> Result<(), Cut>
    ensures { WritesLine (port_line port) (K.written sink.old) (K.written sink.new)
        (K.faults sink.old) (K.faults sink.new) result }
{
    let text = port_text(alloc, port)?;
    write_line(text.as_str(), sink)
}

/// Writes the line of the end of serving, where `frames` datagrams were asked for.
pub fn write_end<K: Sink>(
    alloc: Global,
    frames: u32,
    end: ServeEnd,
    sink: &mut K,
) -> Result<(), Cut>
    ensures { WritesLine (end_line frames end) (K.written sink.old) (K.written sink.new)
        (K.faults sink.old) (K.faults sink.new) result }
{
    let text = end_text(alloc, frames, end)?;
    write_line(text.as_str(), sink)
}

/// Writes the line of a bind that failed.
pub fn write_wire_fault<K: Sink>(sink: &mut K) -> Result<(), Cut>
    ensures { WritesLine wire_fault_line (K.written sink.old) (K.written sink.new)
        (K.faults sink.old) (K.faults sink.new) result }
{
    write_line("wire fault\n", sink)
}

/// Writes the line that says why a node does not open.
pub fn write_refusal<K: Sink>(alloc: Global, fault: OpenFault, sink: &mut K) -> Result<(), Cut>
    ensures { WritesLine (open_fault_line fault) (K.written sink.old) (K.written sink.new)
        (K.faults sink.old) (K.faults sink.new) result }
{
    let text = refusal_text(alloc, fault)?;
    write_line(text.as_str(), sink)
}
