//! Serving a node on a port.

ghost use Rattle.std.specs.Prelude.{◌≡◌, ◌≤◌};
ghost use Rattle.wire_loop.specs.Serves.{incoming, told_of};
ghost use Rattle.wire_loop.specs.Wired.{wired};
ghost use Rattle.node_command.specs.Ends.{NodeEnds, numbers};
ghost use Rattle.node_command.specs.Writing.{EndsFrom, EndsOn, EndsRefused, ends_by, is_memory};

use crate::lines::{write_end, write_port, write_refusal, write_wire_fault};
use crate::node_end::{Cut, NodeEnd, end_of_cut, end_of_serving};
use cl_outside::{Bound, Clock, Sink, Wire};
use cl_types::config::NodeConfig;
use cl_types::open_fault::OpenFault;
use node_core::Node;
use std::alloc::Global;
use wire_loop::{ServeEnd, serve};

/// Whether a node does not open for a refused allocation.
fn is_memory(fault: OpenFault) -> bool
    ensures { result ≡ is_memory fault }
{
    match fault {
        OpenFault::NoMemory => true,
        OpenFault::BadConfig { .. } | OpenFault::NoRoom { .. } => false,
    }
}

/// Writes why a node does not open. Nothing is written where it was memory.
fn refuse<K: Sink>(alloc: Global, fault: OpenFault, sink: &mut K) -> NodeEnd
    ensures { EndsRefused fault (K.written sink.old) (K.written sink.new)
        (K.faults sink.old) (K.faults sink.new) result }
{
    if is_memory(fault) {
        return NodeEnd::NoMemory;
    }
    match write_refusal(alloc, fault, sink) {
        Ok(()) => NodeEnd::BadNode,
        Err(cut) => end_of_cut(cut),
    }
}

/// Writes the port that was bound, serves the node, and writes how that ended.
fn serve_bound<W: Wire, C: Clock, K: Sink>(
    alloc: Global,
    port: u16,
    node: &mut Node,
    frames: u32,
    idles: u32,
    wire: &mut W,
    clock: &mut C,
    sink: &mut K,
) -> Result<ServeEnd, Cut>
    requires frames { 1 ≤ frames }
    requires idles { 1 ≤ idles }
    ensures { EndsFrom port node.old frames idles
        (wired (told_of (incoming (W.coming wire.old) (W.idles wire.old)) (W.sent wire.old) (C.moments clock.old))
        (W.last_bind wire.old) (W.faults wire.old) (K.written sink.old) (K.faults sink.old))
        (wired (told_of (incoming (W.coming wire.new) (W.idles wire.new)) (W.sent wire.new) (C.moments clock.new))
        (W.last_bind wire.new) (W.faults wire.new) (K.written sink.new) (K.faults sink.new))
        (ends_by result node.new) }
{
    write_port(alloc, port, sink)?;
    let end = serve(node, wire, clock, frames, idles);
    write_end(alloc, frames, end, sink)?;
    Ok(end)
}

/// Binds the port, and serves the node on it. A bind that failed ends serving as a receive that
/// failed does.
fn serve_on<W: Wire, C: Clock, K: Sink>(
    alloc: Global,
    port: u16,
    node: &mut Node,
    frames: u32,
    idles: u32,
    wire: &mut W,
    clock: &mut C,
    sink: &mut K,
) -> Result<ServeEnd, Cut>
    requires frames { 1 ≤ frames }
    requires idles { 1 ≤ idles }
    ensures { EndsOn port node.old frames idles
        (wired (told_of (incoming (W.coming wire.old) (W.idles wire.old)) (W.sent wire.old) (C.moments clock.old))
        (W.last_bind wire.old) (W.faults wire.old) (K.written sink.old) (K.faults sink.old))
        (wired (told_of (incoming (W.coming wire.new) (W.idles wire.new)) (W.sent wire.new) (C.moments clock.new))
        (W.last_bind wire.new) (W.faults wire.new) (K.written sink.new) (K.faults sink.new))
        (ends_by result node.new) }
{
    match wire.bind(port) {
        Bound::Port(bound) => serve_bound(alloc, bound, node, frames, idles, wire, clock, sink),
        Bound::Failed => {
            write_wire_fault(sink)?;
            Ok(ServeEnd::WireFault { frames: 0 })
        }
    }
}

/// The command `node`: opens a node with this configuration, binds `port`, or any free port where
/// it is 0, and serves until `frames` datagrams were served, nothing came in `idles` turns in a
/// row, or the wire failed.
///
/// It writes `port P` with the port that was bound before it receives anything, and at the end
/// `served F` or `idle F` with the number of datagrams that were served, or `wire fault`. A node
/// that does not open is reported by one line, `bad node: ..`, and nothing is bound; after a bind
/// that failed `wire fault` is the only line.
///
/// Each failure ends the command. After a write fault a prefix of the line was written; where
/// there was no memory for a line, none of it was, and all lines before it were.
pub fn serve_node<W: Wire, C: Clock, K: Sink>(
    alloc: Global,
    port: u16,
    config: &NodeConfig,
    frames: u32,
    idles: u32,
    wire: &mut W,
    clock: &mut C,
    sink: &mut K,
) -> NodeEnd
    requires frames { 1 ≤ frames }
    requires idles { 1 ≤ idles }
    ensures ends { NodeEnds (numbers port config.now frames idles)
        (wired (told_of (incoming (W.coming wire.old) (W.idles wire.old)) (W.sent wire.old) (C.moments clock.old))
        (W.last_bind wire.old) (W.faults wire.old) (K.written sink.old) (K.faults sink.old))
        (wired (told_of (incoming (W.coming wire.new) (W.idles wire.new)) (W.sent wire.new) (C.moments clock.new))
        (W.last_bind wire.new) (W.faults wire.new) (K.written sink.new) (K.faults sink.new))
        result }
{
    match Node::create(alloc, config) {
        Ok(mut node) => {
            let ended = serve_on(alloc, port, &mut node, frames, idles, wire, clock, sink);
            end_of_serving(ended, node)
        }
        Err(fault) => refuse(alloc, fault, sink),
    }
}
