//! The command: it binds, drives, and writes why it ended.

ghost use Rattle.std.specs.Prelude.{◌≡◌, ◌≤◌, length};
ghost use Rattle.cl_types.specs.declared.limits.TheConstants.{INPUT_LINES};
ghost use Rattle.wire_loop.specs.Serves.{incoming, told_of};
ghost use Rattle.wire_loop.specs.Wired.{wired};
ghost use Rattle.client_command.specs.Ends.{ClientEnds, node_at, task_of};

use crate::ends::ClientEnd;
use crate::lines::{end_stalled, end_wire_fault};
use cl_outside::{Bound, Clock, Peer, Sink, Wire};
use cl_types::numbers::{ClientNo, Pid};
use cl_types::schedule::Script;
use client_core::Client;
use std::alloc::Global;
use wire_loop::{DriveEnd, drive};

/// The peer at a port of the same machine.
fn peer_at(port: u16) -> Peer
    ensures { result ≡ node_at port }
{
    Peer {
        ip: 0x7f00_0001,
        port,
    }
}

/// Drives a new client of the process `pid` through a script against the node at `node_port` of the
/// same machine, from any free port. A script has at most 200,000 calls.
///
/// What the calls came to is written as it comes. A client that stalls is reported by the line
/// `stalled: moment M turns 1000000` after that text, and a bind, a receive or a send that failed by
/// the line `wire fault`. A failed write ends the command, and so does a refused allocation.
pub fn drive_client<W: Wire, C: Clock, K: Sink>(
    alloc: Global,
    node_port: u16,
    no: ClientNo,
    pid: Pid,
    script: &Script,
    wire: &mut W,
    clock: &mut C,
    sink: &mut K,
) -> ClientEnd
    requires few { length script.now.calls ≤ INPUT_LINES }
    ensures { ClientEnds (task_of node_port no pid script.now.calls)
        (wired (told_of (incoming (W.coming wire.old) (W.idles wire.old)) (W.sent wire.old) (C.moments clock.old))
        (W.last_bind wire.old) (W.faults wire.old) (K.written sink.old) (K.faults sink.old))
        (wired (told_of (incoming (W.coming wire.new) (W.idles wire.new)) (W.sent wire.new) (C.moments clock.new))
        (W.last_bind wire.new) (W.faults wire.new) (K.written sink.new) (K.faults sink.new))
        result }
{
    let Ok(client) = Client::create(alloc, no, pid) else {
        return ClientEnd::NoMemory;
    };
    let Bound::Port(_port) = wire.bind(0) else {
        return end_wire_fault(sink);
    };
    let mut client = client;
    match drive(
        alloc,
        &mut client,
        script,
        peer_at(node_port),
        wire,
        clock,
        sink,
    ) {
        DriveEnd::AllEnded => ClientEnd::Driven(client),
        DriveEnd::Stalled { moment, turns } => end_stalled(alloc, moment, turns, sink),
        DriveEnd::WireFault => end_wire_fault(sink),
        DriveEnd::WriteFault => ClientEnd::WriteFault,
        DriveEnd::NoMemory => ClientEnd::NoMemory,
    }
}
