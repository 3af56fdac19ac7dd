//! The commands over a wire: serving a node, and driving a client.

ghost use Rattle.std.specs.Prelude.{◌≡◌, ◌≤◌, length};
ghost use Rattle.cl_types.specs.declared.limits.TheConstants.{INPUT_LINES};
ghost use Rattle.wire_loop.specs.Serves.{incoming, told_of};
ghost use Rattle.wire_loop.specs.Wired.{wired};
ghost use Rattle.clio_cli.specs.Run.{client_status, node_status};
ghost use Rattle.clio_cli.specs.Wanted.{DrivesClient, ServesNode, client_left, node_left};
ghost use Rattle.clio_cli.specs.Words.{client_task, config_of, node_numbers};

use crate::words::{ClientWords, NodeWords};
use cl_outside::{Clock, Sink, Wire};
use cl_types::config::{NodeConfig, OffloadList};
use cl_types::schedule::Script;
use client_command::{ClientEnd, drive_client};
use command_text::{Left, Status};
use node_command::{NodeEnd, serve_node};
use std::alloc::Global;

/// The configuration of a node that is served.
fn config_of(alloc: Global, words: NodeWords) -> NodeConfig
    ensures { result ≡ config_of words }
{
    NodeConfig {
        pages: words.pages,
        buckets: words.buckets,
        ring: words.ring,
        retry: words.retry,
        offloads: OffloadList::create(alloc),
    }
}

/// Leaves a node that was served to its end, and answers the status of that end.
fn keep_node(end: NodeEnd, left: &mut Left) -> Status
    requires nothing { left.old ≡ Left.Nothing }
    ensures status { result ≡ node_status end }
    ensures left { left.new ≡ node_left end }
{
    match end {
        NodeEnd::Served(node) => {
            *left = Left::Served(node);
            Status::Ok
        }
        NodeEnd::BadNode => Status::BadNode,
        NodeEnd::WireFault => Status::WireFault,
        NodeEnd::WriteFault => Status::WriteFault,
        NodeEnd::NoMemory => Status::NoMemory,
    }
}

/// Serves a node, and leaves it.
pub fn serve_words<W: Wire, C: Clock, K: Sink>(
    alloc: Global,
    words: NodeWords,
    wire: &mut W,
    clock: &mut C,
    sink: &mut K,
    left: &mut Left,
) -> Status
    requires nothing { left.old ≡ Left.Nothing }
    requires counts { (1 ≤ words.frames) × (1 ≤ words.idles) }
    ensures { ServesNode (node_numbers words)
        (wired (told_of (incoming (W.coming wire.old) (W.idles wire.old)) (W.sent wire.old) (C.moments clock.old))
        (W.last_bind wire.old) (W.faults wire.old) (K.written sink.old) (K.faults sink.old))
        (wired (told_of (incoming (W.coming wire.new) (W.idles wire.new)) (W.sent wire.new) (C.moments clock.new))
        (W.last_bind wire.new) (W.faults wire.new) (K.written sink.new) (K.faults sink.new))
        left.new result }
{
    let config = config_of(alloc, words);
    let end = serve_node(
        alloc,
        words.port,
        &config,
        words.frames,
        words.idles,
        wire,
        clock,
        sink,
    );
    keep_node(end, left)
}

/// Leaves a client that was driven to the end of its script, and answers the status of that end.
fn keep_client(end: ClientEnd, left: &mut Left) -> Status
    requires nothing { left.old ≡ Left.Nothing }
    ensures status { result ≡ client_status end }
    ensures left { left.new ≡ client_left end }
{
    match end {
        ClientEnd::Driven(client) => {
            *left = Left::Driven(client);
            Status::Ok
        }
        ClientEnd::Stalled => Status::Stalled,
        ClientEnd::WireFault => Status::WireFault,
        ClientEnd::WriteFault => Status::WriteFault,
        ClientEnd::NoMemory => Status::NoMemory,
    }
}

/// Drives a client through a script, and leaves it.
pub fn drive_words<W: Wire, C: Clock, K: Sink>(
    alloc: Global,
    words: ClientWords,
    script: &Script,
    wire: &mut W,
    clock: &mut C,
    sink: &mut K,
    left: &mut Left,
) -> Status
    requires nothing { left.old ≡ Left.Nothing }
    requires few { length script.now.calls ≤ INPUT_LINES }
    ensures { DrivesClient (client_task words script.now.calls)
        (wired (told_of (incoming (W.coming wire.old) (W.idles wire.old)) (W.sent wire.old) (C.moments clock.old))
        (W.last_bind wire.old) (W.faults wire.old) (K.written sink.old) (K.faults sink.old))
        (wired (told_of (incoming (W.coming wire.new) (W.idles wire.new)) (W.sent wire.new) (C.moments clock.new))
        (W.last_bind wire.new) (W.faults wire.new) (K.written sink.new) (K.faults sink.new))
        left.new result }
{
    let end = drive_client(
        alloc,
        words.port,
        words.client,
        words.pid,
        script,
        wire,
        clock,
        sink,
    );
    keep_client(end, left)
}
