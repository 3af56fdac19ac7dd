//! Serving a node.

ghost use Rattle.std.specs.Prelude.{◌≡◌, ◌≤◌, length};
ghost use Rattle.cl_types.specs.declared.limits.TheConstants.{FRAME_ROOM};
ghost use Rattle.wire_loop.specs.Outside.{Datagram};
ghost use Rattle.wire_loop.specs.Serves.{CountsServe, Serves, incoming, told_of};
ghost use Rattle.wire_loop.specs.Turns.{Answers, CountsTurn, IsTurnEnd, Turns, TurnsOn};

use cl_outside::{Clock, Peer, Recv, Sent, Wire};
use cl_types::limits::FRAME_ROOM;
use node_core::{Node, Outcome};

/// Why serving a node ended.
#[derive(Clone, Copy, Debug, PartialEq, Eq)]
pub enum ServeEnd {
    /// As many datagrams were served as were asked for.
    Frames,
    /// Nothing came in so many turns in a row. `frames` datagrams were served.
    Idles { frames: u32 },
    /// A receive or a send failed. `frames` datagrams were served.
    WireFault { frames: u32 },
}

/// How a turn ended.
#[derive(Clone, Copy, Debug, PartialEq, Eq)]
pub enum TurnEnd {
    /// A datagram was given to the node, this came of it, and a reply, where there is one, was sent.
    Served(Outcome),
    /// A datagram was given to the node, this came of it, and the send of its reply failed.
    Unsent(Outcome),
    /// Nothing came.
    Idle,
    /// The receive failed.
    Failed,
}

/// Gives a datagram to the node at the time `now`, in ticks, and sends its reply back.
fn answer<W: Wire>(
    node: &mut Node,
    wire: &mut W,
    now: u64,
    from: Peer,
    bytes: &[u8],
    out: &mut [u8],
) -> TurnEnd
    requires later { node.old.last ≤ now }
    requires room { length out.old ≡ FRAME_ROOM }
    ensures answers { Answers node.old.node node.new.node (W.sent wire.old) (W.sent wire.new)
        from now bytes.now result }
    ensures came { IsTurnEnd node.old.node now (Datagram bytes.now from) result }
    ensures last { node.new.last ≡ now }
    ensures coming { incoming (W.coming wire.new) (W.idles wire.new) ≡ incoming (W.coming wire.old) (W.idles wire.old) }
    ensures counts { CountsTurn (W.faults wire.old) (W.faults wire.new) result }
    ensures bind { W.last_bind wire.new ≡ W.last_bind wire.old }
    ensures size { length out.new ≡ FRAME_ROOM }
{
    let outcome = node.handle(now, bytes, out);
    match outcome {
        Outcome::Replied {
            len,
            how: _,
            status: _,
        } => match wire.send(from, &out[..len]) {
            Sent::Sent => TurnEnd::Served(outcome),
            Sent::Failed => TurnEnd::Unsent(outcome),
        },
        Outcome::Busy { oldest: _, now: _ } => TurnEnd::Served(outcome),
        Outcome::Bad(_fault) => TurnEnd::Served(outcome),
    }
}

/// Gives a datagram from this peer to the node at the clock's moment, and sends its reply back. `out` has
/// `FRAME_ROOM` bytes. It takes no memory.
pub fn serve_datagram<W: Wire, C: Clock>(
    node: &mut Node,
    wire: &mut W,
    clock: &mut C,
    from: Peer,
    bytes: &[u8],
    out: &mut [u8],
) -> TurnEnd
    requires room { length out.old ≡ FRAME_ROOM }
    ensures turns { TurnsOn (Datagram bytes.now from) node.old node.new (W.sent wire.old) (W.sent wire.new)
        (C.moments clock.old) (C.moments clock.new) result }
    ensures coming { incoming (W.coming wire.new) (W.idles wire.new) ≡ incoming (W.coming wire.old) (W.idles wire.old) }
    ensures counts { CountsTurn (W.faults wire.old) (W.faults wire.new) result }
    ensures bind { W.last_bind wire.new ≡ W.last_bind wire.old }
    ensures size { length out.new ≡ FRAME_ROOM }
{
    let now = clock.now().max(node.last());
    answer(node, wire, now, from, bytes, out)
}

/// Receives once, and serves what came. It takes no memory.
fn turn<W: Wire, C: Clock>(
    node: &mut Node,
    wire: &mut W,
    clock: &mut C,
    frame: &mut [u8],
    out: &mut [u8],
) -> TurnEnd
    requires frame_room { length frame.old ≡ FRAME_ROOM }
    requires out_room { length out.old ≡ FRAME_ROOM }
    ensures turns { Turns node.old node.new
        (told_of (incoming (W.coming wire.old) (W.idles wire.old)) (W.sent wire.old) (C.moments clock.old))
        (told_of (incoming (W.coming wire.new) (W.idles wire.new)) (W.sent wire.new) (C.moments clock.new))
        result }
    ensures counts { CountsTurn (W.faults wire.old) (W.faults wire.new) result }
    ensures bind { W.last_bind wire.new ≡ W.last_bind wire.old }
    ensures frame_size { length frame.new ≡ FRAME_ROOM }
    ensures out_size { length out.new ≡ FRAME_ROOM }
{
    match wire.recv(frame) {
        Recv::Got { len, from } => serve_datagram(node, wire, clock, from, &frame[..len], out),
        Recv::Idle => TurnEnd::Idle,
        Recv::Failed => TurnEnd::Failed,
    }
}

/// Serves a node until `frames` datagrams were served, nothing came in `idles` turns in a row, or the wire failed.
/// Each turn receives once; a datagram is given to the node, and its reply is sent to where it came from. It takes no
/// memory.
pub fn serve<W: Wire, C: Clock>(
    node: &mut Node,
    wire: &mut W,
    clock: &mut C,
    frames: u32,
    idles: u32,
) -> ServeEnd
    requires frames { 1 ≤ frames }
    requires idles { 1 ≤ idles }
    ensures serves { Serves frames idles node.old node.new
        (told_of (incoming (W.coming wire.old) (W.idles wire.old)) (W.sent wire.old) (C.moments clock.old))
        (told_of (incoming (W.coming wire.new) (W.idles wire.new)) (W.sent wire.new) (C.moments clock.new))
        result }
    ensures counts { CountsServe (W.faults wire.old) (W.faults wire.new) result }
    ensures bind { W.last_bind wire.new ≡ W.last_bind wire.old }
{
    let mut frame = [0u8; FRAME_ROOM];
    let mut out = [0u8; FRAME_ROOM];
    let mut served = 0;
    let mut idle = 0;
    while served < frames && idle < idles {
        match turn(node, wire, clock, &mut frame, &mut out) {
            TurnEnd::Served(_outcome) => {
                served += 1;
                idle = 0;
            }
            TurnEnd::Idle => idle += 1,
            TurnEnd::Unsent(_outcome) => return ServeEnd::WireFault { frames: served },
            TurnEnd::Failed => return ServeEnd::WireFault { frames: served },
        }
    }
    if served == frames {
        return ServeEnd::Frames;
    }
    ServeEnd::Idles { frames: served }
}
