//! One turn of a node that is served until it is stopped.

ghost use Rattle.std.specs.Prelude.{◌≡◌, length};
ghost use Rattle.cl_types.specs.declared.limits.TheConstants.{FRAME_ROOM};
ghost use Rattle.wire_loop.specs.Serves.{incoming, told_of};
ghost use Rattle.daemon.specs.Turns.{IsTurn};

use crate::networks::{Network, is_allowed};
use cl_outside::{Clock, Peer, Recv, Wire};
use node_core::Node;
use wire_loop::{TurnEnd, serve_datagram};

/// What came of a turn.
#[derive(Clone, Copy, Debug, PartialEq, Eq)]
pub enum Turn {
    /// A datagram came from a peer that isn't allowed. The node was not given it.
    Dropped(Peer),
    /// A datagram came from this peer, and was served so.
    Served(Peer, TurnEnd),
    /// Nothing came.
    Idle,
    /// The receive failed.
    Failed,
}

/// Receives once, and serves what came from a peer of these networks. Both buffers have `FRAME_ROOM` bytes. It
/// takes no memory.
pub fn take_turn<W: Wire, C: Clock>(
    node: &mut Node,
    wire: &mut W,
    clock: &mut C,
    allowed: &[Network],
    frame: &mut [u8],
    out: &mut [u8],
) -> Turn
    requires frame_room { length frame.old ≡ FRAME_ROOM }
    requires out_room { length out.old ≡ FRAME_ROOM }
    ensures turn { IsTurn allowed.now result node.old node.new
        (told_of (incoming (W.coming wire.old) (W.idles wire.old)) (W.sent wire.old) (C.moments clock.old))
        (told_of (incoming (W.coming wire.new) (W.idles wire.new)) (W.sent wire.new) (C.moments clock.new)) }
    ensures bind { W.last_bind wire.new ≡ W.last_bind wire.old }
    ensures frame_size { length frame.new ≡ FRAME_ROOM }
    ensures out_size { length out.new ≡ FRAME_ROOM }
{
    match wire.recv(frame) {
        Recv::Got { len, from } => {
            if !is_allowed(allowed, from) {
                return Turn::Dropped(from);
            }
            let end = serve_datagram(node, wire, clock, from, &frame[..len], out);
            Turn::Served(from, end)
        }
        Recv::Idle => Turn::Idle,
        Recv::Failed => Turn::Failed,
    }
}
