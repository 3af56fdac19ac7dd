//! Serving a node until it is stopped.

ghost use Rattle.std.specs.Prelude.{◌≡◌};
ghost use Rattle.wire_loop.specs.Serves.{incoming, told_of};
ghost use Rattle.daemon.specs.Service.{Serviced};

use crate::counts::Counts;
use crate::networks::Network;
use crate::reports::Reports;
use crate::turns::take_turn;
use cl_outside::{Clock, Wire};
use cl_types::limits::FRAME_ROOM;
use node_core::Node;
use std::io::{Eprint, Print};

/// After how many failed receives in a row a node is served no longer.
pub const MOST_FAILURES: u64 = 1_000;

/// Serves a node to the peers of these networks, and tells of it by `reports`. A reply that can't be sent and a
/// datagram that is dropped are counted, and the next turn follows. It ends where the wire is out of order, after
/// `MOST_FAILURES` failed receives in a row, or after 2^64 - 1 turns; else it goes on until the program is
/// stopped. The counts are those of all turns.
pub fn serve_until_stopped<R: Print + Eprint, W: Wire, C: Clock, T: Clock>(
    rt: &R,
    node: &mut Node,
    wire: &mut W,
    clock: &mut C,
    allowed: &[Network],
    reports: &mut Reports<T>,
) -> Counts
    ensures serves { Serviced allowed.now node.old node.new
        (told_of (incoming (W.coming wire.old) (W.idles wire.old)) (W.sent wire.old) (C.moments clock.old))
        (told_of (incoming (W.coming wire.new) (W.idles wire.new)) (W.sent wire.new) (C.moments clock.new))
        result }
    ensures bind { W.last_bind wire.new ≡ W.last_bind wire.old }
{
    let mut frame = [0u8; FRAME_ROOM];
    let mut out = [0u8; FRAME_ROOM];
    let mut counts = Counts::none();
    let mut turns = 0u64;
    while turns < u64::MAX && counts.failed_in_a_row < MOST_FAILURES {
        let turn = take_turn(node, wire, clock, allowed, &mut frame, &mut out);
        counts = counts.with(turn);
        reports.tell(rt, turn, &counts, node);
        turns += 1;
    }
    counts
}
