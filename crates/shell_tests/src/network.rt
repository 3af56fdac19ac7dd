//! Tests of `node` and `client` over a wire and a clock in memory.

use crate::runs::{Kept, NONE, Network, PEER, run_over};
use cl_outside::{Bound, Peer, ScriptWire};
use cl_types::items::NoMemory;
use std::alloc::Global;
use std::test::Fail;

/// An Alloc of one page, of client 1 and process 1.
pub(crate) const ALLOC: &[u8] =
    b"CL\x01\x01\x00\x01\x00\x01\x00\x00\x00\x00\x00\x00\x00\x01\x00\x00\x00\x00\x00\x00\x00\x01\x00\x03\x00\x01\x03";

/// Its reply: the page at 0x1000.
const ALLOCATED: &[u8] =
    b"CL\x01\x81\x00\x01\x00\x01\x00\x00\x00\x00\x00\x00\x00\x01\x00\x00\x00\x00\x00\x00\x00\x01\x00\x05\x00\x00\x00\x10\x00";

/// The node that a client is told.
const NODE: Peer = Peer {
    ip: 0x7f00_0001,
    port: 7000,
};

/// Whether so many datagrams were sent, each to this peer.
fn go_to(wire: &ScriptWire, peer: Peer, times: usize) -> bool {
    wire.sent().len() == times && wire.sent().iter().all(|datagram| datagram.from == peer)
}

/// Whether this was sent to the peer, so many times, and nothing else was.
fn is_sent(wire: &ScriptWire, bytes: &[u8], times: usize) -> bool {
    go_to(wire, PEER, times)
        && wire
            .sent()
            .iter()
            .all(|datagram| datagram.bytes.as_slice() == bytes)
}

/// Whether a node answers a request that comes twice with the same reply, and lets junk between go by.
fn serves(alloc: Global) -> Result<bool, NoMemory> {
    let network = Network {
        bound: Bound::Port(7000),
        datagrams: &[ALLOC, b"CL", ALLOC],
        moments: &[],
    };
    let words = ["node", "0", "16", "8", "4", "4", "3", "1000"];
    let ran = run_over(alloc, &words, b"", NONE, network)?;
    let is_left = matches!(
        ran.left,
        Kept::Node {
            pages: 0,
            replies: 1
        }
    );
    Ok(ran.is(0, b"port 7000\nserved 3\n") && is_left && is_sent(&ran.wire, ALLOCATED, 2))
}

#[test]
fn a_repeated_request_gets_its_reply_again(rt: HostRuntime) -> Result<(), Fail> {
    assert!(rt; serves(rt.alloc())?);
    Ok(())
}

/// Whether a node to which nothing comes ends after its idle turns.
fn ends_idle(alloc: Global) -> Result<bool, NoMemory> {
    let network = Network {
        bound: Bound::Port(7000),
        datagrams: &[],
        moments: &[],
    };
    let words = ["node", "0", "16", "8", "4", "4", "3", "5"];
    let ran = run_over(alloc, &words, b"", NONE, network)?;
    let is_left = matches!(
        ran.left,
        Kept::Node {
            pages: 0,
            replies: 0
        }
    );
    Ok(ran.is(0, b"port 7000\nidle 0\n") && is_left && go_to(&ran.wire, PEER, 0))
}

#[test]
fn a_node_to_which_nothing_comes_ends_idle(rt: HostRuntime) -> Result<(), Fail> {
    assert!(rt; ends_idle(rt.alloc())?);
    Ok(())
}

/// How a client's script of one Alloc ends over a wire that gives nothing, by what the clock answers.
#[derive(Clone, Copy)]
struct Alone<'a> {
    moments: &'a [u64],
    /// How many datagrams are sent.
    sent: usize,
    status: u8,
    text: &'a [u8],
}

const ALONE: &[Alone] = &[
    Alone {
        moments: &[0, 100, 200, 300, 400],
        sent: 4,
        status: 0,
        text: b"1 timed out 0 400\n",
    },
    Alone {
        moments: &[0],
        sent: 1,
        status: 9,
        text: b"stalled: moment 0 turns 1000000\n",
    },
];

fn ends(alloc: Global, alone: Alone) -> Result<bool, NoMemory> {
    let network = Network {
        bound: Bound::Port(7001),
        datagrams: &[],
        moments: alone.moments,
    };
    let ran = run_over(
        alloc,
        &["client", "7000", "1", "1"],
        b"alloc 1 rw\n",
        NONE,
        network,
    )?;
    let is_left = match ran.left {
        Kept::Client { issued } => alone.status == 0 && issued == 1,
        Kept::Nothing => alone.status != 0,
        _ => false,
    };
    Ok(ran.is(alone.status, alone.text) && is_left && go_to(&ran.wire, NODE, alone.sent))
}

/// Whether each ends so.
fn all_end(alloc: Global) -> Result<bool, NoMemory> {
    for alone in ALONE {
        if !ends(alloc, *alone)? {
            return Ok(false);
        }
    }
    Ok(true)
}

#[test]
fn a_client_without_a_node_times_out_or_stalls(rt: HostRuntime) -> Result<(), Fail> {
    assert!(rt; all_end(rt.alloc())?);
    Ok(())
}
