//! Tests of `node` and `client` where a call of the wire, the sink or the source fails.

use crate::network::ALLOC;
use crate::runs::{Failing, Network, run_over};
use cl_outside::Bound;
use cl_types::items::NoMemory;
use std::alloc::Global;
use std::test::Fail;

/// The calls that fail, how the run ends, and how many datagrams were sent before.
#[derive(Clone, Copy)]
struct Broken<'a> {
    failing: Failing<'a>,
    status: u8,
    text: &'a [u8],
    sent: usize,
}

/// A node is sent an Alloc, junk, and the Alloc again.
const NODE: &[Broken] = &[
    Broken {
        failing: Failing::Receives(&[1]),
        status: 6,
        text: b"port 7000\nwire fault\n",
        sent: 0,
    },
    Broken {
        failing: Failing::Receives(&[2]),
        status: 6,
        text: b"port 7000\nwire fault\n",
        sent: 1,
    },
    Broken {
        failing: Failing::Receives(&[3]),
        status: 6,
        text: b"port 7000\nwire fault\n",
        sent: 1,
    },
    Broken {
        failing: Failing::Sends(&[1]),
        status: 6,
        text: b"port 7000\nwire fault\n",
        sent: 0,
    },
    Broken {
        failing: Failing::Sends(&[2]),
        status: 6,
        text: b"port 7000\nwire fault\n",
        sent: 1,
    },
    Broken {
        failing: Failing::Writes(&[1]),
        status: 4,
        text: b"",
        sent: 0,
    },
    Broken {
        failing: Failing::Writes(&[2]),
        status: 4,
        text: b"port 7000\n",
        sent: 2,
    },
];

/// A client of one call gets no reply. It sends at the times 0, 100, 200 and 300, and receives at 50.
const CLIENT: &[Broken] = &[
    Broken {
        failing: Failing::Reads(&[1]),
        status: 3,
        text: b"",
        sent: 0,
    },
    Broken {
        failing: Failing::Sends(&[1]),
        status: 6,
        text: b"wire fault\n",
        sent: 0,
    },
    Broken {
        failing: Failing::Sends(&[4]),
        status: 6,
        text: b"wire fault\n",
        sent: 3,
    },
    Broken {
        failing: Failing::Receives(&[1]),
        status: 6,
        text: b"wire fault\n",
        sent: 1,
    },
    Broken {
        failing: Failing::Writes(&[1]),
        status: 4,
        text: b"",
        sent: 4,
    },
];

/// Whether a run of these words ends so.
fn ends(
    alloc: Global,
    words: &[&str],
    input: &[u8],
    network: Network,
    broken: Broken,
) -> Result<bool, NoMemory> {
    let ran = run_over(alloc, words, input, broken.failing, network)?;
    Ok(ran.is(broken.status, broken.text) && ran.is_empty() && ran.wire.sent().len() == broken.sent)
}

/// The first run of these words that ends otherwise, by its place from 0.
fn first_off(
    alloc: Global,
    words: &[&str],
    input: &[u8],
    network: Network,
    table: &[Broken],
) -> Result<Option<usize>, NoMemory> {
    for (at, broken) in table.iter().enumerate() {
        if !ends(alloc, words, input, network, *broken)? {
            return Ok(Some(at));
        }
    }
    Ok(None)
}

/// The first failure after which a node ends otherwise.
fn node_off(alloc: Global) -> Result<Option<usize>, NoMemory> {
    let network = Network {
        bound: Bound::Port(7000),
        datagrams: &[ALLOC, b"CL", ALLOC],
        moments: &[],
    };
    let words = ["node", "0", "16", "8", "4", "4", "3", "1000"];
    first_off(alloc, &words, b"", network, NODE)
}

#[test]
fn a_node_ends_at_its_first_failure(rt: HostRuntime) -> Result<(), Fail> {
    assert!(rt; node_off(rt.alloc())?.is_none());
    Ok(())
}

/// The first failure after which a client ends otherwise.
fn client_off(alloc: Global) -> Result<Option<usize>, NoMemory> {
    let network = Network {
        bound: Bound::Port(7001),
        datagrams: &[],
        moments: &[0, 50, 100, 200, 300, 400],
    };
    let words = ["client", "7000", "1", "1"];
    first_off(alloc, &words, b"alloc 1 rw\n", network, CLIENT)
}

#[test]
fn a_client_ends_at_its_first_failure(rt: HostRuntime) -> Result<(), Fail> {
    assert!(rt; client_off(rt.alloc())?.is_none());
    Ok(())
}
