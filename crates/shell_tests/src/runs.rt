//! Runs a command on bytes in memory, and looks at what it leaves.

use cl_outside::{Bound, Datagram, MemorySink, MemorySource, Peer, ScriptClock, ScriptWire};
use cl_types::items::NoMemory;
use cl_types::line::Summary;
use cl_types::numbers::ClientNo;
use clio_cli::{Left, Words, run};
use std::alloc::Global;
use world::World;

/// The first worked schedule.
pub(crate) const PATH: &[u8] = b"node 16 8 4 4
client 1 1
call 1 alloc 1 rw
poll 1
deliver next
deliver next
call 1 write 0x1000 616263
poll 1
deliver next
deliver next
call 1 read 0x1000 4
poll 1
deliver next
deliver next
peek 1 0x1000 4
";

/// Its transcript.
pub(crate) const TRANSCRIPT: &[u8] = b"node 16 8 4 4
client 1 1
3 issued 1.1
4 sent 1 1.1.0 id 1
5 executed 1 1.1.0 ok reply 2
6 took 2 1.1.0; answer 1.1 done 0x1000
7 issued 1.2
8 sent 3 1.2.0 id 2
9 executed 3 1.2.0 ok reply 4
10 took 4 1.2.0; answer 1.2 done
11 issued 1.3
12 sent 5 1.3.0 id 3
13 looked 5 1.3.0 ok reply 6
14 took 6 1.3.0; answer 1.3 done 61626300
15 peek 61626300
h 5 0 1.1.0 alloc 1 rw = ok 0x1000
h 9 0 1.2.0 write 0x1000 616263 = ok
h 13 0 1.3.0 read 0x1000 4 = ok 61626300
end 3
";

/// The calls that fail, by their numbers from 1.
#[derive(Clone, Copy)]
pub(crate) enum Failing<'a> {
    Reads(&'a [u64]),
    Writes(&'a [u64]),
    Receives(&'a [u64]),
    Sends(&'a [u64]),
}

/// No call fails.
pub(crate) const NONE: Failing = Failing::Reads(&[]);

/// What wire and clock give.
#[derive(Clone, Copy)]
pub(crate) struct Network<'a> {
    /// What a bind answers.
    pub bound: Bound,
    /// The datagrams that come, each from `PEER`.
    pub datagrams: &'a [&'a [u8]],
    /// What the clock answers; it repeats the last, and is 0 where there is none.
    pub moments: &'a [u64],
}

/// The peer from which datagrams come. No command has its port.
pub(crate) const PEER: Peer = Peer {
    ip: 0x7f00_0001,
    port: 9,
};

/// No bind works, and nothing comes.
pub(crate) const NO_NETWORK: Network = Network {
    bound: Bound::Failed,
    datagrams: &[],
    moments: &[],
};

/// What is shown of a world that is left.
#[derive(Clone, Copy)]
pub(crate) struct Shown {
    pub pages: u32,
    pub replies: u32,
    /// The calls that client 1 issued, and 0 where there is no client 1.
    pub issued: u32,
    pub summary: Summary,
}

/// What is shown of what is left.
#[derive(Clone, Copy)]
pub(crate) enum Kept {
    Nothing,
    World(Shown),
    Node { pages: u32, replies: u32 },
    Client { issued: u32 },
}

/// What a run came to.
#[derive(Drop)]
pub(crate) struct Ran {
    pub status: u8,
    pub written: Vec<u8>,
    pub left: Kept,
    pub wire: ScriptWire,
}

impl Ran {
    /// Whether the run has this status and wrote this text.
    pub(crate) fn is(&self, status: u8, text: &[u8]) -> bool {
        self.status == status && self.written.as_slice() == text
    }

    /// Whether nothing is left.
    pub(crate) fn is_empty(&self) -> bool {
        matches!(self.left, Kept::Nothing)
    }
}

fn words_of(alloc: Global, words: &[&str]) -> Result<Words, NoMemory> {
    let mut all = Words::create(alloc);
    for word in words {
        all.push(word)?;
    }
    Ok(all)
}

fn source(alloc: Global, input: &[u8], failing: Failing) -> Result<MemorySource, NoMemory> {
    let fails = match failing {
        Failing::Reads(fails) => Vec::from_slice(alloc, fails)?,
        Failing::Writes(_) | Failing::Receives(_) | Failing::Sends(_) => Vec::new(alloc),
    };
    Ok(MemorySource::create(Vec::from_slice(alloc, input)?, fails))
}

fn sink(alloc: Global, failing: Failing) -> Result<MemorySink, NoMemory> {
    let fails = match failing {
        Failing::Writes(fails) => Vec::from_slice(alloc, fails)?,
        Failing::Reads(_) | Failing::Receives(_) | Failing::Sends(_) => Vec::new(alloc),
    };
    Ok(MemorySink::create(alloc, fails))
}

fn issued(world: &World) -> u32 {
    if !world.has_client(ClientNo(1)) {
        return 0;
    }
    world.client(ClientNo(1)).issued()
}

fn show(left: &Left) -> Kept {
    match left {
        Left::Nothing => Kept::Nothing,
        Left::Replayed(world) => Kept::World(Shown {
            pages: world.node().used(),
            replies: world.node().retained(),
            issued: issued(world),
            summary: world.finish(),
        }),
        Left::Served(node) => Kept::Node {
            pages: node.used(),
            replies: node.retained(),
        },
        Left::Driven(client) => Kept::Client {
            issued: client.issued(),
        },
    }
}

fn wire(alloc: Global, failing: Failing, network: Network) -> Result<ScriptWire, NoMemory> {
    let (receives, sends) = match failing {
        Failing::Receives(fails) => (Vec::from_slice(alloc, fails)?, Vec::new(alloc)),
        Failing::Sends(fails) => (Vec::new(alloc), Vec::from_slice(alloc, fails)?),
        Failing::Reads(_) | Failing::Writes(_) => (Vec::new(alloc), Vec::new(alloc)),
    };
    let mut datagrams = Vec::new(alloc);
    for bytes in network.datagrams {
        let bytes = Vec::from_slice(alloc, bytes)?;
        datagrams
            .push(Datagram { bytes, from: PEER })
            .map_err(|_| NoMemory)?;
    }
    Ok(ScriptWire::create(alloc, network.bound, datagrams, receives, sends))
}

/// The status of a command, and what is shown of what it leaves. No other function owns that, since each that drops a world
/// takes the prover long.
fn serve(
    alloc: Global,
    words: &Words,
    source: &mut MemorySource,
    sink: &mut MemorySink,
    wire: &mut ScriptWire,
    clock: &mut ScriptClock,
) -> (u8, Kept) {
    let mut left = Left::Nothing;
    let status = run(alloc, words, source, sink, wire, clock, &mut left);
    (status, show(&left))
}

/// Runs a command on an input, over a network.
pub(crate) fn run_over(
    alloc: Global,
    words: &[&str],
    input: &[u8],
    failing: Failing,
    network: Network,
) -> Result<Ran, NoMemory> {
    let words = words_of(alloc, words)?;
    let mut source = source(alloc, input, failing)?;
    let mut sink = sink(alloc, failing)?;
    let mut clock = ScriptClock::create(Vec::from_slice(alloc, network.moments)?);
    let mut wire = wire(alloc, failing, network)?;
    let (status, left) = serve(alloc, &words, &mut source, &mut sink, &mut wire, &mut clock);
    Ok(Ran {
        status,
        written: Vec::from_slice(alloc, sink.bytes())?,
        left,
        wire,
    })
}

/// Runs a command on an input.
pub(crate) fn run_on(
    alloc: Global,
    words: &[&str],
    input: &[u8],
    failing: Failing,
) -> Result<Ran, NoMemory> {
    run_over(alloc, words, input, failing, NO_NETWORK)
}
