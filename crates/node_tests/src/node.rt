//! Tests of `node_core`: frames that are handed to a node one after the other, and what it answers.

ghost use Rattle.std.specs.Prelude.{◌≡◌, ◌<◌, ◌≤◌};

use cl_types::config::{NodeConfig, OffloadConfig, OffloadList};
use cl_types::frame::How;
use cl_types::items::NoMemory;
use cl_types::limits::FRAME_ROOM;
use cl_types::numbers::{Addr, Space16, Vpn, try_pid};
use cl_types::open_fault::OpenFault;
use cl_types::reply::Refusal;
use cl_types::steps::Steps;
use node_core::{Node, Outcome};
use std::alloc::Global;
use std::marker::Brand;
use std::sync::ledger::{Blank, Ledger};
use std::test::Fail;

// The kinds of requests, as a frame has them.
const ALLOC: u8 = 1;

const FREE: u8 = 2;

const READ: u8 = 3;

const WRITE: u8 = 4;

const ATOMIC: u8 = 5;

const OFFLOAD: u8 = 6;

/// A request of client 1 and process 1 at a moment: the moment, the id, the kind and the body, and what is told of it.
type Row<'a> = (u64, u64, (u8, &'a [u8]), Told<'a>);

/// What is told of a request.
#[derive(Clone, Copy)]
enum Told<'a> {
    /// It was executed, and this is the body of its reply.
    Executed(&'a [u8]),
    /// Its reply was recorded before.
    Repeated(&'a [u8]),
    /// It was looked up.
    Looked(&'a [u8]),
    /// The records are full, and the oldest is of this moment.
    Busy(u64),
    /// It was handled with nothing counted, and executed, and this is the body of its reply.
    Handled(&'a [u8]),
}

/// So many pages, buckets and kept replies of a node, and whether it has a store of two records.
#[derive(Clone, Copy)]
struct Sizes {
    pages: u64,
    buckets: u64,
    retry: u64,
    store: bool,
}

/// What is seen of a node after some requests.
#[derive(Clone, Copy)]
struct Seen {
    /// The first request of which another thing was told, by its place from 0.
    off: Option<usize>,
    /// How many pages are taken, and how many replies are kept.
    counts: (u32, u32),
    /// The word at the start of page 1 of process 1, and of page 2.
    peeked: [Result<[u8; 8], Refusal>; 2],
    /// Whether the cache has the entry of page 1 of process 1.
    cached: bool,
}

/// A node, and the buffer of its replies.
#[derive(Drop)]
struct Tried {
    node: Node,
    out: [u8; FRAME_ROOM],
}

fn config(alloc: Global, sizes: Sizes) -> Result<NodeConfig, NoMemory> {
    let mut offloads = OffloadList::create(alloc);
    if sizes.store {
        offloads.push(OffloadConfig::Kv { records: 2 })?;
    }
    Ok(NodeConfig {
        pages: sizes.pages,
        buckets: sizes.buckets,
        ring: 1,
        retry: sizes.retry,
        offloads,
    })
}

/// Spells a request at the start of a frame, with a body of at most 38 bytes, and tells how long it is.
fn spell(id: u64, kind: u8, body: &[u8], frame: &mut [u8; 64]) -> usize
    ensures { result ≤ 64 }
{
    let len = body.len().min(38);
    frame[..8].copy_from_slice(&[0x43, 0x4c, 1, kind, 0, 1, 0, 1]);
    frame[8..16].copy_from_slice(&id.to_be_bytes());
    frame[16..24].copy_from_slice(&id.to_be_bytes());
    frame[24..26].copy_from_slice(&[0, len as u8]);
    frame[26..26 + len].copy_from_slice(&body[..len]);
    26 + len
}

/// One step at a moment, or at the latest one where that is later, with counters of its own.
fn step<A: Ledger, B: Ledger>(
    tried: &mut Tried,
    now: u64,
    frame: &[u8],
    reads: Blank,
    takes: Blank,
) -> Outcome
    requires reads_name { reads.name ≡ A.name }
    requires reads_parts { reads.parts ≡ A.parts }
    requires reads_some { 0 < reads.parts }
    requires takes_name { takes.name ≡ B.name }
    requires takes_parts { takes.parts ≡ B.parts }
    requires takes_some { 0 < takes.parts }
{
    let mut reads = Steps::<A>::create(reads);
    let mut takes = Steps::<B>::create(takes);
    let moment = now.max(tried.node.last());
    tried
        .node
        .step(moment, frame, &mut tried.out, &mut reads, &mut takes)
}

/// The word at the start of page 1 of process 1, or of page 2.
fn peeked(node: &Node) -> [Result<[u8; 8], Refusal>; 2] {
    let Some(pid) = try_pid(1) else {
        return [Err(Refusal::BadOp); 2];
    };
    let mut shown = [7; 8];
    let first = node.peek(pid, Addr(0x1000), &mut shown);
    let mut other = [7; 8];
    let second = node.peek(pid, Addr(0x2000), &mut other);
    [first.map(|_| shown), second.map(|_| other)]
}

impl Tried {
    /// What the node says of a request.
    fn ask(&mut self, now: u64, id: u64, asked: (u8, &[u8])) -> Outcome {
        let mut frame = [0; 64];
        let (kind, body) = asked;
        let len = spell(id, kind, body, &mut frame);
        step::<Brand, Brand>(self, now, &frame[..len], Blank::new(1), Blank::new(1))
    }

    /// Whether the outcome is a reply of this sort with this body, and the buffer has the body behind the head.
    fn replied(&self, outcome: Outcome, how: How, body: &[u8]) -> bool {
        let len = body.len().min(64);
        match outcome {
            Outcome::Replied {
                len: told_len,
                how: told_how,
                ..
            } => told_len == 26 + len && told_how == how && &self.out[26..26 + len] == body,
            _ => false,
        }
    }

    /// What the node says of a request that it handles with nothing counted. `None` tells that the moment is before its latest.
    fn handle(&mut self, now: u64, id: u64, asked: (u8, &[u8])) -> Option<Outcome> {
        let mut frame = [0; 64];
        let (kind, body) = asked;
        let len = spell(id, kind, body, &mut frame);
        if now < self.node.last() {
            return None;
        }
        Some(self.node.handle(now, &frame[..len], &mut self.out))
    }

    /// Whether a request that is handled with nothing counted is executed, with this body of its reply.
    fn handles(&mut self, now: u64, id: u64, asked: (u8, &[u8]), body: &[u8]) -> bool {
        match self.handle(now, id, asked) {
            Some(outcome) => self.replied(outcome, How::Executed, body),
            None => false,
        }
    }

    /// Whether this is told of a request.
    fn tells(&mut self, row: &Row) -> bool {
        let (now, id, asked, told) = *row;
        if let Told::Handled(body) = told {
            return self.handles(now, id, asked, body);
        }
        let outcome = self.ask(now, id, asked);
        match told {
            Told::Executed(body) => self.replied(outcome, How::Executed, body),
            Told::Repeated(body) => self.replied(outcome, How::Repeated, body),
            Told::Looked(body) => self.replied(outcome, How::Looked, body),
            Told::Busy(oldest) => outcome == Outcome::Busy { oldest, now },
            Told::Handled(_) => false,
        }
    }

    /// The first row of which another thing is told, by its place from 0.
    fn first_off(&mut self, rows: &[Row]) -> Option<usize> {
        for (at, row) in rows.iter().enumerate() {
            if !self.tells(row) {
                return Some(at);
            }
        }
        None
    }

    /// What is seen of the node after these requests.
    fn seen_after(&mut self, rows: &[Row]) -> Seen {
        let off = self.first_off(rows);
        Seen {
            off,
            counts: (self.node.used(), self.node.retained()),
            peeked: peeked(&self.node),
            cached: self.node.store().cache.contains(Space16(1), Vpn(1)),
        }
    }
}

/// What is seen of a new node after these requests. No other function owns a node, since each that drops one takes the
/// prover long.
fn seen_of_new(alloc: Global, config: &NodeConfig, rows: &[Row]) -> Result<Seen, OpenFault> {
    let mut tried = Tried {
        node: Node::create(alloc, config)?,
        out: [0xee; FRAME_ROOM],
    };
    Ok(tried.seen_after(rows))
}

/// What is seen of a new node of these sizes after these requests.
fn see(alloc: Global, sizes: Sizes, rows: &[Row]) -> Result<Seen, OpenFault> {
    let config = config(alloc, sizes)?;
    seen_of_new(alloc, &config, rows)
}

const ONE_KEPT: Sizes = Sizes {
    pages: 16,
    buckets: 8,
    retry: 1,
    store: false,
};

/// With one record. A page that is freed by nobody is given once more where its reply is no longer kept.
const ONE_RECORD: &[Row] = &[
    (0, 1, (ALLOC, &[0, 1, 3]), Told::Executed(&[0, 0, 0, 16, 0])),
    (399, 2, (WRITE, &[0, 0, 16, 0, 0x61]), Told::Busy(0)),
    (
        399,
        1,
        (ALLOC, &[0, 1, 3]),
        Told::Repeated(&[0, 0, 0, 16, 0]),
    ),
    (400, 2, (WRITE, &[0, 0, 16, 0, 0x61]), Told::Executed(&[0])),
    (400, 1, (ALLOC, &[0, 1, 3]), Told::Busy(400)),
    (
        800,
        1,
        (ALLOC, &[0, 1, 3]),
        Told::Executed(&[0, 0, 0, 32, 0]),
    ),
];

#[test]
fn a_full_buffer_is_busy_while_its_oldest_record_is_young(rt: HostRuntime) -> Result<(), Fail> {
    let seen = see(rt.alloc(), ONE_KEPT, ONE_RECORD).expect(&rt, "opens");
    assert_eq!(rt; (seen.off, seen.counts), (None, (1, 1)));
    Ok(())
}

const SMALL: Sizes = Sizes {
    pages: 1,
    buckets: 8,
    retry: 16,
    store: false,
};

/// With one physical page. A permission is asked before a page is taken, and a freed page is taken again with zeros.
const ONE_PAGE: &[Row] = &[
    (0, 1, (ALLOC, &[0, 1, 3]), Told::Executed(&[0, 0, 0, 16, 0])),
    (0, 2, (ALLOC, &[0, 1, 3]), Told::Executed(&[0, 0, 0, 32, 0])),
    (0, 3, (ALLOC, &[0, 1, 1]), Told::Executed(&[0, 0, 0, 48, 0])),
    (
        0,
        4,
        (WRITE, &[0, 0, 16, 0, 0xff, 0xff]),
        Told::Executed(&[0]),
    ),
    (0, 5, (WRITE, &[0, 0, 32, 0, 0xaa]), Told::Executed(&[3])),
    (0, 6, (WRITE, &[0, 0, 48, 0, 0xbb]), Told::Executed(&[2])),
    (0, 7, (FREE, &[0, 0, 16, 0, 0, 1]), Told::Executed(&[0])),
    (0, 8, (WRITE, &[0, 0, 32, 0, 0xaa]), Told::Executed(&[0])),
    (
        0,
        9,
        (READ, &[0, 0, 32, 0, 0, 4]),
        Told::Looked(&[0, 0xaa, 0, 0, 0]),
    ),
];

#[test]
fn a_permission_is_asked_before_a_page_is_taken(rt: HostRuntime) -> Result<(), Fail> {
    let seen = see(rt.alloc(), SMALL, ONE_PAGE).expect(&rt, "opens");
    assert_eq!(rt; (seen.off, seen.counts), (None, (1, 8)));
    Ok(())
}

const NARROW: Sizes = Sizes {
    pages: 16,
    buckets: 2,
    retry: 16,
    store: false,
};

/// With two buckets, each of four pages.
const TWO_BUCKETS: &[Row] = &[
    (0, 1, (ALLOC, &[0, 4, 3]), Told::Executed(&[0, 0, 0, 16, 0])),
    (0, 2, (ALLOC, &[0, 1, 3]), Told::Executed(&[0, 0, 0, 80, 0])),
    (0, 3, (ALLOC, &[0, 3, 3]), Told::Executed(&[0, 0, 0, 96, 0])),
    (0, 4, (ALLOC, &[0, 1, 3]), Told::Executed(&[4])),
    (0, 5, (FREE, &[0, 0, 80, 0, 0, 1]), Told::Executed(&[0])),
    (0, 6, (ALLOC, &[0, 1, 3]), Told::Executed(&[0, 0, 0, 80, 0])),
];

#[test]
fn eight_pages_fill_two_buckets(rt: HostRuntime) -> Result<(), Fail> {
    let seen = see(rt.alloc(), NARROW, TWO_BUCKETS).expect(&rt, "opens");
    assert_eq!(rt; seen.off, None);
    Ok(())
}

const STORING: Sizes = Sizes {
    pages: 16,
    buckets: 8,
    retry: 16,
    store: true,
};

/// With a store of two records.
const STORE: &[Row] = &[
    (0, 1, (OFFLOAD, b"\0\x01\0\0\x01av"), Told::Executed(&[0])),
    (0, 2, (OFFLOAD, b"\0\x01\0\0\x01bw"), Told::Executed(&[0])),
    (0, 3, (OFFLOAD, b"\0\x01\0\0\x01cx"), Told::Executed(&[6])),
    (0, 4, (OFFLOAD, b"\0\x01\0\0\x01az"), Told::Executed(&[0])),
    (0, 5, (OFFLOAD, b"\0\x03\0\0\x01a"), Told::Executed(&[0])),
    (0, 6, (OFFLOAD, b"\0\x02\x01\0\x01a"), Told::Looked(&[7])),
    (0, 7, (OFFLOAD, b"\0\x01\0\0\x01ay"), Told::Executed(&[0])),
    (0, 5, (OFFLOAD, b"\0\x03\0\0\x01a"), Told::Repeated(&[0])),
    (0, 8, (OFFLOAD, b"\0\x02\x01\0\x01a"), Told::Looked(b"\0y")),
    (0, 9, (OFFLOAD, b"\0\x02\0\0\x01a"), Told::Looked(&[0])),
    (0, 10, (OFFLOAD, b"\x01\x02\0\x08"), Told::Looked(&[5])),
];

#[test]
fn a_store_of_two_records_takes_two_keys(rt: HostRuntime) -> Result<(), Fail> {
    let seen = see(rt.alloc(), STORING, STORE).expect(&rt, "opens");
    assert_eq!(rt; seen.off, None);
    Ok(())
}

const PLAIN: Sizes = Sizes {
    pages: 16,
    buckets: 8,
    retry: 8,
    store: false,
};

/// A word that is written and added to.
const WORD: &[Row] = &[
    (0, 1, (ALLOC, &[0, 1, 3]), Told::Executed(&[0, 0, 0, 16, 0])),
    (0, 2, (WRITE, &[0, 0, 16, 0, 5]), Told::Executed(&[0])),
    (
        0,
        3,
        (ATOMIC, &[0, 0, 16, 0, 3, 0, 0, 0, 0, 0, 0, 0, 3]),
        Told::Executed(&[0, 0, 0, 0, 0, 0, 0, 0, 5]),
    ),
];

#[test]
fn a_word_changes_where_it_stands_and_a_peek_shows_it(rt: HostRuntime) -> Result<(), Fail> {
    let seen = see(rt.alloc(), PLAIN, WORD).expect(&rt, "opens");
    let want = [Ok([8, 0, 0, 0, 0, 0, 0, 0]), Err(Refusal::NoMapping)];
    let words = seen.peeked;
    assert_eq!(rt; (seen.off, words), (None, want));
    Ok(())
}

/// A page is mapped.
const MAPPED: &[Row] = &[(0, 1, (ALLOC, &[0, 1, 3]), Told::Executed(&[0, 0, 0, 16, 0]))];

/// A page is mapped and read.
const MAPPED_AND_READ: &[Row] = &[
    (0, 1, (ALLOC, &[0, 1, 3]), Told::Executed(&[0, 0, 0, 16, 0])),
    (
        0,
        2,
        (READ, &[0, 0, 16, 0, 0, 4]),
        Told::Looked(&[0, 0, 0, 0, 0]),
    ),
];

// A step reads no bucket where the cache has the page's entry: that is a clause of the step.
#[test]
fn a_page_that_was_read_has_its_entry_in_the_cache(rt: HostRuntime) -> Result<(), Fail> {
    let mapped = see(rt.alloc(), PLAIN, MAPPED).expect(&rt, "opens");
    let read = see(rt.alloc(), PLAIN, MAPPED_AND_READ).expect(&rt, "opens");
    let want = [(None, false), (None, true)];
    assert_eq!(rt;
        [(mapped.off, mapped.cached), (read.off, read.cached)],
        want
    );
    Ok(())
}

/// A node that handles a frame, and counts nothing, answers it as a step does.
const HANDLED: &[Row] = &[(0, 1, (ALLOC, &[0, 1, 3]), Told::Handled(&[0, 0, 0, 16, 0]))];

#[test]
fn a_frame_is_handled_with_nothing_counted(rt: HostRuntime) -> Result<(), Fail> {
    let seen = see(rt.alloc(), PLAIN, HANDLED).expect(&rt, "opens");
    assert_eq!(rt; seen.off, None);
    Ok(())
}
