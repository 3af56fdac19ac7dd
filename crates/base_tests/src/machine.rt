//! Tests of `flat_model`: worked histories are taken as runs, and changed ones are not.

use cl_types::call::{AtomicOp, Perm};
use cl_types::config::{NodeConfig, OffloadConfig, OffloadList};
use cl_types::items::{Bytes, NoMemory};
use cl_types::numbers::{Addr, Pid, try_pid};
use cl_types::open_fault::OpenFault;
use cl_types::reply::{Refusal, Reply};
use cl_types::request::Request;
use flat_model::check::check_step;
use flat_model::flat::Flat;
use flat_model::opening::create;
use std::alloc::Global;

/// A request of process 1, with its numbers in the order of its text.
#[derive(Clone, Copy)]
enum Asked<'a> {
    Alloc(u16, Perm),
    Free(u32, u16),
    Read(u32, u16),
    Write(u32, &'a [u8]),
    Atomic(u32, AtomicOp),
    Offload(u8, u8, &'a [u8]),
}

/// A reply.
#[derive(Clone, Copy)]
enum Told<'a> {
    Refused(Refusal),
    Nothing,
    At(u32),
    Word(u64),
    Got(&'a [u8]),
}

/// A request, a reply, and whether they are a step where the rows before have come.
type Row<'a> = (Asked<'a>, Told<'a>, bool);

fn bytes_of(alloc: Global, from: &[u8]) -> Result<Bytes, NoMemory> {
    let mut bytes = Bytes::create(alloc);
    bytes.append(from)?;
    Ok(bytes)
}

fn request_of(alloc: Global, asked: Asked) -> Result<Request, NoMemory> {
    Ok(match asked {
        Asked::Alloc(pages, perm) => Request::Alloc { pages, perm },
        Asked::Free(at, pages) => Request::Free {
            addr: Addr(at),
            pages,
        },
        Asked::Read(at, len) => Request::Read {
            addr: Addr(at),
            len,
        },
        Asked::Write(at, bytes) => Request::Write {
            addr: Addr(at),
            bytes: bytes_of(alloc, bytes)?,
        },
        Asked::Atomic(at, op) => Request::Atomic { addr: Addr(at), op },
        Asked::Offload(no, op, bytes) => Request::Offload {
            no,
            op,
            out: 256,
            bytes: bytes_of(alloc, bytes)?,
        },
    })
}

fn reply_of(alloc: Global, told: Told) -> Result<Reply, NoMemory> {
    Ok(match told {
        Told::Refused(refusal) => Reply::Refused(refusal),
        Told::Nothing => Reply::Nothing,
        Told::At(at) => Reply::At(Addr(at)),
        Told::Word(word) => Reply::Word(word),
        Told::Got(bytes) => Reply::Got(bytes_of(alloc, bytes)?),
    })
}

/// How many pages and buckets a node has, whether it has a store of two records, and rows that are judged one after another
/// by its machine.
#[derive(Clone, Copy)]
struct Worked<'a> {
    pages: u64,
    buckets: u64,
    store: bool,
    rows: &'a [Row<'a>],
}

/// The machine of the node.
fn opened(alloc: Global, worked: &Worked) -> Result<Flat, OpenFault> {
    let mut offloads = OffloadList::create(alloc);
    if worked.store {
        offloads.push(OffloadConfig::Kv { records: 2 })?;
    }
    let config = NodeConfig {
        pages: worked.pages,
        buckets: worked.buckets,
        ring: 1,
        retry: 8,
        offloads,
    };
    create(alloc, &config)
}

/// Whether the row is judged as it says.
fn is_judged(alloc: Global, flat: &mut Flat, pid: Pid, row: &Row) -> Result<bool, NoMemory> {
    let (asked, told, want) = *row;
    let request = request_of(alloc, asked)?;
    let reply = reply_of(alloc, told)?;
    Ok(check_step(alloc, flat, pid, &request, &reply) == Ok(want))
}

/// The first row that is judged otherwise, by its place from 0.
fn first_off(
    alloc: Global,
    flat: &mut Flat,
    pid: Pid,
    rows: &[Row],
) -> Result<Option<usize>, NoMemory> {
    for (at, row) in rows.iter().enumerate() {
        if !is_judged(alloc, flat, pid, row)? {
            return Ok(Some(at));
        }
    }
    Ok(None)
}

/// The same of a new machine. No other function owns one, since each that drops one takes the prover long.
fn first_off_of_new(alloc: Global, pid: Pid, worked: &Worked) -> Result<Option<usize>, NoMemory> {
    let Ok(mut flat) = opened(alloc, worked) else {
        return Err(NoMemory);
    };
    first_off(alloc, &mut flat, pid, worked.rows)
}

/// The first worked history is a run. With the last digit of what it read changed it is none, and a Read of no bytes is no
/// step.
const FIRST: &[Row] = &[
    (Asked::Alloc(1, Perm::ReadWrite), Told::At(0x1000), true),
    (Asked::Write(0x1000, b"abc"), Told::Nothing, true),
    (Asked::Read(0x1000, 4), Told::Got(b"abc\x01"), false),
    (Asked::Read(0x1000, 4), Told::Got(b"abc\0"), true),
    (Asked::Read(0x1000, 0), Told::Got(b""), false),
];

/// A range may start wherever it fits. The least start is page 1. Two pages from page 5 on fit too, and then none from 4, 5
/// or 6 on.
const STARTS: &[Row] = &[
    (Asked::Alloc(2, Perm::ReadOnly), Told::At(0x5000), true),
    (Asked::Alloc(2, Perm::ReadOnly), Told::At(0x4000), false),
    (Asked::Alloc(2, Perm::ReadOnly), Told::At(0x5000), false),
    (Asked::Alloc(2, Perm::ReadOnly), Told::At(0x6000), false),
    (Asked::Alloc(2, Perm::ReadOnly), Told::At(0x7001), false),
    (Asked::Alloc(2, Perm::ReadOnly), Told::At(0), false),
    (Asked::Alloc(2, Perm::ReadOnly), Told::At(0x7000), true),
    (Asked::Alloc(2, Perm::ReadOnly), Told::At(0x1000), true),
];

/// NoRange is answered only where no start fits. Two buckets have four pages each. Of the pages 1 to 8 of process 1 the
/// bucket indexes are 0 1 0 1 1 0 1 0.
const BUCKETS: &[Row] = &[
    (
        Asked::Alloc(8, Perm::ReadWrite),
        Told::Refused(Refusal::NoRange),
        false,
    ),
    (Asked::Alloc(8, Perm::ReadWrite), Told::At(0x1000), true),
    (Asked::Alloc(1, Perm::ReadWrite), Told::At(0x9000), false),
    (
        Asked::Alloc(1, Perm::ReadWrite),
        Told::Refused(Refusal::NoRange),
        true,
    ),
];

/// Of one physical page. The permission is checked before pages run out.
const LAST_PAGE: &[Row] = &[
    (Asked::Alloc(2, Perm::ReadWrite), Told::At(0x1000), true),
    (Asked::Alloc(1, Perm::ReadOnly), Told::At(0x3000), true),
    (Asked::Write(0x1000, b"\xff\xff"), Told::Nothing, true),
    (
        Asked::Write(0x2000, b"\xaa"),
        Told::Refused(Refusal::NoPage),
        true,
    ),
    (
        Asked::Write(0x3000, b"\xbb"),
        Told::Refused(Refusal::NoPage),
        false,
    ),
    (
        Asked::Write(0x3000, b"\xbb"),
        Told::Refused(Refusal::NoPermission),
        true,
    ),
    (Asked::Free(0x1000, 1), Told::Nothing, false),
    (Asked::Free(0x1000, 2), Told::Nothing, true),
    (Asked::Alloc(1, Perm::ReadWrite), Told::At(0x1000), true),
    (Asked::Read(0x1000, 2), Told::Got(b"\0\0"), true),
    (Asked::Write(0x1000, b"\xaa"), Told::Nothing, true),
];

/// A lock that is taken and released, and a word that counts past its greatest number.
const WORDS: &[Row] = &[
    (Asked::Alloc(2, Perm::ReadWrite), Told::At(0x1000), true),
    (Asked::Atomic(0x1000, AtomicOp::Lock), Told::Word(0), true),
    (Asked::Atomic(0x1000, AtomicOp::Lock), Told::Word(1), true),
    (Asked::Atomic(0x1000, AtomicOp::Unlock), Told::Word(1), true),
    (
        Asked::Atomic(0x1000, AtomicOp::Cas { expect: 0, put: 9 }),
        Told::Word(0),
        true,
    ),
    (
        Asked::Atomic(0x1000, AtomicOp::Cas { expect: 0, put: 5 }),
        Told::Word(9),
        true,
    ),
    (
        Asked::Atomic(0x1000, AtomicOp::Add { n: u64::MAX }),
        Told::Word(9),
        true,
    ),
    (
        Asked::Atomic(0x1000, AtomicOp::Unlock),
        Told::Word(9),
        false,
    ),
    (Asked::Atomic(0x1000, AtomicOp::Unlock), Told::Word(8), true),
    (
        Asked::Atomic(0x1ff8, AtomicOp::Add { n: 1 }),
        Told::Word(0),
        true,
    ),
];

/// A store of two records: two keys are put, read and deleted.
const STORE: &[Row] = &[
    (Asked::Offload(0, 1, b"\x01av"), Told::Got(b""), true),
    (Asked::Offload(0, 1, b"\x01bw"), Told::Got(b""), true),
    (
        Asked::Offload(0, 1, b"\x01cx"),
        Told::Refused(Refusal::ObjectFull),
        true,
    ),
    (Asked::Offload(0, 1, b"\x01az"), Told::Got(b""), true),
    (Asked::Offload(0, 4, b""), Told::Got(b"\0\0\0\x02"), true),
    (Asked::Offload(0, 3, b"\x01a"), Told::Got(b""), true),
    (
        Asked::Offload(0, 2, b"\x01a"),
        Told::Refused(Refusal::NoKey),
        true,
    ),
    (Asked::Offload(0, 1, b"\x01ay"), Told::Got(b""), true),
    (Asked::Offload(0, 2, b"\x01a"), Told::Got(b"z"), false),
    (Asked::Offload(0, 2, b"\x01a"), Told::Got(b"y"), true),
    (
        Asked::Offload(0, 2, b"\x02a"),
        Told::Refused(Refusal::BadOp),
        true,
    ),
    (
        Asked::Offload(1, 2, b""),
        Told::Refused(Refusal::NoOffload),
        true,
    ),
];

const WORKED: &[Worked] = &[
    Worked {
        pages: 16,
        buckets: 8,
        store: false,
        rows: FIRST,
    },
    Worked {
        pages: 16,
        buckets: 8,
        store: false,
        rows: STARTS,
    },
    Worked {
        pages: 16,
        buckets: 2,
        store: false,
        rows: BUCKETS,
    },
    Worked {
        pages: 1,
        buckets: 8,
        store: false,
        rows: LAST_PAGE,
    },
    Worked {
        pages: 16,
        buckets: 8,
        store: false,
        rows: WORDS,
    },
    Worked {
        pages: 16,
        buckets: 8,
        store: true,
        rows: STORE,
    },
];

/// The first machine that judges a row otherwise, and the row, by their places from 0.
fn first_off_of_all(alloc: Global) -> Result<Option<(usize, usize)>, NoMemory> {
    let Some(pid) = try_pid(1) else {
        return Err(NoMemory);
    };
    for (at, worked) in WORKED.iter().enumerate() {
        if let Some(row) = first_off_of_new(alloc, pid, worked)? {
            return Ok(Some((at, row)));
        }
    }
    Ok(None)
}

#[test]
fn worked_histories_are_judged(rt: HostRuntime) {
    assert!(rt; first_off_of_all(rt.alloc()) == Ok(None));
}
