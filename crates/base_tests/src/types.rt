//! Tests of `cl_types`: the homes of a worked table, the ranges of a node's numbers, and that calls succeed where memory
//! is ample.

ghost use Rattle.std.specs.Prelude.{IsTrue};
ghost use Rattle.cl_types.specs.Places.{is_bucket_count};

use cl_types::config::{Field, NodeConfig, OffloadConfig, OffloadList, bad_number};
use cl_types::items::{Bytes, NoMemory};
use cl_types::numbers::{Space16, Vpn};
use cl_types::page::home;
use cl_types::space::{MemorySpace, Space};
use std::alloc::Global;

/// The homes of the first ten pages of a process.
fn first_homes(pid: u16, buckets: u32) -> [u32; 10]
    requires { IsTrue (is_bucket_count buckets) }
{
    let mut homes = [0; 10];
    for at in 0..10u16 {
        homes[at as usize] = home(Space16(pid), Vpn(at + 1), buckets);
    }
    homes
}

/// Whether pages of the processes 1 and 2 have the homes of the worked table.
fn homes_are_worked() -> bool {
    first_homes(1, 2) == [0, 1, 0, 1, 1, 0, 1, 0, 0, 1]
        && first_homes(1, 8) == [0, 5, 2, 7, 4, 1, 6, 3, 0, 5]
        && first_homes(2, 2).starts_with(&[1, 0, 1, 0, 0, 1])
}

#[test]
fn pages_have_the_homes_of_the_worked_table(rt: HostRuntime) {
    assert!(rt; homes_are_worked());
}

/// The numbers of pages, buckets, zeroed pages and kept replies of a node, how many stores of one record it has, and
/// the first bad number that is told of it.
type Judged = ([u64; 4], u8, Option<(Field, u64)>);

const JUDGED: &[Judged] = &[
    ([1, 2, 1, 1], 0, None),
    ([65_536, 65_536, 1024, 65_536], 16, None),
    ([0, 3, 0, 0], 17, Some((Field::Pages, 0))),
    ([65_537, 8, 4, 4], 1, Some((Field::Pages, 65_537))),
    ([16, 3, 0, 0], 17, Some((Field::Buckets, 3))),
    ([16, 1, 4, 4], 1, Some((Field::Buckets, 1))),
    ([16, 8, 1025, 0], 17, Some((Field::Ring, 1025))),
    ([16, 8, 4, 0], 17, Some((Field::Retry, 0))),
    ([16, 8, 4, 4], 17, Some((Field::Offloads, 17))),
];

/// The configuration with these numbers, and so many stores of one record.
fn config(alloc: Global, numbers: [u64; 4], stores: u8) -> Result<NodeConfig, NoMemory> {
    let [pages, buckets, ring, retry] = numbers;
    let mut offloads = OffloadList::create(alloc);
    for _ in 0..stores {
        offloads.push(OffloadConfig::Kv { records: 1 })?;
    }
    Ok(NodeConfig {
        pages,
        buckets,
        ring,
        retry,
        offloads,
    })
}

/// The first bad number of such a configuration.
fn bad_number_of(
    alloc: Global,
    numbers: [u64; 4],
    stores: u8,
) -> Result<Option<(Field, u64)>, NoMemory> {
    let node = config(alloc, numbers, stores)?;
    Ok(bad_number(&node))
}

/// The first row of which another number is reported, by its place from 0.
fn first_off(alloc: Global, rows: &[Judged]) -> Result<Option<usize>, NoMemory> {
    for (at, (numbers, stores, want)) in rows.iter().enumerate() {
        if bad_number_of(alloc, *numbers, *stores)? != *want {
            return Ok(Some(at));
        }
    }
    Ok(None)
}

#[test]
fn the_first_bad_number_is_told(rt: HostRuntime) {
    assert!(rt; first_off(rt.alloc(), JUDGED) == Ok(None));
}

/// Appends "abc", by each call that makes a list of bytes grow, and turns the list round.
fn spell(bytes: &mut Bytes) -> Result<(), NoMemory> {
    bytes.push(b'a')?;
    bytes.append(b"bc")?;
    bytes.as_mut_slice().reverse();
    Ok(())
}

/// Whether that leaves "cba".
fn spells_cba(alloc: Global) -> bool {
    let mut bytes = Bytes::create(alloc);
    spell(&mut bytes).is_ok() && bytes.as_slice() == b"cba".as_slice()
}

#[test]
fn a_list_keeps_its_items_in_order(rt: HostRuntime) {
    assert!(rt; spells_cba(rt.alloc()));
}

/// The pages of a space of two, and four bytes within its second one.
fn space_shows(alloc: Global) -> Result<(u32, [u8; 4]), NoMemory> {
    let mut space = MemorySpace::create(alloc, 2)?;
    let mut out = [7; 4];
    space.read_at(8188, &mut out);
    Ok((space.pages(), out))
}

#[test]
fn a_space_in_memory_is_made_of_zeros(rt: HostRuntime) {
    assert!(rt; space_shows(rt.alloc()) == Ok((2, [0; 4])));
}
