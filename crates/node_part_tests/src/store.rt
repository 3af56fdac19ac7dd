//! Tests of `data_path`: worked rows of calls on a store, as a node makes them.

ghost use Rattle.std.specs.Prelude.{◌≡◌, ◌<◌, IfOk};
ghost use Rattle.data_path.specs.Store.{IsWhole};
ghost use Rattle.page_pool.specs.PoolPages.{IsReady};

use cl_types::call::Perm;
use cl_types::config::{NodeConfig, OffloadConfig, OffloadList};
use cl_types::numbers::{Addr, Space16};
use cl_types::open_fault::OpenFault;
use cl_types::reply::Refusal;
use cl_types::steps::Steps;
use data_path::PageStore;
use std::alloc::Global;
use std::marker::Brand;
use std::sync::ledger::{Blank, Ledger};

// A process.
const SPACE: Space16 = Space16(1);

/// The store of a node of so many pages, with these offloads.
pub(crate) fn opened(
    alloc: Global,
    pages: u64,
    offloads: OffloadList,
) -> Result<PageStore, OpenFault>
    ensures whole { IfOk result IsWhole }
    ensures ready { IfOk result (λ store. IsReady store.pool) }
{
    let config = NodeConfig {
        pages,
        buckets: 8,
        ring: 4,
        retry: 4,
        offloads,
    };
    PageStore::create(alloc, &config)
}

/// How many of three pages are free beside a store of two records.
fn free_beside_a_store(alloc: Global) -> Result<u32, OpenFault> {
    let mut offloads = OffloadList::create(alloc);
    offloads.push(OffloadConfig::Kv { records: 2 })?;
    Ok(opened(alloc, 3, offloads)?.pool.free_count())
}

#[test]
fn a_store_of_two_records_has_two_pages(rt: HostRuntime) {
    assert!(rt; free_beside_a_store(rt.alloc()) == Ok(1));
}

/// What is told of calls on a store of one physical page.
#[derive(Clone, Copy, Debug, PartialEq, Eq)]
struct Told {
    /// The start of a page that is read only.
    start: Result<Addr, Refusal>,
    /// A write to it, and one to a page that isn't mapped.
    refused: [Result<(), Refusal>; 2],
    /// Writes to a page and to another.
    written: [Result<(), Refusal>; 2],
    /// What is read of the page that was written.
    read: [u8; 4],
    /// Their range is freed as one of one page, and as one of two.
    freed: [Result<(), Refusal>; 2],
    /// Another write, once they are mapped again.
    again: Result<(), Refusal>,
}

/// The start of a page that is read only, a write to it, and one to a page that isn't mapped.
fn refused<A: Ledger, B: Ledger>(
    store: &mut PageStore,
    reads: &mut Steps<A>,
    takes: &mut Steps<B>,
) -> (Result<Addr, Refusal>, [Result<(), Refusal>; 2])
    requires whole { IsWhole store.old }
    requires ready { IsReady store.old.pool }
    ensures whole { IsWhole store.new }
    ensures ready { IsReady store.new.pool }
{
    let start = store.alloc_range(SPACE, 1, Perm::ReadOnly);
    let denied = store.write_part(SPACE, Addr(0x1000), b"a", reads, takes);
    let unmapped = store.write_part(SPACE, Addr(0x4000), b"a", reads, takes);
    (start, [denied, unmapped])
}

/// Writes to the two pages of a range.
fn written<A: Ledger, B: Ledger>(
    store: &mut PageStore,
    reads: &mut Steps<A>,
    takes: &mut Steps<B>,
) -> [Result<(), Refusal>; 2]
    requires whole { IsWhole store.old }
    requires ready { IsReady store.old.pool }
    ensures whole { IsWhole store.new }
    ensures ready { IsReady store.new.pool }
{
    let _ = store.alloc_range(SPACE, 2, Perm::ReadWrite);
    [
        store.write_part(SPACE, Addr(0x2000), b"abc", reads, takes),
        store.write_part(SPACE, Addr(0x3000), b"a", reads, takes),
    ]
}

/// What is read of the first of them.
fn read<A: Ledger>(store: &mut PageStore, reads: &mut Steps<A>) -> [u8; 4]
    requires whole { IsWhole store.old }
    requires ready { IsReady store.old.pool }
    ensures whole { IsWhole store.new }
    ensures ready { IsReady store.new.pool }
{
    let mut read = [7; 4];
    let _ = store.read_part(SPACE, Addr(0x2000), &mut read, reads);
    read
}

/// Their range is freed as one of one page, and as one of two.
fn freed(store: &mut PageStore) -> [Result<(), Refusal>; 2]
    requires whole { IsWhole store.old }
    requires ready { IsReady store.old.pool }
    ensures whole { IsWhole store.new }
    ensures ready { IsReady store.new.pool }
{
    [
        store.free_range(SPACE, Addr(0x2000), 1),
        store.free_range(SPACE, Addr(0x2000), 2),
    ]
}

/// Another write, once they are mapped again.
fn written_again<A: Ledger, B: Ledger>(
    store: &mut PageStore,
    reads: &mut Steps<A>,
    takes: &mut Steps<B>,
) -> Result<(), Refusal>
    requires whole { IsWhole store.old }
    requires ready { IsReady store.old.pool }
{
    let _ = store.alloc_range(SPACE, 2, Perm::ReadWrite);
    store.write_part(SPACE, Addr(0x3000), b"a", reads, takes)
}

fn show<A: Ledger, B: Ledger>(
    store: &mut PageStore,
    reads: &mut Steps<A>,
    takes: &mut Steps<B>,
) -> Told
    requires whole { IsWhole store.old }
    requires ready { IsReady store.old.pool }
{
    let (start, refused) = refused(store, reads, takes);
    Told {
        start,
        refused,
        written: written(store, reads, takes),
        read: read(store, reads),
        freed: freed(store),
        again: written_again(store, reads, takes),
    }
}

fn answers<A: Ledger, B: Ledger>(
    alloc: Global,
    reads: Blank,
    takes: Blank,
) -> Result<Told, OpenFault>
    requires reads_name { reads.name ≡ A.name }
    requires reads_parts { reads.parts ≡ A.parts }
    requires reads_some { 0 < reads.parts }
    requires takes_name { takes.name ≡ B.name }
    requires takes_parts { takes.parts ≡ B.parts }
    requires takes_some { 0 < takes.parts }
{
    let mut reads = Steps::<A>::create(reads);
    let mut takes = Steps::<B>::create(takes);
    let mut store = opened(alloc, 1, OffloadList::create(alloc))?;
    Ok(show(&mut store, &mut reads, &mut takes))
}

#[test]
fn a_read_gives_what_was_written_and_each_refusal_has_its_cause(rt: HostRuntime) {
    let told = answers::<Brand, Brand>(rt.alloc(), Blank::new(1), Blank::new(1));
    let want = Told {
        start: Ok(Addr(0x1000)),
        refused: [Err(Refusal::NoPermission), Err(Refusal::NoMapping)],
        written: [Ok(()), Err(Refusal::NoPage)],
        read: *b"abc\0",
        freed: [Err(Refusal::NoMapping), Ok(())],
        again: Ok(()),
    };
    assert!(rt; told == Ok(want));
}
