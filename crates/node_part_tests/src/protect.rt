//! A test of a Protect in `data_path`: a range gets another permission, and nothing else of it changes.

ghost use Rattle.std.specs.Prelude.{◌≡◌, ◌<◌};
ghost use Rattle.data_path.specs.Store.{IsWhole};
ghost use Rattle.page_pool.specs.PoolPages.{IsReady};

use cl_types::call::Perm;
use cl_types::config::{NodeConfig, OffloadList};
use cl_types::numbers::{Addr, Space16};
use cl_types::open_fault::OpenFault;
use cl_types::reply::Refusal;
use cl_types::steps::Steps;
use data_path::PageStore;
use std::alloc::Global;
use std::marker::Brand;
use std::sync::ledger::{Blank, Ledger};
use std::test::Fail;

// A process.
const SPACE: Space16 = Space16(1);

/// What is told of calls on a store with a range of two pages, of which the second was written.
#[derive(Clone, Copy, Debug, PartialEq, Eq)]
struct Told {
    /// The range is protected from writes, and a part of it is not.
    protected: [Result<(), Refusal>; 2],
    /// A write to the second page before, and one after.
    written: [Result<(), Refusal>; 2],
    /// What is read of the page.
    read: [u8; 2],
    /// A write once the range may be written again.
    again: Result<(), Refusal>,
}

fn answers<A: Ledger, B: Ledger>(
    store: &mut PageStore,
    reads: &mut Steps<A>,
    takes: &mut Steps<B>,
) -> Told
    requires whole { IsWhole store.old }
    requires ready { IsReady store.old.pool }
{
    let _ = store.alloc_range(SPACE, 2, Perm::ReadWrite);
    let before = store.write_part(SPACE, Addr(0x2000), b"a", reads, takes);
    let whole = store.protect_part(SPACE, Addr(0x1000), 2, Perm::ReadOnly);
    let part = store.protect_part(SPACE, Addr(0x1000), 1, Perm::ReadWrite);
    let after = store.write_part(SPACE, Addr(0x2000), b"b", reads, takes);
    let mut read = [7; 2];
    let _ = store.read_part(SPACE, Addr(0x2000), &mut read, reads);
    let _ = store.protect_part(SPACE, Addr(0x1000), 2, Perm::WriteOnly);
    let again = store.write_part(SPACE, Addr(0x2000), b"b", reads, takes);
    Told {
        protected: [whole, part],
        written: [before, after],
        read,
        again,
    }
}

/// What is told of these calls on a new store. No other function owns a store, since each that drops one takes the prover
/// long.
fn answers_of_new<A: Ledger, B: Ledger>(
    alloc: Global,
    config: &NodeConfig,
    reads: &mut Steps<A>,
    takes: &mut Steps<B>,
) -> Result<Told, OpenFault> {
    let mut store = PageStore::create(alloc, config)?;
    Ok(answers(&mut store, reads, takes))
}

fn answers_of_small<A: Ledger, B: Ledger>(
    alloc: Global,
    reads: Blank,
    takes: Blank,
) -> Result<Told, OpenFault>
    requires reads_name { reads.name ≡ A.name }
    requires reads_parts { reads.parts ≡ A.parts }
    requires reads_some { 0 < reads.parts }
    requires takes_name { takes.name ≡ B.name }
    requires takes_parts { takes.parts ≡ B.parts }
    requires takes_some { 0 < takes.parts }
{
    let config = NodeConfig {
        pages: 2,
        buckets: 8,
        ring: 4,
        retry: 4,
        offloads: OffloadList::create(alloc),
    };
    let mut reads = Steps::<A>::create(reads);
    let mut takes = Steps::<B>::create(takes);
    answers_of_new(alloc, &config, &mut reads, &mut takes)
}

#[test]
fn a_protected_range_keeps_its_bytes_and_refuses_writes(rt: HostRuntime) -> Result<(), Fail> {
    let told = answers_of_small::<Brand, Brand>(rt.alloc(), Blank::new(1), Blank::new(1));
    let want = Told {
        protected: [Ok(()), Err(Refusal::NoMapping)],
        written: [Ok(()), Err(Refusal::NoPermission)],
        read: *b"a\0",
        again: Ok(()),
    };
    assert_eq!(rt; told, Ok(want));
    Ok(())
}
