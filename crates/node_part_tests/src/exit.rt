//! A test of an Exit in `data_path`: all that a process has leaves the store, and all that another has stays.

ghost use Rattle.std.specs.Prelude.{◌≡◌, ◌<◌};
ghost use Rattle.data_path.specs.Store.{IsWhole};
ghost use Rattle.page_pool.specs.PoolPages.{IsReady};

use cl_types::call::Perm;
use cl_types::config::{NodeConfig, OffloadList};
use cl_types::numbers::{Addr, Space16};
use cl_types::open_fault::OpenFault;
use cl_types::reply::Refusal;
use cl_types::steps::Steps;
use data_path::PageStore;
use std::alloc::Global;
use std::marker::Brand;
use std::sync::ledger::{Blank, Ledger};
use std::test::Fail;

// Two processes.
const SPACE: Space16 = Space16(1);

const OTHER: Space16 = Space16(2);

/// What is told of a store once a process that had two ranges is gone, and another has one.
#[derive(Clone, Copy, Debug, PartialEq, Eq)]
struct Told {
    /// How many pages are free before and after.
    free: [u32; 2],
    /// Reads of a page of each range.
    gone: [Result<(), Refusal>; 2],
    /// What is read of the other process's page.
    read: [u8; 2],
    /// Where a range of the process begins once more.
    again: Result<Addr, Refusal>,
}

fn answers<A: Ledger, B: Ledger>(
    store: &mut PageStore,
    reads: &mut Steps<A>,
    takes: &mut Steps<B>,
) -> Told
    requires whole { IsWhole store.old }
    requires ready { IsReady store.old.pool }
{
    let _ = store.alloc_range(SPACE, 2, Perm::ReadWrite);
    let _ = store.alloc_range(OTHER, 1, Perm::ReadWrite);
    let _ = store.alloc_range(SPACE, 1, Perm::ReadWrite);
    let _ = store.write_part(SPACE, Addr(0x2000), b"a", reads, takes);
    let _ = store.write_part(SPACE, Addr(0x3000), b"a", reads, takes);
    let _ = store.write_part(OTHER, Addr(0x1000), b"b", reads, takes);
    let before = store.pool.free_count();
    store.exit_space(SPACE);
    let after = store.pool.free_count();
    let mut read = [7; 2];
    let first = store.read_part(SPACE, Addr(0x2000), &mut read, reads);
    let second = store.read_part(SPACE, Addr(0x3000), &mut read, reads);
    let _ = store.read_part(OTHER, Addr(0x1000), &mut read, reads);
    let again = store.alloc_range(SPACE, 3, Perm::ReadWrite);
    Told {
        free: [before, after],
        gone: [first, second],
        read,
        again,
    }
}

/// What is told of these calls on a new store. No other function owns a store, since each that drops one takes the prover
/// long.
fn answers_of_new<A: Ledger, B: Ledger>(
    alloc: Global,
    config: &NodeConfig,
    reads: &mut Steps<A>,
    takes: &mut Steps<B>,
) -> Result<Told, OpenFault> {
    let mut store = PageStore::create(alloc, config)?;
    Ok(answers(&mut store, reads, takes))
}

fn answers_of_small<A: Ledger, B: Ledger>(
    alloc: Global,
    reads: Blank,
    takes: Blank,
) -> Result<Told, OpenFault>
    requires reads_name { reads.name ≡ A.name }
    requires reads_parts { reads.parts ≡ A.parts }
    requires reads_some { 0 < reads.parts }
    requires takes_name { takes.name ≡ B.name }
    requires takes_parts { takes.parts ≡ B.parts }
    requires takes_some { 0 < takes.parts }
{
    let config = NodeConfig {
        pages: 4,
        buckets: 8,
        ring: 4,
        retry: 4,
        offloads: OffloadList::create(alloc),
    };
    let mut reads = Steps::<A>::create(reads);
    let mut takes = Steps::<B>::create(takes);
    answers_of_new(alloc, &config, &mut reads, &mut takes)
}

#[test]
fn an_exit_takes_out_all_that_a_process_has(rt: HostRuntime) -> Result<(), Fail> {
    let told = answers_of_small::<Brand, Brand>(rt.alloc(), Blank::new(1), Blank::new(1));
    let want = Told {
        free: [1, 3],
        gone: [Err(Refusal::NoMapping), Err(Refusal::NoMapping)],
        read: *b"b\0",
        again: Ok(Addr(0x1000)),
    };
    assert_eq!(rt; told, Ok(want));
    Ok(())
}
