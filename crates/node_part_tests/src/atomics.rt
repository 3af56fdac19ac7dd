//! A test of `word_atomics`: atomics on one word, one after the other.

ghost use Rattle.std.specs.Prelude.{◌≡◌, ◌<◌};
ghost use Rattle.data_path.specs.Store.{IsWhole};
ghost use Rattle.page_pool.specs.PoolPages.{IsReady};

use crate::store::opened;
use cl_types::call::{AtomicOp, Perm};
use cl_types::config::OffloadList;
use cl_types::numbers::{Addr, Space16};
use cl_types::open_fault::OpenFault;
use cl_types::reply::Refusal;
use cl_types::steps::Steps;
use data_path::PageStore;
use std::alloc::Global;
use std::marker::Brand;
use std::sync::ledger::{Blank, Ledger};
use word_atomics::apply;

const SPACE: Space16 = Space16(1);

/// Takes a lock, adds to its word past the greatest one, and changes a page that isn't mapped.
fn apply_thrice<A: Ledger, B: Ledger>(
    store: &mut PageStore,
    reads: &mut Steps<A>,
    takes: &mut Steps<B>,
) -> [Result<u64, Refusal>; 3]
    requires whole { IsWhole store.old }
    requires ready { IsReady store.old.pool }
{
    let word = Addr(0x1008);
    let lock = AtomicOp::Lock;
    let add = AtomicOp::Add { n: u64::MAX };
    [
        apply(store, SPACE, word, lock, reads, takes),
        apply(store, SPACE, word, add, reads, takes),
        apply(store, SPACE, Addr(0x2000), add, reads, takes),
    ]
}

/// The same in a new store, of which a page is mapped.
fn words<A: Ledger, B: Ledger>(
    alloc: Global,
    reads: Blank,
    takes: Blank,
) -> Result<[Result<u64, Refusal>; 3], OpenFault>
    requires reads_name { reads.name ≡ A.name }
    requires reads_parts { reads.parts ≡ A.parts }
    requires reads_some { 0 < reads.parts }
    requires takes_name { takes.name ≡ B.name }
    requires takes_parts { takes.parts ≡ B.parts }
    requires takes_some { 0 < takes.parts }
{
    let mut reads = Steps::<A>::create(reads);
    let mut takes = Steps::<B>::create(takes);
    let mut store = opened(alloc, 16, OffloadList::create(alloc))?;
    let _ = store.alloc_range(SPACE, 1, Perm::ReadWrite);
    Ok(apply_thrice(&mut store, &mut reads, &mut takes))
}

#[test]
fn an_atomic_gives_the_word_before_it(rt: HostRuntime) {
    let told = words::<Brand, Brand>(rt.alloc(), Blank::new(1), Blank::new(1));
    assert!(rt; told == Ok([Ok(0), Ok(1), Err(Refusal::NoMapping)]));
}
