//! Allocs that must go far, or find no start.

ghost use Rattle.std.specs.Prelude.{◌≤◌, IsTrue};
ghost use Rattle.cl_types.specs.Ranges.{is_page_count};
ghost use Rattle.data_path.specs.Store.{IsWhole};
ghost use Rattle.page_pool.specs.PoolPages.{IsReady};

use crate::watch::{nanos_since, now};
use cl_types::call::Perm;
use cl_types::config::{NodeConfig, OffloadList};
use cl_types::numbers::{Addr, Space16};
use data_path::PageStore;
use std::io;

const FULL: Space16 = Space16(1);

const HOLES: Space16 = Space16(2);

/// How many pages a hole has, and how many ranges of as many pages fill a space.
const HOLE: u16 = 256;

const HOLE_RANGES: u32 = 255;

/// Maps so many ranges of so many pages.
fn fill(store: &mut PageStore, space: Space16, ranges: u32, pages: u16)
    requires pages { IsTrue (is_page_count pages) }
    requires process { 1 ≤ space.0 }
    requires few { space.0 ≤ 2 }
    requires whole { IsWhole store.old }
    requires ready { IsReady store.old.pool }
    ensures whole { IsWhole store.new }
    ensures ready { IsReady store.new.pool }
{
    for _ in 0..ranges {
        let _start = store.alloc_range(space, pages, Perm::ReadWrite);
    }
}

/// Frees every other range of the space of holes.
fn make_holes(store: &mut PageStore)
    requires whole { IsWhole store.old }
    requires ready { IsReady store.old.pool }
    ensures whole { IsWhole store.new }
    ensures ready { IsReady store.new.pool }
{
    for nth in 0..HOLE_RANGES / 2 {
        let page = 1 + (2 * nth + 1) * u32::from(HOLE);
        let _freed = store.free_range(HOLES, Addr(page * 4096), HOLE);
    }
}

/// The nanoseconds of an Alloc.
fn alloc_nanos(rt: &HostRuntime, store: &mut PageStore, space: Space16, pages: u16) -> u64
    requires pages { IsTrue (is_page_count pages) }
    requires process { 1 ≤ space.0 }
    requires few { space.0 ≤ 2 }
    requires whole { IsWhole store.old }
    requires ready { IsReady store.old.pool }
    ensures whole { IsWhole store.new }
    ensures ready { IsReady store.new.pool }
{
    let start = now(rt);
    let _start = store.alloc_range(space, pages, Perm::ReadWrite);
    nanos_since(rt, start)
}

/// Prints the nanoseconds of Allocs in a nearly full space, in a full one and in one of holes.
pub fn time(rt: &HostRuntime) -> io::Result<()> {
    let config = NodeConfig {
        pages: 64,
        buckets: 65_536,
        ring: 64,
        retry: 64,
        offloads: OffloadList::create(rt.alloc()),
    };
    let Ok(mut store) = PageStore::create(rt.alloc(), &config) else {
        return println!(rt; "no memory for a store");
    };
    fill(&mut store, FULL, 63, 1_024);
    fill(&mut store, HOLES, HOLE_RANGES, HOLE);
    make_holes(&mut store);
    let fail = alloc_nanos(rt, &mut store, FULL, 1_024);
    let again = alloc_nanos(rt, &mut store, FULL, 1_024);
    let holes = alloc_nanos(rt, &mut store, HOLES, 1_024);
    let holes_again = alloc_nanos(rt, &mut store, HOLES, HOLE + 1);
    let one = alloc_nanos(rt, &mut store, FULL, 1);
    let many = alloc_nanos(rt, &mut store, FULL, 64);
    fill(&mut store, FULL, 1, 958);
    let full = alloc_nanos(rt, &mut store, FULL, 1);
    let full_again = alloc_nanos(rt, &mut store, FULL, 1);
    println!(rt;
        "alloc: 1,024 pages of a nearly full space {fail} ns, again {again} ns, of one with holes {holes} ns, a page too many {holes_again} ns; 1 page at the end {one} ns, 64 {many} ns; 1 page of a full space {full} ns, again {full_again} ns"
    )
}
