//! An Exit, by the ranges that its process has.

ghost use Rattle.std.specs.Prelude.{IsTrue};
ghost use Rattle.cl_types.specs.Ranges.{is_page_count};
ghost use Rattle.data_path.specs.Store.{IsWhole};
ghost use Rattle.page_pool.specs.PoolPages.{IsReady};

use crate::watch::{nanos_since, now};
use cl_types::call::Perm;
use cl_types::config::{NodeConfig, OffloadList};
use cl_types::numbers::Space16;
use data_path::PageStore;
use std::io;

const SPACE: Space16 = Space16(1);

/// The nanoseconds of an Exit of a process with so many ranges of so many pages, which were never touched.
fn exit_nanos(rt: &HostRuntime, store: &mut PageStore, ranges: u32, pages: u16) -> u64
    requires pages { IsTrue (is_page_count pages) }
    requires whole { IsWhole store.old }
    requires ready { IsReady store.old.pool }
    ensures whole { IsWhole store.new }
    ensures ready { IsReady store.new.pool }
{
    for _ in 0..ranges {
        let _start = store.alloc_range(SPACE, pages, Perm::ReadWrite);
    }
    let start = now(rt);
    store.exit_space(SPACE);
    nanos_since(rt, start)
}

/// Prints the nanoseconds of Exits from a store with room for 32,768 pages.
pub fn time(rt: &HostRuntime) -> io::Result<()> {
    let config = NodeConfig {
        pages: 16_384,
        buckets: 8_192,
        ring: 64,
        retry: 64,
        offloads: OffloadList::create(rt.alloc()),
    };
    let Ok(mut store) = PageStore::create(rt.alloc(), &config) else {
        return println!(rt; "no memory for a store");
    };
    let one = exit_nanos(rt, &mut store, 1, 1);
    let again = exit_nanos(rt, &mut store, 1, 1);
    let hundred = exit_nanos(rt, &mut store, 100, 1);
    let many = exit_nanos(rt, &mut store, 10_000, 1);
    let long = exit_nanos(rt, &mut store, 10, 1_000);
    println!(rt;
        "exit: 1 range {one} ns, again {again} ns, 100 {hundred} ns, 10,000 {many} ns; 10 of 1,000 pages {long} ns"
    )
}
