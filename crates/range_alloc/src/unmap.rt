//! `unmap_range`: a range leaves the table, and its frames go back to the pool.

ghost use Rattle.std.specs.Prelude.{true, false, option_map, ◌≡◌, ◌+◌, ◌<◌, ◌≤◌, ◌==◌, ◌++◌, [], ◌∷◌, IsTrue, IsSome};
ghost use Rattle.std.specs.List.{cons_option};
ghost use Rattle.hash_buckets.specs.PageMap.{IsValid, entry_of, without_entry};
ghost use Rattle.page_pool.specs.PoolPages.{IsPartition, IsTaken};
ghost use Rattle.cl_types.specs.Ranges.{is_page_count};
ghost use Rattle.range_alloc.specs.Ranges.{AreRanges, AreTaken, frame_at, frames_of, span_at, without_range};

use cl_types::numbers::{PageNo, Space16, Vpn};
use hash_buckets::Table;
use page_pool::Pool;

/// Unmaps the range of 1 to 1,024 pages that begins here, and releases the frames of its pages in
/// the order of the pages. True comes exactly where a range of this number of pages begins here;
/// false leaves all as it was.
pub fn unmap_range(
    table: &mut Table,
    pool: &mut Pool,
    space: Space16,
    start: Vpn,
    pages: u16,
) -> bool
    requires pages { IsTrue (is_page_count pages) }
    requires ranges { AreRanges table.old }
    requires taken { AreTaken table.old pool.old }
    ensures stands { result ≡ (span_at table.old (space.0, start.0) == pages) }
    ensures gone { result ≡ true → table.new ≡ without_range table.old space.0 start.0 pages }
    ensures pool { result ≡ true → pool.new ≡ record pool.old {
      dirty = pool.old.dirty ++ frames_of table.old space.0 start.0 pages;
    } }
    ensures unchanged { result ≡ false → (table.new ≡ table.old) × (pool.new ≡ pool.old) }
    ensures ranges { AreRanges table.new }
    ensures taken { AreTaken table.new pool.new }
    ensures valid { IsValid table.new }
{
    if span(table, space, start) != pages {
        return false;
    }
    for i in 0..pages {
        unmap_page(table, pool, space, Vpn(start.0 + i));
    }
    true
}

/// How many pages the range has that begins here, and 0 where none does.
pub fn span(table: &Table, space: Space16, start: Vpn) -> u16
    ensures span { result ≡ span_at table.now (space.0, start.0) }
    ensures valid { IsValid table.now }
{
    // Opens the table: what is valid of it is known from here on.
    table.buckets();
    match table.peek(space, start) {
        Some(pte) => pte.span,
        None => 0,
    }
}

// The frame of a page, where it is mapped and has one.
fn frame(table: &Table, space: Space16, vpn: Vpn) -> Option<PageNo>
    ensures { option_map (λ frame. frame.0) result ≡ frame_at table.now (space.0, vpn.0) }
{
    table.peek(space, vpn)?.frame
}

// Unmaps a page, and releases its frame, where it has one.
fn unmap_page(table: &mut Table, pool: &mut Pool, space: Space16, vpn: Vpn)
    requires mapped { IsSome (entry_of table.old (space.0, vpn.0)) }
    requires taken { AreTaken table.old pool.old }
    ensures gone { table.new ≡ without_entry table.old (space.0, vpn.0) }
    ensures pool { pool.new ≡ record pool.old {
      dirty = pool.old.dirty ++ cons_option (frame_at table.old (space.0, vpn.0)) [];
    } }
    ensures taken { AreTaken table.new pool.new }
    ensures valid { IsValid table.new }
{
    if let Some(frame) = frame(table, space, vpn) {
        pool.release(frame);
    }
    table.remove(space, vpn);
}
