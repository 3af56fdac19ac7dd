//! `protect_range`: the pages of a range get another permission.

ghost use Rattle.std.specs.Prelude.{true, false, ◌≡◌, ◌==◌, IsTrue};
ghost use Rattle.cl_types.specs.Places.{Place};
ghost use Rattle.hash_buckets.specs.PageMap.{IsValid};
ghost use Rattle.cl_types.specs.Ranges.{is_page_count};
ghost use Rattle.range_alloc.specs.Ranges.{AreRanges, frame_at, span_at, with_perms};

use crate::unmap::span;
use cl_types::call::Perm;
use cl_types::numbers::{Space16, Vpn};
use hash_buckets::Table;

/// Gives the pages of the range of 1 to 1,024 pages that begins here this permission. True comes if and only if a
/// range of this number of pages begins here; false leaves all as it was. No page gets another frame, and no range another length.
pub fn protect_range(table: &mut Table, space: Space16, start: Vpn, pages: u16, perm: Perm) -> bool
    requires pages { IsTrue (is_page_count pages) }
    requires ranges { AreRanges table.old }
    ensures stands { result ≡ (span_at table.old (space.0, start.0) == pages) }
    ensures perms { result ≡ true → table.new ≡ with_perms table.old space.0 start.0 pages perm }
    ensures unchanged { result ≡ false → table.new ≡ table.old }
    ensures frames { (place : Place) → frame_at table.new place ≡ frame_at table.old place }
    ensures spans { (place : Place) → span_at table.new place ≡ span_at table.old place }
    ensures ranges { AreRanges table.new }
    ensures valid { IsValid table.new }
{
    if span(table, space, start) != pages {
        return false;
    }
    for i in 0..pages {
        table.set_perm(space, Vpn(start.0 + i), perm);
    }
    true
}
