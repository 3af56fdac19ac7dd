//! `map_range`: the search for the least start that fits, which maps the pages as it goes.

ghost use Rattle.std.specs.Prelude.{ℕ, true, false, ◌≡◌, ◌+◌, ◌-◌, ◌<◌, ◌≤◌, ◌==◌, IsTrue, IsSome, IfNone, IfSome, option_map, if◌then◌else◌};
ghost use Rattle.cl_types.specs.declared.limits.TheConstants.{SPACE_PAGES};
ghost use Rattle.cl_types.specs.Places.{Place, home_of};
ghost use Rattle.hash_buckets.specs.PageMap.{IsValid, entry_of, load, with_entry, without_entry};
ghost use Rattle.cl_types.specs.Ranges.{is_page_count};
ghost use Rattle.flat_model.specs.Rows.{keys};
ghost use Rattle.flat_model.specs.State.{least};
ghost use Rattle.range_alloc.specs.Joins.{SkipsTo, can_join};
ghost use Rattle.range_alloc.specs.Ranges.{AreRanges, frame_at, new_page, with_range};

use crate::unmap::span;
use cl_types::call::Perm;
use cl_types::limits::SPACE_PAGES;
use cl_types::numbers::{Space16, Vpn};
use cl_types::page::{Pte, home};
use hash_buckets::Table;

/// Maps a range of 1 to 1,024 pages at the least start that fits, and gives the start. The pages
/// have no frame. `None` comes exactly where the range fits nowhere.
pub fn map_range(table: &mut Table, space: Space16, pages: u16, perm: Perm) -> Option<Vpn>
    requires pages { IsTrue (is_page_count pages) }
    requires ranges { AreRanges table.old }
    ensures start { option_map (λ vpn. vpn.0) result
        ≡ least table.old.buckets (keys table.old.entries) space.0 pages }
    ensures some { IfSome result (λ vpn.
        table.new ≡ with_range table.old space.0 vpn.0 pages perm) }
    ensures none { IfNone result (table.new ≡ table.old) }
    ensures ranges { AreRanges table.new }
    ensures frames { (place : Place) → frame_at table.new place ≡ frame_at table.old place }
    ensures valid { IsValid table.new }
{
    // Opens the table: what is valid of it is known from here on.
    table.buckets();
    let mut start: u32 = next_start(table, space, 1, 0, pages);
    // So many pages from `start` on have joined the table.
    let mut joined: u32 = 0;
    while start < SPACE_PAGES {
        if joined == u32::from(pages) {
            let start = Vpn(start as u16);
            set_span(table, space, start, pages, perm);
            return Some(start);
        }
        if join(table, space, start + joined, perm) {
            joined += 1;
        } else {
            joined = leave(table, space, start, joined);
            start = next_start(table, space, start + 1, joined, pages);
        }
    }
    None
}

// A page that is mapped anew.
fn new_page(perm: Perm, span: u16) -> Pte
    ensures { result ≡ new_page perm span }
{
    Pte {
        frame: None,
        perm,
        span,
    }
}

// Whether this is a page of the space that isn't mapped, and whose home has room.
fn can_join(table: &Table, space: Space16, page: u32) -> bool
    ensures { result ≡ can_join table.now space.0 page }
{
    if page >= SPACE_PAGES {
        return false;
    }
    let vpn = Vpn(page as u16);
    table.peek(space, vpn).is_none() && table.room(home(space, vpn, table.buckets())) > 0
}

// The last of these pages that can't join.
fn last_blocked(table: &Table, space: Space16, first: u32, end: u32) -> Option<u32>
    ensures { IfSome result (λ page.
        (first ≤ page) × (page < end) × (can_join table.now space.0 page ≡ false)) }
{
    let mut page = end;
    while first < page {
        page -= 1;
        if !can_join(table, space, page) {
            return Some(page);
        }
    }
    None
}

// A page of a range to try that can't join: its first one, or else the last of those that weren't looked at yet.
fn blocked(table: &Table, space: Space16, start: u32, looked: u32, end: u32) -> Option<u32>
    requires ahead { start ≤ looked }
    requires some { start < end }
    ensures { IfSome result (λ page.
        (start ≤ page) × (page < end) × (can_join table.now space.0 page ≡ false)) }
{
    if !can_join(table, space, start) {
        return Some(start);
    }
    last_blocked(table, space, looked, end)
}

// The page behind the range that begins here, or behind this page where none does.
fn behind(table: &Table, space: Space16, page: u32) -> u32
    requires ranges { AreRanges table.now }
    requires page { page < SPACE_PAGES }
    ensures onward { page < result }
    ensures inside { result ≤ SPACE_PAGES }
    ensures mapped { (other : ℕ) → page < other → other < result → IsSome (entry_of table.now (space.0, other)) }
{
    page + u32::from(span(table, space, Vpn(page as u16)).max(1))
}

// The first start from this one on whose pages can each join by themselves, or the end of the space.
fn candidate(table: &Table, space: Space16, first: u32, pages: u16) -> u32
    requires valid { IsValid table.now }
    requires ranges { AreRanges table.now }
    requires pages { IsTrue (is_page_count pages) }
    requires within { first ≤ SPACE_PAGES }
    ensures { SkipsTo table.now space.0 pages first result }
{
    let pages = u32::from(pages);
    let mut start = first;
    // The pages from `start` up to this one can join: they aren't looked at again.
    let mut looked = first;
    while start + pages <= SPACE_PAGES {
        let end = start + pages;
        let Some(page) = blocked(table, space, start, looked, end) else {
            return start;
        };
        start = behind(table, space, page);
        looked = end.max(start);
    }
    SPACE_PAGES
}

// The next start to try: where no page of the window is left, starts with a page that can't join are passed over.
fn next_start(table: &Table, space: Space16, first: u32, joined: u32, pages: u16) -> u32
    requires valid { IsValid table.now }
    requires ranges { joined ≡ 0 → AreRanges table.now }
    requires pages { IsTrue (is_page_count pages) }
    requires within { first ≤ SPACE_PAGES }
    ensures onward { first ≤ result }
    ensures stays { 0 < joined → result ≡ first }
    ensures skips { joined ≡ 0 → SkipsTo table.now space.0 pages first result }
{
    if joined > 0 {
        return first;
    }
    candidate(table, space, first, pages)
}

// Maps the page where it can join, and tells whether it could.
fn join(table: &mut Table, space: Space16, page: u32, perm: Perm) -> bool
    requires { IsValid table.old }
    ensures joins { result ≡ can_join table.old space.0 page }
    ensures joined { result ≡ true → table.new ≡ with_entry table.old (space.0, page) (new_page perm 0) }
    ensures unchanged { result ≡ false → table.new ≡ table.old }
    ensures valid { IsValid table.new }
{
    if !can_join(table, space, page) {
        return false;
    }
    table.insert(space, Vpn(page as u16), new_page(perm, 0));
    true
}

// Unmaps the first of the joined pages, where there is one, and tells how many are left.
fn leave(table: &mut Table, space: Space16, start: u32, joined: u32) -> u32
    requires valid { IsValid table.old }
    requires start { start < SPACE_PAGES }
    requires mapped { 0 < joined → IsSome (entry_of table.old (space.0, start)) }
    ensures left { result ≡ joined - 1 }
    ensures first { 0 < joined → table.new ≡ without_entry table.old (space.0, start) }
    ensures unchanged { joined ≡ 0 → table.new ≡ table.old }
    ensures valid { IsValid table.new }
{
    if joined == 0 {
        return 0;
    }
    table.remove(space, Vpn(start as u16));
    joined - 1
}

// Gives the first page of a range its span: maps it anew.
fn set_span(table: &mut Table, space: Space16, start: Vpn, pages: u16, perm: Perm)
    requires mapped { IsSome (entry_of table.old (space.0, start.0)) }
    requires valid { IsValid table.old }
    ensures spanned { table.new
        ≡ with_entry table.old (space.0, start.0) (new_page perm pages) }
    ensures valid { IsValid table.new }
{
    table.remove(space, start);
    table.insert(space, start, new_page(perm, pages));
}
