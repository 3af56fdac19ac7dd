//! What changes a flat machine: bytes put into a page, a range taken out, a range mapped.

ghost use Rattle.std.specs.Prelude.{◌≡◌, ◌+◌, ◌<◌, ◌≤◌, OnOk, OnErr, IsTrue, length, slice_get, vec_capacity, vec_len};
ghost use Rattle.std.specs.FinMap.Entries.{is_sorted};
ghost use Rattle.cl_types.specs.Places.{place_cmp};
ghost use Rattle.cl_types.specs.Pages.{page_of};
ghost use Rattle.flat_model.specs.Rows.{keys, put_bytes, with_changed, with_put};
ghost use Rattle.flat_model.specs.State.{fits, places, places_of};
ghost use Rattle.flat_model.specs.Step.{mapped, unmapped, with_fresh};

use crate::flat::Flat;
use crate::page::MappedPage;
use crate::rows::{Place, put, take_out, take_out_pages};
use cl_types::call::Perm;
use cl_types::items::NoMemory;
use cl_types::limits::{ADDRESS_END, PAGE_BYTES, SPACE_PAGES};
use cl_types::numbers::Addr;
use std::alloc::Global;

fn put_in_row(
    alloc: Global,
    map: &mut Vec<(Place, MappedPage)>,
    i: usize,
    at: usize,
    bytes: &[u8],
) -> Result<(), NoMemory>
    requires order { IsTrue (is_sorted place_cmp map.old.items) }
    requires entry { i < length map.old.items }
    requires within { at + length bytes.now ≤ PAGE_BYTES }
    ensures put { OnOk result (map.new.items ≡
        with_changed (with_put at bytes.now) (slice_get map.old.items i) map.old.items) }
    ensures keys { keys map.new.items ≡ keys map.old.items }
    ensures order { IsTrue (is_sorted place_cmp map.new.items) }
    ensures unchanged { OnErr result (map.new.items ≡ map.old.items) }
{
    let entry = &mut map[i];
    entry.1.put(alloc, at, bytes)?;
    Ok(())
}

// Puts fresh pages at their places, the last first. There is room for them.
fn put_fresh(map: &mut Vec<(Place, MappedPage)>, pid: u16, start: u16, n: u16, perm: Perm)
    requires order { IsTrue (is_sorted place_cmp map.old.items) }
    requires within { start + n ≤ SPACE_PAGES }
    requires room { vec_len map.old + n ≤ vec_capacity map.old }
    ensures put { map.new.items ≡ with_fresh perm (places_of pid start n) map.old.items }
    ensures order { IsTrue (is_sorted place_cmp map.new.items) }
{
    for done in 0..n {
        let page = start + (n - 1 - done);
        put(map, (pid, page), MappedPage::fresh(perm));
    }
}

impl Flat {
    /// Puts bytes into the page of an entry. Without memory all stays as it was.
    pub(crate) fn put(
        &mut self,
        alloc: Global,
        i: usize,
        at: usize,
        bytes: &[u8],
    ) -> Result<(), NoMemory>
        requires entry { i < length self.old.map }
        requires within { at + length bytes.now ≤ PAGE_BYTES }
        ensures put { OnOk result (self.new ≡ put_bytes self.old i at bytes.now) }
        ensures unchanged { OnErr result (self.new ≡ self.old) }
    {
        put_in_row(alloc, &mut self.map, i, at, bytes)?;
        Ok(())
    }

    /// Takes out the range and its pages.
    pub(crate) fn unmap(&mut self, pid: u16, addr: Addr, pages: u16)
        requires { addr.0 < ADDRESS_END }
        ensures { self.new ≡ unmapped self.old pid (page_of addr) pages }
    {
        let start = (addr.0 / PAGE_BYTES) as u16;
        take_out_pages(&mut self.map, pid, start, pages);
        take_out(&mut self.ranges, (pid, start));
    }

    /// Maps a range of fresh pages. Without memory all stays as it was.
    pub(crate) fn map(&mut self, pid: u16, start: u16, n: u16, perm: Perm) -> Result<(), NoMemory>
        requires { IsTrue (fits self.old.buckets (places self.old) pid start n) }
        ensures mapped { OnOk result (self.new ≡ mapped self.old pid start n perm) }
        ensures unchanged { OnErr result (self.new ≡ self.old) }
    {
        // With room for all that is put there is no want of memory halfway.
        self.map.reserve(n as usize)?;
        self.ranges.reserve(1)?;
        put_fresh(&mut self.map, pid, start, n, perm);
        put(&mut self.ranges, (pid, start), n);
        Ok(())
    }
}
