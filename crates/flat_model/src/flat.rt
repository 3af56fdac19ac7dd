//! The flat machine as plain lists of pages, ranges and objects, for the checking of histories.

ghost use Rattle.std.specs.Prelude.{◌≡◌, ◌<◌, Some, IsTrue, [], count_by, is_some, leb, length, option_map, position, slice_get};
ghost use Rattle.std.specs.Option.{option_copied};
ghost use Rattle.cl_types.specs.Pages.{page_of};
ghost use Rattle.flat_model.specs.Rows.{AreFourAtMost, allows, is_at};
ghost use Rattle.flat_model.specs.Checks.{Opens};
ghost use Rattle.cl_types.specs.Places.{is_bucket_count};
ghost use Rattle.flat_model.specs.State.{page_at, used};
ghost use Rattle.flat_model.specs.Step.{is_out_of_pages, is_range};

mod change;
mod fit;
mod object;

use crate::need::{Need, is_allowed};
use crate::page::MappedPage;
use crate::rows::{Place, position_of, take_out, take_out_pages, value_of};
use crate::store::KvStore;
use cl_types::items::NoMemory;
use cl_types::limits::{ADDRESS_END, PAGE_BYTES};
use cl_types::numbers::Addr;
use cl_types::reply::Refusal;
use std::alloc::Global;
use std::marker::Model;

/// The flat machine. A clause sees it as its `FlatState`.
#[derive(Drop)]
pub struct Flat {
    /// In the order of their places.
    map: Vec<(Place, MappedPage)>,
    /// How many pages each range has, by the place of its first page, in the order of the places.
    ranges: Vec<(Place, u16)>,
    objects: Vec<KvStore>,
    held: Vec<Place>,
    pages: u64,
    buckets: u32,
}

impl Model for Flat {
    ghost use Rattle.flat_model.specs.State.{FlatState};

    ghost Value = { FlatState };

    ghost use Rattle.flat_model.specs.Rows.{AreInOrder};

    ghost view = { λ f. record {
      map = f.map.items;
      ranges = f.ranges.items;
      objects = f.objects.items;
      held = f.held.items;
      pages = f.pages;
      buckets = f.buckets;
    } };

    ghost invariant = { λ f. AreInOrder f.map.items f.ranges.items f.held.items f.buckets };
}

fn pages_with_bytes(map: &[(Place, MappedPage)]) -> usize
    ensures { result ≡ count_by (λ entry. is_some entry.1.bytes) map.now }
{
    map.iter().filter(|entry| entry.1.has_bytes()).count()
}

impl Flat {
    /// A machine with no page mapped.
    pub(crate) fn empty(
        alloc: Global,
        objects: Vec<KvStore>,
        held: Vec<Place>,
        pages: u64,
        buckets: u32,
    ) -> Flat
        requires homes { IsTrue (is_bucket_count buckets) }
        requires four { AreFourAtMost buckets held.items }
        ensures { result ≡ record {
          map = [];
          ranges = [];
          objects = objects.items;
          held = held.items;
          pages = pages;
          buckets = buckets;
        } }
    {
        Flat {
            map: Vec::new(alloc),
            ranges: Vec::new(alloc),
            objects,
            held,
            pages,
            buckets,
        }
    }

    /// The page of an address, where it is mapped for the process.
    pub(crate) fn page(&self, pid: u16, addr: Addr) -> Option<&MappedPage>
        requires { addr.0 < ADDRESS_END }
        ensures { option_copied result ≡ page_at self.now pid (page_of addr) }
    {
        value_of(&self.map, (pid, (addr.0 / PAGE_BYTES) as u16))
    }

    // Whether no physical page is free.
    fn is_full(&self) -> bool
        ensures { result ≡ leb self.now.pages (used self.now) }
    {
        let with_bytes = pages_with_bytes(&self.map) as u64;
        self.pages <= with_bytes || self.pages - with_bytes <= self.held.len() as u64
    }

    // Whether the page would need a physical page, and none is free.
    fn is_out_of(&self, page: &MappedPage) -> bool
        ensures { result ≡ is_out_of_pages self.now page.now }
    {
        !page.has_bytes() && self.is_full()
    }

    fn position(&self, pid: u16, addr: Addr) -> Option<usize>
        requires { addr.0 < ADDRESS_END }
        ensures { result ≡ position (is_at (pid, page_of addr)) self.now.map }
    {
        position_of(&self.map, (pid, (addr.0 / PAGE_BYTES) as u16))
    }

    /// The page of an entry.
    pub(crate) fn nth(&self, i: usize) -> &MappedPage
        requires { i < length self.now.map }
        ensures { option_map (λ entry. entry.1) (slice_get self.now.map i) ≡ Some result.now }
    {
        &self.map[i].1
    }

    /// Where the page stands that is to get bytes, or why it gets none.
    pub(crate) fn open(&self, pid: u16, addr: Addr, need: Need) -> Result<usize, Refusal>
        requires { addr.0 < ADDRESS_END }
        ensures { Opens self.now pid addr (allows need) result }
    {
        match self.position(pid, addr) {
            None => Err(Refusal::NoMapping),
            Some(i) => {
                let page = self.nth(i);
                if !is_allowed(need, page.perm()) {
                    return Err(Refusal::NoPermission);
                }
                if self.is_out_of(page) {
                    return Err(Refusal::NoPage);
                }
                Ok(i)
            }
        }
    }

    /// Whether a range of exactly this start and this number of pages stands.
    pub(crate) fn is_range(&self, pid: u16, addr: Addr, pages: u16) -> bool
        requires { addr.0 < ADDRESS_END }
        ensures { result ≡ is_range self.now pid (page_of addr) pages }
    {
        match value_of(&self.ranges, (pid, (addr.0 / PAGE_BYTES) as u16)) {
            None => false,
            Some(n) => *n == pages,
        }
    }
}
