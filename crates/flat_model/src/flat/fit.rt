//! Where a range fits.

ghost use Rattle.std.specs.Prelude.{◌≡◌, ◌+◌, ◌==◌, ◌<◌, ◌≤◌, ◌^◌, IsTrue, count_by, leb, map, not};
ghost use Rattle.std.specs.List.{list_all, list_any, range_with_len};
ghost use Rattle.std.specs.Ordering.{eq_by_cmp};
ghost use Rattle.cl_types.specs.Places.{home_of, homes_at, is_bucket_count, place_cmp};
ghost use Rattle.flat_model.specs.Rows.{has_room_at, has_room_everywhere};
ghost use Rattle.flat_model.specs.State.{fits, is_mapped, least, load, places, places_of};

use crate::buckets::{home_at, pages_at, places_at};
use crate::flat::Flat;
use crate::page::MappedPage;
use crate::rows::{Place, is_same};
use cl_types::limits::{BUCKET_PAGES, SPACE_PAGES};

fn is_key(map: &[(Place, MappedPage)], place: Place) -> bool
    ensures { result ≡ list_any (λ entry. eq_by_cmp place_cmp place entry.0) map.now }
{
    map.iter().any(|entry| is_same(place, entry.0))
}

fn is_there(held: &[Place], place: Place) -> bool
    ensures { result ≡ list_any (eq_by_cmp place_cmp place) held.now }
{
    held.iter().any(|other| is_same(place, *other))
}

fn keys_at(map: &[(Place, MappedPage)], buckets: u32, bucket: u32) -> usize
    requires { IsTrue (is_bucket_count buckets) }
    ensures { result ≡ count_by (λ entry. home_of buckets entry.0 == bucket) map.now }
{
    map.iter()
        .filter(|entry| home_at(buckets, entry.0) == bucket)
        .count()
}

fn fit_in_a_bucket(a: usize, b: usize, c: usize) -> bool
    ensures { result ≡ leb (a + b + c) BUCKET_PAGES }
{
    let most = BUCKET_PAGES as usize;
    a <= most && b <= most && c <= most && a + b + c <= most
}

impl Flat {
    fn is_mapped(&self, place: Place) -> bool
        ensures { result ≡ list_any (λ entry. eq_by_cmp place_cmp place entry.0) self.now.map }
    {
        is_key(&self.map, place)
    }

    fn is_held(&self, place: Place) -> bool
        ensures { result ≡ list_any (eq_by_cmp place_cmp place) self.now.held }
    {
        is_there(&self.held, place)
    }

    // Whether the page is mapped, or an offload's.
    #[tactic(auto, using(crate::proofs::FitLemmas::mapped_either))]
    fn holds(&self, place: Place) -> bool
        ensures { result ≡ is_mapped (places self.now) place }
    {
        self.is_mapped(place) || self.is_held(place)
    }

    fn mapped_at(&self, bucket: u32) -> usize
        ensures { result ≡ count_by (λ entry. home_of self.now.buckets entry.0 == bucket) self.now.map }
    {
        keys_at(&self.map, self.buckets, bucket)
    }

    fn held_at(&self, bucket: u32) -> usize
        ensures { result ≡ homes_at self.now.buckets bucket self.now.held }
    {
        places_at(&self.held, self.buckets, bucket)
    }

    fn home(&self, page: Place) -> u32
        ensures { result ≡ home_of self.now.buckets page }
    {
        home_at(self.buckets, page)
    }

    fn new_at(&self, bucket: u32, pid: u16, start: u16, n: u16) -> usize
        requires { start + n ≤ SPACE_PAGES }
        ensures { result ≡ homes_at self.now.buckets bucket (places_of pid start n) }
    {
        pages_at(self.buckets, bucket, pid, start, n)
    }

    // Whether the bucket of a page has room for these pages of a process.
    fn has_room(&self, page: Place, pid: u16, start: u16, n: u16) -> bool
        requires { start + n ≤ SPACE_PAGES }
        ensures { result ≡ has_room_at self.now (places_of pid start n) page }
    {
        let bucket = self.home(page);
        fit_in_a_bucket(
            self.mapped_at(bucket),
            self.held_at(bucket),
            self.new_at(bucket, pid, start, n),
        )
    }

    fn are_free(&self, pid: u16, start: u16, n: u16) -> bool
        requires { start + n ≤ SPACE_PAGES }
        ensures { result ≡
            list_all (λ place. not (is_mapped (places self.now) place)) (places_of pid start n) }
    {
        for i in 0..n {
            if self.holds((pid, start + i)) {
                return false;
            }
        }
        true
    }

    fn has_room_for_each(&self, pid: u16, start: u16, n: u16) -> bool
        requires { start + n ≤ SPACE_PAGES }
        ensures { result ≡ list_all (has_room_at self.now (places_of pid start n)) (places_of pid start n) }
    {
        for i in 0..n {
            if !self.has_room((pid, start + i), pid, start, n) {
                return false;
            }
        }
        true
    }

    // Whether each bucket has room. No bucket has more than four pages yet, so the buckets of the new
    // pages are enough.
    fn have_room(&self, pid: u16, start: u16, n: u16) -> bool
        requires { start + n ≤ SPACE_PAGES }
        ensures { result ≡ has_room_everywhere self.now (places_of pid start n) }
    {
        // Opens the machine: its invariant is what is known of the buckets.
        let _ = &self.buckets;
        self.has_room_for_each(pid, start, n)
    }

    /// Whether so many pages fit at this start.
    pub(crate) fn fits(&self, pid: u16, start: u32, n: u16) -> bool
        requires some { 1 ≤ n }
        requires small { start < 2 ^ 31 }
        ensures { result ≡ fits self.now.buckets (places self.now) pid start n }
    {
        if start < 1 || start + u32::from(n) > SPACE_PAGES {
            return false;
        }
        self.are_free(pid, start as u16, n) && self.have_room(pid, start as u16, n)
    }

    /// The least start at which so many pages fit.
    pub(crate) fn least_start(&self, pid: u16, n: u16) -> Option<u32>
        requires { 1 ≤ n }
        ensures { result ≡ least self.now.buckets (places self.now) pid n }
    {
        for start in 1..SPACE_PAGES {
            if self.fits(pid, start, n) {
                return Some(start);
            }
        }
        None
    }
}
