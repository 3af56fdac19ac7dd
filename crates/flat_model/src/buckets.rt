//! The buckets of pages.

ghost use Rattle.std.specs.Prelude.{◌≡◌, ◌+◌, ◌≤◌, ◌==◌, IsTrue, if◌then◌else◌};
ghost use Rattle.flat_model.specs.State.{places_of};
ghost use Rattle.cl_types.specs.Places.{home_of, homes_at, is_bucket_count};

use crate::rows::Place;
use cl_types::limits::SPACE_PAGES;
use cl_types::numbers::{Space16, Vpn};
use cl_types::page::home;

/// The bucket of a page.
pub fn home_at(buckets: u32, place: Place) -> u32
    requires { IsTrue (is_bucket_count buckets) }
    ensures { result ≡ home_of buckets place }
{
    home(Space16(place.0), Vpn(place.1), buckets)
}

/// How many of these pages are of a bucket.
pub fn places_at(held: &[Place], buckets: u32, bucket: u32) -> usize
    requires { IsTrue (is_bucket_count buckets) }
    ensures { result ≡ homes_at buckets bucket held.now }
{
    held.iter()
        .filter(|place| home_at(buckets, **place) == bucket)
        .count()
}

// 1 for a page of this home, and 0 for another.
fn one_at(buckets: u32, bucket: u32, place: Place) -> usize
    requires { IsTrue (is_bucket_count buckets) }
    ensures value { result ≡ (if home_of buckets place == bucket then 1 else 0) }
    ensures small { result ≤ 1 }
{
    if home_at(buckets, place) == bucket {
        1
    } else {
        0
    }
}

/// How many pages of a space from `start` on are of a bucket.
pub fn pages_at(buckets: u32, bucket: u32, pid: u16, start: u16, n: u16) -> usize
    requires count { IsTrue (is_bucket_count buckets) }
    requires within { start + n ≤ SPACE_PAGES }
    ensures value { result ≡ homes_at buckets bucket (places_of pid start n) }
    ensures small { result ≤ n }
{
    let mut found = 0;
    for i in 0..n {
        found += one_at(buckets, bucket, (pid, start + i));
    }
    found
}
