//! Whether the pages of the offloads go into a node.

ghost use Rattle.std.specs.Prelude.{◌≡◌, ◌+◌, ◌≤◌, ◌<◌, IfNone, IsTrue, None, length};
ghost use Rattle.std.specs.List.{list_all};
ghost use Rattle.cl_types.specs.Config.{bad_number_of};
ghost use Rattle.cl_types.specs.Places.{homes_at, is_bucket_count, space_no};
ghost use Rattle.flat_model.specs.Opening.{has_room, held_by, pages_at, room_fault};
ghost use Rattle.flat_model.specs.Rows.{AreFourAtMost, has_room_among};
ghost use Rattle.flat_model.specs.State.{held_from, places_of};

use crate::buckets::{home_at, pages_at};
use crate::rows::Place;
use cl_types::config::{NodeConfig, pages_of};
use cl_types::limits::BUCKET_PAGES;
use cl_types::numbers::LAST_PID;
use cl_types::open_fault::OpenFault;

/// How many offloads a node has.
#[tactic(auto, using(crate::proofs::OpeningLemmas::few_offloads))]
pub fn offload_count(config: &NodeConfig) -> u8
    requires { bad_number_of config.now ≡ None }
    ensures value { result ≡ length config.now.offloads }
    ensures few { result ≤ 16 }
{
    config.offloads.as_slice().len() as u8
}

/// How many pages the offload has.
pub fn page_count(config: &NodeConfig, k: u8) -> u16
    requires good { bad_number_of config.now ≡ None }
    requires within { k < length config.now.offloads }
    ensures value { result ≡ pages_at config.now.offloads k }
    ensures small { result ≤ 317 }
{
    pages_of(&config.offloads.as_slice()[k as usize]) as u16
}

/// The number of the offload's space.
pub fn space_of(k: u8) -> u16
    ensures { result ≡ space_no k }
{
    LAST_PID + 1 + k as u16
}

// How many pages the first `k` offloads have.
fn held_count(config: &NodeConfig, k: u8) -> u64
    requires good { bad_number_of config.now ≡ None }
    requires within { k ≤ length config.now.offloads }
    ensures { result ≡ length (held_by config.now k) }
{
    let mut count = 0;
    for j in 0..k {
        count += u64::from(page_count(config, j));
    }
    count
}

// How many of them have this home.
#[tactic(auto, using(crate::proofs::OpeningLemmas::good_buckets))]
fn held_at(config: &NodeConfig, k: u8, bucket: u32) -> usize
    requires good { bad_number_of config.now ≡ None }
    requires within { k ≤ length config.now.offloads }
    ensures { result ≡ homes_at config.now.buckets bucket (held_by config.now k) }
{
    let buckets = bucket_count(config);
    let mut found = 0;
    for j in 0..k {
        found += pages_at(buckets, bucket, space_of(j), 1, page_count(config, j));
    }
    found
}

/// How many buckets the node's page table has.
#[tactic(auto, using(crate::proofs::OpeningLemmas::good_buckets, crate::proofs::BucketLemmas::few_buckets))]
pub fn bucket_count(config: &NodeConfig) -> u32
    requires { bad_number_of config.now ≡ None }
    ensures value { result ≡ config.now.buckets }
    ensures homes { IsTrue (is_bucket_count config.now.buckets) }
{
    config.buckets as u32
}

// Whether the bucket of a page has room for the pages of the first `k` offloads.
fn has_room_at(config: &NodeConfig, k: u8, page: Place) -> bool
    requires good { bad_number_of config.now ≡ None }
    requires within { k ≤ length config.now.offloads }
    ensures { result ≡ has_room_among config.now k page }
{
    let bucket = home_at(bucket_count(config), page);
    held_at(config, k, bucket) <= BUCKET_PAGES as usize
}

// Whether the buckets of the offload's pages have room for the pages up to it.
fn buckets_have_room(config: &NodeConfig, k: u8) -> bool
    requires good { bad_number_of config.now ≡ None }
    requires within { k < length config.now.offloads }
    ensures { let pages = places_of (space_no k) 1 (pages_at config.now.offloads k) in
        result ≡ list_all (has_room_among config.now (k + 1)) pages }
{
    let space = space_of(k);
    let n = page_count(config, k);
    for i in 0..n {
        if !has_room_at(config, k + 1, (space, 1 + i)) {
            return false;
        }
    }
    true
}

// Whether there is room for the pages up to this offload. The pages before it bring no bucket
// above four, so the buckets of its own pages are enough.
#[tactic(auto, using(crate::proofs::OpeningLemmas::buckets_held))]
fn has_room_for(config: &NodeConfig, k: u8) -> bool
    requires good { bad_number_of config.now ≡ None }
    requires within { k < length config.now.offloads }
    requires four { AreFourAtMost config.now.buckets (held_by config.now k) }
    ensures { result ≡ has_room config.now (held_by config.now (k + 1)) }
{
    held_count(config, k + 1) <= config.pages && buckets_have_room(config, k)
}

/// The first offload with which there is no room.
pub fn offload_without_room(config: &NodeConfig) -> Option<OpenFault>
    requires { bad_number_of config.now ≡ None }
    ensures fault { result ≡ room_fault config.now }
    ensures four { IfNone result (AreFourAtMost config.now.buckets (held_from 0 config.now.offloads)) }
{
    let count = offload_count(config);
    for k in 0..count {
        if !has_room_for(config, k) {
            return Some(OpenFault::NoRoom {
                offload: k,
                pages: u32::from(page_count(config, k)),
            });
        }
    }
    None
}
