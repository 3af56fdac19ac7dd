//! The configuration of a node and its clients.

ghost use Rattle.std.specs.Prelude.{◌≡◌, None};
ghost use Rattle.cl_types.specs.Config.{bad_number_of, first_bad, judged_offload, judged_offloads, offload_pages, is_within};
ghost use Rattle.cl_types.specs.Places.{is_bucket_count};

use crate::items::Items;
use crate::numbers::{ClientNo, Pid};

/// One offload of a node.
#[derive(Clone, Copy, Debug, PartialEq, Eq)]
pub enum OffloadConfig {
    /// A key-value store of 1 to 4,096 records.
    Kv { records: u64 },
}

/// The offloads of a node, numbered from 0.
pub type OffloadList = Items<OffloadConfig>;

/// How many pages each offload has.
pub type PageCounts = Items<u32>;

/// The clients of a schedule in the order of their lines, each with the process that it works for.
pub type ClientList = Items<(ClientNo, Pid)>;

/// The numbers of a node, as they were given. `bad_number` judges them.
#[derive(Drop)]
pub struct NodeConfig {
    /// How many physical pages it has: 1 to 65,536.
    pub pages: u64,
    /// How many buckets its page table has: a power of two from 2 to 65,536.
    pub buckets: u64,
    /// How many zeroed pages it keeps ready: 1 to 1,024.
    pub ring: u64,
    /// How many replies it keeps for retries: 1 to 65,536.
    pub retry: u64,
    /// Its offloads, at most 16.
    pub offloads: OffloadList,
}

/// A node and its clients.
#[derive(Drop)]
pub struct Config {
    pub node: NodeConfig,
    /// Those of a schedule are 1 to 64, each with a number of its own.
    pub clients: ClientList,
}

/// The numbers of a configuration, in the order in which they are judged.
#[derive(Clone, Copy, Debug, PartialEq, Eq)]
pub enum Field {
    Pages,
    Buckets,
    Ring,
    Retry,
    /// How many offloads there are.
    Offloads,
    /// The records of a key-value store.
    Records,
}

/// Whether the number is in its range, both ends counted.
fn is_from_to(low: u64, high: u64, n: u64) -> bool
    ensures { result ≡ is_within low high n }
{
    low <= n && n <= high
}

/// Whether a page table may have so many buckets.
fn may_be_buckets(n: u64) -> bool
    ensures { result ≡ is_bucket_count n }
{
    matches!(
        n,
        2 | 4
            | 8
            | 16
            | 32
            | 64
            | 128
            | 256
            | 512
            | 1024
            | 2048
            | 4096
            | 8192
            | 16384
            | 32768
            | 65536
    )
}

/// The first number of records that is out of its range.
fn bad_record_count(offloads: &[OffloadConfig]) -> Option<(Field, u64)>
    ensures { result ≡ first_bad (judged_offloads offloads.now) }
{
    for offload in offloads {
        let OffloadConfig::Kv { records } = *offload;
        if !is_from_to(1, 4096, records) {
            return Some((Field::Records, records));
        }
    }
    None
}

/// The first number that is out of its range, in the order pages, buckets, ring, retry, the number of offloads, then
/// each object's number. `None` comes exactly where all are in range.
pub fn bad_number(config: &NodeConfig) -> Option<(Field, u64)>
    ensures { result ≡ bad_number_of config.now }
{
    if !is_from_to(1, 65_536, config.pages) {
        return Some((Field::Pages, config.pages));
    }
    if !may_be_buckets(config.buckets) {
        return Some((Field::Buckets, config.buckets));
    }
    if !is_from_to(1, 1024, config.ring) {
        return Some((Field::Ring, config.ring));
    }
    if !is_from_to(1, 65_536, config.retry) {
        return Some((Field::Retry, config.retry));
    }
    let offloads = config.offloads.as_slice();
    let count = offloads.len() as u64;
    if !is_from_to(0, 16, count) {
        return Some((Field::Offloads, count));
    }
    bad_record_count(offloads)
}

/// How many pages the offload takes. A key-value store has one page, and one for each 13 records or fewer.
pub fn pages_of(offload: &OffloadConfig) -> u32
    requires { first_bad (judged_offload offload.now) ≡ None }
    ensures { result ≡ offload_pages offload.now }
{
    let OffloadConfig::Kv { records } = *offload;
    1 + (records as u32 + 12) / 13
}
