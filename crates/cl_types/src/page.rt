//! The page table's entry, and the bucket in which it stands.

ghost use Rattle.std.specs.Prelude.{◌≡◌, ◌<◌, IsTrue};
ghost use Rattle.cl_types.specs.Places.{is_bucket_count, home_of};

use crate::call::Perm;
use crate::numbers::{PageNo, Space16, Vpn};

/// What the page table says of a mapped page.
#[derive(Clone, Copy, Debug, PartialEq, Eq)]
pub struct Pte {
    /// The physical page that holds its bytes; none where the page is fresh, so that it reads as zeros.
    pub frame: Option<PageNo>,
    /// What may be done with the page.
    pub perm: Perm,
    /// The number of pages of the range that begins here, and 0 at its other pages.
    pub span: u16,
}

/// The bucket of a page, below `buckets`.
#[tactic(auto, using(crate::proofs::HomeLemmas::leading_bits, crate::proofs::HomeLemmas::leading_bits_below))]
pub fn home(space: Space16, vpn: Vpn, buckets: u32) -> u32
    requires { IsTrue (is_bucket_count buckets) }
    ensures value { result ≡ home_of buckets (space.0, vpn.0) }
    ensures below { result < buckets }
{
    let number = space.0 as u64 * 65_536 + vpn.0 as u64;
    let hash = number * 2_654_435_769 % (1 << 32);
    // The leading bits of the hash, by a product: the number of buckets is a power of two.
    (hash * buckets as u64 / (1 << 32)) as u32
}
