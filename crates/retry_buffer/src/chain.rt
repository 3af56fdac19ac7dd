//! The chain in which a name is looked for.

ghost use Rattle.std.specs.Prelude.{◌≡◌, ◌<◌, ◌≤◌, ◌+◌};
ghost use Rattle.retry_buffer.specs.Chains.{chain_of};

use cl_types::call::Kind;
use cl_types::numbers::ClientNo;

/// How many ids, from a multiple of it on, have chains that stand side by side.
pub const NEIGHBOURS: u64 = 8;

// The odd number next to 2^64 over the golden ratio: the hashes of numbers in a row lie evenly apart.
const STEP: u64 = 0x9E37_79B9_7F4A_7C15;

// Another odd number, so that the hashes of two senders don't fall together.
const SENDER: u64 = 0xC2B2_AE3D_27D4_EB4F;

/// The number of the chain of a name, for `capacity` records. Ids that follow each other mostly have chains that do:
/// a hash that scattered them all would want another line of memory for each record.
#[tactic(auto, unfolding(crate::specs::Chains::chain_of))]
pub fn chain_of(client: ClientNo, kind: Kind, orig: u64, capacity: u32) -> u32
    requires some { 1 ≤ capacity }
    requires most { capacity ≤ 65536 }
    ensures chain { result ≡ chain_of capacity (record { client = client; kind = kind; orig = orig }) }
    ensures below { result < capacity + 7 }
{
    let sender = client.0 as u64 * 8 + u64::from(kind.number());
    let hash = (orig / NEIGHBOURS)
        .wrapping_mul(STEP)
        .wrapping_add(sender.wrapping_mul(SENDER));
    // The leading 32 bits of the hash, scaled to the capacity.
    let first = hash / (1 << 32) * capacity as u64 / (1 << 32);
    (first + orig % NEIGHBOURS) as u32
}
