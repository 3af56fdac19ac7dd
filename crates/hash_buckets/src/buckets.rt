//! The buckets, each four slots in one piece, and what is done within one bucket.

ghost use Rattle.std.specs.Prelude.{◌≡◌, ◌<◌, ◌≤◌, length, count_by, replicate, is_some, None, IsSome, IfOk, slice_set, slice_index_or};
ghost use Rattle.hash_buckets.specs.Slots.{no_slots, look, place_at, bucket_at};

use cl_types::numbers::{Space16, Vpn};
use cl_types::page::Pte;
use std::alloc::{AllocError, Global};

/// How many pages a bucket can have.
pub const SLOTS: usize = 4;

/// A mapped page, and what is said of it.
#[derive(Clone, Copy)]
pub struct Slot {
    pub space: Space16,
    pub vpn: Vpn,
    pub pte: Pte,
}

// Begun at a multiple of 16, a bucket lies in two lines of 64 bytes at most.
const _: () = prove!(size_of::<[Option<Slot>; SLOTS]>() <= 80);

/// The buckets, by their numbers.
#[derive(Drop)]
pub struct Buckets {
    // In one piece, bucket after bucket.
    pub slots: Vec<[Option<Slot>; SLOTS]>,
}

impl Buckets {
    /// This many buckets, all their slots free.
    pub fn create(alloc: Global, buckets: u32) -> Result<Buckets, AllocError>
        ensures { IfOk result (λ b. b.slots.items ≡ replicate buckets no_slots) }
    {
        let mut slots = Vec::new(alloc);
        slots.resize(buckets as usize, [None; SLOTS])?;
        Ok(Buckets { slots })
    }

    /// The slots of one bucket.
    pub fn bucket(&self, home: usize) -> &[Option<Slot>]
        requires { home < length self.now.slots.items }
        ensures { result.now ≡ bucket_at self.now.slots.items home }
    {
        &self.slots[home]
    }

    /// Writes one slot of one bucket.
    pub fn write(&mut self, home: usize, at: usize, slot: Option<Slot>)
        requires bucket_in { home < length self.old.slots.items }
        requires slot_in { at < 4 }
        ensures { self.new.slots.items
            ≡ slice_set self.old.slots.items home
            (slice_set (bucket_at self.old.slots.items home) at slot) }
    {
        self.slots[home][at] = slot;
    }
}

/// What a bucket has at a page. `None` comes exactly where none of its slots has the page.
pub fn look_up(bucket: &[Option<Slot>], space: Space16, vpn: Vpn) -> Option<Pte>
    ensures { result ≡ look bucket.now (space.0, vpn.0) }
{
    for slot in bucket {
        if let Some(slot) = slot
            && slot.space == space
            && slot.vpn == vpn
        {
            return Some(slot.pte);
        }
    }
    None
}

/// The slot of a page in a bucket that has it.
pub fn slot_of(bucket: &[Option<Slot>], space: Space16, vpn: Vpn) -> usize
    requires { IsSome (look bucket.now (space.0, vpn.0)) }
    ensures within { result < length bucket.now }
    ensures found { place_at bucket.now result ≡ Some (space.0, vpn.0) }
{
    for (at, slot) in bucket.iter().enumerate() {
        if let Some(slot) = slot
            && slot.space == space
            && slot.vpn == vpn
        {
            return at;
        }
    }
    unreachable!()
}

/// How many slots of a bucket have a page.
pub fn used(bucket: &[Option<Slot>]) -> usize
    ensures count { result ≡ count_by is_some bucket.now }
    ensures bound { result ≤ length bucket.now }
{
    bucket.iter().filter(|slot| slot.is_some()).count()
}

/// A free slot of a bucket that has one.
pub fn free_slot(bucket: &[Option<Slot>]) -> usize
    requires { count_by is_some bucket.now < length bucket.now }
    ensures within { result < length bucket.now }
    ensures free { slice_index_or bucket.now result None ≡ None }
{
    for (at, slot) in bucket.iter().enumerate() {
        if slot.is_none() {
            return at;
        }
    }
    unreachable!()
}
