//! `Table`: the page table and its calls.

ghost use Rattle.std.specs.Prelude.{◌≡◌, ◌+◌, ◌<◌, [], Some, None, IsSome, IsTrue, IfOk, IfSome};
ghost use Rattle.cl_types.specs.Places.{home_of, is_bucket_count};
ghost use Rattle.hash_buckets.specs.Slots.{look};

use crate::buckets::{Buckets, SLOTS, Slot, free_slot, look_up, slot_of, used};
use cl_types::call::Perm;
use cl_types::items::NoMemory;
use cl_types::numbers::{PageNo, Space16, Vpn};
use cl_types::page::{Pte, home};
use cl_types::steps::Steps;
use std::alloc::Global;
use std::marker::Model;
use std::sync::ledger::Ledger;

/// A page table. Each mapped page is in one of the slots of its home's bucket.
///
/// `find`, `peek`, `room` and `buckets` only look. `insert` and `remove` map a page and unmap it,
/// `set_frame` and `set_perm` change the entry of one that is mapped.
#[derive(Drop)]
pub struct Table {
    buckets: Buckets,
}

impl Model for Table {
    ghost use Rattle.hash_buckets.specs.PageMap.{PageMap};

    ghost Value = { PageMap };

    ghost use Rattle.hash_buckets.specs.Slots.{IsSound, page_map};

    ghost view = { λ t. page_map t.buckets.slots.items };

    ghost invariant = { λ t. IsSound t.buckets.slots.items };
}

impl Table {
    ghost use Rattle.hash_buckets.specs.PageMap.{entry_of, load, with_entry};
    ghost use Rattle.hash_buckets.specs.PageMap.{without_entry, IsValid};

    /// An empty table of so many buckets: a power of two, 2 to 65,536. `NoMemory` comes where an
    /// allocation was refused.
    pub fn create(alloc: Global, buckets: u32) -> Result<Table, NoMemory>
        requires { IsTrue (is_bucket_count buckets) }
        ensures empty { IfOk result (λ t. t ≡ record { buckets = buckets; entries = [] }) }
        ensures valid { IfOk result IsValid }
    {
        Ok(Table {
            buckets: Buckets::create(alloc, buckets)?,
        })
    }

    /// How many buckets there are.
    pub fn buckets(&self) -> u32
        ensures count { result ≡ self.now.buckets }
        ensures valid { IsValid self.now }
    {
        self.buckets.slots.len() as u32
    }

    /// What is said of a page. `None` comes exactly where it isn't mapped. One bucket is read.
    pub fn find<L: Ledger>(&self, space: Space16, vpn: Vpn, reads: &mut Steps<L>) -> Option<Pte>
        ensures entry { result ≡ entry_of self.now (space.0, vpn.0) }
        ensures cost { reads.new ≡ reads.old + 1 }
    {
        look_up(self.read_bucket(space, vpn, reads), space, vpn)
    }

    /// The same with nothing counted, for who looks from outside.
    pub fn peek(&self, space: Space16, vpn: Vpn) -> Option<Pte>
        ensures { result ≡ entry_of self.now (space.0, vpn.0) }
    {
        look_up(self.bucket(space, vpn), space, vpn)
    }

    /// How many more pages a bucket can have: 0 to 4.
    pub fn room(&self, bucket: u32) -> u8
        requires { bucket < self.now.buckets }
        ensures room { result + load self.now bucket ≡ 4 }
        ensures valid { IsValid self.now }
    {
        (SLOTS - used(self.buckets.bucket(bucket as usize))) as u8
    }

    /// Maps a page that isn't mapped, where its home has room.
    pub fn insert(&mut self, space: Space16, vpn: Vpn, pte: Pte)
        requires unmapped { entry_of self.old (space.0, vpn.0) ≡ None }
        requires room { load self.old (home_of self.old.buckets (space.0, vpn.0)) < 4 }
        ensures entries { self.new ≡ with_entry self.old (space.0, vpn.0) pte }
        ensures valid { IsValid self.new }
    {
        let home = self.home(space, vpn);
        let at = free_slot(self.buckets.bucket(home));
        self.buckets.write(home, at, Some(Slot { space, vpn, pte }));
    }

    /// Unmaps a page that is mapped.
    pub fn remove(&mut self, space: Space16, vpn: Vpn)
        requires { IsSome (entry_of self.old (space.0, vpn.0)) }
        ensures entries { self.new ≡ without_entry self.old (space.0, vpn.0) }
        ensures valid { IsValid self.new }
    {
        let home = self.home(space, vpn);
        let at = slot_of(self.buckets.bucket(home), space, vpn);
        self.buckets.write(home, at, None);
    }

    /// Gives a mapped page this frame, in place of one that it may have.
    pub fn set_frame(&mut self, space: Space16, vpn: Vpn, frame: PageNo)
        requires { IsSome (entry_of self.old (space.0, vpn.0)) }
        ensures frame { IfSome (entry_of self.old (space.0, vpn.0)) (λ pte.
            self.new ≡ with_entry self.old (space.0, vpn.0) (record pte { frame = Some frame })) }
        ensures valid { IsValid self.new }
    {
        if let Some(pte) = self.peek(space, vpn) {
            let frame = Some(frame);
            self.replace(space, vpn, Pte { frame, ..pte });
        }
    }

    /// Gives a mapped page this permission.
    pub fn set_perm(&mut self, space: Space16, vpn: Vpn, perm: Perm)
        requires { IsSome (entry_of self.old (space.0, vpn.0)) }
        ensures perm { IfSome (entry_of self.old (space.0, vpn.0)) (λ pte.
            self.new ≡ with_entry self.old (space.0, vpn.0) (record pte { perm = perm })) }
        ensures valid { IsValid self.new }
    {
        if let Some(pte) = self.peek(space, vpn) {
            self.replace(space, vpn, Pte { perm, ..pte });
        }
    }

    // Puts another entry at a page that is mapped.
    fn replace(&mut self, space: Space16, vpn: Vpn, pte: Pte)
        requires { IsSome (entry_of self.old (space.0, vpn.0)) }
        ensures entries { self.new ≡ with_entry self.old (space.0, vpn.0) pte }
        ensures valid { IsValid self.new }
    {
        let home = self.home(space, vpn);
        let at = slot_of(self.buckets.bucket(home), space, vpn);
        self.buckets.write(home, at, Some(Slot { space, vpn, pte }));
    }

    // The home of a page.
    fn home(&self, space: Space16, vpn: Vpn) -> usize
        ensures value { result ≡ home_of self.now.buckets (space.0, vpn.0) }
        ensures below { result < self.now.buckets }
    {
        home(space, vpn, self.buckets()) as usize
    }

    // The bucket of a page's home: all that the table has at the page.
    fn bucket(&self, space: Space16, vpn: Vpn) -> &[Option<Slot>]
        ensures { look result.now (space.0, vpn.0) ≡ entry_of self.now (space.0, vpn.0) }
    {
        self.buckets.bucket(self.home(space, vpn))
    }

    // The same, counted: one bucket is read.
    fn read_bucket<L: Ledger>(
        &self,
        space: Space16,
        vpn: Vpn,
        reads: &mut Steps<L>,
    ) -> &[Option<Slot>]
        ensures entry { look result.now (space.0, vpn.0) ≡ entry_of self.now (space.0, vpn.0) }
        ensures cost { reads.new ≡ reads.old + 1 }
    {
        reads.tick();
        self.bucket(space, vpn)
    }
}
