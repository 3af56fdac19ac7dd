//! `Cache`: the cache and its calls.

ghost use Rattle.std.specs.Prelude.{◌≡◌, ◌≢◌, ◌≤◌, ◌⊎◌, [], None, Some, IsSome, IfOk, IfSome, is_some};
ghost use Rattle.cl_types.specs.Places.{Place};

use cl_types::items::NoMemory;
use cl_types::numbers::{Space16, Vpn};
use cl_types::page::Pte;
use lru::LruCache;
use std::alloc::Global;
use std::marker::Model;
use std::num::NonZeroUsize;

/// Entries of the page table, the latest used first.
#[derive(Drop)]
pub struct Cache {
    // The key is a space and a page's number there.
    entries: LruCache<(u16, u16), Pte>,
}

impl Model for Cache {
    ghost use Rattle.translate_cache.specs.Cached.{Cached, IsValid};

    ghost Value = { Cached };

    ghost view = { λ c. record { entries = c.entries.entries; capacity = c.entries.cap } };

    ghost invariant = { λ c.
        IsValid (record { entries = c.entries.entries; capacity = c.entries.cap }) };
}

impl Cache {
    ghost use Rattle.translate_cache.specs.Cached.{IsValid, entry_of, used, noted, forgotten, IsFirst};

    /// An empty cache for so many entries, at least 1. `NoMemory` comes where an allocation was
    /// refused.
    pub fn create(alloc: Global, entries: u32) -> Result<Cache, NoMemory>
        requires { 1 ≤ entries }
        ensures empty { IfOk result (λ cache. cache ≡ record { entries = []; capacity = entries }) }
        ensures valid { IfOk result IsValid }
    {
        let Some(capacity) = NonZeroUsize::new(entries as usize) else {
            unreachable!()
        };
        Ok(Cache {
            entries: LruCache::new(alloc, capacity)?,
        })
    }

    /// Whether the cache has an entry of a page. The order of use stays.
    pub fn contains(&self, space: Space16, vpn: Vpn) -> bool
        ensures { result ≡ is_some (entry_of self.now (space.0, vpn.0)) }
    {
        self.entries.contains(&(space.0, vpn.0))
    }

    /// The entry of a page, which is then the latest used. `None` comes exactly where the cache has
    /// none, and then it stays as it was.
    pub fn get(&mut self, space: Space16, vpn: Vpn) -> Option<Pte>
        ensures entry { result ≡ entry_of self.old (space.0, vpn.0) }
        ensures used { self.new ≡ used self.old (space.0, vpn.0) }
        ensures first { IfSome result (IsFirst self.new (space.0, vpn.0)) }
        ensures looks { (place : Place) → entry_of self.new place ≡ entry_of self.old place }
        ensures valid { IsValid self.new }
    {
        self.entries.get(&(space.0, vpn.0)).copied()
    }

    /// Puts the entry of a page first, in place of an older one. A new page pushes the last entry
    /// out of a full cache. Where a new page finds no memory the cache stays as it was.
    pub fn note(&mut self, space: Space16, vpn: Vpn, pte: Pte)
        ensures noted { (self.new ≡ noted self.old (space.0, vpn.0) pte) ⊎ (self.new ≡ self.old) }
        ensures known { IsSome (entry_of self.old (space.0, vpn.0))
            → self.new ≡ noted self.old (space.0, vpn.0) pte }
        ensures first { IsFirst self.new (space.0, vpn.0) pte
            ⊎ (entry_of self.new (space.0, vpn.0) ≡ None) }
        ensures here { IfSome (entry_of self.new (space.0, vpn.0)) (λ found. found ≡ pte) }
        ensures others { (place : Place) → place ≢ (space.0, vpn.0)
            → IfSome (entry_of self.new place) (λ found. entry_of self.old place ≡ Some found) }
        ensures valid { IsValid self.new }
    {
        let _ = self.entries.put((space.0, vpn.0), pte);
    }

    /// Takes out the entry of a page, where the cache has one, and no other.
    pub fn forget(&mut self, space: Space16, vpn: Vpn)
        ensures forgotten { self.new ≡ forgotten self.old (space.0, vpn.0) }
        ensures gone { entry_of self.new (space.0, vpn.0) ≡ None }
        ensures others { (place : Place) → place ≢ (space.0, vpn.0)
            → entry_of self.new place ≡ entry_of self.old place }
        ensures valid { IsValid self.new }
    {
        let _ = self.entries.pop(&(space.0, vpn.0));
    }
}
