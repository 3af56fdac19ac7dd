//! `Pool`: the pool and its calls.

ghost use Rattle.std.specs.Prelude.{◌≡◌, ℕ, ◌+◌, ◌-◌, ◌≤◌, ◌↔◌, false, [], ◌∷◌, ◌++◌, length, drop, min, slice_get, is_some, option_map, IsNone, IfSome, IfOk, if◌then◌else◌};
ghost use Rattle.std.specs.List.{range_with_len};
ghost use Rattle.index_lists.specs.NodeLists.{has};
ghost use Rattle.page_arena.specs.Arena.{page_at};

use circular_buffer::HeapCircularBuffer;
use cl_types::items::NoMemory;
use cl_types::numbers::PageNo;
use cl_types::steps::Steps;
use index_lists::Lists;
use page_arena::PageArena;
use std::alloc::Global;
use std::marker::Model;
use std::sync::ledger::Ledger;

// The list of the clean pages.
const CLEAN: u32 = 0;

// The list of the dirty pages.
const DIRTY: u32 = 1;

/// The pages of a node: a ring of zeroed ones, the clean, the dirty, and those that are taken.
///
/// `take` and `release` give a page out and get it back. Whoever calls one of them calls `refill`
/// next, so that the pool is ready again.
#[derive(Drop)]
pub struct Pool {
    ring: HeapCircularBuffer<u32>,
    // Two lists of the pages that are in neither the ring nor taken: `CLEAN` and `DIRTY`.
    lists: Lists,
    // How many pages aren't taken.
    free: u32,
}

impl Model for Pool {
    ghost use Rattle.page_pool.specs.PoolPages.{PoolPages};

    ghost Value = { PoolPages };

    ghost use Rattle.page_pool.specs.Kept.{IsSound, pool_pages};

    ghost view = { λ p. pool_pages p.ring p.lists };

    ghost invariant = { λ p. IsSound p.ring p.lists p.free };
}

impl Pool {
    ghost use Rattle.page_pool.specs.PoolPages.{free_list, free_pages, moved};
    ghost use Rattle.page_pool.specs.PoolPages.{IsTaken, IsPartition, IsReady, AreZero};

    /// A pool of so many pages, all free, at most 65,536. Its ring has room for `ring` of them, at
    /// least 1, and holds the first, as far as they last; the others are clean. `NoMemory` comes
    /// where an allocation was refused.
    pub fn create(alloc: Global, pages: u32, ring: u32) -> Result<Pool, NoMemory>
        requires pages { pages ≤ 65536 }
        requires ring { 1 ≤ ring }
        ensures free { IfOk result (λ pool. pool ≡ record {
          pages = pages;
          capacity = ring;
          ring = range_with_len 0 (min pages ring);
          clean = range_with_len (min pages ring) (pages - ring);
          dirty = [];
        }) }
        ensures parted { IfOk result IsPartition }
        ensures ready { IfOk result IsReady }
    {
        let mut filled = HeapCircularBuffer::with_capacity(alloc, ring as usize)?;
        let Ok(mut lists) = Lists::create(alloc, pages, 2) else {
            return Err(NoMemory);
        };
        for page in 0..pages {
            if page < ring {
                filled.push_back(page);
            } else {
                lists.push_back(CLEAN, page);
            }
        }
        Ok(Pool {
            ring: filled,
            lists,
            free: pages,
        })
    }

    /// How many pages aren't taken.
    pub fn free_count(&self) -> u32
        ensures count { result ≡ free_pages self.now }
        ensures parted { IsPartition self.now }
    {
        self.free
    }

    /// Takes the first page of the ring, and counts it. `None` comes exactly where no page is
    /// free, and then nothing is counted.
    pub fn take<L: Ledger>(&mut self, takes: &mut Steps<L>) -> Option<PageNo>
        requires { IsReady self.old }
        ensures page { option_map (λ page. page.0) result ≡ slice_get self.old.ring 0 }
        ensures none { IsNone result ↔ (free_pages self.old ≡ 0) }
        ensures taken { IfSome result (λ page. IsTaken self.new page.0) }
        ensures free { IfSome result (λ page. free_list self.old ≡ page.0 ∷ free_list self.new) }
        ensures rest { self.new ≡ record self.old { ring = drop 1 self.old.ring } }
        ensures parted { IsPartition self.new }
        ensures cost { takes.new ≡ takes.old + (if is_some result then 1 else 0) }
    {
        let page = self.ring.pop_front()?;
        self.free -= 1;
        takes.tick();
        Some(PageNo(page))
    }

    /// Takes a page back that is taken. It is dirty then, whatever its bytes are.
    pub fn release(&mut self, page: PageNo)
        requires { IsTaken self.old page.0 }
        ensures dirty { self.new ≡ record self.old { dirty = self.old.dirty ++ page.0 ∷ [] } }
        ensures parted { IsPartition self.new }
    {
        self.lists.push_back(DIRTY, page.0);
        self.free += 1;
    }

    /// Moves one page into the ring where the ring has space and a clean or a dirty page stands,
    /// and else none. A clean page goes before a dirty one, and a dirty one is zeroed. The arena is
    /// the pool's, with as many pages.
    pub fn refill(&mut self, arena: &mut PageArena)
        requires pages { length arena.old ≡ self.old.pages }
        requires zero { AreZero arena.old (self.old.ring ++ self.old.clean) }
        ensures moves { self.new ≡ moved self.old }
        ensures free { free_list self.new ≡ free_list self.old }
        ensures kept { self.new.pages ≡ self.old.pages }
        ensures parted { IsPartition self.new }
        ensures ready { IsReady self.new }
        ensures pages { length arena.new ≡ length arena.old }
        ensures zero { AreZero arena.new (self.new.ring ++ self.new.clean) }
        ensures others { (page : ℕ) → has self.old.dirty page ≡ false
            → page_at arena.new page ≡ page_at arena.old page }
    {
        if self.ring.is_full() {
            return;
        }
        if let Some(page) = self.lists.pop_front(CLEAN) {
            self.ring.push_back(page);
        } else if let Some(page) = self.lists.pop_front(DIRTY) {
            arena.zero(page);
            self.ring.push_back(page);
        }
    }
}
