//! An Alloc, a Free, a Protect and an Exit: ranges of pages join the store and leave it, and get another permission.

ghost use Rattle.std.specs.Prelude.{◌≡◌, ℕ, ◌+◌, ◌<◌, ◌≤◌, ◌++◌, true, false, length, IsTrue, None};
ghost use Rattle.index_lists.specs.NodeLists.{has};
ghost use Rattle.page_arena.specs.Arena.{page_at};
ghost use Rattle.cl_types.specs.declared.limits.TheConstants.{ADDRESS_END, SPACE_PAGES};
ghost use Rattle.cl_types.specs.declared.reply.Reply.TheVariants.{Nothing, At};
ghost use Rattle.cl_types.specs.Places.{Place, is_process};
ghost use Rattle.page_pool.specs.PoolPages.{free_list, AreZero, IsReady};
ghost use Rattle.translate_cache.specs.Cached.{entry_of as cached_entry};
ghost use Rattle.cl_types.specs.Ranges.{is_page_count};
ghost use Rattle.flat_model.specs.Step.{alloc, free, is_among, unmapped};
ghost use Rattle.range_alloc.specs.Ranges.{span_at};
ghost use Rattle.data_path.specs.Exiting.{exit};
ghost use Rattle.data_path.specs.Protecting.{protect};

use crate::store::{PageStore, page_of};
use cl_types::call::Perm;
use cl_types::limits::PAGE_BYTES;
use cl_types::numbers::{Addr, Space16, Vpn};
use cl_types::reply::Refusal;
use range_alloc::{map_range, protect_range, span, unmap_range};

impl PageStore {
    ghost use Rattle.data_path.specs.Store.{memory_of, IsWhole};
    ghost use Rattle.data_path.specs.Access.{reply_in};

    /// Maps a range of fresh pages for a process at the least start that fits, and gives its first address: an Alloc.
    pub fn alloc_range(&mut self, space: Space16, pages: u16, perm: Perm) -> Result<Addr, Refusal>
        requires pages { IsTrue (is_page_count pages) }
        requires process { IsTrue (is_process space.0) }
        requires whole { IsWhole self.old }
        requires ready { IsReady self.old.pool }
        ensures reply { reply_in At result
            ≡ (alloc (memory_of self.old) space.0 pages perm).reply }
        ensures memory { memory_of self.new
            ≡ (alloc (memory_of self.old) space.0 pages perm).state }
        ensures whole { IsWhole self.new }
        ensures ready { IsReady self.new.pool }
        ensures spaces { self.new.spaces ≡ self.old.spaces }
    {
        match map_range(&mut self.table, space, pages, perm) {
            Some(start) => {
                self.ranges.add(space, start, pages);
                Ok(Addr(u32::from(start.0) * PAGE_BYTES))
            }
            None => Err(Refusal::NoRange),
        }
    }

    /// Takes a range of a process out, with its pages, where one of this start and this number of pages is allocated: a
    /// Free.
    pub fn free_range(&mut self, space: Space16, addr: Addr, pages: u16) -> Result<(), Refusal>
        requires good { addr.0 < ADDRESS_END }
        requires pages { IsTrue (is_page_count pages) }
        requires process { IsTrue (is_process space.0) }
        requires whole { IsWhole self.old }
        requires ready { IsReady self.old.pool }
        ensures reply { reply_in (λ done. Nothing) result
            ≡ (free (memory_of self.old) space.0 addr pages).reply }
        ensures memory { memory_of self.new
            ≡ (free (memory_of self.old) space.0 addr pages).state }
        ensures whole { IsWhole self.new }
        ensures ready { IsReady self.new.pool }
        ensures spaces { self.new.spaces ≡ self.old.spaces }
    {
        let start = page_of(addr);
        if span(&self.table, space, start) != pages {
            return Err(Refusal::NoMapping);
        }
        self.take_out(space, start, pages);
        Ok(())
    }

    /// Takes all ranges of a process out, with their pages: an Exit.
    pub fn exit_space(&mut self, space: Space16)
        requires process { IsTrue (is_process space.0) }
        requires whole { IsWhole self.old }
        requires ready { IsReady self.old.pool }
        ensures memory { memory_of self.new ≡ (exit (memory_of self.old) space.0).state }
        ensures whole { IsWhole self.new }
        ensures ready { IsReady self.new.pool }
        ensures spaces { self.new.spaces ≡ self.old.spaces }
    {
        while let Some(first) = self.ranges.first(space) {
            let pages = span(&self.table, space, first);
            self.take_out(space, first, pages);
        }
    }

    // Takes the range of a process out that begins here, with its pages.
    fn take_out(&mut self, space: Space16, start: Vpn, pages: u16)
        requires stands { span_at self.old.table (space.0, start.0) ≡ pages }
        requires pages { IsTrue (is_page_count pages) }
        requires process { IsTrue (is_process space.0) }
        requires whole { IsWhole self.old }
        requires ready { IsReady self.old.pool }
        ensures memory { memory_of self.new ≡ unmapped (memory_of self.old) space.0 start.0 pages }
        ensures whole { IsWhole self.new }
        ensures ready { IsReady self.new.pool }
        ensures spaces { self.new.spaces ≡ self.old.spaces }
    {
        // The cache first: at no time does it have an entry that the table has no more.
        self.forget(space, start, pages);
        unmap_range(&mut self.table, &mut self.pool, space, start, pages);
        self.ranges.drop_range(space, start);
        self.refill(pages);
    }

    /// Gives the pages of a range of a process this permission, where one of this start and this number of pages is
    /// allocated: a Protect. `NoMapping` comes if and only if there is none.
    pub fn protect_part(
        &mut self,
        space: Space16,
        addr: Addr,
        pages: u16,
        perm: Perm,
    ) -> Result<(), Refusal>
        requires good { addr.0 < ADDRESS_END }
        requires pages { IsTrue (is_page_count pages) }
        requires process { IsTrue (is_process space.0) }
        requires whole { IsWhole self.old }
        requires ready { IsReady self.old.pool }
        ensures reply { reply_in (λ done. Nothing) result
            ≡ (protect (memory_of self.old) space.0 addr pages perm).reply }
        ensures memory { memory_of self.new
            ≡ (protect (memory_of self.old) space.0 addr pages perm).state }
        ensures whole { IsWhole self.new }
        ensures ready { IsReady self.new.pool }
        ensures spaces { self.new.spaces ≡ self.old.spaces }
    {
        let first = page_of(addr);
        if span(&self.table, space, first) != pages {
            return Err(Refusal::NoMapping);
        }
        // The cache first: at no time does it have an old permission where the table has the new one.
        self.forget(space, first, pages);
        protect_range(&mut self.table, space, first, pages, perm);
        Ok(())
    }

    // Takes the entries of these pages out of the cache.
    fn forget(&mut self, space: Space16, start: Vpn, pages: u16)
        requires { start.0 + pages ≤ SPACE_PAGES }
        ensures rest { self.new ≡ record self.old { cache = self.new.cache } }
        ensures gone { (place : Place) → is_among space.0 start.0 pages place ≡ true
            → cached_entry self.new.cache place ≡ None }
        ensures others { (place : Place) → is_among space.0 start.0 pages place ≡ false
            → cached_entry self.new.cache place ≡ cached_entry self.old.cache place }
    {
        for i in 0..pages {
            self.cache.forget(space, Vpn(start.0 + i));
        }
    }

    // Refills the pool once for each page that may have been released.
    fn refill(&mut self, pages: u16)
        requires some { 0 < pages }
        requires arena { length self.old.arena ≡ self.old.pool.pages }
        requires zero { AreZero self.old.arena (self.old.pool.ring ++ self.old.pool.clean) }
        ensures rest { self.new ≡ record self.old { pool = self.new.pool; arena = self.new.arena } }
        ensures free { free_list self.new.pool ≡ free_list self.old.pool }
        ensures kept { self.new.pool.pages ≡ self.old.pool.pages }
        ensures arena { length self.new.arena ≡ length self.old.arena }
        ensures zero { AreZero self.new.arena (self.new.pool.ring ++ self.new.pool.clean) }
        ensures taken { (page : ℕ) → has (free_list self.old.pool) page ≡ false
            → page_at self.new.arena page ≡ page_at self.old.arena page }
        ensures ready { IsReady self.new.pool }
    {
        for _i in 0..pages {
            self.pool.refill(&mut self.arena);
        }
    }
}
