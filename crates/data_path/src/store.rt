//! `PageStore`, and how it finds a page's entry and gives it a frame.

ghost use Rattle.std.specs.Prelude.{◌≡◌, ◌+◌, ◌<◌, ◌≤◌, true, length, Some, IsSome, IfErr, IfNone, IfOk, IfSome};
ghost use Rattle.cl_types.specs.declared.limits.TheConstants.{ADDRESS_END};
ghost use Rattle.hash_buckets.specs.PageMap.{entry_of};
ghost use Rattle.page_pool.specs.PoolPages.{IsReady};
ghost use Rattle.translate_cache.specs.Cached.{entry_of as cached_entry};
ghost use Rattle.cl_types.specs.Pages.{offset_of, page_of};
ghost use Rattle.flat_model.specs.Step.{is_out_of_pages};

use crate::need::{Need, is_allowed};
use cl_types::config::PageCounts;
use cl_types::limits::PAGE_BYTES;
use cl_types::numbers::{Addr, PageNo, Space16, Vpn};
use cl_types::page::Pte;
use cl_types::reply::Refusal;
use cl_types::steps::Steps;
use hash_buckets::Table;
use page_arena::PageArena;
use page_pool::Pool;
use range_alloc::RangeLists;
use std::sync::ledger::Ledger;
use translate_cache::Cache;

/// The pages of a node.
///
/// `read_part` and `write_part` are a Read and a Write. `open` finds the page of an address and gives it a frame, for a
/// caller that then reads and changes its bytes. The table's frames are pages of the arena, and the pool knows which
/// pages no entry names.
#[derive(Drop)]
pub struct PageStore {
    pub table: Table,
    pub pool: Pool,
    pub arena: PageArena,
    /// Entries of the table that were used of late.
    pub cache: Cache,
    /// How many pages each offload has.
    pub spaces: PageCounts,
    /// The ranges of each process, in the order in which they were allocated.
    pub ranges: RangeLists,
}

/// The number of a good address's page.
pub fn page_of(addr: Addr) -> Vpn
    requires { addr.0 < ADDRESS_END }
    ensures { result.0 ≡ page_of addr }
{
    Vpn((addr.0 / PAGE_BYTES) as u16)
}

/// Where an address lies in its page.
pub fn offset_of(addr: Addr) -> usize
    ensures { result ≡ offset_of addr }
{
    (addr.0 % PAGE_BYTES) as usize
}

impl PageStore {
    ghost use Rattle.data_path.specs.Store.{memory_of, page_in, IsCached, IsFit, IsLatest, IsWhole};
    ghost use Rattle.data_path.specs.Access.{allows, IsClosed, IsDenied, IsFound, IsFramed, IsOpen};

    /// Finds the page of an address for what is to be done with its bytes, and gives a fresh page a frame: the frame
    /// in which the bytes are then. It is refused exactly as the flat machine refuses the page's bytes.
    pub fn open<A: Ledger, B: Ledger>(
        &mut self,
        space: Space16,
        addr: Addr,
        need: Need,
        reads: &mut Steps<A>,
        takes: &mut Steps<B>,
    ) -> Result<PageNo, Refusal>
        requires good { addr.0 < ADDRESS_END }
        requires whole { IsWhole self.old }
        requires ready { IsReady self.old.pool }
        ensures refused { IfErr result (λ refusal.
            IsClosed (memory_of self.old) space.0 addr (allows need) refusal) }
        ensures unchanged { IfErr result (λ refusal. memory_of self.new ≡ memory_of self.old) }
        ensures opened { IfOk result (λ frame.
            IsOpen self.old self.new space.0 addr (allows need) frame) }
        ensures whole { IsWhole self.new }
        ensures ready { IsReady self.new.pool }
        ensures cost { reads.new ≤ reads.old + 1 }
        ensures hit { IsSome (cached_entry self.old.cache (space.0, page_of addr))
            → reads.new ≡ reads.old }
        ensures taken { takes.new ≤ takes.old + 1 }
        ensures latest { IsLatest self.new.cache (space.0, page_of addr) }
        ensures spaces { self.new.spaces ≡ self.old.spaces }
    {
        let pte = self.find(space, addr, need, reads)?;
        match self.frame_of(space, page_of(addr), pte, takes) {
            Some(frame) => Ok(frame),
            None => Err(Refusal::NoPage),
        }
    }

    /// The entry of an address's page, where it is mapped and its permission is enough.
    pub(crate) fn find<A: Ledger>(
        &mut self,
        space: Space16,
        addr: Addr,
        need: Need,
        reads: &mut Steps<A>,
    ) -> Result<Pte, Refusal>
        requires good { addr.0 < ADDRESS_END }
        requires cached { IsCached self.old.cache self.old.table }
        ensures denied { IfErr result (λ refusal.
            IsDenied (memory_of self.old) space.0 addr (allows need) refusal) }
        ensures found { IfOk result (λ pte.
            IsFound self.old space.0 addr (allows need) pte) }
        ensures rest { self.new ≡ record self.old { cache = self.new.cache } }
        ensures cached { IsCached self.new.cache self.old.table }
        ensures cost { reads.new ≤ reads.old + 1 }
        ensures hit { IsSome (cached_entry self.old.cache (space.0, page_of addr))
            → reads.new ≡ reads.old }
        ensures latest { IsLatest self.new.cache (space.0, page_of addr) }
    {
        let Some(pte) = self.translate(space, page_of(addr), reads) else {
            return Err(Refusal::NoMapping);
        };
        if !is_allowed(need, pte.perm) {
            return Err(Refusal::NoPermission);
        }
        Ok(pte)
    }

    // The frame of a mapped page. A fresh page gets one, where a page is free.
    fn frame_of<B: Ledger>(
        &mut self,
        space: Space16,
        vpn: Vpn,
        pte: Pte,
        takes: &mut Steps<B>,
    ) -> Option<PageNo>
        requires mapped { entry_of self.old.table (space.0, vpn.0) ≡ Some pte }
        requires fit { IsFit self.old }
        requires ready { IsReady self.old.pool }
        ensures none { IfNone result
            (is_out_of_pages (memory_of self.old) (page_in self.old.arena pte) ≡ true) }
        ensures unchanged { IfNone result (memory_of self.new ≡ memory_of self.old) }
        ensures framed { IfSome result (λ frame.
            IsFramed self.old self.new (space.0, vpn.0) pte frame) }
        ensures fit { IsFit self.new }
        ensures whole { IsWhole self.old → IsWhole self.new }
        ensures ready { IsReady self.new.pool }
        ensures taken { takes.new ≤ takes.old + 1 }
        ensures latest { IsLatest self.old.cache (space.0, vpn.0)
            → IsLatest self.new.cache (space.0, vpn.0) }
        ensures spaces { self.new.spaces ≡ self.old.spaces }
    {
        if let Some(frame) = pte.frame {
            return Some(frame);
        }
        let frame = self.pool.take(takes)?;
        let framed = Pte {
            frame: Some(frame),
            ..pte
        };
        self.table.set_frame(space, vpn, frame);
        self.cache.note(space, vpn, framed);
        self.pool.refill(&mut self.arena);
        Some(frame)
    }

    // The entry of a page, by the cache or else by the table.
    fn translate<A: Ledger>(
        &mut self,
        space: Space16,
        vpn: Vpn,
        reads: &mut Steps<A>,
    ) -> Option<Pte>
        requires { IsCached self.old.cache self.old.table }
        ensures entry { result ≡ entry_of self.old.table (space.0, vpn.0) }
        ensures rest { self.new ≡ record self.old { cache = self.new.cache } }
        ensures cached { IsCached self.new.cache self.old.table }
        ensures cost { reads.new ≤ reads.old + 1 }
        ensures hit { IsSome (cached_entry self.old.cache (space.0, vpn.0))
            → reads.new ≡ reads.old }
        ensures latest { IsLatest self.new.cache (space.0, vpn.0) }
    {
        if let Some(pte) = self.cache.get(space, vpn) {
            return Some(pte);
        }
        let pte = self.table.find(space, vpn, reads)?;
        self.cache.note(space, vpn, pte);
        Some(pte)
    }
}
