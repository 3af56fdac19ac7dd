//! The opening of a store: the pages of the offloads are mapped, each with a frame of zeros.

ghost use Rattle.std.specs.Prelude.{◌≡◌, ℕ, ◌+◌, ◌<◌, ◌≤◌, ◌==◌, ◌∷◌, ◌++◌, [], false, length, map, None, Err, IfErr, IfOk, IsTrue, OnOk, MatchOption, if◌then◌else◌};
ghost use Rattle.index_lists.specs.NodeLists.{has};
ghost use Rattle.page_arena.specs.Arena.{page_at};
ghost use Rattle.cl_types.specs.declared.limits.TheConstants.{SPACE_PAGES};
ghost use Rattle.cl_types.specs.Bytes.{fresh_bytes};
ghost use Rattle.cl_types.specs.Config.{bad_number_of, offload_pages};
ghost use Rattle.cl_types.specs.Places.{home_of, is_bucket_count};
ghost use Rattle.hash_buckets.specs.PageMap.{load};
ghost use Rattle.page_pool.specs.PoolPages.{free_list, free_pages, AreZero, IsReady};
ghost use Rattle.flat_model.specs.Objects.{empty_object};
ghost use Rattle.flat_model.specs.Opening.{open_fault};
ghost use Rattle.flat_model.specs.Rows.{keys, AreFourAtMost};
ghost use Rattle.flat_model.specs.State.{opening};

use crate::space::space_no;
use crate::store::PageStore;
use cl_types::call::Perm;
use cl_types::config::{NodeConfig, PageCounts, pages_of};
use cl_types::items::NoMemory;
use cl_types::limits::BUCKET_PAGES;
use cl_types::numbers::{PageNo, Space16, Vpn};
use cl_types::open_fault::OpenFault;
use cl_types::page::Pte;
use cl_types::steps::Steps;
use flat_model::opening;
use hash_buckets::Table;
use page_arena::PageArena;
use page_pool::Pool;
use range_alloc::RangeLists;
use std::alloc::Global;
use std::marker::Brand;
use std::sync::ledger::{Blank, Ledger};
use translate_cache::Cache;

/// How many entries of the table the cache has room for.
pub const CACHED_ENTRIES: u32 = 64;

// Why a node of this configuration doesn't open, if it doesn't: the flat machine tells it at its own opening. That a
// number is bad or an offload has no room is told whether there is memory or not.
fn judge(alloc: Global, config: &NodeConfig) -> Result<(), OpenFault>
    ensures good { IfOk result (λ done. open_fault config.now ≡ None) }
    ensures numbers { IfOk result (λ done. bad_number_of config.now ≡ None) }
    ensures fault { MatchOption (open_fault config.now) (IfErr result (λ fault. fault ≡ OpenFault.NoMemory))
        (λ fault. result ≡ Err fault) }
{
    opening::create(alloc, config)?;
    Ok(())
}

// The span of a page of a range, by how many of its pages stand before it.
fn span_of(before: u16, pages: u16) -> u16
    ensures { result ≡ (if before == 0 then pages else 0) }
{
    if before == 0 { pages } else { 0 }
}

impl PageStore {
    ghost use Rattle.data_path.specs.Store.{flat_of, held_places, memory_of, no_entries, IsWhole};
    ghost use Rattle.data_path.specs.Opened.{opened_memory};
    ghost use Rattle.data_path.specs.Laying.{rows_from, rows_of, IsBehind, IsLaid};

    /// The store of a node at its opening: the pages of the offloads are mapped for reading and writing, as one range
    /// of each offload's space, with frames of zeros. It is refused as the flat machine refuses to open, or for want of
    /// memory.
    pub fn create(alloc: Global, config: &NodeConfig) -> Result<PageStore, OpenFault>
        ensures fault { MatchOption (open_fault config.now) (IfErr result (λ fault. fault ≡ OpenFault.NoMemory))
            (λ fault. result ≡ Err fault) }
        ensures spaces { IfOk result (λ store. store.spaces ≡ map offload_pages config.now.offloads) }
        ensures memory { IfOk result (λ store. memory_of store ≡ opened_memory config.now) }
        ensures cache { IfOk result (λ store. store.cache ≡ no_entries) }
        ensures ring { IfOk result (λ store. store.pool.capacity ≡ config.now.ring) }
        ensures opened { IfOk result (λ store. flat_of (map empty_object config.now.offloads) (memory_of store)
            ≡ opening config.now) }
        ensures whole { IfOk result IsWhole }
        ensures ready { IfOk result (λ store. IsReady store.pool) }
    {
        judge(alloc, config)?;
        let (pages, buckets) = (config.pages as u32, config.buckets as u32);
        let mut store = PageStore::unmapped(alloc, pages, buckets, config.ring as u32)?;
        for offload in config.offloads.as_slice() {
            store.add_offload(pages_of(offload) as u16)?;
        }
        Ok(store)
    }

    // A store of so many pages, with no page mapped and no offload.
    fn unmapped(alloc: Global, pages: u32, buckets: u32, ring: u32) -> Result<PageStore, NoMemory>
        requires pages { pages ≤ 65536 }
        requires buckets { IsTrue (is_bucket_count buckets) }
        requires ring { 1 ≤ ring }
        ensures laid { IfOk result IsLaid }
        ensures entries { IfOk result (λ store. store.table.entries ≡ []) }
        ensures buckets { IfOk result (λ store. store.table.buckets ≡ buckets) }
        ensures pages { IfOk result (λ store. store.pool.pages ≡ pages) }
        ensures capacity { IfOk result (λ store. store.pool.capacity ≡ ring) }
        ensures spaces { IfOk result (λ store. store.spaces ≡ []) }
    {
        let table = Table::create(alloc, buckets)?;
        let pool = Pool::create(alloc, pages, ring)?;
        let Ok(arena) = PageArena::create(alloc, pages) else {
            return Err(NoMemory);
        };
        let cache = Cache::create(alloc, CACHED_ENTRIES)?;
        // Each range has a page in a bucket.
        let ranges = RangeLists::create(alloc, BUCKET_PAGES * buckets)?;
        Ok(PageStore {
            table,
            pool,
            arena,
            cache,
            spaces: PageCounts::create(alloc),
            ranges,
        })
    }

    // Maps the pages of one offload more as a range of its space.
    fn add_offload(&mut self, pages: u16) -> Result<(), NoMemory>
        requires laid { IsLaid self.old }
        requires rows { rows_of self.old.table.entries ≡ rows_from 0 self.old.spaces }
        requires few { length self.old.spaces < 16 }
        requires within { pages < 65535 }
        requires four { AreFourAtMost self.old.table.buckets (held_places 0 (self.old.spaces ++ pages ∷ [])) }
        requires enough { length (held_places 0 (self.old.spaces ++ pages ∷ [])) ≤ self.old.pool.pages }
        ensures laid { IsLaid self.new }
        ensures rows { OnOk result (rows_of self.new.table.entries ≡ rows_from 0 self.new.spaces) }
        ensures spaces { OnOk result (self.new.spaces ≡ self.old.spaces ++ pages ∷ []) }
        ensures buckets { self.new.table.buckets ≡ self.old.table.buckets }
        ensures pages { self.new.pool.pages ≡ self.old.pool.pages }
        ensures capacity { self.new.pool.capacity ≡ self.old.pool.capacity }
    {
        let space = space_no(self.spaces.as_slice().len() as u8);
        for i in 0..pages {
            self.add_page(space, Vpn(i + 1), span_of(i, pages));
        }
        self.spaces.push(u32::from(pages))
    }

    // Maps a page behind the others, with a frame of zeros.
    fn add_page(&mut self, space: Space16, vpn: Vpn, span: u16)
        requires laid { IsLaid self.old }
        requires behind { IsBehind (space.0, vpn.0) (keys self.old.table.entries) }
        requires good { vpn.0 < SPACE_PAGES }
        requires room { load self.old.table (home_of self.old.table.buckets (space.0, vpn.0)) < 4 }
        requires free { length self.old.table.entries < self.old.pool.pages }
        ensures laid { IsLaid self.new }
        ensures rows { rows_of self.new.table.entries
            ≡ rows_of self.old.table.entries ++ ((space.0, vpn.0), span) ∷ [] }
        ensures buckets { self.new.table.buckets ≡ self.old.table.buckets }
        ensures pages { self.new.pool.pages ≡ self.old.pool.pages }
        ensures capacity { self.new.pool.capacity ≡ self.old.pool.capacity }
        ensures spaces { self.new.spaces ≡ self.old.spaces }
    {
        let frame = self.take_frame::<Brand>(Blank::new(1));
        let pte = Pte {
            frame: Some(frame),
            perm: Perm::ReadWrite,
            span,
        };
        self.table.insert(space, vpn, pte);
    }

    // Takes a free page, whose bytes are zeros, and refills the pool.
    fn take_frame<L: Ledger>(&mut self, blank: Blank) -> PageNo
        requires name { blank.name ≡ L.name }
        requires parts { blank.parts ≡ L.parts }
        requires one { 0 < blank.parts }
        requires ready { IsReady self.old.pool }
        requires some { 0 < free_pages self.old.pool }
        requires arena { length self.old.arena ≡ self.old.pool.pages }
        requires zero { AreZero self.old.arena (self.old.pool.ring ++ self.old.pool.clean) }
        ensures rest { self.new ≡ record self.old { pool = self.new.pool; arena = self.new.arena } }
        ensures free { free_list self.old.pool ≡ result.0 ∷ free_list self.new.pool }
        ensures pages { self.new.pool.pages ≡ self.old.pool.pages }
        ensures capacity { self.new.pool.capacity ≡ self.old.pool.capacity }
        ensures ready { IsReady self.new.pool }
        ensures arena { length self.new.arena ≡ length self.old.arena }
        ensures zero { AreZero self.new.arena (self.new.pool.ring ++ self.new.pool.clean) }
        ensures zeros { page_at self.new.arena result.0 ≡ fresh_bytes }
        ensures others { (page : ℕ) → has (free_list self.old.pool) page ≡ false
            → page_at self.new.arena page ≡ page_at self.old.arena page }
    {
        let mut takes = Steps::<L>::create(blank);
        let Some(frame) = self.pool.take(&mut takes) else {
            unreachable!()
        };
        self.pool.refill(&mut self.arena);
        frame
    }
}
