//! The space of an offload.

ghost use Rattle.std.specs.Prelude.{◌≡◌, ◌+◌, ◌/◌, ◌<◌, length, Some};
ghost use Rattle.cl_types.specs.declared.limits.TheConstants.{PAGE_BYTES};
ghost use Rattle.hash_buckets.specs.PageMap.{entry_of};
ghost use Rattle.range_alloc.specs.Ranges.{frame_at};
ghost use Rattle.cl_types.specs.Places.{space_no};

use crate::store::PageStore;
use cl_types::limits::PAGE_BYTES;
use cl_types::numbers::{LAST_PID, PageNo, Space16, Vpn};
use cl_types::page::Pte;
use cl_types::space::Space;

/// The pages of an offload, as a space. Its bytes are those of the pages, one behind the other, and its rest is all of
/// the store but these bytes and those of the free pages: the table, the cache, the pool and the lists are in it.
#[derive(Drop)]
pub struct SpaceOf<'a> {
    pub store: &'a mut PageStore,
    pub offload: u8,
}

/// The space of an offload.
pub(crate) fn space_no(offload: u8) -> Space16
    ensures { result.0 ≡ space_no offload }
{
    Space16(LAST_PID + 1 + u16::from(offload))
}

impl PageStore {
    ghost use Rattle.data_path.specs.Spaces.{page_count, IsHonest};

    /// The space of an offload that exists.
    pub fn space_of(&mut self, offload: u8) -> SpaceOf<'_>
        requires exists { offload < length self.old.spaces }
        ensures same_reference { result.store.ghost_name ≡ self.entry.ghost_name }
        ensures store { result.store.now ≡ self.old }
        ensures offload { result.offload ≡ offload }
    {
        SpaceOf {
            store: self,
            offload,
        }
    }

    // The entry of the page in which a byte of an offload's pages lies.
    fn offload_entry(&self, offload: u8, at: u32) -> Pte
        requires honest { IsHonest self.now offload }
        requires within { at / PAGE_BYTES < page_count self.now offload }
        ensures { entry_of self.now.table (space_no offload, at / PAGE_BYTES + 1) ≡ Some result }
    {
        let vpn = Vpn((at / PAGE_BYTES + 1) as u16);
        let Some(pte) = self.table.peek(space_no(offload), vpn) else {
            unreachable!()
        };
        pte
    }

    // The frame of this page.
    fn offload_frame(&self, offload: u8, at: u32) -> PageNo
        requires honest { IsHonest self.now offload }
        requires within { at / PAGE_BYTES < page_count self.now offload }
        ensures { frame_at self.now.table (space_no offload, at / PAGE_BYTES + 1) ≡ Some result.0 }
    {
        let Some(frame) = self.offload_entry(offload, at).frame else {
            unreachable!()
        };
        frame
    }
}

impl<'a> Space for SpaceOf<'a> {
    ghost use Rattle.data_path.specs.Spaces.{IsHonest, contents_of, RestOf, rest_of};

    ghost honest = { λ space. IsHonest space.store.now space.offload };

    ghost contents = { λ space. contents_of space.offload space.store.now };

    ghost Rest = { RestOf };

    ghost rest = { λ space. rest_of space.offload space.store };

    fn pages(&self) -> u32 {
        match self.store.spaces.as_slice().get(self.offload as usize) {
            Some(pages) => *pages,
            None => 0,
        }
    }

    fn read_at(&mut self, at: u32, out: &mut [u8]) {
        let frame = self.store.offload_frame(self.offload, at);
        let from = (at % PAGE_BYTES) as usize;
        let page = self.store.arena.page(frame.0);
        out.copy_from_slice(&page[from..from + out.len()]);
    }

    fn write_at(&mut self, at: u32, bytes: &[u8]) {
        let frame = self.store.offload_frame(self.offload, at);
        self.store.put(frame, (at % PAGE_BYTES) as usize, bytes);
    }
}
