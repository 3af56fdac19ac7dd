//! A Read and a Write of a part, and bytes put into a page.

ghost use Rattle.std.specs.Prelude.{◌≡◌, ◌+◌, ◌<◌, ◌≤◌, length, slice_set, Some, IsSome, IfSome, OnErr};
ghost use Rattle.cl_types.specs.declared.limits.TheConstants.{PAGE_BYTES};
ghost use Rattle.cl_types.specs.declared.reply.Reply.TheVariants.{Nothing, Got};
ghost use Rattle.cl_types.specs.Bytes.{bytes_at, with_bytes};
ghost use Rattle.cl_types.specs.Places.{Place};
ghost use Rattle.page_arena.specs.Arena.{page_at as arena_page};
ghost use Rattle.page_pool.specs.PoolPages.{IsReady, IsTaken};
ghost use Rattle.range_alloc.specs.Ranges.{frame_at};
ghost use Rattle.translate_cache.specs.Cached.{entry_of as cached_entry};
ghost use Rattle.cl_types.specs.Pages.{page_of};
ghost use Rattle.flat_model.specs.State.{bytes_of, page_at};
ghost use Rattle.flat_model.specs.Step.{read, write, written};

use crate::need::Need;
use crate::store::{PageStore, offset_of};
use cl_types::numbers::{Addr, PageNo, Space16};
use cl_types::page::Pte;
use cl_types::reply::Refusal;
use cl_types::steps::Steps;
use std::sync::ledger::Ledger;

impl PageStore {
    ghost use Rattle.data_path.specs.Store.{memory_of, page_in, IsLatest, IsWhole};
    ghost use Rattle.data_path.specs.Access.{reply_in, IsPiece};

    /// Fills `out` with the bytes from an address on, all in one page: a Read. A fresh page gives zeros and gets no
    /// frame. What is refused leaves `out` as it was.
    pub fn read_part<A: Ledger>(
        &mut self,
        space: Space16,
        addr: Addr,
        out: &mut [u8],
        reads: &mut Steps<A>,
    ) -> Result<(), Refusal>
        requires piece { IsPiece addr (length out.old) }
        requires whole { IsWhole self.old }
        requires ready { IsReady self.old.pool }
        ensures reply { reply_in (λ done. Got out.new) result
            ≡ (read (memory_of self.old) space.0 addr (length out.old)).reply }
        ensures refused { OnErr result (out.new ≡ out.old) }
        ensures memory { memory_of self.new ≡ memory_of self.old }
        ensures whole { IsWhole self.new }
        ensures ready { IsReady self.new.pool }
        ensures cost { reads.new ≤ reads.old + 1 }
        ensures hit { IsSome (cached_entry self.old.cache (space.0, page_of addr))
            → reads.new ≡ reads.old }
        ensures latest { IsLatest self.new.cache (space.0, page_of addr) }
        ensures spaces { self.new.spaces ≡ self.old.spaces }
    {
        let pte = self.find(space, addr, Need::Read, reads)?;
        self.show(pte, offset_of(addr), out);
        Ok(())
    }

    /// Fills `out` with the bytes of an entry's page from a place on. A fresh page gives zeros.
    pub fn show(&self, pte: Pte, at: usize, out: &mut [u8])
        requires within { at + length out.old ≤ PAGE_BYTES }
        requires framed { IfSome pte.frame (λ frame. frame.0 < length self.now.arena) }
        ensures { out.new ≡ bytes_at at (length out.old) (bytes_of (page_in self.now.arena pte)) }
    {
        match pte.frame {
            None => out.fill(0),
            Some(frame) => {
                let page = self.arena.page(frame.0);
                out.copy_from_slice(&page[at..at + out.len()]);
            }
        }
    }

    /// Puts bytes at an address, all in one page: a Write. A fresh page gets a frame first.
    pub fn write_part<A: Ledger, B: Ledger>(
        &mut self,
        space: Space16,
        addr: Addr,
        bytes: &[u8],
        reads: &mut Steps<A>,
        takes: &mut Steps<B>,
    ) -> Result<(), Refusal>
        requires piece { IsPiece addr (length bytes.now) }
        requires whole { IsWhole self.old }
        requires ready { IsReady self.old.pool }
        ensures reply { reply_in (λ done. Nothing) result
            ≡ (write (memory_of self.old) space.0 addr bytes.now).reply }
        ensures memory { memory_of self.new
            ≡ (write (memory_of self.old) space.0 addr bytes.now).state }
        ensures whole { IsWhole self.new }
        ensures ready { IsReady self.new.pool }
        ensures cost { reads.new ≤ reads.old + 1 }
        ensures hit { IsSome (cached_entry self.old.cache (space.0, page_of addr))
            → reads.new ≡ reads.old }
        ensures taken { takes.new ≤ takes.old + 1 }
        ensures latest { IsLatest self.new.cache (space.0, page_of addr) }
        ensures spaces { self.new.spaces ≡ self.old.spaces }
    {
        let frame = self.open(space, addr, Need::Write, reads, takes)?;
        self.put(frame, offset_of(addr), bytes);
        Ok(())
    }

    /// Puts bytes into a frame that is taken, from a place on. The page that has the frame gets them, and no other.
    pub fn put(&mut self, frame: PageNo, at: usize, bytes: &[u8])
        requires taken { IsTaken self.old.pool frame.0 }
        requires within { at + length bytes.now ≤ PAGE_BYTES }
        requires whole { IsWhole self.old }
        ensures memory { (place : Place) → frame_at self.old.table place ≡ Some frame.0
            → IfSome (page_at (memory_of self.old) place.0 place.1) (λ page. memory_of self.new
            ≡ written (memory_of self.old) place.0 place.1 page (with_bytes at bytes.now (bytes_of page))) }
        ensures rest { self.new ≡ record self.old { arena = self.new.arena } }
        ensures whole { IsWhole self.new }
    {
        self.set_bytes(frame, at, bytes);
    }

    // Puts bytes into a page of the arena.
    fn set_bytes(&mut self, frame: PageNo, at: usize, bytes: &[u8])
        requires inside { frame.0 < length self.old.arena }
        requires within { at + length bytes.now ≤ PAGE_BYTES }
        ensures bytes { self.new ≡ record self.old {
          arena = slice_set self.old.arena frame.0 (with_bytes at bytes.now (arena_page self.old.arena frame.0));
        } }
        ensures size { length (arena_page self.old.arena frame.0) ≡ PAGE_BYTES }
    {
        let page = self.arena.page_mut(frame.0);
        page[at..at + bytes.len()].copy_from_slice(bytes);
    }
}
