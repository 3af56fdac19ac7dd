//! Pages of 4,096 bytes, by their numbers, in memory that is taken once.
//!
//! A contract sees a `PageArena` as the list of its pages, each the list of its bytes. `page` and
//! `page_mut` tell of the page that is asked for that it has 4,096 bytes. A call on one page leaves
//! all others, and their number stays. Only `PageArena::create` takes memory.
//!
//! Which pages are in use, and who may read or write one, is kept by others.
#![tactic(auto)]

ghost use Rattle.std.specs.Prelude.{◌≡◌, ◌<◌, length, replicate, slice_set, IfOk};
ghost use Rattle.std.specs.Borrow.{sem};
ghost use Rattle.page_arena.specs.Arena.{page_at, zero_page};

use std::alloc::{AllocError, Global};
use std::marker::Model;

// How many bytes a page has.
const PAGE_BYTES: usize = 4096;

/// There was no memory for the pages.
#[derive(Clone, Copy, Debug, PartialEq, Eq)]
pub struct NoMemory;

impl From<AllocError> for NoMemory {
    fn from(_error: AllocError) -> Self {
        NoMemory
    }
}

/// Pages of 4,096 bytes, numbered from 0.
#[derive(Drop)]
pub struct PageArena {
    // In one piece, page after page.
    pages: Vec<[u8; PAGE_BYTES]>,
}

impl Model for PageArena {
    ghost use Rattle.std.specs.Prelude.{List, ℕ};

    ghost Value = { List (List ℕ) };

    ghost view = { λ a. a.pages.items };
}

impl PageArena {
    ghost use Rattle.page_arena.specs.Lending.{LendsPage};

    /// This many pages, all their bytes zero. `NoMemory` comes where an allocation was refused.
    pub fn create(alloc: Global, pages: u32) -> Result<PageArena, NoMemory>
        ensures { IfOk result (λ arena. arena ≡ replicate pages zero_page) }
    {
        let mut zeros = Vec::new(alloc);
        zeros.resize(pages as usize, [0; PAGE_BYTES])?;
        Ok(PageArena { pages: zeros })
    }

    /// The bytes of a page.
    pub fn page(&self, i: u32) -> &[u8]
        requires { i < length self.now }
        ensures value { result.now ≡ page_at self.now i }
        ensures size { length result.now ≡ 4096 }
    {
        &self.pages[i as usize]
    }

    /// The bytes of a page, to be written.
    pub fn page_mut(&mut self, i: u32) -> &mut [u8]
        requires { i < length self.old }
        ensures* writes_back { sem 𝓛 (LendsPage self.entry i result) }
        ensures value { result.now ≡ page_at self.old i }
        ensures size { length result.now ≡ 4096 }
    {
        // The lent bytes don't tell how many they are, and the page does.
        let _page = self.page(i);
        self.pages[i as usize].as_mut_slice()
    }

    /// Makes all bytes of a page zero.
    pub fn zero(&mut self, i: u32)
        requires { i < length self.old }
        ensures { self.new ≡ slice_set self.old i zero_page }
    {
        self.page_mut(i).fill(0);
    }
}
