//! A space of bytes, by whole pages, as an offload has one at the node.

ghost use Rattle.std.specs.Prelude.{◌≡◌, ◌*◌, ◌≤◌, IfOk, length, replicate};
ghost use Rattle.cl_types.specs.Bytes.{bytes_at, with_bytes, zeros};
ghost use Rattle.cl_types.specs.Spaces.{IsInOnePage};

use crate::items::NoMemory;
use crate::limits::PAGE_BYTES;
use std::alloc::Global;
use std::marker::Model;

/// Pages of bytes. An access stays within one page, always succeeds, and leaves the space honest and its rest as it was.
pub trait Space {
    /// The space keeps what was written to it.
    ghost honest: { Self → Type 0 };

    /// Its bytes, 4,096 for each page.
    ghost contents: { Self → List ℕ };

    /// What it holds besides its bytes; nothing, for one in memory.
    ghost Rest: { Type 0 };

    ghost rest: { Self → Rest };

    ghost use Rattle.std.specs.Prelude.{List, ℕ};

    /// How many pages it has.
    fn pages(&self) -> u32
        ensures { length (contents self.now) ≡ result * PAGE_BYTES };

    /// Fills `out` with the bytes from `at` on.
    fn read_at(&mut self, at: u32, out: &mut [u8])
        requires honest { honest self.old }
        requires within { IsInOnePage at (length out.old) (length (contents self.old)) }
        ensures read { out.new ≡ bytes_at at (length out.old) (contents self.old) }
        ensures contents { contents self.new ≡ contents self.old }
        ensures rest { rest self.new ≡ rest self.old }
        ensures honest { honest self.new };

    /// Puts these bytes at `at`.
    fn write_at(&mut self, at: u32, bytes: &[u8])
        requires honest { honest self.old }
        requires within { IsInOnePage at (length bytes.now) (length (contents self.old)) }
        ensures contents { contents self.new ≡ with_bytes at bytes.now (contents self.old) }
        ensures rest { rest self.new ≡ rest self.old }
        ensures honest { honest self.new };
}

/// A space in memory, for tests. It is always honest, and has no rest. A clause sees it as its bytes.
#[derive(Drop)]
pub struct MemorySpace {
    bytes: Vec<u8>,
    pages: u32,
}

impl Model for MemorySpace {
    ghost use Rattle.std.specs.Prelude.{◌≡◌, ℕ, ◌*◌, List, length};
    ghost use Rattle.cl_types.specs.declared.limits.TheConstants.{PAGE_BYTES};

    ghost Value = { List ℕ };

    ghost view = { λ space. space.bytes.items };

    ghost invariant = { λ space. length space.bytes.items ≡ space.pages * PAGE_BYTES };
}

impl MemorySpace {
    /// So many pages of zeros.
    pub fn create(alloc: Global, pages: u32) -> Result<MemorySpace, NoMemory>
        ensures { IfOk result (λ space. space ≡ zeros (pages * PAGE_BYTES)) }
    {
        let mut bytes = Vec::new(alloc);
        bytes.resize(pages as usize * PAGE_BYTES as usize, 0)?;
        Ok(MemorySpace { bytes, pages })
    }
}

impl Space for MemorySpace {
    ghost honest = { λ _. Unit {0} };

    ghost contents = { λ space. space };

    ghost Rest = { Unit {0} };

    ghost rest = { λ _. tt };

    fn pages(&self) -> u32 {
        self.pages
    }

    fn read_at(&mut self, at: u32, out: &mut [u8]) {
        let from = at as usize;
        out.copy_from_slice(&self.bytes[from..from + out.len()]);
    }

    fn write_at(&mut self, at: u32, bytes: &[u8]) {
        let from = at as usize;
        self.bytes[from..from + bytes.len()].copy_from_slice(bytes);
    }
}
