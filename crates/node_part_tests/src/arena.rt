//! A test of `page_arena`: pages are made where memory is ample.

use page_arena::{NoMemory, PageArena};
use std::alloc::Global;

/// The last bytes of two pages: once the second was written, and once it was made zero.
fn last_bytes(alloc: Global) -> Result<[u8; 3], NoMemory> {
    let mut arena = PageArena::create(alloc, 2)?;
    arena.page_mut(1)[4095] = 7;
    let written = arena.page(1)[4095];
    let other = arena.page(0)[4095];
    arena.zero(1);
    Ok([written, other, arena.page(1)[4095]])
}

#[test]
fn one_page_is_written_and_made_zero(rt: HostRuntime) {
    assert!(rt; last_bytes(rt.alloc()) == Ok([7, 0, 0]));
}
