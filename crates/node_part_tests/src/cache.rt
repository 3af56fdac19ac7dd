//! A test of `translate_cache`: pages are noted where memory is ample.

use cl_types::call::Perm;
use cl_types::items::NoMemory;
use cl_types::numbers::{Space16, Vpn};
use cl_types::page::Pte;
use std::alloc::Global;
use translate_cache::Cache;

/// An entry that is told from others by its span.
fn entry(span: u16) -> Pte {
    Pte {
        frame: None,
        perm: Perm::ReadWrite,
        span,
    }
}

const SPACE: Space16 = Space16(1);

/// Three pages are noted in a cache of two entries, and the first is used before the third is noted.
fn note_three(cache: &mut Cache) {
    cache.note(SPACE, Vpn(1), entry(1));
    cache.note(SPACE, Vpn(2), entry(2));
    cache.get(SPACE, Vpn(1));
    cache.note(SPACE, Vpn(3), entry(3));
}

/// The entries of the three.
fn entries(cache: &mut Cache) -> [Option<Pte>; 3] {
    [
        cache.get(SPACE, Vpn(1)),
        cache.get(SPACE, Vpn(2)),
        cache.get(SPACE, Vpn(3)),
    ]
}

fn told(alloc: Global) -> Result<[Option<Pte>; 3], NoMemory> {
    let mut cache = Cache::create(alloc, 2)?;
    note_three(&mut cache);
    Ok(entries(&mut cache))
}

#[test]
fn a_new_page_drops_the_one_used_longest_ago(rt: HostRuntime) {
    assert!(rt; told(rt.alloc()) == Ok([Some(entry(1)), None, Some(entry(3))]));
}
