//! A test of `hash_buckets`: a table is made where memory is ample, and the call that counts finds what was put.

ghost use Rattle.std.specs.Prelude.{◌≡◌, ◌<◌};

use cl_types::call::Perm;
use cl_types::items::NoMemory;
use cl_types::numbers::{PageNo, Space16, Vpn};
use cl_types::page::Pte;
use cl_types::steps::Steps;
use hash_buckets::Table;
use std::alloc::Global;
use std::marker::Brand;
use std::sync::ledger::{Blank, Ledger};

const SPACE: Space16 = Space16(1);

const PTE: Pte = Pte {
    frame: Some(PageNo(7)),
    perm: Perm::ReadOnly,
    span: 1,
};

/// What is found of page 4, which was put into an empty table, and of page 5, which was not.
fn found<L: Ledger>(alloc: Global, blank: Blank) -> Result<[Option<Pte>; 2], NoMemory>
    requires name { blank.name ≡ L.name }
    requires parts { blank.parts ≡ L.parts }
    requires some { 0 < blank.parts }
{
    let mut table = Table::create(alloc, 8)?;
    let mut reads = Steps::<L>::create(blank);
    table.insert(SPACE, Vpn(4), PTE);
    Ok([
        table.find(SPACE, Vpn(4), &mut reads),
        table.find(SPACE, Vpn(5), &mut reads),
    ])
}

#[test]
fn a_page_is_found_as_it_was_put(rt: HostRuntime) {
    let found = found::<Brand>(rt.alloc(), Blank::new(1));
    assert!(rt; found == Ok([Some(PTE), None]));
}
