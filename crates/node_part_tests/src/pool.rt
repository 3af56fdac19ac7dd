//! A test of `page_pool`: a pool is made where memory is ample.

ghost use Rattle.std.specs.Prelude.{◌≡◌, ◌<◌};

use cl_types::items::NoMemory;
use cl_types::numbers::PageNo;
use cl_types::steps::Steps;
use page_pool::Pool;
use std::alloc::Global;
use std::marker::Brand;
use std::sync::ledger::{Blank, Ledger};

/// The page that a pool of three pages gives, and how many are free before it comes back and behind.
fn taken<L: Ledger>(alloc: Global, blank: Blank) -> Result<(Option<PageNo>, [u32; 2]), NoMemory>
    requires name { blank.name ≡ L.name }
    requires parts { blank.parts ≡ L.parts }
    requires some { 0 < blank.parts }
{
    let mut pool = Pool::create(alloc, 3, 2)?;
    let mut takes = Steps::<L>::create(blank);
    let taken = pool.take(&mut takes);
    let free = pool.free_count();
    if let Some(page) = taken {
        pool.release(page);
    }
    Ok((taken, [free, pool.free_count()]))
}

#[test]
fn a_page_is_taken_and_comes_back(rt: HostRuntime) {
    let taken = taken::<Brand>(rt.alloc(), Blank::new(1));
    assert!(rt; taken == Ok((Some(PageNo(0)), [2, 3])));
}
