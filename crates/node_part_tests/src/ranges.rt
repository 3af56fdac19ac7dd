//! A test of `range_alloc`'s lists: the ranges of a space come first in the order in which they were added.

use cl_types::items::NoMemory;
use cl_types::numbers::{Space16, Vpn};
use range_alloc::RangeLists;
use std::alloc::Global;
use std::test::Fail;

const SPACE: Space16 = Space16(1);

const OTHER: Space16 = Space16(2);

/// The first range of a space: with none, with two, without its first, and without its second too. And that of another.
fn firsts(alloc: Global) -> Result<[Option<Vpn>; 5], NoMemory> {
    let mut lists = RangeLists::create(alloc, 3)?;
    let none = lists.first(SPACE);
    lists.add(SPACE, Vpn(5), 2);
    lists.add(OTHER, Vpn(1), 1);
    lists.add(SPACE, Vpn(3), 1);
    let first = lists.first(SPACE);
    lists.drop_range(SPACE, Vpn(5));
    let second = lists.first(SPACE);
    lists.drop_range(SPACE, Vpn(3));
    Ok([none, first, second, lists.first(SPACE), lists.first(OTHER)])
}

#[test]
fn the_first_range_of_a_space_is_the_one_added_first(rt: HostRuntime) -> Result<(), Fail> {
    let want = [None, Some(Vpn(5)), Some(Vpn(3)), None, Some(Vpn(1))];
    assert_eq!(rt; firsts(rt.alloc())?, want);
    Ok(())
}
