//! Tests of `index_lists`: rows of calls.

use index_lists::{Lists, NoMemory};
use std::alloc::Global;

/// What comes off a list whose nodes were put at its end, at its front and behind another.
fn in_order(alloc: Global) -> Result<[Option<u32>; 4], NoMemory> {
    let mut lists = Lists::create(alloc, 4, 2)?;
    lists.push_back(0, 3);
    lists.push_front(0, 1);
    lists.insert_after(2, 1);
    Ok([
        lists.pop_front(0),
        lists.pop_front(0),
        lists.pop_front(0),
        lists.pop_front(0),
    ])
}

/// What comes off a list once a node was taken out of its middle.
fn left(alloc: Global) -> Result<[Option<u32>; 3], NoMemory> {
    let mut lists = Lists::create(alloc, 3, 1)?;
    lists.push_back(0, 2);
    lists.push_back(0, 0);
    lists.push_back(0, 1);
    lists.remove(0);
    Ok([lists.pop_front(0), lists.pop_front(0), lists.pop_front(0)])
}

#[test]
fn a_list_keeps_its_order(rt: HostRuntime) {
    assert!(rt; in_order(rt.alloc()) == Ok([Some(1), Some(2), Some(3), None]));
}

#[test]
fn a_node_is_taken_out_of_the_middle(rt: HostRuntime) {
    assert!(rt; left(rt.alloc()) == Ok([Some(2), Some(1), None]));
}
