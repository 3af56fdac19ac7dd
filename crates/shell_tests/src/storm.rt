//! Tests of `storm`.

use crate::runs::{Failing, Kept, run_on};
use cl_types::items::NoMemory;
use std::alloc::Global;
use std::test::Fail;

/// The counts of the least storm of seed 1: a call of each of its processes.
const COUNTS: &[u8] = b"issued 4
done 4
refused 0
timed out 0
unended 0
entries 4
verdict run
";

/// Whether the least storm of seed 1 writes its counts and leaves its world. It reads nothing, so no read fails.
fn storms(alloc: Global) -> Result<bool, NoMemory> {
    let ran = run_on(alloc, &["storm", "1", "0"], b"", Failing::Reads(&[1]))?;
    let is_left = match ran.left {
        Kept::World(shown) => shown.summary.issued == 4,
        _ => false,
    };
    Ok(ran.is(0, COUNTS) && is_left)
}

#[test]
fn a_storm_writes_its_counts_and_leaves_its_world(rt: HostRuntime) -> Result<(), Fail> {
    assert!(rt; storms(rt.alloc())?);
    Ok(())
}
