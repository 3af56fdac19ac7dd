//! Tests of `check`.

use crate::runs::{NONE, TRANSCRIPT, run_on};
use cl_types::items::NoMemory;
use std::alloc::Global;
use std::test::Fail;

/// Whether the first worked transcript is a run, and nothing is left.
fn checks_first(alloc: Global) -> Result<bool, NoMemory> {
    let ran = run_on(alloc, &["check"], TRANSCRIPT, NONE)?;
    Ok(ran.is(0, b"run 3\n") && ran.is_empty())
}

#[test]
fn the_first_transcript_is_a_run(rt: HostRuntime) -> Result<(), Fail> {
    assert!(rt; checks_first(rt.alloc())?);
    Ok(())
}
