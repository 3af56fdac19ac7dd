//! Tests of `replay`.

use crate::runs::{Failing, Kept, NONE, PATH, TRANSCRIPT, run_on};
use cl_types::items::NoMemory;
use cl_types::line::Summary;
use std::alloc::Global;
use std::test::Fail;

const SUMMARY: Summary = Summary {
    issued: 3,
    done: 3,
    refused: 0,
    timed_out: 0,
    unended: 0,
    entries: 3,
};

/// Whether this is the world of the first worked schedule.
fn is_first(left: Kept) -> bool {
    let Kept::World(shown) = left else {
        return false;
    };
    shown.pages == 1 && shown.replies == 2 && shown.issued == 3 && shown.summary == SUMMARY
}

/// Whether the first worked schedule gets its transcript and leaves its world.
fn replays_first(alloc: Global) -> Result<bool, NoMemory> {
    let ran = run_on(alloc, &["replay"], PATH, NONE)?;
    Ok(ran.is(0, TRANSCRIPT) && is_first(ran.left))
}

#[test]
fn the_first_path_is_printed_and_its_world_is_left(rt: HostRuntime) -> Result<(), Fail> {
    assert!(rt; replays_first(rt.alloc())?);
    Ok(())
}

/// A schedule of 5,000 lines behind its head.
fn long(alloc: Global) -> Result<Vec<u8>, NoMemory> {
    let mut input = Vec::from_slice(alloc, b"node 16 8 4 4\nclient 1 1\n")?;
    for _ in 0..5000 {
        input.extend_from_slice(b"stat\n")?;
    }
    Ok(input)
}

/// Whether a run whose second write fails writes a front of the whole transcript, of 65,536 bytes or more.
fn writes_pieces(alloc: Global) -> Result<bool, NoMemory> {
    let input = long(alloc)?;
    let whole = run_on(alloc, &["replay"], &input, NONE)?;
    let front = run_on(alloc, &["replay"], &input, Failing::Writes(&[2]))?;
    let is_front = whole.written.starts_with(&front.written);
    let len = front.written.len();
    Ok(
        whole.status == 0
            && front.status == 4
            && is_front
            && len >= 65_536
            && len < whole.written.len(),
    )
}

#[test]
fn a_long_transcript_is_written_in_pieces(rt: HostRuntime) -> Result<(), Fail> {
    assert!(rt; writes_pieces(rt.alloc())?);
    Ok(())
}
