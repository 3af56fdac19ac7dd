//! A test of `mv_offload`: worked steps of two objects with at most three versions, over a space in memory.

ghost use Rattle.std.specs.Prelude.{◌≤◌, IfOk};
ghost use Rattle.mv_offload.specs.Stored.{IsStore};

use cl_types::items::NoMemory;
use cl_types::limits::PART_BYTES;
use cl_types::reply::Refusal;
use cl_types::space::MemorySpace;
use mv_offload::{Mv, VERSION_BYTES};
use std::alloc::Global;

const MV: Mv = Mv {
    objects: 2,
    versions: 3,
};

/// A call of `Mv`, with its object and its version or bytes.
#[derive(Clone, Copy)]
enum Step {
    Create,
    Append(u32, &'static [u8]),
    Read(u32, u32),
    Latest(u32),
}

use Step::{Append, Create, Latest, Read};

/// What a call answers: a number, if it has one, and the bytes of a version in order.
type Told = Result<(u32, &'static [u8]), Refusal>;

/// Calls, one after the other, and what each answers.
const STEPS: &[(Step, Told)] = &[
    (Create, Ok((1, b""))),
    (Append(1, b"aa"), Ok((1, b""))),
    (Append(1, b"b"), Ok((2, b""))),
    (Read(1, 1), Ok((0, b"aa"))),
    (Latest(1), Ok((2, b"b"))),
    (Create, Ok((2, b""))),
    (Latest(2), Err(Refusal::NoKey)),
    (Append(2, b"c"), Ok((1, b""))),
    (Append(1, b"d"), Err(Refusal::ObjectFull)),
    (Append(3, b"d"), Err(Refusal::NoKey)),
    (Create, Err(Refusal::ObjectFull)),
    (Read(1, 1), Ok((0, b"aa"))),
    (Read(1, 3), Err(Refusal::NoKey)),
    (Read(3, 1), Err(Refusal::NoKey)),
];

/// The number and the length that a call answers; the bytes are at the front of `out`. Bytes that no version may have
/// aren't appended.
fn answer(
    space: &mut MemorySpace,
    step: Step,
    out: &mut [u8; PART_BYTES as usize],
) -> Result<(u32, usize), Refusal>
    requires { IsStore 2 3 space.old }
    ensures store { IsStore 2 3 space.new }
    ensures short { IfOk result (λ told. told.1 ≤ 256) }
{
    match step {
        Create => Ok((MV.create(space)?, 0)),
        Append(object, bytes) if bytes.len() > VERSION_BYTES as usize => Err(Refusal::BadOp),
        Append(object, bytes) => Ok((MV.append(space, object, bytes)?, 0)),
        Read(object, version) => Ok((0, MV.read(space, object, version, out)?)),
        Latest(object) => MV.latest(space, object, out),
    }
}

/// Whether a step is answered so.
fn answers(space: &mut MemorySpace, step: Step, want: Told) -> bool
    requires { IsStore 2 3 space.old }
    ensures { IsStore 2 3 space.new }
{
    let mut out = [0; PART_BYTES as usize];
    match answer(space, step, &mut out) {
        Ok((number, len)) => want == Ok((number, &out[..len])),
        Err(refusal) => want == Err(refusal),
    }
}

/// The first step that is answered otherwise, by its place from 0.
fn first_off(space: &mut MemorySpace, steps: &[(Step, Told)]) -> Option<usize>
    requires { IsStore 2 3 space.old }
{
    for (at, (step, want)) in steps.iter().enumerate() {
        if !answers(space, *step, *want) {
            return Some(at);
        }
    }
    None
}

/// The same in a new space.
fn first_off_of_new(alloc: Global) -> Result<Option<usize>, NoMemory> {
    let mut space = MemorySpace::create(alloc, 2)?;
    MV.init(&mut space);
    Ok(first_off(&mut space, STEPS))
}

#[test]
fn two_objects_of_three_versions_go_through_the_worked_steps(rt: HostRuntime) {
    assert!(rt; first_off_of_new(rt.alloc()) == Ok(None));
}
