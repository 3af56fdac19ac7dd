//! A test of `kv_offload`: each call once, over a space in memory.

ghost use Rattle.kv_offload.specs.Stored.{IsStore};

use cl_types::items::NoMemory;
use cl_types::limits::PART_BYTES;
use cl_types::reply::Refusal;
use cl_types::space::MemorySpace;
use kv_offload::Kv;
use std::alloc::Global;

const KV: Kv = Kv { records: 2 };

/// How many keys are stored once a value was put at two keys, and the refusal of a third.
fn filled(space: &mut MemorySpace) -> (u32, Result<(), Refusal>)
    requires { IsStore 2 space.old }
    ensures { IsStore 2 space.new }
{
    let _ = KV.put(space, b"a", b"v");
    let _ = KV.put(space, b"b", b"w");
    let full = KV.put(space, b"c", b"x");
    (KV.count(space), full)
}

/// The length and the first byte of the value at the second key.
fn got(space: &mut MemorySpace) -> Result<(usize, u8), Refusal>
    requires { IsStore 2 space.old }
    ensures { IsStore 2 space.new }
{
    let mut out = [0; PART_BYTES as usize];
    let size = KV.get(space, b"b", &mut out)?;
    Ok((size, out[0]))
}

/// What it answers to be deleted, twice.
fn deleted(space: &mut MemorySpace) -> [Result<(), Refusal>; 2]
    requires { IsStore 2 space.old }
{
    [KV.delete(space, b"b"), KV.delete(space, b"b")]
}

/// What the three answer, one after another.
type Told = (
    (u32, Result<(), Refusal>),
    Result<(usize, u8), Refusal>,
    [Result<(), Refusal>; 2],
);

fn answers(alloc: Global) -> Result<Told, NoMemory> {
    let mut space = MemorySpace::create(alloc, 2)?;
    KV.init(&mut space);
    Ok((filled(&mut space), got(&mut space), deleted(&mut space)))
}

#[test]
fn a_store_of_two_records_takes_two_keys(rt: HostRuntime) {
    let want = (
        (2, Err(Refusal::ObjectFull)),
        Ok((1, b'w')),
        [Ok(()), Err(Refusal::NoKey)],
    );
    assert!(rt; answers(rt.alloc()) == Ok(want));
}
