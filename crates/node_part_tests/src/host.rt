//! A test of `offload_host`: the worked steps of a key-value store of two records, over a space in memory.

ghost use Rattle.std.specs.Prelude.{◌≡◌, ◌<◌, [], ◌∷◌, IfSome, length, slice_get};
ghost use Rattle.cl_types.specs.declared.config.OffloadConfig.TheVariants.{Kv};
ghost use Rattle.offload_host.specs.Held.{HoldsObject};

use cl_types::config::{OffloadConfig, OffloadList};
use cl_types::items::NoMemory;
use cl_types::limits::PART_BYTES;
use cl_types::reply::Refusal;
use cl_types::space::MemorySpace;
use offload_host::Host;
use std::alloc::Global;

/// An operation with its bytes, and what it answers.
type Step<'a> = (u8, &'a [u8], Result<&'a [u8], Refusal>);

/// Operations, one after the other.
const STEPS: &[Step] = &[
    (1, b"\x01av", Ok(b"")),
    (1, b"\x01bw", Ok(b"")),
    (1, b"\x01cx", Err(Refusal::ObjectFull)),
    (1, b"\x01az", Ok(b"")),
    (4, b"", Ok(b"\0\0\0\x02")),
    (3, b"\x01a", Ok(b"")),
    (2, b"\x01a", Err(Refusal::NoKey)),
    (3, b"\x01a", Err(Refusal::NoKey)),
    (1, b"\x01ay", Ok(b"")),
    (2, b"\x01a", Ok(b"y")),
    (2, b"\x01b", Ok(b"w")),
    (2, b"\x01cc", Err(Refusal::BadOp)),
    (2, b"\x00", Err(Refusal::BadOp)),
    (4, b"\x01a", Err(Refusal::BadOp)),
    (5, b"\x01a", Err(Refusal::BadOp)),
];

/// Whether an operation of the first offload answers so.
fn answers(host: &mut Host, space: &mut MemorySpace, step: &Step) -> bool
    requires exists { 0 < length host.old }
    requires object { IfSome (slice_get host.old 0) (λ offload. HoldsObject offload space.old) }
    ensures host { host.new ≡ host.old }
    ensures object { IfSome (slice_get host.old 0) (λ offload. HoldsObject offload space.new) }
{
    let (op, bytes, want) = *step;
    let mut out = [0; PART_BYTES as usize];
    match host.call(0, op, bytes, space, &mut out) {
        Ok(len) => want == Ok(&out[..len]),
        Err(refusal) => want == Err(refusal),
    }
}

/// The first operation that answers otherwise, by its place from 0.
fn first_off(host: &mut Host, space: &mut MemorySpace, steps: &[Step]) -> Option<usize>
    requires exists { 0 < length host.old }
    requires object { IfSome (slice_get host.old 0) (λ offload. HoldsObject offload space.old) }
{
    for (at, step) in steps.iter().enumerate() {
        if !answers(host, space, step) {
            return Some(at);
        }
    }
    None
}

/// The same of a new host, over a new space.
fn first_off_of_new(alloc: Global, offloads: &OffloadList) -> Result<Option<usize>, NoMemory>
    requires { offloads.now ≡ Kv 2 ∷ [] }
{
    let mut host = Host::create(alloc, offloads)?;
    let mut space = MemorySpace::create(alloc, host.pages(0))?;
    host.init(0, &mut space);
    Ok(first_off(&mut host, &mut space, STEPS))
}

/// The same of one with a store of two records.
fn first_off_of_store(alloc: Global) -> Result<Option<usize>, NoMemory> {
    let mut offloads = OffloadList::create(alloc);
    offloads.push(OffloadConfig::Kv { records: 2 })?;
    first_off_of_new(alloc, &offloads)
}

#[test]
fn a_store_of_two_records_goes_through_the_worked_steps(rt: HostRuntime) {
    assert!(rt; first_off_of_store(rt.alloc()) == Ok(None));
}
