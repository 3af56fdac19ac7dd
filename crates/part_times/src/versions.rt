//! Objects with versions: appends, and reads of an old version and of the latest.

ghost use Rattle.std.specs.Prelude.{◌≤◌, IfOk, length};
ghost use Rattle.mv_offload.specs.declared.layout.TheConstants.{VERSION_BYTES};
ghost use Rattle.mv_offload.specs.Stored.{HasPages, IsStore};

use crate::watch::{nanos_since, now};
use cl_types::items::NoMemory;
use cl_types::limits::PART_BYTES;
use cl_types::space::MemorySpace;
use mv_offload::Mv;
use std::alloc::Global;
use std::io;

const MV: Mv = Mv {
    objects: 256,
    versions: 4_096,
};

/// The nanoseconds of so many appends of these bytes to object 1.
fn append_nanos(rt: &HostRuntime, space: &mut MemorySpace, count: u32, bytes: &[u8]) -> u64
    requires store { IsStore 256 4096 space.old }
    requires bytes { length bytes.now ≤ VERSION_BYTES }
    ensures { IsStore 256 4096 space.new }
{
    let start = now(rt);
    for _ in 0..count {
        let _number = MV.append(space, 1, bytes);
    }
    nanos_since(rt, start)
}

/// The nanoseconds of reads of so many versions of object 1, from this one on, and the sum of the first bytes that they gave,
/// without which a compiler could leave the reads out.
fn read_nanos(rt: &HostRuntime, space: &mut MemorySpace, count: u32, version: u32) -> (u64, u64)
    requires store { IsStore 256 4096 space.old }
    ensures { IsStore 256 4096 space.new }
{
    let mut out = [0; PART_BYTES as usize];
    let mut sum = 0u64;
    let start = now(rt);
    for turn in 0..count {
        let _len = MV.read(space, 1, version.saturating_add(turn), &mut out);
        sum = sum.wrapping_add(u64::from(out[0]));
    }
    (nanos_since(rt, start), sum)
}

/// A space with the pages of the objects.
fn new_space(alloc: Global) -> Result<MemorySpace, NoMemory>
    ensures { IfOk result (HasPages 256 4096) }
{
    MemorySpace::create(alloc, 275)
}

/// Prints the nanoseconds of 4,096 appends to one object, and of reads of its versions.
pub fn time(rt: &HostRuntime) -> io::Result<()> {
    let Ok(mut space) = new_space(rt.alloc()) else {
        return println!(rt; "no memory for objects");
    };
    MV.init(&mut space);
    let _number = MV.create(&mut space);
    let appends = append_nanos(rt, &mut space, 4_096, &[7; 64]);
    let (oldest, sum) = read_nanos(rt, &mut space, 100, 1);
    let (middle, second) = read_nanos(rt, &mut space, 100, 2_048);
    let (latest, third) = read_nanos(rt, &mut space, 100, 3_997);
    println!(rt;
        "versions: 4,096 appends {appends} ns; 100 reads from version 1 on {oldest} ns, from 2,048 on {middle} ns, from 3,997 on {latest} ns; first bytes {sum}, {second}, {third}"
    )
}
