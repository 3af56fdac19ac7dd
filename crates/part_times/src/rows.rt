//! A data frame of 1,000 rows: appends and selects.

ghost use Rattle.df_offload.specs.Stored.{IsStore, IsTest, AreRows};

use crate::watch::{nanos_since, now};
use cl_types::limits::PART_BYTES;
use cl_types::space::MemorySpace;
use df_offload::{Df, RowTest};
use std::io;

const DF: Df = Df {
    columns: 2,
    rows: 1_000,
};

/// Any row.
const ANY: RowTest = RowTest {
    column: 0,
    comparison: 0,
    value: 0,
};

/// A row whose first number is 0: there is none.
const NONE: RowTest = RowTest {
    column: 0,
    comparison: 2,
    value: 0,
};

/// The nanoseconds of so many appends of one row.
fn append_nanos(rt: &HostRuntime, space: &mut MemorySpace, count: u32) -> u64
    requires store { IsStore 2 1000 space.old }
    ensures { IsStore 2 1000 space.new }
{
    let start = now(rt);
    for _ in 0..count {
        let _rows = DF.append(space, &[7; 16]);
    }
    nanos_since(rt, start)
}

/// The nanoseconds of so many selects, each from one row later on, and the sum of the first bytes that they gave, without which a
/// compiler could leave the selects out.
fn select_nanos(rt: &HostRuntime, space: &mut MemorySpace, count: u32, by: &RowTest) -> (u64, u64)
    requires store { IsStore 2 1000 space.old }
    requires by { IsTest 2 by.now }
    ensures { IsStore 2 1000 space.new }
{
    let mut out = [0; PART_BYTES as usize];
    let mut sum = 0u64;
    let start = now(rt);
    for turn in 0..count {
        let _selected = DF.select(space, turn, by, &mut out);
        sum = sum.wrapping_add(u64::from(out[0]));
    }
    (nanos_since(rt, start), sum)
}

/// Prints the nanoseconds of 1,000 appends, and of selects that give 63 rows and that go through all rows.
pub fn time(rt: &HostRuntime) -> io::Result<()> {
    let Ok(mut space) = MemorySpace::create(rt.alloc(), 5) else {
        return println!(rt; "no memory for a data frame");
    };
    DF.init(&mut space);
    let appends = append_nanos(rt, &mut space, 1_000);
    let (first, sum) = select_nanos(rt, &mut space, 100, &ANY);
    let (all, second) = select_nanos(rt, &mut space, 100, &NONE);
    println!(rt;
        "rows: 1,000 appends {appends} ns; 100 selects of 63 rows {first} ns, of none in 901 to 1,000 rows {all} ns; first bytes {sum}, {second}"
    )
}
