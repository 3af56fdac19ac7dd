//! A test of `df_offload`: worked steps of a data frame of two columns and at most three rows, over a space in memory.

ghost use Rattle.std.specs.Prelude.{◌≡◌, ◌≤◌, true, IfOk};
ghost use Rattle.df_offload.specs.Stored.{IsStore, IsTest};

use cl_types::items::NoMemory;
use cl_types::limits::PART_BYTES;
use cl_types::reply::Refusal;
use cl_types::space::MemorySpace;
use df_offload::{Df, RowTest};
use std::alloc::Global;
use std::test::Fail;

const DF: Df = Df {
    columns: 2,
    rows: 3,
};

/// The rows 1, 10 and 2, 20.
const TWO_ROWS: [u8; 32] = [
    0, 0, 0, 0, 0, 0, 0, 1, 0, 0, 0, 0, 0, 0, 0, 10, 0, 0, 0, 0, 0, 0, 0, 2, 0, 0, 0, 0, 0, 0, 0,
    20,
];

/// The row 2, 20.
const SECOND_ROW: [u8; 16] = [0, 0, 0, 0, 0, 0, 0, 2, 0, 0, 0, 0, 0, 0, 0, 20];

/// The row 3, 0.
const THIRD_ROW: [u8; 16] = [0, 0, 0, 0, 0, 0, 0, 3, 0, 0, 0, 0, 0, 0, 0, 0];

/// A call of `Df`, with its rows, its cursor or column, and its test.
#[derive(Clone, Copy)]
enum Step {
    Append(&'static [u8]),
    Select(u32, RowTest),
    Count(RowTest),
    Sum(u8, RowTest),
    Min(u8, RowTest),
    Max(u8, RowTest),
}

use Step::{Append, Count, Max, Min, Select, Sum};

/// What a call answers: a number, which of a select is the next cursor, and the rows in order.
type Told = Result<(u128, &'static [u8]), Refusal>;

/// Any row.
const ANY: RowTest = RowTest {
    column: 0,
    comparison: 0,
    value: 0,
};

/// A row whose first number is above 1.
const ABOVE_1: RowTest = RowTest {
    column: 0,
    comparison: 3,
    value: 1,
};

/// A row whose first number is above 5.
const ABOVE_5: RowTest = RowTest {
    column: 0,
    comparison: 3,
    value: 5,
};

/// A row whose first number is 2.
const EQUAL_TO_2: RowTest = RowTest {
    column: 0,
    comparison: 2,
    value: 2,
};

/// A row whose second number is below 20.
const BELOW_20: RowTest = RowTest {
    column: 1,
    comparison: 1,
    value: 20,
};

/// Calls, one after the other, and what each answers.
const STEPS: [(Step, Told); 12] = [
    (Append(&TWO_ROWS), Ok((2, b""))),
    (Sum(1, ANY), Ok((30, b""))),
    (Select(0, ABOVE_1), Ok((2, &SECOND_ROW))),
    (Min(0, ABOVE_5), Err(Refusal::NoKey)),
    (Append(&TWO_ROWS), Err(Refusal::ObjectFull)),
    (Append(&THIRD_ROW), Ok((3, b""))),
    (Count(BELOW_20), Ok((2, b""))),
    (Min(1, ANY), Ok((0, b""))),
    (Max(1, ANY), Ok((20, b""))),
    (Select(1, EQUAL_TO_2), Ok((3, &SECOND_ROW))),
    (Select(3, ANY), Ok((3, b""))),
    (Select(4, ANY), Err(Refusal::NoKey)),
];

/// Whether a test is one of two columns.
fn is_test(by: &RowTest) -> bool
    ensures { result ≡ true → IsTest 2 by.now }
{
    by.column < 2 && by.comparison <= 3
}

/// The number and the length of the rows that a call answers; the rows are at the front of `out`. Tests that name no
/// column and bytes that are no rows aren't handed in.
fn answer(
    space: &mut MemorySpace,
    step: Step,
    out: &mut [u8; PART_BYTES as usize],
) -> Result<(u128, usize), Refusal>
    requires { IsStore 2 3 space.old }
    ensures store { IsStore 2 3 space.new }
    ensures short { IfOk result (λ told. told.1 ≤ 1020) }
{
    match step {
        Append(rows) if !rows.is_empty() && rows.len() % 16 == 0 => {
            Ok((DF.append(space, rows)? as u128, 0))
        }
        Select(cursor, by) if is_test(&by) => {
            let given = DF.select(space, cursor, &by, out)?;
            Ok((given.next as u128, 16 * given.rows as usize))
        }
        Count(by) if is_test(&by) => Ok((DF.count(space, &by) as u128, 0)),
        Sum(column, by) if column < 2 && is_test(&by) => Ok((DF.sum(space, column, &by), 0)),
        Min(column, by) if column < 2 && is_test(&by) => {
            Ok((DF.min(space, column, &by)? as u128, 0))
        }
        Max(column, by) if column < 2 && is_test(&by) => {
            Ok((DF.max(space, column, &by)? as u128, 0))
        }
        _ => Err(Refusal::BadOp),
    }
}

/// The first step that is answered otherwise, by its place from 0.
fn first_answered_otherwise(alloc: Global) -> Result<Option<usize>, NoMemory> {
    let mut space = MemorySpace::create(alloc, 2)?;
    DF.init(&mut space);
    let mut out = [0; PART_BYTES as usize];
    for (at, (step, want)) in STEPS.iter().enumerate() {
        let is_wanted = match answer(&mut space, *step, &mut out) {
            Ok((number, len)) => *want == Ok((number, &out[..len])),
            Err(refusal) => *want == Err(refusal),
        };
        if !is_wanted {
            return Ok(Some(at));
        }
    }
    Ok(None)
}

#[test]
fn a_data_frame_of_three_rows_goes_through_the_worked_steps(rt: HostRuntime) -> Result<(), Fail> {
    assert_eq!(rt; first_answered_otherwise(rt.alloc())?, None);
    Ok(())
}
