//! Where the number of rows and the rows are, and each access to them.

ghost use Rattle.std.specs.Prelude.{◌≡◌, ◌+◌, ◌*◌, ◌<◌, ◌≤◌, ℕ, length, take, drop};
ghost use Rattle.cl_types.specs.Bytes.{with_bytes};
ghost use Rattle.df_offload.specs.Rows.{cell, page_rows, row_bytes, select_most};
ghost use Rattle.df_offload.specs.Layout.{count_of, put_count, put_row, row_at, row_place};
ghost use Rattle.df_offload.specs.Stored.{HasPages};

use crate::df::Df;
use cl_types::limits::{PAGE_BYTES, PART_BYTES};
use cl_types::space::Space;

/// The greatest number of columns.
pub const MOST_COLUMNS: u32 = 8;

/// The greatest number of rows.
pub const MOST_ROWS: u32 = 16384;

/// How many bytes a number has.
pub const NUMBER_BYTES: u32 = 8;

/// How many numbers a page has room for.
pub const PAGE_NUMBERS: u32 = 512;

/// The greatest number of bytes of the rows that a select gives. Its answer has a cursor of 4 bytes before them.
pub const SELECT_BYTES: u32 = 1020;

/// Where the number of rows is, in the first page.
pub const COUNT_AT: u32 = 0;

/// How many bytes the number of rows has.
pub const COUNT_BYTES: u32 = 4;

// The numbers of a page fill it, a select's answer fits a part, and each select gives a row or more.
const _: () = prove!(NUMBER_BYTES * PAGE_NUMBERS == PAGE_BYTES);

const _: () = prove!(COUNT_BYTES + SELECT_BYTES <= PART_BYTES);

const _: () = prove!(NUMBER_BYTES * MOST_COLUMNS <= SELECT_BYTES);

impl Df {
    /// How many bytes a row has.
    pub(crate) fn row_bytes(&self) -> u32
        requires { self.now.columns ≤ MOST_COLUMNS }
        ensures { result ≡ row_bytes self.now.columns }
    {
        NUMBER_BYTES * self.columns
    }

    /// How many rows a select gives at most.
    pub(crate) fn select_most(&self) -> u32
        requires some { 1 ≤ self.now.columns }
        requires few { self.now.columns ≤ MOST_COLUMNS }
        ensures { result ≡ select_most self.now.columns }
    {
        SELECT_BYTES / self.row_bytes()
    }

    /// Where a row begins.
    fn row_place(&self, row: u32) -> u32
        requires some { 1 ≤ self.now.columns }
        requires few { self.now.columns ≤ MOST_COLUMNS }
        requires row { row < MOST_ROWS }
        ensures { result ≡ row_place self.now.columns row }
    {
        let page_rows = PAGE_NUMBERS / self.columns;
        PAGE_BYTES * (1 + row / page_rows) + self.row_bytes() * (row % page_rows)
    }

    /// How many rows there are.
    pub(crate) fn rows_held<P: Space>(&self, space: &mut P) -> u32
        requires pages { HasPages self.now.columns self.now.rows (P.contents space.old) }
        requires honest { P.honest space.old }
        ensures number { result ≡ count_of (P.contents space.old) }
        ensures contents { P.contents space.new ≡ P.contents space.old }
        ensures rest { P.rest space.new ≡ P.rest space.old }
        ensures honest { P.honest space.new }
    {
        let mut bytes = [0; COUNT_BYTES as usize];
        space.read_at(COUNT_AT, &mut bytes);
        u32::from_be_bytes(bytes)
    }

    /// Sets how many rows there are.
    pub(crate) fn set_rows<P: Space>(&self, space: &mut P, number: u32)
        requires pages { HasPages self.now.columns self.now.rows (P.contents space.old) }
        requires honest { P.honest space.old }
        ensures contents { P.contents space.new ≡ put_count number (P.contents space.old) }
        ensures rest { P.rest space.new ≡ P.rest space.old }
        ensures honest { P.honest space.new }
    {
        space.write_at(COUNT_AT, &number.to_be_bytes());
    }

    /// The number in a column of a row.
    pub(crate) fn number<P: Space>(&self, space: &mut P, row: u32, column: u8) -> u64
        requires pages { HasPages self.now.columns self.now.rows (P.contents space.old) }
        requires row { row < self.now.rows }
        requires column { column < self.now.columns }
        requires honest { P.honest space.old }
        ensures number { result ≡ cell column (row_at self.now.columns (P.contents space.old) row) }
        ensures contents { P.contents space.new ≡ P.contents space.old }
        ensures rest { P.rest space.new ≡ P.rest space.old }
        ensures honest { P.honest space.new }
    {
        let mut bytes = [0; NUMBER_BYTES as usize];
        space.read_at(
            self.row_place(row) + NUMBER_BYTES * column as u32,
            &mut bytes,
        );
        u64::from_be_bytes(bytes)
    }

    /// Writes a row to `out`, behind so many rows.
    pub(crate) fn copy<P: Space>(
        &self,
        space: &mut P,
        row: u32,
        behind: u32,
        out: &mut [u8; PART_BYTES as usize],
    )
        requires pages { HasPages self.now.columns self.now.rows (P.contents space.old) }
        requires row { row < self.now.rows }
        requires behind { behind < select_most self.now.columns }
        requires honest { P.honest space.old }
        ensures out { out.new ≡ with_bytes (row_bytes self.now.columns * behind)
            (row_at self.now.columns (P.contents space.old) row) out.old }
        ensures contents { P.contents space.new ≡ P.contents space.old }
        ensures rest { P.rest space.new ≡ P.rest space.old }
        ensures honest { P.honest space.new }
    {
        let size = self.row_bytes() as usize;
        let from = size * behind as usize;
        space.read_at(self.row_place(row), &mut out[from..from + size]);
    }

    /// Writes a row.
    pub(crate) fn set_row<P: Space>(&self, space: &mut P, row: u32, bytes: &[u8])
        requires pages { HasPages self.now.columns self.now.rows (P.contents space.old) }
        requires row { row < self.now.rows }
        requires bytes { length bytes.now ≡ row_bytes self.now.columns }
        requires honest { P.honest space.old }
        ensures contents { P.contents space.new ≡ put_row self.now.columns row bytes.now (P.contents space.old) }
        ensures rest { P.rest space.new ≡ P.rest space.old }
        ensures honest { P.honest space.new }
    {
        space.write_at(self.row_place(row), bytes);
    }
}
