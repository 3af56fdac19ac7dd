//! Data frames and their calls.

ghost use Rattle.std.specs.Prelude.{◌≡◌, ◌+◌, ◌*◌, ◌<◌, ◌≤◌, ℕ, [], ◌++◌, length, take, drop, min, max, IfErr, IfOk};
ghost use Rattle.std.specs.List.{reduce};
ghost use Rattle.std.specs.Simd.{first_chunks};
ghost use Rattle.std.specs.Option.{ok_or};
ghost use Rattle.cl_types.specs.declared.reply.Refusal.TheVariants.{NoKey};
ghost use Rattle.df_offload.specs.Rows.{cell, df_append, df_count, df_max, df_min, df_select, df_sum, hits, in_column, is_hit, row_bytes, rows_of, select_answer};
ghost use Rattle.df_offload.specs.Layout.{count_of, first_rows, picked, row_at};
ghost use Rattle.df_offload.specs.Stored.{AreRows, HasPages, IsStore, IsTest, given_by, object_in, rows_in, selected};

use crate::pick::Pick;
use crate::row_test::{RowTest, Selected};
use cl_types::limits::PART_BYTES;
use cl_types::reply::Refusal;
use cl_types::space::Space;

/// Rows of numbers.
#[derive(Clone, Copy, Debug)]
pub struct Df {
    /// How many numbers a row has: 1 to 8.
    pub columns: u32,
    /// How many rows there may be: 1 to 16,384.
    pub rows: u32,
}

impl Df {
    /// Makes the space hold no row.
    pub fn init<P: Space>(&self, space: &mut P)
        requires pages { HasPages self.now.columns self.now.rows (P.contents space.old) }
        requires honest { P.honest space.old }
        ensures store { IsStore self.now.columns self.now.rows (P.contents space.new) }
        ensures empty { rows_in self.now.columns (P.contents space.new) ≡ [] }
        ensures rest { P.rest space.new ≡ P.rest space.old }
        ensures honest { P.honest space.new }
    {
        self.set_rows(space, 0);
    }

    /// Adds one or more whole rows at the end, and answers how many rows there are then. It is refused as `ObjectFull`, and
    /// adds no row, if and only if there would be more than `rows` rows.
    pub fn append<P: Space>(&self, space: &mut P, rows: &[u8]) -> Result<u32, Refusal>
        requires store { IsStore self.now.columns self.now.rows (P.contents space.old) }
        requires rows { AreRows self.now.columns rows.now }
        requires honest { P.honest space.old }
        ensures given { given_by result (object_in self.now.columns self.now.rows (P.contents space.new))
            ≡ df_append self.now.columns self.now.rows (rows_in self.now.columns (P.contents space.old))
            (rows_of self.now.columns rows.now) }
        ensures refused { IfErr result (λ _. P.contents space.new ≡ P.contents space.old) }
        ensures store { IsStore self.now.columns self.now.rows (P.contents space.new) }
        ensures rest { P.rest space.new ≡ P.rest space.old }
        ensures honest { P.honest space.new }
    {
        let held = self.rows_held(space);
        let more = rows.len() / self.row_bytes() as usize;
        if more > (self.rows - held) as usize {
            return Err(Refusal::ObjectFull);
        }
        let more = more as u32;
        self.write_rows(space, held, more, rows);
        self.set_rows(space, held + more);
        Ok(held + more)
    }

    /// Writes the first hits whose place is the cursor or later to the front of `out`: as many as there are, and at most as
    /// many as 1,020 bytes have room for. It answers their number and where the next select goes on, which is one past the
    /// last hit given where there was no room for more, and else the number of rows. It is refused as `NoKey` if and only if
    /// the cursor is above the number of rows.
    pub fn select<P: Space>(
        &self,
        space: &mut P,
        cursor: u32,
        by: &RowTest,
        out: &mut [u8; PART_BYTES as usize],
    ) -> Result<Selected, Refusal>
        requires store { IsStore self.now.columns self.now.rows (P.contents space.old) }
        requires by { IsTest self.now.columns by.now }
        requires honest { P.honest space.old }
        ensures given { selected self.now.columns result out.new
            ≡ select_answer (df_select self.now.columns (rows_in self.now.columns (P.contents space.old)) cursor by.now) }
        ensures size { IfOk result (λ given. row_bytes self.now.columns * given.rows ≤ 1020) }
        ensures next { IfOk result (λ given. given.next ≤ self.now.rows) }
        ensures behind { IfOk result (λ given. drop (row_bytes self.now.columns * given.rows) out.new
            ≡ drop (row_bytes self.now.columns * given.rows) out.old) }
        ensures refused { IfErr result (λ _. out.new ≡ out.old) }
        ensures contents { P.contents space.new ≡ P.contents space.old }
        ensures rest { P.rest space.new ≡ P.rest space.old }
        ensures honest { P.honest space.new }
    {
        let held = self.rows_held(space);
        if cursor > held {
            return Err(Refusal::NoKey);
        }
        let most = self.select_most();
        let mut found = 0;
        let mut at = cursor;
        while at < held && found < most {
            if self.is_hit(space, at, by) {
                self.copy(space, at, found, out);
                found += 1;
            }
            at += 1;
        }
        Ok(Selected {
            next: at,
            rows: found,
        })
    }

    /// How many hits there are.
    pub fn count<P: Space>(&self, space: &mut P, by: &RowTest) -> u32
        requires store { IsStore self.now.columns self.now.rows (P.contents space.old) }
        requires by { IsTest self.now.columns by.now }
        requires honest { P.honest space.old }
        ensures count { result ≡ df_count (rows_in self.now.columns (P.contents space.old)) by.now }
        ensures contents { P.contents space.new ≡ P.contents space.old }
        ensures rest { P.rest space.new ≡ P.rest space.old }
        ensures honest { P.honest space.new }
    {
        let held = self.rows_held(space);
        let mut count = 0;
        for row in 0..held {
            if self.is_hit(space, row, by) {
                count += 1;
            }
        }
        count
    }

    /// The sum of the numbers of the hits in a column.
    pub fn sum<P: Space>(&self, space: &mut P, column: u8, by: &RowTest) -> u128
        requires store { IsStore self.now.columns self.now.rows (P.contents space.old) }
        requires column { column < self.now.columns }
        requires by { IsTest self.now.columns by.now }
        requires honest { P.honest space.old }
        ensures sum { result ≡ df_sum (rows_in self.now.columns (P.contents space.old)) column by.now }
        ensures contents { P.contents space.new ≡ P.contents space.old }
        ensures rest { P.rest space.new ≡ P.rest space.old }
        ensures honest { P.honest space.new }
    {
        let held = self.rows_held(space);
        let mut sum = 0;
        for row in 0..held {
            if self.is_hit(space, row, by) {
                sum += self.number(space, row, column) as u128;
            }
        }
        sum
    }

    /// The least number of the hits in a column. It is refused as `NoKey` if and only if there is no hit.
    pub fn min<P: Space>(&self, space: &mut P, column: u8, by: &RowTest) -> Result<u64, Refusal>
        requires store { IsStore self.now.columns self.now.rows (P.contents space.old) }
        requires column { column < self.now.columns }
        requires by { IsTest self.now.columns by.now }
        requires honest { P.honest space.old }
        ensures min { result ≡ df_min (rows_in self.now.columns (P.contents space.old)) column by.now }
        ensures contents { P.contents space.new ≡ P.contents space.old }
        ensures rest { P.rest space.new ≡ P.rest space.old }
        ensures honest { P.honest space.new }
    {
        self.pick(space, column, by, Pick::Least)
    }

    /// The greatest number of the hits in a column. It is refused as `NoKey` if and only if there is no hit.
    pub fn max<P: Space>(&self, space: &mut P, column: u8, by: &RowTest) -> Result<u64, Refusal>
        requires store { IsStore self.now.columns self.now.rows (P.contents space.old) }
        requires column { column < self.now.columns }
        requires by { IsTest self.now.columns by.now }
        requires honest { P.honest space.old }
        ensures max { result ≡ df_max (rows_in self.now.columns (P.contents space.old)) column by.now }
        ensures contents { P.contents space.new ≡ P.contents space.old }
        ensures rest { P.rest space.new ≡ P.rest space.old }
        ensures honest { P.honest space.new }
    {
        self.pick(space, column, by, Pick::Greatest)
    }

    /// Whether a row is a hit.
    fn is_hit<P: Space>(&self, space: &mut P, row: u32, by: &RowTest) -> bool
        requires pages { HasPages self.now.columns self.now.rows (P.contents space.old) }
        requires row { row < self.now.rows }
        requires by { IsTest self.now.columns by.now }
        requires honest { P.honest space.old }
        ensures hit { result ≡ is_hit by.now (row_at self.now.columns (P.contents space.old) row) }
        ensures contents { P.contents space.new ≡ P.contents space.old }
        ensures rest { P.rest space.new ≡ P.rest space.old }
        ensures honest { P.honest space.new }
    {
        by.is_met(self.number(space, row, by.column))
    }

    /// The number that is picked of the hits in a column. It is refused as `NoKey` if and only if there is no hit.
    fn pick<P: Space>(
        &self,
        space: &mut P,
        column: u8,
        by: &RowTest,
        pick: Pick,
    ) -> Result<u64, Refusal>
        requires store { IsStore self.now.columns self.now.rows (P.contents space.old) }
        requires column { column < self.now.columns }
        requires by { IsTest self.now.columns by.now }
        requires honest { P.honest space.old }
        ensures pick { let those = hits by.now (rows_in self.now.columns (P.contents space.old)) in
            result ≡ ok_or (reduce (picked pick) (in_column column those)) NoKey }
        ensures contents { P.contents space.new ≡ P.contents space.old }
        ensures rest { P.rest space.new ≡ P.rest space.old }
        ensures honest { P.honest space.new }
    {
        let held = self.rows_held(space);
        let mut best = None;
        for row in 0..held {
            if self.is_hit(space, row, by) {
                let number = self.number(space, row, column);
                best = Some(pick.on(best, number));
            }
        }
        best.ok_or(Refusal::NoKey)
    }

    /// Writes so many rows behind those that are there. Their number stays.
    fn write_rows<P: Space>(&self, space: &mut P, held: u32, more: u32, rows: &[u8])
        requires pages { HasPages self.now.columns self.now.rows (P.contents space.old) }
        requires held { held ≡ count_of (P.contents space.old) }
        requires room { held + more ≤ self.now.rows }
        requires rows { row_bytes self.now.columns * more ≤ length rows.now }
        requires honest { P.honest space.old }
        ensures rows { first_rows self.now.columns (held + more) (P.contents space.new)
            ≡ rows_in self.now.columns (P.contents space.old)
            ++ first_chunks (row_bytes self.now.columns) more rows.now }
        ensures count { count_of (P.contents space.new) ≡ count_of (P.contents space.old) }
        ensures pages { HasPages self.now.columns self.now.rows (P.contents space.new) }
        ensures rest { P.rest space.new ≡ P.rest space.old }
        ensures honest { P.honest space.new }
    {
        let size = self.row_bytes() as usize;
        for row in 0..more {
            let from = size * row as usize;
            self.set_row(space, held + row, &rows[from..from + size]);
        }
    }
}
