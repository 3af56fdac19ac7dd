//! Tests of rows, and what a select answers.

ghost use Rattle.std.specs.Prelude.{◌≡◌, ◌≤◌};
ghost use Rattle.df_offload.specs.Rows.{meets};

/// A test of rows by their number in one column.
#[derive(Clone, Copy, Debug)]
pub struct RowTest {
    /// The column, from 0.
    pub column: u8,
    /// How the number is to compare with the value: 0 any, 1 less, 2 equal, 3 greater.
    pub comparison: u8,
    /// The value.
    pub value: u64,
}

impl RowTest {
    /// Whether a number in the column meets the test.
    pub(crate) fn is_met(&self, number: u64) -> bool
        requires { self.now.comparison ≤ 3 }
        ensures { result ≡ meets self.now number }
    {
        match self.comparison {
            0 => true,
            1 => number < self.value,
            2 => number == self.value,
            _ => number > self.value,
        }
    }
}

/// What a select answers beside the rows themselves.
#[derive(Clone, Copy, Debug)]
pub struct Selected {
    /// Where the next select goes on.
    pub next: u32,
    /// How many rows were given.
    pub rows: u32,
}
