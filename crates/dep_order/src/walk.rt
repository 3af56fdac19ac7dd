//! Walks along the lists in which calls stand, each in order of issue.

ghost use Rattle.std.specs.Prelude.{◌≡◌, ℕ, ◌+◌, ◌*◌, ◌<◌, ◌≤◌, true, false, length, find, option_map};
ghost use Rattle.index_lists.specs.NodeLists.{IsIn, IsValid, list_at};
ghost use Rattle.dep_order.specs.WaitLists.{IsInOrder, is_wanted as is_wanted_of, number_at, number_list as number_list_of, number_wanted, place_of, wanted_at};
ghost use Rattle.dep_order.specs.declared.walk.Wanted.TheVariants.{AwaitedBy, Number};

use crate::row::{WaitRow, waits};
use crate::wait_lists::{LISTS, NODES, Run, number_list};
use cl_types::limits::HELD_CALLS;
use cl_types::numbers::CallNo;
use index_lists::Lists;

/// Which row a walk looks for.
#[derive(Clone, Copy)]
pub enum Wanted {
    /// The one of the call of this number.
    Number(CallNo),
    /// One of an earlier call that this row's waits for.
    AwaitedBy(WaitRow),
}

impl Wanted {
    /// No call from this number on is wanted, but the one of the number itself.
    fn number(self) -> CallNo
        ensures { result.0 ≡ number_wanted self }
    {
        match self {
            Wanted::Number(no) => no,
            Wanted::AwaitedBy(later) => later.no,
        }
    }
}

/// The place of the call of this number. `None` comes exactly where its list has none.
pub fn place_of_number(lists: &Lists, rows: &[WaitRow], no: CallNo) -> Option<u32>
    requires lists { length lists.now.lists ≡ LISTS }
    requires nodes { lists.now.nodes ≡ HELD_CALLS * NODES }
    requires rows { length rows.now ≡ HELD_CALLS }
    requires in_order { (list : ℕ) → IsInOrder (number_at rows.now) (list_at lists.now list) }
    ensures { result ≡ option_map place_of
        (find (wanted_at rows.now (Number no)) (list_at lists.now (number_list_of no.0))) }
{
    first_wanted(lists, number_list(no), rows, Wanted::Number(no))
}

/// Whether the row's call waits for one that stands in a list of the run.
pub fn waits_in(lists: &Lists, run: Run, rows: &[WaitRow], row: &WaitRow) -> bool
    requires lists { length lists.now.lists ≡ LISTS }
    requires within { run.from + run.count ≤ LISTS }
    requires nodes { lists.now.nodes ≡ HELD_CALLS * NODES }
    requires rows { length rows.now ≡ HELD_CALLS }
    requires in_order { (list : ℕ) → IsInOrder (number_at rows.now) (list_at lists.now list) }
    ensures some { result ≡ true → (list : ℕ) × (node : ℕ) × (IsIn lists.now list node
        × (wanted_at rows.now (AwaitedBy row.now) node ≡ true)) }
    ensures none { result ≡ false → (list node : ℕ) → run.from ≤ list
        → list < run.from + run.count → IsIn lists.now list node
        → wanted_at rows.now (AwaitedBy row.now) node ≡ false }
{
    for list in run.from..run.from + run.count {
        if first_wanted(lists, list, rows, Wanted::AwaitedBy(*row)).is_some() {
            return true;
        }
    }
    false
}

/// The place of the first call in a list whose row is wanted. `None` comes exactly where there is
/// none.
fn first_wanted(lists: &Lists, list: u32, rows: &[WaitRow], wanted: Wanted) -> Option<u32>
    requires within { list < length lists.now.lists }
    requires nodes { lists.now.nodes ≡ HELD_CALLS * NODES }
    requires rows { length rows.now ≡ HELD_CALLS }
    requires in_order { IsInOrder (number_at rows.now) (list_at lists.now list) }
    ensures { result
        ≡ option_map place_of (find (wanted_at rows.now wanted) (list_at lists.now list)) }
{
    let mut at = lists.first(list);
    while let Some(node) = at {
        let place = node / NODES;
        let row = rows[place as usize];
        if is_wanted(wanted, &row) {
            return Some(place);
        }
        // The calls behind this one are later.
        if row.no.0 >= wanted.number().0 {
            return None;
        }
        at = lists.next(node);
    }
    None
}

/// Whether the row is the wanted one.
fn is_wanted(wanted: Wanted, row: &WaitRow) -> bool
    ensures { result ≡ is_wanted_of wanted row.now }
{
    match wanted {
        Wanted::Number(no) => row.no.0 == no.0,
        Wanted::AwaitedBy(later) => row.no.0 < later.no.0 && waits(row, &later),
    }
}
