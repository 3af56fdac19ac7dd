//! The lists in which the place of a call stands while it is held, so that it is found without a
//! walk along all calls.
//!
//!     0 ..      of each group of 64 pages       1280      of the Fences
//!     1024 ..   of each offload                 1281 ..   of each remainder of a call's number

ghost use Rattle.std.specs.Prelude.{◌≡◌, ◌⊎◌, Bool, ℕ, ◌+◌, ◌*◌, ◌-◌, ◌/◌, ◌<◌, ◌≤◌, length, true, Some};
ghost use Rattle.index_lists.specs.NodeLists.{IsFree, IsIn, IsValid, list_at};
ghost use Rattle.dep_order.specs.WaitLists.{AreFit, IsGrown, IsInOrder, Stands, StandsFor, number_list as number_list_of, offload_list, page_list, place_of};

use crate::row::WaitRow;
use cl_types::limits::{HELD_CALLS, RANGE_PAGES, SPACE_PAGES};
use cl_types::numbers::CallNo;
use index_lists::Lists;

/// How many pages share a list: those with one quotient by this.
const GROUP_PAGES: u32 = 64;

/// The list of the first offload, behind those of all groups of pages.
const OFFLOADS: u32 = 1024;

/// The list of the Fences, behind those of all offloads.
pub const FENCES: u32 = 1280;

/// The first list of calls by their numbers, one for each remainder by `HELD_CALLS`.
const NUMBERS: u32 = 1281;

/// How many lists there are.
pub const LISTS: u32 = 1537;

/// How many nodes a place has, one for each list in which it may stand: node 0 by the number of
/// its call, 1 of the Fences, 2 of its offload, and from 3 on those of the groups that its pages
/// meet. Node `k` of a place has the number `place * NODES + k`.
pub const NODES: u32 = 20;

const _: () = prove!(OFFLOADS == SPACE_PAGES / GROUP_PAGES);

const _: () = prove!(FENCES == OFFLOADS + 256);

const _: () = prove!(NUMBERS == FENCES + 1);

const _: () = prove!(LISTS == NUMBERS + HELD_CALLS);

// As many pages as a call may name meet at most so many groups.
const _: () = prove!(NODES == 3 + (RANGE_PAGES + 2 * (GROUP_PAGES - 1)) / GROUP_PAGES);

/// Some lists whose numbers follow one another.
#[derive(Clone, Copy)]
pub struct Run {
    pub from: u32,
    pub count: u32,
}

/// The list of the calls whose numbers leave the same remainder.
pub fn number_list(no: CallNo) -> u32
    ensures { result ≡ number_list_of no.0 }
{
    NUMBERS + no.0 % HELD_CALLS
}

/// The list of the Fences, where the row is of one.
fn fence_lists(row: &WaitRow) -> Run
    ensures from { result.from ≡ FENCES }
    ensures there { row.now.fence ≡ true → result.count ≡ 1 }
    ensures one { result.count ≤ 1 }
{
    Run {
        from: FENCES,
        count: if row.fence { 1 } else { 0 },
    }
}

/// The list of the row's offload, where it has one.
pub fn offload_lists(row: &WaitRow) -> Run
    ensures there { (number : ℕ) (odd : Bool) → row.now.offload ≡ Some (number, odd)
        → (result.from ≡ offload_list number) × (result.count ≡ 1) }
    ensures one { result.count ≤ 1 }
    ensures within { result.from + result.count ≤ FENCES }
{
    match row.offload {
        None => Run { from: 0, count: 0 },
        Some((number, _)) => Run {
            from: OFFLOADS + number as u32,
            count: 1,
        },
    }
}

/// The lists of the groups that the row's pages meet.
pub fn page_lists(row: &WaitRow) -> Run
    requires { AreFit row.now.pages }
    ensures there { (page : ℕ) → row.now.pages.from ≤ page → page < row.now.pages.end
        → (result.from ≤ page_list page) × (page_list page < result.from + result.count) }
    ensures few { result.count ≤ 17 }
    ensures within { result.from + result.count ≤ OFFLOADS }
{
    let from = row.pages.from / GROUP_PAGES;
    let end = (row.pages.end + (GROUP_PAGES - 1)) / GROUP_PAGES;
    Run {
        from,
        count: end.saturating_sub(from),
    }
}

/// Puts a node into each list of the run, those from `first` on.
fn join_run(waits: &mut Lists, first: u32, run: Run)
    requires lists { length waits.old.lists ≡ LISTS }
    requires nodes { waits.old.nodes ≡ HELD_CALLS * NODES }
    requires valid { IsValid waits.old }
    requires lists_in { run.from + run.count ≤ LISTS }
    requires nodes_in { first + run.count ≤ HELD_CALLS * NODES }
    requires free { (k : ℕ) → k < run.count → IsFree waits.old (first + k) }
    ensures nodes { waits.new.nodes ≡ waits.old.nodes }
    ensures count { length waits.new.lists ≡ length waits.old.lists }
    ensures valid { IsValid waits.new }
    ensures put { (k : ℕ) → k < run.count → IsIn waits.new (run.from + k) (first + k) }
    ensures grown { (list : ℕ) → IsGrown first (first + run.count)
        (list_at waits.old list) (list_at waits.new list) }
{
    for k in 0..run.count {
        waits.push_back(run.from + k, first + k);
    }
}

/// Puts a place that stands in no list into those of its row.
pub fn join(waits: &mut Lists, place: u32, row: &WaitRow)
    requires lists { length waits.old.lists ≡ LISTS }
    requires nodes { waits.old.nodes ≡ HELD_CALLS * NODES }
    requires valid { IsValid waits.old }
    requires within { place < HELD_CALLS }
    requires fit { AreFit row.now.pages }
    requires apart { (list : ℕ) → ¬ Stands waits.old list place }
    ensures nodes { waits.new.nodes ≡ waits.old.nodes }
    ensures count { length waits.new.lists ≡ length waits.old.lists }
    ensures valid { IsValid waits.new }
    ensures stands { StandsFor waits.new place row.now }
    ensures grown { (list : ℕ) → IsGrown (place * NODES) (place * NODES + NODES)
        (list_at waits.old list) (list_at waits.new list) }
{
    let first = place * NODES;
    let by_number = Run {
        from: number_list(row.no),
        count: 1,
    };
    join_run(waits, first, by_number);
    join_run(waits, first + 1, fence_lists(row));
    join_run(waits, first + 2, offload_lists(row));
    join_run(waits, first + 3, page_lists(row));
}

/// Takes a place out of all lists.
pub fn leave(waits: &mut Lists, place: u32)
    requires nodes { waits.old.nodes ≡ HELD_CALLS * NODES }
    requires valid { IsValid waits.old }
    requires within { place < HELD_CALLS }
    ensures nodes { waits.new.nodes ≡ waits.old.nodes }
    ensures count { length waits.new.lists ≡ length waits.old.lists }
    ensures valid { IsValid waits.new }
    ensures kept { (list node : ℕ) → IsIn waits.old list node → ¬ (place_of node ≡ place)
        → IsIn waits.new list node }
    ensures only { (list node : ℕ) → IsIn waits.new list node
        → IsIn waits.old list node × ¬ (place_of node ≡ place) }
    ensures order { (number : ℕ → ℕ) (list : ℕ) → IsInOrder number (list_at waits.old list)
        → IsInOrder number (list_at waits.new list) }
{
    let first = place * NODES;
    for k in 0..NODES {
        leave_one(waits, first + k);
    }
}

/// Takes a node out of its list, where it is in one.
fn leave_one(waits: &mut Lists, node: u32)
    requires node_in { node < waits.old.nodes }
    requires valid { IsValid waits.old }
    ensures nodes { waits.new.nodes ≡ waits.old.nodes }
    ensures count { length waits.new.lists ≡ length waits.old.lists }
    ensures valid { IsValid waits.new }
    ensures kept { (list other : ℕ) → IsIn waits.old list other → ¬ (other ≡ node)
        → IsIn waits.new list other }
    ensures only { (list other : ℕ) → IsIn waits.new list other
        → IsIn waits.old list other × ¬ (other ≡ node) }
    ensures order { (number : ℕ → ℕ) (list : ℕ) → IsInOrder number (list_at waits.old list)
        → IsInOrder number (list_at waits.new list) }
{
    if waits.list_of(node).is_some() {
        waits.remove(node);
    }
}
