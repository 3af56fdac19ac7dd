//! `Order`: the calls that have not ended, and which of them may go.

ghost use Rattle.std.specs.Prelude.{◌≡◌, ◌<◌, ◌==◌, ◌++◌, ◌∷◌, [], not, leb, ◌&&◌, true, false, length, filter, find, option_map, IfOk, None, nat_lt};
ghost use Rattle.std.specs.List.{All, list_all, list_any, range_with_len};
ghost use Rattle.index_lists.specs.NodeLists.{IsValid};
ghost use Rattle.frame_model.specs.Faults.{first_fault};
ghost use Rattle.client_model.specs.Issue.{call_faults};
ghost use Rattle.client_model.specs.Order.{footprint, may_go, ready_in};
ghost use Rattle.dep_order.specs.Calls.{number_of};
ghost use Rattle.dep_order.specs.Rows.{print_of};
ghost use Rattle.dep_order.specs.WaitLists.{AreFit};

use crate::row::{NO_ROW, WaitRow, row_of};
use crate::wait_lists::{FENCES, LISTS, NODES, Run, join, leave, offload_lists, page_lists};
use crate::walk::{place_of_number, waits_in};
use cl_types::call::Call;
use cl_types::items::NoMemory;
use cl_types::limits::HELD_CALLS;
use cl_types::numbers::CallNo;
use index_lists::Lists;
use std::alloc::Global;
use std::marker::Model;

/// The list of places whose calls are held, in order of issue.
const HELD: u32 = 0;

/// The list of the other places.
const FREE: u32 = 1;

/// The calls of one client that have not ended, at most `HELD_CALLS`.
#[derive(Drop)]
pub struct Order {
    // Each call has a place, below `HELD_CALLS`, at which its row stands.
    rows: Vec<WaitRow>,
    //     HELD   7 -> 2 -> 5     in order of issue
    //     FREE   the other places
    places: Lists,
    // Each place has nodes, in all lists in which its call is looked for:
    //     pages 64 to 127   node 3 of place 7 -> node 4 of place 5
    waits: Lists,
}

impl Model for Order {
    ghost use Rattle.std.specs.Prelude.{List, ℕ};
    ghost use Rattle.client_model.specs.Order.{Footprint};

    ghost Value = { List (ℕ × Footprint) };

    ghost use Rattle.dep_order.specs.Fields.{calls_of, IsSound};

    ghost view = { λ order. calls_of order.rows.items order.places };

    ghost invariant = { λ order. IsSound order.rows.items order.places order.waits };
}

impl Order {
    /// No calls, and room for `HELD_CALLS`. `NoMemory` comes where an allocation was refused.
    pub fn create(alloc: Global) -> Result<Order, NoMemory>
        ensures { IfOk result (λ order. order ≡ []) }
    {
        let mut rows = Vec::new(alloc);
        rows.resize(HELD_CALLS as usize, NO_ROW)?;
        let Ok(waits) = Lists::create(alloc, HELD_CALLS * NODES, LISTS) else {
            return Err(NoMemory);
        };
        Ok(Order {
            rows,
            places: all_free(alloc)?,
            waits,
        })
    }

    /// Takes a good call, the latest.
    pub fn add(&mut self, no: CallNo, call: &Call)
        requires few { length self.old < 256 }
        requires later { All (λ k. k.0 < no.0) self.old }
        requires good { first_fault (call_faults call.now) ≡ None }
        ensures { self.new ≡ self.old ++ (no.0, footprint call.now) ∷ [] }
    {
        let Some(place) = self.places.pop_front(FREE) else {
            unreachable!()
        };
        let row = row_of(no, call);
        self.rows[place as usize] = row;
        self.places.push_back(HELD, place);
        join(&mut self.waits, place, &row);
    }

    /// Whether the call may go: it waits for none of the others.
    pub fn ready(&self, no: CallNo) -> bool
        requires { list_any (λ k. k.0 == no.0) self.now ≡ true }
        ensures { result ≡ ready_in self.now no.0 }
    {
        let Some(place) = place_of_number(&self.waits, &self.rows, no) else {
            unreachable!()
        };
        self.goes(&self.rows[place as usize])
    }

    /// Takes the call out, since it has ended.
    pub fn end(&mut self, no: CallNo)
        requires { list_any (λ k. k.0 == no.0) self.old ≡ true }
        ensures { self.new ≡ filter (λ k. not (k.0 == no.0)) self.old }
    {
        let Some(place) = place_of_number(&self.waits, &self.rows, no) else {
            unreachable!()
        };
        self.places.remove(place);
        self.places.push_back(FREE, place);
        leave(&mut self.waits, place);
    }

    /// The first call that may go, in order of issue. `None` comes exactly where none may.
    pub fn first_ready(&self) -> Option<CallNo>
        ensures { result ≡ option_map number_of (find (may_go self.now) self.now) }
    {
        self.first_ready_of(CallNo(0))
    }

    /// The first call that may go, in order of issue, of those from this number on. `None` comes
    /// exactly where none of these may.
    fn first_ready_of(&self, from: CallNo) -> Option<CallNo>
        ensures { result
            ≡ option_map number_of (find (λ k. leb from.0 k.0 && may_go self.now k) self.now) }
    {
        let mut at = self.places.first(HELD);
        while let Some(place) = at {
            let row = self.rows[place as usize];
            if from.0 <= row.no.0 && self.goes(&row) {
                return Some(row.no);
            }
            at = self.places.next(place);
        }
        None
    }

    /// Whether the row's call waits for none of those that are held.
    fn goes(&self, row: &WaitRow) -> bool
        requires { AreFit row.now.pages }
        ensures { result ≡ may_go self.now (print_of row.now) }
    {
        if self.has_none_before(row) {
            return true;
        }
        if row.fence {
            return false;
        }
        !self.waits_at_a_list(row)
    }

    /// Whether no held call is earlier than the row's.
    fn has_none_before(&self, row: &WaitRow) -> bool
        ensures { result ≡ list_all (λ k. not (nat_lt k.0 row.now.no.0)) self.now }
    {
        let Some(place) = self.places.first(HELD) else {
            return true;
        };
        row.no.0 <= self.rows[place as usize].no.0
    }

    /// Whether the row's call, which is no Fence, waits for a held one.
    fn waits_at_a_list(&self, row: &WaitRow) -> bool
        requires fit { AreFit row.now.pages }
        requires no_fence { row.now.fence ≡ false }
        ensures { result ≡ not (may_go self.now (print_of row.now)) }
    {
        let fences = Run {
            from: FENCES,
            count: 1,
        };
        if waits_in(&self.waits, fences, &self.rows, row) {
            return true;
        }
        if waits_in(&self.waits, offload_lists(row), &self.rows, row) {
            return true;
        }
        waits_in(&self.waits, page_lists(row), &self.rows, row)
    }
}

/// Lists of places, all of them in the list `FREE`.
fn all_free(alloc: Global) -> Result<Lists, NoMemory>
    ensures free { IfOk result
        (λ places. places ≡ record {
          nodes = HELD_CALLS;
          lists = [] ∷ range_with_len 0 HELD_CALLS ∷ [];
        }) }
    ensures valid { IfOk result IsValid }
{
    let Ok(mut places) = Lists::create(alloc, HELD_CALLS, 2) else {
        return Err(NoMemory);
    };
    for place in 0..HELD_CALLS {
        places.push_back(FREE, place);
    }
    Ok(places)
}
