//! `Calls`: the calls that a client holds, those that have not ended and those that were not handed
//! out.

ghost use Rattle.std.specs.Prelude.{◌≡◌, ℕ, ◌+◌, ◌<◌, ◌≤◌, ◌==◌, [], ◌∷◌, ◌++◌, true, false, nat_lt, length, map, drop, find, option_map, IfOk, None, Some, is_some, slice_get};
ghost use Rattle.std.specs.List.{AllByRecursion as Each, list_any};
ghost use Rattle.cl_types.specs.Requests.{request_of, reply_of};
ghost use Rattle.cl_types.specs.declared.call.Call.TheVariants.{Fence};
ghost use Rattle.client_model.specs.Cut.{Replied, GivenUp, combine};
ghost use Rattle.frame_model.specs.Faults.{first_fault};
ghost use Rattle.client_model.specs.Issue.{call_faults};
ghost use Rattle.client_model.specs.Order.{is_fence, ready_in};
ghost use Rattle.call_cut.specs.Taking.{TakesFor};
ghost use Rattle.client_core.specs.Held.{Held, held_at, new_held, print_of, changed, with_one_sent, has_unsent, with_ends, ended_of, after_coming, part_to_send, may_send, next_part as next_part_of, request_at, fence_first_in, IsAwaited, IsGoing};
ghost use Rattle.client_core.specs.Rows.{finished_of};
ghost use Rattle.client_core.specs.Valid.{AreRising};

use crate::ended::Ended;
use crate::row::CallRow;
use crate::rows::Rows;
use cl_types::call::Call;
use cl_types::items::NoMemory;
use cl_types::limits::HELD_CALLS;
use cl_types::numbers::CallNo;
use cl_types::reply::{Answer, Part, ReplyRef, Value};
use cl_types::request::RequestRef;
use dep_order::Order;
use std::alloc::Global;
use std::collections::VecDeque;
use std::marker::Model;

/// The calls that a client holds, at most `HELD_CALLS`.
#[derive(Drop)]
pub struct Calls {
    // Those that have not ended, in order of issue.
    rows: Rows,
    // The others, as they ended. There is room for `HELD_CALLS`.
    ended: VecDeque<Ended>,
    // Which of those that have not ended may go.
    order: Order,
    // No part may be sent: this was found, and no call was taken, sent or ended since. So polls that find nothing to send don't
    // ask each call again.
    quiet: bool,
}

impl Model for Calls {
    ghost use Rattle.std.specs.Prelude.{map};
    ghost use Rattle.std.specs.VecDeque.{deque_capacity};
    ghost use Rattle.client_core.specs.Held.{Holding};

    ghost Value = { Holding };

    ghost use Rattle.client_core.specs.Rows.{finished_of, AreKept};

    ghost view = { λ c. record { held = c.rows; ended = map finished_of c.ended.items } };

    ghost invariant = { λ c. AreKept c.rows c.order (deque_capacity c.ended) c.quiet };
}

impl Calls {
    /// No calls, and room for `HELD_CALLS`. `NoMemory` comes where an allocation was refused.
    pub fn create(alloc: Global) -> Result<Calls, NoMemory>
        ensures { IfOk result (λ calls. calls ≡ record { held = []; ended = [] }) }
    {
        Ok(Calls {
            rows: Rows::create(alloc)?,
            ended: VecDeque::with_capacity(alloc, HELD_CALLS as usize)?,
            order: Order::create(alloc)?,
            quiet: false,
        })
    }

    /// How many calls there are.
    pub fn count(&self) -> usize
        ensures { result ≡ length self.now.held + length self.now.ended }
    {
        self.rows.len() + self.ended.len()
    }

    /// Takes a good call, the latest.
    pub fn push(&mut self, no: CallNo, call: Call)
        requires few { length self.old.held + length self.old.ended < 256 }
        requires later { Each (λ h. h.number < no.0) self.old.held }
        requires good { first_fault (call_faults call) ≡ None }
        ensures held { self.new.held ≡ self.old.held ++ new_held no.0 call ∷ [] }
        ensures ended { self.new.ended ≡ self.old.ended }
    {
        self.quiet = false;
        self.order.add(no, &call);
        self.rows.push(CallRow::create(no, call));
    }

    /// Whether the call has not ended and may go.
    pub fn is_ready(&self, no: CallNo) -> bool
        ensures { result ≡ ready_in (map print_of self.now.held) no.0 }
    {
        self.rows.has(no) && self.order.ready(no)
    }

    /// The Fence that is the first call that has not ended.
    pub fn first_fence(&self) -> Option<CallNo>
        ensures { result ≡ fence_first_in self.now.held }
    {
        if self.rows.len() == 0 {
            return None;
        }
        fence_number(self.rows.row(0))
    }

    /// The first part that may be sent.
    pub fn part_to_send(&self) -> Option<Part>
        ensures { result ≡ part_to_send self.now.held }
    {
        if self.quiet {
            return None;
        }
        first_to_send(&self.rows, &self.order)
    }

    /// Takes that no part may be sent, as was just found.
    pub fn note_quiet(&mut self)
        requires { part_to_send self.old.held ≡ None }
        ensures { self.new ≡ self.old }
    {
        self.quiet = true;
    }

    /// The request of a part.
    pub fn request(&self, part: Part) -> RequestRef<'_>
        requires { is_some (request_at self.now.held part) ≡ true }
        ensures { request_at self.now.held part ≡ Some (request_of result) }
    {
        let at = self.rows.place(part.call);
        self.rows.row(at).part(part.part)
    }

    /// Takes that the first unsent part of a call was sent.
    pub fn note_sent(&mut self, no: CallNo)
        requires going { IsGoing self.old }
        requires unsent { option_map has_unsent (held_at no.0 self.old.held) ≡ Some true }
        ensures held { self.new.held ≡ changed no.0 with_one_sent self.old.held }
        ensures ended { self.new.ended ≡ self.old.ended }
    {
        self.quiet = false;
        let at = self.rows.place(no);
        self.rows.note_sent(at);
    }

    /// Takes the reply to a part, and tells whether its call has ended by it.
    pub fn take(&mut self, part: Part, reply: &ReplyRef) -> bool
        requires going { IsGoing self.old }
        requires awaited { IsAwaited part self.old.held }
        requires fits { (h : Held) → held_at part.call.0 self.old.held ≡ Some h
            → TakesFor h.call part.part (reply_of reply.now) }
        ensures calls { self.new ≡ after_coming part (Replied (reply_of reply.now)) self.old }
        ensures ends { result ≡ nat_lt (length self.old.ended) (length self.new.ended) }
    {
        let at = self.rows.place(part.call);
        self.rows.take(at, part.part, reply);
        self.end_where_over(at)
    }

    /// Takes that a part was given up. Both moments are in ticks.
    pub fn give_up(&mut self, part: Part, first_sent: u64, now: u64)
        requires going { IsGoing self.old }
        requires awaited { IsAwaited part self.old.held }
        ensures { self.new ≡ after_coming part (GivenUp first_sent now) self.old }
    {
        let at = self.rows.place(part.call);
        self.rows.give_up(at, part.part, first_sent, now);
        self.end_where_over(at);
    }

    /// Takes that the Fence that is the first call has ended.
    pub fn end_fence(&mut self) -> CallNo
        requires going { IsGoing self.old }
        requires fence { is_some (fence_first_in self.old.held) ≡ true }
        ensures held { self.new.held ≡ drop 1 self.old.held }
        ensures ended { self.new.ended
            ≡ self.old.ended
            ++ record { number = result.0; answer = combine Fence []; call = Fence } ∷ [] }
        ensures number { fence_first_in self.old.held ≡ Some result }
    {
        self.quiet = false;
        let no = self.rows.remove(0).no();
        self.order.end(no);
        self.ended.push_back_reserved(Ended {
            no,
            answer: Answer::Done(Value::Nothing),
            call: Call::Fence,
        });
        no
    }

    /// Ends a call, not a Fence, where something came of each of its parts, and tells whether it
    /// did.
    fn end_where_over(&mut self, at: usize) -> bool
        requires few { length self.old.held + length self.old.ended ≤ 256 }
        requires apart { (last : ℕ) × AreRising 0 last (map (λ h. h.number) self.old.held) }
        requires there { option_map (λ h. is_fence h.call) (slice_get self.old.held at)
            ≡ Some false }
        requires others { (i : ℕ) (h : Held) → slice_get self.old.held i ≡ Some h
            → (i == at) ≡ false → ended_of h ≡ None }
        ensures calls { self.new ≡ with_ends self.old }
        ensures ends { result ≡ nat_lt (length self.old.ended) (length self.new.ended) }
    {
        if !self.rows.row(at).is_over() {
            return false;
        }
        self.quiet = false;
        let row = self.rows.remove(at);
        self.order.end(row.no());
        self.ended.push_back_reserved(row.end());
        true
    }

    /// Hands out the call that ended first.
    pub fn pop_ended(&mut self) -> Option<Ended>
        ensures first { option_map finished_of result ≡ slice_get self.old.ended 0 }
        ensures held { self.new.held ≡ self.old.held }
        ensures ended { self.new.ended ≡ drop 1 self.old.ended }
    {
        self.ended.pop_front()
    }
}

/// The number of the call, where it is a Fence.
fn fence_number(row: &CallRow) -> Option<CallNo>
    ensures { result ≡ fence_first_in (row.now ∷ []) }
{
    if row.is_fence() { Some(row.no()) } else { None }
}

/// Whether a part of the call may be sent.
fn may_send_now(row: &CallRow, order: &Order) -> bool
    requires { list_any (λ k. k.0 == row.now.number) order.now ≡ true }
    ensures { result ≡ may_send order.now row.now }
{
    row.has_unsent() && order.ready(row.no())
}

/// The first part that may be sent.
fn first_to_send(rows: &Rows, order: &Order) -> Option<Part>
    requires { order.now ≡ map print_of rows.now }
    ensures { result ≡ part_to_send rows.now }
{
    for i in 0..rows.len() {
        let row = rows.row(i);
        if may_send_now(row, order) {
            return Some(row.next_part());
        }
    }
    None
}
