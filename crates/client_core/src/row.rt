//! `CallRow`: a call that has not ended, with what came of its parts. A clause sees it as a `Held`.

ghost use Rattle.std.specs.Prelude.{◌≡◌, ◌+◌, ◌<◌, length, true, None, Some, IfSome, is_some, slice_get};
ghost use Rattle.cl_types.specs.Requests.{request_of, reply_of};
ghost use Rattle.client_model.specs.Client.{every};
ghost use Rattle.client_model.specs.Cut.{cut, Replied, GivenUp};
ghost use Rattle.frame_model.specs.Faults.{first_fault};
ghost use Rattle.client_model.specs.Issue.{call_faults};
ghost use Rattle.client_model.specs.Order.{is_fence as is_fence_call};
ghost use Rattle.call_cut.specs.Taking.{TakesFor};
ghost use Rattle.client_core.specs.Held.{new_held, next_part as next_part_of, has_unsent as has_unsent_part, with_one_sent, with_came, ended_with};
ghost use Rattle.client_core.specs.Rows.{finished_of};

use crate::ended::Ended;
use call_cut::{Gather, part, parts};
use cl_types::call::Call;
use cl_types::numbers::CallNo;
use cl_types::reply::{Part, ReplyRef};
use cl_types::request::RequestRef;
use std::marker::Model;

/// A good call that has not ended.
#[derive(Drop)]
pub struct CallRow {
    no: CallNo,
    call: Call,
    gather: Gather,
    // How many parts it has.
    parts: u16,
    // How many of them were sent: the first ones.
    sent: u16,
    // Of how many nothing has come.
    waiting: u16,
}

impl Model for CallRow {
    ghost use Rattle.client_core.specs.Held.{Held};

    ghost Value = { Held };

    ghost use Rattle.client_core.specs.Rows.{held_in, IsRow};

    ghost view = { λ r. held_in r.no r.call r.gather r.sent };

    ghost invariant = { λ r. IsRow r.call r.gather r.parts r.sent r.waiting };
}

impl CallRow {
    /// A good call, of which nothing was sent.
    pub fn create(no: CallNo, call: Call) -> CallRow
        requires { first_fault (call_faults call) ≡ None }
        ensures { result ≡ new_held no.0 call }
    {
        let parts = parts(&call);
        CallRow {
            no,
            call,
            gather: Gather::create(parts),
            parts: parts as u16,
            sent: 0,
            waiting: parts as u16,
        }
    }

    /// Its number.
    pub fn no(&self) -> CallNo
        ensures { result.0 ≡ self.now.number }
    {
        self.no
    }

    /// Whether it is a Fence.
    pub fn is_fence(&self) -> bool
        ensures { result ≡ is_fence_call self.now.call }
    {
        match self.call {
            Call::Fence => true,
            _ => false,
        }
    }

    /// Whether not all of its parts were sent.
    pub fn has_unsent(&self) -> bool
        ensures { result ≡ has_unsent_part self.now }
    {
        self.sent < self.parts
    }

    /// The first of its parts that was not sent.
    pub fn next_part(&self) -> Part
        ensures { result ≡ next_part_of self.now }
    {
        Part {
            call: self.no,
            part: self.sent,
        }
    }

    /// The request of part `i`.
    pub fn part(&self, i: u16) -> RequestRef<'_>
        requires { i < length (cut self.now.call) }
        ensures { slice_get (cut self.now.call) i ≡ Some (request_of result) }
    {
        part(&self.call, i as u32)
    }

    /// Takes that the first unsent part was sent.
    pub fn note_sent(&mut self)
        requires { self.old.sent < length self.old.came }
        ensures { self.new ≡ with_one_sent self.old }
    {
        self.sent += 1;
    }

    /// Takes the reply to part `i`, of which nothing has come. Its bytes go into the call's buffer.
    pub fn take(&mut self, i: u16, reply: &ReplyRef)
        requires still { slice_get self.old.came i ≡ Some None }
        requires fits { TakesFor self.old.call i (reply_of reply.now) }
        ensures { self.new ≡ with_came i (Replied (reply_of reply.now)) self.old }
    {
        self.gather.take(&mut self.call, i as u32, reply);
        self.waiting -= 1;
    }

    /// Takes that part `i`, of which nothing has come, was given up. Both moments are in ticks.
    pub fn give_up(&mut self, i: u16, first_sent: u64, now: u64)
        requires { slice_get self.old.came i ≡ Some None }
        ensures { self.new ≡ with_came i (GivenUp first_sent now) self.old }
    {
        self.gather.give_up(i as u32, first_sent, now);
        self.waiting -= 1;
    }

    /// Whether something came of each of its parts.
    pub fn is_over(&self) -> bool
        ensures { result ≡ is_some (every self.now.came) }
    {
        self.waiting == 0
    }

    /// The call as it ends by what came of its parts.
    pub fn end(self) -> Ended
        requires { is_some (every self.came) ≡ true }
        ensures { IfSome (every self.came)
            (λ endings. finished_of result ≡ ended_with self endings) }
    {
        let CallRow {
            no,
            mut call,
            mut gather,
            ..
        } = self;
        let Some(answer) = gather.answer(&mut call) else {
            unreachable!()
        };
        Ended { no, answer, call }
    }
}
