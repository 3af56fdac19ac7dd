//! `Client`: its fields, and the calls that take a call, hand one out, and look.

ghost use Rattle.std.specs.Prelude.{◌≡◌, ◌==◌, ◌<◌, ◌≤◌, IfOk, None, leb, option_map, slice_get};
ghost use Rattle.cl_types.specs.declared.numbers.TheConstants.{LAST_PID};
ghost use Rattle.client_model.specs.Client.{ClientState, after_done, held, new_client, ready_at as ready_at_of};
ghost use Rattle.client_model.specs.Issue.{issue_fault};
ghost use Rattle.client_core.specs.Answers.{done_answer, issue_answer, issue_state};
ghost use Rattle.client_core.specs.Valid.{IsValid, client_from};
ghost use Rattle.client_core.specs.declared.ids.TheConstants.{LAST_FIRST_ID};

mod hear;
mod poll;

use crate::calls::Calls;
use crate::faults::call_fault;
use cl_types::call::Call;
use cl_types::frame::IssueFault;
use cl_types::items::NoMemory;
use cl_types::limits::HELD_CALLS;
use cl_types::numbers::{CallNo, ClientNo, Pid};
use cl_types::reply::Answer;
use client_retry::Flight;
use std::alloc::Global;
use std::marker::Model;

/// A client of one process.
///
/// `issue` takes a call, `poll` and `hear` are called in turn, and `done` after each of them.
#[derive(Drop)]
pub struct Client {
    no: ClientNo,
    pid: Pid,
    // How many calls it has issued, and how many sendings of parts it has made.
    issued: u32,
    sendings: u64,
    calls: Calls,
    // The parts that were sent and neither answered nor given up.
    flight: Flight,
    // The latest moment that it was given.
    last: u64,
}

impl Model for Client {
    ghost use Rattle.client_model.specs.Client.{ClientState};

    ghost Value = { ClientState };

    ghost use Rattle.client_core.specs.Fields.{state_of, IsSound};

    ghost view = { λ c. state_of c.no c.pid c.issued c.sendings c.calls c.flight c.last };

    ghost invariant = { λ c. IsSound
        (state_of c.no c.pid c.issued c.sendings c.calls c.flight c.last) c.calls.held c.flight };
}

impl Client {
    /// A client that has issued no call. `NoMemory` comes where an allocation was refused.
    pub fn create(alloc: Global, no: ClientNo, pid: Pid) -> Result<Client, NoMemory>
        ensures new { IfOk result (λ client. client ≡ new_client no pid) }
        ensures valid { IfOk result IsValid }
    {
        Client::create_from(alloc, no, pid, 1)
    }

    /// A client that has issued no call, whose first sending has the id `first`. Where a client number is used again at a
    /// node, by a later run of a program, the ids of that run have to lie above all earlier ones under this number, and the
    /// caller has to see to it: a node answers a request whose id it has seen as it did then, and doesn't execute it. A
    /// clock that never falls and gives more than the sendings made so far gives such ids. `NoMemory` comes where an
    /// allocation was refused.
    pub fn create_from(
        alloc: Global,
        no: ClientNo,
        pid: Pid,
        first: u64,
    ) -> Result<Client, NoMemory>
        requires first { 1 ≤ first }
        requires room { first ≤ LAST_FIRST_ID }
        ensures new { IfOk result (λ client. client ≡ client_from no pid first) }
        ensures valid { IfOk result IsValid }
    {
        Ok(Client {
            no,
            pid,
            issued: 0,
            sendings: first - 1,
            calls: Calls::create(alloc)?,
            flight: Flight::create(alloc)?,
            last: 0,
        })
    }

    /// Takes a call, under the next number. The first fault that holds hands it back, and the
    /// client is as it was.
    pub fn issue(&mut self, call: Call) -> Result<CallNo, (IssueFault, Call)>
        requires { self.old.issued < 4294967295 }
        ensures answer { result ≡ issue_answer self.old call (issue_fault self.old call) }
        ensures state { self.new ≡ issue_state self.old call (issue_fault self.old call) }
        ensures valid { IsValid self.new }
    {
        if let Some(fault) = self.fault_of(&call) {
            return Err((fault, call));
        }
        self.issued += 1;
        let no = CallNo(self.issued);
        self.calls.push(no, call);
        Ok(no)
    }

    /// Why the call is not taken.
    fn fault_of(&self, call: &Call) -> Option<IssueFault>
        ensures { result ≡ issue_fault self.now call.now }
    {
        if self.is_full() {
            return Some(IssueFault::QueueFull);
        }
        call_fault(call)
    }

    /// Hands out the call that ended first, with its answer. `None` comes exactly where no ended call
    /// waits.
    pub fn done(&mut self) -> Option<(CallNo, Answer, Call)>
        ensures answer { result ≡ option_map done_answer (slice_get self.old.ended 0) }
        ensures state { self.new ≡ after_done self.old }
        ensures valid { IsValid self.new }
    {
        let Some(ended) = self.calls.pop_ended() else {
            return None;
        };
        Some((ended.no, ended.answer, ended.call))
    }

    /// Whether the call was issued, has not ended, and is ready.
    pub fn ready_at(&self, no: CallNo) -> bool
        ensures { result ≡ ready_at_of self.now no.0 }
    {
        self.calls.is_ready(no)
    }

    /// Whether it holds as many calls as it may.
    pub fn is_full(&self) -> bool
        ensures { result ≡ leb HELD_CALLS (held self.now) }
    {
        self.calls.count() >= HELD_CALLS as usize
    }

    /// Whether it holds no call: none waits, is in flight or has ended and waits to be handed out.
    pub fn is_empty(&self) -> bool
        ensures { result ≡ (held self.now == 0) }
    {
        self.calls.count() == 0
    }

    /// Its number.
    pub fn no(&self) -> ClientNo
        ensures { result ≡ self.now.client }
    {
        self.no
    }

    /// How many calls it has issued.
    pub fn issued(&self) -> u32
        ensures count { result ≡ self.now.issued }
        ensures valid { IsValid self.now }
    {
        self.issued
    }

    /// The latest moment that it was given, in ticks.
    pub fn last(&self) -> u64
        ensures moment { result ≡ self.now.last }
        ensures valid { IsValid self.now }
    {
        self.last
    }
}
