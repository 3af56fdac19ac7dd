//! `Keeper`: the node around its machine.

ghost use Rattle.std.specs.Prelude.{◌≡◌, ◌+◌, ◌≤◌, [], true, length, IfOk, IsTrue};
ghost use Rattle.cl_types.specs.Requests.{request_of};
ghost use Rattle.cl_types.specs.declared.limits.TheConstants.{FRAME_ROOM};
ghost use Rattle.frame_model.specs.Frames.{IsHead, head_in, kind_of, request_in};
ghost use Rattle.node_model.specs.Handling.{Executes, Looks, latest};
ghost use Rattle.node_model.specs.Nodes.{IsSetUp, handles, keeping, node_answer, node_given};
ghost use Rattle.cl_types.specs.Ranges.{is_in_range};
ghost use Rattle.flat_model.specs.Step.{outcome};
ghost use Rattle.node_core.specs.Fields.{handling_at, handling_of, reply_kept, IsSpelled, IsSpelledWhereRepeated};
ghost use Rattle.node_core.specs.Keeping.{Hits, OnIdle, Tells, TellsReply, TellsSaid, Uses, item_of};
ghost use Rattle.node_core.specs.Placed.{is_access};

use crate::machine::Machine;
use crate::outcome::Outcome;
use crate::placed::{STATUS_AT, small_in, write_frame};
use cl_types::call::Kind;
use cl_types::frame::{Head, How};
use cl_types::items::NoMemory;
use cl_types::request::{RequestRef, changes};
use cl_types::small_reply::SmallReply;
use cl_types::steps::Steps;
use frame_codec::{kind_of, read_request, write_small};
use retry_buffer::Retry;
use std::alloc::Global;
use std::marker::Model;
use std::sync::ledger::Ledger;

/// How a request is to be handled.
#[derive(Clone, Copy)]
enum Judged {
    /// Its reply was recorded, and is given again.
    Repeats(SmallReply),
    /// The records are full, and the oldest, of this moment, is young.
    IsBusy(u64),
    /// It is executed, and its reply recorded.
    Executes,
    /// It is executed and changes nothing.
    Looks,
}

/// The protocol of retries, around a machine.
#[derive(Drop)]
pub struct Keeper<M: Machine + Drop> {
    machine: M,
    retry: Retry,
    // In ticks.
    last: u64,
}

impl<M: Machine + Drop> Model for Keeper<M> {
    ghost use Rattle.node_core.specs.Keeping.{KeptNode};
    ghost use Rattle.node_core.specs.Fields.{IsSound, kept_node};

    ghost Value = { KeptNode };

    ghost view = { λ k. kept_node (M.flat k.machine) (M.cache k.machine) k.retry k.last };

    ghost invariant = { λ k. IsSound k.retry k.last };
}

impl<M: Machine + Drop> Keeper<M> {
    /// A node with this machine, nothing recorded, and room for `capacity` records, 1 to 65,536.
    /// `NoMemory` comes where an allocation was refused.
    pub fn create(alloc: Global, machine: M, capacity: u32) -> Result<Keeper<M>, NoMemory>
        requires some { 1 ≤ capacity }
        requires most { capacity ≤ 65536 }
        ensures { IfOk result (λ keeper. keeper ≡ record {
          node = record { flat = M.flat machine; records = []; retry = capacity };
          last = 0;
          cache = M.cache machine;
        }) }
    {
        let retry = Retry::create(alloc, capacity)?;
        Ok(Keeper {
            machine,
            retry,
            last: 0,
        })
    }

    /// Its machine.
    pub fn machine(&self) -> &M
        ensures flat { M.flat result.now ≡ self.now.node.flat }
        ensures cache { M.cache result.now ≡ self.now.cache }
    {
        &self.machine
    }

    /// The latest moment that it was given, in ticks.
    pub fn last(&self) -> u64
        ensures moment { result ≡ self.now.last }
        ensures set_up { IsSetUp self.now.node self.now.last }
    {
        self.last
    }

    /// How many replies are recorded.
    pub fn retained(&self) -> u32
        ensures count { result ≡ length self.now.node.records }
        ensures within { result ≤ self.now.node.retry }
    {
        self.retry.retained()
    }

    /// Handles a frame at the moment `now`, in ticks.
    pub fn step<A: Ledger, B: Ledger>(
        &mut self,
        now: u64,
        frame: &[u8],
        out: &mut [u8],
        reads: &mut Steps<A>,
        takes: &mut Steps<B>,
    ) -> Outcome
        requires later { self.old.last ≤ now }
        requires room { length out.old ≡ FRAME_ROOM }
        ensures node { self.new ≡ record {
          node = node_given latest self.old.node now frame.now;
          last = now;
          cache = self.new.cache;
        } }
        ensures answer { Tells frame.now (node_answer latest self.old.node now frame.now) result out.new }
        ensures latest { Uses self.new.cache (head_in frame.now).pid (request_in frame.now) result }
        ensures idle { OnIdle result (self.new.cache ≡ self.old.cache) }
        ensures idle_reads { OnIdle result (reads.new ≡ reads.old) }
        ensures idle_takes { OnIdle result (takes.new ≡ takes.old) }
        ensures hit { Hits self.old.cache (head_in frame.now).pid (request_in frame.now)
            → reads.new ≡ reads.old }
        ensures reads { is_access (request_in frame.now) ≡ true → reads.new ≤ reads.old + 1 }
        ensures takes { is_access (request_in frame.now) ≡ true → takes.new ≤ takes.old + 1 }
    {
        self.last = now;
        match read_request(frame) {
            Err(fault) => Outcome::Bad(fault),
            Ok(view) => self.handle(&view.head, &view.body, out, reads, takes),
        }
    }

    // Handles a request at the latest moment.
    fn handle<A: Ledger, B: Ledger>(
        &mut self,
        head: &Head,
        request: &RequestRef,
        out: &mut [u8],
        reads: &mut Steps<A>,
        takes: &mut Steps<B>,
    ) -> Outcome
        requires head { IsHead head.now }
        requires range { IsTrue (is_in_range (request_of request.now)) }
        requires room { length out.old ≡ FRAME_ROOM }
        ensures node { self.new ≡ record self.old {
          node = (keeping self.old.node self.old.last (item_of head.now request.now)).node;
          cache = self.new.cache;
        } }
        ensures answer { let item = item_of head.now request.now in
            TellsSaid item (keeping self.old.node self.old.last item).said result out.new }
        ensures latest { Uses self.new.cache head.now.pid (request_of request.now) result }
        ensures idle { OnIdle result (self.new.cache ≡ self.old.cache) }
        ensures idle_reads { OnIdle result (reads.new ≡ reads.old) }
        ensures idle_takes { OnIdle result (takes.new ≡ takes.old) }
        ensures hit { Hits self.old.cache head.now.pid (request_of request.now)
            → reads.new ≡ reads.old }
        ensures reads { is_access (request_of request.now) ≡ true → reads.new ≤ reads.old + 1 }
        ensures takes { is_access (request_of request.now) ≡ true → takes.new ≤ takes.old + 1 }
    {
        match self.judge(head, request) {
            Judged::Repeats(reply) => repeat(head, kind_of(request), &reply, out),
            Judged::IsBusy(oldest) => Outcome::Busy {
                oldest,
                now: self.last,
            },
            Judged::Executes => self.execute(head, request, out, reads, takes),
            Judged::Looks => self.look(head, request, out, reads, takes),
        }
    }

    // How a request is to be handled at the latest moment.
    fn judge(&self, head: &Head, request: &RequestRef) -> Judged
        ensures handling { handling_of (kind_of (request_of request.now)) result
            ≡ handling_at self.now (item_of head.now request.now) }
        ensures spelled { IsSpelledWhereRepeated (kind_of (request_of request.now)) result }
    {
        if !changes(request) {
            return Judged::Looks;
        }
        if let Some(reply) = self.retry.look(head.client, kind_of(request), head.orig) {
            return Judged::Repeats(reply);
        }
        match self.retry.room(self.last) {
            Ok(()) => Judged::Executes,
            Err(young) => Judged::IsBusy(young.oldest),
        }
    }

    // Executes a request that changes nothing.
    fn look<A: Ledger, B: Ledger>(
        &mut self,
        head: &Head,
        request: &RequestRef,
        out: &mut [u8],
        reads: &mut Steps<A>,
        takes: &mut Steps<B>,
    ) -> Outcome
        requires head { IsHead head.now }
        requires range { IsTrue (is_in_range (request_of request.now)) }
        requires room { length out.old ≡ FRAME_ROOM }
        requires looks { handling_at self.old (item_of head.now request.now) ≡ Looks }
        ensures node { self.new ≡ record self.old { cache = self.new.cache } }
        ensures answer { let reply = (outcome self.old.node.flat head.now.pid (request_of request.now)).reply in
            TellsReply head.now (kind_of (request_of request.now)) How.Looked reply result out.new }
        ensures latest { Uses self.new.cache head.now.pid (request_of request.now) result }
        ensures hit { Hits self.old.cache head.now.pid (request_of request.now)
            → reads.new ≡ reads.old }
        ensures reads { is_access (request_of request.now) ≡ true → reads.new ≤ reads.old + 1 }
        ensures takes { is_access (request_of request.now) ≡ true → takes.new ≤ takes.old + 1 }
    {
        let placed = self.machine.execute(head.pid, request, out, reads, takes);
        let len = write_frame(head, kind_of(request), placed, out);
        Outcome::Replied {
            len,
            how: How::Looked,
            status: out[STATUS_AT],
        }
    }

    // Executes a request, and records its reply at the latest moment.
    fn execute<A: Ledger, B: Ledger>(
        &mut self,
        head: &Head,
        request: &RequestRef,
        out: &mut [u8],
        reads: &mut Steps<A>,
        takes: &mut Steps<B>,
    ) -> Outcome
        requires head { IsHead head.now }
        requires range { IsTrue (is_in_range (request_of request.now)) }
        requires room { length out.old ≡ FRAME_ROOM }
        requires executes { handling_at self.old (item_of head.now request.now) ≡ Executes }
        ensures node { let item = item_of head.now request.now in
            self.new ≡ record self.old {
              node = (handles latest self.old.node self.old.last item Executes).node;
              cache = self.new.cache;
            } }
        ensures answer { let reply = (outcome self.old.node.flat head.now.pid (request_of request.now)).reply in
            TellsReply head.now (kind_of (request_of request.now)) How.Executed reply result out.new }
        ensures latest { Uses self.new.cache head.now.pid (request_of request.now) result }
        ensures hit { Hits self.old.cache head.now.pid (request_of request.now)
            → reads.new ≡ reads.old }
        ensures reads { is_access (request_of request.now) ≡ true → reads.new ≤ reads.old + 1 }
        ensures takes { is_access (request_of request.now) ≡ true → takes.new ≤ takes.old + 1 }
    {
        let kind = kind_of(request);
        let placed = self.machine.execute(head.pid, request, out, reads, takes);
        let len = write_frame(head, kind, placed, out);
        let reply = small_in(&out[..len]);
        self.retry
            .note(self.last, head.client, kind, head.orig, reply);
        Outcome::Replied {
            len,
            how: How::Executed,
            status: reply.status,
        }
    }
}

// Gives a kept reply again.
fn repeat(head: &Head, kind: Kind, reply: &SmallReply, out: &mut [u8]) -> Outcome
    requires room { length out.old ≡ FRAME_ROOM }
    requires spelled { IsSpelled kind reply.now }
    ensures { TellsReply head.now kind How.Repeated (reply_kept kind reply.now) result out.new }
{
    let len = write_small(head, kind, reply, out);
    Outcome::Replied {
        len,
        how: How::Repeated,
        status: reply.status,
    }
}
