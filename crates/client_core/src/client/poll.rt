//! The poll: the one thing that is due at a moment, by a function for each rule.

ghost use Rattle.std.specs.Prelude.{◌≡◌, ◌≤◌, true, List, ℕ, Some, is_some, length, option_map, slice_get, unwrap_or};
ghost use Rattle.cl_types.specs.Bytes.{with_bytes};
ghost use Rattle.client_retry.specs.declared.due.Due.TheVariants as due;
ghost use Rattle.client_model.specs.Client.{Polled, Idles, after_poll, fence_first, has_room_in_flight, poll as poll_of, sendable, to_give_up, to_send, to_send_again};
ghost use Rattle.client_core.specs.Answers.{poll_answer, poll_bytes};
ghost use Rattle.client_core.specs.Polls.{Does, IsPolled, due_in};
ghost use Rattle.client_core.specs.Valid.{IsValid};
ghost use Rattle.cl_types.specs.declared.limits.TheConstants.{FRAME_ROOM};

use super::Client;
use crate::answers::Poll;
use crate::frames::write_part;
use cl_types::frame::Head;
use cl_types::limits::PARTS_IN_FLIGHT;
use cl_types::reply::Part;
use client_retry::Due;

impl Client {
    /// Does the first thing that is due at the moment `now`, and tells which. A frame is written to
    /// the start of `out`; the rest of `out` stays, and all of it where nothing is sent.
    pub fn poll(&mut self, now: u64, out: &mut [u8]) -> Poll
        requires moment { self.old.last ≤ now }
        requires room { FRAME_ROOM ≤ length out.old }
        ensures answer { result ≡ poll_answer self.old (poll_of self.old now) }
        ensures bytes { out.new ≡ with_bytes 0 (poll_bytes self.old (poll_of self.old now)) out.old }
        ensures state { self.new ≡ after_poll now (poll_of self.old now) self.old }
        ensures valid { IsValid self.new }
    {
        self.last = now;
        self.turn(out)
    }

    /// Does the first thing that is due at the latest moment.
    fn turn(&mut self, out: &mut [u8]) -> Poll
        requires room { FRAME_ROOM ≤ length out.old }
        ensures turned { IsPolled self.old self.new result out.old out.new }
        ensures valid { IsValid self.new }
    {
        let due = self.flight.due(self.last);
        if let Due::GiveUp {
            part,
            orig,
            first_sent,
        } = due
        {
            return self.give_up(part, orig, first_sent);
        }
        let fence = self.calls.first_fence();
        if fence.is_some() {
            return self.end_fence();
        }
        if let Due::Resend { part, orig } = due {
            return self.send_again(part, orig, out);
        }
        self.send_next(out)
    }

    /// Gives up the first part that is old enough.
    fn give_up(&mut self, part: Part, orig: u64, first_sent: u64) -> Poll
        requires due { due_in self.old ≡ due.GiveUp part orig first_sent }
        ensures does { (p : Polled) (out : List ℕ) → to_give_up self.old self.old.last ≡ Some p
            → Does p self.old self.new result out out }
        ensures valid { IsValid self.new }
    {
        self.flight.give_up(orig);
        self.calls.give_up(part, first_sent, self.last);
        Poll::GaveUp(part)
    }

    /// Ends the Fence that is the first call.
    fn end_fence(&mut self) -> Poll
        requires fence { is_some (fence_first self.old.calls) ≡ true }
        ensures does { (p : Polled) (out : List ℕ) → fence_first self.old.calls ≡ Some p
            → Does p self.old self.new result out out }
        ensures valid { IsValid self.new }
    {
        let no = self.calls.end_fence();
        Poll::Ended(no)
    }

    /// Sends the first part that is due again, under a new id.
    fn send_again(&mut self, part: Part, orig: u64, out: &mut [u8]) -> Poll
        requires due { due_in self.old ≡ due.Resend part orig }
        requires room { FRAME_ROOM ≤ length out.old }
        ensures does { (p : Polled) → to_send_again self.old self.old.last ≡ Some p
            → Does p self.old self.new result out.old out.new }
        ensures valid { IsValid self.new }
    {
        let id = self.sendings + 1;
        let head = Head {
            client: self.no,
            pid: self.pid,
            id,
            orig,
        };
        let len = write_part(&self.calls, part, &head, out);
        self.sendings = id;
        self.flight.resent(orig, self.last);
        Poll::Sent {
            len,
            part,
            id,
            orig,
            again: true,
        }
    }

    /// Sends the first unsent part of a ready call, where there is room in flight.
    fn send_next(&mut self, out: &mut [u8]) -> Poll
        requires room { FRAME_ROOM ≤ length out.old }
        ensures does { Does (unwrap_or (to_send self.old) Idles) self.old self.new result out.old out.new }
        ensures valid { IsValid self.new }
    {
        let flying = self.flight.count();
        if flying >= PARTS_IN_FLIGHT {
            return Poll::Idle;
        }
        let Some(part) = self.calls.part_to_send() else {
            self.calls.note_quiet();
            return Poll::Idle;
        };
        self.send(part, out)
    }

    /// Sends the first part that may be sent, for the first time.
    fn send(&mut self, part: Part, out: &mut [u8]) -> Poll
        requires next { option_map (λ p. p.part) (slice_get (sendable self.old) 0) ≡ Some part }
        requires room { FRAME_ROOM ≤ length out.old }
        requires space { has_room_in_flight self.old ≡ true }
        ensures does { (p : Polled) → to_send self.old ≡ Some p
            → Does p self.old self.new result out.old out.new }
        ensures valid { IsValid self.new }
    {
        let id = self.sendings + 1;
        let head = Head {
            client: self.no,
            pid: self.pid,
            id,
            orig: id,
        };
        let len = write_part(&self.calls, part, &head, out);
        self.sendings = id;
        self.flight.sent(part, id, self.last);
        self.calls.note_sent(part.call);
        Poll::Sent {
            len,
            part,
            id,
            orig: id,
            again: false,
        }
    }
}
