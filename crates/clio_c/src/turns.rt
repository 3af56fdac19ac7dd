//! What a poll did and how a call ended, as C is told.

ghost use Rattle.std.specs.Prelude.{◌≡◌, ◌<◌, ◌≤◌, length, slice_get, take};
ghost use Rattle.cl_types.specs.Bytes.{over};
ghost use Rattle.cl_types.specs.declared.limits.TheConstants.{FRAME_ROOM};
ghost use Rattle.client_model.specs.Client.{after_done, after_poll, buffer_of as buffer_in, counted as counted_in, poll as poll_of};
ghost use Rattle.clio_c.specs.Turning.{HadNoRoom, HandsOut, Polls, ended_as, moment_of, polled_as};

use crate::codes::refusal_number;
use cl_types::call::Call;
use cl_types::limits::FRAME_ROOM;
use cl_types::numbers::CallNo;
use cl_types::reply::{Answer, Value};
use client_core::{Client, Poll};

/// What a poll did.
#[repr(C)]
#[derive(Clone, Copy)]
pub struct Polled {
    /// 0 nothing, 1 a frame is to be sent, 2 a part was given up, 3 a fence ended, 4 the buffer has
    /// no room for a frame, so nothing was done.
    pub what: u32,
    /// How many bytes the frame has, 0 where none is to be sent.
    pub len: usize,
}

/// How a call ended.
#[repr(C)]
#[derive(Clone, Copy)]
pub struct Ended {
    /// Its number.
    pub call: u32,
    /// 0 done, 1 refused, 2 timed out.
    pub what: u32,
    /// Of what was done: an address, an old word, or a length. Else the refusal's number, or the
    /// moment of the first sending.
    pub value: u64,
    /// How many bytes came.
    pub len: u32,
}

/// What C is told of what a poll did.
fn told_of(poll: Poll) -> Polled
    ensures { result ≡ polled_as poll }
{
    match poll {
        Poll::Idle => Polled { what: 0, len: 0 },
        Poll::Sent {
            len,
            part: _,
            id: _,
            orig: _,
            again: _,
        } => Polled { what: 1, len },
        Poll::GaveUp(_part) => Polled { what: 2, len: 0 },
        Poll::Ended(_no) => Polled { what: 3, len: 0 },
    }
}

/// Polls the client at `now`, or at its latest moment where `now` is before that. Nothing is done
/// where `out` has no room for a frame.
pub fn poll(client: &mut Client, now: u64, out: &mut [u8]) -> Polled
    ensures polls { FRAME_ROOM ≤ length out.old
        → Polls client.old now out.old out.new result }
    ensures state { let moment = moment_of client.old now in FRAME_ROOM ≤ length out.old
        → client.new ≡ after_poll moment (poll_of client.old moment) client.old }
    ensures short { length out.old < FRAME_ROOM → HadNoRoom out.old out.new result }
    ensures unchanged { length out.old < FRAME_ROOM → client.new ≡ client.old }
{
    if out.len() < FRAME_ROOM {
        return Polled { what: 4, len: 0 };
    }
    let moment = now.max(client.last());
    told_of(client.poll(moment, out))
}

/// The buffer of a call, empty where the call has none.
fn buffer_of(call: &Call) -> &[u8]
    ensures { result.now ≡ buffer_in call.now }
{
    match call {
        Call::Read { buf, .. } | Call::Offload { buf, .. } => buf.as_slice(),
        Call::Alloc { .. }
        | Call::Free { .. }
        | Call::Write { .. }
        | Call::Atomic { .. }
        | Call::Fence => &[],
    }
}

/// The first `count` bytes, or all where there are fewer.
fn first_of(bytes: &[u8], count: usize) -> &[u8]
    ensures { result.now ≡ take count bytes.now }
{
    if bytes.len() <= count {
        return bytes;
    }
    &bytes[..count]
}

/// The bytes that came with a call: those of its buffer that the answer counts.
fn counted(answer: Answer, call: &Call) -> &[u8]
    ensures { result.now ≡ counted_in answer call.now }
{
    match answer {
        Answer::Done(Value::Len(count)) => first_of(buffer_of(call), count as usize),
        Answer::Done(Value::Nothing | Value::At(_) | Value::Word(_))
        | Answer::Refused(_)
        | Answer::TimedOut { .. } => &[],
    }
}

/// Puts as many of the bytes as fit at the start of the buffer.
fn put(bytes: &[u8], out: &mut [u8])
    ensures { out.new ≡ over out.old bytes.now }
{
    let count = bytes.len().min(out.len());
    out[..count].copy_from_slice(&bytes[..count]);
}

/// What C is told of how a call ended.
fn told_end(no: CallNo, answer: Answer) -> Ended
    ensures { result ≡ ended_as no.0 answer }
{
    let (what, value, len) = match answer {
        Answer::Done(Value::Nothing) => (0, 0, 0),
        Answer::Done(Value::At(addr)) => (0, u64::from(addr.0), 0),
        Answer::Done(Value::Word(word)) => (0, word, 0),
        Answer::Done(Value::Len(len)) => (0, u64::from(len), len),
        Answer::Refused(refusal) => (1, refusal_number(refusal), 0),
        Answer::TimedOut { first_sent, now: _ } => (2, first_sent, 0),
    };
    Ended {
        call: no.0,
        what,
        value,
        len,
    }
}

/// Hands out the call that ended first: whether there was one, how it ended, and the bytes that came
/// with it, as many as `out` has room for.
pub fn hand_out(client: &mut Client, out: &mut [u8], ended: &mut Ended) -> bool
    ensures hands { HandsOut (slice_get client.old.ended 0) result out.old out.new ended.old ended.new }
    ensures client { client.new ≡ after_done client.old }
{
    let Some((no, answer, call)) = client.done() else {
        return false;
    };
    put(counted(answer, &call), out);
    *ended = told_end(no, answer);
    true
}
