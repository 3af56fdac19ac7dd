//! A poll of one client.

ghost use Rattle.std.specs.Prelude.{◌≡◌, ◌≤◌, [], IfOk, OnOk, length, take};
ghost use Rattle.client_model.specs.Client.{after_poll, buffer_of, counted, end_told, handed_out, poll, told};
ghost use Rattle.world.specs.Saying.{IsShortTurn, IsTurned};

use crate::whole::alone;
use call_text::copied;
use cl_types::call::Call;
use cl_types::items::{Bytes, NoMemory};
use cl_types::limits::FRAME_ROOM;
use cl_types::line::{Did, EndedCall, EventLine};
use cl_types::numbers::{CallNo, ClientNo};
use cl_types::reply::{Answer, Part, Value};
use client_core::{Client, Poll};
use std::alloc::Global;

/// What a poll did.
#[derive(Drop)]
pub enum ClientTurn {
    /// Nothing is sent.
    Quiet(EventLine),
    /// The first `len` bytes of the buffer are sent, which carry this part.
    Sends {
        len: usize,
        part: Part,
        id: u64,
        orig: u64,
        again: bool,
    },
}

/// Polls a client at the moment `now`, and hands out the call that ended by it.
#[tactic(auto, using(crate::proofs::TurnLemmas::after_client))]
pub fn turn(
    alloc: Global,
    client: &mut Client,
    now: u64,
    out: &mut [u8],
) -> Result<ClientTurn, NoMemory>
    requires moment { client.old.last ≤ now }
    requires handed_out { client.old.ended ≡ [] }
    requires room { length out.old ≡ FRAME_ROOM }
    ensures turned { IfOk result (λ t. IsTurned client.old now (poll client.old now) t out.new) }
    ensures short { IfOk result IsShortTurn }
    ensures state { OnOk result (client.new
        ≡ handed_out (after_poll now (poll client.old now) client.old)) }
    ensures number { client.new.client ≡ client.old.client }
{
    let answer = client.poll(now, out);
    let no = client.no();
    match answer {
        Poll::Sent {
            len,
            part,
            id,
            orig,
            again,
        } => Ok(ClientTurn::Sends {
            len,
            part,
            id,
            orig,
            again,
        }),
        Poll::GaveUp(part) => ends(alloc, client, Did::GaveUp { client: no, part }),
        Poll::Ended(_) => ends(alloc, client, Did::FenceEnded),
        Poll::Idle => Ok(ClientTurn::Quiet(alone(Did::Idle))),
    }
}

/// Tells what was done, and the call that ended by it.
fn ends(alloc: Global, client: &mut Client, did: Did) -> Result<ClientTurn, NoMemory>
    ensures turned { IfOk result (λ t. t ≡ ClientTurn.Quiet (record {
      did = did;
      ended = end_told client.old.client client.old.ended;
    })) }
    ensures state { OnOk result (client.new ≡ handed_out client.old) }
    ensures number { client.new.client ≡ client.old.client }
{
    let ended = hand_out(alloc, client)?;
    Ok(ClientTurn::Quiet(EventLine { did, ended }))
}

/// Hands out all calls that have ended, and tells the first. That no more than one ends by an event
/// is not asked.
pub fn hand_out(alloc: Global, client: &mut Client) -> Result<Option<EndedCall>, NoMemory>
    ensures ended { IfOk result (λ ended. ended ≡ end_told client.old.client client.old.ended) }
    ensures state { OnOk result (client.new ≡ handed_out client.old) }
    ensures number { client.new.client ≡ client.old.client }
{
    let no = client.no();
    let Some((number, answer, call)) = client.done() else {
        return Ok(None);
    };
    let ended = told(alloc, no, number, answer, &call)?;
    leave(client);
    Ok(Some(ended))
}

/// Hands out the calls that are left.
fn leave(client: &mut Client)
    ensures { client.new ≡ handed_out client.old }
{
    while client.done().is_some() {}
}

/// A call that ended, as its line tells it.
fn told(
    alloc: Global,
    client: ClientNo,
    number: CallNo,
    answer: Answer,
    call: &Call,
) -> Result<EndedCall, NoMemory>
    ensures { IfOk result (λ ended. ended ≡ told client (record {
      number = number.0;
      answer = answer;
      call = call.now;
    })) }
{
    Ok(EndedCall {
        client,
        call: number,
        answer,
        bytes: counted(alloc, answer, call)?,
    })
}

/// The bytes that the answer's length counts.
fn counted(alloc: Global, answer: Answer, call: &Call) -> Result<Bytes, NoMemory>
    ensures { IfOk result (λ bytes. bytes ≡ counted answer call.now) }
{
    match answer {
        Answer::Done(Value::Len(count)) => first_of(alloc, buffer_of(call), count as usize),
        Answer::Done(Value::Nothing | Value::At(_) | Value::Word(_))
        | Answer::Refused(_)
        | Answer::TimedOut { .. } => Ok(Bytes::create(alloc)),
    }
}

/// The first `count` bytes, or all where there are fewer.
fn first_of(alloc: Global, bytes: &[u8], count: usize) -> Result<Bytes, NoMemory>
    ensures { IfOk result (λ first. first ≡ take count bytes.now) }
{
    if bytes.len() <= count {
        return copied(alloc, bytes);
    }
    copied(alloc, &bytes[..count])
}

/// The buffer of a call.
fn buffer_of(call: &Call) -> &[u8]
    ensures { result.now ≡ buffer_of call.now }
{
    match call {
        Call::Read { buf, .. } | Call::Offload { buf, .. } => buf.as_slice(),
        Call::Alloc { .. }
        | Call::Free { .. }
        | Call::Write { .. }
        | Call::Atomic { .. }
        | Call::Fence => &[],
    }
}
