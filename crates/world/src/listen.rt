//! A frame at its client.

ghost use Rattle.std.specs.Prelude.{◌≡◌, None, IfOk, OnOk};
ghost use Rattle.frame_model.specs.Frames.{head_in, reply_fault, reply_in};
ghost use Rattle.client_core.specs.Answers.{heard_as};
ghost use Rattle.client_model.specs.Client.{end_told, handed_out};
ghost use Rattle.world.specs.Saying.{IsListened, look_entry, state_heard};

use crate::copies::{copy_of, own_reply};
use crate::note::Note;
use crate::turn::hand_out;
use cl_types::frame::BadFrame;
use cl_types::items::NoMemory;
use cl_types::line::{EndedCall, Entry};
use cl_types::reply::Part;
use cl_types::request::Request;
use client_core::{Client, Heard};
use frame_codec::read_reply;
use std::alloc::Global;

/// A reply that was taken.
#[derive(Drop)]
pub struct Taken {
    pub part: Part,
    pub ended: Option<EndedCall>,
    /// The entry of a look, which is made now.
    pub entry: Option<Entry>,
}

/// What a client heard.
#[derive(Drop)]
pub enum Listened {
    /// The bytes spell no reply.
    Bad(BadFrame),
    /// The reply is another client's.
    Other,
    /// No part in flight fits the reply to this orig.
    Late(u64),
    Took(Taken),
}

/// Hands the bytes of a frame that was sent on the line `sent` to a client, and hands out the call
/// that ended by it.
#[tactic(auto, using(crate::proofs::ListenLemmas::heard_client))]
pub fn listen(
    alloc: Global,
    client: &mut Client,
    frame: &[u8],
    note: &Note,
    sent: u32,
) -> Result<Listened, NoMemory>
    ensures listened { let heard = heard_as client.old frame.now in
        IfOk result (λ t. IsListened client.old frame.now note.now sent heard t) }
    ensures state { let heard = heard_as client.old frame.now in
        OnOk result (client.new ≡ state_heard client.old heard) }
    ensures number { client.new.client ≡ client.old.client }
{
    match client.hear(frame) {
        Heard::Bad(fault) => Ok(Listened::Bad(fault)),
        Heard::Other { .. } => Ok(Listened::Other),
        Heard::Late { orig } => Ok(Listened::Late(orig)),
        Heard::Unfit { orig } => Ok(Listened::Late(orig)),
        Heard::Took(part) => took(alloc, client, frame, note, sent, part),
        Heard::Ended(part) => took(alloc, client, frame, note, sent, part),
    }
}

/// Tells the reply to a part that was taken.
fn took(
    alloc: Global,
    client: &mut Client,
    frame: &[u8],
    note: &Note,
    sent: u32,
    part: Part,
) -> Result<Listened, NoMemory>
    requires { reply_fault frame.now ≡ None }
    ensures listened { IfOk result (λ t. t ≡ Listened.Took (record {
      part = part;
      ended = end_told client.old.client client.old.ended;
      entry = look_entry sent frame.now note.now;
    })) }
    ensures state { OnOk result (client.new ≡ handed_out client.old) }
    ensures number { client.new.client ≡ client.old.client }
{
    let ended = hand_out(alloc, client)?;
    let entry = look_of(alloc, frame, note, sent)?;
    Ok(Listened::Took(Taken { part, ended, entry }))
}

/// The entry of a look whose reply was taken.
fn look_of(alloc: Global, frame: &[u8], note: &Note, sent: u32) -> Result<Option<Entry>, NoMemory>
    requires { reply_fault frame.now ≡ None }
    ensures { IfOk result (λ entry. entry ≡ look_entry sent frame.now note.now) }
{
    match &note.looked {
        None => Ok(None),
        Some(request) => Ok(Some(entry_of(alloc, frame, note.part, request, sent)?)),
    }
}

/// The entry of a request that the node looked up on the line `sent`, and answered by this frame.
fn entry_of(
    alloc: Global,
    frame: &[u8],
    part: Part,
    request: &Request,
    sent: u32,
) -> Result<Entry, NoMemory>
    requires { reply_fault frame.now ≡ None }
    ensures { IfOk result (λ entry. entry ≡ record {
      line = sent;
      position = 0;
      client = (head_in frame.now).client;
      pid = (head_in frame.now).pid;
      part = part;
      request = request.now;
      reply = reply_in frame.now;
    }) }
{
    let request = copy_of(alloc, request)?;
    match read_reply(frame) {
        Err(_) => unreachable!(),
        Ok(view) => Ok(Entry {
            line: sent,
            position: 0,
            client: view.head.client,
            pid: view.head.pid,
            part,
            request,
            reply: own_reply(alloc, &view.body)?,
        }),
    }
}
