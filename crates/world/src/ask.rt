//! A frame at the node.

ghost use Rattle.std.specs.Prelude.{◌≡◌, ◌≤◌, None, IfOk, length};
ghost use Rattle.cl_types.specs.Requests.{request_of};
ghost use Rattle.frame_model.specs.Frames.{IsHead, head_in, reply_fault, reply_in, request_in};
ghost use Rattle.node_model.specs.Handling.{latest};
ghost use Rattle.node_model.specs.Nodes.{ItemAnswer as NodeSaid, node_answer, node_given};
ghost use Rattle.node_core.specs.Keeping.{TellsSaid, item_of};
ghost use Rattle.world.specs.Saying.{IsReadable, IsSaid, IsSaidTo, IsShort, IsShortSaid, made_in};

use crate::copies::{own_reply, own_request};
use cl_types::frame::{BadFrame, Head, How};
use cl_types::items::NoMemory;
use cl_types::limits::FRAME_ROOM;
use cl_types::numbers::ClientNo;
use cl_types::reply::Reply;
use cl_types::request::{Request, RequestRef};
use frame_codec::{RequestView, read_reply, read_request};
use node_core::{Node, Outcome};
use std::alloc::Global;

/// What is kept of a request that was answered.
#[derive(Drop)]
pub enum Made {
    /// It was executed: an entry is made of it and its reply.
    Executed { request: Request, reply: Reply },
    /// Its reply was given again.
    Repeated,
    /// It was looked up: an entry is made where its reply is taken.
    Looked { request: Request },
}

/// An answer, whose frame is the first `len` bytes of the buffer.
#[derive(Drop)]
pub struct Answered {
    pub head: Head,
    pub made: Made,
    pub status: u8,
    pub len: usize,
}

/// What the node said.
#[derive(Drop)]
pub enum FrameAnswer {
    /// The bytes spell no request.
    Bad(BadFrame),
    /// The node has as many records as it may keep, and the oldest is young.
    Busy {
        client: ClientNo,
        oldest: u64,
        now: u64,
    },
    /// The node answers, with a frame that is to be sent.
    Answers(Answered),
}

/// Hands bytes to the node at the moment `now`, and keeps of them what an entry or a note needs.
pub fn ask(
    alloc: Global,
    node: &mut Node,
    now: u64,
    frame: &[u8],
    out: &mut [u8],
) -> Result<FrameAnswer, NoMemory>
    requires later { node.old.last ≤ now }
    requires room { length out.old ≡ FRAME_ROOM }
    ensures node { node.new ≡ record {
      node = node_given latest node.old.node now frame.now;
      last = now;
      cache = node.new.cache;
    } }
    ensures said { IfOk result
        (λ said. IsSaid frame.now (node_answer latest node.old.node now frame.now) said out.new) }
    ensures short { IfOk result IsShortSaid }
{
    let outcome = node.handle(now, frame, out);
    match read_request(frame) {
        Err(fault) => Ok(FrameAnswer::Bad(fault)),
        Ok(view) => said_of(alloc, &view, outcome, out),
    }
}

/// What the node said to a request, by its outcome.
fn said_of(
    alloc: Global,
    view: &RequestView,
    outcome: Outcome,
    out: &[u8],
) -> Result<FrameAnswer, NoMemory>
    requires head { IsHead view.now.head }
    requires room { length out.now ≡ FRAME_ROOM }
    requires short { IsShort outcome }
    requires readable { IsReadable outcome out.now }
    ensures said { (x : NodeSaid)
        → TellsSaid (item_of view.now.head view.now.body) x outcome out.now
        → IfOk result (λ said. IsSaidTo (item_of view.now.head view.now.body) x said out.now) }
    ensures short { IfOk result IsShortSaid }
{
    match outcome {
        Outcome::Bad(fault) => Ok(FrameAnswer::Bad(fault)),
        Outcome::Busy { oldest, now } => Ok(FrameAnswer::Busy {
            client: view.head.client,
            oldest,
            now,
        }),
        Outcome::Replied { len, how, status } => {
            let made = made_of(alloc, how, &view.body, &out[..len])?;
            Ok(FrameAnswer::Answers(Answered {
                head: view.head,
                made,
                status,
                len,
            }))
        }
    }
}

/// What is kept of a request, by how the node came to the reply in this frame.
fn made_of(alloc: Global, how: How, request: &RequestRef, frame: &[u8]) -> Result<Made, NoMemory>
    requires { how ≡ How.Executed → reply_fault frame.now ≡ None }
    ensures { IfOk result
        (λ made. made ≡ made_in how (request_of request.now) (reply_in frame.now)) }
{
    match how {
        How::Executed => executed(alloc, request, frame),
        How::Repeated => Ok(Made::Repeated),
        How::Looked => Ok(Made::Looked {
            request: own_request(alloc, request)?,
        }),
    }
}

/// An execution of the request, with the reply in this frame.
fn executed(alloc: Global, request: &RequestRef, frame: &[u8]) -> Result<Made, NoMemory>
    requires { reply_fault frame.now ≡ None }
    ensures { IfOk result
        (λ made. made ≡ Made.Executed (request_of request.now) (reply_in frame.now)) }
{
    let request = own_request(alloc, request)?;
    match read_reply(frame) {
        Err(_) => unreachable!(),
        Ok(view) => Ok(Made::Executed {
            request,
            reply: own_reply(alloc, &view.body)?,
        }),
    }
}
