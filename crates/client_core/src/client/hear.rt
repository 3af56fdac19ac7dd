//! Hearing: a reply is judged, and taken where it fits.

ghost use Rattle.std.specs.Prelude.{◌≡◌, ◌==◌, ◌&&◌};
ghost use Rattle.cl_types.specs.Requests.{request_of, reply_of};
ghost use Rattle.cl_types.specs.Kinds.{kind_number};
ghost use Rattle.frame_model.specs.Frames.{kind_of as kind_of_request};
ghost use Rattle.client_model.specs.Hearing.{after_hearing, is_as_long as is_as_long_reply};
ghost use Rattle.client_core.specs.Answers.{heard_answer, heard_as};
ghost use Rattle.client_core.specs.Valid.{IsValid};

use super::Client;
use crate::answers::Heard;
use cl_types::numbers::Pid;
use cl_types::reply::ReplyRef;
use cl_types::request::RequestRef;
use frame_codec::{ReplyView, kind_of, read_reply};

impl Client {
    /// Hears bytes: the first that holds of Bad, Other, Late and Unfit, and else the reply is
    /// taken, its bytes put into the buffer of its call.
    pub fn hear(&mut self, frame: &[u8]) -> Heard
        ensures answer { result ≡ heard_answer self.old (heard_as self.old frame.now) }
        ensures state { self.new ≡ after_hearing (heard_as self.old frame.now) self.old }
        ensures valid { IsValid self.new }
    {
        let no = self.no;
        let view = match read_reply(frame) {
            Ok(view) => view,
            Err(fault) => return Heard::Bad(fault),
        };
        let client = view.head.client;
        let ours = client.0 == no.0;
        if !ours {
            return Heard::Other { client };
        }
        let orig = view.head.orig;
        let Some(part) = self.flight.part_of(orig) else {
            return Heard::Late { orig };
        };
        let asked = self.calls.request(part);
        let fits = is_fit(&asked, self.pid, &view);
        if !fits {
            return Heard::Unfit { orig };
        }
        self.flight.hear(orig);
        let ended = self.calls.take(part, &view.body);
        if ended {
            return Heard::Ended(part);
        }
        Heard::Took(part)
    }
}

/// Whether the reply has the kind and the process of the request, and is as long as it asks.
fn is_fit(request: &RequestRef, pid: Pid, view: &ReplyView) -> bool
    ensures { result
        ≡ (kind_number view.now.kind == kind_number (kind_of_request (request_of request.now))
        && view.now.head.pid == pid
        && is_as_long_reply (request_of request.now) (reply_of view.now.body)) }
{
    kind_of(request) == view.kind
        && view.head.pid.number() == pid.number()
        && is_as_long(request, &view.body)
}

/// Whether the bytes of a reply are as many as the request asks, for an Offload at most as many.
fn is_as_long(request: &RequestRef, reply: &ReplyRef) -> bool
    ensures { result ≡ is_as_long_reply (request_of request.now) (reply_of reply.now) }
{
    let ReplyRef::Got(bytes) = *reply else {
        return true;
    };
    match *request {
        RequestRef::Read { len, .. } => bytes.len() == len as usize,
        RequestRef::Offload { out, .. } => bytes.len() <= out as usize,
        RequestRef::Alloc { .. }
        | RequestRef::Free { .. }
        | RequestRef::Write { .. }
        | RequestRef::Atomic { .. } => true,
    }
}
