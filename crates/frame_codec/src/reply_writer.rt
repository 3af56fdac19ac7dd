//! Writes replies: the body first, since its length stands in the header.

ghost use Rattle.std.specs.Prelude.{◌≡◌, ◌+◌, ◌≤◌, ◌∷◌, ◌++◌, drop, length, IsTrue};
ghost use Rattle.cl_types.specs.Bytes.{bytes_at};
ghost use Rattle.cl_types.specs.Kinds.{kind_number};
ghost use Rattle.cl_types.specs.Requests.{reply_of};
ghost use Rattle.cl_types.specs.SmallReplies.{value_of};
ghost use Rattle.cl_types.specs.declared.reply.Reply.TheVariants as owned;
ghost use Rattle.frame_model.specs.Frames.{IsHead, frame_of, is_reply_of, reply_frame, reply_value, status_of};
ghost use Rattle.frame_codec.specs.Parts.{reply_body};
ghost use Rattle.frame_codec.specs.Writing.{IsWritten, may_carry};
ghost use Rattle.cl_types.specs.declared.limits.TheConstants.{REPLY_BYTES};

use crate::headers::{HEADER_BYTES, REPLY, write_header};
use crate::places::{put_u32, put_u64};
use cl_types::call::Kind;
use cl_types::frame::Head;
use cl_types::limits::{FRAME_ROOM, PART_BYTES};
use cl_types::reply::{Refusal, ReplyRef};
use cl_types::small_reply::SmallReply;

/// The status of a refusal.
fn status_of(refusal: Refusal) -> u8
    ensures { result ≡ status_of refusal }
{
    match refusal {
        Refusal::NoMapping => 1,
        Refusal::NoPermission => 2,
        Refusal::NoPage => 3,
        Refusal::NoRange => 4,
        Refusal::NoOffload => 5,
        Refusal::ObjectFull => 6,
        Refusal::NoKey => 7,
        Refusal::BadOp => 8,
    }
}

/// Writes the status and the value of a reply, and tells how many bytes they have.
fn write_body(body: &ReplyRef, out: &mut [u8]) -> usize
    requires room { 1025 ≤ length out.old }
    requires short { length (reply_value (reply_of body.now)) ≤ PART_BYTES }
    ensures len { result ≡ length (reply_body (reply_of body.now)) }
    ensures short { result ≤ 1025 }
    ensures written { out.new ≡ reply_body (reply_of body.now) ++ drop result out.old }
{
    out[0] = 0;
    match *body {
        ReplyRef::Refused(refusal) => {
            out[0] = status_of(refusal);
            1
        }
        ReplyRef::Nothing => 1,
        ReplyRef::At(addr) => {
            put_u32(out, 1, addr.0);
            5
        }
        ReplyRef::Word(word) => {
            put_u64(out, 1, word);
            9
        }
        ReplyRef::Got(bytes) => {
            out[1..1 + bytes.len()].copy_from_slice(bytes);
            1 + bytes.len()
        }
    }
}

/// Writes a reply to a request of this kind at the start of `out`, and tells how many bytes it has.
/// The rest of `out` stays.
pub fn write_reply(head: &Head, kind: Kind, body: &ReplyRef, out: &mut [u8]) -> usize
    requires room { FRAME_ROOM ≤ length out.old }
    requires head { IsHead head.now }
    requires body { IsTrue (is_reply_of kind (reply_of body.now)) }
    ensures short { result ≤ REPLY_BYTES }
    ensures written { let frame = reply_frame head.now kind (reply_of body.now) in
        IsWritten frame result out.old out.new }
{
    let len = write_body(body, &mut out[HEADER_BYTES..]);
    write_header(REPLY + kind.number(), head, len as u16, out);
    HEADER_BYTES + len
}

/// Writes the reply to a Read or an Offload whose `len` bytes stand in `out` already, from place 27
/// on, and tells how many bytes it has. All bytes from place 27 on stay.
pub fn write_got(head: &Head, kind: Kind, len: usize, out: &mut [u8]) -> usize
    requires room { FRAME_ROOM ≤ length out.old }
    requires head { IsHead head.now }
    requires len { IsTrue (may_carry kind len) }
    ensures len { result ≡ 27 + len }
    ensures short { result ≤ REPLY_BYTES }
    ensures written { let got = owned.Got (bytes_at 27 len out.old) in
        IsWritten (reply_frame head.now kind got) result out.old out.new }
    ensures kept { drop 27 out.new ≡ drop 27 out.old }
{
    out[HEADER_BYTES] = 0;
    write_header(REPLY + kind.number(), head, 1 + len as u16, out);
    HEADER_BYTES + (1 + len)
}

/// Writes the status and the value of a small reply, and tells how many bytes they have.
fn write_small_body(reply: &SmallReply, out: &mut [u8]) -> usize
    requires room { 17 ≤ length out.old }
    ensures len { result ≡ length (reply.now.status ∷ value_of reply.now) }
    ensures short { result ≤ 17 }
    ensures written { out.new ≡ (reply.now.status ∷ value_of reply.now) ++ drop result out.old }
{
    let value = reply.value();
    out[0] = reply.status;
    out[1..1 + value.len()].copy_from_slice(value);
    1 + value.len()
}

/// Writes the reply to a request of this kind as it was kept, its status and its value undecoded, at
/// the start of `out`, and tells how many bytes it has. The rest of `out` stays.
pub fn write_small(head: &Head, kind: Kind, reply: &SmallReply, out: &mut [u8]) -> usize
    requires { FRAME_ROOM ≤ length out.old }
    ensures short { result ≤ 43 }
    ensures written { let body = reply.now.status ∷ value_of reply.now in
        IsWritten (frame_of (128 + kind_number kind) head.now body) result out.old out.new }
{
    let len = write_small_body(reply, &mut out[HEADER_BYTES..]);
    write_header(REPLY + kind.number(), head, len as u16, out);
    HEADER_BYTES + len
}
