//! Reads replies: the status first, and behind a status of 0 the value of the request's kind.

ghost use Rattle.std.specs.Prelude.{◌≡◌, ◌==◌, ◌+◌, ◌≤◌, [], ◌∷◌, drop, length, slice_index, IfOk, IfSome, is_some};
ghost use Rattle.std.specs.Result.{result_err};
ghost use Rattle.cl_types.specs.declared.reply.Reply.TheVariants as owned;
ghost use Rattle.cl_types.specs.Config.{is_within};
ghost use Rattle.cl_types.specs.Requests.{reply_of};
ghost use Rattle.cl_types.specs.Kinds.{kind_number};
ghost use Rattle.frame_model.specs.Faults.{first_fault};
ghost use Rattle.frame_model.specs.FrameLaws.{ReadsAsReply};
ghost use Rattle.frame_model.specs.Frames.{SpellsReply, field, number_64, ok_checks, refusal_in, reply_checks, reply_fault, reply_in_body};
ghost use Rattle.frame_codec.specs.Reading.{GivesSpelledReply};

use crate::headers::{HEADER_BYTES, REPLY, read_header};
use crate::places::{u32_at, u64_at};
use crate::views::ReplyView;
use cl_types::call::Kind;
use cl_types::frame::{BadFrame, FieldName};
use cl_types::limits::{ADDRESS_END, PAGE_BYTES, PART_BYTES};
use cl_types::numbers::Addr;
use cl_types::reply::{Refusal, ReplyRef};

/// The refusal of this status. `None` comes exactly where the status is none from 1 to 8.
fn try_refusal(status: u8) -> Option<Refusal>
    ensures some { is_some result ≡ is_within 1 8 status }
    ensures value { IfSome result (λ refusal. refusal ≡ refusal_in status) }
{
    match status {
        1 => Some(Refusal::NoMapping),
        2 => Some(Refusal::NoPermission),
        3 => Some(Refusal::NoPage),
        4 => Some(Refusal::NoRange),
        5 => Some(Refusal::NoOffload),
        6 => Some(Refusal::ObjectFull),
        7 => Some(Refusal::NoKey),
        8 => Some(Refusal::BadOp),
        _ => None,
    }
}

/// Reads the address that answers an Alloc.
fn read_start(body: &[u8]) -> Result<ReplyRef<'_>, BadFrame>
    requires { slice_index body.now 0 ≡ 0 }
    ensures fault { result_err result ≡ first_fault (ok_checks 129 (length body.now) body.now) }
    ensures value { IfOk result (λ reply. reply_of reply ≡ reply_in_body 129 body.now) }
{
    if body.len() != 5 {
        return Err(BadFrame::Field(FieldName::Body));
    }
    let addr = u32_at(body, 1);
    if addr < PAGE_BYTES || addr >= ADDRESS_END || addr % PAGE_BYTES != 0 {
        return Err(BadFrame::Field(FieldName::Addr));
    }
    Ok(ReplyRef::At(Addr(addr)))
}

/// Reads the nothing that answers a Free or a Write.
fn read_nothing(body: &[u8]) -> Result<ReplyRef<'_>, BadFrame>
    ensures fault { let good = length body.now == 1 in
        result_err result ≡ first_fault (field good FieldName.Body ∷ []) }
    ensures value { IfOk result (λ reply. reply_of reply ≡ owned.Nothing) }
{
    if body.len() != 1 {
        return Err(BadFrame::Field(FieldName::Body));
    }
    Ok(ReplyRef::Nothing)
}

/// Reads the bytes that answer a Read or an Offload, where the body has `least` bytes or more.
fn read_got(least: usize, body: &[u8]) -> Result<ReplyRef<'_>, BadFrame>
    requires { 1 ≤ least }
    ensures fault { let good = is_within least (1 + PART_BYTES) (length body.now) in
        result_err result ≡ first_fault (field good FieldName.Body ∷ []) }
    ensures value { IfOk result (λ reply. reply_of reply ≡ owned.Got (drop 1 body.now)) }
{
    if body.len() < least || body.len() > 1 + PART_BYTES as usize {
        return Err(BadFrame::Field(FieldName::Body));
    }
    Ok(ReplyRef::Got(&body[1..]))
}

/// Reads the word that answers an Atomic.
fn read_word(body: &[u8]) -> Result<ReplyRef<'_>, BadFrame>
    ensures fault { let good = length body.now == 9 in
        result_err result ≡ first_fault (field good FieldName.Body ∷ []) }
    ensures value { IfOk result (λ reply. reply_of reply ≡ owned.Word (number_64 1 body.now)) }
{
    if body.len() != 9 {
        return Err(BadFrame::Field(FieldName::Body));
    }
    Ok(ReplyRef::Word(u64_at(body, 1)))
}

/// Reads the body of a reply of this kind, behind a status of 0.
fn read_ok(kind: Kind, body: &[u8]) -> Result<ReplyRef<'_>, BadFrame>
    requires { slice_index body.now 0 ≡ 0 }
    ensures fault { let number = 128 + kind_number kind in
        result_err result ≡ first_fault (ok_checks number (length body.now) body.now) }
    ensures value { let number = 128 + kind_number kind in
        IfOk result (λ reply. reply_of reply ≡ reply_in_body number body.now) }
{
    match kind {
        Kind::Alloc => read_start(body),
        Kind::Free | Kind::Write => read_nothing(body),
        Kind::Read => read_got(2, body),
        Kind::Atomic => read_word(body),
        Kind::Offload => read_got(1, body),
    }
}

/// Reads the body of a reply of this kind.
fn read_body(kind: Kind, body: &[u8]) -> Result<ReplyRef<'_>, BadFrame>
    ensures fault { let number = 128 + kind_number kind in
        result_err result ≡ first_fault (reply_checks number (length body.now) body.now) }
    ensures value { let number = 128 + kind_number kind in
        IfOk result (λ reply. reply_of reply ≡ reply_in_body number body.now) }
{
    if body.is_empty() {
        return Err(BadFrame::Field(FieldName::Body));
    }
    if body[0] == 0 {
        return read_ok(kind, body);
    }
    let Some(refusal) = try_refusal(body[0]) else {
        return Err(BadFrame::Field(FieldName::Status));
    };
    if body.len() != 1 {
        return Err(BadFrame::Field(FieldName::Body));
    }
    Ok(ReplyRef::Refused(refusal))
}

/// Reads a reply. `Ok` comes exactly where the bytes spell one, and else the first fault of the
/// bytes is told.
pub fn read_reply(bytes: &[u8]) -> Result<ReplyView<'_>, BadFrame>
    ensures exactly { GivesSpelledReply bytes.now result }
    ensures spelled { IfOk result
        (λ view. SpellsReply bytes.now view.head view.kind (reply_of view.body)) }
    ensures read { IfOk result
        (λ view. ReadsAsReply bytes.now view.head view.kind (reply_of view.body)) }
    ensures fault { result_err result ≡ reply_fault bytes.now }
{
    let header = read_header(REPLY, bytes)?;
    let body = read_body(header.kind, &bytes[HEADER_BYTES..])?;
    Ok(ReplyView {
        head: header.head,
        kind: header.kind,
        body,
    })
}
