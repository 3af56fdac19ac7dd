//! The reply of an entry.

ghost use Rattle.std.specs.Prelude.{◌≡◌, IfOk, option_map};
ghost use Rattle.cl_types.specs.declared.call.Kind.TheVariants as kind;
ghost use Rattle.frame_model.specs.Frames.{is_range_start, is_reply_of, kind_of};
ghost use Rattle.texts.specs.Words.{address_in, number_in};
ghost use Rattle.transcript_text.specs.HistoryGrammar.{bytes_in, if_reply_of, refusal_named, reply_in, reply_with_value, reply_without_value};

use cl_types::items::{Bytes, NoMemory};
use cl_types::limits::{ADDRESS_END, PAGE_BYTES, PART_BYTES};
use cl_types::numbers::Addr;
use cl_types::reply::{Refusal, Reply};
use cl_types::request::Request;
use schedule_text::LineFault;
use schedule_text::numbers::{address, number};
use schedule_text::written::{expand, written};
use std::alloc::Global;

// The refusal of a text.
fn refusal_named(text: &[u8]) -> Option<Refusal>
    ensures { result ≡ refusal_named text.now }
{
    if text == b"no mapping".as_slice() {
        Some(Refusal::NoMapping)
    } else if text == b"no permission".as_slice() {
        Some(Refusal::NoPermission)
    } else if text == b"no page".as_slice() {
        Some(Refusal::NoPage)
    } else if text == b"no range".as_slice() {
        Some(Refusal::NoRange)
    } else if text == b"no offload".as_slice() {
        Some(Refusal::NoOffload)
    } else if text == b"object full".as_slice() {
        Some(Refusal::ObjectFull)
    } else if text == b"no key".as_slice() {
        Some(Refusal::NoKey)
    } else if text == b"bad op".as_slice() {
        Some(Refusal::BadOp)
    } else {
        None
    }
}

// Whether a range may start here.
fn may_start(addr: Addr) -> bool
    ensures { result ≡ is_range_start addr.0 }
{
    PAGE_BYTES <= addr.0 && addr.0 < ADDRESS_END && addr.0 % PAGE_BYTES == 0
}

fn start_reply(text: &[u8]) -> Option<Reply>
    ensures { result ≡ if_reply_of kind.Alloc (option_map (λ addr. Reply.At addr) (address_in text.now)) }
{
    let addr = address(text)?;
    if may_start(addr) {
        Some(Reply::At(addr))
    } else {
        None
    }
}

fn word_reply(text: &[u8]) -> Option<Reply>
    ensures { result ≡ if_reply_of kind.Atomic (option_map (λ n. Reply.Word n) (number_in 0 18446744073709551615 text.now)) }
{
    Some(Reply::Word(number(0, u64::MAX, text)?))
}

// The bytes of a text, where it encodes bytes.
fn bytes_in(alloc: Global, text: &[u8]) -> Result<Option<Bytes>, NoMemory>
    ensures { IfOk result (λ bytes. bytes ≡ bytes_in text.now) }
{
    match written(alloc, text) {
        Ok(written) => Ok(Some(expand(alloc, &written)?)),
        Err(LineFault::Bad(_)) => Ok(None),
        Err(LineFault::NoMemory) => Err(NoMemory),
    }
}

// Whether an Offload may answer these bytes.
#[tactic(auto, using(cl_types::proofs::RangeLemmas::all_bytes))]
fn may_be_given(bytes: &[u8]) -> bool
    ensures { result ≡ is_reply_of kind.Offload (Reply.Got bytes.now) }
{
    bytes.len() <= PART_BYTES as usize
}

// Whether a Read may answer these bytes.
#[tactic(auto, using(cl_types::proofs::RangeLemmas::all_bytes))]
fn may_be_read(bytes: &[u8]) -> bool
    ensures { result ≡ is_reply_of kind.Read (Reply.Got bytes.now) }
{
    1 <= bytes.len() && bytes.len() <= PART_BYTES as usize
}

// The reply of a Read.
fn read_reply(alloc: Global, text: &[u8]) -> Result<Option<Reply>, NoMemory>
    ensures { IfOk result (λ reply.
        reply ≡ if_reply_of kind.Read (option_map (λ bytes. Reply.Got bytes) (bytes_in text.now))) }
{
    let Some(bytes) = bytes_in(alloc, text)? else {
        return Ok(None);
    };
    if may_be_read(bytes.as_slice()) {
        Ok(Some(Reply::Got(bytes)))
    } else {
        Ok(None)
    }
}

// The reply of an Offload.
fn offload_reply(alloc: Global, text: &[u8]) -> Result<Option<Reply>, NoMemory>
    ensures { IfOk result (λ reply.
        reply ≡ if_reply_of kind.Offload (option_map (λ bytes. Reply.Got bytes) (bytes_in text.now))) }
{
    let Some(bytes) = bytes_in(alloc, text)? else {
        return Ok(None);
    };
    if may_be_given(bytes.as_slice()) {
        Ok(Some(Reply::Got(bytes)))
    } else {
        Ok(None)
    }
}

// The reply with the value of a text, where a frame can carry it as one to this request.
fn value_reply(alloc: Global, request: &Request, text: &[u8]) -> Result<Option<Reply>, NoMemory>
    ensures { IfOk result (λ reply. reply ≡ if_reply_of (kind_of request.now) (reply_with_value request.now text.now)) }
{
    match request {
        Request::Alloc { .. } => Ok(start_reply(text)),
        Request::Atomic { .. } => Ok(word_reply(text)),
        Request::Read { .. } => read_reply(alloc, text),
        Request::Offload { .. } => offload_reply(alloc, text),
        Request::Free { .. } | Request::Write { .. } => Ok(None),
    }
}

// The reply that has no value.
fn bare_reply(request: &Request) -> Option<Reply>
    ensures { result ≡ reply_without_value request.now }
{
    match request {
        Request::Free { .. } | Request::Write { .. } => Some(Reply::Nothing),
        Request::Alloc { .. } | Request::Atomic { .. } => None,
        Request::Read { .. } | Request::Offload { .. } => None,
    }
}

fn refusal_reply(text: &[u8]) -> Option<Reply>
    ensures { result ≡ option_map (λ refusal. Reply.Refused refusal) (refusal_named text.now) }
{
    Some(Reply::Refused(refusal_named(text)?))
}

/// The reply to this request that a text encodes, where a frame can carry it.
pub(crate) fn reply_in(
    alloc: Global,
    request: &Request,
    text: &[u8],
) -> Result<Option<Reply>, NoMemory>
    ensures { IfOk result (λ reply. reply ≡ reply_in request.now text.now) }
{
    if text == b"ok".as_slice() {
        return Ok(bare_reply(request));
    }
    let Some((front, value)) = text.split_at_checked(3) else {
        return Ok(refusal_reply(text));
    };
    if front == b"ok ".as_slice() {
        value_reply(alloc, request, value)
    } else {
        Ok(refusal_reply(text))
    }
}
