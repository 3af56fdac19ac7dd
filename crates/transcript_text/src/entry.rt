//! The line of an entry of the history.

ghost use Rattle.std.specs.Prelude.{◌≡◌, [], ◌∷◌, ◌++◌, OnOk, OnErr, codes};
ghost use Rattle.texts.specs.Text.{line_of};
ghost use Rattle.texts.specs.Texts.{entry_text, op_text, reply_text, request_text};
ghost use Rattle.transcript_text.specs.Fronts.{IsFront};

use crate::names::{perm_name, refusal_name};
use crate::word::{Word, print_words};
use cl_types::call::AtomicOp;
use cl_types::items::{Bytes, NoMemory};
use cl_types::line::Entry;
use cl_types::numbers::Addr;
use cl_types::reply::Reply;
use cl_types::request::Request;

/// What an atomic does to the word at an address.
fn print_op(addr: Addr, op: AtomicOp, to: &mut Bytes) -> Result<(), NoMemory>
    ensures printed { OnOk result (to.new ≡ to.old ++ op_text addr op) }
    ensures front { OnErr result (IsFront to.old (op_text addr op) to.new) }
{
    let addr = Word::Address(addr);
    match op {
        AtomicOp::Lock => print_words(&[Word::Plain("lock"), addr], to),
        AtomicOp::Unlock => print_words(&[Word::Plain("unlock"), addr], to),
        AtomicOp::Add { n } => print_words(&[Word::Plain("add"), addr, Word::Number(n)], to),
        AtomicOp::Cas { expect, put } => print_words(
            &[
                Word::Plain("cas"),
                addr,
                Word::Number(expect),
                Word::Number(put),
            ],
            to,
        ),
    }
}

/// A request, as a call is written.
fn print_request(request: &Request, to: &mut Bytes) -> Result<(), NoMemory>
    ensures printed { OnOk result (to.new ≡ to.old ++ request_text request.now) }
    ensures front { OnErr result (IsFront to.old (request_text request.now) to.new) }
{
    match request {
        Request::Alloc { pages, perm } => print_words(
            &[
                Word::Plain("alloc"),
                Word::Number(u64::from(*pages)),
                Word::Plain(perm_name(*perm)),
            ],
            to,
        ),
        Request::Free { addr, pages } => print_words(
            &[
                Word::Plain("free"),
                Word::Address(*addr),
                Word::Number(u64::from(*pages)),
            ],
            to,
        ),
        Request::Read { addr, len } => print_words(
            &[
                Word::Plain("read"),
                Word::Address(*addr),
                Word::Number(u64::from(*len)),
            ],
            to,
        ),
        Request::Write { addr, bytes } => print_words(
            &[
                Word::Plain("write"),
                Word::Address(*addr),
                Word::HexOrDash(bytes.as_slice()),
            ],
            to,
        ),
        Request::Atomic { addr, op } => print_op(*addr, *op, to),
        Request::Offload { no, op, out, bytes } => print_words(
            &[
                Word::Plain("offload"),
                Word::Number(u64::from(*no)),
                Word::Number(u64::from(*op)),
                Word::Number(u64::from(*out)),
                Word::HexOrDash(bytes.as_slice()),
            ],
            to,
        ),
    }
}

/// A reply.
fn print_reply(reply: &Reply, to: &mut Bytes) -> Result<(), NoMemory>
    ensures printed { OnOk result (to.new ≡ to.old ++ reply_text reply.now) }
    ensures front { OnErr result (IsFront to.old (reply_text reply.now) to.new) }
{
    match reply {
        Reply::Refused(refusal) => to.append(refusal_name(*refusal).as_bytes()),
        Reply::Nothing => to.append(b"ok"),
        Reply::At(addr) => print_words(&[Word::Plain("ok"), Word::Address(*addr)], to),
        Reply::Word(n) => print_words(&[Word::Plain("ok"), Word::Number(*n)], to),
        Reply::Got(bytes) => {
            print_words(&[Word::Plain("ok"), Word::HexOrDash(bytes.as_slice())], to)
        }
    }
}

/// A request, its reply, and the end of the line.
#[tactic(auto, using(crate::proofs::FrontLemmas::fronts))]
fn print_exchange(request: &Request, reply: &Reply, to: &mut Bytes) -> Result<(), NoMemory>
    ensures printed { OnOk result
        (to.new ≡ to.old
        ++ line_of (request_text request.now ∷ codes "=" ∷ reply_text reply.now ∷ [])) }
    ensures front { OnErr result
        (IsFront to.old
        (line_of (request_text request.now ∷ codes "=" ∷ reply_text reply.now ∷ []))
        to.new) }
{
    print_request(request, to)?;
    to.append(b" = ")?;
    print_reply(reply, to)?;
    to.append(b"\n")
}

/// Prints the line of an entry of the history behind what stands in `to`.
#[tactic(auto, using(crate::proofs::FrontLemmas::fronts))]
pub fn print_entry(entry: &Entry, to: &mut Bytes) -> Result<(), NoMemory>
    ensures printed { OnOk result (to.new ≡ to.old ++ entry_text entry.now) }
    ensures front { OnErr result (IsFront to.old (entry_text entry.now) to.new) }
{
    print_words(
        &[
            Word::Plain("h"),
            Word::Number(u64::from(entry.line)),
            Word::Number(u64::from(entry.position)),
            Word::Part(entry.client, entry.part),
        ],
        to,
    )?;
    to.append(b" ")?;
    print_exchange(&entry.request, &entry.reply, to)
}
