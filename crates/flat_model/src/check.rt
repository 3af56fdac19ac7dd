//! Whether a request and its reply are a step of the flat machine.

ghost use Rattle.std.specs.Prelude.{◌≡◌, ◌+◌, ◌%◌, ◌≤◌, ◌<◌, ◌↔◌, IfOk, OnErr, IsTrue, false, if◌then◌else◌, length};
ghost use Rattle.cl_types.specs.Bytes.{bytes_at};
ghost use Rattle.cl_types.specs.Pages.{offset_of, word_after};
ghost use Rattle.cl_types.specs.Ranges.{is_in_range};
ghost use Rattle.flat_model.specs.State.{bytes_of};
ghost use Rattle.flat_model.specs.Step.{MayAlloc, MayReply, alloc_after, atomic, free, read, state_after, write};
ghost use Rattle.flat_model.specs.Checks.{Checks};
ghost use Rattle.flat_model.specs.Run.{MayStep, Step};

use crate::flat::Flat;
use crate::need::{Need, may_be_read};
use crate::page::MappedPage;
use crate::ranges::may_be_sent;
use crate::replies::{is_nothing, is_refusal, is_word};
use cl_types::call::{AtomicOp, Perm};
use cl_types::items::NoMemory;
use cl_types::limits::{ADDRESS_END, PAGE_BYTES};
use cl_types::numbers::{Addr, Pid};
use cl_types::reply::{Refusal, Reply};
use cl_types::request::Request;
use std::alloc::Global;

// Whether the reply is what the page has there.
fn shows(page: &MappedPage, addr: Addr, len: u16, reply: &Reply) -> bool
    requires { offset_of addr + len ≤ PAGE_BYTES }
    ensures { IsTrue result ↔ (reply.now ≡ Reply.Got (bytes_at (offset_of addr) len (bytes_of page.now))) }
{
    match reply {
        Reply::Got(bytes) => page.shows(
            (addr.0 % PAGE_BYTES) as usize,
            len as usize,
            bytes.as_slice(),
        ),
        _ => false,
    }
}

// Whether the machine gives this reply to a read.
fn replies_to_read(flat: &Flat, pid: u16, addr: Addr, len: u16, reply: &Reply) -> bool
    requires good { addr.0 < ADDRESS_END }
    requires within { offset_of addr + len ≤ PAGE_BYTES }
    ensures { IsTrue result ↔ (reply.now ≡ (read flat.now pid addr len).reply) }
{
    match flat.page(pid, addr) {
        None => is_refusal(reply, Refusal::NoMapping),
        Some(page) => {
            if !may_be_read(page.perm()) {
                return is_refusal(reply, Refusal::NoPermission);
            }
            shows(page, addr, len, reply)
        }
    }
}

// The word that an atomic leaves in place of this one.
fn next_word(op: AtomicOp, word: u64) -> u64
    ensures { result ≡ word_after op word }
{
    match op {
        AtomicOp::Lock => { if word == 0 { 1 } else { word } }
        AtomicOp::Unlock => 0,
        AtomicOp::Add { n } => word.wrapping_add(n),
        AtomicOp::Cas { expect, put } => { if word == expect { put } else { word } }
    }
}

// Whether the machine gives this reply to a write, and the step itself if it does.
fn check_write(
    alloc: Global,
    flat: &mut Flat,
    pid: u16,
    addr: Addr,
    bytes: &[u8],
    reply: &Reply,
) -> Result<bool, NoMemory>
    requires good { addr.0 < ADDRESS_END }
    requires within { offset_of addr + length bytes.now ≤ PAGE_BYTES }
    ensures checks { IfOk result (λ may.
        Checks flat.old (write flat.old pid addr bytes.now) reply.now may flat.new) }
    ensures wanted { OnErr result (reply.now ≡ (write flat.old pid addr bytes.now).reply) }
    ensures unchanged { OnErr result (flat.new ≡ flat.old) }
{
    match flat.open(pid, addr, Need::Write) {
        Err(refusal) => Ok(is_refusal(reply, refusal)),
        Ok(i) => {
            if !is_nothing(reply) {
                return Ok(false);
            }
            flat.put(alloc, i, (addr.0 % PAGE_BYTES) as usize, bytes)?;
            Ok(true)
        }
    }
}

// The same of an atomic.
fn check_atomic(
    alloc: Global,
    flat: &mut Flat,
    pid: u16,
    addr: Addr,
    op: AtomicOp,
    reply: &Reply,
) -> Result<bool, NoMemory>
    requires good { addr.0 < ADDRESS_END }
    requires within { offset_of addr + 8 ≤ PAGE_BYTES }
    ensures checks { IfOk result (λ may. Checks flat.old (atomic flat.old pid addr op) reply.now may flat.new) }
    ensures wanted { OnErr result (reply.now ≡ (atomic flat.old pid addr op).reply) }
    ensures unchanged { OnErr result (flat.new ≡ flat.old) }
{
    match flat.open(pid, addr, Need::Change) {
        Err(refusal) => Ok(is_refusal(reply, refusal)),
        Ok(i) => {
            let at = (addr.0 % PAGE_BYTES) as usize;
            let word = flat.nth(i).word(at);
            if !is_word(reply, word) {
                return Ok(false);
            }
            flat.put(alloc, i, at, &next_word(op, word).to_le_bytes())?;
            Ok(true)
        }
    }
}

// The same of a Free.
fn check_free(flat: &mut Flat, pid: u16, addr: Addr, pages: u16, reply: &Reply) -> bool
    requires { addr.0 < ADDRESS_END }
    ensures { Checks flat.old (free flat.old pid addr pages) reply.now result flat.new }
{
    if !flat.is_range(pid, addr, pages) {
        return is_refusal(reply, Refusal::NoMapping);
    }
    if !is_nothing(reply) {
        return false;
    }
    flat.unmap(pid, addr, pages);
    true
}

// Whether an Alloc may start here.
fn is_start(flat: &Flat, pid: u16, addr: Addr, pages: u16) -> bool
    requires { 1 ≤ pages }
    ensures { IsTrue result ↔ MayAlloc flat.now pid pages (Reply.At addr) }
{
    addr.0 % PAGE_BYTES == 0 && flat.fits(pid, addr.0 / PAGE_BYTES, pages)
}

// Whether an Alloc may be refused.
#[tactic(auto, using(crate::proofs::LeastLemmas::none_is_nowhere, crate::proofs::LeastLemmas::nowhere_is_none))]
fn has_no_start(flat: &Flat, pid: u16, pages: u16) -> bool
    requires { 1 ≤ pages }
    ensures { IsTrue result ↔ MayAlloc flat.now pid pages (Reply.Refused Refusal.NoRange) }
{
    flat.least_start(pid, pages).is_none()
}

// The same of an Alloc, which may start wherever it fits.
fn check_alloc(
    flat: &mut Flat,
    pid: u16,
    pages: u16,
    perm: Perm,
    reply: &Reply,
) -> Result<bool, NoMemory>
    requires { 1 ≤ pages }
    ensures allowed { IfOk result (λ may. IsTrue may ↔ MayAlloc flat.old pid pages reply.now) }
    ensures after { IfOk result (λ may.
        flat.new ≡ (if may then alloc_after flat.old pid pages perm reply.now else flat.old)) }
    ensures wanted { OnErr result (MayAlloc flat.old pid pages reply.now) }
    ensures unchanged { OnErr result (flat.new ≡ flat.old) }
{
    match reply {
        Reply::At(addr) => {
            if !is_start(flat, pid, *addr, pages) {
                return Ok(false);
            }
            flat.map(pid, (addr.0 / PAGE_BYTES) as u16, pages, perm)?;
            Ok(true)
        }
        Reply::Refused(Refusal::NoRange) => Ok(has_no_start(flat, pid, pages)),
        _ => Ok(false),
    }
}

// Whether the machine may give this reply, and its step if it may.
#[tactic(auto, using(crate::proofs::CheckLemmas::read_keeps, cl_types::proofs::RangeLemmas::word_within))]
fn check_reply(
    alloc: Global,
    flat: &mut Flat,
    pid: u16,
    request: &Request,
    reply: &Reply,
) -> Result<bool, NoMemory>
    requires { IsTrue (is_in_range request.now) }
    ensures allowed { IfOk result (λ may. IsTrue may ↔ MayReply flat.old pid request.now reply.now) }
    ensures after { IfOk result (λ may.
        flat.new ≡ (if may then state_after flat.old pid request.now reply.now else flat.old)) }
    ensures wanted { OnErr result (MayReply flat.old pid request.now reply.now) }
    ensures unchanged { OnErr result (flat.new ≡ flat.old) }
{
    match request {
        Request::Alloc { pages, perm } => check_alloc(flat, pid, *pages, *perm, reply),
        Request::Free { addr, pages } => Ok(check_free(flat, pid, *addr, *pages, reply)),
        Request::Read { addr, len } => Ok(replies_to_read(flat, pid, *addr, *len, reply)),
        Request::Write { addr, bytes } => {
            check_write(alloc, flat, pid, *addr, bytes.as_slice(), reply)
        }
        Request::Atomic { addr, op } => check_atomic(alloc, flat, pid, *addr, *op, reply),
        Request::Offload { no, op, out, bytes } => flat.check_offload(
            alloc,
            *no,
            *op,
            *out,
            bytes.as_slice(),
            reply,
        ),
    }
}

/// Whether the request of this process and its reply are a step of the machine, and the step itself
/// if they are. An Alloc may start wherever it fits, and every other request has one reply. Where
/// they are no step, and without memory, the machine stays as it was. Memory is wanted for steps
/// alone.
pub fn check_step(
    alloc: Global,
    flat: &mut Flat,
    pid: Pid,
    request: &Request,
    reply: &Reply,
) -> Result<bool, NoMemory>
    ensures allowed { IfOk result (λ may. IsTrue may ↔ MayStep flat.old pid request.now reply.now) }
    ensures stepped { IfOk result (λ may. IsTrue may → Step flat.old pid request.now reply.now flat.new) }
    ensures refused { IfOk result (λ may. may ≡ false → flat.new ≡ flat.old) }
    ensures wanted { OnErr result (MayStep flat.old pid request.now reply.now) }
    ensures unchanged { OnErr result (flat.new ≡ flat.old) }
{
    if !may_be_sent(request) {
        return Ok(false);
    }
    check_reply(alloc, flat, pid.number(), request, reply)
}
