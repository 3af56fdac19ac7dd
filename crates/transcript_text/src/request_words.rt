//! The request of an entry, as a call is written.

ghost use Rattle.std.specs.Prelude.{◌≡◌, ◌≤◌, ◌&&◌, IfOk, IsTrue, Some, length};
ghost use Rattle.cl_types.specs.Ranges.{are_bytes, is_good_address, is_in_range, is_piece};
ghost use Rattle.texts.specs.Text.{words_in};
ghost use Rattle.transcript_text.specs.HistoryGrammar.{if_in_range, request_in_words, request_of_call};

use cl_types::call::{AtomicOp, Perm};
use cl_types::items::NoMemory;
use cl_types::limits::{ADDRESS_END, PAGE_BYTES, PART_BYTES, RANGE_PAGES, SPACE_PAGES};
use cl_types::numbers::Addr;
use cl_types::request::Request;
use cl_types::schedule::{CallText, Written};
use schedule_text::written::expand;
use schedule_text::{LineFault, call_in_line};
use std::alloc::Global;

fn is_good(addr: Addr) -> bool
    ensures { result ≡ is_good_address addr }
{
    addr.0 < ADDRESS_END
}

// Whether so many bytes, from the address on, are one piece of a page.
fn is_one_piece(addr: Addr, count: usize) -> bool
    ensures { result ≡ is_piece addr count }
{
    is_good(addr)
        && 1 <= count
        && count <= PART_BYTES as usize
        && (addr.0 % PAGE_BYTES) as usize + count <= PAGE_BYTES as usize
}

#[tactic(auto, using(cl_types::proofs::RangeLemmas::all_bytes))]
fn is_good_write(addr: Addr, bytes: &[u8]) -> bool
    ensures { result ≡ (is_piece addr (length bytes.now) && are_bytes bytes.now) }
{
    is_one_piece(addr, bytes.len())
}

fn alloc_request(pages: u32, perm: Perm) -> Option<Request>
    ensures { result ≡ if_in_range (Some (Request.Alloc pages perm)) }
{
    if 1 <= pages && pages <= RANGE_PAGES {
        let pages = pages as u16;
        Some(Request::Alloc { pages, perm })
    } else {
        None
    }
}

fn free_request(addr: Addr, pages: u32) -> Option<Request>
    ensures { result ≡ if_in_range (Some (Request.Free addr pages)) }
{
    if is_good(addr)
        && addr.0 % PAGE_BYTES == 0
        && 1 <= pages
        && pages <= RANGE_PAGES
        && addr.0 / PAGE_BYTES + pages <= SPACE_PAGES
    {
        let pages = pages as u16;
        Some(Request::Free { addr, pages })
    } else {
        None
    }
}

fn read_request(addr: Addr, len: u32) -> Option<Request>
    ensures { result ≡ if_in_range (Some (Request.Read addr len)) }
{
    if is_one_piece(addr, len as usize) {
        let len = len as u16;
        Some(Request::Read { addr, len })
    } else {
        None
    }
}

fn write_request(alloc: Global, addr: Addr, written: &Written) -> Result<Option<Request>, NoMemory>
    ensures { IfOk result (λ request. request ≡ if_in_range (request_of_call (CallText.Write addr written.now))) }
{
    let bytes = expand(alloc, written)?;
    if is_good_write(addr, bytes.as_slice()) {
        Ok(Some(Request::Write { addr, bytes }))
    } else {
        Ok(None)
    }
}

fn atomic_request(addr: Addr, op: AtomicOp) -> Option<Request>
    ensures { result ≡ if_in_range (Some (Request.Atomic addr op)) }
{
    if is_good(addr) && addr.0 % 8 == 0 {
        Some(Request::Atomic { addr, op })
    } else {
        None
    }
}

#[tactic(auto, using(cl_types::proofs::RangeLemmas::all_bytes))]
fn is_good_operation(no: u8, op: u8, out: u32, bytes: &[u8]) -> bool
    ensures value { result ≡ is_in_range (Request.Offload no op out bytes.now) }
    ensures small { IsTrue result → out ≤ PART_BYTES }
{
    out <= PART_BYTES && bytes.len() <= PART_BYTES as usize
}

fn offload_request(
    alloc: Global,
    no: u8,
    op: u8,
    out: u32,
    written: &Written,
) -> Result<Option<Request>, NoMemory>
    ensures { IfOk result (λ request.
        request ≡ if_in_range (request_of_call (CallText.Offload no op out written.now))) }
{
    let bytes = expand(alloc, written)?;
    if is_good_operation(no, op, out, bytes.as_slice()) {
        let out = out as u16;
        Ok(Some(Request::Offload { no, op, out, bytes }))
    } else {
        Ok(None)
    }
}

// The request of a call, where a frame can carry it.
fn request_of(alloc: Global, call: CallText) -> Result<Option<Request>, NoMemory>
    ensures { IfOk result (λ request. request ≡ if_in_range (request_of_call call)) }
{
    match call {
        CallText::Alloc { pages, perm } => Ok(alloc_request(pages, perm)),
        CallText::Free { addr, pages } => Ok(free_request(addr, pages)),
        CallText::Read { addr, len } => Ok(read_request(addr, len)),
        CallText::Write { addr, bytes } => write_request(alloc, addr, &bytes),
        CallText::Atomic { addr, op } => Ok(atomic_request(addr, op)),
        CallText::Offload { no, op, out, bytes } => offload_request(alloc, no, op, out, &bytes),
        CallText::Fence => Ok(None),
    }
}

/// The request that a text encodes as a call, where a frame can carry it.
pub(crate) fn request_in(alloc: Global, text: &[u8]) -> Result<Option<Request>, NoMemory>
    ensures { IfOk result (λ request. request ≡ request_in_words (words_in text.now)) }
{
    match call_in_line(alloc, text) {
        Ok(call) => request_of(alloc, call),
        Err(LineFault::Bad(_)) => Ok(None),
        Err(LineFault::NoMemory) => Err(NoMemory),
    }
}
