//! Whether a request is in its ranges.

ghost use Rattle.std.specs.Prelude.{◌≡◌, ◌&&◌, length};
ghost use Rattle.cl_types.specs.Ranges.{are_bytes, is_good_address, is_in_range, is_page_count, is_piece};

use cl_types::call::AtomicOp;
use cl_types::limits::{ADDRESS_END, PAGE_BYTES, PART_BYTES, RANGE_PAGES, SPACE_PAGES};
use cl_types::numbers::Addr;
use cl_types::request::Request;

fn is_good(addr: Addr) -> bool
    ensures { result ≡ is_good_address addr }
{
    addr.0 < ADDRESS_END
}

fn is_one_piece(addr: Addr, n: usize) -> bool
    ensures { result ≡ is_piece addr n }
{
    is_good(addr)
        && 1 <= n
        && n <= PART_BYTES as usize
        && (addr.0 % PAGE_BYTES) as usize + n <= PAGE_BYTES as usize
}

// Bytes of a slice are bytes.
#[tactic(auto, using(cl_types::proofs::RangeLemmas::all_bytes))]
fn is_good_write(addr: Addr, bytes: &[u8]) -> bool
    ensures { result ≡ (is_piece addr (length bytes.now) && are_bytes bytes.now) }
{
    is_one_piece(addr, bytes.len())
}

fn is_good_count(n: u16) -> bool
    ensures { result ≡ is_page_count n }
{
    1 <= n && u32::from(n) <= RANGE_PAGES
}

fn is_good_range(addr: Addr, pages: u16) -> bool
    ensures { result ≡ is_in_range (Request.Free addr pages) }
{
    is_good(addr)
        && addr.0 % PAGE_BYTES == 0
        && is_good_count(pages)
        && addr.0 / PAGE_BYTES + u32::from(pages) <= SPACE_PAGES
}

fn is_good_word(addr: Addr, op: AtomicOp) -> bool
    ensures { result ≡ is_in_range (Request.Atomic addr op) }
{
    is_good(addr) && addr.0 % 8 == 0
}

#[tactic(auto, using(cl_types::proofs::RangeLemmas::all_bytes))]
fn is_good_operation(no: u8, op: u8, out: u16, bytes: &[u8]) -> bool
    ensures { result ≡ is_in_range (Request.Offload no op out bytes.now) }
{
    u32::from(out) <= PART_BYTES && bytes.len() <= PART_BYTES as usize
}

/// Whether the request is one that a frame can carry.
pub fn may_be_sent(request: &Request) -> bool
    ensures { result ≡ is_in_range request.now }
{
    match request {
        Request::Alloc { pages, .. } => is_good_count(*pages),
        Request::Free { addr, pages } => is_good_range(*addr, *pages),
        Request::Read { addr, len } => is_one_piece(*addr, *len as usize),
        Request::Write { addr, bytes } => is_good_write(*addr, bytes.as_slice()),
        Request::Atomic { addr, op } => is_good_word(*addr, *op),
        Request::Offload { no, op, out, bytes } => is_good_operation(
            *no,
            *op,
            *out,
            bytes.as_slice(),
        ),
    }
}
