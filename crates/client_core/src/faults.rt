//! Why a call is not taken, whatever the client holds.

ghost use Rattle.std.specs.Prelude.{◌≡◌, ◌≤◌, ◌^◌, ◌==◌, ◌%◌, ◌*◌, ◌∷◌, ◌++◌, [], not, nat_lt, length};
ghost use Rattle.cl_types.specs.declared.frame.IssueFault.TheVariants.{Empty, TooLong, Misaligned};
ghost use Rattle.frame_model.specs.Faults.{first_fault};
ghost use Rattle.client_model.specs.Issue.{as_far_as_told, bytes_faults, call_faults};

use cl_types::call::Call;
use cl_types::frame::IssueFault;
use cl_types::limits::{ADDRESS_END, CALL_BYTES, PAGE_BYTES, PART_BYTES, RANGE_PAGES};
use cl_types::numbers::Addr;

/// How many bytes an Atomic reads and writes.
const WORD_BYTES: u64 = 8;

/// The first fault of a call.
pub fn call_fault(call: &Call) -> Option<IssueFault>
    ensures { result ≡ first_fault (call_faults call.now) }
{
    match call {
        Call::Alloc { pages, .. } => pages_fault(*pages),
        Call::Free { addr, pages } => {
            let bytes = PAGE_BYTES as u64 * *pages as u64;
            let fault = bytes_fault(*addr, *pages as u64, RANGE_PAGES, bytes);
            fault.or(misaligned(*addr, PAGE_BYTES))
        }
        Call::Read { addr, buf } => buffer_fault(*addr, buf.as_slice()),
        Call::Write { addr, bytes } => buffer_fault(*addr, bytes.as_slice()),
        Call::Atomic { addr, .. } => {
            let fault = bytes_fault(*addr, WORD_BYTES, WORD_BYTES as u32, WORD_BYTES);
            fault.or(misaligned(*addr, WORD_BYTES as u32))
        }
        Call::Offload { bytes, buf, .. } => {
            too_long(bytes.as_slice()).or(too_long(buf.as_slice()))
        }
        Call::Fence => None,
    }
}

/// A number of a fault, as far as 32 bits tell it.
fn told(n: u64) -> u32
    ensures { result ≡ as_far_as_told n }
{
    n.min(u32::MAX as u64) as u32
}

/// The first fault of `n` bytes or pages at an address, at most `most` of them, which are `len`
/// bytes.
fn bytes_fault(addr: Addr, n: u64, most: u32, len: u64) -> Option<IssueFault>
    requires { len ≤ 2 ^ 63 }
    ensures { result ≡ first_fault (bytes_faults addr n most len) }
{
    if n == 0 {
        return Some(IssueFault::Empty);
    }
    if n > most as u64 {
        return Some(IssueFault::TooLong { len: told(n) });
    }
    if addr.0 as u64 + len > ADDRESS_END as u64 {
        return Some(IssueFault::BadAddress {
            addr,
            len: told(len),
        });
    }
    None
}

/// The first fault of the bytes of a Read or a Write at an address.
fn buffer_fault(addr: Addr, bytes: &[u8]) -> Option<IssueFault>
    ensures { let n = length bytes.now in result ≡ first_fault (bytes_faults addr n 65536 n) }
{
    let len = bytes.len() as u64;
    bytes_fault(addr, len, CALL_BYTES, len)
}

/// The first fault of the number of an Alloc's pages.
fn pages_fault(pages: u32) -> Option<IssueFault>
    ensures { result ≡ first_fault
        ((pages == 0, Empty) ∷ (nat_lt 1024 pages, TooLong (as_far_as_told pages)) ∷ []) }
{
    if pages == 0 {
        return Some(IssueFault::Empty);
    }
    if pages > RANGE_PAGES {
        return Some(IssueFault::TooLong { len: pages });
    }
    None
}

/// The fault of bytes that are given to an offload, or for which it has a buffer.
fn too_long(bytes: &[u8]) -> Option<IssueFault>
    ensures { let n = length bytes.now in
        result ≡ first_fault ((nat_lt 1024 n, TooLong (as_far_as_told n)) ∷ []) }
{
    let len = bytes.len() as u64;
    if len > PART_BYTES as u64 {
        return Some(IssueFault::TooLong { len: told(len) });
    }
    None
}

/// The fault of an address that is to be a multiple of `bytes`.
fn misaligned(addr: Addr, bytes: u32) -> Option<IssueFault>
    requires { 1 ≤ bytes }
    ensures { result ≡ first_fault ((not (addr.0 % bytes == 0), Misaligned addr) ∷ []) }
{
    if addr.0 % bytes != 0 {
        return Some(IssueFault::Misaligned { addr });
    }
    None
}
