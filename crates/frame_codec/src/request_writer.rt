//! Writes requests: the body first, since its length stands in the header.

ghost use Rattle.std.specs.Prelude.{◌≡◌, ◌+◌, ◌≤◌, ◌++◌, drop, length, take, IsTrue};
ghost use Rattle.cl_types.specs.Requests.{request_of};
ghost use Rattle.cl_types.specs.declared.request.Request.TheVariants as owned;
ghost use Rattle.frame_model.specs.Frames.{IsHead, kind_of, op_spelling, perm_number, request_body, request_frame};
ghost use Rattle.cl_types.specs.Ranges.{is_in_range};
ghost use Rattle.frame_codec.specs.Writing.{IsWritten};

use crate::headers::{HEADER_BYTES, write_header};
use crate::places::{put_u16, put_u32, put_u64};
use cl_types::call::{AtomicOp, Kind, Perm};
use cl_types::frame::Head;
use cl_types::limits::{FRAME_ROOM, PART_BYTES};
use cl_types::numbers::Addr;
use cl_types::request::RequestRef;

// There is room for the longest frame: a header, an address, and the bytes of a part.
const _: () = prove!(HEADER_BYTES + 4 + PART_BYTES as usize <= FRAME_ROOM);

/// The kind of frame that carries a request.
pub fn kind_of(request: &RequestRef) -> Kind
    ensures { result ≡ kind_of (request_of request.now) }
{
    match *request {
        RequestRef::Alloc { .. } => Kind::Alloc,
        RequestRef::Free { .. } => Kind::Free,
        RequestRef::Read { .. } => Kind::Read,
        RequestRef::Write { .. } => Kind::Write,
        RequestRef::Atomic { .. } => Kind::Atomic,
        RequestRef::Offload { .. } => Kind::Offload,
    }
}

/// Writes the body of an Alloc.
fn write_alloc(pages: u16, perm: Perm, out: &mut [u8]) -> usize
    requires { 3 ≤ length out.old }
    ensures len { result ≡ length (request_body (owned.Alloc pages perm)) }
    ensures written { out.new ≡ request_body (owned.Alloc pages perm) ++ drop result out.old }
{
    put_u16(out, 0, pages);
    out[2] = match perm {
        Perm::ReadOnly => 1,
        Perm::WriteOnly => 2,
        Perm::ReadWrite => 3,
    };
    3
}

/// Writes an address and a number of pages or of bytes.
fn write_addr_and_count(addr: Addr, count: u16, out: &mut [u8]) -> usize
    requires { 6 ≤ length out.old }
    ensures len { result ≡ 6 }
    ensures written { out.new ≡ request_body (owned.Read addr count) ++ drop result out.old }
{
    put_u32(out, 0, addr.0);
    put_u16(out, 4, count);
    6
}

/// Writes the body of a Write.
fn write_write(addr: Addr, bytes: &[u8], out: &mut [u8]) -> usize
    requires { 4 + length bytes.now ≤ length out.old }
    ensures len { result ≡ length (request_body (owned.Write addr bytes.now)) }
    ensures written { out.new ≡ request_body (owned.Write addr bytes.now) ++ drop result out.old }
{
    put_u32(out, 0, addr.0);
    out[4..4 + bytes.len()].copy_from_slice(bytes);
    4 + bytes.len()
}

/// Writes the body of an Atomic.
fn write_atomic(addr: Addr, op: AtomicOp, out: &mut [u8]) -> usize
    requires { 21 ≤ length out.old }
    ensures len { result ≡ length (request_body (owned.Atomic addr op)) }
    ensures written { out.new ≡ request_body (owned.Atomic addr op) ++ drop result out.old }
{
    put_u32(out, 0, addr.0);
    match op {
        AtomicOp::Lock => {
            out[4] = 1;
            5
        }
        AtomicOp::Unlock => {
            out[4] = 2;
            5
        }
        AtomicOp::Add { n } => {
            out[4] = 3;
            put_u64(out, 5, n);
            13
        }
        AtomicOp::Cas { expect, put } => {
            out[4] = 4;
            put_u64(out, 5, expect);
            put_u64(out, 13, put);
            21
        }
    }
}

/// Writes the body of an Offload.
fn write_offload(no: u8, op: u8, answer: u16, bytes: &[u8], out: &mut [u8]) -> usize
    requires { 4 + length bytes.now ≤ length out.old }
    ensures len { result ≡ length (request_body (owned.Offload no op answer bytes.now)) }
    ensures written { let body = request_body (owned.Offload no op answer bytes.now) in
        out.new ≡ body ++ drop result out.old }
{
    out[0] = no;
    out[1] = op;
    put_u16(out, 2, answer);
    out[4..4 + bytes.len()].copy_from_slice(bytes);
    4 + bytes.len()
}

/// Writes the body of a request, and tells its length.
fn write_body(body: &RequestRef, out: &mut [u8]) -> usize
    requires room { 1028 ≤ length out.old }
    requires range { IsTrue (is_in_range (request_of body.now)) }
    ensures len { result ≡ length (request_body (request_of body.now)) }
    ensures written { out.new ≡ request_body (request_of body.now) ++ drop result out.old }
{
    match *body {
        RequestRef::Alloc { pages, perm } => write_alloc(pages, perm, out),
        RequestRef::Free { addr, pages } => write_addr_and_count(addr, pages, out),
        RequestRef::Read { addr, len } => write_addr_and_count(addr, len, out),
        RequestRef::Write { addr, bytes } => write_write(addr, bytes, out),
        RequestRef::Atomic { addr, op } => write_atomic(addr, op, out),
        RequestRef::Offload {
            no,
            op,
            out: answer,
            bytes,
        } => write_offload(no, op, answer, bytes, out),
    }
}

/// Writes a request at the start of `out`, and tells how many bytes it has. The rest of `out`
/// stays.
pub fn write_request(head: &Head, body: &RequestRef, out: &mut [u8]) -> usize
    requires room { FRAME_ROOM ≤ length out.old }
    requires head { IsHead head.now }
    requires body { IsTrue (is_in_range (request_of body.now)) }
    ensures short { result ≤ 1054 }
    ensures written { let frame = request_frame head.now (request_of body.now) in
        IsWritten frame result out.old out.new }
{
    let len = write_body(body, &mut out[HEADER_BYTES..]);
    write_header(kind_of(body).number(), head, len as u16, out);
    HEADER_BYTES + len
}
