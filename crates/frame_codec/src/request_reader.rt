//! Reads requests: the body of each kind by its own function, which judges in the order in which
//! faults are told.

ghost use Rattle.std.specs.Prelude.{◌≡◌, ◌==◌, ◌||◌, length, slice_index, IfOk, IsTrue, IfSome, is_some};
ghost use Rattle.std.specs.Result.{result_err};
ghost use Rattle.cl_types.specs.Config.{is_within};
ghost use Rattle.cl_types.specs.Requests.{request_of};
ghost use Rattle.cl_types.specs.Kinds.{kind_number};
ghost use Rattle.frame_model.specs.Faults.{first_fault};
ghost use Rattle.frame_model.specs.FrameLaws.{ReadsAsRequest};
ghost use Rattle.frame_model.specs.Frames.{SpellsRequest, alloc_checks, atomic_checks, free_checks, is_op, offload_checks, op_in, perm_in, read_checks, request_checks, request_fault, request_in_body, write_checks};
ghost use Rattle.frame_codec.specs.Reading.{GivesSpelledRequest};

use crate::headers::{HEADER_BYTES, read_header};
use crate::places::{u16_at, u32_at, u64_at};
use crate::views::RequestView;
use cl_types::call::{AtomicOp, Kind, Perm};
use cl_types::frame::{BadFrame, FieldName};
use cl_types::limits::{ADDRESS_END, PAGE_BYTES, PART_BYTES, RANGE_PAGES, SPACE_PAGES};
use cl_types::numbers::Addr;
use cl_types::request::RequestRef;

/// The permission of this number. `None` comes exactly where the number is none from 1 to 3.
fn try_perm(number: u8) -> Option<Perm>
    ensures some { is_some result ≡ is_within 1 3 number }
    ensures value { IfSome result (λ perm. perm ≡ perm_in number) }
{
    match number {
        1 => Some(Perm::ReadOnly),
        2 => Some(Perm::WriteOnly),
        3 => Some(Perm::ReadWrite),
        _ => None,
    }
}

/// Reads the body of an Alloc.
fn read_alloc(body: &[u8]) -> Result<RequestRef<'_>, BadFrame>
    ensures fault { result_err result ≡ first_fault (alloc_checks (length body.now) body.now) }
    ensures value { IfOk result (λ request. request_of request ≡ request_in_body 1 body.now) }
{
    if body.len() != 3 {
        return Err(BadFrame::Field(FieldName::Body));
    }
    let pages = u16_at(body, 0);
    if pages == 0 || u32::from(pages) > RANGE_PAGES {
        return Err(BadFrame::Field(FieldName::Pages));
    }
    let Some(perm) = try_perm(body[2]) else {
        return Err(BadFrame::Field(FieldName::Perm));
    };
    Ok(RequestRef::Alloc { pages, perm })
}

/// Reads the body of a Free.
fn read_free(body: &[u8]) -> Result<RequestRef<'_>, BadFrame>
    ensures fault { result_err result ≡ first_fault (free_checks (length body.now) body.now) }
    ensures value { IfOk result (λ request. request_of request ≡ request_in_body 2 body.now) }
{
    if body.len() != 6 {
        return Err(BadFrame::Field(FieldName::Body));
    }
    let addr = u32_at(body, 0);
    if addr >= ADDRESS_END || addr % PAGE_BYTES != 0 {
        return Err(BadFrame::Field(FieldName::Addr));
    }
    let pages = u16_at(body, 4);
    let count = u32::from(pages);
    if count == 0 || count > RANGE_PAGES || addr / PAGE_BYTES + count > SPACE_PAGES {
        return Err(BadFrame::Field(FieldName::Pages));
    }
    Ok(RequestRef::Free {
        addr: Addr(addr),
        pages,
    })
}

/// Reads the body of a Read.
fn read_read(body: &[u8]) -> Result<RequestRef<'_>, BadFrame>
    ensures fault { result_err result ≡ first_fault (read_checks (length body.now) body.now) }
    ensures value { IfOk result (λ request. request_of request ≡ request_in_body 3 body.now) }
{
    if body.len() != 6 {
        return Err(BadFrame::Field(FieldName::Body));
    }
    let addr = u32_at(body, 0);
    if addr >= ADDRESS_END {
        return Err(BadFrame::Field(FieldName::Addr));
    }
    let len = u16_at(body, 4);
    let count = u32::from(len);
    if count == 0 || count > PART_BYTES || addr % PAGE_BYTES + count > PAGE_BYTES {
        return Err(BadFrame::Field(FieldName::Len));
    }
    Ok(RequestRef::Read {
        addr: Addr(addr),
        len,
    })
}

/// Reads the body of a Write.
fn read_write(body: &[u8]) -> Result<RequestRef<'_>, BadFrame>
    ensures fault { result_err result ≡ first_fault (write_checks (length body.now) body.now) }
    ensures value { IfOk result (λ request. request_of request ≡ request_in_body 4 body.now) }
{
    if body.len() < 5 || body.len() > 4 + PART_BYTES as usize {
        return Err(BadFrame::Field(FieldName::Body));
    }
    let addr = u32_at(body, 0);
    if addr >= ADDRESS_END {
        return Err(BadFrame::Field(FieldName::Addr));
    }
    let bytes = &body[4..];
    if (addr % PAGE_BYTES) as usize + bytes.len() > PAGE_BYTES as usize {
        return Err(BadFrame::Field(FieldName::Len));
    }
    Ok(RequestRef::Write {
        addr: Addr(addr),
        bytes,
    })
}

/// Reads the operation of an Atomic. `None` comes exactly where no operation has this number in a
/// body of this length.
fn read_op(body: &[u8]) -> Option<AtomicOp>
    requires { IsTrue (length body.now == 5 || length body.now == 13 || length body.now == 21) }
    ensures some { is_some result ≡ is_op (length body.now) (slice_index body.now 4) }
    ensures value { IfSome result (λ op. op ≡ op_in body.now) }
{
    match (body.len(), body[4]) {
        (5, 1) => Some(AtomicOp::Lock),
        (5, 2) => Some(AtomicOp::Unlock),
        (13, 3) => Some(AtomicOp::Add { n: u64_at(body, 5) }),
        (21, 4) => Some(AtomicOp::Cas {
            expect: u64_at(body, 5),
            put: u64_at(body, 13),
        }),
        _ => None,
    }
}

/// Reads the body of an Atomic.
fn read_atomic(body: &[u8]) -> Result<RequestRef<'_>, BadFrame>
    ensures fault { result_err result ≡ first_fault (atomic_checks (length body.now) body.now) }
    ensures value { IfOk result (λ request. request_of request ≡ request_in_body 5 body.now) }
{
    if body.len() != 5 && body.len() != 13 && body.len() != 21 {
        return Err(BadFrame::Field(FieldName::Body));
    }
    let addr = u32_at(body, 0);
    if addr >= ADDRESS_END || addr % 8 != 0 {
        return Err(BadFrame::Field(FieldName::Addr));
    }
    let Some(op) = read_op(body) else {
        return Err(BadFrame::Field(FieldName::Op));
    };
    Ok(RequestRef::Atomic {
        addr: Addr(addr),
        op,
    })
}

/// Reads the body of an Offload.
fn read_offload(body: &[u8]) -> Result<RequestRef<'_>, BadFrame>
    ensures fault { result_err result ≡ first_fault (offload_checks (length body.now) body.now) }
    ensures value { IfOk result (λ request. request_of request ≡ request_in_body 6 body.now) }
{
    if body.len() < 4 || body.len() > 4 + PART_BYTES as usize {
        return Err(BadFrame::Field(FieldName::Body));
    }
    let out = u16_at(body, 2);
    if u32::from(out) > PART_BYTES {
        return Err(BadFrame::Field(FieldName::Len));
    }
    Ok(RequestRef::Offload {
        no: body[0],
        op: body[1],
        out,
        bytes: &body[4..],
    })
}

/// Reads the body of a request of this kind.
fn read_body(kind: Kind, body: &[u8]) -> Result<RequestRef<'_>, BadFrame>
    ensures fault { let number = kind_number kind in
        result_err result ≡ first_fault (request_checks number (length body.now) body.now) }
    ensures value { let number = kind_number kind in
        IfOk result (λ request. request_of request ≡ request_in_body number body.now) }
{
    match kind {
        Kind::Alloc => read_alloc(body),
        Kind::Free => read_free(body),
        Kind::Read => read_read(body),
        Kind::Write => read_write(body),
        Kind::Atomic => read_atomic(body),
        Kind::Offload => read_offload(body),
    }
}

/// Reads a request. `Ok` comes exactly where the bytes spell one, and else the first fault of the
/// bytes is told.
pub fn read_request(bytes: &[u8]) -> Result<RequestView<'_>, BadFrame>
    ensures exactly { GivesSpelledRequest bytes.now result }
    ensures spelled { IfOk result
        (λ view. SpellsRequest bytes.now view.head (request_of view.body)) }
    ensures read { IfOk result (λ view. ReadsAsRequest bytes.now view.head (request_of view.body)) }
    ensures fault { result_err result ≡ request_fault bytes.now }
{
    let header = read_header(0, bytes)?;
    let body = read_body(header.kind, &bytes[HEADER_BYTES..])?;
    Ok(RequestView {
        head: header.head,
        body,
    })
}
