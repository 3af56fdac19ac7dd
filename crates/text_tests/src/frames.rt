//! Tests of `frame_codec`: vectors from outside, read and written, and the first fault of bytes that spell no frame.

use cl_types::call::{AtomicOp, Kind, Perm};
use cl_types::numbers::Addr;
use cl_types::reply::{Refusal, ReplyRef};
use cl_types::request::RequestRef;
use frame_codec::{
    BadFrame, FieldName, Head, read_reply, read_request, write_got, write_reply, write_request,
};

/// Client 1, process 1, id 1, orig 1: Alloc of one page to read and write.
const ALLOC: &[u8] = b"CL\x01\x01\0\x01\0\x01\0\0\0\0\0\0\0\x01\0\0\0\0\0\0\0\x01\0\x03\0\x01\x03";

/// Its reply: Ok at 0x1000.
const ALLOCATED: &[u8] =
    b"CL\x01\x81\0\x01\0\x01\0\0\0\0\0\0\0\x01\0\0\0\0\0\0\0\x01\0\x05\0\0\0\x10\0";

/// Client 1, process 1, id 2, orig 2: Write of "abc" at 0x1000.
const WRITE: &[u8] =
    b"CL\x01\x04\0\x01\0\x01\0\0\0\0\0\0\0\x02\0\0\0\0\0\0\0\x02\0\x07\0\0\x10\0abc";

/// Client 1, process 1, id 5, orig 3: Read of 4 bytes at 0x1ffc.
const READ: &[u8] =
    b"CL\x01\x03\0\x01\0\x01\0\0\0\0\0\0\0\x05\0\0\0\0\0\0\0\x03\0\x06\0\0\x1f\xfc\0\x04";

/// Client 2, process 1, id 1, orig 1: Add of 3 at 0x1000.
const ADD: &[u8] =
    b"CL\x01\x05\0\x02\0\x01\0\0\0\0\0\0\0\x01\0\0\0\0\0\0\0\x01\0\x0d\0\0\x10\0\x03\0\0\0\0\0\0\0\x03";

/// Its reply: the old word 5.
const ADDED: &[u8] =
    b"CL\x01\x85\0\x02\0\x01\0\0\0\0\0\0\0\x01\0\0\0\0\0\0\0\x01\0\x09\0\0\0\0\0\0\0\0\x05";

/// Client 1, process 1, id 1, orig 1: no mapping, to a Write.
const NO_MAPPING: &[u8] = b"CL\x01\x84\0\x01\0\x01\0\0\0\0\0\0\0\x01\0\0\0\0\0\0\0\x01\0\x01\x01";

/// Each request with the client, the process, the id and the orig of its head.
const REQUESTS: [(&[u8], (u16, u16, u64, u64)); 4] = [
    (ALLOC, (1, 1, 1, 1)),
    (WRITE, (1, 1, 2, 2)),
    (READ, (1, 1, 5, 3)),
    (ADD, (2, 1, 1, 1)),
];

/// The same of each reply.
const REPLIES: [(&[u8], (u16, u16, u64, u64)); 3] = [
    (ALLOCATED, (1, 1, 1, 1)),
    (ADDED, (2, 1, 1, 1)),
    (NO_MAPPING, (1, 1, 1, 1)),
];

/// The numbers of a head: client, process, id and orig.
fn numbers(head: &Head) -> (u16, u16, u64, u64) {
    (head.client.0, head.pid.number(), head.id, head.orig)
}

/// The request in the bytes, where they spell one.
fn request_in(bytes: &[u8]) -> Option<RequestRef<'_>> {
    match read_request(bytes) {
        Ok(view) => Some(view.body),
        Err(_) => None,
    }
}

/// The reply in the bytes and its kind, where they spell one.
fn reply_in(bytes: &[u8]) -> Option<(Kind, ReplyRef<'_>)> {
    match read_reply(bytes) {
        Ok(view) => Some((view.kind, view.body)),
        Err(_) => None,
    }
}

fn alloc_is_read() -> bool {
    matches!(
        request_in(ALLOC),
        Some(RequestRef::Alloc {
            pages: 1,
            perm: Perm::ReadWrite
        })
    )
}

fn write_is_read() -> bool {
    matches!(
        request_in(WRITE),
        Some(RequestRef::Write {
            addr: Addr(0x1000),
            bytes: b"abc"
        })
    )
}

fn read_is_read() -> bool {
    matches!(
        request_in(READ),
        Some(RequestRef::Read {
            addr: Addr(0x1ffc),
            len: 4
        })
    )
}

fn add_is_read() -> bool {
    matches!(
        request_in(ADD),
        Some(RequestRef::Atomic {
            addr: Addr(0x1000),
            op: AtomicOp::Add { n: 3 }
        })
    )
}

fn start_is_read() -> bool {
    matches!(
        reply_in(ALLOCATED),
        Some((Kind::Alloc, ReplyRef::At(Addr(0x1000))))
    )
}

fn word_is_read() -> bool {
    matches!(reply_in(ADDED), Some((Kind::Atomic, ReplyRef::Word(5))))
}

fn refusal_is_read() -> bool {
    matches!(
        reply_in(NO_MAPPING),
        Some((Kind::Write, ReplyRef::Refused(Refusal::NoMapping)))
    )
}

/// Whether the buffer, which was full of 0xee, has these bytes in front and nothing else that is new right behind them.
fn has_in_front(out: &[u8; 1200], len: usize, want: &[u8]) -> bool {
    len == want.len() && out.starts_with(want) && out.get(len) == Some(&0xee)
}

/// Whether the request is decoded with these numbers, and encoded again as the same bytes.
fn request_comes_back(bytes: &[u8], want: (u16, u16, u64, u64)) -> bool {
    let Ok(view) = read_request(bytes) else {
        return false;
    };
    let mut out = [0xee; 1200];
    let len = write_request(&view.head, &view.body, &mut out);
    numbers(&view.head) == want && has_in_front(&out, len, bytes)
}

/// The same of a reply.
fn reply_comes_back(bytes: &[u8], want: (u16, u16, u64, u64)) -> bool {
    let Ok(view) = read_reply(bytes) else {
        return false;
    };
    let mut out = [0xee; 1200];
    let len = write_reply(&view.head, view.kind, &view.body, &mut out);
    numbers(&view.head) == want && has_in_front(&out, len, bytes)
}

/// The first request that comes back otherwise, by its place from 0.
fn first_request_off() -> Option<usize> {
    for (at, (bytes, want)) in REQUESTS.iter().enumerate() {
        if !request_comes_back(bytes, *want) {
            return Some(at);
        }
    }
    None
}

/// The first reply that comes back otherwise, by its place from 0.
fn first_reply_off() -> Option<usize> {
    for (at, (bytes, want)) in REPLIES.iter().enumerate() {
        if !reply_comes_back(bytes, *want) {
            return Some(at);
        }
    }
    None
}

/// The reply to `READ` with "abc" and a 0.
const GOT: &[u8] = b"CL\x01\x83\0\x01\0\x01\0\0\0\0\0\0\0\x05\0\0\0\0\0\0\0\x03\0\x05\0abc\0";

/// Whether the reply is written around four bytes that stand in the buffer.
fn is_written_around() -> bool {
    let Ok(view) = read_request(READ) else {
        return false;
    };
    let mut out = [0xee; 1200];
    out[27..31].copy_from_slice(b"abc\0");
    let len = write_got(&view.head, Kind::Read, 4, &mut out);
    has_in_front(&out, len, GOT)
}

/// Bytes that spell no request, by their heads, and the first fault of each.
const BAD_HEADS: [(&[u8], BadFrame); 12] = [
    // 25 bytes
    (
        b"CL\x01\x01\0\x01\0\x01\0\0\0\0\0\0\0\x01\0\0\0\0\0\0\0\x01\0",
        BadFrame::Short { have: 25, need: 26 },
    ),
    // another magic
    (
        b"DL\x01\x01\0\x01\0\x01\0\0\0\0\0\0\0\x01\0\0\0\0\0\0\0\x01\0\x03\0\x01\x03",
        BadFrame::Magic,
    ),
    // another magic and another version
    (
        b"DL\x02\x01\0\x01\0\x01\0\0\0\0\0\0\0\x01\0\0\0\0\0\0\0\x01\0\x03\0\x01\x03",
        BadFrame::Magic,
    ),
    // another version
    (
        b"CL\x02\x01\0\x01\0\x01\0\0\0\0\0\0\0\x01\0\0\0\0\0\0\0\x01\0\x03\0\x01\x03",
        BadFrame::Version(2),
    ),
    // another version and a reply's kind
    (
        b"CL\x02\x81\0\x01\0\x01\0\0\0\0\0\0\0\x01\0\0\0\0\0\0\0\x01\0\x03\0\x01\x03",
        BadFrame::Version(2),
    ),
    // a reply's kind
    (
        b"CL\x01\x81\0\x01\0\x01\0\0\0\0\0\0\0\x01\0\0\0\0\0\0\0\x01\0\x03\0\x01\x03",
        BadFrame::Kind(0x81),
    ),
    // a body with a byte too few
    (
        b"CL\x01\x01\0\x01\0\x01\0\0\0\0\0\0\0\x01\0\0\0\0\0\0\0\x01\0\x04\0\x01\x03",
        BadFrame::Short { have: 29, need: 30 },
    ),
    // a body with a byte too many
    (
        b"CL\x01\x01\0\x01\0\x01\0\0\0\0\0\0\0\x01\0\0\0\0\0\0\0\x01\0\x02\0\x01\x03",
        BadFrame::Long { have: 29, need: 28 },
    ),
    // process 0
    (
        b"CL\x01\x01\0\x01\0\0\0\0\0\0\0\0\0\x01\0\0\0\0\0\0\0\x01\0\x03\0\x01\x03",
        BadFrame::Field(FieldName::Pid),
    ),
    // process 0 and id 0
    (
        b"CL\x01\x01\0\x01\0\0\0\0\0\0\0\0\0\0\0\0\0\0\0\0\0\x01\0\x03\0\x01\x03",
        BadFrame::Field(FieldName::Pid),
    ),
    // id 0
    (
        b"CL\x01\x01\0\x01\0\x01\0\0\0\0\0\0\0\0\0\0\0\0\0\0\0\x01\0\x03\0\x01\x03",
        BadFrame::Field(FieldName::Id),
    ),
    // an orig above its id
    (
        b"CL\x01\x01\0\x01\0\x01\0\0\0\0\0\0\0\x01\0\0\0\0\0\0\0\x02\0\x03\0\x01\x03",
        BadFrame::Field(FieldName::Orig),
    ),
];

/// The same, by their bodies.
const BAD_REQUESTS: [(&[u8], BadFrame); 7] = [
    // a Free of 3 bytes
    (
        b"CL\x01\x02\0\x01\0\x01\0\0\0\0\0\0\0\x01\0\0\0\0\0\0\0\x01\0\x03\0\x01\x03",
        BadFrame::Field(FieldName::Body),
    ),
    // an Alloc of 0 pages
    (
        b"CL\x01\x01\0\x01\0\x01\0\0\0\0\0\0\0\x01\0\0\0\0\0\0\0\x01\0\x03\0\0\x03",
        BadFrame::Field(FieldName::Pages),
    ),
    // an Alloc with permission 4
    (
        b"CL\x01\x01\0\x01\0\x01\0\0\0\0\0\0\0\x01\0\0\0\0\0\0\0\x01\0\x03\0\x01\x04",
        BadFrame::Field(FieldName::Perm),
    ),
    // a Free of 0 pages at an address within a page
    (
        b"CL\x01\x02\0\x01\0\x01\0\0\0\0\0\0\0\x01\0\0\0\0\0\0\0\x01\0\x06\0\0\x10\x01\0\0",
        BadFrame::Field(FieldName::Addr),
    ),
    // a Read of 0 bytes at 2^28
    (
        b"CL\x01\x03\0\x01\0\x01\0\0\0\0\0\0\0\x01\0\0\0\0\0\0\0\x01\0\x06\x10\0\0\0\0\0",
        BadFrame::Field(FieldName::Addr),
    ),
    // a Read of 5 bytes at 0x1ffc
    (
        b"CL\x01\x03\0\x01\0\x01\0\0\0\0\0\0\0\x01\0\0\0\0\0\0\0\x01\0\x06\0\0\x1f\xfc\0\x05",
        BadFrame::Field(FieldName::Len),
    ),
    // operation 4 in a body of 13 bytes
    (
        b"CL\x01\x05\0\x01\0\x01\0\0\0\0\0\0\0\x01\0\0\0\0\0\0\0\x01\0\x0d\0\0\x10\0\x04\0\0\0\0\0\0\0\x03",
        BadFrame::Field(FieldName::Op),
    ),
];

/// Bytes that spell no reply.
const BAD_REPLIES: [(&[u8], BadFrame); 4] = [
    // a request's kind
    (
        b"CL\x01\x01\0\x01\0\x01\0\0\0\0\0\0\0\x01\0\0\0\0\0\0\0\x01\0\x03\0\x01\x03",
        BadFrame::Kind(1),
    ),
    // status 9 in a body of 5 bytes
    (
        b"CL\x01\x81\0\x01\0\x01\0\0\0\0\0\0\0\x01\0\0\0\0\0\0\0\x01\0\x05\x09\0\0\x10\0",
        BadFrame::Field(FieldName::Status),
    ),
    // an Alloc that is Ok at 0
    (
        b"CL\x01\x81\0\x01\0\x01\0\0\0\0\0\0\0\x01\0\0\0\0\0\0\0\x01\0\x05\0\0\0\0\0",
        BadFrame::Field(FieldName::Addr),
    ),
    // a Read that is Ok with no bytes
    (
        b"CL\x01\x83\0\x01\0\x01\0\0\0\0\0\0\0\x01\0\0\0\0\0\0\0\x01\0\x01\0",
        BadFrame::Field(FieldName::Body),
    ),
];

/// What is told of bytes that are to spell a request.
fn request_fault(bytes: &[u8]) -> Option<BadFrame> {
    match read_request(bytes) {
        Ok(_) => None,
        Err(fault) => Some(fault),
    }
}

/// What is told of bytes that are to spell a reply.
fn reply_fault(bytes: &[u8]) -> Option<BadFrame> {
    match read_reply(bytes) {
        Ok(_) => None,
        Err(fault) => Some(fault),
    }
}

/// The first row of which another fault is told, by its place from 0.
fn first_request_fault_off(rows: &[(&[u8], BadFrame)]) -> Option<usize> {
    for (at, (bytes, want)) in rows.iter().enumerate() {
        if request_fault(bytes) != Some(*want) {
            return Some(at);
        }
    }
    None
}

/// The same of bytes that are to spell a reply.
fn first_reply_fault_off(rows: &[(&[u8], BadFrame)]) -> Option<usize> {
    for (at, (bytes, want)) in rows.iter().enumerate() {
        if reply_fault(bytes) != Some(*want) {
            return Some(at);
        }
    }
    None
}

/// Whether each vector is decoded as it says.
fn are_decoded() -> bool {
    [
        alloc_is_read(),
        write_is_read(),
        read_is_read(),
        add_is_read(),
        start_is_read(),
        word_is_read(),
        refusal_is_read(),
    ] == [true; 7]
}

#[test]
fn frames_are_decoded_and_encoded_as_the_vectors(rt: HostRuntime) {
    let off = [first_request_off(), first_reply_off()];
    assert!(rt; are_decoded() && off == [None; 2] && is_written_around());
}

#[test]
fn the_first_fault_of_bytes_is_reported(rt: HostRuntime) {
    let off = [
        first_request_fault_off(&BAD_HEADS),
        first_request_fault_off(&BAD_REQUESTS),
        first_reply_fault_off(&BAD_REPLIES),
    ];
    assert!(rt; off == [None; 3]);
}
