//! Tests of `client_core`: what a client sends, takes and gives up, moment by moment, and how it hands calls back.

use cl_types::call::{AtomicOp, Call, Perm};
use cl_types::items::{Bytes, NoMemory};
use cl_types::numbers::{Addr, CallNo, ClientNo, try_pid};
use cl_types::reply::{Answer, Part, Refusal, Value};
use client_core::{Client, Heard, IssueFault, LAST_FIRST_ID, Poll};
use std::alloc::Global;
use std::test::Fail;

// The kinds of replies, as a frame has them.
const ALLOC: u8 = 0x81;

const READ: u8 = 0x83;

const WRITE: u8 = 0x84;

const ATOMIC: u8 = 0x85;

const TIMED_OUT: Answer = Answer::TimedOut {
    first_sent: 0,
    now: 400,
};

/// A call.
#[derive(Clone, Copy)]
enum Asked {
    /// An Alloc of one page.
    Page,
    /// A Read of so many bytes at an address, into a buffer that isn't of zeros.
    Read(u32, u16),
    /// A Write of so many bytes at an address.
    Write(u32, u16),
    /// An Add of 7 to the word at an address.
    Add(u32),
    Fence,
}

/// What is heard of a reply.
#[derive(Clone, Copy)]
enum Hears {
    Took(u32, u16),
    Ended(u32, u16),
    Late,
    Unfit,
}

/// A step of a client, and what comes of it. A part is told by its call and its number.
#[derive(Clone, Copy)]
enum Step<'a> {
    /// A call is issued under this number.
    Issue(Asked, u32),
    /// So many Writes of a byte are issued, each in a page of its own, under the numbers from 1.
    IssueWrites(u16),
    /// So many Fences are issued, under the numbers from 1.
    IssueFences(u16),
    /// A call is not taken, since as many as may be are held.
    Full,
    /// A poll at a moment sends a frame of so many bytes: this part, for the first time, under this id.
    Send(u64, usize, (u32, u16), u64),
    /// A poll at 0, into a buffer of sevens, leaves these bytes at its start.
    Frame(&'a [u8]),
    /// Polls at 0 send so many of the Writes of a byte, for the first time, each under its number as the id.
    SendWrites(u16),
    /// It sends a part again: the same, and the id of its first sending.
    Again(u64, usize, (u32, u16), u64, u64),
    /// It gives up a part.
    GiveUp(u64, (u32, u16)),
    /// It ends a Fence.
    EndFence(u64, u32),
    /// It finds nothing due.
    Idle(u64),
    /// A reply of this kind is heard, under these ids, with this body of at most 9 bytes.
    Hear(u8, (u8, u8), &'a [u8], Hears),
    /// A call may go, or may not.
    Ready(u32, bool),
    /// The client holds no call, or holds one.
    Empty(bool),
    /// The call that ended first is handed out: its number, its answer and the bytes of its buffer.
    Done(u32, Answer, &'a [u8]),
}

/// So many bytes that aren't zeros.
fn bytes(alloc: Global, len: u16) -> Result<Bytes, NoMemory> {
    let mut bytes = Bytes::create(alloc);
    for _ in 0..len {
        bytes.push(9)?;
    }
    Ok(bytes)
}

fn call(alloc: Global, asked: Asked) -> Result<Call, NoMemory> {
    Ok(match asked {
        Asked::Page => Call::Alloc {
            pages: 1,
            perm: Perm::ReadWrite,
        },
        Asked::Read(at, len) => Call::Read {
            addr: Addr(at),
            buf: bytes(alloc, len)?,
        },
        Asked::Write(at, len) => Call::Write {
            addr: Addr(at),
            bytes: bytes(alloc, len)?,
        },
        Asked::Add(at) => Call::Atomic {
            addr: Addr(at),
            op: AtomicOp::Add { n: 7 },
        },
        Asked::Fence => Call::Fence,
    })
}

fn part(name: (u32, u16)) -> Part {
    Part {
        call: CallNo(name.0),
        part: name.1,
    }
}

/// The number under which the call is issued, or why it isn't. `None` tells that no number is left.
fn issue(client: &mut Client, call: Call) -> Option<Result<CallNo, IssueFault>> {
    if client.issued() == u32::MAX {
        return None;
    }
    match client.issue(call) {
        Ok(no) => Some(Ok(no)),
        Err((fault, _call)) => Some(Err(fault)),
    }
}

/// What a poll does. `None` tells that the moment is before the client's latest.
fn poll(client: &mut Client, now: u64) -> Option<Poll> {
    let mut out = [0; 1200];
    if now < client.last() {
        return None;
    }
    Some(client.poll(now, &mut out))
}

/// What the client makes of a reply to client 1 of process 1.
fn hear(client: &mut Client, kind: u8, ids: (u8, u8), body: &[u8]) -> Heard {
    let (id, orig) = ids;
    let mut frame = [
        0x43, 0x4c, 1, kind, 0, 1, 0, 1, 0, 0, 0, 0, 0, 0, 0, id, 0, 0, 0, 0, 0, 0, 0, orig, 0, 0,
        0, 0, 0, 0, 0, 0, 0, 0, 0,
    ];
    let len = body.len().min(9);
    frame[25] = len as u8;
    frame[26..26 + len].copy_from_slice(&body[..len]);
    client.hear(&frame[..26 + len])
}

/// Whether the call that ended first is handed out so.
fn is_done(client: &mut Client, no: u32, answer: Answer, bytes: &[u8]) -> bool {
    let Some((done_no, told, call)) = client.done() else {
        return false;
    };
    let buffer = match &call {
        Call::Read { buf, .. } => buf.as_slice(),
        _ => &[],
    };
    done_no == CallNo(no) && told == answer && buffer == bytes
}

fn heard(told: Hears, orig: u8) -> Heard {
    let orig = orig as u64;
    match told {
        Hears::Took(call, number) => Heard::Took(part((call, number))),
        Hears::Ended(call, number) => Heard::Ended(part((call, number))),
        Hears::Late => Heard::Late { orig },
        Hears::Unfit => Heard::Unfit { orig },
    }
}

fn sent(len: usize, name: (u32, u16), id: u64, orig: u64) -> Poll {
    Poll::Sent {
        len,
        part: part(name),
        id,
        orig,
        again: id != orig,
    }
}

/// Whether so many Writes of a byte are issued, each in a page of its own, under the numbers from 1.
fn issues_writes(alloc: Global, client: &mut Client, count: u16) -> Result<bool, NoMemory> {
    for no in 1..=count {
        let no = no as u32;
        let write = call(alloc, Asked::Write(no * 4096, 1))?;
        if issue(client, write) != Some(Ok(CallNo(no))) {
            return Ok(false);
        }
    }
    Ok(true)
}

/// Whether so many Fences are issued, under the numbers from 1.
fn issues_fences(client: &mut Client, count: u16) -> bool {
    for no in 1..=count {
        if issue(client, Call::Fence) != Some(Ok(CallNo(no as u32))) {
            return false;
        }
    }
    true
}

/// Whether polls at 0 send so many Writes of a byte, for the first time, each under its number as the id.
fn sends_writes(client: &mut Client, count: u16) -> bool {
    for no in 1..=count {
        let id = no as u64;
        if poll(client, 0) != Some(sent(31, (no as u32, 0), id, id)) {
            return false;
        }
    }
    true
}

/// Whether a poll at 0 leaves the frame at the start of a buffer of sevens.
fn writes_frame(client: &mut Client, frame: &[u8]) -> bool {
    let mut out = [7; 1200];
    if client.last() != 0 {
        return false;
    }
    client.poll(0, &mut out);
    out.starts_with(frame)
}

/// Whether the step comes out so.
fn comes(alloc: Global, client: &mut Client, step: Step) -> Result<bool, NoMemory> {
    Ok(match step {
        Step::Issue(asked, no) => issue(client, call(alloc, asked)?) == Some(Ok(CallNo(no))),
        Step::IssueWrites(count) => issues_writes(alloc, client, count)?,
        Step::IssueFences(count) => issues_fences(client, count),
        Step::Full => issue(client, Call::Fence) == Some(Err(IssueFault::QueueFull)),
        Step::Send(now, len, name, id) => poll(client, now) == Some(sent(len, name, id, id)),
        Step::Frame(frame) => writes_frame(client, frame),
        Step::SendWrites(count) => sends_writes(client, count),
        Step::Again(now, len, name, id, orig) => {
            poll(client, now) == Some(sent(len, name, id, orig))
        }
        Step::GiveUp(now, name) => poll(client, now) == Some(Poll::GaveUp(part(name))),
        Step::EndFence(now, no) => poll(client, now) == Some(Poll::Ended(CallNo(no))),
        Step::Idle(now) => poll(client, now) == Some(Poll::Idle),
        Step::Hear(kind, ids, body, told) => hear(client, kind, ids, body) == heard(told, ids.1),
        Step::Ready(no, ready) => client.ready_at(CallNo(no)) == ready,
        Step::Empty(empty) => client.is_empty() == empty,
        Step::Done(no, answer, bytes) => is_done(client, no, answer, bytes),
    })
}

/// The first step that comes out otherwise, by its place from 0.
fn first_off(
    alloc: Global,
    client: &mut Client,
    steps: &[Step],
) -> Result<Option<usize>, NoMemory> {
    for (at, step) in steps.iter().enumerate() {
        if !comes(alloc, client, *step)? {
            return Ok(Some(at));
        }
    }
    Ok(None)
}

/// The same of a client of process 1 whose ids begin at a number, or a new one where none is given. No other function owns a
/// client, since each that drops one takes the prover long.
fn first_off_from(
    alloc: Global,
    first: Option<u64>,
    steps: &[Step],
) -> Result<Option<usize>, NoMemory> {
    let Some(pid) = try_pid(1) else {
        return Err(NoMemory);
    };
    let mut client = match first {
        Some(first) if 1 <= first && first <= LAST_FIRST_ID => {
            Client::create_from(alloc, ClientNo(1), pid, first)?
        }
        _ => Client::create(alloc, ClientNo(1), pid)?,
    };
    first_off(alloc, &mut client, steps)
}

fn first_off_of_new(alloc: Global, steps: &[Step]) -> Result<Option<usize>, NoMemory> {
    first_off_from(alloc, None, steps)
}

/// The frame of an Alloc, and what stood behind it.
const FRAME: &[u8] =
    b"CL\x01\x01\0\x01\0\x01\0\0\0\0\0\0\0\x01\0\0\0\0\0\0\0\x01\0\x03\0\x01\x03\x07";

/// The first poll writes the frame of the call, and leaves what stands behind it.
const FIRST_FRAME: &[Step] = &[Step::Issue(Asked::Page, 1), Step::Frame(FRAME)];

#[test]
fn a_poll_writes_the_frame_of_the_part(rt: HostRuntime) -> Result<(), Fail> {
    assert_eq!(rt; first_off_of_new(rt.alloc(), FIRST_FRAME)?, None);
    Ok(())
}

/// An Alloc and an Add whose reply comes late: a retry goes under a new id at 100, and a reply of another kind doesn't fit.
const RETRY: &[Step] = &[
    Step::Issue(Asked::Page, 1),
    Step::Send(0, 29, (1, 0), 1),
    Step::Hear(ALLOC, (1, 1), &[0, 0, 0, 0x10, 0], Hears::Ended(1, 0)),
    Step::Done(1, Answer::Done(Value::At(Addr(0x1000))), &[]),
    Step::Issue(Asked::Add(0x1000), 2),
    Step::Send(0, 39, (2, 0), 2),
    Step::Idle(99),
    Step::Again(100, 39, (2, 0), 3, 2),
    Step::Hear(WRITE, (3, 2), &[0], Hears::Unfit),
    Step::Hear(ATOMIC, (3, 2), &[0; 9], Hears::Ended(2, 0)),
    Step::Hear(ATOMIC, (2, 2), &[0; 9], Hears::Late),
    Step::Done(2, Answer::Done(Value::Word(0)), &[]),
];

#[test]
fn a_retry_goes_under_a_new_id_at_100(rt: HostRuntime) -> Result<(), Fail> {
    assert_eq!(rt; first_off_of_new(rt.alloc(), RETRY)?, None);
    Ok(())
}

/// A part goes again at 300 and not at 301, and is given up at 400; the buffer of its call is then of zeros.
const GIVEN_UP: &[Step] = &[
    Step::Issue(Asked::Read(0x1000, 1), 1),
    Step::Issue(Asked::Read(0x2000, 1), 2),
    Step::Send(0, 32, (1, 0), 1),
    Step::Send(0, 32, (2, 0), 2),
    Step::Again(300, 32, (1, 0), 3, 1),
    Step::Idle(301),
    Step::Idle(399),
    Step::GiveUp(400, (1, 0)),
    Step::GiveUp(400, (2, 0)),
    Step::Done(1, TIMED_OUT, &[0]),
    Step::Hear(READ, (3, 1), &[0, 0], Hears::Late),
    Step::Done(2, TIMED_OUT, &[0]),
];

#[test]
fn a_part_is_sent_again_up_to_300_and_given_up_at_400(rt: HostRuntime) -> Result<(), Fail> {
    assert_eq!(rt; first_off_of_new(rt.alloc(), GIVEN_UP)?, None);
    Ok(())
}

/// A Read of two bytes over the end of a page waits for a Write, and is put together from replies in any order.
const READ_AFTER_WRITE: &[Step] = &[
    Step::Issue(Asked::Write(0x1000, 1), 1),
    Step::Send(0, 31, (1, 0), 1),
    Step::Issue(Asked::Read(0x1fff, 2), 2),
    Step::Ready(2, false),
    Step::Idle(0),
    Step::GiveUp(400, (1, 0)),
    Step::Ready(2, true),
    Step::Done(1, TIMED_OUT, &[]),
    Step::Send(400, 32, (2, 0), 2),
    Step::Send(400, 32, (2, 1), 3),
    Step::Hear(READ, (3, 3), b"\0b", Hears::Took(2, 1)),
    Step::Hear(READ, (2, 2), b"\0a", Hears::Ended(2, 0)),
    Step::Done(2, Answer::Done(Value::Len(2)), b"ab"),
];

#[test]
fn a_read_waits_for_an_earlier_write(rt: HostRuntime) -> Result<(), Fail> {
    assert_eq!(rt; first_off_of_new(rt.alloc(), READ_AFTER_WRITE)?, None);
    Ok(())
}

/// A Write of 5,000 bytes is cut at pages and every 1,024 bytes, and the least part that was refused is told.
const SIX_PARTS: &[Step] = &[
    Step::Issue(Asked::Write(0x1fa0, 5000), 1),
    Step::Send(0, 126, (1, 0), 1),
    Step::Send(0, 1054, (1, 1), 2),
    Step::Send(0, 1054, (1, 2), 3),
    Step::Send(0, 1054, (1, 3), 4),
    Step::Send(0, 1054, (1, 4), 5),
    Step::Send(0, 838, (1, 5), 6),
    Step::Idle(0),
    Step::Hear(WRITE, (3, 3), &[2], Hears::Took(1, 2)),
    Step::Hear(WRITE, (2, 2), &[1], Hears::Took(1, 1)),
    Step::Hear(WRITE, (1, 1), &[0], Hears::Took(1, 0)),
    Step::Hear(WRITE, (4, 4), &[1], Hears::Took(1, 3)),
    Step::Hear(WRITE, (5, 5), &[1], Hears::Took(1, 4)),
    Step::Hear(WRITE, (6, 6), &[0], Hears::Ended(1, 5)),
    Step::Done(1, Answer::Refused(Refusal::NoMapping), &[]),
];

#[test]
fn five_thousand_bytes_go_in_six_parts(rt: HostRuntime) -> Result<(), Fail> {
    assert_eq!(rt; first_off_of_new(rt.alloc(), SIX_PARTS)?, None);
    Ok(())
}

/// Once 64 parts are in flight no further one goes until one of them is heard.
const SIXTY_FIFTH: &[Step] = &[
    Step::IssueWrites(65),
    Step::SendWrites(64),
    Step::Idle(0),
    Step::Hear(WRITE, (5, 5), &[0], Hears::Ended(5, 0)),
    Step::Send(0, 31, (65, 0), 65),
];

#[test]
fn the_65th_part_waits_for_a_reply(rt: HostRuntime) -> Result<(), Fail> {
    assert_eq!(rt; first_off_of_new(rt.alloc(), SIXTY_FIFTH)?, None);
    Ok(())
}

/// With 256 calls held no further one is taken until one is handed out.
const HELD: &[Step] = &[
    Step::IssueFences(256),
    Step::Full,
    Step::EndFence(0, 1),
    Step::Full,
    Step::Done(1, Answer::Done(Value::Nothing), &[]),
    Step::Issue(Asked::Fence, 257),
    Step::Full,
];

#[test]
fn the_257th_call_is_refused_until_one_is_handed_out(rt: HostRuntime) -> Result<(), Fail> {
    assert_eq!(rt; first_off_of_new(rt.alloc(), HELD)?, None);
    Ok(())
}

/// A new client is empty, and one that holds a call is not.
const EMPTY: &[Step] = &[
    Step::Empty(true),
    Step::Issue(Asked::Fence, 1),
    Step::Empty(false),
];

#[test]
fn a_client_is_empty_until_it_holds_a_call(rt: HostRuntime) -> Result<(), Fail> {
    assert_eq!(rt; first_off_of_new(rt.alloc(), EMPTY)?, None);
    Ok(())
}

/// The ids of a client that begin at 100: a call is sent under 100 and again under 101, and a reply under an id of an earlier
/// run of its number is late.
const FROM_100: &[Step] = &[
    Step::Issue(Asked::Add(0x1000), 1),
    Step::Send(0, 39, (1, 0), 100),
    Step::Again(100, 39, (1, 0), 101, 100),
    Step::Hear(ATOMIC, (1, 1), &[0; 9], Hears::Late),
    Step::Hear(ATOMIC, (101, 100), &[0; 9], Hears::Ended(1, 0)),
    Step::Done(1, Answer::Done(Value::Word(0)), &[]),
];

#[test]
fn ids_begin_at_the_number_given(rt: HostRuntime) -> Result<(), Fail> {
    assert_eq!(rt; first_off_from(rt.alloc(), Some(100), FROM_100)?, None);
    Ok(())
}
