//! Tests of `transcript_text`: lines and entries from outside.

ghost use Rattle.transcript_text.specs.Statuses.{HasGoodStatus};

use cl_types::call::{AtomicOp, Perm};
use cl_types::frame::{BadFrame, FieldName, How, IssueFault};
use cl_types::items::{Bytes, NoMemory};
use cl_types::line::{Did, EndedCall, Entry, EventLine};
use cl_types::numbers::{Addr, CallNo, ClientNo, Pid, try_pid};
use cl_types::reply::{Answer, Part, Refusal, Reply, Value};
use cl_types::request::Request;
use std::alloc::Global;
use transcript_text::{print_answered, print_entry, print_line, print_not_issued};

const CLIENT: ClientNo = ClientNo(1);

fn part(call: u32, part: u16) -> Part {
    Part {
        call: CallNo(call),
        part,
    }
}

fn bytes_of(alloc: Global, text: &[u8]) -> Result<Bytes, NoMemory> {
    let mut bytes = Bytes::create(alloc);
    bytes.append(text)?;
    Ok(bytes)
}

/// Appends the line of an event by which no call ended.
fn print(line: u32, did: Did, to: &mut Bytes) -> Result<(), NoMemory>
    requires { HasGoodStatus did }
{
    print_line(line, &EventLine { did, ended: None }, to)
}

/// Appends the lines of `LINES`.
fn print_lines(to: &mut Bytes) -> Result<(), NoMemory> {
    let sent = Did::Again {
        frame: 9,
        client: CLIENT,
        part: part(1, 4),
        id: 5,
        orig: 1,
    };
    print(8, sent, to)?;
    let handled = Did::Handled {
        frame: 7,
        client: CLIENT,
        part: part(2, 0),
        how: How::Repeated,
        status: 4,
        reply: 8,
    };
    print(13, handled, to)?;
    let busy = Did::Busy {
        frame: 6,
        client: CLIENT,
        part: part(3, 1),
        oldest: 0,
        now: 399,
    };
    print(14, busy, to)?;
    let fault = IssueFault::Misaligned { addr: Addr(0) };
    print(3, Did::NotIssued { fault }, to)?;
    let fault = BadFrame::Field(FieldName::Orig);
    print(4, Did::Bad { fault }, to)
}

const LINES: &str = "8 again 9 1.1.4 id 5 orig 1
13 repeated 7 1.2.0 no range reply 8
14 busy 6 1.3.1 oldest 0 now 399
3 not issued misaligned
4 bad field orig
";

/// Whether they are those.
fn lines_are_printed(alloc: Global) -> bool {
    let mut to = Bytes::create(alloc);
    print_lines(&mut to).is_ok() && to.as_slice() == LINES.as_bytes()
}

/// Appends the line of a reply by which a call ended with these bytes.
fn print_end(
    alloc: Global,
    call: u32,
    answer: Answer,
    text: &[u8],
    to: &mut Bytes,
) -> Result<(), NoMemory> {
    let bytes = bytes_of(alloc, text)?;
    let did = Did::Took {
        frame: 6,
        client: CLIENT,
        part: part(call, 0),
    };
    let ended = Some(EndedCall {
        client: CLIENT,
        call: CallNo(call),
        answer,
        bytes,
    });
    print_line(14, &EventLine { did, ended }, to)
}

/// Calls, their answers and the bytes of these.
const ENDS: [(u32, Answer, &[u8]); 5] = [
    (3, Answer::Done(Value::Len(4)), b"abc\0"),
    (4, Answer::Done(Value::At(Addr(0x1ffc))), b""),
    (5, Answer::Done(Value::Nothing), b""),
    (6, Answer::Refused(Refusal::NoKey), b""),
    (
        7,
        Answer::TimedOut {
            first_sent: 0,
            now: 400,
        },
        b"",
    ),
];

/// Appends a line, and those by which they ended.
fn print_ends(alloc: Global, to: &mut Bytes) -> Result<(), NoMemory> {
    to.append(b"node 16 8 4 4\n")?;
    for (call, answer, text) in &ENDS {
        print_end(alloc, *call, *answer, text, to)?;
    }
    Ok(())
}

const ENDING_LINES: &str = "node 16 8 4 4
14 took 6 1.3.0; answer 1.3 done 61626300
14 took 6 1.4.0; answer 1.4 done 0x1ffc
14 took 6 1.5.0; answer 1.5 done
14 took 6 1.6.0; answer 1.6 refused no key
14 took 6 1.7.0; answer 1.7 timed out 0 400
";

/// Whether they are those.
fn ends_are_printed(alloc: Global) -> bool {
    let mut to = Bytes::create(alloc);
    print_ends(alloc, &mut to).is_ok() && to.as_slice() == ENDING_LINES.as_bytes()
}

/// Appends the line of an entry.
fn print_done(pid: Pid, request: Request, reply: Reply, to: &mut Bytes) -> Result<(), NoMemory> {
    let entry = Entry {
        line: 5,
        position: 0,
        client: CLIENT,
        pid,
        part: part(1, 0),
        request,
        reply,
    };
    print_entry(&entry, to)
}

/// Appends the lines of four entries.
fn print_entries(alloc: Global, pid: Pid, to: &mut Bytes) -> Result<(), NoMemory> {
    let addr = Addr(0x1000);
    let page = Request::Alloc {
        pages: 1,
        perm: Perm::ReadWrite,
    };
    print_done(pid, page, Reply::At(addr), to)?;
    let bytes = bytes_of(alloc, b"abc")?;
    print_done(pid, Request::Write { addr, bytes }, Reply::Nothing, to)?;
    let op = AtomicOp::Cas { expect: 0, put: 5 };
    print_done(pid, Request::Atomic { addr, op }, Reply::Word(7), to)?;
    let called = Request::Offload {
        no: 0,
        op: 2,
        out: 9,
        bytes: Bytes::create(alloc),
    };
    print_done(pid, called, Reply::Refused(Refusal::BadOp), to)
}

const ENTRIES: &str = "h 5 0 1.1.0 alloc 1 rw = ok 0x1000
h 5 0 1.1.0 write 0x1000 616263 = ok
h 5 0 1.1.0 cas 0x1000 0 5 = ok 7
h 5 0 1.1.0 offload 0 2 9 - = bad op
";

/// Whether they are those of `ENTRIES`.
fn entries_are_printed(alloc: Global) -> bool {
    let Some(pid) = try_pid(1) else {
        return false;
    };
    let mut to = Bytes::create(alloc);
    print_entries(alloc, pid, &mut to).is_ok() && to.as_slice() == ENTRIES.as_bytes()
}

const CALLS: &str = "3 not issued empty
4 done 6162
";

/// Appends the lines of two calls of a script.
fn print_calls(to: &mut Bytes) -> Result<(), NoMemory> {
    print_not_issued(3, IssueFault::Empty, to)?;
    print_answered(4, Answer::Done(Value::Len(2)), b"ab", to)
}

/// Whether they are those of `CALLS`.
fn calls_are_printed(alloc: Global) -> bool {
    let mut to = Bytes::create(alloc);
    print_calls(&mut to).is_ok() && to.as_slice() == CALLS.as_bytes()
}

#[test]
fn events_answers_entries_and_calls_have_their_lines(rt: HostRuntime) {
    let alloc = rt.alloc();
    let are_printed = [
        lines_are_printed(alloc),
        ends_are_printed(alloc),
        entries_are_printed(alloc),
        calls_are_printed(alloc),
    ];
    assert!(rt; are_printed == [true; 4]);
}
