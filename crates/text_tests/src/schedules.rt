//! Tests of `schedule_text`: schedules, scripts and bad lines from outside.

use cl_types::config::OffloadConfig;
use cl_types::schedule::{CallText, Event, Schedule, Script, What};
use schedule_text::{ScheduleFault, read, read_script};
use std::alloc::Global;

const SCHEDULE: &[u8] =
    b"# a store\nnode 16 8 4 4\noffload kv 13\nclient 1 1\n\ncall 1 write 0x1000 6162*3\n\
deliver next\ntick 400\npeek 1 0x1ffc 4\ngarbage 1 -\n";

const HEADER: &[u8] = b"node 16 8 4 4\noffload kv 13\nclient 1 1\n";

/// Whether the event is a Write of "ab", three times over.
fn writes_ab_3_times(event: &Event) -> bool {
    match event {
        Event::Call {
            call: CallText::Write { bytes, .. },
            ..
        } => bytes.times == 3 && bytes.bytes.as_slice() == b"ab".as_slice(),
        _ => false,
    }
}

/// Whether a schedule has the header, the store, the records and the events of `SCHEDULE`.
fn is_schedule(schedule: &Schedule) -> [bool; 4] {
    let node = &schedule.config.node;
    let events = schedule.events.as_slice();
    if events.len() != 5 {
        return [false; 4];
    }
    [
        schedule.header.as_slice() == HEADER,
        node.offloads.as_slice() == [OffloadConfig::Kv { records: 13 }].as_slice(),
        node.retry == 4,
        [events[0].0, events[1].0, events[4].0] == [6, 7, 10]
            && writes_ab_3_times(&events[0].1)
            && matches!(events[1].1, Event::DeliverNext),
    ]
}

/// Whether the schedule is decoded so.
fn is_read(alloc: Global) -> Result<[bool; 4], ScheduleFault> {
    let schedule = read(alloc, SCHEDULE)?;
    Ok(is_schedule(&schedule))
}

/// Bytes that are no schedule, their first bad line, and what is wrong with it.
const BAD_LINES: [(&[u8], u32, What); 17] = [
    (b"", 1, What::NodeExpected),
    (b"node 16 8 4 4\n", 2, What::ClientExpected),
    (b"client 1 1\n", 1, What::NodeExpected),
    (b"node 16 8 4 4\nstat\n", 2, What::ClientExpected),
    (
        b"node 16 8 4 4\nclient 1 1\nnode 16 8 4 4\n",
        3,
        What::OutOfPlace,
    ),
    (
        b"node 16 8 4 4\n#\nclient 1 1\nclient 1 2\n",
        4,
        What::ClientRepeated,
    ),
    (b"node 16 8 4 4 \n", 1, What::BadSpacing),
    (b"node\t16 8 4 4\n", 1, What::BadByte),
    (b"node 16 8 4\n", 1, What::MissingWord),
    (b"node 16 8 4 4 4\n", 1, What::ExtraWord),
    (b"node 16 08 4 4\n", 1, What::BadNumber),
    (
        b"node 16 8 4 4\nclient 1 1\ncall 2 fence",
        3,
        What::UnknownClient,
    ),
    (
        b"node 16 8 4 4\nclient 1 1\ncall 1 hold",
        3,
        What::UnknownWord,
    ),
    (
        b"node 16 8 4 4\nclient 1 1\ncall x read 0x0",
        3,
        What::MissingWord,
    ),
    (
        b"node 16 8 4 4\nclient 1 1\npeek 1 0x1ffd 4",
        3,
        What::BadLength,
    ),
    (
        b"node 16 8 4 4\nclient 1 1\ngarbage node 434c01010001000100000000000000010000000000000001000300010",
        3,
        What::BadBytes,
    ),
    (
        b"node 16 8 4 4\nclient 1 1\ngarbage node 434c010100010001000000000000000100000000000000010003000103\n",
        3,
        What::AFrame,
    ),
];

/// Why bytes are no schedule.
fn fault_of(alloc: Global, text: &[u8]) -> Option<ScheduleFault> {
    match read(alloc, text) {
        Ok(_) => None,
        Err(fault) => Some(fault),
    }
}

/// The first row of which another fault is reported, by its place from 0.
fn first_off(alloc: Global, rows: &[(&[u8], u32, What)]) -> Option<usize> {
    for (at, (text, number, what)) in rows.iter().enumerate() {
        let want = ScheduleFault::Line {
            number: *number,
            what: *what,
        };
        if fault_of(alloc, text) != Some(want) {
            return Some(at);
        }
    }
    None
}

const SCRIPT: &[u8] = b"# calls\nalloc 1 rw\ncas 0x1000 0 5\noffload 0 2 4 -\n\nfence";

/// Whether these are the four calls of `SCRIPT`, on their lines.
fn is_script(script: &Script) -> bool {
    let calls = script.calls.as_slice();
    calls.len() == 4 && [calls[0].0, calls[3].0] == [2, 6] && matches!(calls[3].1, CallText::Fence)
}

/// Whether the script is decoded so.
fn script_is_read(alloc: Global) -> Result<bool, ScheduleFault> {
    let script = read_script(alloc, SCRIPT)?;
    Ok(is_script(&script))
}

/// Whether the schedule and the script are decoded, and the first bad line of each other text is reported.
fn are_read(alloc: Global) -> [bool; 3] {
    [
        is_read(alloc) == Ok([true; 4]),
        script_is_read(alloc) == Ok(true),
        first_off(alloc, &BAD_LINES).is_none(),
    ]
}

#[test]
fn schedules_scripts_and_bad_lines_are_read(rt: HostRuntime) {
    assert!(rt; are_read(rt.alloc()) == [true; 3]);
}
