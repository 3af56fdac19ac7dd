//! Tests of `drive`.

ghost use Rattle.std.specs.Prelude.{◌≡◌, IfOk, length};

use cl_outside::{Bound, MemorySink, Peer, ScriptClock, ScriptWire};
use cl_types::call::Perm;
use cl_types::items::{Items, NoMemory};
use cl_types::numbers::{ClientNo, try_pid};
use cl_types::schedule::{CallText, Script};
use client_core::Client;
use std::alloc::Global;
use std::test::Fail;
use wire_loop::{DriveEnd, drive};

const NODE: Peer = Peer {
    ip: 0x7f00_0001,
    port: 9,
};

/// A call of a script.
#[derive(Clone, Copy)]
enum Asked {
    /// An Alloc of so many pages.
    Pages(u32),
    Fence,
}

/// A script of two calls, in lines 1 and 2, over a wire that gives nothing, and what comes of it.
struct Run {
    calls: [Asked; 2],
    /// What the clock answers; it repeats the second.
    moments: [u64; 2],
    /// The send that fails, from 1, and 0 where none does.
    failing_send: u64,
    /// The write that fails, from 1, and 0 where none does.
    failing_write: u64,
    end: DriveEnd,
    /// How many frames are sent.
    sent: usize,
    text: &'static [u8],
}

const RUNS: &[Run] = &[
    // Fences end one a turn.
    Run {
        calls: [Asked::Fence, Asked::Fence],
        moments: [0, 0],
        failing_send: 0,
        failing_write: 0,
        end: DriveEnd::AllEnded,
        sent: 0,
        text: b"1 done\n2 done\n",
    },
    // A call that isn't issued is written at once; one without a reply times out after 400 ticks.
    Run {
        calls: [Asked::Pages(1), Asked::Pages(0)],
        moments: [1, 401],
        failing_send: 0,
        failing_write: 0,
        end: DriveEnd::AllEnded,
        sent: 1,
        text: b"2 not issued empty\n1 timed out 1 401\n",
    },
    // The wire fails.
    Run {
        calls: [Asked::Pages(1), Asked::Fence],
        moments: [0, 0],
        failing_send: 1,
        failing_write: 0,
        end: DriveEnd::WireFault,
        sent: 0,
        text: b"",
    },
    // The sink fails at the second line.
    Run {
        calls: [Asked::Fence, Asked::Fence],
        moments: [0, 0],
        failing_send: 0,
        failing_write: 2,
        end: DriveEnd::WriteFault,
        sent: 0,
        text: b"1 done\n",
    },
    // The clock stands still.
    Run {
        calls: [Asked::Pages(1), Asked::Fence],
        moments: [3, 3],
        failing_send: 0,
        failing_write: 0,
        end: DriveEnd::Stalled {
            moment: 3,
            turns: 1_000_000,
        },
        sent: 1,
        text: b"",
    },
];

/// The call as a line of a script has it.
fn call_text(asked: Asked) -> CallText {
    match asked {
        Asked::Pages(pages) => CallText::Alloc {
            pages,
            perm: Perm::ReadWrite,
        },
        Asked::Fence => CallText::Fence,
    }
}

fn script(alloc: Global, run: &Run) -> Result<Script, NoMemory>
    ensures { IfOk result (λ script. length script.calls ≡ 2) }
{
    let mut calls = Items::create(alloc);
    calls.push((1, call_text(run.calls[0])))?;
    calls.push((2, call_text(run.calls[1])))?;
    Ok(Script { calls })
}

fn clock(alloc: Global, run: &Run) -> Result<ScriptClock, NoMemory> {
    Ok(ScriptClock::create(Vec::from_slice(alloc, &run.moments)?))
}

fn wire(alloc: Global, run: &Run) -> Result<ScriptWire, NoMemory> {
    let fails = Vec::from_slice(alloc, &[run.failing_send])?;
    Ok(ScriptWire::create(
        alloc,
        Bound::Port(5),
        Vec::new(alloc),
        Vec::new(alloc),
        fails,
    ))
}

fn sink(alloc: Global, run: &Run) -> Result<MemorySink, NoMemory> {
    let fails = Vec::from_slice(alloc, &[run.failing_write])?;
    Ok(MemorySink::create(alloc, fails))
}

/// How driving a new client ends. No other function owns a client, since each that drops one takes the prover long.
fn drive_new(
    alloc: Global,
    script: &Script,
    wire: &mut ScriptWire,
    clock: &mut ScriptClock,
    sink: &mut MemorySink,
) -> Result<Option<DriveEnd>, NoMemory>
    requires { length script.now.calls ≡ 2 }
{
    let Some(pid) = try_pid(1) else {
        return Ok(None);
    };
    let mut client = Client::create(alloc, ClientNo(1), pid)?;
    Ok(Some(drive(alloc, &mut client, script, NODE, wire, clock, sink)))
}

/// Whether the run comes out as its row says.
fn comes_out(alloc: Global, run: &Run) -> Result<bool, NoMemory> {
    let script = script(alloc, run)?;
    let mut clock = clock(alloc, run)?;
    let mut wire = wire(alloc, run)?;
    let mut sink = sink(alloc, run)?;
    let end = drive_new(alloc, &script, &mut wire, &mut clock, &mut sink)?;
    Ok(end == Some(run.end) && wire.sent().len() == run.sent && sink.bytes() == run.text)
}

/// The first row that comes out otherwise.
fn first_other(alloc: Global) -> Result<Option<usize>, NoMemory> {
    for row in 0..RUNS.len() {
        if !comes_out(alloc, &RUNS[row])? {
            return Ok(Some(row));
        }
    }
    Ok(None)
}

#[test]
fn each_run_ends_and_writes_as_it_is_to(rt: HostRuntime) -> Result<(), Fail> {
    assert_eq!(rt; first_other(rt.alloc())?, None);
    Ok(())
}
