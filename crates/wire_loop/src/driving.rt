//! Driving a client through a script.

ghost use Rattle.std.specs.Prelude.{ℕ, ◌≡◌, ◌==◌, ◌<◌, ◌≤◌, ◌-◌, ◌&&◌, ◌||◌, ◌∷◌, [], false, leb, nat_lt, length, take, OnOk, OnErr, IfOk};
ghost use Rattle.cl_outside.specs.Loops.{WroteFront};
ghost use Rattle.cl_outside.specs.Told.{Added};
ghost use Rattle.cl_types.specs.Written.{call_of};
ghost use Rattle.cl_types.specs.declared.limits.TheConstants.{FRAME_ROOM, HELD_CALLS, INPUT_LINES};
ghost use Rattle.client_model.specs.Client.{buffer_of as buffer_in, counted as counted_in, handed_out, held, new_client};
ghost use Rattle.client_model.specs.Hearing.{after_hearing, is_reply};
ghost use Rattle.client_model.specs.Issue.{issue_fault};
ghost use Rattle.client_core.specs.Answers.{heard_as, issue_state};
ghost use Rattle.wire_loop.specs.Driving.{NotIssued, line_of};
ghost use Rattle.wire_loop.specs.Printing.{printed_text};
ghost use Rattle.wire_loop.specs.Drives.{CameTo, CountsDrive, text_of};
ghost use Rattle.wire_loop.specs.Driven.{BrokeIssuing, BrokeTurning, CountsFruit, CountsWire, CountsWritten, HearsSteps, IsBetweenTurns, IsFruit, Issued, PollsOnce, ReceivesOnce, TakesSteps, TurnsOnce, answered_by, answered_text, fails, lines_by, printed_by};
ghost use Rattle.wire_loop.specs.Serves.{incoming, told_of};
ghost use Rattle.wire_loop.specs.Steps.{steps_left};

use call_text::issue;
use cl_outside::{Clock, Peer, Recv, Sent, Sink, Wire, write_all};
use cl_types::call::Call;
use cl_types::frame::IssueFault;
use cl_types::items::{Bytes, Items, NoMemory};
use cl_types::limits::{FRAME_ROOM, STALL_TURNS};
use cl_types::numbers::CallNo;
use cl_types::reply::{Answer, Value};
use cl_types::schedule::{CallText, Script};
use client_core::{Client, Heard, Poll};
use std::alloc::Global;
use transcript_text::{print_answered, print_not_issued};

/// Why driving a client ended.
#[derive(Clone, Copy, Debug, PartialEq, Eq)]
pub enum DriveEnd {
    /// Every call of the script was tried, and each one that was issued has ended.
    AllEnded,
    /// At this moment, in ticks, so many turns in a row were fruitless.
    Stalled { moment: u64, turns: u32 },
    /// A receive or a send failed.
    WireFault,
    /// A write failed.
    WriteFault,
    /// An allocation was refused.
    NoMemory,
}

/// Why a turn was broken off.
#[derive(Clone, Copy, Debug, PartialEq, Eq)]
pub enum TurnFault {
    /// A write failed: the sink's count of faults rose.
    WriteFault,
    /// An allocation was refused.
    NoMemory,
}

impl From<NoMemory> for TurnFault {
    ghost use Rattle.std.specs.Prelude.{◌≡◌};
    ghost use Rattle.wire_loop.specs.declared.driving.TurnFault.TheVariants.{NoMemory};

    ghost from_gives = { λ _ fault. fault ≡ NoMemory };

    fn from(_error: NoMemory) -> Self {
        TurnFault::NoMemory
    }
}

/// What came of a turn's poll.
#[derive(Clone, Copy, Debug, PartialEq, Eq)]
pub enum Fruit {
    /// The moment grew, the poll was not idle, or a reply was taken.
    Fruitful,
    /// None of these.
    Fruitless,
    /// A receive or a send failed.
    Failed,
}

/// Writes the line of a call that was not issued. `line` is the number of its line in the script.
fn write_not_issued<K: Sink>(
    alloc: Global,
    line: u32,
    fault: IssueFault,
    sink: &mut K,
) -> Result<(), TurnFault>
    ensures written { let text = printed_text (NotIssued line fault) in
        OnOk result (Added text (K.written sink.old) (K.written sink.new)) }
    ensures front { let text = printed_text (NotIssued line fault) in
        OnErr result (WroteFront text (K.written sink.old) (K.written sink.new)) }
    ensures counted { CountsWritten (K.faults sink.old) (K.faults sink.new) result }
{
    let mut text = Bytes::create(alloc);
    print_not_issued(line, fault, &mut text)?;
    if write_all(sink, text.as_slice()).is_err() {
        return Err(TurnFault::WriteFault);
    }
    Ok(())
}

/// Tries a call of the script: it is issued and its line noted, or a line says why it is not.
fn try_call<K: Sink>(
    alloc: Global,
    client: &mut Client,
    line: u32,
    text: &CallText,
    lines: &mut Items<u32>,
    sink: &mut K,
) -> Result<(), TurnFault>
    requires bounded { client.old.issued < 4294967295 }
    ensures client { let fault = issue_fault client.old (call_of text.now) in
        OnOk result (client.new ≡ issue_state client.old (call_of text.now) fault) }
    ensures lines { let fault = issue_fault client.old (call_of text.now) in
        OnOk result (lines.new ≡ lines_by line fault lines.old) }
    ensures written { let fault = issue_fault client.old (call_of text.now) in
        let text = text_of (printed_by line fault) in
        OnOk result (Added text (K.written sink.old) (K.written sink.new)) }
    ensures front { let fault = issue_fault client.old (call_of text.now) in
        let text = text_of (printed_by line fault) in
        OnErr result (WroteFront text (K.written sink.old) (K.written sink.new)) }
    ensures counted { CountsWritten (K.faults sink.old) (K.faults sink.new) result }
{
    match issue(alloc, client, text)? {
        None => {
            lines.push(line)?;
            Ok(())
        }
        Some(fault) => write_not_issued(alloc, line, fault, sink),
    }
}

/// Whether a call of the script is left, and the client may hold one more.
fn has_next(client: &Client, calls: &[(u32, CallText)], next: usize) -> bool
    ensures { result ≡ (nat_lt next (length calls.now) && nat_lt (held client.now) HELD_CALLS) }
{
    next < calls.len() && !client.is_full()
}

/// Tries the calls of the script from `next` on, while the client may hold one more.
fn issue_calls<K: Sink>(
    alloc: Global,
    client: &mut Client,
    calls: &[(u32, CallText)],
    next: &mut usize,
    lines: &mut Items<u32>,
    sink: &mut K,
) -> Result<(), TurnFault>
    requires between { IsBetweenTurns calls.now client.old next.old }
    ensures issued { OnOk result (Issued calls.now client.old client.new next.old next.new
        lines.old lines.new (K.written sink.old) (K.written sink.new)) }
    ensures broke { OnErr result (BrokeIssuing calls.now client.old next.old lines.old
        (K.written sink.old) (K.written sink.new)) }
    ensures between { OnOk result (IsBetweenTurns calls.now client.new next.new) }
    ensures steps { OnOk result (steps_left client.new (length calls.now - next.new)
        ≤ steps_left client.old (length calls.now - next.old)) }
    ensures counted { CountsWritten (K.faults sink.old) (K.faults sink.new) result }
{
    while has_next(client, calls, *next) {
        let (line, text) = &calls[*next];
        try_call(alloc, client, *line, text, lines, sink)?;
        *next += 1;
    }
    Ok(())
}

/// Hands bytes to the client, and returns whether they were a reply that it took.
fn hears_reply(client: &mut Client, bytes: &[u8]) -> bool
    ensures taken { result ≡ is_reply (heard_as client.old bytes.now) }
    ensures state { client.new ≡ after_hearing (heard_as client.old bytes.now) client.old }
{
    match client.hear(bytes) {
        Heard::Took(_part) => true,
        Heard::Ended(_part) => true,
        Heard::Late { .. } => false,
        Heard::Unfit { .. } => false,
        Heard::Other { .. } => false,
        Heard::Bad(_fault) => false,
    }
}

/// What came of an idle poll: whether the moment grew, or a reply was taken.
fn fruit_of(grew: bool, taken: bool) -> Fruit
    ensures fruit { IsFruit result (grew || taken) }
    ensures went { fails result ≡ false }
{
    if grew || taken {
        return Fruit::Fruitful;
    }
    Fruit::Fruitless
}

/// Receives once into `frame` after an idle poll, and hands what came to the client. `grew` says
/// whether the moment grew.
fn receive<W: Wire>(client: &mut Client, wire: &mut W, frame: &mut [u8], grew: bool) -> Fruit
    requires room { length frame.old ≡ FRAME_ROOM }
    ensures receives { ReceivesOnce client.old client.new grew
        (incoming (W.coming wire.old) (W.idles wire.old)) (incoming (W.coming wire.new) (W.idles wire.new)) result }
    ensures sent { W.sent wire.new ≡ W.sent wire.old }
    ensures bind { W.last_bind wire.new ≡ W.last_bind wire.old }
    ensures counted { CountsFruit (W.faults wire.old) (W.faults wire.new) result }
    ensures failed { result ≡ Fruit.Failed → client.new.ended ≡ client.old.ended }
    ensures issued { client.new.issued ≡ client.old.issued }
    ensures steps { (calls : ℕ) → HearsSteps grew result
        (steps_left client.old calls) (steps_left client.new calls) }
{
    match wire.recv(frame) {
        Recv::Got { len, from: _ } => {
            let taken = hears_reply(client, &frame[..len]);
            fruit_of(grew, taken)
        }
        Recv::Idle => fruit_of(grew, false),
        Recv::Failed => Fruit::Failed,
    }
}

/// Polls the client once at the moment `now`, in ticks, and sends the frame that it gives to
/// `node`, or receives once where the poll was idle. `frame` has room for either.
fn poll_once<W: Wire>(
    client: &mut Client,
    node: Peer,
    wire: &mut W,
    frame: &mut [u8],
    now: u64,
) -> Fruit
    requires moment { client.old.last ≤ now }
    requires room { length frame.old ≡ FRAME_ROOM }
    ensures polls { PollsOnce node client.old client.new now
        (incoming (W.coming wire.old) (W.idles wire.old)) (incoming (W.coming wire.new) (W.idles wire.new))
        (W.sent wire.old) (W.sent wire.new) result }
    ensures bind { W.last_bind wire.new ≡ W.last_bind wire.old }
    ensures counted { CountsFruit (W.faults wire.old) (W.faults wire.new) result }
    ensures failed { result ≡ Fruit.Failed → client.new.ended ≡ client.old.ended }
    ensures issued { client.new.issued ≡ client.old.issued }
    ensures steps { (calls : ℕ) → TakesSteps result
        (steps_left client.old calls) (steps_left client.new calls) }
{
    let grew = client.last() < now;
    match client.poll(now, frame) {
        Poll::Sent {
            len,
            part: _,
            id: _,
            orig: _,
            again: _,
        } => match wire.send(node, &frame[..len]) {
            Sent::Sent => Fruit::Fruitful,
            Sent::Failed => Fruit::Failed,
        },
        Poll::GaveUp(_part) => Fruit::Fruitful,
        Poll::Ended(_no) => Fruit::Fruitful,
        Poll::Idle => receive(client, wire, frame, grew),
    }
}

/// The line of a call in the script, and 0 where no such call was issued.
fn line_at(lines: &Items<u32>, no: CallNo) -> u32
    ensures { result ≡ line_of lines.now no.0 }
{
    let at = (no.0 as usize).saturating_sub(1);
    match lines.as_slice().get(at) {
        Some(line) => *line,
        None => 0,
    }
}

/// The buffer of a call, empty where the call has none.
fn buffer_of(call: &Call) -> &[u8]
    ensures { result.now ≡ buffer_in call.now }
{
    match call {
        Call::Read { buf, .. } | Call::Offload { buf, .. } => buf.as_slice(),
        Call::Alloc { .. }
        | Call::Free { .. }
        | Call::Write { .. }
        | Call::Atomic { .. }
        | Call::Fence => &[],
    }
}

/// The first `count` bytes, or all where there are fewer.
fn first_of(bytes: &[u8], count: usize) -> &[u8]
    ensures { result.now ≡ take count bytes.now }
{
    if bytes.len() <= count {
        return bytes;
    }
    &bytes[..count]
}

/// The bytes of a call's buffer that the answer's length counts, none for an answer that is no
/// length.
fn counted(answer: Answer, call: &Call) -> &[u8]
    ensures { result.now ≡ counted_in answer call.now }
{
    match answer {
        Answer::Done(Value::Len(count)) => first_of(buffer_of(call), count as usize),
        Answer::Done(Value::Nothing | Value::At(_) | Value::Word(_))
        | Answer::Refused(_)
        | Answer::TimedOut { .. } => &[],
    }
}

/// Writes the line of a call that ended. `line` is the number of its line in the script.
fn write_answered<K: Sink>(
    alloc: Global,
    line: u32,
    answer: Answer,
    call: Call,
    sink: &mut K,
) -> Result<(), TurnFault>
    ensures written { let text = answered_text line answer call in
        OnOk result (Added text (K.written sink.old) (K.written sink.new)) }
    ensures front { let text = answered_text line answer call in
        OnErr result (WroteFront text (K.written sink.old) (K.written sink.new)) }
    ensures counted { CountsWritten (K.faults sink.old) (K.faults sink.new) result }
{
    let mut text = Bytes::create(alloc);
    print_answered(line, answer, counted(answer, &call), &mut text)?;
    if write_all(sink, text.as_slice()).is_err() {
        return Err(TurnFault::WriteFault);
    }
    Ok(())
}

/// Hands out the calls that ended, in order, and writes the line of each.
fn hand_out<K: Sink>(
    alloc: Global,
    client: &mut Client,
    lines: &Items<u32>,
    sink: &mut K,
) -> Result<(), TurnFault>
    ensures written { let text = text_of (answered_by client.old lines.now) in
        OnOk result (Added text (K.written sink.old) (K.written sink.new)) }
    ensures client { OnOk result (client.new ≡ handed_out client.old) }
    ensures front { let text = text_of (answered_by client.old lines.now) in
        OnErr result (WroteFront text (K.written sink.old) (K.written sink.new)) }
    ensures counted { CountsWritten (K.faults sink.old) (K.faults sink.new) result }
{
    while let Some((no, answer, call)) = client.done() {
        write_answered(alloc, line_at(lines, no), answer, call, sink)?;
    }
    Ok(())
}

/// One turn: issues calls, takes the moment, polls once, and writes the lines of the calls that
/// ended.
fn drive_once<W: Wire, C: Clock, K: Sink>(
    alloc: Global,
    client: &mut Client,
    calls: &[(u32, CallText)],
    next: &mut usize,
    lines: &mut Items<u32>,
    node: Peer,
    wire: &mut W,
    clock: &mut C,
    sink: &mut K,
    frame: &mut [u8],
) -> Result<Fruit, TurnFault>
    requires room { length frame.old ≡ FRAME_ROOM }
    requires between { IsBetweenTurns calls.now client.old next.old }
    ensures turns { IfOk result (λ how. TurnsOnce calls.now node client.old client.new
        next.old next.new lines.old lines.new
        (told_of (incoming (W.coming wire.old) (W.idles wire.old)) (W.sent wire.old) (C.moments clock.old))
        (told_of (incoming (W.coming wire.new) (W.idles wire.new)) (W.sent wire.new) (C.moments clock.new))
        (K.written sink.old) (K.written sink.new) how) }
    ensures broke { OnErr result (BrokeTurning calls.now node client.old next.old lines.old
        (told_of (incoming (W.coming wire.old) (W.idles wire.old)) (W.sent wire.old) (C.moments clock.old))
        (told_of (incoming (W.coming wire.new) (W.idles wire.new)) (W.sent wire.new) (C.moments clock.new))
        (K.written sink.old) (K.written sink.new)) }
    ensures between { OnOk result (IsBetweenTurns calls.now client.new next.new) }
    ensures steps { IfOk result (λ how. TakesSteps how
        (steps_left client.old (length calls.now - next.old))
        (steps_left client.new (length calls.now - next.new))) }
    ensures bind { W.last_bind wire.new ≡ W.last_bind wire.old }
    ensures wire_counted { CountsWire (W.faults wire.old) (W.faults wire.new) result }
    ensures sink_counted { CountsWritten (K.faults sink.old) (K.faults sink.new) result }
{
    issue_calls(alloc, client, calls, next, lines, sink)?;
    let now = clock.now().max(client.last());
    let how = poll_once(client, node, wire, frame, now);
    if how == Fruit::Failed {
        return Ok(how);
    }
    hand_out(alloc, client, lines, sink)?;
    Ok(how)
}

/// Whether every call of the script was tried, and the client holds none.
fn is_done(client: &Client, calls: &[(u32, CallText)], next: usize) -> bool
    ensures { result ≡ (leb (length calls.now) next && held client.now == 0) }
{
    calls.len() <= next && client.is_empty()
}

/// Drives a new client through a script, until every call has ended, 1,000,000 turns in a row were
/// fruitless, the wire or the sink failed, or an allocation was refused.
///
/// Each turn issues calls while the client holds fewer than 256, takes the moment, and polls once.
/// It sends what the poll gave to `node`, or receives once where the poll was idle, whoever sent
/// the datagram, and it writes the lines of the calls that ended. A script has at most 200,000
/// calls.
///
/// After a write fault or a refused allocation all text of the turns before was written, and a
/// prefix of that turn's; the client is then of no use. The wire stays bound as it was.
pub fn drive<W: Wire, C: Clock, K: Sink>(
    alloc: Global,
    client: &mut Client,
    script: &Script,
    node: Peer,
    wire: &mut W,
    clock: &mut C,
    sink: &mut K,
) -> DriveEnd
    requires new { client.old ≡ record (new_client client.old.client client.old.pid) {
      sendings = client.old.sendings;
      last = client.old.last;
    } }
    requires few { length script.now.calls ≤ INPUT_LINES }
    ensures drives { CameTo client.old client.new script.now.calls node
        (told_of (incoming (W.coming wire.old) (W.idles wire.old)) (W.sent wire.old) (C.moments clock.old))
        (told_of (incoming (W.coming wire.new) (W.idles wire.new)) (W.sent wire.new) (C.moments clock.new))
        (K.written sink.old) (K.written sink.new) result }
    ensures counts { CountsDrive (W.faults wire.old) (W.faults wire.new)
        (K.faults sink.old) (K.faults sink.new) result }
    ensures bind { W.last_bind wire.new ≡ W.last_bind wire.old }
{
    let calls = script.calls.as_slice();
    let mut frame = [0u8; FRAME_ROOM];
    let mut next = 0;
    let mut lines = Items::create(alloc);
    let mut fruitless = 0;
    while fruitless < STALL_TURNS && !is_done(client, calls, next) {
        match drive_once(
            alloc, client, calls, &mut next, &mut lines, node, wire, clock, sink, &mut frame,
        ) {
            Ok(Fruit::Fruitful) => fruitless = 0,
            Ok(Fruit::Fruitless) => fruitless += 1,
            Ok(Fruit::Failed) => return DriveEnd::WireFault,
            Err(TurnFault::WriteFault) => return DriveEnd::WriteFault,
            Err(TurnFault::NoMemory) => return DriveEnd::NoMemory,
        }
    }
    if is_done(client, calls, next) {
        return DriveEnd::AllEnded;
    }
    DriveEnd::Stalled {
        moment: client.last(),
        turns: fruitless,
    }
}
