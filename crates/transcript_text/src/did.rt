//! What an event did, in words.

ghost use Rattle.std.specs.Prelude.{◌≡◌, ◌≤◌, [], ◌∷◌, ◌++◌, OnOk, OnErr, decimal};
ghost use Rattle.texts.specs.Text.{words};
ghost use Rattle.texts.specs.Texts.{bad_text, did_text};
ghost use Rattle.transcript_text.specs.Fronts.{IsFront};
ghost use Rattle.transcript_text.specs.Statuses.{HasGoodStatus};

use crate::names::{fault_name, field_name, how_name, status_name};
use crate::word::{Word, print_words};
use cl_types::frame::{BadFrame, How, IssueFault};
use cl_types::items::{Bytes, NoMemory};
use cl_types::line::Did;
use cl_types::numbers::{CallNo, ClientNo};
use cl_types::reply::Part;

/// A part that was sent for the first time.
fn print_sent(
    frame: u32,
    client: ClientNo,
    part: Part,
    id: u64,
    to: &mut Bytes,
) -> Result<(), NoMemory>
    ensures printed { OnOk result (to.new ≡ to.old ++ did_text (Did.Sent frame client part id)) }
    ensures front { OnErr result
        (IsFront to.old (did_text (Did.Sent frame client part id)) to.new) }
{
    print_words(
        &[
            Word::Plain("sent"),
            Word::Number(u64::from(frame)),
            Word::Part(client, part),
            Word::Plain("id"),
            Word::Number(id),
        ],
        to,
    )
}

/// A part that was sent again.
fn print_again(
    frame: u32,
    client: ClientNo,
    part: Part,
    id: u64,
    orig: u64,
    to: &mut Bytes,
) -> Result<(), NoMemory>
    ensures printed { OnOk result
        (to.new ≡ to.old ++ did_text (Did.Again frame client part id orig)) }
    ensures front { OnErr result
        (IsFront to.old (did_text (Did.Again frame client part id orig)) to.new) }
{
    print_words(
        &[
            Word::Plain("again"),
            Word::Number(u64::from(frame)),
            Word::Part(client, part),
            Word::Plain("id"),
            Word::Number(id),
            Word::Plain("orig"),
            Word::Number(orig),
        ],
        to,
    )
}

/// A frame that the node answered.
fn print_handled(
    frame: u32,
    client: ClientNo,
    part: Part,
    how: How,
    status: u8,
    reply: u32,
    to: &mut Bytes,
) -> Result<(), NoMemory>
    requires { status ≤ 8 }
    ensures printed { OnOk result
        (to.new ≡ to.old ++ did_text (Did.Handled frame client part how status reply)) }
    ensures front { OnErr result
        (IsFront to.old (did_text (Did.Handled frame client part how status reply)) to.new) }
{
    print_words(
        &[
            Word::Plain(how_name(how)),
            Word::Number(u64::from(frame)),
            Word::Part(client, part),
            Word::Plain(status_name(status)),
            Word::Plain("reply"),
            Word::Number(u64::from(reply)),
        ],
        to,
    )
}

/// A frame that the node has no room for.
fn print_busy(
    frame: u32,
    client: ClientNo,
    part: Part,
    oldest: u64,
    now: u64,
    to: &mut Bytes,
) -> Result<(), NoMemory>
    ensures printed { OnOk result
        (to.new ≡ to.old ++ did_text (Did.Busy frame client part oldest now)) }
    ensures front { OnErr result
        (IsFront to.old (did_text (Did.Busy frame client part oldest now)) to.new) }
{
    print_words(
        &[
            Word::Plain("busy"),
            Word::Number(u64::from(frame)),
            Word::Part(client, part),
            Word::Plain("oldest"),
            Word::Number(oldest),
            Word::Plain("now"),
            Word::Number(now),
        ],
        to,
    )
}

/// Words, and then a number.
fn print_told(told: &str, n: u64, to: &mut Bytes) -> Result<(), NoMemory>
    ensures printed { OnOk result (to.new ≡ to.old ++ words (told.now ∷ decimal n ∷ [])) }
    ensures front { OnErr result (IsFront to.old (words (told.now ∷ decimal n ∷ [])) to.new) }
{
    print_words(&[Word::Plain(told), Word::Number(n)], to)
}

/// Words, and then how many bytes there are, and how many there should be.
fn print_sizes(told: &str, have: usize, need: usize, to: &mut Bytes) -> Result<(), NoMemory>
    ensures printed { OnOk result
        (to.new ≡ to.old ++ words (told.now ∷ decimal have ∷ decimal need ∷ [])) }
    ensures front { OnErr result
        (IsFront to.old (words (told.now ∷ decimal have ∷ decimal need ∷ [])) to.new) }
{
    print_words(
        &[
            Word::Plain(told),
            Word::Number(have as u64),
            Word::Number(need as u64),
        ],
        to,
    )
}

/// Words and a number, twice.
fn print_both<'a>(
    told: &'a str,
    n: u64,
    then: &'a str,
    m: u64,
    to: &mut Bytes,
) -> Result<(), NoMemory>
    ensures printed { OnOk result
        (to.new ≡ to.old ++ words (told.now ∷ decimal n ∷ then.now ∷ decimal m ∷ [])) }
    ensures front { OnErr result
        (IsFront to.old (words (told.now ∷ decimal n ∷ then.now ∷ decimal m ∷ [])) to.new) }
{
    print_words(
        &[
            Word::Plain(told),
            Word::Number(n),
            Word::Plain(then),
            Word::Number(m),
        ],
        to,
    )
}

/// A call that the client took.
fn print_issued(client: ClientNo, call: CallNo, to: &mut Bytes) -> Result<(), NoMemory>
    ensures printed { OnOk result (to.new ≡ to.old ++ did_text (Did.Issued client call)) }
    ensures front { OnErr result (IsFront to.old (did_text (Did.Issued client call)) to.new) }
{
    print_words(&[Word::Plain("issued"), Word::Call(client, call)], to)
}

/// A call that the client didn't take.
fn print_not_issued(fault: IssueFault, to: &mut Bytes) -> Result<(), NoMemory>
    ensures printed { OnOk result (to.new ≡ to.old ++ did_text (Did.NotIssued fault)) }
    ensures front { OnErr result (IsFront to.old (did_text (Did.NotIssued fault)) to.new) }
{
    print_words(
        &[Word::Plain("not issued"), Word::Plain(fault_name(fault))],
        to,
    )
}

/// A part that was given up.
fn print_gave_up(client: ClientNo, part: Part, to: &mut Bytes) -> Result<(), NoMemory>
    ensures printed { OnOk result (to.new ≡ to.old ++ did_text (Did.GaveUp client part)) }
    ensures front { OnErr result (IsFront to.old (did_text (Did.GaveUp client part)) to.new) }
{
    print_words(&[Word::Plain("gave up"), Word::Part(client, part)], to)
}

/// A reply that the client took.
fn print_took(frame: u32, client: ClientNo, part: Part, to: &mut Bytes) -> Result<(), NoMemory>
    ensures printed { OnOk result (to.new ≡ to.old ++ did_text (Did.Took frame client part)) }
    ensures front { OnErr result (IsFront to.old (did_text (Did.Took frame client part)) to.new) }
{
    print_words(
        &[
            Word::Plain("took"),
            Word::Number(u64::from(frame)),
            Word::Part(client, part),
        ],
        to,
    )
}

/// The bytes of a frame.
fn print_shown(frame: u32, bytes: &Bytes, to: &mut Bytes) -> Result<(), NoMemory>
    ensures printed { OnOk result (to.new ≡ to.old ++ did_text (Did.Shown frame bytes.now)) }
    ensures front { OnErr result (IsFront to.old (did_text (Did.Shown frame bytes.now)) to.new) }
{
    print_words(
        &[
            Word::Plain("show"),
            Word::Number(u64::from(frame)),
            Word::Hex(bytes.as_slice()),
        ],
        to,
    )
}

/// A frame that isn't there.
fn print_shown_absent(frame: u32, to: &mut Bytes) -> Result<(), NoMemory>
    ensures printed { OnOk result (to.new ≡ to.old ++ did_text (Did.ShownAbsent frame)) }
    ensures front { OnErr result (IsFront to.old (did_text (Did.ShownAbsent frame)) to.new) }
{
    print_words(
        &[
            Word::Plain("show"),
            Word::Number(u64::from(frame)),
            Word::Plain("absent"),
        ],
        to,
    )
}

/// The bytes of the node's memory.
fn print_peeked(bytes: &Bytes, to: &mut Bytes) -> Result<(), NoMemory>
    ensures printed { OnOk result (to.new ≡ to.old ++ did_text (Did.Peeked bytes.now)) }
    ensures front { OnErr result (IsFront to.old (did_text (Did.Peeked bytes.now)) to.new) }
{
    print_words(&[Word::Plain("peek"), Word::Hex(bytes.as_slice())], to)
}

/// Bytes that spell no frame.
fn print_bad(fault: BadFrame, to: &mut Bytes) -> Result<(), NoMemory>
    ensures printed { OnOk result (to.new ≡ to.old ++ bad_text fault) }
    ensures front { OnErr result (IsFront to.old (bad_text fault) to.new) }
{
    match fault {
        BadFrame::Short { have, need } => print_sizes("bad short", have, need, to),
        BadFrame::Magic => to.append(b"bad magic"),
        BadFrame::Version(v) => print_told("bad version", u64::from(v), to),
        BadFrame::Kind(kind) => print_told("bad kind", u64::from(kind), to),
        BadFrame::Long { have, need } => print_sizes("bad long", have, need, to),
        BadFrame::Field(field) => {
            print_words(
                &[Word::Plain("bad field"), Word::Plain(field_name(field))],
                to,
            )
        }
    }
}

/// What an event did.
pub(crate) fn print_did(did: &Did, to: &mut Bytes) -> Result<(), NoMemory>
    requires { HasGoodStatus did.now }
    ensures printed { OnOk result (to.new ≡ to.old ++ did_text did.now) }
    ensures front { OnErr result (IsFront to.old (did_text did.now) to.new) }
{
    match did {
        Did::Issued { client, call } => print_issued(*client, *call, to),
        Did::NotIssued { fault } => print_not_issued(*fault, to),
        Did::Sent {
            frame,
            client,
            part,
            id,
        } => print_sent(*frame, *client, *part, *id, to),
        Did::Again {
            frame,
            client,
            part,
            id,
            orig,
        } => print_again(*frame, *client, *part, *id, *orig, to),
        Did::GaveUp { client, part } => print_gave_up(*client, *part, to),
        Did::FenceEnded => to.append(b"ended"),
        Did::Idle => to.append(b"idle"),
        Did::Handled {
            frame,
            client,
            part,
            how,
            status,
            reply,
        } => print_handled(*frame, *client, *part, *how, *status, *reply, to),
        Did::Busy {
            frame,
            client,
            part,
            oldest,
            now,
        } => print_busy(*frame, *client, *part, *oldest, *now, to),
        Did::Took {
            frame,
            client,
            part,
        } => print_took(*frame, *client, *part, to),
        Did::Late { frame, orig } => print_both("late", u64::from(*frame), "orig", *orig, to),
        Did::Expired { frame, sent } => print_both("expired", u64::from(*frame), "sent", *sent, to),
        Did::Absent { frame } => print_told("absent", u64::from(*frame), to),
        Did::NoFrame => to.append(b"none"),
        Did::Dropped { frame } => print_told("dropped", u64::from(*frame), to),
        Did::Now { moment } => print_told("now", *moment, to),
        Did::Peeked { bytes } => print_peeked(bytes, to),
        Did::PeekNoMapping => to.append(b"peek no mapping"),
        Did::Shown { frame, bytes } => print_shown(*frame, bytes, to),
        Did::ShownAbsent { frame } => print_shown_absent(*frame, to),
        Did::Stat { used, retained } => print_both(
            "stat used",
            u64::from(*used),
            "retained",
            u64::from(*retained),
            to,
        ),
        Did::Bad { fault } => print_bad(*fault, to),
    }
}
