//! The line of an event.

ghost use Rattle.std.specs.Prelude.{◌≡◌, [], ◌∷◌, ◌++◌, OnOk, OnErr, codes};
ghost use Rattle.texts.specs.Text.{line_of, words};
ghost use Rattle.texts.specs.Texts.{answer_text, call_name, ending_text, numbered_text, value_text};
ghost use Rattle.transcript_text.specs.Fronts.{IsFront};
ghost use Rattle.transcript_text.specs.Statuses.{HasGoodStatus};

use crate::did::print_did;
use crate::names::refusal_name;
use crate::numbers::{print_call, print_number};
use crate::word::{Word, print_words};
use cl_types::items::{Bytes, NoMemory};
use cl_types::line::{EndedCall, EventLine};
use cl_types::reply::{Answer, Value};

/// A call that was done, with its value; `bytes` are those that the value counts.
fn print_done(done: Value, bytes: &[u8], to: &mut Bytes) -> Result<(), NoMemory>
    ensures printed { OnOk result
        (to.new ≡ to.old ++ words (codes "done" ∷ value_text done bytes.now)) }
    ensures front { OnErr result
        (IsFront to.old (words (codes "done" ∷ value_text done bytes.now)) to.new) }
{
    match done {
        Value::Nothing => to.append(b"done"),
        Value::At(addr) => print_words(&[Word::Plain("done"), Word::Address(addr)], to),
        Value::Word(n) => print_words(&[Word::Plain("done"), Word::Number(n)], to),
        Value::Len(_) => print_words(&[Word::Plain("done"), Word::HexOrDash(bytes)], to),
    }
}

/// What came of a call; `bytes` are those that its answer counts.
pub(crate) fn print_answer(answer: Answer, bytes: &[u8], to: &mut Bytes) -> Result<(), NoMemory>
    ensures printed { OnOk result (to.new ≡ to.old ++ answer_text answer bytes.now) }
    ensures front { OnErr result (IsFront to.old (answer_text answer bytes.now) to.new) }
{
    match answer {
        Answer::Done(done) => print_done(done, bytes, to),
        Answer::Refused(refusal) => print_words(
            &[Word::Plain("refused"), Word::Plain(refusal_name(refusal))],
            to,
        ),
        Answer::TimedOut { first_sent, now } => print_words(
            &[
                Word::Plain("timed out"),
                Word::Number(first_sent),
                Word::Number(now),
            ],
            to,
        ),
    }
}

/// The call that ended, behind what the event did, and the end of the line.
#[tactic(auto, using(crate::proofs::FrontLemmas::fronts))]
fn print_ended(ended: &EndedCall, to: &mut Bytes) -> Result<(), NoMemory>
    ensures printed { OnOk result (to.new ≡ to.old ++ ending_text (Some ended.now)) }
    ensures front { OnErr result (IsFront to.old (ending_text (Some ended.now)) to.new) }
{
    to.append(b"; answer ")?;
    print_call(ended.client, ended.call, to)?;
    to.append(b" ")?;
    print_answer(ended.answer, ended.bytes.as_slice(), to)?;
    to.append(b"\n")
}

/// How a line ends.
#[tactic(auto, using(crate::proofs::FrontLemmas::fronts))]
fn print_ending(ended: &Option<EndedCall>, to: &mut Bytes) -> Result<(), NoMemory>
    ensures printed { OnOk result (to.new ≡ to.old ++ ending_text ended.now) }
    ensures front { OnErr result (IsFront to.old (ending_text ended.now) to.new) }
{
    match ended {
        None => to.append(b"\n"),
        Some(ended) => print_ended(ended, to),
    }
}

/// Prints the line of an event behind what stands in `to`. `line` is the number of its line in the
/// schedule.
#[tactic(auto, using(crate::proofs::FrontLemmas::fronts))]
pub fn print_line(line: u32, event: &EventLine, to: &mut Bytes) -> Result<(), NoMemory>
    requires { HasGoodStatus event.now.did }
    ensures printed { OnOk result
        (to.new ≡ to.old ++ numbered_text line (event.now.did ∷ []) event.now.ended) }
    ensures front { OnErr result
        (IsFront to.old (numbered_text line (event.now.did ∷ []) event.now.ended) to.new) }
{
    print_number(u64::from(line), to)?;
    to.append(b" ")?;
    print_did(&event.did, to)?;
    print_ending(&event.ended, to)
}
