//! `Gather`: what came of the parts of one call, and the answer that it makes.

ghost use Rattle.std.specs.Prelude.{◌≡◌, ◌<◌, ◌≤◌, List, length, replicate, IfNone, IfSome, None, Option, option_map, slice_get, slice_set};
ghost use Rattle.std.specs.List.{list_any};
ghost use Rattle.cl_types.specs.Requests.{reply_of};
ghost use Rattle.cl_types.specs.declared.call.Call.{Call};
ghost use Rattle.client_model.specs.Client.{emptied, every};
ghost use Rattle.client_model.specs.Cut.{Ending, Replied, GivenUp, combine, cut, handed_back};
ghost use Rattle.frame_model.specs.Faults.{first_fault};
ghost use Rattle.client_model.specs.Issue.{call_faults};
ghost use Rattle.call_cut.specs.Came.{came};
ghost use Rattle.call_cut.specs.Taking.{Gathers, TakesFor, outcome_of, call_with};
ghost use Rattle.call_cut.specs.Ends.{is_waiting, given_up_among, refusal_among, failure_among, only_value_of, got_of, value_of, with_rest_cleared};

use crate::buffer::{clear, put_part, zero_from};
use crate::outcome::PartOutcome;
use cl_types::call::Call;
use cl_types::limits::MOST_PARTS;
use cl_types::reply::{Answer, ReplyRef, Value};
use std::marker::Model;

/// What came of the parts of one call.
#[derive(Drop)]
pub struct Gather {
    // Only the first `parts` count.
    outcomes: [PartOutcome; MOST_PARTS],
    parts: u32,
}

impl Model for Gather {
    ghost use Rattle.std.specs.Prelude.{List, take, ◌≤◌};
    ghost use Rattle.call_cut.specs.declared.outcome.PartOutcome.{PartOutcome};
    ghost use Rattle.cl_types.specs.declared.limits.TheConstants.{MOST_PARTS};

    ghost Value = { List PartOutcome };

    ghost view = { λ g. take g.parts g.outcomes };

    ghost invariant = { λ g. g.parts ≤ MOST_PARTS };
}

impl Gather {
    /// For a call of `parts` parts: nothing has come of any.
    pub fn create(parts: u32) -> Gather
        requires { parts ≤ MOST_PARTS }
        ensures size { length result ≡ parts }
        ensures waiting { (k : Call) → length (cut k) ≡ parts
            → came result k ≡ replicate parts None }
        ensures gathered { (k : Call) → first_fault (call_faults k) ≡ None → length (cut k) ≡ parts
            → Gathers result k }
    {
        Gather {
            outcomes: [PartOutcome::Waiting; MOST_PARTS],
            parts,
        }
    }

    /// Takes the reply to part `i`. Its bytes go into the call's buffer.
    pub fn take(&mut self, call: &mut Call, i: u32, reply: &ReplyRef)
        requires gathered { Gathers self.old call.old }
        requires fits { TakesFor call.old i (reply_of reply.now) }
        ensures came { came self.new call.new
            ≡ slice_set (came self.old call.old) i (Some (Replied (reply_of reply.now))) }
        ensures call { emptied call.new ≡ emptied call.old }
        ensures gathered { Gathers self.new call.new }
    {
        self.outcomes[i as usize] = kept(call, i, reply);
    }

    /// Takes that part `i` was given up. Both moments are in ticks.
    pub fn give_up(&mut self, i: u32, first_sent: u64, now: u64)
        requires { i < length self.old }
        ensures came { (k : Call)
            → came self.new k ≡ slice_set (came self.old k) i (Some (GivenUp first_sent now)) }
        ensures gathered { (k : Call) → Gathers self.old k → Gathers self.new k }
    {
        self.outcomes[i as usize] = PartOutcome::GivenUp { first_sent, now };
    }

    /// The answer, with the call's buffer filled for it. `None` comes exactly where of some part
    /// nothing has come yet.
    pub fn answer(&mut self, call: &mut Call) -> Option<Answer>
        requires { Gathers self.old call.old }
        ensures answer { result
            ≡ option_map (combine (emptied call.old)) (every (came self.old call.old)) }
        ensures filled { IfSome (every (came self.old call.old))
            (λ endings. call.new ≡ handed_back (emptied call.old) endings) }
        ensures call { IfNone result (call.new ≡ call.old) }
        ensures unchanged { self.new ≡ self.old }
    {
        let outcomes = &self.outcomes[..self.parts as usize];
        if is_any_waiting(outcomes) {
            return None;
        }
        let Some(fault) = failure(outcomes) else {
            return Some(Answer::Done(finish(outcomes, call)));
        };
        clear(call);
        Some(fault)
    }
}

/// The outcome of a part by its reply, whose bytes are put into the call's buffer.
fn kept(call: &mut Call, i: u32, reply: &ReplyRef) -> PartOutcome
    requires good { first_fault (call_faults call.old) ≡ None }
    requires fits { TakesFor call.old i (reply_of reply.now) }
    ensures outcome { result ≡ outcome_of (reply_of reply.now) }
    ensures call { call.new ≡ call_with i (reply_of reply.now) call.old }
{
    match *reply {
        ReplyRef::Refused(refusal) => PartOutcome::Refused(refusal),
        ReplyRef::Nothing => PartOutcome::Nothing,
        ReplyRef::At(addr) => PartOutcome::At(addr),
        ReplyRef::Word(word) => PartOutcome::Word(word),
        ReplyRef::Got(bytes) => {
            put_part(call, i, bytes);
            PartOutcome::Got(bytes.len() as u32)
        }
    }
}

/// Whether of some part nothing has come yet.
fn is_any_waiting(outcomes: &[PartOutcome]) -> bool
    ensures { result ≡ list_any is_waiting outcomes.now }
{
    outcomes.iter().any(|outcome| is_still(outcome))
}

/// Whether nothing has come yet.
fn is_still(outcome: &PartOutcome) -> bool
    ensures { result ≡ is_waiting outcome.now }
{
    match outcome {
        PartOutcome::Waiting => true,
        _ => false,
    }
}

/// The answer where a part was given up, or else where one was refused.
fn failure(outcomes: &[PartOutcome]) -> Option<Answer>
    ensures { result ≡ failure_among outcomes.now }
{
    let given_up = first_given_up(outcomes);
    if given_up.is_some() {
        return given_up;
    }
    first_refusal(outcomes)
}

/// The answer by the least part that was given up.
fn first_given_up(outcomes: &[PartOutcome]) -> Option<Answer>
    ensures { result ≡ given_up_among outcomes.now }
{
    for outcome in outcomes {
        if let PartOutcome::GivenUp { first_sent, now } = *outcome {
            return Some(Answer::TimedOut { first_sent, now });
        }
    }
    None
}

/// The answer by the least part that was refused.
fn first_refusal(outcomes: &[PartOutcome]) -> Option<Answer>
    ensures { result ≡ refusal_among outcomes.now }
{
    for outcome in outcomes {
        if let PartOutcome::Refused(refusal) = *outcome {
            return Some(Answer::Refused(refusal));
        }
    }
    None
}

/// The value of a call whose parts are all done. What an Offload left of the buffer is made zeros.
fn finish(outcomes: &[PartOutcome], call: &mut Call) -> Value
    requires gathered { Gathers outcomes.now call.old }
    ensures value { result ≡ value_of outcomes.now call.old }
    ensures call { call.new ≡ with_rest_cleared outcomes.now call.old }
{
    match call {
        Call::Read { buf, .. } => Value::Len(buf.as_slice().len() as u32),
        Call::Offload { buf, .. } => {
            let len = got(outcomes);
            zero_from(buf, len);
            Value::Len(len)
        }
        Call::Alloc { .. }
        | Call::Free { .. }
        | Call::Write { .. }
        | Call::Atomic { .. }
        | Call::Fence => only_value(outcomes),
    }
}

/// How many bytes came of the first part.
fn got(outcomes: &[PartOutcome]) -> u32
    ensures { result ≡ got_of outcomes.now }
{
    match outcomes {
        [PartOutcome::Got(len), ..] => *len,
        _ => 0,
    }
}

/// The value that came of the first part.
fn only_value(outcomes: &[PartOutcome]) -> Value
    ensures { result ≡ only_value_of outcomes.now }
{
    match outcomes {
        [PartOutcome::At(addr), ..] => Value::At(*addr),
        [PartOutcome::Word(word), ..] => Value::Word(*word),
        _ => Value::Nothing,
    }
}
