//! What the lines of a schedule say.

ghost use Rattle.std.specs.Prelude.{◌≡◌, ◌∷◌};
ghost use Rattle.texts.specs.Text.{words_in};
ghost use Rattle.texts.specs.Grammar.{by_word, in_call, said_by_words, said_in_form};
ghost use Rattle.schedule_text.specs.Calls.{call_after, form_of};
ghost use Rattle.schedule_text.specs.Lines.{Says, SaysCall, line_words, said_of};
ghost use Rattle.schedule_text.specs.Parts.{words_left};
ghost use Rattle.schedule_text.specs.Telling.{TellsBy};

use crate::arguments::{
    address_argument, client_argument, four, none, number_argument, one, pid_argument, three, two,
};
use crate::calls::{CallWord, call_by_word, call_word};
use crate::fault::LineFault;
use crate::parts::cut;
use crate::written::written;
use cl_types::config::OffloadConfig;
use cl_types::limits::MOST_TICKS;
use cl_types::numbers::{ClientNo, Pid};
use cl_types::schedule::{Event, What};
use std::alloc::Global;

/// The greatest number of a frame.
const LAST_FRAME: u64 = 4_294_967_295;

/// The greatest number of bytes that a peek shows.
const MOST_SHOWN: u64 = 1024;

/// The first word of a line.
#[derive(Clone, Copy)]
pub(crate) enum LineWord {
    Node,
    Offload,
    Client,
    Call,
    Poll,
    Deliver,
    Drop,
    Tick,
    Peek,
    Show,
    Stat,
    Garbage,
}

/// What a line says.
#[derive(Drop)]
pub(crate) enum Statement {
    Node {
        pages: u64,
        buckets: u64,
        ring: u64,
        retry: u64,
    },
    Offload(OffloadConfig),
    Client(ClientNo, Pid),
    Happens(Event),
}

/// The line that a first word begins.
pub(crate) fn line_word(word: &[u8]) -> Option<LineWord>
    ensures { result ≡ by_word word.now line_words }
{
    if word == b"node".as_slice() {
        Some(LineWord::Node)
    } else if word == b"offload".as_slice() {
        Some(LineWord::Offload)
    } else if word == b"client".as_slice() {
        Some(LineWord::Client)
    } else if word == b"call".as_slice() {
        Some(LineWord::Call)
    } else if word == b"poll".as_slice() {
        Some(LineWord::Poll)
    } else if word == b"deliver".as_slice() {
        Some(LineWord::Deliver)
    } else if word == b"drop".as_slice() {
        Some(LineWord::Drop)
    } else if word == b"tick".as_slice() {
        Some(LineWord::Tick)
    } else if word == b"peek".as_slice() {
        Some(LineWord::Peek)
    } else if word == b"show".as_slice() {
        Some(LineWord::Show)
    } else if word == b"stat".as_slice() {
        Some(LineWord::Stat)
    } else if word == b"garbage".as_slice() {
        Some(LineWord::Garbage)
    } else {
        None
    }
}

#[tactic(auto, using(crate::proofs::ArgumentLemmas::arguments_fault))]
fn node_line(rest: Option<&[u8]>) -> Result<Statement, LineFault>
    ensures { Says LineWord.Node rest.entry result }
{
    let (pages, buckets, ring, retry) = four(rest, None)?;
    let pages = number_argument(0, u64::MAX, pages)?;
    let buckets = number_argument(0, u64::MAX, buckets)?;
    let ring = number_argument(0, u64::MAX, ring)?;
    let retry = number_argument(0, u64::MAX, retry)?;
    Ok(Statement::Node {
        pages,
        buckets,
        ring,
        retry,
    })
}

#[tactic(auto, using(crate::proofs::ArgumentLemmas::arguments_fault))]
fn offload_line(rest: Option<&[u8]>) -> Result<Statement, LineFault>
    ensures { Says LineWord.Offload rest.entry result }
{
    let Some(words) = rest else {
        return Err(LineFault::Bad(What::MissingWord));
    };
    let (kind, rest) = cut(words, b' ');
    if kind != b"kv".as_slice() {
        return Err(LineFault::Bad(What::UnknownWord));
    }
    let records = number_argument(0, u64::MAX, one(rest, None)?)?;
    Ok(Statement::Offload(OffloadConfig::Kv { records }))
}

#[tactic(auto, using(crate::proofs::ArgumentLemmas::arguments_fault))]
fn client_line(rest: Option<&[u8]>) -> Result<Statement, LineFault>
    ensures { Says LineWord.Client rest.entry result }
{
    let (number, pid) = two(rest, None)?;
    let number = client_argument(number)?;
    let pid = pid_argument(pid)?;
    Ok(Statement::Client(number, pid))
}

/// A call of a client that has a good number.
fn call_of_client(
    alloc: Global,
    client: ClientNo,
    word: CallWord,
    rest: Option<&[u8]>,
) -> Result<Statement, LineFault>
    ensures { SaysCall (Ok client) (call_after None (form_of word) (words_left rest.entry)) result }
{
    let call = call_by_word(alloc, word, None, rest)?;
    Ok(Statement::Happens(Event::Call { client, call }))
}

/// A call behind a bad number: that it is bad is told where the number of words is right.
fn call_of_nobody(
    alloc: Global,
    what: What,
    word: CallWord,
    rest: Option<&[u8]>,
) -> Result<Statement, LineFault>
    ensures { SaysCall (Err what)
        (call_after (Some what) (form_of word) (words_left rest.entry)) result }
{
    call_by_word(alloc, word, Some(what), rest)?;
    Err(LineFault::Bad(what))
}

/// A call, by the words that name its client and its kind.
#[tactic(auto, using(crate::proofs::CallLemmas::said_in_good, crate::proofs::CallLemmas::said_in_bad, crate::proofs::CallLemmas::said_in_none))]
fn named_call<'a>(
    alloc: Global,
    number: &'a [u8],
    name: &'a [u8],
    rest: Option<&'a [u8]>,
) -> Result<Statement, LineFault>
    ensures { TellsBy said_of result
        (said_in_form (in_call (number.now ∷ name.now ∷ words_left rest.entry))) }
{
    let Some(word) = call_word(name) else {
        return Err(LineFault::Bad(What::UnknownWord));
    };
    match client_argument(number) {
        Ok(client) => call_of_client(alloc, client, word, rest),
        Err(what) => call_of_nobody(alloc, what, word, rest),
    }
}

fn call_line(alloc: Global, rest: Option<&[u8]>) -> Result<Statement, LineFault>
    ensures { Says LineWord.Call rest.entry result }
{
    let Some(words) = rest else {
        return Err(LineFault::Bad(What::MissingWord));
    };
    let (number, rest) = cut(words, b' ');
    let Some(words) = rest else {
        return Err(LineFault::Bad(What::MissingWord));
    };
    let (name, rest) = cut(words, b' ');
    named_call(alloc, number, name, rest)
}

#[tactic(auto, using(crate::proofs::ArgumentLemmas::arguments_fault))]
fn poll_line(rest: Option<&[u8]>) -> Result<Statement, LineFault>
    ensures { Says LineWord.Poll rest.entry result }
{
    let client = client_argument(one(rest, None)?)?;
    Ok(Statement::Happens(Event::Poll { client }))
}

#[tactic(auto, using(crate::proofs::ArgumentLemmas::arguments_fault))]
fn deliver_line(rest: Option<&[u8]>) -> Result<Statement, LineFault>
    ensures { Says LineWord.Deliver rest.entry result }
{
    let Some(words) = rest else {
        return Err(LineFault::Bad(What::MissingWord));
    };
    let (word, behind) = cut(words, b' ');
    if word == b"next".as_slice() {
        none(behind, None)?;
        return Ok(Statement::Happens(Event::DeliverNext));
    }
    let frame = number_argument(1, LAST_FRAME, one(Some(words), None)?)? as u32;
    Ok(Statement::Happens(Event::Deliver { frame }))
}

#[tactic(auto, using(crate::proofs::ArgumentLemmas::arguments_fault))]
fn drop_line(rest: Option<&[u8]>) -> Result<Statement, LineFault>
    ensures { Says LineWord.Drop rest.entry result }
{
    none(rest, None)?;
    Ok(Statement::Happens(Event::Drop))
}

#[tactic(auto, using(crate::proofs::ArgumentLemmas::arguments_fault))]
fn tick_line(rest: Option<&[u8]>) -> Result<Statement, LineFault>
    ensures { Says LineWord.Tick rest.entry result }
{
    let by = number_argument(1, MOST_TICKS, one(rest, None)?)?;
    Ok(Statement::Happens(Event::Tick { by }))
}

#[tactic(auto, using(crate::proofs::ArgumentLemmas::arguments_fault))]
fn peek_line(rest: Option<&[u8]>) -> Result<Statement, LineFault>
    ensures { Says LineWord.Peek rest.entry result }
{
    let (pid, addr, len) = three(rest, None)?;
    let pid = pid_argument(pid)?;
    let addr = address_argument(addr)?;
    let len = number_argument(1, MOST_SHOWN, len)? as u16;
    Ok(Statement::Happens(Event::Peek { pid, addr, len }))
}

#[tactic(auto, using(crate::proofs::ArgumentLemmas::arguments_fault))]
fn show_line(rest: Option<&[u8]>) -> Result<Statement, LineFault>
    ensures { Says LineWord.Show rest.entry result }
{
    let frame = number_argument(1, LAST_FRAME, one(rest, None)?)? as u32;
    Ok(Statement::Happens(Event::Show { frame }))
}

#[tactic(auto, using(crate::proofs::ArgumentLemmas::arguments_fault))]
fn stat_line(rest: Option<&[u8]>) -> Result<Statement, LineFault>
    ensures { Says LineWord.Stat rest.entry result }
{
    none(rest, None)?;
    Ok(Statement::Happens(Event::Stat))
}

#[tactic(auto, using(crate::proofs::ArgumentLemmas::arguments_fault))]
fn garbage_line(alloc: Global, rest: Option<&[u8]>) -> Result<Statement, LineFault>
    ensures { Says LineWord.Garbage rest.entry result }
{
    let Some(words) = rest else {
        return Err(LineFault::Bad(What::MissingWord));
    };
    let (word, behind) = cut(words, b' ');
    if word == b"node".as_slice() {
        let bytes = written(alloc, one(behind, None)?)?;
        return Ok(Statement::Happens(Event::GarbageNode { bytes }));
    }
    let (client, bytes) = two(Some(words), None)?;
    let client = client_argument(client)?;
    let bytes = written(alloc, bytes)?;
    Ok(Statement::Happens(Event::GarbageClient { client, bytes }))
}

/// What the line of a first word says, with the words behind it.
fn said_by_word(alloc: Global, word: LineWord, rest: Option<&[u8]>) -> Result<Statement, LineFault>
    ensures { Says word rest.entry result }
{
    match word {
        LineWord::Node => node_line(rest),
        LineWord::Offload => offload_line(rest),
        LineWord::Client => client_line(rest),
        LineWord::Call => call_line(alloc, rest),
        LineWord::Poll => poll_line(rest),
        LineWord::Deliver => deliver_line(rest),
        LineWord::Drop => drop_line(rest),
        LineWord::Tick => tick_line(rest),
        LineWord::Peek => peek_line(rest),
        LineWord::Show => show_line(rest),
        LineWord::Stat => stat_line(rest),
        LineWord::Garbage => garbage_line(alloc, rest),
    }
}

/// What a line says.
#[tactic(auto, using(crate::proofs::CallLemmas::line_forms_by_word))]
pub(crate) fn said_in(alloc: Global, line: &[u8]) -> Result<Statement, LineFault>
    ensures { TellsBy said_of result (said_by_words (words_in line.now)) }
{
    let (word, rest) = cut(line, b' ');
    match line_word(word) {
        None => Err(LineFault::Bad(What::UnknownWord)),
        Some(word) => said_by_word(alloc, word, rest),
    }
}
