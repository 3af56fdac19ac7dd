//! The line of an entry of the history, read back.

ghost use Rattle.std.specs.Prelude.{◌≡◌, ◌-◌, ◌==◌, ◌++◌, IfOk, Some, drop, length, option_map, take};
ghost use Rattle.std.specs.List.{slice_split};
ghost use Rattle.schedule_text.specs.Parts.{words_left};
ghost use Rattle.texts.specs.Text.{is_text, line_end, words_in};
ghost use Rattle.texts.specs.Texts.{entry_text};
ghost use Rattle.transcript_text.specs.HistoryGrammar.{around_equals, entry_after, entry_at, entry_in, entry_in_words, head_in, part_in};

use crate::entry::print_entry;
use crate::reply_words::reply_in;
use crate::request_words::request_in;
use cl_types::items::{Bytes, NoMemory};
use cl_types::line::Entry;
use cl_types::numbers::{CallNo, ClientNo, Pid, try_pid};
use cl_types::reply::{Part, Reply};
use cl_types::request::Request;
use schedule_text::numbers::number;
use schedule_text::parts::cut;
use std::alloc::Global;

/// The greatest number of 16 bits.
const LAST_U16: u64 = 65_535;

/// The greatest number of 32 bits.
const LAST_U32: u64 = 4_294_967_295;

/// What precedes an entry's request.
#[derive(Clone, Copy)]
struct EntryHead {
    line: u32,
    position: u8,
    client: ClientNo,
    part: Part,
}

// A client and its part, C.N.P.
fn part_in(name: &[u8]) -> Option<(ClientNo, Part)>
    ensures { result ≡ part_in (slice_split (λ b. b == 46) name.now) }
{
    let (client, rest) = cut(name, b'.');
    let (call, rest) = cut(rest?, b'.');
    let (part, rest) = cut(rest?, b'.');
    if rest.is_some() {
        return None;
    }
    let client = ClientNo(number(0, LAST_U16, client)? as u16);
    let call = CallNo(number(0, LAST_U32, call)? as u32);
    let part = number(0, LAST_U16, part)? as u16;
    Some((client, Part { call, part }))
}

fn head_in(line: &[u8], position: &[u8], name: &[u8]) -> Option<EntryHead>
    ensures { result ≡ head_in line.now position.now name.now }
{
    let line = number(0, LAST_U32, line)? as u32;
    let position = number(0, 0, position)? as u8;
    let (client, part) = part_in(name)?;
    Some(EntryHead {
        line,
        position,
        client,
        part,
    })
}

// The process of number 1.
#[tactic(auto, using(crate::proofs::EntryLemmas::one_is_a_pid))]
fn first_pid() -> Option<Pid>
    ensures { result ≡ Some 1 }
{
    try_pid(1)
}

// The entry of these pieces, of process 1.
fn entry_at(head: EntryHead, request: Request, reply: Reply) -> Option<Entry>
    ensures { result ≡ Some (entry_at head request reply) }
{
    Some(Entry {
        line: head.line,
        position: head.position,
        client: head.client,
        pid: first_pid()?,
        part: head.part,
        request,
        reply,
    })
}

// The entry with this head, with the request of what is left of the words, and the reply of a text.
fn entry_after(
    alloc: Global,
    rest: Option<&[u8]>,
    reply: &[u8],
    head: EntryHead,
) -> Result<Option<Entry>, NoMemory>
    ensures { IfOk result (λ entry. entry ≡ entry_after (words_left rest.entry) reply.now head) }
{
    let Some(words) = rest else {
        return Ok(None);
    };
    let Some(request) = request_in(alloc, words)? else {
        return Ok(None);
    };
    let Some(reply) = reply_in(alloc, &request, reply)? else {
        return Ok(None);
    };
    Ok(entry_at(head, request, reply))
}

// The entry of the words before an equals sign, and of the reply's text.
fn entry_in_words(alloc: Global, words: &[u8], reply: &[u8]) -> Result<Option<Entry>, NoMemory>
    ensures { IfOk result (λ entry. entry ≡ entry_in_words (words_in words.now) reply.now) }
{
    let (_, rest) = cut(words, b' ');
    let Some(rest) = rest else { return Ok(None) };
    let (line, rest) = cut(rest, b' ');
    let Some(rest) = rest else { return Ok(None) };
    let (position, rest) = cut(rest, b' ');
    let Some(rest) = rest else { return Ok(None) };
    let (name, rest) = cut(rest, b' ');
    match head_in(line, position, name) {
        None => Ok(None),
        Some(head) => entry_after(alloc, rest, reply, head),
    }
}

fn without_last(text: &[u8]) -> &[u8]
    ensures { result.now ≡ take (length text.now - 1) text.now }
{
    &text[..text.len().saturating_sub(1)]
}

fn without_first(text: &[u8]) -> &[u8]
    ensures { result.now ≡ drop 1 text.now }
{
    match text {
        [] => text,
        [_, rest @ ..] => rest,
    }
}

// The texts around an equals sign, without the spaces next to it, where there is one such sign.
fn around_equals(line: &[u8]) -> Option<(&[u8], &[u8])>
    ensures { option_map (λ texts. (texts.0.now, texts.1.now)) result
        ≡ around_equals (slice_split (λ b. b == 61) line.now) }
{
    let (before, rest) = cut(line, b'=');
    let (behind, rest) = cut(rest?, b'=');
    if rest.is_some() {
        return None;
    }
    Some((without_last(before), without_first(behind)))
}

// Whether printing the entry gives the line.
fn is_printed_as(alloc: Global, entry: &Entry, line: &[u8]) -> Result<bool, NoMemory>
    ensures { IfOk result (λ same. same ≡ is_text (entry_text entry.now) (line.now ++ line_end)) }
{
    let mut printed = Bytes::create(alloc);
    print_entry(entry, &mut printed)?;
    let mut wanted = Bytes::create(alloc);
    wanted.append(line)?;
    wanted.append(b"\n")?;
    Ok(printed.as_slice() == wanted.as_slice())
}

/// The entry that a line encodes, where it encodes one. Its process is 1, since the line doesn't have it.
pub(crate) fn entry_in(alloc: Global, line: &[u8]) -> Result<Option<Entry>, NoMemory>
    ensures { IfOk result (λ entry. entry ≡ entry_in line.now) }
{
    let Some((words, reply)) = around_equals(line) else {
        return Ok(None);
    };
    let Some(entry) = entry_in_words(alloc, words, reply)? else {
        return Ok(None);
    };
    if is_printed_as(alloc, &entry, line)? {
        Ok(Some(entry))
    } else {
        Ok(None)
    }
}
