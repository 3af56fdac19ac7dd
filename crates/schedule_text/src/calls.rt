//! The calls of lines and scripts.

ghost use Rattle.std.specs.Prelude.{◌≡◌};
ghost use Rattle.texts.specs.Text.{words_in};
ghost use Rattle.texts.specs.Grammar.{by_word, call_in_words};
ghost use Rattle.schedule_text.specs.Calls.{GivesCall, call_words};
ghost use Rattle.schedule_text.specs.Telling.{Tells};

use crate::arguments::{
    address_argument, four, none, number_argument, one, perm_argument, three, two,
};
use crate::fault::LineFault;
use crate::parts::cut;
use crate::written::written;
use cl_types::call::AtomicOp;
use cl_types::schedule::{CallText, What};
use std::alloc::Global;

/// The greatest number of pages that a line may name.
const LAST_U32: u64 = 4_294_967_295;

/// The greatest number of bytes that a line may ask for.
const MOST_LEN: u64 = 70_000;

/// The word of a call.
#[derive(Clone, Copy, Debug, PartialEq, Eq)]
pub enum CallWord {
    Alloc,
    Free,
    Read,
    Write,
    Lock,
    Unlock,
    Add,
    Cas,
    Offload,
    Fence,
}

/// The call that a word names.
pub(crate) fn call_word(word: &[u8]) -> Option<CallWord>
    ensures { result ≡ by_word word.now call_words }
{
    if word == b"alloc".as_slice() {
        Some(CallWord::Alloc)
    } else if word == b"free".as_slice() {
        Some(CallWord::Free)
    } else if word == b"read".as_slice() {
        Some(CallWord::Read)
    } else if word == b"write".as_slice() {
        Some(CallWord::Write)
    } else if word == b"lock".as_slice() {
        Some(CallWord::Lock)
    } else if word == b"unlock".as_slice() {
        Some(CallWord::Unlock)
    } else if word == b"add".as_slice() {
        Some(CallWord::Add)
    } else if word == b"cas".as_slice() {
        Some(CallWord::Cas)
    } else if word == b"offload".as_slice() {
        Some(CallWord::Offload)
    } else if word == b"fence".as_slice() {
        Some(CallWord::Fence)
    } else {
        None
    }
}

#[tactic(auto, using(crate::proofs::ArgumentLemmas::arguments_fault))]
fn alloc_call(before: Option<What>, rest: Option<&[u8]>) -> Result<CallText, LineFault>
    ensures { GivesCall before CallWord.Alloc rest.entry result }
{
    let (pages, perm) = two(rest, before)?;
    let pages = number_argument(0, LAST_U32, pages)? as u32;
    let perm = perm_argument(perm)?;
    Ok(CallText::Alloc { pages, perm })
}

#[tactic(auto, using(crate::proofs::ArgumentLemmas::arguments_fault))]
fn free_call(before: Option<What>, rest: Option<&[u8]>) -> Result<CallText, LineFault>
    ensures { GivesCall before CallWord.Free rest.entry result }
{
    let (addr, pages) = two(rest, before)?;
    let addr = address_argument(addr)?;
    let pages = number_argument(0, LAST_U32, pages)? as u32;
    Ok(CallText::Free { addr, pages })
}

#[tactic(auto, using(crate::proofs::ArgumentLemmas::arguments_fault))]
fn read_call(before: Option<What>, rest: Option<&[u8]>) -> Result<CallText, LineFault>
    ensures { GivesCall before CallWord.Read rest.entry result }
{
    let (addr, len) = two(rest, before)?;
    let addr = address_argument(addr)?;
    let len = number_argument(0, MOST_LEN, len)? as u32;
    Ok(CallText::Read { addr, len })
}

#[tactic(auto, using(crate::proofs::ArgumentLemmas::arguments_fault))]
fn write_call(
    alloc: Global,
    before: Option<What>,
    rest: Option<&[u8]>,
) -> Result<CallText, LineFault>
    ensures { GivesCall before CallWord.Write rest.entry result }
{
    let (addr, bytes) = two(rest, before)?;
    let addr = address_argument(addr)?;
    let bytes = written(alloc, bytes)?;
    Ok(CallText::Write { addr, bytes })
}

#[tactic(auto, using(crate::proofs::ArgumentLemmas::arguments_fault))]
fn lock_call(before: Option<What>, rest: Option<&[u8]>) -> Result<CallText, LineFault>
    ensures { GivesCall before CallWord.Lock rest.entry result }
{
    let addr = address_argument(one(rest, before)?)?;
    let op = AtomicOp::Lock;
    Ok(CallText::Atomic { addr, op })
}

#[tactic(auto, using(crate::proofs::ArgumentLemmas::arguments_fault))]
fn unlock_call(before: Option<What>, rest: Option<&[u8]>) -> Result<CallText, LineFault>
    ensures { GivesCall before CallWord.Unlock rest.entry result }
{
    let addr = address_argument(one(rest, before)?)?;
    let op = AtomicOp::Unlock;
    Ok(CallText::Atomic { addr, op })
}

#[tactic(auto, using(crate::proofs::ArgumentLemmas::arguments_fault))]
fn add_call(before: Option<What>, rest: Option<&[u8]>) -> Result<CallText, LineFault>
    ensures { GivesCall before CallWord.Add rest.entry result }
{
    let (addr, n) = two(rest, before)?;
    let addr = address_argument(addr)?;
    let n = number_argument(0, u64::MAX, n)?;
    let op = AtomicOp::Add { n };
    Ok(CallText::Atomic { addr, op })
}

#[tactic(auto, using(crate::proofs::ArgumentLemmas::arguments_fault))]
fn cas_call(before: Option<What>, rest: Option<&[u8]>) -> Result<CallText, LineFault>
    ensures { GivesCall before CallWord.Cas rest.entry result }
{
    let (addr, expect, put) = three(rest, before)?;
    let addr = address_argument(addr)?;
    let expect = number_argument(0, u64::MAX, expect)?;
    let put = number_argument(0, u64::MAX, put)?;
    let op = AtomicOp::Cas { expect, put };
    Ok(CallText::Atomic { addr, op })
}

#[tactic(auto, using(crate::proofs::ArgumentLemmas::arguments_fault))]
fn offload_call(
    alloc: Global,
    before: Option<What>,
    rest: Option<&[u8]>,
) -> Result<CallText, LineFault>
    ensures { GivesCall before CallWord.Offload rest.entry result }
{
    let (no, op, out, bytes) = four(rest, before)?;
    let no = number_argument(0, 255, no)? as u8;
    let op = number_argument(0, 255, op)? as u8;
    let out = number_argument(0, MOST_LEN, out)? as u32;
    let bytes = written(alloc, bytes)?;
    Ok(CallText::Offload { no, op, out, bytes })
}

#[tactic(auto, using(crate::proofs::ArgumentLemmas::arguments_fault))]
fn fence_call(before: Option<What>, rest: Option<&[u8]>) -> Result<CallText, LineFault>
    ensures { GivesCall before CallWord.Fence rest.entry result }
{
    none(rest, before)?;
    Ok(CallText::Fence)
}

/// The call of a word, with the words behind it. `before` is what is wrong with a word in front,
/// and is told where the number of words is right.
pub(crate) fn call_by_word(
    alloc: Global,
    word: CallWord,
    before: Option<What>,
    rest: Option<&[u8]>,
) -> Result<CallText, LineFault>
    ensures { GivesCall before word rest.entry result }
{
    match word {
        CallWord::Alloc => alloc_call(before, rest),
        CallWord::Free => free_call(before, rest),
        CallWord::Read => read_call(before, rest),
        CallWord::Write => write_call(alloc, before, rest),
        CallWord::Lock => lock_call(before, rest),
        CallWord::Unlock => unlock_call(before, rest),
        CallWord::Add => add_call(before, rest),
        CallWord::Cas => cas_call(before, rest),
        CallWord::Offload => offload_call(alloc, before, rest),
        CallWord::Fence => fence_call(before, rest),
    }
}

/// The call that the words of a text encode: a line of a script, or the request of an entry.
#[tactic(auto, using(crate::proofs::CallLemmas::call_forms_by_word))]
pub fn call_in_line(alloc: Global, line: &[u8]) -> Result<CallText, LineFault>
    ensures { Tells result (call_in_words (words_in line.now)) }
{
    let (word, rest) = cut(line, b' ');
    match call_word(word) {
        None => Err(LineFault::Bad(What::UnknownWord)),
        Some(word) => call_by_word(alloc, word, None, rest),
    }
}
