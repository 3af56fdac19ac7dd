//! The arguments of a line: so many words, and each as its kind.

ghost use Rattle.std.specs.Prelude.{◌≡◌, ◌≤◌, [], ◌∷◌, Some, None, IfOk, IfErr, OnOk};
ghost use Rattle.texts.specs.Words.{A, Address, N, Number, P, Permission, argument_in};
ghost use Rattle.schedule_text.specs.Arguments.{count_fault};
ghost use Rattle.schedule_text.specs.Parts.{words_left};
ghost use Rattle.schedule_text.specs.Telling.{told};

use crate::numbers::{address, number};
use crate::parts::cut;
use cl_types::call::Perm;
use cl_types::numbers::{Addr, ClientNo, Pid, try_pid};
use cl_types::schedule::What;

/// No word. `before` is what is wrong with a word in front, and is told where the number of words
/// is right.
pub(crate) fn none(rest: Option<&[u8]>, before: Option<What>) -> Result<(), What>
    ensures right { OnOk result ((words_left rest.entry ≡ []) × (before ≡ None)) }
    ensures fault { IfErr result (λ what.
        count_fault 0 before (words_left rest.entry) ≡ Some what) }
{
    if let Some(_words) = rest {
        return Err(What::ExtraWord);
    }
    match before {
        None => Ok(()),
        Some(what) => Err(what),
    }
}

/// One word.
#[tactic(auto, using(crate::proofs::ArgumentLemmas::parts_some))]
pub(crate) fn one(rest: Option<&[u8]>, before: Option<What>) -> Result<&[u8], What>
    ensures right { IfOk result (λ text.
        (words_left rest.entry ≡ text.now ∷ []) × (before ≡ None)) }
    ensures fault { IfErr result (λ what.
        count_fault 1 before (words_left rest.entry) ≡ Some what) }
{
    let Some(words) = rest else {
        return Err(What::MissingWord);
    };
    let (first, rest) = cut(words, b' ');
    none(rest, before)?;
    Ok(first)
}

/// Two words.
#[tactic(auto, using(crate::proofs::ArgumentLemmas::parts_some))]
pub(crate) fn two(rest: Option<&[u8]>, before: Option<What>) -> Result<(&[u8], &[u8]), What>
    ensures right { IfOk result (λ texts.
        (words_left rest.entry ≡ texts.0.now ∷ texts.1.now ∷ []) × (before ≡ None)) }
    ensures fault { IfErr result (λ what.
        count_fault 2 before (words_left rest.entry) ≡ Some what) }
{
    let Some(words) = rest else {
        return Err(What::MissingWord);
    };
    let (first, rest) = cut(words, b' ');
    let second = one(rest, before)?;
    Ok((first, second))
}

/// Three words.
#[tactic(auto, using(crate::proofs::ArgumentLemmas::parts_some))]
pub(crate) fn three(
    rest: Option<&[u8]>,
    before: Option<What>,
) -> Result<(&[u8], &[u8], &[u8]), What>
    ensures right { IfOk result (λ texts.
        (words_left rest.entry ≡ texts.0.now ∷ texts.1.now ∷ texts.2.now ∷ []) × (before ≡ None)) }
    ensures fault { IfErr result (λ what.
        count_fault 3 before (words_left rest.entry) ≡ Some what) }
{
    let Some(words) = rest else {
        return Err(What::MissingWord);
    };
    let (first, rest) = cut(words, b' ');
    let (second, third) = two(rest, before)?;
    Ok((first, second, third))
}

/// Four words.
#[tactic(auto, using(crate::proofs::ArgumentLemmas::parts_some))]
pub(crate) fn four(
    rest: Option<&[u8]>,
    before: Option<What>,
) -> Result<(&[u8], &[u8], &[u8], &[u8]), What>
    ensures right { IfOk result (λ texts.
        (words_left rest.entry ≡ texts.0.now ∷ texts.1.now ∷ texts.2.now ∷ texts.3.now ∷ [])
        × (before ≡ None)) }
    ensures fault { IfErr result (λ what.
        count_fault 4 before (words_left rest.entry) ≡ Some what) }
{
    let Some(words) = rest else {
        return Err(What::MissingWord);
    };
    let (first, rest) = cut(words, b' ');
    let (second, third, fourth) = three(rest, before)?;
    Ok((first, second, third, fourth))
}

/// A number from `low` to `high`.
pub(crate) fn number_argument(low: u64, high: u64, text: &[u8]) -> Result<u64, What>
    ensures value { told N result ≡ argument_in (Number low high) text.now }
    ensures range { IfOk result (λ n. (low ≤ n) × (n ≤ high)) }
{
    match number(low, high, text) {
        None => Err(What::BadNumber),
        Some(n) => Ok(n),
    }
}

/// The number of a client.
pub(crate) fn client_argument(text: &[u8]) -> Result<ClientNo, What>
    ensures { told (λ client. N client.0) result ≡ argument_in (Number 0 65535) text.now }
{
    let number = number_argument(0, 65_535, text)?;
    Ok(ClientNo(number as u16))
}

/// The number of a process.
pub(crate) fn pid_argument(text: &[u8]) -> Result<Pid, What>
    ensures { told N result ≡ argument_in (Number 1 65279) text.now }
{
    let number = number_argument(1, 65_279, text)?;
    match try_pid(number as u16) {
        None => Err(What::BadNumber),
        Some(pid) => Ok(pid),
    }
}

/// An address.
pub(crate) fn address_argument(text: &[u8]) -> Result<Addr, What>
    ensures { told A result ≡ argument_in Address text.now }
{
    match address(text) {
        None => Err(What::BadAddress),
        Some(addr) => Ok(addr),
    }
}

/// A permission.
pub(crate) fn perm_argument(text: &[u8]) -> Result<Perm, What>
    ensures { told P result ≡ argument_in Permission text.now }
{
    if text == b"r".as_slice() {
        Ok(Perm::ReadOnly)
    } else if text == b"w".as_slice() {
        Ok(Perm::WriteOnly)
    } else if text == b"rw".as_slice() {
        Ok(Perm::ReadWrite)
    } else {
        Err(What::BadPermission)
    }
}
