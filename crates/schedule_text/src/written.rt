//! Bytes, as they are written in hexadecimal.

ghost use Rattle.std.specs.Prelude.{◌≡◌, ◌++◌, ◌*◌, ◌/◌, ◌%◌, ◌==◌, ◌&&◌, ◌≤◌, leb, length, IfOk, IfSome, IsTrue};
ghost use Rattle.std.specs.List.{list_all};
ghost use Rattle.cl_types.specs.Written.{expanded};
ghost use Rattle.texts.specs.Words.{BytesWord, argument_in, bytes_of_pairs, is_hex_digit, most_written, times_in, B};
ghost use Rattle.schedule_text.specs.Parts.{parts_left};
ghost use Rattle.schedule_text.specs.Telling.{TellsBy};

use crate::fault::LineFault;
use crate::numbers::{hex_digit, is_hex, number};
use crate::parts::cut;
use cl_types::items::{Bytes, NoMemory};
use cl_types::schedule::{What, Written};
use std::alloc::Global;

/// The greatest number of bytes that are written in one place, repeats counted.
const MOST_WRITTEN: u64 = 70_000;

/// How often bytes stand there; `rest` is what stands behind the star, where there is one.
#[tactic(auto, using(crate::proofs::WrittenLemmas::times_in_split))]
fn times(rest: Option<&[u8]>) -> Option<u64>
    ensures value { result ≡ times_in (parts_left 42 rest.entry) }
    ensures range { IfSome result (λ n. (1 ≤ n) × (n ≤ MOST_WRITTEN)) }
{
    match rest {
        None => Some(1),
        Some(text) => number(1, MOST_WRITTEN, text),
    }
}

/// Whether all bytes are hexadecimal digits.
fn are_hex(text: &[u8]) -> bool
    ensures { result ≡ list_all is_hex_digit text.now }
{
    for b in text {
        if !is_hex(*b) {
            return false;
        }
    }
    true
}

/// Whether these are two digits for each of some bytes that, so often, aren't too many.
fn are_pairs(digits: &[u8], times: u64) -> bool
    requires { 1 ≤ times }
    ensures { result ≡ (leb 2 (length digits.now) && length digits.now % 2 == 0
        && list_all is_hex_digit digits.now && leb (length digits.now / 2 * times) most_written) }
{
    let count = digits.len() as u64;
    count >= 2 && count % 2 == 0 && are_hex(digits) && count / 2 <= MOST_WRITTEN / times
}

/// The bytes of pairs of digits.
fn pairs(alloc: Global, digits: &[u8]) -> Result<Bytes, NoMemory>
    requires { IsTrue (list_all is_hex_digit digits.now) }
    ensures { IfOk result (λ bytes. bytes ≡ bytes_of_pairs digits.now) }
{
    let mut bytes = Bytes::create(alloc);
    let mut rest = digits;
    while let [high, low, more @ ..] = rest {
        bytes.push(hex_digit(*high) * 16 + hex_digit(*low))?;
        rest = more;
    }
    Ok(bytes)
}

/// Bytes in hexadecimal, with a number of repeats where a star follows; a dash is none.
pub fn written(alloc: Global, text: &[u8]) -> Result<Written, LineFault>
    ensures { TellsBy B result (argument_in BytesWord text.now) }
{
    if text == b"-".as_slice() {
        let bytes = Bytes::create(alloc);
        return Ok(Written { bytes, times: 1 });
    }
    let (digits, rest) = cut(text, b'*');
    let Some(times) = times(rest) else {
        return Err(LineFault::Bad(What::BadBytes));
    };
    if !are_pairs(digits, times) {
        return Err(LineFault::Bad(What::BadBytes));
    }
    let bytes = pairs(alloc, digits)?;
    Ok(Written {
        bytes,
        times: times as u32,
    })
}

/// The bytes, as often as they are written.
#[tactic(auto, using(crate::proofs::WrittenLemmas::expand_more))]
pub fn expand(alloc: Global, written: &Written) -> Result<Bytes, NoMemory>
    ensures { IfOk result (λ bytes. bytes ≡ expanded written.now) }
{
    let mut bytes = Bytes::create(alloc);
    for time in 0..written.times {
        bytes.append(written.bytes.as_slice())?;
    }
    Ok(bytes)
}
