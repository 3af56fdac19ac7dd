//! Lines, and what is wrong with them by their bytes and spaces.

ghost use Rattle.std.specs.Prelude.{◌≡◌, ℕ, ◌<◌, ◌∷◌, ◌==◌, ◌&&◌, leb, nat_lt, length};
ghost use Rattle.std.specs.List.{list_all, list_any};
ghost use Rattle.texts.specs.Text.{is_empty, is_skipped, lines_in, words_in};
ghost use Rattle.frame_model.specs.Faults.{first_fault};
ghost use Rattle.texts.specs.Grammar.{byte_faults};
ghost use Rattle.schedule_text.specs.Reading.{too_long_of};

use crate::fault::ScheduleFault;
use crate::parts::cut;
use cl_types::limits::{INPUT_BYTES, INPUT_LINES};
use cl_types::schedule::What;

/// The first line, and what stands behind its end.
#[tactic(auto, using(crate::proofs::LineLemmas::lines_cut))]
pub fn next_line(bytes: &[u8]) -> (&[u8], &[u8])
    requires { 0 < length bytes.now }
    ensures lines { lines_in bytes.now ≡ result.0.now ∷ lines_in result.1.now }
    ensures shorter { length result.1.now < length bytes.now }
{
    match cut(bytes, b'\n') {
        (line, None) => (line, &[]),
        (line, Some(rest)) => (line, rest),
    }
}

/// Whether there are more lines than may be.
fn has_too_many_lines(bytes: &[u8]) -> bool
    ensures { result ≡ nat_lt INPUT_LINES (length (lines_in bytes.now)) }
{
    let mut rest = bytes;
    for line in 0..INPUT_LINES {
        if rest.is_empty() {
            return false;
        }
        let (_, more) = next_line(rest);
        rest = more;
    }
    !rest.is_empty()
}

/// Whether the bytes, or else their lines, are too many.
pub fn too_long(bytes: &[u8]) -> Option<ScheduleFault>
    ensures { result ≡ too_long_of bytes.now }
{
    if bytes.len() > INPUT_BYTES {
        let number = INPUT_BYTES as u32 + 1;
        return Some(ScheduleFault::TooLong {
            bytes: true,
            number,
        });
    }
    if has_too_many_lines(bytes) {
        let number = INPUT_LINES + 1;
        return Some(ScheduleFault::TooLong {
            bytes: false,
            number,
        });
    }
    None
}

/// Whether the line is empty or a comment.
pub fn is_passed_over(line: &[u8]) -> bool
    ensures { result ≡ is_skipped line.now }
{
    match line {
        [] => true,
        [first, ..] => *first == b'#',
    }
}

/// Whether every byte may stand in a line.
fn are_good_bytes(line: &[u8]) -> bool
    ensures { result ≡ list_all (λ b. leb 32 b && leb b 126) line.now }
{
    for b in line {
        if !(32..=126).contains(b) {
            return false;
        }
    }
    true
}

/// Whether a space stands at an end, or two stand together.
#[tactic(auto, using(crate::proofs::LineLemmas::words_gap, crate::proofs::LineLemmas::gap_more, crate::proofs::LineLemmas::gap_end))]
fn has_empty_word(line: &[u8]) -> bool
    ensures { result ≡ list_any is_empty (words_in line.now) }
{
    let mut at_start = true;
    for b in line {
        if at_start && *b == b' ' {
            return true;
        }
        at_start = *b == b' ';
    }
    at_start
}

/// What is wrong with a line by its bytes and its spaces.
pub(crate) fn byte_fault(line: &[u8]) -> Option<What>
    ensures { result ≡ first_fault (byte_faults line.now) }
{
    if !are_good_bytes(line) {
        return Some(What::BadByte);
    }
    if has_empty_word(line) {
        return Some(What::BadSpacing);
    }
    None
}
