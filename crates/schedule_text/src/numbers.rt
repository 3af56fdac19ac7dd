//! Numbers and addresses.

ghost use Rattle.std.specs.Prelude.{◌≡◌, ◌-◌, ◌^◌, ◌<◌, ◌≤◌, IfSome, IsTrue};
ghost use Rattle.texts.specs.Words.{address_in, address_of_digits, hex_value, is_digit, is_hex_digit, is_plain, number_in};
ghost use Rattle.schedule_text.specs.Digits.{spelled, with_digit};

use cl_types::numbers::Addr;

/// A number with one decimal digit more, where it is one and the number fits.
fn with_decimal(n: u64, b: u8) -> Option<u64>
    ensures { result ≡ with_digit is_digit (λ b. b - 48) 10 (2 ^ 64) n b }
{
    if !b.is_ascii_digit() {
        return None;
    }
    n.checked_mul(10)?.checked_add(u64::from(b - b'0'))
}

/// The number that decimal digits spell, where it fits.
#[tactic(auto, using(crate::proofs::DigitLemmas::spelled_more, crate::proofs::DigitLemmas::spelled_stop))]
fn decimal(text: &[u8]) -> Option<u64>
    ensures { result ≡ spelled is_digit (λ b. b - 48) 10 (2 ^ 64) text.now }
{
    let mut n = 0;
    for b in text {
        match with_decimal(n, *b) {
            None => return None,
            Some(more) => n = more,
        }
    }
    Some(n)
}

/// Whether digits have no leading zero, unless it is the only one.
fn begins_plainly(text: &[u8]) -> bool
    ensures { result ≡ is_plain text.now }
{
    match text {
        [] => false,
        [_] => true,
        [first, ..] => *first != b'0',
    }
}

/// A decimal number from `low` to `high`.
#[tactic(auto, using(crate::proofs::NumberLemmas::numbers))]
pub fn number(low: u64, high: u64, text: &[u8]) -> Option<u64>
    ensures value { result ≡ number_in low high text.now }
    ensures range { IfSome result (λ n. (low ≤ n) × (n ≤ high)) }
{
    if !begins_plainly(text) {
        return None;
    }
    let n = decimal(text)?;
    if low <= n && n <= high { Some(n) } else { None }
}

/// Whether a byte is a hexadecimal digit, with a small letter.
pub(crate) fn is_hex(b: u8) -> bool
    ensures { result ≡ is_hex_digit b }
{
    matches!(b, b'0'..=b'9' | b'a'..=b'f')
}

/// The value of a hexadecimal digit.
pub(crate) fn hex_digit(b: u8) -> u8
    requires { IsTrue (is_hex_digit b) }
    ensures value { result ≡ hex_value b }
    ensures range { result < 16 }
{
    if b.is_ascii_digit() {
        b - b'0'
    } else {
        b - b'a' + 10
    }
}

/// A number with one hexadecimal digit more, where it is one and the number fits.
fn with_hexadecimal(n: u32, b: u8) -> Option<u32>
    ensures { result ≡ with_digit is_hex_digit hex_value 16 (2 ^ 32) n b }
{
    if !is_hex(b) {
        return None;
    }
    n.checked_mul(16)?.checked_add(u32::from(hex_digit(b)))
}

/// The number that hexadecimal digits spell, where it fits.
#[tactic(auto, using(crate::proofs::DigitLemmas::spelled_more))]
fn hexadecimal(text: &[u8]) -> Option<u32>
    ensures { result ≡ spelled is_hex_digit hex_value 16 (2 ^ 32) text.now }
{
    let mut n = 0;
    for b in text {
        match with_hexadecimal(n, *b) {
            None => return None,
            Some(more) => n = more,
        }
    }
    Some(n)
}

/// The address of one to eight hexadecimal digits.
fn address_by_digits(digits: &[u8]) -> Option<Addr>
    ensures { result ≡ address_of_digits digits.now }
{
    if !begins_plainly(digits) || digits.len() > 8 {
        return None;
    }
    Some(Addr(hexadecimal(digits)?))
}

/// An address.
pub fn address(text: &[u8]) -> Option<Addr>
    ensures { result ≡ address_in text.now }
{
    let (front, digits) = text.split_at_checked(2)?;
    if front != b"0x".as_slice() {
        return None;
    }
    address_by_digits(digits)
}
