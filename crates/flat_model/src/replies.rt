//! Whether a reply is the one that is wanted.

ghost use Rattle.std.specs.Prelude.{◌≡◌, ◌↔◌, IsTrue, drop, take};

use cl_types::reply::{Refusal, Reply};

/// Whether it is this refusal.
pub fn is_refusal(reply: &Reply, refusal: Refusal) -> bool
    ensures { IsTrue result ↔ (reply.now ≡ Reply.Refused refusal) }
{
    match reply {
        Reply::Refused(given) => *given == refusal,
        _ => false,
    }
}

/// Whether it says no more than that it was done.
pub fn is_nothing(reply: &Reply) -> bool
    ensures { IsTrue result ↔ (reply.now ≡ Reply.Nothing) }
{
    matches!(reply, Reply::Nothing)
}

/// Whether it is this word.
pub fn is_word(reply: &Reply, word: u64) -> bool
    ensures { IsTrue result ↔ (reply.now ≡ Reply.Word word) }
{
    match reply {
        Reply::Word(given) => *given == word,
        _ => false,
    }
}

/// Whether it is the first `out` of these bytes.
pub fn is_got(reply: &Reply, bytes: &[u8], out: u16) -> bool
    ensures { IsTrue result ↔ (reply.now ≡ Reply.Got (take out bytes.now)) }
{
    match reply {
        Reply::Got(given) => given.as_slice() == first(bytes, out as usize),
        _ => false,
    }
}

/// The first `n` bytes, or all where there are fewer.
pub fn first(bytes: &[u8], n: usize) -> &[u8]
    ensures { result.now ≡ take n bytes.now }
{
    if n < bytes.len() { &bytes[..n] } else { bytes }
}

/// The bytes behind the first `n`.
pub fn behind(bytes: &[u8], n: usize) -> &[u8]
    ensures { result.now ≡ drop n bytes.now }
{
    if n < bytes.len() { &bytes[n..] } else { &[] }
}
