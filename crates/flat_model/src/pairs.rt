//! The pairs of a key-value store, in the order of their keys.

ghost use Rattle.std.specs.Prelude.{◌≡◌, ◌≤◌, ◌<◌, None, IfOk, OnOk, OnErr, IsTrue, length, not, position};
ghost use Rattle.std.specs.List.{position_or_len};
ghost use Rattle.std.specs.Option.{option_copied};
ghost use Rattle.std.specs.Ordering.{eq_by_cmp, is_lt};
ghost use Rattle.std.specs.FinMap.Entries.{find, is_sorted, put as put_entry, where_key};
ghost use Rattle.flat_model.specs.Objects.{key_cmp};

use cl_types::items::{Bytes, NoMemory};
use std::alloc::Global;
use std::cmp::Ordering;

/// A key and its value.
pub type Pair = (Bytes, Bytes);

fn order_of(key: &[u8], other: &Bytes) -> Ordering
    ensures { result ≡ key_cmp key.now other.now }
{
    key.cmp(other.as_slice())
}

fn position_of(pairs: &[Pair], key: &[u8]) -> Option<usize>
    ensures { result ≡ position (λ pair. eq_by_cmp key_cmp key.now pair.0) pairs.now }
{
    pairs.iter().position(|pair| order_of(key, &pair.0).is_eq())
}

fn first_behind(pairs: &[Pair], key: &[u8]) -> Option<usize>
    ensures { result ≡ position (λ pair. is_lt (key_cmp key.now pair.0)) pairs.now }
{
    pairs.iter().position(|pair| order_of(key, &pair.0).is_lt())
}

// Where the first pair behind the key stands, or would stand.
#[tactic(auto, using(crate::proofs::EntryLemmas::position_is, crate::proofs::EntryLemmas::position_end))]
fn position_behind(pairs: &[Pair], key: &[u8]) -> usize
    ensures position { result ≡ position_or_len (λ pair. is_lt (key_cmp key.now pair.0)) pairs.now }
    ensures within { result ≤ length pairs.now }
{
    match first_behind(pairs, key) {
        Some(i) => i,
        None => pairs.len(),
    }
}

/// The value of this key.
pub fn value_of<'a>(pairs: &'a [Pair], key: &[u8]) -> Option<&'a Bytes>
    ensures { option_copied result ≡ find key_cmp key.now pairs.now }
{
    match position_of(pairs, key) {
        None => None,
        Some(i) => Some(&pairs[i].1),
    }
}

fn copied(alloc: Global, bytes: &[u8]) -> Result<Bytes, NoMemory>
    ensures { IfOk result (λ copy. copy ≡ bytes.now) }
{
    let mut copy = Bytes::create(alloc);
    for byte in bytes {
        copy.push(*byte)?;
    }
    Ok(copy)
}

/// Puts a value at its key. Without memory all stays as it was.
pub fn put(alloc: Global, pairs: &mut Vec<Pair>, key: &[u8], value: &[u8]) -> Result<(), NoMemory>
    requires { IsTrue (is_sorted key_cmp pairs.old.items) }
    ensures put { OnOk result (pairs.new.items ≡ put_entry key_cmp key.now value.now pairs.old.items) }
    ensures order { IsTrue (is_sorted key_cmp pairs.new.items) }
    ensures unchanged { OnErr result (pairs.new.items ≡ pairs.old.items) }
{
    let value = copied(alloc, value)?;
    match position_of(pairs, key) {
        Some(i) => pairs[i].1 = value,
        None => insert(alloc, pairs, key, value)?,
    }
    Ok(())
}

// Puts the value of a new key.
fn insert(alloc: Global, pairs: &mut Vec<Pair>, key: &[u8], value: Bytes) -> Result<(), NoMemory>
    requires absent { position (λ pair. eq_by_cmp key_cmp key.now pair.0) pairs.old.items ≡ None }
    requires order { IsTrue (is_sorted key_cmp pairs.old.items) }
    ensures put { OnOk result (pairs.new.items ≡ put_entry key_cmp key.now value pairs.old.items) }
    ensures order { IsTrue (is_sorted key_cmp pairs.new.items) }
    ensures unchanged { OnErr result (pairs.new.items ≡ pairs.old.items) }
{
    let i = position_behind(pairs, key);
    let key = copied(alloc, key)?;
    if pairs.insert(i, (key, value)).is_err() {
        return Err(NoMemory);
    }
    Ok(())
}

/// Takes out the pair of this key.
pub fn take_out(pairs: &mut Vec<Pair>, key: &[u8])
    ensures kept { pairs.new.items ≡
        where_key key_cmp (λ other. not (eq_by_cmp key_cmp key.now other)) pairs.old.items }
    ensures order { IsTrue (is_sorted key_cmp pairs.old.items) → IsTrue (is_sorted key_cmp pairs.new.items) }
{
    pairs.retain(|pair| !order_of(key, &pair.0).is_eq());
}
