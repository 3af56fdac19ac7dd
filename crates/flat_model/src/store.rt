//! A key-value store as a plain list of its pairs. A clause sees it as an `Object`.

ghost use Rattle.std.specs.Prelude.{◌≡◌, ◌≤◌, ◌==◌, ◌&&◌, ◌↔◌, IfOk, OnErr, IsTrue, [], is_some, leb, length, not, take};
ghost use Rattle.std.specs.Int.{to_be_bytes, w32};
ghost use Rattle.std.specs.FinMap.Entries.{find, is_sorted};
ghost use Rattle.flat_model.specs.Checks.{ChecksObject, ChecksPairs, reply_given};
ghost use Rattle.flat_model.specs.Objects.{KvObject, is_keyed, key_cmp, key_in, kv_delete, kv_get, kv_put, kv_step, object_step, value_in};

use crate::pairs::{Pair, put, take_out, value_of};
use crate::replies::{behind, first, is_got, is_refusal};
use cl_types::items::NoMemory;
use cl_types::reply::{Refusal, Reply};
use std::alloc::Global;
use std::marker::Model;

/// A key-value store: how many records it may have, and its pairs in the order of their keys.
#[derive(Drop)]
pub struct KvStore {
    records: u64,
    pairs: Vec<Pair>,
}

impl Model for KvStore {
    ghost use Rattle.std.specs.Prelude.{IsTrue};
    ghost use Rattle.std.specs.FinMap.Entries.{is_sorted};
    ghost use Rattle.flat_model.specs.Objects.{Object, KvObject, key_cmp};

    ghost Value = { Object };

    ghost view = { λ store. KvObject store.records store.pairs.items };

    ghost invariant = { λ store. IsTrue (is_sorted key_cmp store.pairs.items) };
}

// Whether it is this operation, with the bytes of a key and at most `most` behind it.
fn is_op(op: u8, wanted: u8, bytes: &[u8], most: usize) -> bool
    requires { most ≤ 256 }
    ensures { result ≡ (op == wanted && is_keyed most bytes.now) }
{
    op == wanted && has_key(bytes, most)
}

fn has_key(bytes: &[u8], most: usize) -> bool
    requires { most ≤ 256 }
    ensures { result ≡ is_keyed most bytes.now }
{
    match bytes {
        [] => false,
        [n, rest @ ..] => {
            let n = *n as usize;
            1 <= n && n <= 32 && n <= rest.len() && rest.len() <= n + most
        }
    }
}

fn key_of(bytes: &[u8]) -> &[u8]
    ensures { result.now ≡ key_in bytes.now }
{
    match bytes {
        [] => bytes,
        [n, rest @ ..] => first(rest, *n as usize),
    }
}

fn value_behind(bytes: &[u8]) -> &[u8]
    ensures { result.now ≡ value_in bytes.now }
{
    match bytes {
        [] => bytes,
        [n, rest @ ..] => behind(rest, *n as usize),
    }
}

fn is_key(pairs: &[Pair], key: &[u8]) -> bool
    ensures { result ≡ is_some (find key_cmp key.now pairs.now) }
{
    value_of(pairs, key).is_some()
}

// Whether there is no room for the key.
fn is_full(records: u64, pairs: &[Pair], key: &[u8]) -> bool
    ensures { result ≡ (not (is_some (find key_cmp key.now pairs.now)) && leb records (length pairs.now)) }
{
    !is_key(pairs, key) && records <= pairs.len() as u64
}

fn check_put(
    alloc: Global,
    records: u64,
    pairs: &mut Vec<Pair>,
    bytes: &[u8],
    out: u16,
    reply: &Reply,
) -> Result<bool, NoMemory>
    requires { IsTrue (is_sorted key_cmp pairs.old.items) }
    ensures checks { let given = kv_put records pairs.old.items (key_in bytes.now) (value_in bytes.now) in
        IfOk result (λ may. ChecksPairs records pairs.old.items given out reply.now may pairs.new.items) }
    ensures wanted { let given = kv_put records pairs.old.items (key_in bytes.now) (value_in bytes.now) in
        OnErr result (reply.now ≡ reply_given out given) }
    ensures order { IsTrue (is_sorted key_cmp pairs.new.items) }
    ensures unchanged { OnErr result (pairs.new.items ≡ pairs.old.items) }
{
    let key = key_of(bytes);
    if is_full(records, pairs, key) {
        return Ok(is_refusal(reply, Refusal::ObjectFull));
    }
    if !is_got(reply, &[], out) {
        return Ok(false);
    }
    put(alloc, pairs, key, value_behind(bytes))?;
    Ok(true)
}

fn check_get(records: u64, pairs: &[Pair], bytes: &[u8], out: u16, reply: &Reply) -> bool
    ensures { let given = kv_get records pairs.now (find key_cmp (key_in bytes.now) pairs.now) in
        ChecksPairs records pairs.now given out reply.now result pairs.now }
{
    match value_of(pairs, key_of(bytes)) {
        None => is_refusal(reply, Refusal::NoKey),
        Some(value) => is_got(reply, value.as_slice(), out),
    }
}

fn check_delete(records: u64, pairs: &mut Vec<Pair>, bytes: &[u8], out: u16, reply: &Reply) -> bool
    requires { IsTrue (is_sorted key_cmp pairs.old.items) }
    ensures checks { let given = kv_delete records pairs.old.items (key_in bytes.now) in
        ChecksPairs records pairs.old.items given out reply.now result pairs.new.items }
    ensures order { IsTrue (is_sorted key_cmp pairs.new.items) }
{
    let key = key_of(bytes);
    if !is_key(pairs, key) {
        return is_refusal(reply, Refusal::NoKey);
    }
    if !is_got(reply, &[], out) {
        return false;
    }
    take_out(pairs, key);
    true
}

// Whether the reply is the number of pairs, in four bytes.
fn is_count(pairs: &[Pair], out: u16, reply: &Reply) -> bool
    ensures { IsTrue result ↔ (reply.now ≡ Reply.Got (take out (to_be_bytes w32 (length pairs.now)))) }
{
    let bytes = (pairs.len() as u64).to_be_bytes();
    is_got(reply, &bytes[4..], out)
}

fn check_kv(
    alloc: Global,
    records: u64,
    pairs: &mut Vec<Pair>,
    op: u8,
    bytes: &[u8],
    out: u16,
    reply: &Reply,
) -> Result<bool, NoMemory>
    requires { IsTrue (is_sorted key_cmp pairs.old.items) }
    ensures checks { let given = kv_step records pairs.old.items op bytes.now in
        IfOk result (λ may. ChecksPairs records pairs.old.items given out reply.now may pairs.new.items) }
    ensures wanted { OnErr result (reply.now ≡ reply_given out (kv_step records pairs.old.items op bytes.now)) }
    ensures order { IsTrue (is_sorted key_cmp pairs.new.items) }
    ensures unchanged { OnErr result (pairs.new.items ≡ pairs.old.items) }
{
    if is_op(op, 1, bytes, 256) {
        return check_put(alloc, records, pairs, bytes, out, reply);
    }
    if is_op(op, 2, bytes, 0) {
        return Ok(check_get(records, pairs, bytes, out, reply));
    }
    if is_op(op, 3, bytes, 0) {
        return Ok(check_delete(records, pairs, bytes, out, reply));
    }
    if op == 4 && bytes.is_empty() {
        return Ok(is_count(pairs, out, reply));
    }
    Ok(is_refusal(reply, Refusal::BadOp))
}

impl KvStore {
    /// A store with no pairs.
    pub fn create(alloc: Global, records: u64) -> KvStore
        ensures { result ≡ KvObject records [] }
    {
        KvStore {
            records,
            pairs: Vec::new(alloc),
        }
    }

    /// Whether the object gives this reply, and its step if it does. Without memory it stays as it
    /// was.
    pub fn check(
        &mut self,
        alloc: Global,
        op: u8,
        bytes: &[u8],
        out: u16,
        reply: &Reply,
    ) -> Result<bool, NoMemory>
        ensures checks { IfOk result (λ may.
            ChecksObject self.old (object_step self.old op bytes.now) out reply.now may self.new) }
        ensures wanted { OnErr result (reply.now ≡ reply_given out (object_step self.old op bytes.now)) }
        ensures unchanged { OnErr result (self.new ≡ self.old) }
    {
        check_kv(alloc, self.records, &mut self.pairs, op, bytes, out, reply)
    }
}
