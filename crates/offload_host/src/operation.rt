//! What the number and the bytes of an operation ask of a key-value store.

ghost use Rattle.std.specs.Prelude.{◌≡◌, ◌≤◌, ◌==◌, ◌&&◌, ℕ, IfSome, IsTrue, length};
ghost use Rattle.flat_model.specs.Objects.{Pairs, is_keyed, key_in, kv_step, value_in};
ghost use Rattle.offload_host.specs.Operations.{HasLengths, given_if};
ghost use Rattle.cl_types.specs.declared.limits.TheConstants.{KEY_BYTES, VALUE_BYTES};

use cl_types::limits::{KEY_BYTES, VALUE_BYTES};

// The numbers of the operations.
const PUT: u8 = 1;

const GET: u8 = 2;

const DELETE: u8 = 3;

const COUNT: u8 = 4;

/// An operation of a key-value store, which borrows its key and its value.
#[derive(Clone, Copy)]
pub enum Operation<'a> {
    /// Sets the value of a key.
    Put { key: &'a [u8], value: &'a [u8] },
    /// Answers the value of a key.
    Get { key: &'a [u8] },
    /// Takes a key out with its value.
    Delete { key: &'a [u8] },
    /// Answers how many keys there are.
    Count,
}

/// Whether the first byte is the length of a key, and behind it stand the key and at most `most` bytes.
fn is_keyed_bytes(bytes: &[u8], most: usize) -> bool
    requires { most ≤ VALUE_BYTES }
    ensures { result ≡ is_keyed most bytes.now }
{
    match bytes {
        [] => false,
        [n, rest @ ..] => {
            let n = *n as usize;
            1 <= n && n <= KEY_BYTES as usize && n <= rest.len() && rest.len() <= n + most
        }
    }
}

/// Whether it is this operation, with a key and at most `most` bytes behind it.
fn is_keyed_op(op: u8, wanted: u8, bytes: &[u8], most: usize) -> bool
    requires { most ≤ VALUE_BYTES }
    ensures { result ≡ (op == wanted && is_keyed most bytes.now) }
{
    op == wanted && is_keyed_bytes(bytes, most)
}

/// The key of bytes that have one, and what stands behind it.
fn cut(bytes: &[u8]) -> (&[u8], &[u8])
    requires { IsTrue (is_keyed VALUE_BYTES bytes.now) }
    ensures key { result.0.now ≡ key_in bytes.now }
    ensures behind { result.1.now ≡ value_in bytes.now }
    ensures some { 1 ≤ length result.0.now }
    ensures few { length result.0.now ≤ KEY_BYTES }
    ensures short { length result.1.now ≤ VALUE_BYTES }
{
    match bytes {
        [] => unreachable!(),
        [n, rest @ ..] => rest.split_at(*n as usize),
    }
}

/// The operation of this number with these bytes. `None` comes exactly where no operation has the number, or the bytes
/// don't have its form.
pub fn read_operation(op: u8, bytes: &[u8]) -> Option<Operation<'_>>
    ensures given { (records : ℕ) (pairs : Pairs) →
        kv_step records pairs op bytes.now ≡ given_if result records pairs }
    ensures lengths { IfSome result HasLengths }
{
    if is_keyed_op(op, PUT, bytes, VALUE_BYTES as usize) {
        let (key, value) = cut(bytes);
        return Some(Operation::Put { key, value });
    }
    if is_keyed_op(op, GET, bytes, 0) {
        let (key, _) = cut(bytes);
        return Some(Operation::Get { key });
    }
    if is_keyed_op(op, DELETE, bytes, 0) {
        let (key, _) = cut(bytes);
        return Some(Operation::Delete { key });
    }
    if op == COUNT && bytes.is_empty() {
        return Some(Operation::Count);
    }
    None
}
