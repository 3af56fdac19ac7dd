//! The step of a key-value store that lies in a space.

ghost use Rattle.std.specs.Prelude.{◌≡◌, ◌≤◌, ◌%◌, IfErr, IfOk, take};
ghost use Rattle.std.specs.Int.{to_be_bytes, w32};
ghost use Rattle.cl_types.specs.declared.limits.TheConstants.{PART_BYTES};
ghost use Rattle.flat_model.specs.Objects.{kv_step};
ghost use Rattle.kv_offload.specs.Stored.{IsStore, answered, given_by, object_in, pairs_in};
ghost use Rattle.offload_host.specs.Operations.{HasLengths, given_of};
ghost use Rattle.offload_host.specs.declared.store.TheConstants.{SMALL_BYTES};

use crate::operation::{Operation, read_operation};
use cl_types::limits::PART_BYTES;
use cl_types::reply::Refusal;
use cl_types::space::Space;
use kv_offload::Kv;

/// How many bytes the number of keys has.
const COUNT_BYTES: usize = 4;

/// The greatest number of bytes that an operation of an odd number answers. Such a one may change an object, so its reply
/// is kept to be given again, and a `SmallReply` holds no more.
pub const SMALL_BYTES: u32 = 16;

/// Puts a number of keys in front, the highest byte first.
fn put_count(count: u32, out: &mut [u8; PART_BYTES as usize])
    ensures { take COUNT_BYTES out.new ≡ to_be_bytes w32 count }
{
    out[..COUNT_BYTES].copy_from_slice(&count.to_be_bytes());
}

/// Takes an operation's step, and answers how long the answer in front of `out` is.
fn operate<P: Space>(
    kv: Kv,
    operation: Operation,
    space: &mut P,
    out: &mut [u8; PART_BYTES as usize],
) -> Result<usize, Refusal>
    requires store { IsStore kv.records (P.contents space.old) }
    requires lengths { HasLengths operation }
    requires honest { P.honest space.old }
    ensures given { given_by result (answered result out.new)
        (object_in kv.records (P.contents space.new)) ≡
        given_of operation.entry kv.records (pairs_in kv.records (P.contents space.old)) }
    ensures within { IfOk result (λ len. len ≤ PART_BYTES) }
    ensures refused { IfErr result (λ _. P.contents space.new ≡ P.contents space.old) }
    ensures store { IsStore kv.records (P.contents space.new) }
    ensures rest { P.rest space.new ≡ P.rest space.old }
    ensures honest { P.honest space.new }
{
    match operation {
        Operation::Put { key, value } => {
            kv.put(space, key, value)?;
            Ok(0)
        }
        Operation::Get { key } => kv.get(space, key, out),
        Operation::Delete { key } => {
            kv.delete(space, key)?;
            Ok(0)
        }
        Operation::Count => {
            put_count(kv.count(space), out);
            Ok(COUNT_BYTES)
        }
    }
}

/// Takes the step of the operation of this number with these bytes.
pub fn step<P: Space>(
    kv: Kv,
    op: u8,
    bytes: &[u8],
    space: &mut P,
    out: &mut [u8; PART_BYTES as usize],
) -> Result<usize, Refusal>
    requires store { IsStore kv.records (P.contents space.old) }
    requires honest { P.honest space.old }
    ensures given { given_by result (answered result out.new)
        (object_in kv.records (P.contents space.new)) ≡
        kv_step kv.records (pairs_in kv.records (P.contents space.old)) op bytes.now }
    ensures within { IfOk result (λ len. len ≤ PART_BYTES) }
    ensures short { op % 2 ≡ 1 → IfOk result (λ len. len ≤ SMALL_BYTES) }
    ensures refused { IfErr result (λ _. P.contents space.new ≡ P.contents space.old) }
    ensures store { IsStore kv.records (P.contents space.new) }
    ensures rest { P.rest space.new ≡ P.rest space.old }
    ensures honest { P.honest space.new }
{
    match read_operation(op, bytes) {
        None => Err(Refusal::BadOp),
        Some(operation) => operate(kv, operation, space, out),
    }
}
