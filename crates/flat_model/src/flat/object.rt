//! The objects of a flat machine.

ghost use Rattle.std.specs.Prelude.{◌≡◌, ◌<◌, IfOk, OnErr, IfSome, length, slice_get};
ghost use Rattle.flat_model.specs.Checks.{Checks, ChecksOne, reply_given};
ghost use Rattle.flat_model.specs.Objects.{object_step};
ghost use Rattle.flat_model.specs.Step.{offload};

use crate::flat::Flat;
use crate::replies::is_refusal;
use crate::store::KvStore;
use cl_types::items::NoMemory;
use cl_types::reply::{Refusal, Reply};
use std::alloc::Global;

fn check_one(
    alloc: Global,
    objects: &mut Vec<KvStore>,
    i: usize,
    op: u8,
    bytes: &[u8],
    out: u16,
    reply: &Reply,
) -> Result<bool, NoMemory>
    requires { i < length objects.old.items }
    ensures checks { IfOk result (λ may. IfSome (slice_get objects.old.items i) (λ object.
        ChecksOne objects.old.items i object op bytes.now out reply.now may objects.new.items)) }
    ensures wanted { OnErr result (IfSome (slice_get objects.old.items i) (λ object.
        reply.now ≡ reply_given out (object_step object op bytes.now))) }
    ensures unchanged { OnErr result (objects.new.items ≡ objects.old.items) }
{
    let object = &mut objects[i];
    object.check(alloc, op, bytes, out, reply)
}

impl Flat {
    fn object_count(&self) -> usize
        ensures { result ≡ length self.now.objects }
    {
        self.objects.len()
    }

    /// Whether the machine gives this reply to an operation of an offload, and its step if it does.
    /// Without memory it stays as it was.
    pub(crate) fn check_offload(
        &mut self,
        alloc: Global,
        number: u8,
        op: u8,
        out: u16,
        bytes: &[u8],
        reply: &Reply,
    ) -> Result<bool, NoMemory>
        ensures checks { IfOk result (λ may.
            Checks self.old (offload self.old number op out bytes.now) reply.now may self.new) }
        ensures wanted { OnErr result (reply.now ≡ (offload self.old number op out bytes.now).reply) }
        ensures unchanged { OnErr result (self.new ≡ self.old) }
    {
        let i = number as usize;
        if self.object_count() <= i {
            return Ok(is_refusal(reply, Refusal::NoOffload));
        }
        check_one(alloc, &mut self.objects, i, op, bytes, out, reply)
    }
}
