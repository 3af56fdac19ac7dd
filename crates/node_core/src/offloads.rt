//! The objects of a node, in the spaces of its offloads: their opening, and the requests of them.

ghost use Rattle.std.specs.Prelude.{◌≡◌, ◌<◌, ◌≤◌, ℕ, List, true, length, map, slice_get};
ghost use Rattle.std.specs.Prelude.{IfErr, IfOk, IfSome, IsTrue};
ghost use Rattle.cl_types.specs.declared.call.Kind.TheVariants.{Offload as OffloadKind};
ghost use Rattle.cl_types.specs.Bytes.{bytes_at};
ghost use Rattle.cl_types.specs.Config.{offload_pages};
ghost use Rattle.cl_types.specs.Requests.{request_of};
ghost use Rattle.cl_types.specs.declared.limits.TheConstants.{FRAME_ROOM, PART_BYTES};
ghost use Rattle.data_path.specs.Spaces.{contents_of};
ghost use Rattle.data_path.specs.Store.{IsWhole, flat_of, memory_of};
ghost use Rattle.flat_model.specs.Objects.{Object};
ghost use Rattle.flat_model.specs.Step.{outcome};
ghost use Rattle.node_core.specs.Keeping.{IsUsed};
ghost use Rattle.node_core.specs.Placed.{is_offload, may_place, placed_in};
ghost use Rattle.node_core.specs.Stores.{ChangesSpace, IsStore, state_in};
ghost use Rattle.node_core.specs.declared.placed.TheConstants.{VALUE_AT};
ghost use Rattle.offload_host.specs.Held.{HoldsEmpty, HoldsObject, TakesStep};
ghost use Rattle.offload_host.specs.Laws.{replied};
ghost use Rattle.page_pool.specs.PoolPages.{IsReady};

use crate::placed::{PlacedReply, VALUE_AT};
use cl_types::limits::PART_BYTES;
use cl_types::reply::Refusal;
use cl_types::request::RequestRef;
use data_path::PageStore;
use offload_host::Host;

/// The greatest number of bytes that an object answers.
const ANSWER_BYTES: usize = PART_BYTES as usize;

/// Makes the space of an offload hold its object as it is at the opening.
fn init_space(store: &mut PageStore, host: &Host, no: u8)
    requires exists { no < length host.now }
    requires whole { IsWhole store.old }
    requires ready { IsReady store.old.pool }
    requires spaces { store.old.spaces ≡ map offload_pages host.now }
    ensures holds { IfSome (slice_get host.now no) (λ offload.
        HoldsObject offload (contents_of no store.new)) }
    ensures empty { IfSome (slice_get host.now no) (λ offload.
        HoldsEmpty offload (contents_of no store.new)) }
    ensures others { ChangesSpace no store.old store.new }
    ensures whole { IsWhole store.new }
    ensures ready { IsReady store.new.pool }
{
    let mut space = store.space_of(no);
    host.init(no, &mut space);
}

/// Makes the space of each offload hold its object as it is at the opening.
pub fn init_spaces(store: &mut PageStore, host: &Host)
    requires whole { IsWhole store.old }
    requires ready { IsReady store.old.pool }
    requires spaces { store.old.spaces ≡ map offload_pages host.now }
    ensures sound { IsStore store.new host.now }
    ensures empty { (k : ℕ) → IfSome (slice_get host.now k) (λ offload.
        HoldsEmpty offload (contents_of k store.new)) }
    ensures rest { (objects : List Object) →
        flat_of objects (memory_of store.new) ≡ flat_of objects (memory_of store.old) }
    ensures pages { store.new.pool.pages ≡ store.old.pool.pages }
    ensures cache { store.new.cache ≡ store.old.cache }
{
    for no in 0..host.count() {
        init_space(store, host, no);
    }
}

/// Takes one step of the object in the space of an offload. An answer stands at the front of
/// `answer`.
fn call(
    store: &mut PageStore,
    host: &mut Host,
    no: u8,
    op: u8,
    bytes: &[u8],
    answer: &mut [u8; ANSWER_BYTES],
) -> Result<usize, Refusal>
    requires exists { no < length host.old }
    requires sound { IsStore store.old host.old }
    ensures step { IfSome (slice_get host.old no) (λ offload.
        TakesStep offload (contents_of no store.old) op bytes.now
        result answer.new (contents_of no store.new)) }
    ensures refused { IfErr result (λ _. contents_of no store.new ≡ contents_of no store.old) }
    ensures within { IfOk result (λ len. len ≤ PART_BYTES) }
    ensures long { length answer.new ≡ PART_BYTES }
    ensures object { IfSome (slice_get host.old no) (λ offload.
        HoldsObject offload (contents_of no store.new)) }
    ensures others { ChangesSpace no store.old store.new }
    ensures whole { IsWhole store.new }
    ensures ready { IsReady store.new.pool }
    ensures host { host.new ≡ host.old }
{
    let mut space = store.space_of(no);
    host.call(no, op, bytes, &mut space, answer)
}

/// What an offload gave, of which at most `most` bytes are answered, as a reply.
fn answer_placed(came: Result<usize, Refusal>, most: u16) -> PlacedReply
    requires within { IfOk came (λ len. len ≤ PART_BYTES) }
    ensures reply { (out : List ℕ) →
        placed_in result out ≡ replied most came (bytes_at VALUE_AT PART_BYTES out) }
    ensures fits { IsTrue (may_place OffloadKind result) }
{
    match came {
        Ok(len) => PlacedReply::Got(len.min(most as usize)),
        Err(refusal) => PlacedReply::Refused(refusal),
    }
}

/// Executes a request of an object.
pub fn execute(
    store: &mut PageStore,
    host: &mut Host,
    request: &RequestRef,
    out: &mut [u8],
) -> PlacedReply
    requires object { is_offload (request_of request.now) ≡ true }
    requires room { length out.old ≡ FRAME_ROOM }
    requires sound { IsStore store.old host.old }
    ensures reply { (pid : ℕ) → placed_in result out.new
        ≡ (outcome (state_in host.old store.old) pid (request_of request.now)).reply }
    ensures state { (pid : ℕ) → state_in host.new store.new
        ≡ (outcome (state_in host.old store.old) pid (request_of request.now)).state }
    ensures fits { IsTrue (may_place OffloadKind result) }
    ensures latest { (pid : ℕ) → IsUsed store.new.cache pid (request_of request.now) }
    ensures sound { IsStore store.new host.new }
    ensures pages { store.new.pool.pages ≡ store.old.pool.pages }
{
    let RequestRef::Offload {
        no,
        op,
        out: most,
        bytes,
    } = *request
    else {
        unreachable!()
    };
    if no >= host.count() {
        return PlacedReply::Refused(Refusal::NoOffload);
    }
    let (_, tail) = out.split_at_mut(VALUE_AT);
    let Some(answer) = tail.first_chunk_mut::<ANSWER_BYTES>() else {
        unreachable!()
    };
    let came = call(store, host, no, op, bytes, answer);
    answer_placed(came, most)
}
