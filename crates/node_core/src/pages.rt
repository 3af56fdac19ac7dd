//! Requests of processes, on the pages of a node.

ghost use Rattle.std.specs.Prelude.{◌≡◌, ◌+◌, ◌≤◌, ℕ, List, true, false, length, IsSome, IsTrue};
ghost use Rattle.cl_types.specs.declared.call.Kind.TheVariants.{Alloc as AllocKind, Atomic as AtomicKind, Free as FreeKind, Read as ReadKind, Write as WriteKind};
ghost use Rattle.cl_types.specs.declared.limits.TheConstants.{FRAME_ROOM};
ghost use Rattle.cl_types.specs.declared.reply.Reply.TheVariants.{Nothing, At, Word};
ghost use Rattle.cl_types.specs.Places.{is_process};
ghost use Rattle.cl_types.specs.Requests.{request_of};
ghost use Rattle.data_path.specs.Access.{reply_in};
ghost use Rattle.data_path.specs.Store.{memory_of, IsLatest, IsWhole};
ghost use Rattle.frame_model.specs.Frames.{kind_of};
ghost use Rattle.cl_types.specs.Pages.{page_of};
ghost use Rattle.cl_types.specs.Ranges.{is_in_range, is_page_count, is_piece};
ghost use Rattle.flat_model.specs.Step.{alloc, outcome, read};
ghost use Rattle.node_core.specs.Keeping.{Hits, IsUsed};
ghost use Rattle.node_core.specs.Placed.{is_access, is_offload, may_place, placed_in};
ghost use Rattle.page_pool.specs.PoolPages.{IsReady};
ghost use Rattle.translate_cache.specs.Cached.{entry_of};

use crate::placed::{PlacedReply, VALUE_AT};
use cl_types::call::Perm;
use cl_types::numbers::{Addr, Pid, Space16};
use cl_types::reply::Refusal;
use cl_types::request::RequestRef;
use cl_types::steps::Steps;
use data_path::PageStore;
use std::sync::ledger::Ledger;
use word_atomics::apply;

/// A result without a value, as a reply.
fn nothing_in(came: Result<(), Refusal>) -> PlacedReply
    ensures reply { (out : List ℕ) → placed_in result out ≡ reply_in (λ _. Nothing) came }
    ensures free { IsTrue (may_place FreeKind result) }
    ensures write { IsTrue (may_place WriteKind result) }
{
    match came {
        Ok(()) => PlacedReply::Nothing,
        Err(refusal) => PlacedReply::Refused(refusal),
    }
}

/// The old word of an atomic, as a reply.
fn word_placed(came: Result<u64, Refusal>) -> PlacedReply
    ensures reply { (out : List ℕ) → placed_in result out ≡ reply_in Word came }
    ensures fits { IsTrue (may_place AtomicKind result) }
{
    match came {
        Ok(word) => PlacedReply::Word(word),
        Err(refusal) => PlacedReply::Refused(refusal),
    }
}

/// Reads bytes to their place in the frame of the reply.
fn read_placed<A: Ledger>(
    store: &mut PageStore,
    pid: Pid,
    addr: Addr,
    len: u16,
    out: &mut [u8],
    reads: &mut Steps<A>,
) -> PlacedReply
    requires piece { IsTrue (is_piece addr len) }
    requires room { length out.old ≡ FRAME_ROOM }
    requires whole { IsWhole store.old }
    requires ready { IsReady store.old.pool }
    ensures reply { placed_in result out.new ≡ (read (memory_of store.old) pid addr len).reply }
    ensures memory { memory_of store.new ≡ (read (memory_of store.old) pid addr len).state }
    ensures fits { IsTrue (may_place ReadKind result) }
    ensures whole { IsWhole store.new }
    ensures ready { IsReady store.new.pool }
    ensures spaces { store.new.spaces ≡ store.old.spaces }
    ensures latest { IsLatest store.new.cache (pid, page_of addr) }
    ensures hit { IsSome (entry_of store.old.cache (pid, page_of addr)) → reads.new ≡ reads.old }
    ensures cost { reads.new ≤ reads.old + 1 }
{
    let (_, tail) = out.split_at_mut(VALUE_AT);
    let (body, _) = tail.split_at_mut(len as usize);
    match store.read_part(Space16(pid.number()), addr, body, reads) {
        Ok(()) => PlacedReply::Got(len as usize),
        Err(refusal) => PlacedReply::Refused(refusal),
    }
}

/// Maps a range of pages.
fn alloc_placed(store: &mut PageStore, pid: Pid, pages: u16, perm: Perm) -> PlacedReply
    requires pages { IsTrue (is_page_count pages) }
    requires whole { IsWhole store.old }
    requires ready { IsReady store.old.pool }
    ensures reply { (out : List ℕ) →
        placed_in result out ≡ (alloc (memory_of store.old) pid pages perm).reply }
    ensures memory { memory_of store.new ≡ (alloc (memory_of store.old) pid pages perm).state }
    ensures fits { IsTrue (may_place AllocKind result) }
    ensures whole { IsWhole store.new }
    ensures ready { IsReady store.new.pool }
    ensures spaces { store.new.spaces ≡ store.old.spaces }
{
    match store.alloc_range(Space16(pid.number()), pages, perm) {
        Ok(addr) => PlacedReply::At(addr),
        Err(refusal) => PlacedReply::Refused(refusal),
    }
}

/// Executes a request of a process that is none of an object.
#[tactic(auto, using(crate::proofs::Pieces::piece_of))]
pub fn execute<A: Ledger, B: Ledger>(
    store: &mut PageStore,
    pid: Pid,
    request: &RequestRef,
    out: &mut [u8],
    reads: &mut Steps<A>,
    takes: &mut Steps<B>,
) -> PlacedReply
    requires range { IsTrue (is_in_range (request_of request.now)) }
    requires pages { is_offload (request_of request.now) ≡ false }
    requires room { length out.old ≡ FRAME_ROOM }
    requires whole { IsWhole store.old }
    requires ready { IsReady store.old.pool }
    ensures reply { placed_in result out.new
        ≡ (outcome (memory_of store.old) pid (request_of request.now)).reply }
    ensures memory { memory_of store.new
        ≡ (outcome (memory_of store.old) pid (request_of request.now)).state }
    ensures fits { IsTrue (may_place (kind_of (request_of request.now)) result) }
    ensures process { IsTrue (is_process pid) }
    ensures whole { IsWhole store.new }
    ensures ready { IsReady store.new.pool }
    ensures spaces { store.new.spaces ≡ store.old.spaces }
    ensures latest { IsUsed store.new.cache pid (request_of request.now) }
    ensures hit { Hits store.old.cache pid (request_of request.now) → reads.new ≡ reads.old }
    ensures reads { is_access (request_of request.now) ≡ true → reads.new ≤ reads.old + 1 }
    ensures takes { is_access (request_of request.now) ≡ true → takes.new ≤ takes.old + 1 }
{
    let space = Space16(pid.number());
    match *request {
        RequestRef::Alloc { pages, perm } => alloc_placed(store, pid, pages, perm),
        RequestRef::Free { addr, pages } => nothing_in(store.free_range(space, addr, pages)),
        RequestRef::Read { addr, len } => read_placed(store, pid, addr, len, out, reads),
        RequestRef::Write { addr, bytes } => {
            nothing_in(store.write_part(space, addr, bytes, reads, takes))
        }
        RequestRef::Atomic { addr, op } => {
            word_placed(apply(store, space, addr, op, reads, takes))
        }
        RequestRef::Offload { .. } => unreachable!(),
    }
}
