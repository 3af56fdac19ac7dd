//! An Atomic on a page store: a word is read and changed where it stands.
//!
//! `apply` is the flat machine's Atomic on the store's meaning. It finds the page once, by `PageStore::open`, so it reads
//! at most one bucket and takes at most one page, and then reads the word and puts the new one in its place.
#![tactic(auto)]

ghost use Rattle.std.specs.Prelude.{◌≡◌, ◌+◌, ◌%◌, ◌<◌, ◌≤◌, length, IsSome};
ghost use Rattle.std.specs.Int.{from_le_bytes, w64};
ghost use Rattle.cl_types.specs.declared.limits.TheConstants.{ADDRESS_END, PAGE_BYTES};
ghost use Rattle.cl_types.specs.declared.reply.Reply.TheVariants.{Word};
ghost use Rattle.data_path.specs.Access.{reply_in};
ghost use Rattle.data_path.specs.Store.{memory_of, IsLatest, IsWhole};
ghost use Rattle.cl_types.specs.Pages.{page_of, word_after, word_at};
ghost use Rattle.flat_model.specs.Step.{atomic};
ghost use Rattle.page_pool.specs.PoolPages.{IsReady};
ghost use Rattle.translate_cache.specs.Cached.{entry_of as cached_entry};

use cl_types::call::AtomicOp;
use cl_types::numbers::{Addr, Space16};
use cl_types::reply::Refusal;
use cl_types::steps::Steps;
use data_path::{Need, PageStore, offset_of};
use std::sync::ledger::Ledger;

/// Changes the word at an address that is a multiple of 8, and gives the old one: an Atomic. A fresh page gets a frame
/// in any case.
pub fn apply<A: Ledger, B: Ledger>(
    store: &mut PageStore,
    space: Space16,
    addr: Addr,
    op: AtomicOp,
    reads: &mut Steps<A>,
    takes: &mut Steps<B>,
) -> Result<u64, Refusal>
    requires good { addr.0 < ADDRESS_END }
    requires aligned { addr.0 % 8 ≡ 0 }
    requires whole { IsWhole store.old }
    requires ready { IsReady store.old.pool }
    ensures reply { reply_in Word result ≡ (atomic (memory_of store.old) space.0 addr op).reply }
    ensures memory { memory_of store.new ≡ (atomic (memory_of store.old) space.0 addr op).state }
    ensures whole { IsWhole store.new }
    ensures ready { IsReady store.new.pool }
    ensures cost { reads.new ≤ reads.old + 1 }
    ensures hit { IsSome (cached_entry store.old.cache (space.0, page_of addr))
        → reads.new ≡ reads.old }
    ensures taken { takes.new ≤ takes.old + 1 }
    ensures latest { IsLatest store.new.cache (space.0, page_of addr) }
    ensures spaces { store.new.spaces ≡ store.old.spaces }
{
    let frame = store.open(space, addr, Need::Change, reads, takes)?;
    let at = offset_of(addr);
    let word = word_in(store.arena.page(frame.0), at);
    store.put(frame, at, &word_after(op, word).to_le_bytes());
    Ok(word)
}

// The word of 8 bytes, little-endian, from a place of a page on.
fn word_in(page: &[u8], at: usize) -> u64
    requires { at + 8 ≤ length page.now }
    ensures { result ≡ word_at at page.now }
{
    word_of(&page[at..at + 8])
}

// The word that 8 bytes stand for.
fn word_of(bytes: &[u8]) -> u64
    requires { length bytes.now ≡ 8 }
    ensures { result ≡ from_le_bytes w64 bytes.now }
{
    u64::from_le_bytes([
        bytes[0], bytes[1], bytes[2], bytes[3], bytes[4], bytes[5], bytes[6], bytes[7],
    ])
}

// The word that an atomic leaves in place of this one.
fn word_after(op: AtomicOp, word: u64) -> u64
    ensures { result ≡ word_after op word }
{
    match op {
        AtomicOp::Lock => { if word == 0 { 1 } else { word } }
        AtomicOp::Unlock => 0,
        AtomicOp::Add { n } => word.wrapping_add(n),
        AtomicOp::Cas { expect, put } => { if word == expect { put } else { word } }
    }
}
