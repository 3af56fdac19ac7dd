//! `Rows`: the calls that have not ended, in order of issue. A row is large, and stays at its place in a slab while its call is
//! held: where a call ends, only the entries behind its own move.

ghost use Rattle.std.specs.Prelude.{◌≡◌, ◌<◌, ◌≤◌, ◌==◌, ◌++◌, ◌∷◌, [], length, None, Some, IfOk, find, is_some, option_map, slice_get, slice_set, true};
ghost use Rattle.std.specs.List.{list_any, remove};
ghost use Rattle.cl_types.specs.Requests.{reply_of};
ghost use Rattle.client_model.specs.Cut.{Replied, GivenUp};
ghost use Rattle.call_cut.specs.Taking.{TakesFor};
ghost use Rattle.cl_types.specs.declared.limits.TheConstants.{HELD_CALLS};
ghost use Rattle.client_core.specs.Held.{Held, has_unsent, held_at, with_came, with_one_sent};

use crate::row::CallRow;
use cl_types::items::NoMemory;
use cl_types::limits::HELD_CALLS;
use cl_types::numbers::CallNo;
use cl_types::reply::ReplyRef;
use slab::Slab;
use std::alloc::Global;
use std::marker::Model;

/// The number of a held call, and the key of its row.
#[derive(Clone, Copy)]
pub struct Entry {
    pub no: CallNo,
    pub key: usize,
}

/// The calls that have not ended, at most `HELD_CALLS`.
#[derive(Drop)]
pub struct Rows {
    // There is room for `HELD_CALLS`.
    slab: Slab<CallRow>,
    // An entry for each call, in order of issue. There is room for `HELD_CALLS`.
    entries: Vec<Entry>,
}

impl Model for Rows {
    ghost use Rattle.std.specs.Prelude.{List, map, vec_capacity};
    ghost use Rattle.client_core.specs.Held.{Held};

    ghost Value = { List Held };

    ghost use Rattle.client_core.specs.Entries.{held_under, AreInPlace};

    ghost view = { λ r. map (held_under r.slab) r.entries.items };

    ghost invariant = { λ r. AreInPlace r.slab r.entries.items (vec_capacity r.entries) };
}

impl Rows {
    /// No calls, and room for `HELD_CALLS`. `NoMemory` comes where an allocation was refused.
    pub fn create(alloc: Global) -> Result<Rows, NoMemory>
        ensures { IfOk result (λ rows. rows ≡ []) }
    {
        Ok(Rows {
            slab: Slab::with_capacity(alloc, HELD_CALLS as usize)?,
            entries: Vec::with_capacity(alloc, HELD_CALLS as usize)?,
        })
    }

    /// How many calls there are.
    pub fn len(&self) -> usize
        ensures len { result ≡ length self.now }
        ensures few { result ≤ HELD_CALLS }
    {
        self.entries.len()
    }

    /// Takes a call, the latest.
    pub fn push(&mut self, row: CallRow)
        requires few { length self.old < HELD_CALLS }
        ensures { self.new ≡ self.old ++ row ∷ [] }
    {
        let no = row.no();
        let key = self.slab.insert_reserved(row);
        self.entries.push_reserved(Entry { no, key });
    }

    /// The call at an index.
    pub fn row(&self, at: usize) -> &CallRow
        requires { at < length self.now }
        ensures { slice_get self.now at ≡ Some result.now }
    {
        let key = self.entries[at].key;
        &self.slab[key]
    }

    /// Whether a call of this number is among these.
    pub fn has(&self, no: CallNo) -> bool
        ensures { result ≡ list_any (λ h. h.number == no.0) self.now }
    {
        has_entry(&self.entries, no)
    }

    /// The index of the call of this number, the first of that number.
    pub fn place(&self, no: CallNo) -> usize
        requires { is_some (held_at no.0 self.now) ≡ true }
        ensures within { result < length self.now }
        ensures there { slice_get self.now result ≡ held_at no.0 self.now }
    {
        entry_at(&self.entries, no)
    }

    /// Takes that the first unsent part of the call at an index was sent.
    pub fn note_sent(&mut self, at: usize)
        requires { option_map has_unsent (slice_get self.old at) ≡ Some true }
        ensures { (h : Held) → slice_get self.old at ≡ Some h
            → self.new ≡ slice_set self.old at (with_one_sent h) }
    {
        let key = self.entries[at].key;
        let row = &mut self.slab[key];
        row.note_sent();
    }

    /// Takes the reply to part `i` of the call at an index, of which nothing has come.
    pub fn take(&mut self, at: usize, i: u16, reply: &ReplyRef)
        requires within { at < length self.old }
        requires still { (h : Held) → slice_get self.old at ≡ Some h → slice_get h.came i ≡ Some None }
        requires fits { (h : Held) → slice_get self.old at ≡ Some h → TakesFor h.call i (reply_of reply.now) }
        ensures { (h : Held) → slice_get self.old at ≡ Some h
            → self.new ≡ slice_set self.old at (with_came i (Replied (reply_of reply.now)) h) }
    {
        let key = self.entries[at].key;
        let row = &mut self.slab[key];
        row.take(i, reply);
    }

    /// Takes that part `i` of the call at an index, of which nothing has come, was given up. Both moments are in ticks.
    pub fn give_up(&mut self, at: usize, i: u16, first_sent: u64, now: u64)
        requires within { at < length self.old }
        requires still { (h : Held) → slice_get self.old at ≡ Some h → slice_get h.came i ≡ Some None }
        ensures { (h : Held) → slice_get self.old at ≡ Some h
            → self.new ≡ slice_set self.old at (with_came i (GivenUp first_sent now) h) }
    {
        let key = self.entries[at].key;
        let row = &mut self.slab[key];
        row.give_up(i, first_sent, now);
    }

    /// Takes the call at an index out.
    pub fn remove(&mut self, at: usize) -> CallRow
        requires { at < length self.old }
        ensures row { slice_get self.old at ≡ Some result }
        ensures rows { self.new ≡ remove self.old at }
    {
        let entry = self.entries.remove(at);
        self.slab.remove(entry.key)
    }
}

/// Whether an entry of this number is among these.
fn has_entry(entries: &[Entry], no: CallNo) -> bool
    ensures { result ≡ list_any (λ e. e.no.0 == no.0) entries.now }
{
    entries.iter().any(|entry| entry.no.0 == no.0)
}

/// The index of the entry of this number, the first of that number.
fn entry_at(entries: &[Entry], no: CallNo) -> usize
    requires { is_some (find (λ e. e.no.0 == no.0) entries.now) ≡ true }
    ensures within { result < length entries.now }
    ensures there { slice_get entries.now result ≡ find (λ e. e.no.0 == no.0) entries.now }
{
    for i in 0..entries.len() {
        let entry = &entries[i];
        if entry.no.0 == no.0 {
            return i;
        }
    }
    unreachable!()
}
