//! `Retry`: the buffer and its calls.

ghost use Rattle.std.specs.Prelude.{◌≡◌, ◌+◌, ◌<◌, ◌≤◌, ◌↔◌, [], ◌∷◌, ◌++◌, None, length, drop, option_map, IsOk, IfOk, IfErr, if◌then◌else◌, ◌==◌};
ghost use Rattle.node_model.specs.Handling.{RefusesForNow, on_oldest};
ghost use Rattle.retry_buffer.specs.Kept.{IsValid, HasRoom, AreNotedBy, name_of, noted_as, oldest_moment, with_noted};

use crate::chain::{NEIGHBOURS, chain_of};
use crate::noted::Noted;
use cl_types::call::Kind;
use cl_types::items::NoMemory;
use cl_types::limits::SPAN;
use cl_types::numbers::ClientNo;
use cl_types::small_reply::SmallReply;
use index_lists::Lists;
use std::alloc::Global;
use std::marker::Model;

/// There is no room: the oldest record is younger than `SPAN`.
#[derive(Clone, Copy, Debug, PartialEq, Eq)]
pub struct Young {
    /// When the oldest record was noted, in ticks.
    pub oldest: u64,
    /// The moment at which room was asked for, in ticks.
    pub now: u64,
}

/// The latest replies.
///
/// `look` and `room` are asked before a changing request is executed, and `note` is called after.
#[derive(Drop)]
pub struct Retry {
    // The records by their places. Once all places are filled, each further record takes the place
    // of the oldest: of capacity 3, after records a to d, the oldest being b
    //     [ d b c ]
    slots: Vec<Noted>,
    // The place of the oldest record, and 0 until all places are filled.
    oldest: u32,
    capacity: u32,
    // For each chain the places of the records whose names have it, the latest first.
    chains: Lists,
}

impl Model for Retry {
    ghost use Rattle.retry_buffer.specs.Kept.{Kept};

    ghost Value = { Kept };

    ghost use Rattle.std.specs.Prelude.{vec_capacity};
    ghost use Rattle.retry_buffer.specs.Fields.{IsSound, kept_in};

    ghost view = { λ r. kept_in r.capacity r.oldest r.slots.items };

    ghost invariant = { λ r. IsSound r.slots.items r.oldest r.capacity (vec_capacity r.slots) r.chains };
}

impl Retry {
    /// No records, and room for `capacity`, 1 to 65,536. `NoMemory` comes where an allocation was refused.
    pub fn create(alloc: Global, capacity: u32) -> Result<Retry, NoMemory>
        requires some { 1 ≤ capacity }
        requires most { capacity ≤ 65536 }
        ensures empty { IfOk result (λ retry. retry ≡ record { capacity = capacity; records = [] }) }
        ensures valid { IfOk result IsValid }
    {
        let slots = Vec::with_capacity(alloc, capacity as usize)?;
        // The last hash has a chain, and so have the ids beside it.
        let Ok(chains) = Lists::create(alloc, capacity, capacity + (NEIGHBOURS as u32 - 1)) else {
            return Err(NoMemory);
        };
        Ok(Retry {
            slots,
            oldest: 0,
            capacity,
            chains,
        })
    }

    /// The reply that was noted under this name. `None` comes exactly where no record has the name.
    pub fn look(&self, client: ClientNo, kind: Kind, orig: u64) -> Option<SmallReply>
        ensures { result ≡ option_map (λ r. r.reply)
            (noted_as (record { client = client; kind = kind; orig = orig }) self.now.records) }
    {
        let chain = chain_of(client, kind, orig, self.capacity);
        let mut at = self.chains.first(chain);
        while let Some(place) = at {
            let noted = &self.slots[place as usize];
            if noted.is_of(client, kind, orig) {
                return Some(noted.reply);
            }
            at = self.chains.next(place);
        }
        None
    }

    /// Whether a further reply may be noted at the moment `now`, in ticks, which isn't before that of any record. It
    /// may not exactly where the buffer is full and its oldest record is younger than `SPAN`.
    pub fn room(&self, now: u64) -> Result<(), Young>
        requires later { AreNotedBy now self.now.records }
        ensures room { IsOk result ↔ HasRoom self.now now }
        ensures young { IfErr result (λ young.
            (on_oldest now (oldest_moment self.now) ≡ RefusesForNow young.oldest) × (young.now ≡ now)) }
    {
        if self.slots.len() < self.capacity as usize {
            return Ok(());
        }
        let oldest = self.slots[self.oldest as usize].moment;
        if now - oldest < SPAN {
            return Err(Young { oldest, now });
        }
        Ok(())
    }

    /// Notes a reply at the moment `now`, in ticks, under a name that no record has. A full buffer drops its oldest
    /// record.
    pub fn note(&mut self, now: u64, client: ClientNo, kind: Kind, orig: u64, reply: SmallReply)
        requires later { AreNotedBy now self.old.records }
        requires room { HasRoom self.old now }
        requires apart { noted_as (record { client = client; kind = kind; orig = orig }) self.old.records ≡ None }
        ensures noted { self.new ≡ with_noted
            (record { moment = now; client = client; kind = kind; orig = orig; reply = reply }) self.old }
        ensures valid { IsValid self.new }
    {
        let noted = Noted {
            moment: now,
            client,
            kind,
            orig,
            reply,
        };
        if self.slots.len() == self.capacity as usize {
            self.replace_oldest(noted);
        } else {
            self.append(noted);
        }
    }

    /// How many records there are, at most the capacity.
    pub fn retained(&self) -> u32
        ensures count { result ≡ length self.now.records }
        ensures within { result ≤ self.now.capacity }
        ensures valid { IsValid self.now }
    {
        self.slots.len() as u32
    }

    /// Notes a record at the first place that isn't filled.
    fn append(&mut self, noted: Noted)
        requires space { length self.old.records < self.old.capacity }
        requires later { AreNotedBy noted.moment self.old.records }
        requires apart { noted_as (name_of noted) self.old.records ≡ None }
        ensures noted { self.new ≡ record self.old { records = self.old.records ++ noted ∷ [] } }
        ensures valid { IsValid self.new }
    {
        let chain = chain_of(noted.client, noted.kind, noted.orig, self.capacity);
        let unfilled = self.slots.len();
        self.chains.push_front(chain, unfilled as u32);
        if self.slots.push(noted).is_err() {
            unreachable!()
        }
    }

    /// Notes a record at the place of the oldest.
    fn replace_oldest(&mut self, noted: Noted)
        requires full { length self.old.records ≡ self.old.capacity }
        requires later { AreNotedBy noted.moment self.old.records }
        requires apart { noted_as (name_of noted) self.old.records ≡ None }
        ensures noted { self.new ≡ record self.old { records = drop 1 self.old.records ++ noted ∷ [] } }
        ensures valid { IsValid self.new }
    {
        let chain = chain_of(noted.client, noted.kind, noted.orig, self.capacity);
        let place = self.oldest;
        self.chains.remove(place);
        self.chains.push_front(chain, place);
        self.slots[place as usize] = noted;
        self.oldest = place_after(place, self.capacity);
    }
}

/// The place after a place, round.
fn place_after(place: u32, capacity: u32) -> u32
    requires { place < capacity }
    ensures { result ≡ (if place + 1 == capacity then 0 else place + 1) }
{
    if place + 1 == capacity {
        return 0;
    }
    place + 1
}
