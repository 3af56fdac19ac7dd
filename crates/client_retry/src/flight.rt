//! `Flight`: the parts in flight and their calls.

ghost use Rattle.std.specs.Prelude.{◌≡◌, ◌<◌, ◌≤◌, ◌==◌, ◌∷◌, ℕ, true, false, [], length, find, option_map, IfOk, IsSome, slice_get};
ghost use Rattle.std.specs.List.{insert, position_or_len, range_with_len};
ghost use Rattle.index_lists.specs.NodeLists.{IsFree, IsIn, IsValid, list_at, with_list};
ghost use Rattle.client_retry.specs.Fields.{chain_of as chain_of_orig};
ghost use Rattle.client_retry.specs.Flights.{Flights, with_flown, has_part, has_orig, without, sent_again};
ghost use Rattle.client_retry.specs.Rules.{due_of};
ghost use Rattle.client_retry.specs.Slots.{slot_at};
ghost use Rattle.client_retry.specs.Walks.{wanted_at};
ghost use Rattle.client_retry.specs.declared.walk.Wanted.TheVariants.{Behind, Orig};

use crate::due::Due;
use crate::flown::Flown;
use crate::slots::{PLACES, Slots};
use crate::walk::{Wanted, walk};
use cl_types::items::NoMemory;
use cl_types::limits::PARTS_IN_FLIGHT;
use cl_types::reply::Part;
use index_lists::Lists;
use std::alloc::Global;
use std::marker::Model;

/// The list of places in use, in order of call and part.
const FLYING: u32 = 0;

/// The list of the other places.
const FREE: u32 = 1;

/// The parts of one client in flight, at most `PARTS_IN_FLIGHT`.
#[derive(Drop)]
pub struct Flight {
    // Each part stands at a place.
    slots: Slots,
    //     FLYING   7 -> 2 -> 5     in order of call and part
    //     FREE     the other places
    places: Lists,
    // A list for each remainder of an orig by the number of places:
    //     3   2 -> 7     the places of the parts whose orig leaves 3
    chains: Lists,
    // How many parts are in flight.
    count: u32,
    // The latest moment at which a part was sent or sent again, in ticks.
    last: u64,
}

impl Model for Flight {
    ghost use Rattle.client_retry.specs.Flights.{Flights};

    ghost Value = { Flights };

    ghost use Rattle.client_retry.specs.Fields.{flights, IsSound};

    ghost view = { λ f. flights f.slots f.places f.last };

    ghost invariant = { λ f. IsSound f.slots f.places f.chains f.count };
}

impl Flight {
    /// No part in flight, and room for `PARTS_IN_FLIGHT`. `NoMemory` comes where an allocation was
    /// refused.
    pub fn create(alloc: Global) -> Result<Flight, NoMemory>
        ensures { IfOk result (λ flight. flight ≡ record { flown = []; last = 0 }) }
    {
        let Ok(chains) = Lists::create(alloc, PLACES as u32, PLACES as u32) else {
            return Err(NoMemory);
        };
        Ok(Flight {
            slots: Slots::create(alloc)?,
            places: all_free(alloc)?,
            chains,
            count: 0,
            last: 0,
        })
    }

    /// Takes that the part was first sent under the id, at the moment `now`, in ticks.
    pub fn sent(&mut self, part: Part, id: u64, now: u64)
        requires few { length self.old.flown < PARTS_IN_FLIGHT }
        requires part { has_part part self.old.flown ≡ false }
        requires id { has_orig id self.old.flown ≡ false }
        requires moment { self.old.last ≤ now }
        ensures flown { self.new.flown ≡ with_flown
            (record { part = part; orig = id; first = now; last = now }) self.old.flown }
        ensures last { self.new.last ≡ now }
    {
        let Some(place) = self.places.pop_front(FREE) else {
            unreachable!()
        };
        let flown = Flown {
            part,
            orig: id,
            first: now,
            last: now,
        };
        self.slots.put(place, flown);
        self.chains.push_back(chain_of(id), place);
        put_in_order(&mut self.places, &self.slots, place, part);
        self.count += 1;
        self.last = now;
    }

    /// Takes that the part of this orig was sent again at the moment `now`, in ticks.
    pub fn resent(&mut self, orig: u64, now: u64)
        requires there { has_orig orig self.old.flown ≡ true }
        requires moment { self.old.last ≤ now }
        ensures flown { self.new.flown ≡ sent_again orig now self.old.flown }
        ensures last { self.new.last ≡ now }
    {
        let Some(place) = place_of(&self.chains, &self.slots, orig) else {
            unreachable!()
        };
        let flown = self.slots.take(place);
        self.slots.put(place, Flown { last: now, ..flown });
        self.last = now;
    }

    /// Takes that the part of this orig was given up.
    pub fn give_up(&mut self, orig: u64)
        requires { has_orig orig self.old.flown ≡ true }
        ensures flown { self.new.flown ≡ without orig self.old.flown }
        ensures last { self.new.last ≡ self.old.last }
    {
        self.hear(orig);
    }

    /// What is due at the moment `now`, in ticks.
    pub fn due(&self, now: u64) -> Due
        requires { self.now.last ≤ now }
        ensures { result ≡ due_of self.now.flown now }
    {
        if let Some(place) = walk(&self.places, FLYING, &self.slots, Wanted::Old { now }).here {
            let old = self.slots.part(place);
            return Due::GiveUp {
                part: old.part,
                orig: old.orig,
                first_sent: old.first,
            };
        }
        let Some(place) = walk(&self.places, FLYING, &self.slots, Wanted::Due { now }).here else {
            return Due::Nothing;
        };
        let due = self.slots.part(place);
        Due::Resend {
            part: due.part,
            orig: due.orig,
        }
    }

    /// The part in flight of this orig. `None` comes exactly where there is none.
    pub fn part_of(&self, orig: u64) -> Option<Part>
        ensures { result ≡ option_map (λ f. f.part) (find (λ f. f.orig == orig) self.now.flown) }
    {
        let Some(place) = place_of(&self.chains, &self.slots, orig) else {
            return None;
        };
        Some(self.slots.part(place).part)
    }

    /// Takes that a reply was heard: the part of this orig, which is no longer in flight. `None`
    /// comes exactly where there is none.
    pub fn hear(&mut self, orig: u64) -> Option<Part>
        ensures part { result
            ≡ option_map (λ f. f.part) (find (λ f. f.orig == orig) self.old.flown) }
        ensures flown { self.new.flown ≡ without orig self.old.flown }
        ensures last { self.new.last ≡ self.old.last }
    {
        let Some(place) = place_of(&self.chains, &self.slots, orig) else {
            return None;
        };
        let flown = self.slots.take(place);
        self.chains.remove(place);
        self.places.remove(place);
        self.places.push_back(FREE, place);
        self.count -= 1;
        Some(flown.part)
    }

    /// How many parts are in flight.
    pub fn count(&self) -> u32
        ensures { result ≡ length self.now.flown }
    {
        self.count
    }
}

/// The chain of the parts of an orig.
fn chain_of(orig: u64) -> u32
    ensures { result ≡ chain_of_orig orig }
{
    (orig % PLACES as u64) as u32
}

/// The place of the part of this orig, where there is one.
fn place_of(chains: &Lists, slots: &Slots, orig: u64) -> Option<u32>
    requires count { length chains.now.lists ≡ 64 }
    requires few { chains.now.nodes ≤ 64 }
    requires filled { (l p : ℕ) → IsIn chains.now l p → IsSome (slot_at slots.now p) }
    ensures { let chain = list_at chains.now (chain_of_orig orig) in
        result ≡ slice_get chain (position_or_len (wanted_at slots.now (Orig orig)) chain) }
{
    walk(chains, chain_of(orig), slots, Wanted::Orig(orig)).here
}

/// Lists of places, all of them in the list `FREE`.
fn all_free(alloc: Global) -> Result<Lists, NoMemory>
    ensures free { IfOk result
        (λ places. places ≡ record { nodes = 64; lists = [] ∷ range_with_len 0 64 ∷ [] }) }
    ensures valid { IfOk result IsValid }
{
    let Ok(mut places) = Lists::create(alloc, PLACES as u32, 2) else {
        return Err(NoMemory);
    };
    for place in 0..PLACES as u32 {
        places.push_back(FREE, place);
    }
    Ok(places)
}

/// Puts a place that is in no list into the list `FLYING`, where the part comes by its call and
/// part.
fn put_in_order(places: &mut Lists, slots: &Slots, place: u32, part: Part)
    requires two { length places.old.lists ≡ 2 }
    requires few { places.old.nodes ≡ 64 }
    requires valid { IsValid places.old }
    requires within { place < 64 }
    requires free { IsFree places.old place }
    requires filled { (p : ℕ) → IsIn places.old 0 p → IsSome (slot_at slots.now p) }
    ensures places { let flying = list_at places.old 0 in places.new ≡ with_list places.old 0
        (insert flying (position_or_len (wanted_at slots.now (Behind part)) flying) place) }
    ensures valid { IsValid places.new }
{
    match walk(places, FLYING, slots, Wanted::Behind(part)).before {
        None => places.push_front(FLYING, place),
        Some(before) => places.insert_after(place, before),
    }
}
