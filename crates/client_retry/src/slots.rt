//! The parts in flight at their places, 0 to 63. They stand in a slab, whose room is made once.

ghost use Rattle.std.specs.Prelude.{◌≡◌, ◌<◌, None, Some, IfOk, IsSome, replicate, slice_set};
ghost use Rattle.client_retry.specs.Slots.{slot_at};

use crate::flown::Flown;
use cl_types::items::NoMemory;
use cl_types::limits::PARTS_IN_FLIGHT;
use slab::Slab;
use std::alloc::Global;
use std::marker::Model;

/// How many places there are: as many as parts may be in flight.
pub const PLACES: usize = 64;

// Each part in flight has a place.
const _: () = prove!(PLACES == PARTS_IN_FLIGHT as usize);

/// The parts in flight at their places.
#[derive(Drop)]
pub struct Slots {
    // There is room for a part at each place.
    parts: Slab<Flown>,
    // Of each place the key of its part in the slab.
    keys: [Option<usize>; PLACES],
}

impl Model for Slots {
    ghost use Rattle.std.specs.Prelude.{List, Option, map};
    ghost use Rattle.client_retry.specs.declared.flown.Flown.{Flown};

    ghost Value = { List (Option Flown) };

    ghost use Rattle.client_retry.specs.Slots.{slot_under, IsKept};

    ghost view = { λ s. map (slot_under s.parts) s.keys };

    ghost invariant = { λ s. IsKept s.parts s.keys };
}

impl Slots {
    /// No part at any place. `NoMemory` comes where an allocation was refused.
    pub fn create(alloc: Global) -> Result<Slots, NoMemory>
        ensures { IfOk result (λ slots. slots ≡ replicate 64 None) }
    {
        Ok(Slots {
            parts: Slab::with_capacity(alloc, PLACES)?,
            keys: [None; PLACES],
        })
    }

    /// The part at a place.
    pub fn part(&self, place: u32) -> Flown
        requires { IsSome (slot_at self.now place) }
        ensures { slot_at self.now place ≡ Some result }
    {
        let Some(key) = self.keys[place as usize] else {
            unreachable!()
        };
        let Some(part) = self.parts.get(key) else {
            unreachable!()
        };
        *part
    }

    /// Puts a part at a place that has none.
    pub fn put(&mut self, place: u32, part: Flown)
        requires within { place < 64 }
        requires vacant { slot_at self.old place ≡ None }
        ensures { self.new ≡ slice_set self.old place (Some part) }
    {
        let key = self.parts.insert_reserved(part);
        self.keys[place as usize] = Some(key);
    }

    /// Takes the part at a place out.
    pub fn take(&mut self, place: u32) -> Flown
        requires { IsSome (slot_at self.old place) }
        ensures part { slot_at self.old place ≡ Some result }
        ensures slots { self.new ≡ slice_set self.old place None }
    {
        let Some(key) = self.keys[place as usize] else {
            unreachable!()
        };
        self.keys[place as usize] = None;
        self.parts.remove(key)
    }
}
