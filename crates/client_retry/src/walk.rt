//! Walks along lists of places, to the first whose part is the wanted one.

ghost use Rattle.std.specs.Prelude.{◌≡◌, ℕ, ◌<◌, ◌≤◌, length, IsSome, slice_get};
ghost use Rattle.std.specs.List.{position_or_len};
ghost use Rattle.index_lists.specs.NodeLists.{IsIn, list_at};
ghost use Rattle.client_retry.specs.Slots.{slot_at};
ghost use Rattle.client_retry.specs.Walks.{is_wanted as is_wanted_of, wanted_at, back};
ghost use Rattle.client_retry.specs.Flights.{is_before};

use crate::flown::Flown;
use crate::slots::{PLACES, Slots};
use cl_types::limits::{LAST_RESEND, SPAN, TIMEOUT};
use cl_types::reply::Part;
use index_lists::Lists;

/// Which part a walk looks for.
#[derive(Clone, Copy)]
pub enum Wanted {
    /// One that is to be given up at the moment `now`, in ticks.
    Old { now: u64 },
    /// One that is to be sent again at the moment `now`, in ticks.
    Due { now: u64 },
    /// The one of this orig.
    Orig(u64),
    /// One behind this part, in order of call and part.
    Behind(Part),
}

/// Where a walk came to: the place of the wanted part, none at the end of the list, and the place
/// before that.
#[derive(Clone, Copy)]
pub struct Spot {
    pub before: Option<u32>,
    pub here: Option<u32>,
}

/// Walks along a list of places that all have parts, to the first with a wanted one.
pub fn walk(places: &Lists, list: u32, slots: &Slots, wanted: Wanted) -> Spot
    requires within { list < length places.now.lists }
    requires few { places.now.nodes ≤ 64 }
    requires filled { (p : ℕ) → IsIn places.now list p → IsSome (slot_at slots.now p) }
    ensures here { let along = list_at places.now list in
        result.here ≡ slice_get along (position_or_len (wanted_at slots.now wanted) along) }
    ensures before { let along = list_at places.now list in
        result.before ≡ back along (position_or_len (wanted_at slots.now wanted) along) }
{
    let mut before = None;
    let mut place = places.first(list);
    for _k in 0..PLACES {
        let Some(node) = place else {
            return Spot { before, here: None };
        };
        if is_wanted(wanted, slots.part(node)) {
            return Spot {
                before,
                here: Some(node),
            };
        }
        before = Some(node);
        place = places.next(node);
    }
    Spot { before, here: None }
}

/// Whether the part is the wanted one. A part that was sent after `now` has age 0.
fn is_wanted(wanted: Wanted, flown: Flown) -> bool
    ensures { result ≡ is_wanted_of wanted flown }
{
    match wanted {
        Wanted::Old { now } => now.saturating_sub(flown.first) >= SPAN,
        Wanted::Due { now } => {
            now.saturating_sub(flown.last) >= TIMEOUT
                && now.saturating_sub(flown.first) <= LAST_RESEND
        }
        Wanted::Orig(orig) => flown.orig == orig,
        Wanted::Behind(part) => comes_before(part, flown.part),
    }
}

/// Whether a part comes before another, in order of call and then of part.
fn comes_before(part: Part, other: Part) -> bool
    ensures { result ≡ is_before part other }
{
    part.call.0 < other.call.0 || part.call.0 == other.call.0 && part.part < other.part
}
