//! The events of a schedule in the making.

ghost use Rattle.std.specs.Prelude.{◌≡◌, ◌+◌, ◌<◌, [], ◌∷◌, ◌++◌, OnOk, OnErr, length};
ghost use Rattle.std.specs.List.{enumerate_from};
ghost use Rattle.storm_gen.specs.declared.limits.TheConstants.{MOST_EVENTS};

use cl_types::items::NoMemory;
use cl_types::schedule::{Event, EventList};
use std::alloc::Global;
use std::marker::Model;

/// The number of the first event's line, after the five lines of the header.
const FIRST_LINE: u32 = 6;

/// The events so far. A clause sees them in order, without the numbers of their lines.
#[derive(Drop)]
pub struct Lines {
    events: EventList,
    // The number of the next event's line.
    next: u32,
}

impl Model for Lines {
    ghost use Rattle.std.specs.Prelude.{List, map};
    ghost use Rattle.cl_types.specs.declared.schedule.Event.{Event};
    ghost use Rattle.storm_gen.specs.Numbering.{AreNumbered};

    ghost Value = { List Event };

    ghost view = { λ lines. map (λ e. e.1) lines.events };

    ghost invariant = { λ lines. AreNumbered lines.events lines.next };
}

impl Lines {
    /// No event.
    pub fn create(alloc: Global) -> Self
        ensures { result ≡ [] }
    {
        Lines {
            events: EventList::create(alloc),
            next: FIRST_LINE,
        }
    }

    /// Appends an event, under the number of the next line.
    pub fn push(&mut self, event: Event) -> Result<(), NoMemory>
        requires { length self.old < MOST_EVENTS }
        ensures { OnOk result (self.new ≡ self.old ++ event ∷ []) }
    {
        self.events.push((self.next, event))?;
        self.next += 1;
        Ok(())
    }

    /// The events, each with the number of its line.
    pub fn numbered(self) -> EventList
        ensures { result ≡ enumerate_from 6 self }
    {
        self.events
    }
}
