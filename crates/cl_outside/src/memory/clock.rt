//! `ScriptClock`: a clock that answers a list of moments.

ghost use Rattle.std.specs.Prelude.{◌≡◌, Some};
ghost use Rattle.cl_outside.specs.Clock.{Moments};
ghost use Rattle.cl_outside.specs.Memory.{last_of};

use crate::Clock;
use std::marker::Model;

/// Answers these moments, one after another, and after them the last again and again, or 0 where
/// there is none.
#[derive(Drop)]
pub struct ScriptClock {
    moments: Vec<u64>,
    // How many of the moments were given.
    at: usize,
    repeated: u64,
}

impl Model for ScriptClock {
    ghost use Rattle.std.specs.Prelude.{drop};
    ghost use Rattle.cl_outside.specs.Clock.{Moments};

    ghost Value = { Moments };

    ghost view = { λ s. record { coming = drop s.at s.moments.items; repeated = s.repeated } };
}

impl ScriptClock {
    /// A clock with all of these moments to come. It keeps the list.
    pub fn create(moments: Vec<u64>) -> ScriptClock
        ensures { result ≡ record { coming = moments.items; repeated = last_of moments.items } }
    {
        let repeated = moments.last().copied().unwrap_or(0);
        ScriptClock {
            moments,
            at: 0,
            repeated,
        }
    }
}

impl Clock for ScriptClock {
    ghost moments = { λ s. Some s };

    fn now(&mut self) -> u64 {
        match self.moments.get(self.at) {
            Some(moment) => {
                self.at += 1;
                *moment
            }
            None => self.repeated,
        }
    }
}
