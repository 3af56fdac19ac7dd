//! `StdClock`: the system's clock, in ticks.

ghost use Rattle.std.specs.Prelude.{◌≡◌, None};

use crate::Clock;
use std::num::NonZeroU32;
use std::time;
use std::time::{Duration, Instant};

// The length of a tick where none is told, in microseconds.
const TICK_MICROS: u32 = 10_000;

/// Counts ticks from its making. Where the system's clock can't be read, it
/// repeats its last answer, at first 0; where it can't be read at the making, it counts from the
/// first time that it can.
#[derive(Drop)]
pub struct StdClock<C> {
    system: C,
    tick_micros: NonZeroU32,
    start: Option<Instant>,
    last: u64,
}

impl<C: time::Clock> StdClock<C> {
    /// A clock at 0 with ticks of 10 milliseconds, over this clock of the system, as `&rt`.
    pub fn create(system: C) -> Self
        ensures { result.last ≡ 0 }
    {
        let Some(tick) = NonZeroU32::new(TICK_MICROS) else {
            unreachable!()
        };
        StdClock::create_with(system, tick)
    }

    /// A clock at 0 with ticks of so many microseconds, over this clock of the system, as `&rt`.
    pub fn create_with(system: C, tick_micros: NonZeroU32) -> Self
        ensures { result.last ≡ 0 }
    {
        let start = Instant::now(&system).ok();
        StdClock {
            system,
            tick_micros,
            start,
            last: 0,
        }
    }

    // How long ago the start was.
    fn passed(&mut self) -> Option<Duration> {
        let now = Instant::now(&self.system).ok()?;
        let start = *self.start.get_or_insert(now);
        Some(now.duration_since(start))
    }
}

impl<C: time::Clock> Clock for StdClock<C> {
    ghost moments = { λ _. None };

    fn now(&mut self) -> u64 {
        if let Some(passed) = self.passed() {
            self.last = ticks_in(passed, self.tick_micros);
        }
        self.last
    }
}

// How many whole ticks have passed. `as_micros` would give 128-bit numbers, to be divided at each reading.
fn ticks_in(passed: Duration, tick_micros: NonZeroU32) -> u64 {
    let of_seconds = passed.as_secs().saturating_mul(1_000_000);
    let micros = of_seconds.saturating_add(u64::from(passed.subsec_micros()));
    micros / u64::from(tick_micros.get())
}
