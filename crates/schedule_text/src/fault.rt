//! Why bytes are no schedule or script.

use cl_types::items::NoMemory;
use cl_types::limits::{INPUT_BYTES, INPUT_LINES};
use cl_types::schedule::What;

/// Why bytes were not read. `TooLong` is told before `Line`.
#[derive(Clone, Copy, Debug, PartialEq, Eq)]
pub enum ScheduleFault {
    /// The first bad line, by its number from 1, and the first that is wrong with it.
    Line { number: u32, what: What },
    /// There are more than `INPUT_BYTES` bytes, where `bytes` holds, else more than `INPUT_LINES`
    /// lines. `number` is one more than the limit.
    TooLong { bytes: bool, number: u32 },
    /// There was no memory for what was read.
    NoMemory,
}

/// Why a line was not read.
#[derive(Clone, Copy)]
pub enum LineFault {
    /// This is wrong with it.
    Bad(What),
    /// An allocation failed.
    NoMemory,
}

impl From<What> for LineFault {
    ghost use Rattle.std.specs.Prelude.{◌≡◌};
    ghost use Rattle.schedule_text.specs.declared.fault.LineFault.TheVariants.{Bad};

    ghost from_gives = { λ what stop. stop ≡ Bad what };

    fn from(what: What) -> Self {
        LineFault::Bad(what)
    }
}

impl From<NoMemory> for LineFault {
    ghost use Rattle.std.specs.Prelude.{◌≡◌};
    ghost use Rattle.schedule_text.specs.declared.fault.LineFault.TheVariants as stops;

    ghost from_gives = { λ error stop. stop ≡ stops.NoMemory };

    fn from(_error: NoMemory) -> Self {
        LineFault::NoMemory
    }
}

impl From<NoMemory> for ScheduleFault {
    ghost use Rattle.std.specs.Prelude.{◌≡◌};
    ghost use Rattle.schedule_text.specs.declared.fault.ScheduleFault.TheVariants as faults;

    ghost from_gives = { λ error fault. fault ≡ faults.NoMemory };

    fn from(_error: NoMemory) -> Self {
        ScheduleFault::NoMemory
    }
}
