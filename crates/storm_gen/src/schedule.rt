//! A generated schedule.

ghost use Rattle.std.specs.Prelude.{◌≡◌, ◌≤◌, IfOk};
ghost use Rattle.storm_gen.specs.declared.limits.TheConstants.{MOST_CALLS};
ghost use Rattle.storm_gen.specs.Generated.{events_drawn, generated};

use crate::lines::Lines;
use crate::node::{config, header};
use crate::round::rounds;
use crate::settling::{allocate_all, settle_all};
use cl_types::items::NoMemory;
use cl_types::schedule::Schedule;
use std::alloc::Global;

/// The events: each client allocates, one round for each call, and the closing rounds.
fn events(alloc: Global, seed: u64, calls: u32) -> Result<Lines, NoMemory>
    requires { calls ≤ MOST_CALLS }
    ensures { IfOk result (λ lines. lines ≡ events_drawn seed calls) }
{
    let mut lines = Lines::create(alloc);
    allocate_all(&mut lines)?;
    rounds(alloc, seed, calls, &mut lines)?;
    settle_all(&mut lines)?;
    Ok(lines)
}

/// The schedule of a seed and a number of calls. Equal numbers give equal schedules. Its only error is that memory ran
/// out.
pub fn storm(alloc: Global, seed: u64, calls: u32) -> Result<Schedule, NoMemory>
    requires { calls ≤ MOST_CALLS }
    ensures { IfOk result (λ schedule. schedule ≡ generated seed calls) }
{
    Ok(Schedule {
        header: header(alloc)?,
        config: config(alloc)?,
        events: events(alloc, seed, calls)?.numbered(),
    })
}
