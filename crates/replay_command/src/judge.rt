//! What the bytes of an input ask of a replay.

ghost use Rattle.std.specs.Prelude.{IfOk};
ghost use Rattle.world.specs.Running.{HaveNumbersApart};
ghost use Rattle.replay_command.specs.Wanted.{IsOpened, IsWantedBy};

use cl_types::items::NoMemory;
use cl_types::schedule::Schedule;
use command_text::{Output, bad_node, open, refuse};
use schedule_text::read;
use std::alloc::Global;
use world::World;

/// What a schedule asks for.
#[derive(Drop)]
pub enum Wanted {
    /// An output that tells why nothing is replayed.
    Refused(Output),
    /// A replay of the schedule, over its world at the opening.
    Opened(Schedule, World),
}

/// What a schedule asks for.
fn judge_schedule(alloc: Global, schedule: Schedule) -> Result<Wanted, NoMemory>
    requires { HaveNumbersApart schedule.config }
    ensures { IfOk result (IsOpened schedule) }
{
    match open(alloc, &schedule.config)? {
        Ok(world) => Ok(Wanted::Opened(schedule, world)),
        Err(fault) => Ok(Wanted::Refused(bad_node(alloc, fault)?)),
    }
}

/// What the bytes of an input ask of a replay.
pub fn judge(alloc: Global, bytes: &[u8]) -> Result<Wanted, NoMemory>
    ensures { IfOk result (IsWantedBy bytes.now) }
{
    match read(alloc, bytes) {
        Ok(schedule) => judge_schedule(alloc, schedule),
        Err(fault) => Ok(Wanted::Refused(refuse(alloc, fault)?)),
    }
}
