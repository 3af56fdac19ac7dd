//! A schedule, line by line.

ghost use Rattle.std.specs.Prelude.{◌≡◌};
ghost use Rattle.texts.specs.Grammar.{schedule_of};
ghost use Rattle.schedule_text.specs.Reading.{Reads};

use crate::fault::ScheduleFault;
use crate::lines::{next_line, too_long};
use crate::reading::Reading;
use cl_types::schedule::Schedule;
use std::alloc::Global;

/// Reads the schedule that the bytes spell, or tells their first bad line. That the bytes or their
/// lines are too many is told before any line.
pub fn read(alloc: Global, bytes: &[u8]) -> Result<Schedule, ScheduleFault>
    ensures { Reads bytes.now (schedule_of bytes.now) result }
{
    if let Some(fault) = too_long(bytes) {
        return Err(fault);
    }
    let mut reading = Reading::create(alloc);
    let mut rest = bytes;
    let mut number = 1;
    while !rest.is_empty() {
        let (line, more) = next_line(rest);
        if let Err(fault) = reading.read_line(alloc, number, line) {
            return Err(fault);
        }
        rest = more;
        number += 1;
    }
    reading.finish(number)
}
