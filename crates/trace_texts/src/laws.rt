//! Laws of the schedules that are read from bytes.

ghost use Rattle.trace_texts.specs.ReadSchedules.{SchedulesAreGood};

/// Every schedule that bytes spell has events on rising lines, with numbers of their types, of clients of its
/// configuration, whose numbers are such as a frame carries.
pub fn schedules_read_are_good()
    ensures { SchedulesAreGood }
{}
