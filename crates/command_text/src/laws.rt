//! What every account keeps, and what a world may rely on in every schedule that was read.

ghost use Rattle.command_text.specs.Headline.{LawOfHeadline};
ghost use Rattle.command_text.specs.Suited.{SchedulesAreSuited};

/// The history of every schedule that bytes spell is a run of the flat machine from empty spaces;
/// each entry stands at a delivery of its own frame; each part of an answered call is there exactly
/// once, with the reply that made its answer, and any other at most once; a client's dependent
/// calls stand in issue order; every peek shows the run's memory.
pub fn headline()
    ensures { LawOfHeadline }
{}

/// Every schedule that bytes within the limits spell has 1 to 64 clients with numbers of their own,
/// lines below `LINES_END`, and events with arguments that a world takes.
pub fn schedules_suit_worlds()
    ensures { SchedulesAreSuited }
{}
