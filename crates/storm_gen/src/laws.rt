//! What whoever replays a generated schedule may rely on.

ghost use Rattle.storm_gen.specs.Suitable.{GeneratedSuit};

/// Every generated schedule has what the laws of traces and a world ask of a schedule: rising lines below `LINES_END`,
/// calls with numbers of their types, four clients with numbers of their own, plain events, and a node that opens.
pub fn generated_schedules_suit_worlds()
    ensures { GeneratedSuit }
{}
