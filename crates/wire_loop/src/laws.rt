//! Laws of serving a node, whatever its wire and its clock give.

ghost use Rattle.wire_loop.specs.ServedAlike.{LawOfServing, TurnsAreServing};

/// Where each mutating request that comes again comes less than `SPAN` ticks after its reply was recorded, a node with
/// a bounded reply cache serves as one with an unbounded cache: the same replies go to the same peers, and the run ends
/// in the same turn.
pub fn law_of_serving()
    ensures { LawOfServing }
{}

/// The turns of `serve`, one for each receive, are the run of the definition over what the receives gave.
pub fn turns_are_serving()
    ensures { TurnsAreServing }
{}
