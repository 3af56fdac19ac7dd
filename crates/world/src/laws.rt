//! A world follows the account of a schedule.

ghost use Rattle.world.specs.Follows.{WorldsBegin, WorldsFollow};

/// A world in which nothing has happened stands for no event.
pub fn worlds_begin_empty()
    ensures { WorldsBegin }
{}

/// A world that stands for the events of a good schedule stands, after a step of its machine, for
/// these and one event more, and the step tells the line of the account, in which the node keeps its
/// latest records.
pub fn worlds_follow_their_account()
    ensures { WorldsFollow }
{}
