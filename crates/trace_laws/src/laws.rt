//! Laws of the account of every schedule.

ghost use Rattle.trace_laws.specs.NodeLines.{NodesFollow};
ghost use Rattle.trace_laws.specs.Runs.{LawOfRuns};
ghost use Rattle.trace_laws.specs.Times.{LawOfTimes};
ghost use Rattle.trace_laws.specs.Window.{LawOfWindow, OneAccount};

/// A frame that carries a part is sent at an age of the part at which it may still be sent again, and is live only
/// before the part may be given up. None is live once its part was given up, and none is live as long as the span
/// after an entry of its part.
pub fn law_of_times()
    ensures { LawOfTimes }
{}

/// The history of every account is a run of the flat machine from its opening, and each peek shows the memory of that
/// run on its line.
pub fn law_of_runs()
    ensures { LawOfRuns }
{}

/// While a request frame is live, the latest changing entries, so many as the node keeps, tell of each part that it
/// carries what all tell.
pub fn law_of_window()
    ensures { LawOfWindow }
{}

/// The account that remembers the latest changing entries, so many as the node keeps, is the account that remembers
/// all, where the node keeps at least one.
pub fn one_account_for_the_other()
    ensures { OneAccount }
{}

// ---- the node of an account

/// In the account of every schedule, each line leaves the node as its machine does: a live request frame is a step of
/// the node that keeps the latest replies, and brings the texts, frames and entries of what it says; all else leaves it.
pub fn node_follows_its_machine()
    ensures { NodesFollow }
{}
