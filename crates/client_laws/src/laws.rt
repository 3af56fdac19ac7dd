//! A client's state, read off the account of a schedule, is the state of the client's machine. And laws of that machine
//! alone, whatever it is given.

ghost use Rattle.client_laws.specs.ClientLines.{PollLaw, IssueLaw, ReplyLaw, QuietLaw};
ghost use Rattle.client_laws.specs.Flights.{FlightLaw};
ghost use Rattle.client_laws.specs.Following.{ClientsBegin, ClientsFollow, AccountsTell};
ghost use Rattle.client_laws.specs.JunkHeard.{LawOfJunkHeard};
ghost use Rattle.client_laws.specs.Readiness.{ReadyInAccounts, ReadyLaw};

/// Before the first event each client is new.
pub fn clients_begin_new()
    ensures { ClientsBegin }
{}

/// In the account of every list of events, each line leaves each client as its machine does: a call is judged and
/// issued, a poll does what the machine's poll does, a live reply is heard, and all else leaves the client.
pub fn clients_follow_their_machine()
    ensures { ClientsFollow }
{}

/// In every account each part that left flight tells what came of it, and nothing is said of calls that were not
/// issued.
pub fn accounts_tell_endings()
    ensures { AccountsTell }
{}

/// A client of an account lets a call go exactly where it depends on none of the calls that have not ended.
pub fn ready_calls_depend_on_none()
    ensures { ReadyInAccounts }
{}

// ---- one line, over any account that tells its endings

/// A line that polls a client leaves it as the machine's poll does, whatever the poll was.
#[tactic(auto, using(crate::proofs::ClientLines::poll_law))]
pub fn law_of_polls()
    ensures { PollLaw }
{}

/// A line that issues a call leaves the client as the machine's call does.
#[tactic(auto, using(crate::proofs::ClientLines::after_issuing))]
pub fn law_of_issues()
    ensures { IssueLaw }
{}

/// A line that takes a reply leaves the client as the machine's taking does.
pub fn law_of_replies()
    ensures { ReplyLaw }
{}

/// A line that says nothing of a client leaves it.
#[tactic(auto, using(crate::proofs::ClientLines::after_quiet))]
pub fn law_of_the_others()
    ensures { QuietLaw }
{}

/// A call that waits for none of those that have not ended depends on none of them, and the other way round.
pub fn law_of_readiness()
    ensures { ReadyLaw }
{}

/// A flight of the client's state is a part of an issued call that the account shows as sent so, and not over.
pub fn law_of_flights()
    ensures { FlightLaw }
{}

// ---- the machine alone

/// Bad bytes, another client's reply, a late one and one that doesn't fit are nothing: without them a client's other
/// answers are the same, and so is the client after them.
pub fn law_of_junk_heard()
    ensures { LawOfJunkHeard }
{}
