//! Laws of the histories and of the calls of every account.

ghost use Rattle.history_laws.specs.Ends.{CallsAddUp, SummariesAddUp};
ghost use Rattle.history_laws.specs.Histories.{LawOfStands, LawOfParts, LawOfOrder};

/// In every account as many calls as a client issued have ended, as the lines tell, or are held by it.
pub fn calls_add_up()
    ensures { CallsAddUp }
{}

/// Each entry stands at a delivery of a live frame that carries its part: for a changing part the first at which the
/// node was not busy, for a reading part the one that made the reply which the client took.
pub fn law_of_stands()
    ensures { LawOfStands }
{}

/// Each entry of the history is of a part of an issued call, with the part's request, and no part has two. Each call
/// answered other than timed out has an entry of each of its parts, and their replies make the answer and its bytes.
pub fn law_of_parts()
    ensures { LawOfParts }
{}

/// Where one call of a client depends on another, all entries of the call that was issued first stand first.
pub fn law_of_order()
    ensures { LawOfOrder }
{}

/// Where the clients of the events are those of the configuration, and no two have one number, each summary adds up: as
/// many calls were issued as are counted done, refused, timed out and unended together, and as many are unended as the
/// clients hold.
pub fn summaries_add_up()
    ensures { SummariesAddUp }
{}
