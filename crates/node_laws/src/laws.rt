//! Laws of a node and of the flat machine alone, whoever sends to it.

ghost use Rattle.node_laws.specs.Junk.{LawOfJunk};
ghost use Rattle.node_laws.specs.Locks.{LawOfLocks};
ghost use Rattle.node_laws.specs.RepliesFit.{RepliesFit};
ghost use Rattle.node_laws.specs.Retained.{LawOfRetained};
ghost use Rattle.node_laws.specs.Span.{LawOfSpan};

/// Where no changing request comes as long as the span after it was recorded, a node that keeps the latest replies
/// answers as one that keeps all, and executes no request twice. Moments must not fall.
pub fn law_of_span()
    ensures { LawOfSpan }
{}

/// Whatever a node was given since its opening, it keeps as many replies as it executed requests, or as many as it may
/// where these are fewer.
pub fn law_of_retained()
    ensures { LawOfRetained }
{}

/// In every run of the flat machine, between two Locks that both took one word stands an entry that was not refused and
/// releases it: a Write, Unlock, Add or Cas that touches the word, or a Free of its page.
pub fn law_of_locks()
    ensures { LawOfLocks }
{}

/// In every run each reply is one that a frame of its request's kind can carry, and is as long as the request asks.
pub fn replies_fit_their_requests()
    ensures { RepliesFit }
{}

/// What a node answers with a fault, or with busy to each item, is nothing: without it the other answers are the same,
/// and so is the node after them, whichever records the node keeps.
pub fn law_of_junk()
    ensures { LawOfJunk }
{}
