//! What selects are to each other.

ghost use Rattle.df_offload.specs.Laws.{AnswersAreTheHits, SelectsAreTheHits, SelectsGoForward};

/// Selects with one test from cursor 0, each going on at the next cursor until that is the number of rows, give the hits
/// when they are joined.
pub fn selects_are_the_hits()
    ensures { SelectsAreTheHits }
{}

/// A select from before the end goes on behind its cursor, so selects that go on reach the end.
pub fn selects_go_forward()
    ensures { SelectsGoForward }
{}

/// The answers to such selects as operations, each without its cursor, are the bytes of the hits when they are joined.
pub fn answers_are_the_hits()
    ensures { AnswersAreTheHits }
{}
