//! A law of histories: a function that does nothing, with the law as its contract.

ghost use Rattle.trace.specs.HistoryLaws.{HistoriesAreInOrder};

/// The history of every account stands in the order of line and position.
pub fn histories_are_in_order()
    ensures { HistoriesAreInOrder }
{}
